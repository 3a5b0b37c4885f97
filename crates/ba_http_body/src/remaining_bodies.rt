//! A body that goes on to the end of the input.
ghost use Rattle.std.specs.Prelude.{◌≡◌, ◌+◌, ◌≤◌, [], length, Err};
ghost use Rattle.std.specs.Io.KnownBytes.{Keeps};
ghost use Rattle.ba_http_body.specs.Remaining.{EndsWithin};
ghost use Rattle.ba_ports.specs.Causes.{Rose};

use crate::counted_bodies::give_block;
use crate::takers::Taker;
use ba_http_head::{BLOCK, HttpFault, MOST_BODY};
use ba_ports::Link;
use std::alloc::Global;

/// Gives a taker all bytes up to the end of the input. The first of them, or all, are at hand; the others are read.
pub fn read_remaining<K: Link, T: Taker>(
    alloc: Global,
    link: &mut K,
    hand: &[u8],
    taker: &mut T,
) -> Result<(), HttpFault>
    ensures body { EndsWithin (T.stands taker.old) (T.stands taker.new) hand.now (MOST_BODY + 1) (K.left link.old) (K.left link.new) result }

    ensures written { Keeps (K.written link.old) (K.written link.new) }
    ensures cause { (result ≡ Err HttpFault.Read) → Rose (K.faults link.old) (K.faults link.new) }
    ensures later { K.faults link.old ≤ K.faults link.new }
    ensures stayed { (result ≡ Err HttpFault.Read → ⊥) → K.faults link.new ≡ K.faults link.old }
{
    if hand.len() as u64 > MOST_BODY {
        return Err(HttpFault::TooLarge);
    }
    match taker.take(hand) {
        Ok(()) => (),
        Err(_) => return Err(HttpFault::Memory),
    }
    match vec![in alloc; 0u8; BLOCK] {
        Ok(mut block) => remaining_by(
            link,
            block.as_mut_slice(),
            MOST_BODY + 1 - hand.len() as u64,
            taker,
        ),
        Err(_) => Err(HttpFault::Memory),
    }
}

// Gives a taker all bytes up to the end of the input, all of which are read. So many are too many.
fn remaining_by<K: Link, T: Taker>(
    link: &mut K,
    block: &mut [u8],
    past: u64,
    taker: &mut T,
) -> Result<(), HttpFault>
    requires { length block.old ≡ BLOCK }
    ensures body { EndsWithin (T.stands taker.old) (T.stands taker.new) [] past (K.left link.old) (K.left link.new) result }

    ensures written { Keeps (K.written link.old) (K.written link.new) }
    ensures cause { (result ≡ Err HttpFault.Read) → Rose (K.faults link.old) (K.faults link.new) }
    ensures later { K.faults link.old ≤ K.faults link.new }
    ensures stayed { (result ≡ Err HttpFault.Read → ⊥) → K.faults link.new ≡ K.faults link.old }
{
    let mut left = past;
    'reading: while left > 0 {
        match give_block(link, block, left, taker) {
            Ok(0) => return Ok(()),
            Ok(size) => left = left.saturating_sub(size as u64),
            Err(fault) => return Err(fault),
        }
    }
    Err(HttpFault::TooLarge)
}
