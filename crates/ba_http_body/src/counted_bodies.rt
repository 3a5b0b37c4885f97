//! A body of so many bytes.
ghost use Rattle.std.specs.Prelude.{◌≡◌, ◌<◌, ◌≤◌, ◌⊎◌, ◌++◌, ℕ, List, [], length, take, OnErr, IfOk, IfErr, Err};
ghost use Rattle.std.specs.Io.KnownBytes.{Consumes, IsAtEnd, Keeps};
ghost use Rattle.ba_http_body.specs.Counted.{Counts};
ghost use Rattle.ba_ports.specs.Causes.{Rose};
ghost use Rattle.ba_ports.specs.Inputs.{TakesAtMost};

use crate::takers::Taker;
use ba_http_head::{BLOCK, HttpFault};
use ba_ports::Link;
use std::alloc::Global;

/// Gives a taker a body of so many bytes. The first of them, or all, are at hand; the others are read.
pub fn read_counted<K: Link, T: Taker>(
    alloc: Global,
    link: &mut K,
    hand: &[u8],
    count: u64,
    taker: &mut T,
) -> Result<(), HttpFault>
    ensures body { Counts (T.stands taker.old) (T.stands taker.new) hand.now count (K.left link.old) (K.left link.new) result }

    ensures written { Keeps (K.written link.old) (K.written link.new) }
    ensures cause { (result ≡ Err HttpFault.Read) → Rose (K.faults link.old) (K.faults link.new) }
    ensures later { K.faults link.old ≤ K.faults link.new }
    ensures stayed { (result ≡ Err HttpFault.Read → ⊥) → K.faults link.new ≡ K.faults link.old }
{
    let first = count.min(hand.len() as u64);
    match taker.take(&hand[..first as usize]) {
        Ok(()) => (),
        Err(_) => return Err(HttpFault::Memory),
    }
    match vec![in alloc; 0u8; BLOCK] {
        Ok(mut block) => count_by(link, block.as_mut_slice(), count - first, taker),
        Err(_) => Err(HttpFault::Memory),
    }
}

// Gives a taker so many bytes, all of which are read.
fn count_by<K: Link, T: Taker>(
    link: &mut K,
    block: &mut [u8],
    count: u64,
    taker: &mut T,
) -> Result<(), HttpFault>
    requires { length block.old ≡ BLOCK }
    ensures body { Counts (T.stands taker.old) (T.stands taker.new) [] count (K.left link.old) (K.left link.new) result }

    ensures written { Keeps (K.written link.old) (K.written link.new) }
    ensures cause { (result ≡ Err HttpFault.Read) → Rose (K.faults link.old) (K.faults link.new) }
    ensures later { K.faults link.old ≤ K.faults link.new }
    ensures stayed { (result ≡ Err HttpFault.Read → ⊥) → K.faults link.new ≡ K.faults link.old }
{
    let mut left = count;
    'reading: while left > 0 {
        match give_block(link, block, left, taker) {
            Ok(0) => return Err(HttpFault::Truncated),
            Ok(size) => left = left.saturating_sub(size as u64),
            Err(fault) => return Err(fault),
        }
    }
    Ok(())
}

// Gives a taker what one read gives, and at most so many bytes of it. Nothing read is the end of input.
pub fn give_block<K: Link, T: Taker>(
    link: &mut K,
    block: &mut [u8],
    most: u64,
    taker: &mut T,
) -> Result<usize, HttpFault>
    requires { 0 < length block.old }
    ensures taken { IfOk result (λ n. (more : List ℕ) × (length more ≡ n) × (n ≤ length block.old)
        × Consumes (K.left link.old) (K.left link.new) more
        × ((given : List ℕ) → T.stands taker.old given → T.stands taker.new (given ++ take most more))) }
    ensures end { IfOk result (λ n. n ≡ 0 → IsAtEnd (K.left link.new)) }
    ensures few { OnErr result (TakesAtMost (K.left link.old) (K.left link.new) (length block.old)) }
    ensures faults { IfErr result (λ fault. (fault ≡ HttpFault.Memory) ⊎ (fault ≡ HttpFault.Read)) }
    ensures none { (result ≡ Err HttpFault.Read) → Keeps (K.left link.old) (K.left link.new) }

    ensures written { Keeps (K.written link.old) (K.written link.new) }
    ensures cause { (result ≡ Err HttpFault.Read) → Rose (K.faults link.old) (K.faults link.new) }
    ensures later { K.faults link.old ≤ K.faults link.new }
    ensures stayed { (result ≡ Err HttpFault.Read → ⊥) → K.faults link.new ≡ K.faults link.old }
{
    let Ok(size) = link.read(block) else {
        return Err(HttpFault::Read);
    };
    let given = most.min(size as u64) as usize;
    match taker.take(&block[..given]) {
        Ok(()) => Ok(size),
        Err(_) => Err(HttpFault::Memory),
    }
}
