//! Reading a connection until a head is whole.
ghost use Rattle.std.specs.Prelude.{◌≡◌, ◌≤◌, length, Err};
ghost use Rattle.std.specs.Io.KnownBytes.{Keeps};
ghost use Rattle.ba_ports.specs.Causes.{Rose};
ghost use Rattle.ba_http_head.specs.inside.Fetches.{Fetches, ended};

use crate::blocks::{BLOCK, read_block};
use crate::faults::HttpFault;
use crate::headings::Heading;
use crate::scans::{LineStart, MOST_FIELDS, Shown, scan};
use ba_core::Octets;
use ba_ports::Link;
use httparse::spans::EMPTY_HEADER_SPAN;
use std::alloc::Global;

/// Bytes that were read, and how many at their beginning are a whole head.
#[derive(Debug, Drop)]
pub struct Fetched {
    pub bytes: Octets,
    pub len: usize,
}

/// Reads until a head is whole, or something else shows itself.
pub fn fetch<K: Link>(alloc: Global, link: &mut K, heading: Heading) -> Result<Fetched, HttpFault>
    ensures found { Fetches heading (K.left link.old) (K.left link.new) result }

    ensures written { Keeps (K.written link.old) (K.written link.new) }
    ensures cause { (result ≡ Err HttpFault.Read) → Rose (K.faults link.old) (K.faults link.new) }
    ensures later { K.faults link.old ≤ K.faults link.new }
    ensures stayed { (result ≡ Err HttpFault.Read → ⊥) → K.faults link.new ≡ K.faults link.old }
{
    match vec![in alloc; 0u8; BLOCK] {
        Ok(mut block) => fetch_by(alloc, link, heading, block.as_mut_slice()),
        Err(_) => Err(HttpFault::Memory),
    }
}

// Reads into a block at a time.
fn fetch_by<K: Link>(
    alloc: Global,
    link: &mut K,
    heading: Heading,
    block: &mut [u8],
) -> Result<Fetched, HttpFault>
    requires { length block.old ≡ BLOCK }
    ensures found { Fetches heading (K.left link.old) (K.left link.new) result }

    ensures written { Keeps (K.written link.old) (K.written link.new) }
    ensures cause { (result ≡ Err HttpFault.Read) → Rose (K.faults link.old) (K.faults link.new) }
    ensures later { K.faults link.old ≤ K.faults link.new }
    ensures stayed { (result ≡ Err HttpFault.Read → ⊥) → K.faults link.new ≡ K.faults link.old }
{
    let mut hand = Octets::new(alloc);
    let mut at = 0;
    let mut line = LineStart {
        place: 0,
        filled: 0,
    };
    let mut room = [EMPTY_HEADER_SPAN; MOST_FIELDS];
    'reading: loop {
        match read_block(link, block, &mut hand) {
            Ok(0) => return Err(HttpFault::Truncated),
            Ok(_) => (),
            Err(fault) => return Err(fault),
        }
        match scan(heading, hand.as_slice(), &mut at, &mut line, &mut room) {
            None => (),
            Some(shown) => return ended(shown, hand, at),
        }
    }
}

// What is answered where this shows itself at the last of the first `len` bytes.
fn ended(shown: Shown, bytes: Octets, len: usize) -> Result<Fetched, HttpFault>
    ensures { result ≡ ended shown bytes len }
{
    match shown {
        Shown::Whole => Ok(Fetched { bytes, len }),
        Shown::Bad(place) => Err(HttpFault::BadHead(place as u64)),
        Shown::Large => Err(HttpFault::TooLarge),
    }
}
