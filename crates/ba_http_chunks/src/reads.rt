//! A body in chunks, read from a connection.
ghost use Rattle.std.specs.Prelude.{◌≡◌, ◌<◌, ◌≤◌, ℕ, List, ◌++◌, length, take, OnErr, IfOk, IfErr, Err};
ghost use Rattle.std.specs.Io.KnownBytes.{Consumes, IsAtEnd, Keeps};
ghost use Rattle.ba_ports.specs.Causes.{Rose};
ghost use Rattle.ba_http_chunks.specs.Chunked.{Unchunks};
ghost use Rattle.ba_http_chunks.specs.inside.Progress.{Stands};

use crate::chunks::{Chunks, feed, first_chunks};
use crate::trailers::read_trailer;
use ba_http_body::Taker;
use ba_http_head::{BLOCK, HttpFault, copied};
use ba_ports::Link;
use std::alloc::Global;

/// Gives a taker a body in chunks, up to the end of its trailer, whose fields are skipped. The first bytes of the transfer,
/// or all, are at hand; the others are read.
pub fn read_chunked<K: Link, T: Taker>(
    alloc: Global,
    link: &mut K,
    hand: &[u8],
    taker: &mut T,
) -> Result<(), HttpFault>
    ensures body { Unchunks (T.stands taker.old) (T.stands taker.new) hand.now (K.left link.old) (K.left link.new) result }

    ensures written { Keeps (K.written link.old) (K.written link.new) }
    ensures cause { (result ≡ Err HttpFault.Read) → Rose (K.faults link.old) (K.faults link.new) }
    ensures later { K.faults link.old ≤ K.faults link.new }
    ensures stayed { (result ≡ Err HttpFault.Read → ⊥) → K.faults link.new ≡ K.faults link.old }
{
    let mut block = match vec![in alloc; 0u8; BLOCK] {
        Ok(block) => block,
        Err(_) => return Err(HttpFault::Memory),
    };
    let mut chunks = first_chunks();
    let ended = match feed(&mut chunks, hand, taker) {
        Ok(ended) => ended,
        Err(fault) => return Err(fault),
    };
    match ended {
        None => chunks_by(alloc, link, block.as_mut_slice(), chunks, taker),
        Some(at) => {
            let Ok(rest) = copied(alloc, &hand[at..]) else {
                return Err(HttpFault::Memory);
            };
            read_trailer(link, block.as_mut_slice(), rest, chunks.count)
        }
    }
}

// Gives a taker what is left of a body in chunks, all of which is read.
fn chunks_by<K: Link, T: Taker>(
    alloc: Global,
    link: &mut K,
    block: &mut [u8],
    from: Chunks,
    taker: &mut T,
) -> Result<(), HttpFault>
    requires block { length block.old ≡ BLOCK }
    requires standing { (fed : List ℕ) × (body : List ℕ) × Stands from fed body }
    ensures body { (fed body : List ℕ) → Stands from fed body
        → Unchunks (λ given. T.stands taker.old (given ++ body)) (λ given. T.stands taker.new given) fed (K.left link.old) (K.left link.new) result }

    ensures written { Keeps (K.written link.old) (K.written link.new) }
    ensures cause { (result ≡ Err HttpFault.Read) → Rose (K.faults link.old) (K.faults link.new) }
    ensures later { K.faults link.old ≤ K.faults link.new }
    ensures stayed { (result ≡ Err HttpFault.Read → ⊥) → K.faults link.new ≡ K.faults link.old }
{
    let mut chunks = from;
    'reading: loop {
        let size = match read_some(link, block) {
            Ok(0) => return Err(HttpFault::Truncated),
            Ok(size) => size,
            Err(fault) => return Err(fault),
        };
        let ended = match feed(&mut chunks, &block[..size], taker) {
            Ok(ended) => ended,
            Err(fault) => return Err(fault),
        };
        match ended {
            None => (),
            Some(at) => {
                let Ok(rest) = copied(alloc, &block[at..size]) else {
                    return Err(HttpFault::Memory);
                };
                return read_trailer(link, block, rest, chunks.count);
            }
        }
    }
}

// Reads into the beginning of a block. Nothing read is the end of input.
fn read_some<K: Link>(link: &mut K, block: &mut [u8]) -> Result<usize, HttpFault>
    requires { 0 < length block.old }
    ensures taken { IfOk result (λ n. (n ≤ length block.old) × Consumes (K.left link.old) (K.left link.new) (take n block.new)) }
    ensures end { IfOk result (λ n. n ≡ 0 → IsAtEnd (K.left link.new)) }
    ensures fault { IfErr result (λ fault. fault ≡ HttpFault.Read) }
    ensures none { OnErr result (Keeps (K.left link.old) (K.left link.new)) }
    ensures block { length block.new ≡ length block.old }

    ensures written { Keeps (K.written link.old) (K.written link.new) }
    ensures cause { (result ≡ Err HttpFault.Read) → Rose (K.faults link.old) (K.faults link.new) }
    ensures later { K.faults link.old ≤ K.faults link.new }
    ensures stayed { (result ≡ Err HttpFault.Read → ⊥) → K.faults link.new ≡ K.faults link.old }
{
    match link.read(block) {
        Ok(size) => Ok(size),
        Err(_) => Err(HttpFault::Read),
    }
}
