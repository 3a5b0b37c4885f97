//! The body of a message whose head was read.
ghost use Rattle.std.specs.Prelude.{◌≡◌, ◌≤◌, Err, Some};
ghost use Rattle.std.specs.Io.KnownBytes.{Keeps};
ghost use Rattle.ba_ports.specs.Causes.{Rose};
ghost use Rattle.ba_http.specs.Bodies.{GivesBody};

use ba_http_body::{Taker, read_counted, read_remaining};
use ba_http_chunks::read_chunked;
use ba_http_head::{HttpFault, Length};
use ba_ports::Link;
use std::alloc::Global;

/// Gives a taker the body of a request, of which some bytes are at hand.
pub fn read_body<K: Link, T: Taker>(
    alloc: Global,
    link: &mut K,
    length: Length,
    hand: &[u8],
    taker: &mut T,
) -> Result<(), HttpFault>
    ensures body { GivesBody (T.stands taker.old) (T.stands taker.new) (Some length) hand.now (K.left link.old) (K.left link.new) result }

    ensures written { Keeps (K.written link.old) (K.written link.new) }
    ensures cause { (result ≡ Err HttpFault.Read) → Rose (K.faults link.old) (K.faults link.new) }
    ensures later { K.faults link.old ≤ K.faults link.new }
    ensures stayed { (result ≡ Err HttpFault.Read → ⊥) → K.faults link.new ≡ K.faults link.old }
{
    match length {
        Length::Counted(count) => read_counted(alloc, link, hand, count, taker),
        Length::Chunked => read_chunked(alloc, link, hand, taker),
    }
}

/// Gives a taker the body of a reply, of which some bytes are at hand. With no length it goes on to the end of the input.
pub fn read_reply_body<K: Link, T: Taker>(
    alloc: Global,
    link: &mut K,
    length: Option<Length>,
    hand: &[u8],
    taker: &mut T,
) -> Result<(), HttpFault>
    ensures body { GivesBody (T.stands taker.old) (T.stands taker.new) length hand.now (K.left link.old) (K.left link.new) result }

    ensures written { Keeps (K.written link.old) (K.written link.new) }
    ensures cause { (result ≡ Err HttpFault.Read) → Rose (K.faults link.old) (K.faults link.new) }
    ensures later { K.faults link.old ≤ K.faults link.new }
    ensures stayed { (result ≡ Err HttpFault.Read → ⊥) → K.faults link.new ≡ K.faults link.old }
{
    match length {
        Some(length) => read_body(alloc, link, length, hand, taker),
        None => read_remaining(alloc, link, hand, taker),
    }
}
