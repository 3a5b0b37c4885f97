//! The trailer of a body in chunks.
ghost use Rattle.std.specs.Prelude.{◌≡◌, ◌≤◌, length, Err};
ghost use Rattle.std.specs.Io.KnownBytes.{Keeps};
ghost use Rattle.ba_ports.specs.Causes.{Rose};
ghost use Rattle.ba_http_chunks.specs.inside.Trailers.{ReadsTrailer, answer_to};

use ba_core::Octets;
use ba_http_head::{BLOCK, Heading, HttpFault, LineStart, MOST_FIELDS, Shown, read_block, scan};
use ba_ports::Link;
use httparse::spans::EMPTY_HEADER_SPAN;

/// Reads a trailer up to its end, of which some bytes or all are at hand. So many bytes of the transfer stand before it.
pub fn read_trailer<K: Link>(
    link: &mut K,
    block: &mut [u8],
    hand: Octets,
    count: u64,
) -> Result<(), HttpFault>
    requires { length block.old ≡ BLOCK }
    ensures trailer { ReadsTrailer hand count (K.left link.old) (K.left link.new) result }

    ensures written { Keeps (K.written link.old) (K.written link.new) }
    ensures cause { (result ≡ Err HttpFault.Read) → Rose (K.faults link.old) (K.faults link.new) }
    ensures later { K.faults link.old ≤ K.faults link.new }
    ensures stayed { (result ≡ Err HttpFault.Read → ⊥) → K.faults link.new ≡ K.faults link.old }
{
    let mut bytes = hand;
    let mut at = 0;
    let mut line = LineStart {
        place: 0,
        filled: 0,
    };
    let mut room = [EMPTY_HEADER_SPAN; MOST_FIELDS];
    'reading: loop {
        match scan(
            Heading::Trailer,
            bytes.as_slice(),
            &mut at,
            &mut line,
            &mut room,
        ) {
            None => (),
            Some(shown) => return answer_to(shown, count),
        }
        match read_block(link, block, &mut bytes) {
            Ok(0) => return Err(HttpFault::Truncated),
            Ok(_) => (),
            Err(fault) => return Err(fault),
        }
    }
}

// What is answered where this shows itself, after so many bytes of the transfer.
fn answer_to(shown: Shown, count: u64) -> Result<(), HttpFault>
    ensures { result ≡ answer_to shown count }
{
    match shown {
        Shown::Whole => Ok(()),
        Shown::Bad(place) => Err(HttpFault::BadChunk(count.saturating_add(place as u64))),
        Shown::Large => Err(HttpFault::TooLarge),
    }
}
