//! A body in chunks, up to its trailer.
ghost use Rattle.std.specs.Prelude.{◌≡◌, ◌<◌, ◌≤◌, ℕ, List, [], ◌∷◌, ◌++◌, length, Ok};
ghost use Rattle.ba_http_body.specs.inside.Places.{HasRead};
ghost use Rattle.ba_http_chunks.specs.inside.Progress.{SaysSoFar, Stands, Turns, TurnsBy, Feeds, Sized, next_of, with_digit};

use ba_http_body::{Place, Step, Taker, take_byte};
use ba_http_head::{HttpFault, MOST_BODY};
use httparse::parse_hex_digit;

/// Bytes of the line that says a chunk's size, at most, with its line end.
pub const MOST_SIZE_LINE: u64 = 1_024;

/// A size line that isn't ended.
#[derive(Clone, Copy, Debug, PartialEq, Eq)]
pub struct SizeSoFar {
    /// What came last of it.
    pub place: Place,
    /// How many bytes of it have come.
    pub length: u64,
    /// The number that its digits say, which stops at the greatest.
    pub size: u64,
}

/// What comes next of a body in chunks.
#[derive(Clone, Copy, Debug, PartialEq, Eq)]
pub enum Spot {
    /// A byte of a size line.
    Line(SizeSoFar),
    /// So many bytes of a chunk, and then CR.
    Bytes(u64),
    /// The LF that ends a chunk.
    Feed,
}

/// How far a body in chunks has been read.
#[derive(Clone, Copy, Debug, PartialEq, Eq)]
pub struct Chunks {
    pub spot: Spot,
    /// The bytes of the body, with those of the chunk that was begun.
    pub got: u64,
    /// All bytes of the transfer that have come.
    pub count: u64,
}

/// What some bytes made of a body in chunks.
#[derive(Clone, Copy, Debug, PartialEq, Eq)]
pub enum Turned {
    /// It goes on so, after so many bytes.
    On(Chunks, usize),
    /// The last chunk's line is ended with this byte, and so many have come.
    Last(u64),
}

/// A body of which nothing has come.
pub fn first_chunks() -> Chunks
    ensures { Stands result [] [] }
{
    Chunks {
        spot: first_line(),
        got: 0,
        count: 0,
    }
}

// A size line of which nothing has come.
fn first_line() -> Spot
    ensures { result ≡ Spot.Line (record { place = Place.First; length = 0; size = 0 }) }
{
    Spot::Line(SizeSoFar {
        place: Place::First,
        length: 0,
        size: 0,
    })
}

/// Feeds it a piece, and gives a taker the bytes of its chunks. Where the last chunk's line ends in the piece, the answer is
/// the number of bytes up to its end, and nothing after them was taken.
pub fn feed<T: Taker>(
    chunks: &mut Chunks,
    piece: &[u8],
    taker: &mut T,
) -> Result<Option<usize>, HttpFault>
    ensures { Feeds (T.stands taker.old) (T.stands taker.new) chunks.old chunks.new piece.now result }
{
    let mut at = 0;
    'feeding: while at < piece.len() {
        let turned = match turn(*chunks, &piece[at..], taker) {
            Ok(turned) => turned,
            Err(fault) => return Err(fault),
        };
        match turned {
            Turned::On(next, size) => {
                *chunks = next;
                at += size;
            }
            Turned::Last(count) => {
                chunks.count = count;
                return Ok(Some(at + 1));
            }
        }
    }
    Ok(None)
}

// Feeds it the beginning of a piece.
fn turn<T: Taker>(chunks: Chunks, piece: &[u8], taker: &mut T) -> Result<Turned, HttpFault>
    requires { 0 < length piece.now }
    ensures { TurnsBy (T.stands taker.old) (T.stands taker.new) chunks piece.now result }
{
    match chunks.spot {
        Spot::Line(line) => take_of_line(chunks, line, piece[0]),
        Spot::Bytes(0) => take_return(chunks, piece[0]),
        Spot::Bytes(left) => take_bytes(chunks, left, piece, taker),
        Spot::Feed => take_feed(chunks, piece[0]),
    }
}

// The bytes of a chunk.
fn take_bytes<T: Taker>(
    chunks: Chunks,
    left: u64,
    piece: &[u8],
    taker: &mut T,
) -> Result<Turned, HttpFault>
    requires some { 0 < length piece.now }
    requires here { chunks.spot ≡ Spot.Bytes left }
    requires more { 0 < left }
    ensures { TurnsBy (T.stands taker.old) (T.stands taker.new) chunks piece.now result }
{
    let size = left.min(piece.len() as u64);
    match taker.take(&piece[..size as usize]) {
        Ok(()) => (),
        Err(_) => return Err(HttpFault::Memory),
    }
    let next = Chunks {
        spot: Spot::Bytes(left - size),
        got: chunks.got,
        count: chunks.count.saturating_add(size),
    };
    Ok(Turned::On(next, size as usize))
}

// The CR after a chunk's bytes.
fn take_return(chunks: Chunks, byte: u8) -> Result<Turned, HttpFault>
    requires here { chunks.spot ≡ Spot.Bytes 0 }
    ensures { Turns chunks byte result }
{
    if byte == b'\r' {
        return Ok(next_of(chunks, Spot::Feed, chunks.got));
    }
    Err(HttpFault::BadChunk(chunks.count))
}

// The LF after it.
fn take_feed(chunks: Chunks, byte: u8) -> Result<Turned, HttpFault>
    requires here { chunks.spot ≡ Spot.Feed }
    ensures { Turns chunks byte result }
{
    if byte == b'\n' {
        return Ok(next_of(chunks, first_line(), chunks.got));
    }
    Err(HttpFault::BadChunk(chunks.count))
}

// A byte of a size line.
fn take_of_line(chunks: Chunks, line: SizeSoFar, byte: u8) -> Result<Turned, HttpFault>
    requires here { chunks.spot ≡ Spot.Line line }
    ensures { Turns chunks byte result }
{
    if line.length >= MOST_SIZE_LINE {
        return Err(HttpFault::TooLarge);
    }
    let size = size_after(line.place, line.size, byte);
    match take_byte(line.place, byte) {
        Step::More(place) => {
            let line = SizeSoFar {
                place,
                length: line.length + 1,
                size,
            };
            Ok(next_of(chunks, Spot::Line(line), chunks.got))
        }
        Step::End => sized(chunks, size),
        Step::Bad => Err(HttpFault::BadChunk(chunks.count)),
    }
}

// The size line is ended, and says this size.
fn sized(chunks: Chunks, size: u64) -> Result<Turned, HttpFault>
    ensures { Sized chunks size result }
{
    if size == 0 {
        return Ok(Turned::Last(chunks.count.saturating_add(1)));
    }
    let got = chunks.got.saturating_add(size);
    if got > MOST_BODY {
        return Err(HttpFault::TooLarge);
    }
    Ok(next_of(chunks, Spot::Bytes(size), got))
}

// It goes on so after one byte.
fn next_of(chunks: Chunks, spot: Spot, got: u64) -> Turned
    ensures { result ≡ next_of chunks spot got }
{
    let next = Chunks {
        spot,
        got,
        count: chunks.count.saturating_add(1),
    };
    Turned::On(next, 1)
}

// The number that the digits say with one more byte of the line.
fn size_after(place: Place, size: u64, byte: u8) -> u64
    ensures { (line : List ℕ) → HasRead place line → SaysSoFar line size → SaysSoFar (line ++ byte ∷ []) result }
{
    match place {
        Place::First => with_digit(size, byte),
        Place::Digits => with_digit(size, byte),
        Place::Blank => size,
        Place::Extension => size,
        Place::Return => size,
    }
}

// The number with one more digit, if this is one.
fn with_digit(size: u64, byte: u8) -> u64
    ensures { result ≡ with_digit size byte }
{
    match parse_hex_digit(byte) {
        Some(digit) => size.saturating_mul(16).saturating_add(digit),
        None => size,
    }
}
