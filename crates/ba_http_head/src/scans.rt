//! Heads and trailers, looked at as their bytes come.
ghost use Rattle.std.specs.Prelude.{◌≡◌, ◌-◌, ◌<◌, ◌≤◌, length, take, false, IfSome, None, if◌then◌else◌};
ghost use Rattle.ba_http_head.specs.HeadLines.{start_lines, is_empty_line};
ghost use Rattle.ba_http_head.specs.Looks.{Shows, IsLooked};

use crate::asks::{Asked, ask_after};
use crate::headings::Heading;
use httparse::spans::HeaderSpan;

/// Bytes of a head or of a trailer, at most.
pub const MOST_HEAD: usize = 16_384;

/// Fields of a head or of a trailer, at most.
pub const MOST_FIELDS: usize = 64;

/// What shows itself at a byte of a head or of a trailer.
#[derive(Clone, Copy, Debug, PartialEq, Eq)]
pub enum Shown {
    /// It ends with this byte.
    Whole,
    /// None goes on with the line that ends here, and begins at this place.
    Bad(usize),
    /// It is too long, or has too many fields.
    Large,
}

/// Where the line begins that isn't ended yet, and how many lines before it aren't empty.
#[derive(Clone, Copy, Debug, PartialEq, Eq)]
pub struct LineStart {
    pub place: usize,
    pub filled: usize,
}

/// Looks at all bytes from a place on, until something shows itself. The place is then after
/// the byte at which it does.
pub fn scan(
    heading: Heading,
    bytes: &[u8],
    at: &mut usize,
    line: &mut LineStart,
    room: &mut [HeaderSpan],
) -> Option<Shown>
    requires within { at.old ≤ length bytes.now }
    requires so_far { IsLooked heading (take at.old bytes.now) line.old }
    requires room { length room.old ≡ MOST_FIELDS }
    ensures within { at.new ≤ length bytes.now }
    ensures more { result ≡ None → (at.new ≡ length bytes.now) × IsLooked heading bytes.now line.new }
    ensures shown { IfSome result (λ shown. Shows heading (take at.new bytes.now) shown) }
{
    'looking: while *at < bytes.len() {
        *at += 1;
        let shown = look(heading, &bytes[..*at], line, room);
        if shown.is_some() {
            return shown;
        }
    }
    None
}

// Looks at the last byte.
fn look(
    heading: Heading,
    prefix: &[u8],
    line: &mut LineStart,
    room: &mut [HeaderSpan],
) -> Option<Shown>
    requires some { 0 < length prefix.now }
    requires so_far { IsLooked heading (take (length prefix.now - 1) prefix.now) line.old }
    requires room { length room.old ≡ MOST_FIELDS }
    ensures more { result ≡ None → IsLooked heading prefix.now line.new }
    ensures shown { IfSome result (λ shown. Shows heading prefix.now shown) }
{
    if prefix.len() > MOST_HEAD {
        return Some(Shown::Large);
    }
    let last = prefix.len() - 1;
    if prefix[last] != b'\n' {
        return None;
    }
    let filled = line
        .filled
        .saturating_add(filled_count(&prefix[line.place..last]));
    if filled.saturating_sub(start_lines(heading)) > MOST_FIELDS {
        return Some(Shown::Large);
    }
    match ask_after(heading, prefix, filled, room) {
        Asked::Whole => Some(Shown::Whole),
        Asked::Never => Some(Shown::Bad(line.place)),
        Asked::More => {
            line.place = prefix.len();
            line.filled = filled;
            None
        }
    }
}

fn start_lines(heading: Heading) -> usize
    ensures count { result ≡ start_lines heading }
    ensures few { result ≤ 1 }
{
    match heading {
        Heading::Request | Heading::Reply => 1,
        Heading::Trailer => 0,
    }
}

fn filled_count(line: &[u8]) -> usize
    ensures count { result ≡ (if is_empty_line line.now then 0 else 1) }
    ensures few { result ≤ 1 }
{
    match line {
        [] => 0,
        [b'\r'] => 0,
        _ => 1,
    }
}
