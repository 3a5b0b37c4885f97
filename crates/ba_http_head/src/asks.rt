//! Whether the lines so far are a head or a trailer, at a line's end.
ghost use Rattle.std.specs.Prelude.{◌≡◌, ◌≤◌, List, length};
ghost use Rattle.httparse.specs.Grammar.{LineEnd, print_blank};
ghost use Rattle.ba_http_head.specs.HeadLines.{EndsInFeed, field_lines, filled_lines};
ghost use Rattle.ba_http_head.specs.inside.Asks.{Says};

use crate::headings::Heading;
use crate::scans::MOST_FIELDS;
use httparse::spans::{HeaderSpan, parse_headers, parse_request, parse_response};
use httparse::{Error, Status};

/// What is known of lines.
#[derive(Clone, Copy, Debug, PartialEq, Eq)]
pub enum Asked {
    /// They are whole.
    Whole,
    /// More lines can make them whole.
    More,
    /// No lines can.
    Never,
}

/// What is known of these lines, of which so many aren't empty. The parser isn't asked at empty lines before the first
/// line of a head: some head goes on with them, and none ends in them.
pub fn ask_after(heading: Heading, prefix: &[u8], filled: usize, room: &mut [HeaderSpan]) -> Asked
    requires line { EndsInFeed prefix.now }
    requires count { filled ≡ filled_lines prefix.now }
    requires few { field_lines heading prefix.now ≤ MOST_FIELDS }
    requires empties { filled ≡ 0 → (ends : List LineEnd) × (prefix.now ≡ print_blank ends) }
    requires room { length room.old ≡ MOST_FIELDS }
    ensures { Says heading prefix.now result }
{
    match (heading, filled) {
        (Heading::Request, 0) => Asked::More,
        (Heading::Reply, 0) => Asked::More,
        _ => ask(heading, prefix, room),
    }
}

// Asks the parser whether these lines are whole.
fn ask(heading: Heading, prefix: &[u8], room: &mut [HeaderSpan]) -> Asked
    requires line { EndsInFeed prefix.now }
    requires few { field_lines heading prefix.now ≤ MOST_FIELDS }
    requires room { length room.old ≡ MOST_FIELDS }
    ensures { Says heading prefix.now result }
{
    match heading {
        Heading::Request => ask_request(prefix, room),
        Heading::Reply => ask_reply(prefix, room),
        Heading::Trailer => ask_trailer(prefix, room),
    }
}

fn ask_request(prefix: &[u8], room: &mut [HeaderSpan]) -> Asked
    requires line { EndsInFeed prefix.now }
    requires few { field_lines Heading.Request prefix.now ≤ MOST_FIELDS }
    requires room { length room.old ≡ MOST_FIELDS }
    ensures { Says Heading.Request prefix.now result }
{
    match parse_request(prefix, room) {
        Ok(Status::Complete(_)) => Asked::Whole,
        Ok(Status::Partial) => Asked::More,
        Err(Error::TooManyHeaders) => unreachable!(),
        Err(_) => Asked::Never,
    }
}

fn ask_reply(prefix: &[u8], room: &mut [HeaderSpan]) -> Asked
    requires line { EndsInFeed prefix.now }
    requires few { field_lines Heading.Reply prefix.now ≤ MOST_FIELDS }
    requires room { length room.old ≡ MOST_FIELDS }
    ensures { Says Heading.Reply prefix.now result }
{
    match parse_response(prefix, room) {
        Ok(Status::Complete(_)) => Asked::Whole,
        Ok(Status::Partial) => Asked::More,
        Err(Error::TooManyHeaders) => unreachable!(),
        Err(_) => Asked::Never,
    }
}

fn ask_trailer(prefix: &[u8], room: &mut [HeaderSpan]) -> Asked
    requires line { EndsInFeed prefix.now }
    requires few { field_lines Heading.Trailer prefix.now ≤ MOST_FIELDS }
    requires room { length room.old ≡ MOST_FIELDS }
    ensures { Says Heading.Trailer prefix.now result }
{
    match parse_headers(prefix, room) {
        Ok(Status::Complete(_)) => Asked::Whole,
        Ok(Status::Partial) => Asked::More,
        Err(Error::TooManyHeaders) => unreachable!(),
        Err(_) => Asked::Never,
    }
}
