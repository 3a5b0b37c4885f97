//! References to `<`, `>` and `&` that are taken at once among characters.
ghost use Rattle.std.specs.Prelude.{◌≡◌, ◌≤◌, true, length, take, IsTrue, IfSome, OnOk, List as Items};
ghost use Rattle.ba_xml_reader.specs.inside.Escapes.{escape_text, escaped, is_in_text, is_in_text_at, is_in_text_in, with_meant, with_byte_at, with_byte_in};

use crate::machine::Scan;
use crate::states::{Mode, Seen, State};
use ba_core::Memory;
use ba_xml_names::{Held, Level, Stack};
use ba_xml_words::Octet;

/// A character that content mostly has as a reference.
#[derive(Clone, Copy, Debug, PartialEq, Eq)]
pub enum Escape {
    Less,
    Greater,
    Ampersand,
}

impl Escape {
    /// The reference to it.
    pub fn as_slice(self) -> &'static [u8]
        ensures { result.now ≡ escape_text self }
    {
        match self {
            Escape::Less => b"&lt;",
            Escape::Greater => b"&gt;",
            Escape::Ampersand => b"&amp;",
        }
    }

    /// The byte itself.
    pub fn byte(self) -> u8
        ensures { result ≡ escaped self }
    {
        match self {
            Escape::Less => b'<',
            Escape::Greater => b'>',
            Escape::Ampersand => b'&',
        }
    }

    // Whether the bytes begin with the reference to it.
    fn begins(self, bytes: &[u8]) -> bool
        ensures front { IsTrue result → take (length (escape_text self)) bytes.now ≡ escape_text self }
        ensures within { IsTrue result → length (escape_text self) ≤ length bytes.now }
    {
        let text = self.as_slice();
        text.len() <= bytes.len() && &bytes[..text.len()] == text
    }
}

// The reference that the bytes begin with, if it is one of these. No clause asks that one is found: without it the bytes
// are taken one by one.
fn escape_in(bytes: &[u8]) -> Option<Escape>
    ensures front { IfSome result (λ escape. take (length (escape_text escape)) bytes.now ≡ escape_text escape) }
    ensures within { IfSome result (λ escape. length (escape_text escape) ≤ length bytes.now) }
{
    if Escape::Less.begins(bytes) {
        return Some(Escape::Less);
    }
    if Escape::Greater.begins(bytes) {
        return Some(Escape::Greater);
    }
    if Escape::Ampersand.begins(bytes) {
        return Some(Escape::Ampersand);
    }
    None
}

impl Scan {
    /// The reference that may be taken at once, if the bytes begin with one and it has at most so many bytes.
    pub fn escape(&self, bytes: &[u8], most: u64) -> Option<Escape>
        ensures front { IfSome result (λ escape. take (length (escape_text escape)) bytes.now ≡ escape_text escape) }
        ensures within { IfSome result (λ escape. length (escape_text escape) ≤ length bytes.now) }
        ensures most { IfSome result (λ escape. length (escape_text escape) ≤ most) }
        ensures text { IfSome result (λ escape. is_in_text self.now ≡ true) }
    {
        if !self.is_in_text() {
            return None;
        }
        let Some(escape) = escape_in(bytes) else {
            return None;
        };
        if escape.as_slice().len() as u64 > most {
            return None;
        }
        Some(escape)
    }

    /// Whether the next byte stands among characters of an element.
    pub fn is_in_text(&self) -> bool
        ensures { result ≡ is_in_text self.now }
    {
        if self.returned {
            return false;
        }
        match self.octet {
            Octet::Between => is_in_text_at(&self.state),
            _ => false,
        }
    }

    /// Puts the byte that a reference means.
    pub fn put_meant(&mut self, b: u8) -> Result<(), Memory>
        ensures { OnOk result (self.new ≡ with_meant self.old b) }
    {
        put_meant_at(&mut self.state, b)
    }
}

fn is_in_text_at(state: &State) -> bool
    ensures { result ≡ is_in_text_at state.now }
{
    match state {
        State::Refused(_) => false,
        State::At(outer, _, mode) => is_in_text_in(outer, mode),
    }
}

fn is_in_text_in(outer: &Stack<Held<Level>>, mode: &Mode) -> bool
    ensures { result ≡ is_in_text_in outer.now mode.now }
{
    if outer.len() == 0 {
        return false;
    }
    match mode {
        Mode::Inside(_) => true,
        _ => false,
    }
}

fn put_meant_at(state: &mut State, b: u8) -> Result<(), Memory>
    ensures { OnOk result (state.new ≡ with_byte_at state.old b) }
{
    match state {
        State::Refused(_) => Ok(()),
        State::At(_, here, mode) => put_meant_in(here, mode, b),
    }
}

fn put_meant_in(here: &mut Held<Level>, mode: &mut Mode, b: u8) -> Result<(), Memory>
    ensures { OnOk result ((outer : Items Level) → State.At outer here.new mode.new ≡ with_byte_in outer here.old mode.old b) }
{
    match mode {
        Mode::Inside(seen) => {
            *seen = Seen::Zero;
            here.put(b)
        }
        _ => Ok(()),
    }
}
