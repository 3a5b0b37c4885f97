//! Beginnings of start tags that are taken at once: `<`, a name of letters and a space.
ghost use Rattle.std.specs.Prelude.{◌≡◌, ◌≤◌, ◌+◌, true, IfOk, IfSome, OnOk};
ghost use Rattle.ba_xml_reader.specs.inside.Beginnings.{IsBeginning, has_level_at, plain_tag, with_beginning, with_beginning_at};
ghost use Rattle.ba_xml_reader.specs.inside.Escapes.{is_in_text};

use crate::content::MOST_LEVELS;
use crate::machine::Scan;
use crate::pairs::octets;
use crate::spans::{Puts, span_length};
use crate::states::{Mode, State};
use crate::tags::without_attributes;
use ba_core::{List, Memory};
use ba_xml_names::{Held, Tag};
use ba_xml_words::RawName;
use std::alloc::Global;

// How many letters the name has, if the bytes begin so and the beginning has at most so many bytes. No clause asks that
// one is found: without it the bytes are taken one by one.
fn beginning_in(bytes: &[u8], most: u64) -> Option<usize>
    ensures beginning { IfSome result (λ name. IsBeginning bytes.now name) }
    ensures most { IfSome result (λ name. name + 2 ≤ most) }
{
    if bytes.len() < 3 || bytes[0] != b'<' {
        return None;
    }
    let name = span_length(Puts::Letters, &bytes[1..], most);
    let end = name + 1;
    if name == 0 || end >= bytes.len() || (end as u64) >= most || bytes[end] != b' ' {
        return None;
    }
    Some(name)
}

impl Scan {
    /// How many letters the name of a start tag has whose beginning may be taken at once, if the bytes begin with one
    /// and it has at most so many bytes.
    pub fn beginning(&self, bytes: &[u8], most: u64) -> Option<usize>
        ensures beginning { IfSome result (λ name. IsBeginning bytes.now name) }
        ensures most { IfSome result (λ name. name + 2 ≤ most) }
        ensures text { IfSome result (λ name. is_in_text self.now ≡ true) }
        ensures level { IfSome result (λ name. has_level_at self.now.state ≡ true) }
    {
        if !self.is_in_text() {
            return None;
        }
        if !has_level(&self.state) {
            return None;
        }
        beginning_in(bytes, most)
    }

    /// Takes the beginning of a start tag with this name.
    pub fn put_beginning(&mut self, alloc: Global, name: &[u8]) -> Result<(), Memory>
        ensures { OnOk result (self.new ≡ with_beginning self.old name.now) }
    {
        put_beginning_at(alloc, &mut self.state, name)
    }
}

// Whether one more element may be open.
fn has_level(state: &State) -> bool
    ensures { result ≡ has_level_at state.now }
{
    match state {
        State::Refused(_) => false,
        State::At(outer, _, _) => outer.len() < MOST_LEVELS,
    }
}

fn put_beginning_at(alloc: Global, state: &mut State, name: &[u8]) -> Result<(), Memory>
    ensures { OnOk result (state.new ≡ with_beginning_at state.old name.now) }
{
    match state {
        State::Refused(_) => Ok(()),
        State::At(_, _, mode) => put_beginning_in(alloc, mode, name),
    }
}

fn put_beginning_in(alloc: Global, mode: &mut Mode, name: &[u8]) -> Result<(), Memory>
    ensures { OnOk result (mode.new ≡ Mode.InTag (plain_tag name.now) true) }
{
    *mode = Mode::InTag(plain_tag(alloc, name)?, true);
    Ok(())
}

fn plain_tag(alloc: Global, name: &[u8]) -> Result<Held<Tag>, Memory>
    ensures { IfOk result (λ tag. tag ≡ plain_tag name.now) }
{
    let name = RawName {
        prefix: List::new(alloc),
        local: octets(alloc, name)?,
    };
    without_attributes(alloc, name)
}
