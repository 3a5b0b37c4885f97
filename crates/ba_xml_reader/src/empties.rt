//! Ends of the tags of empty elements, `/>`, that are taken at once.
ghost use Rattle.std.specs.Prelude.{◌≡◌, ◌≤◌, ◌+◌, ◌∷◌, true, length, take, codes, IfSome, IfOk, OnOk};
ghost use Rattle.ba_xml_names.specs.Namespaces.{opening, scope};
ghost use Rattle.ba_xml_reader.specs.inside.Machine.{reading_at};
ghost use Rattle.ba_xml_reader.specs.inside.Empties.{emptied, is_in_tag, is_in_tag_at, is_in_tag_in, with_empty, with_empty_at, with_empty_in};
ghost use Rattle.ba_xml_reader.specs.inside.States.{stands};

use crate::machine::{Refusal, Scan};
use crate::states::{Mode, State};
use crate::tags::child;
use ba_core::Memory;
use ba_xml_names::{Held, Level, Stack, Tag, open_tag};
use ba_xml_words::{Octet, Reason};
use std::alloc::Global;
use std::mem;

impl Scan {
    /// How many bytes the end of an empty element's tag has that may be taken at once, if the bytes begin with one and it
    /// has at most so many bytes.
    pub fn empty_end(&self, bytes: &[u8], most: u64) -> Option<usize>
        ensures tag { IfSome result (λ count. is_in_tag self.now ≡ true) }
        ensures count { IfSome result (λ count. count ≡ 2) }
        ensures front { IfSome result (λ count. take 2 bytes.now ≡ codes "/>") }
        ensures within { IfSome result (λ count. 2 ≤ length bytes.now) }
        ensures most { IfSome result (λ count. 2 ≤ most) }
    {
        if !self.is_in_tag() || most < 2 || bytes.len() < 2 || &bytes[..2] != b"/>".as_slice() {
            return None;
        }
        Some(2)
    }

    // Whether the next byte stands behind a name or a value in a start tag.
    fn is_in_tag(&self) -> bool
        ensures { result ≡ is_in_tag self.now }
    {
        if self.returned {
            return false;
        }
        match self.octet {
            Octet::Between => is_in_tag_at(&self.state),
            _ => false,
        }
    }

    /// Ends the tag of an empty element, before which so many bytes were read, and answers why and where no text goes
    /// on so, if none does.
    pub fn put_empty(&mut self, alloc: Global, taken: u64) -> Result<Option<Refusal>, Memory>
        ensures { IfOk result (λ refusal. reading_at self.new (taken + 2) refusal ≡ with_empty self.old taken) }
    {
        put_empty_at(alloc, &mut self.state)?;
        match &self.state {
            State::Refused(reason) => Ok(Some(Refusal {
                reason: *reason,
                place: taken,
            })),
            State::At(_, _, _) => Ok(None),
        }
    }
}

fn is_in_tag_at(state: &State) -> bool
    ensures { result ≡ is_in_tag_at state.now }
{
    match state {
        State::Refused(_) => false,
        State::At(_, _, mode) => is_in_tag_in(mode),
    }
}

fn is_in_tag_in(mode: &Mode) -> bool
    ensures { result ≡ is_in_tag_in mode.now }
{
    match mode {
        Mode::InTag(_, _) => true,
        _ => false,
    }
}

fn put_empty_at(alloc: Global, state: &mut State) -> Result<(), Memory>
    ensures { OnOk result (state.new ≡ with_empty_at state.old) }
{
    match state {
        State::Refused(_) => Ok(()),
        State::At(outer, here, mode) => match put_empty_in(alloc, outer, here, mode)? {
            None => Ok(()),
            Some(reason) => {
                *state = State::Refused(reason);
                Ok(())
            }
        },
    }
}

fn put_empty_in(
    alloc: Global,
    outer: &Stack<Held<Level>>,
    here: &mut Held<Level>,
    mode: &mut Mode,
) -> Result<Option<Reason>, Memory>
    ensures { IfOk result (λ refusal. stands outer.now here.new mode.new refusal ≡ with_empty_in outer.now here.old mode.old) }
{
    match mem::replace(mode, Mode::Begin) {
        Mode::InTag(tag, _) => empty(alloc, outer, here, mode, tag),
        other => {
            *mode = other;
            Ok(None)
        }
    }
}

// An element with this start tag and no content.
fn empty(
    alloc: Global,
    outer: &Stack<Held<Level>>,
    here: &mut Held<Level>,
    mode: &mut Mode,
    tag: Held<Tag>,
) -> Result<Option<Reason>, Memory>
    ensures { IfOk result (λ refusal. stands outer.now here.new mode.new refusal ≡ emptied outer.now here.old (opening (scope (here.old ∷ outer.now)) tag)) }
{
    match open_tag(alloc, outer, here.get(), tag.into_inner())? {
        None => Ok(Some(Reason::Namespace)),
        Some(opening) => child(alloc, here, mode, opening.empty(alloc)),
    }
}
