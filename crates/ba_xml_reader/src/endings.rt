//! End tags that are taken at once.
ghost use Rattle.std.specs.Prelude.{◌≡◌, ◌≤◌, ◌+◌, true, IfSome, OnOk};
ghost use Rattle.ba_xml_reader.specs.inside.Endings.{IsEnding, spelled_at, with_ending, with_ending_at};
ghost use Rattle.ba_xml_reader.specs.inside.Escapes.{is_in_text};

use crate::machine::Scan;
use crate::spans::front_length;
use crate::states::State;
use crate::tags::close;
use ba_core::Memory;
use std::alloc::Global;

// How many bytes the name has, if the bytes begin with the end tag of an element that is spelled so and it has at most
// so many bytes. No clause asks that one is found: without it the bytes are taken one by one.
fn ending_in(spelled: &[u8], bytes: &[u8], most: u64) -> Option<usize>
    ensures ending { IfSome result (λ name. IsEnding bytes.now spelled.now name) }
    ensures most { IfSome result (λ name. name + 3 ≤ most) }
{
    if bytes.len() < 4 || bytes[0] != b'<' || bytes[1] != b'/' {
        return None;
    }
    let name = front_length(spelled, &bytes[2..], most);
    if name == 0 || name != spelled.len() {
        return None;
    }
    let end = name + 2;
    if end >= bytes.len() || (end as u64) >= most || bytes[end] != b'>' {
        return None;
    }
    Some(name)
}

impl Scan {
    /// How many bytes the name of an end tag has that may be taken at once, if the bytes begin with one and it has at
    /// most so many bytes.
    pub fn ending(&self, bytes: &[u8], most: u64) -> Option<usize>
        ensures ending { IfSome result (λ name. IsEnding bytes.now (spelled_at self.now.state) name) }
        ensures most { IfSome result (λ name. name + 3 ≤ most) }
        ensures text { IfSome result (λ name. is_in_text self.now ≡ true) }
    {
        if !self.is_in_text() {
            return None;
        }
        match &self.state {
            State::Refused(_) => None,
            State::At(_, here, _) => ending_in(here.get().spelled.as_slice(), bytes, most),
        }
    }

    /// Ends the innermost element.
    pub fn put_ending(&mut self, alloc: Global) -> Result<(), Memory>
        ensures { OnOk result (self.new ≡ with_ending self.old) }
    {
        put_ending_at(alloc, &mut self.state)
    }
}

fn put_ending_at(alloc: Global, state: &mut State) -> Result<(), Memory>
    ensures { OnOk result (state.new ≡ with_ending_at state.old) }
{
    match state {
        State::Refused(_) => Ok(()),
        State::At(outer, here, mode) => match close(alloc, outer, here, mode)? {
            None => Ok(()),
            Some(reason) => {
                *state = State::Refused(reason);
                Ok(())
            }
        },
    }
}
