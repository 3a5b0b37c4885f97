//! One byte of a text after another.
ghost use Rattle.std.specs.Prelude.{◌≡◌, ◌+◌, Some, IfOk, OnOk};
ghost use Rattle.ba_xml_reader.specs.inside.Machine.{reading_at, start, act_by, state_after, unless_returned, line_end, turned, turned_as, refusal_in, counted, ended, reason_at, finished, root_of, child_of};
ghost use Rattle.ba_xml_reader.specs.inside.States.{stands};

use crate::content::{
    begin, bracketed, comment, declaring, exclaimed, first, first_open, hyphened, inside, mark_one,
    mark_two, open, reference, section,
};
use crate::states::{Mode, State};
use crate::tags::{
    attribute_name, end_name, end_space, equals, in_tag, quote, slashed, tag_name, value,
    value_reference,
};
use ba_core::{List, Memory};
use ba_tree::{Content, Name, Namespace, Tree};
use ba_xml_names::{Held, Level, Stack, first_declarations};
use ba_xml_words::{Class, Decoding, Octet, Reason, classify, decode};
use std::alloc::Global;
use std::mem;

/// A text has this many bytes at most.
pub const MOST_BYTES: u64 = 262_144;

/// A text as far as it is read. After `Memory` it says nothing of the text any more.
pub struct Scan {
    pub state: State,
    pub octet: Octet,
    /// Whether the last byte was a carriage return, which the line feed behind it belongs to.
    pub returned: bool,
}

/// Why and where no text goes on.
#[derive(Clone, Copy, Debug, PartialEq, Eq)]
pub struct Refusal {
    pub reason: Reason,
    pub place: u64,
}

// Giving a scan up is one call. Else each place that does would have a proof of its own over all that is read.
impl Drop for Scan {
    fn drop(self) {
        let Scan {
            state,
            octet: _,
            returned: _,
        } = self;
        give_up(state);
    }
}

fn give_up(_state: State) {}

/// Nothing of a text.
pub fn begun(alloc: Global) -> Result<Scan, Memory>
    ensures { IfOk result (λ scan. scan ≡ start) }
{
    let document = Level {
        spelled: List::new(alloc),
        name: Name {
            space: Namespace::none(),
            local: List::new(alloc),
        },
        attributes: List::new(alloc),
        declarations: first_declarations(alloc)?,
        content: List::new(alloc),
        text: List::new(alloc),
    };
    let here = Held::of(alloc, document)?;
    Ok(Scan {
        state: State::At(Stack::new(alloc), here, Mode::Begin),
        octet: Octet::Between,
        returned: false,
    })
}

impl Scan {
    // Takes this byte, and answers why no text goes on so, if none does.
    fn turn(&mut self, alloc: Global, b: u8) -> Result<Option<Reason>, Memory>
        ensures { IfOk result (λ refusal. turned_as self.new refusal ≡ turned self.old b) }
    {
        match decode(self.octet, b) {
            Decoding::Broken(reason) => Ok(Some(reason)),
            Decoding::At(octet) => {
                next_state(alloc, &mut self.state, self.returned, b)?;
                self.octet = octet;
                self.returned = b == b'\r';
                Ok(refusal_in(&self.state))
            }
        }
    }

    /// Takes this byte, before which so many were read, and answers why and where no text goes on so, if none does.
    pub fn step(&mut self, alloc: Global, taken: u64, b: u8) -> Result<Option<Refusal>, Memory>
        ensures { IfOk result (λ refusal. reading_at self.new (taken + 1) refusal ≡ counted taken (turned self.old b)) }
    {
        match self.turn(alloc, b)? {
            Some(reason) => Ok(refused(at_limit(taken, reason), taken)),
            None if taken >= MOST_BYTES => Ok(refused(Reason::Size, taken)),
            None => Ok(None),
        }
    }

    /// The tree of the text, if it ends here.
    pub fn finish(self) -> Option<Tree>
        ensures { result ≡ finished self }
    {
        let Scan {
            state,
            octet: _,
            returned: _,
        } = self;
        match state {
            State::Refused(_) => None,
            State::At(outer, here, mode) => tree_at(outer, here, mode),
        }
    }
}

fn refusal_in(state: &State) -> Option<Reason>
    ensures { result ≡ refusal_in state.now }
{
    match state {
        State::Refused(reason) => Some(*reason),
        State::At(_, _, _) => None,
    }
}

// Each end of a line counts as one line feed.
fn next_state(alloc: Global, state: &mut State, returned: bool, b: u8) -> Result<(), Memory>
    ensures { OnOk result (state.new ≡ unless_returned state.old returned b) }
{
    if returned && b == b'\n' {
        return Ok(());
    }
    advance(alloc, state, end_of_line(b))
}

fn end_of_line(b: u8) -> u8
    ensures { result ≡ line_end b }
{
    if b == b'\r' { b'\n' } else { b }
}

// Takes a byte behind the ends of lines.
#[tactic(auto, unfolding(crate::specs::inside::Machine::state_after))]
fn advance(alloc: Global, state: &mut State, b: u8) -> Result<(), Memory>
    ensures { OnOk result (state.new ≡ state_after state.old b) }
{
    match state {
        State::Refused(_) => Ok(()),
        State::At(outer, here, mode) => match act(alloc, outer, here, mode, b, classify(b))? {
            None => Ok(()),
            Some(reason) => {
                *state = State::Refused(reason);
                Ok(())
            }
        },
    }
}

// What a byte of this class does behind what of a piece is read. The answer is why no text goes on so, if none does.
fn act(
    alloc: Global,
    outer: &mut Stack<Held<Level>>,
    here: &mut Held<Level>,
    mode: &mut Mode,
    b: u8,
    class: Class,
) -> Result<Option<Reason>, Memory>
    ensures { IfOk result (λ refusal. stands outer.new here.new mode.new refusal ≡ act_by outer.old here.old mode.old b class) }
{
    // A mode without parts keeps the place until it is known what the byte leads to.
    match mem::replace(mode, Mode::Begin) {
        Mode::Begin => Ok(begin(mode, b, class)),
        Mode::MarkOne => Ok(mark_one(mode, b)),
        Mode::MarkTwo => Ok(mark_two(mode, b)),
        Mode::First => Ok(first(mode, class)),
        Mode::FirstOpen => first_open(alloc, outer, here, mode, b, class),
        Mode::Declaring(heading) => Ok(declaring(mode, heading, b, class)),
        Mode::Inside(seen) => inside(outer, here, mode, seen, b, class),
        Mode::Open => open(alloc, outer, here, mode, b, class),
        Mode::Exclaimed => Ok(exclaimed(outer, here, mode, class)),
        Mode::Hyphened => Ok(hyphened(mode, class)),
        Mode::Comment(seen) => Ok(comment(mode, seen, class)),
        Mode::Bracketed(count) => Ok(bracketed(alloc, mode, count, b)),
        Mode::Section(body, seen) => section(here, mode, body, seen, b, class),
        Mode::Reference(partial) => reference(here, mode, partial, b),
        Mode::TagName(name) => tag_name(alloc, outer, here, mode, name, b, class),
        Mode::InTag(tag, spaced) => in_tag(alloc, outer, here, mode, tag, spaced, b, class),
        Mode::AttributeName(tag, name) => attribute_name(mode, tag, name, b, class),
        Mode::Equals(tag, name) => Ok(equals(mode, tag, name, class)),
        Mode::Quote(tag, name) => quote(alloc, mode, tag, name, b, class),
        Mode::Value(tag, attribute, quote) => value(mode, tag, attribute, quote, b, class),
        Mode::ValueReference(tag, attribute, quote, partial) => {
            value_reference(mode, tag, attribute, quote, partial, b)
        }
        Mode::Slashed(opening) => slashed(alloc, here, mode, opening, class),
        Mode::EndName(rest) => Ok(end_name(mode, rest, b)),
        Mode::EndSpace => end_space(alloc, outer, here, mode, class),
    }
}

// A text ends behind its root, between pieces.
fn tree_at(outer: Stack<Held<Level>>, here: Held<Level>, mode: Mode) -> Option<Tree>
    ensures { result ≡ ended outer here mode }
{
    let Mode::Inside(_) = mode else {
        return None;
    };
    if outer.len() > 0 {
        return None;
    }
    root(here.into_inner().content)
}

fn root(content: List<Content>) -> Option<Tree>
    ensures { result ≡ root_of content }
{
    let mut items = content.into_vec();
    let last = items.pop();
    if !items.is_empty() {
        return None;
    }
    match last {
        None => None,
        Some(item) => child(item),
    }
}

fn child(item: Content) -> Option<Tree>
    ensures { result ≡ child_of item }
{
    match item {
        Content::Child(tree) => Some(tree),
        Content::Text(_) => None,
    }
}

fn refused(reason: Reason, place: u64) -> Option<Refusal>
    ensures { result ≡ Some (record { reason = reason; place = place }) }
{
    Some(Refusal { reason, place })
}

// At one place the reason with the lowest number is told.
fn at_limit(taken: u64, reason: Reason) -> Reason
    ensures { result ≡ reason_at taken reason }
{
    if taken < MOST_BYTES {
        return reason;
    }
    match reason {
        Reason::Attributes => Reason::Size,
        other => other,
    }
}
