//! What a byte does between tags: characters, comments, CDATA sections and references.
ghost use Rattle.std.specs.Prelude.{◌≡◌, List as Items, IfOk, encode_utf8};
ghost use Rattle.ba_xml_names.specs.inside.Levels.{place_of, put, put_all};
ghost use Rattle.ba_xml_reader.specs.inside.Content.{begin_after, wanted_after, mark_one_after, mark_two_after, first_after, first_open_after, declaring_after, inside_after, outside_after, within_after, greater_after, one_more, open_after, ending_at, starting_at, exclaimed_after, section_at, hyphened_after, comment_after, comment_more, comment_end, bracketed_after, section_after, section_more, bracket_held, section_end, held, reference_after};
ghost use Rattle.ba_xml_reader.specs.inside.States.{LeadsTo, stands};

use crate::states::{Mode, Seen, State, go};
use ba_core::{List, Memory, Octets};
use ba_xml_names::{Held, Level, Place, Stack, place_next};
use ba_xml_words::{
    Class, Declared, Heading, Partial, Progress, Reason, Referred, Rest, declare, first_letter,
    reached, refer, with_byte, with_bytes,
};
use std::alloc::Global;

/// An element stands at this level at most.
pub const MOST_LEVELS: usize = 32;

/// After nothing of the text.
pub fn begin(mode: &mut Mode, b: u8, class: Class) -> Option<Reason>
    ensures { LeadsTo mode.new result (λ outer here. begin_after outer here b class) }
{
    match class {
        Class::Less => go(mode, Mode::FirstOpen),
        Class::Space => go(mode, Mode::Inside(Seen::Zero)),
        Class::High => expect(mode, b, 0xEF, Mode::MarkOne),
        _ => Some(Reason::Syntax),
    }
}

// One byte alone may come here.
fn expect(mode: &mut Mode, b: u8, wanted: u8, next: Mode) -> Option<Reason>
    ensures { LeadsTo mode.new result (λ outer here. wanted_after outer here b wanted next) }
{
    if b != wanted {
        return Some(Reason::Syntax);
    }
    go(mode, next)
}

/// After EF.
pub fn mark_one(mode: &mut Mode, b: u8) -> Option<Reason>
    ensures { LeadsTo mode.new result (λ outer here. mark_one_after outer here b) }
{
    expect(mode, b, 0xBB, Mode::MarkTwo)
}

/// After EF BB.
pub fn mark_two(mode: &mut Mode, b: u8) -> Option<Reason>
    ensures { LeadsTo mode.new result (λ outer here. mark_two_after outer here b) }
{
    expect(mode, b, 0xBF, Mode::First)
}

/// After the byte order mark.
pub fn first(mode: &mut Mode, class: Class) -> Option<Reason>
    ensures { LeadsTo mode.new result (λ outer here. first_after outer here class) }
{
    match class {
        Class::Less => go(mode, Mode::FirstOpen),
        Class::Space => go(mode, Mode::Inside(Seen::Zero)),
        _ => Some(Reason::Syntax),
    }
}

/// After the text's first character, `<`.
pub fn first_open(
    alloc: Global,
    outer: &Stack<Held<Level>>,
    here: &Held<Level>,
    mode: &mut Mode,
    b: u8,
    class: Class,
) -> Result<Option<Reason>, Memory>
    ensures { IfOk result (λ refusal. stands outer.now here.now mode.new refusal ≡ first_open_after outer.now here.now b class) }
{
    if let Class::Question = class {
        return Ok(go(mode, Mode::Declaring(Heading::Target(0))));
    }
    open(alloc, outer, here, mode, b, class)
}

/// In the declaration.
pub fn declaring(mode: &mut Mode, heading: Heading, b: u8, class: Class) -> Option<Reason>
    ensures { LeadsTo mode.new result (λ outer here. declaring_after outer here heading b class) }
{
    match declare(heading, b, class) {
        Declared::Wrong => Some(Reason::Syntax),
        Declared::On(more) => go(mode, Mode::Declaring(more)),
        Declared::Whole => go(mode, Mode::Inside(Seen::Zero)),
    }
}

/// After whole pieces.
pub fn inside(
    outer: &Stack<Held<Level>>,
    here: &mut Held<Level>,
    mode: &mut Mode,
    seen: Seen,
    b: u8,
    class: Class,
) -> Result<Option<Reason>, Memory>
    ensures { IfOk result (λ refusal. stands outer.now here.new mode.new refusal ≡ inside_after outer.now here.old seen b class) }
{
    match place_next(outer, here.get()) {
        Place::Within => within(here, mode, seen, b, class),
        Place::Before => Ok(outside(mode, class)),
        Place::Behind => Ok(outside(mode, class)),
    }
}

fn outside(mode: &mut Mode, class: Class) -> Option<Reason>
    ensures { LeadsTo mode.new result (λ outer here. outside_after outer here class) }
{
    match class {
        Class::Space => go(mode, Mode::Inside(Seen::Zero)),
        Class::Less => go(mode, Mode::Open),
        _ => Some(Reason::Syntax),
    }
}

fn within(
    here: &mut Held<Level>,
    mode: &mut Mode,
    seen: Seen,
    b: u8,
    class: Class,
) -> Result<Option<Reason>, Memory>
    ensures { IfOk result (λ refusal. (outer : Items Level) → stands outer here.new mode.new refusal ≡ within_after outer here.old seen b class) }
{
    match class {
        Class::Less => Ok(go(mode, Mode::Open)),
        Class::Ampersand => Ok(go(mode, Mode::Reference(Partial::Nothing))),
        Class::Control => Ok(Some(Reason::Syntax)),
        Class::CloseBracket => put_byte(here, mode, b, more(seen)),
        Class::Greater => greater(here, mode, seen, b),
        _ => put_byte(here, mode, b, Seen::Zero),
    }
}

// One character more, or a byte of one. The last ones are so many `]`.
fn put_byte(
    here: &mut Held<Level>,
    mode: &mut Mode,
    b: u8,
    seen: Seen,
) -> Result<Option<Reason>, Memory>
    ensures { IfOk result (λ refusal. (outer : Items Level) → stands outer here.new mode.new refusal ≡ State.At outer (put here.old b) (Mode.Inside seen)) }
{
    here.put(b)?;
    Ok(go(mode, Mode::Inside(seen)))
}

// Characters behind those of the text so far.
fn put_bytes(
    here: &mut Held<Level>,
    mode: &mut Mode,
    bytes: &[u8],
) -> Result<Option<Reason>, Memory>
    ensures { IfOk result (λ refusal. (outer : Items Level) → stands outer here.new mode.new refusal ≡ State.At outer (put_all here.old bytes.now) (Mode.Inside Seen.Zero)) }
{
    here.put_all(bytes)?;
    Ok(go(mode, Mode::Inside(Seen::Zero)))
}

// `]]>` doesn't stand among characters.
fn greater(
    here: &mut Held<Level>,
    mode: &mut Mode,
    seen: Seen,
    b: u8,
) -> Result<Option<Reason>, Memory>
    ensures { IfOk result (λ refusal. (outer : Items Level) → stands outer here.new mode.new refusal ≡ greater_after outer here.old seen b) }
{
    match seen {
        Seen::Two => Ok(Some(Reason::Syntax)),
        Seen::One => put_byte(here, mode, b, Seen::Zero),
        Seen::Zero => put_byte(here, mode, b, Seen::Zero),
    }
}

// One more of the marks; of more than two the last two count.
fn more(seen: Seen) -> Seen
    ensures { result ≡ one_more seen }
{
    match seen {
        Seen::Zero => Seen::One,
        Seen::One => Seen::Two,
        Seen::Two => Seen::Two,
    }
}

/// After `<`.
pub fn open(
    alloc: Global,
    outer: &Stack<Held<Level>>,
    here: &Held<Level>,
    mode: &mut Mode,
    b: u8,
    class: Class,
) -> Result<Option<Reason>, Memory>
    ensures { IfOk result (λ refusal. stands outer.now here.now mode.new refusal ≡ open_after outer.now here.now b class) }
{
    match class {
        Class::Exclamation => Ok(go(mode, Mode::Exclaimed)),
        Class::Slash => ending(outer, here, mode),
        Class::Letter => starting(alloc, outer, here, mode, b),
        _ => Ok(Some(Reason::Syntax)),
    }
}

// An element that is open may end.
fn ending(
    outer: &Stack<Held<Level>>,
    here: &Held<Level>,
    mode: &mut Mode,
) -> Result<Option<Reason>, Memory>
    ensures { IfOk result (λ refusal. stands outer.now here.now mode.new refusal ≡ ending_at (place_of outer.now here.now) outer.now here.now) }
{
    match place_next(outer, here.get()) {
        Place::Within => name_to_come(here.get(), mode),
        Place::Before => Ok(Some(Reason::Syntax)),
        Place::Behind => Ok(Some(Reason::Syntax)),
    }
}

fn name_to_come(here: &Level, mode: &mut Mode) -> Result<Option<Reason>, Memory>
    ensures { IfOk result (λ refusal. LeadsTo mode.new refusal (λ outer level. State.At outer level (Mode.EndName here.now.spelled))) }
{
    let rest = Rest::of(here.spelled.copy()?);
    Ok(go(mode, Mode::EndName(rest)))
}

// There is one root, and at most 32 levels.
fn starting(
    alloc: Global,
    outer: &Stack<Held<Level>>,
    here: &Held<Level>,
    mode: &mut Mode,
    b: u8,
) -> Result<Option<Reason>, Memory>
    ensures { IfOk result (λ refusal. stands outer.now here.now mode.new refusal ≡ starting_at (place_of outer.now here.now) outer.now here.now b) }
{
    if let Place::Behind = place_next(outer, here.get()) {
        return Ok(Some(Reason::Syntax));
    }
    if outer.len() >= MOST_LEVELS {
        return Ok(Some(Reason::Depth));
    }
    let name = first_letter(alloc, b)?;
    Ok(go(mode, Mode::TagName(name)))
}

/// After `<!`.
pub fn exclaimed(
    outer: &Stack<Held<Level>>,
    here: &Held<Level>,
    mode: &mut Mode,
    class: Class,
) -> Option<Reason>
    ensures { stands outer.now here.now mode.new result ≡ exclaimed_after outer.now here.now class }
{
    match class {
        Class::Hyphen => go(mode, Mode::Hyphened),
        Class::OpenBracket => section_begun(outer, here, mode),
        _ => Some(Reason::Syntax),
    }
}

// A CDATA section stands in an element.
fn section_begun(outer: &Stack<Held<Level>>, here: &Held<Level>, mode: &mut Mode) -> Option<Reason>
    ensures { stands outer.now here.now mode.new result ≡ section_at (place_of outer.now here.now) outer.now here.now }
{
    match place_next(outer, here.get()) {
        Place::Within => go(mode, Mode::Bracketed(0)),
        Place::Before => Some(Reason::Syntax),
        Place::Behind => Some(Reason::Syntax),
    }
}

/// After `<!-`.
pub fn hyphened(mode: &mut Mode, class: Class) -> Option<Reason>
    ensures { LeadsTo mode.new result (λ outer here. hyphened_after outer here class) }
{
    match class {
        Class::Hyphen => go(mode, Mode::Comment(Seen::Zero)),
        _ => Some(Reason::Syntax),
    }
}

/// In a comment.
pub fn comment(mode: &mut Mode, seen: Seen, class: Class) -> Option<Reason>
    ensures { LeadsTo mode.new result (λ outer here. comment_after outer here seen class) }
{
    match seen {
        Seen::Zero => comment_on(mode, Seen::One, class),
        Seen::One => comment_on(mode, Seen::Two, class),
        Seen::Two => comment_ending(mode, class),
    }
}

// In a comment, which has so many `-` at its end after one more.
fn comment_on(mode: &mut Mode, hyphens: Seen, class: Class) -> Option<Reason>
    ensures { LeadsTo mode.new result (λ outer here. comment_more outer here hyphens class) }
{
    match class {
        Class::Control => Some(Reason::Syntax),
        Class::Hyphen => go(mode, Mode::Comment(hyphens)),
        _ => go(mode, Mode::Comment(Seen::Zero)),
    }
}

// Behind `--` a comment ends.
fn comment_ending(mode: &mut Mode, class: Class) -> Option<Reason>
    ensures { LeadsTo mode.new result (λ outer here. comment_end outer here class) }
{
    match class {
        Class::Greater => go(mode, Mode::Inside(Seen::Zero)),
        _ => Some(Reason::Syntax),
    }
}

/// After `<![`.
pub fn bracketed(alloc: Global, mode: &mut Mode, count: usize, b: u8) -> Option<Reason>
    ensures { LeadsTo mode.new result (λ outer here. bracketed_after outer here count b) }
{
    match reached(b"CDATA[", count, b) {
        Progress::Nowhere => Some(Reason::Syntax),
        Progress::Part(more) => go(mode, Mode::Bracketed(more)),
        Progress::Whole => go(mode, Mode::Section(List::new(alloc), Seen::Zero)),
    }
}

/// In a CDATA section.
pub fn section(
    here: &mut Held<Level>,
    mode: &mut Mode,
    body: Octets,
    seen: Seen,
    b: u8,
    class: Class,
) -> Result<Option<Reason>, Memory>
    ensures { IfOk result (λ refusal. (outer : Items Level) → stands outer here.new mode.new refusal ≡ section_after outer here.old body seen b class) }
{
    match class {
        Class::Control => Ok(Some(Reason::Syntax)),
        Class::CloseBracket => section_bracket(mode, body, seen, b),
        Class::Greater => section_greater(here, mode, body, seen, b),
        _ => section_on(mode, body, seen, b),
    }
}

// The brackets that were held back belong to the section, and so does this byte.
fn section_on(mode: &mut Mode, body: Octets, seen: Seen, b: u8) -> Result<Option<Reason>, Memory>
    ensures { IfOk result (λ refusal. LeadsTo mode.new refusal (λ outer here. section_more outer here body seen b)) }
{
    let body = with_byte(with_bytes(body, brackets(seen))?, b)?;
    Ok(go(mode, Mode::Section(body, Seen::Zero)))
}

fn section_bracket(
    mode: &mut Mode,
    body: Octets,
    seen: Seen,
    b: u8,
) -> Result<Option<Reason>, Memory>
    ensures { IfOk result (λ refusal. LeadsTo mode.new refusal (λ outer here. bracket_held outer here body seen b)) }
{
    match seen {
        Seen::Zero => Ok(go(mode, Mode::Section(body, Seen::One))),
        Seen::One => Ok(go(mode, Mode::Section(body, Seen::Two))),
        Seen::Two => section_longer(mode, body, b),
    }
}

// Of more than two brackets the last two are held back.
fn section_longer(mode: &mut Mode, body: Octets, b: u8) -> Result<Option<Reason>, Memory>
    ensures { IfOk result (λ refusal. LeadsTo mode.new refusal (λ outer here. bracket_held outer here body Seen.Two b)) }
{
    let body = with_byte(body, b)?;
    Ok(go(mode, Mode::Section(body, Seen::Two)))
}

fn section_greater(
    here: &mut Held<Level>,
    mode: &mut Mode,
    body: Octets,
    seen: Seen,
    b: u8,
) -> Result<Option<Reason>, Memory>
    ensures { IfOk result (λ refusal. (outer : Items Level) → stands outer here.new mode.new refusal ≡ section_end outer here.old body seen b) }
{
    match seen {
        Seen::Two => put_bytes(here, mode, body.as_slice()),
        Seen::One => section_on(mode, body, seen, b),
        Seen::Zero => section_on(mode, body, seen, b),
    }
}

fn brackets(seen: Seen) -> &'static [u8]
    ensures { result.now ≡ held seen }
{
    match seen {
        Seen::Zero => b"",
        Seen::One => b"]",
        Seen::Two => b"]]",
    }
}

/// In a reference among characters.
pub fn reference(
    here: &mut Held<Level>,
    mode: &mut Mode,
    partial: Partial,
    b: u8,
) -> Result<Option<Reason>, Memory>
    ensures { IfOk result (λ refusal. (outer : Items Level) → stands outer here.new mode.new refusal ≡ reference_after outer here.old partial b) }
{
    match refer(partial, b) {
        Referred::Wrong => Ok(Some(Reason::Syntax)),
        Referred::On(more) => Ok(go(mode, Mode::Reference(more))),
        Referred::Meant(c) => character(here, mode, c),
    }
}

fn character(here: &mut Held<Level>, mode: &mut Mode, c: char) -> Result<Option<Reason>, Memory>
    ensures { IfOk result (λ refusal. (outer : Items Level) → stands outer here.new mode.new refusal ≡ State.At outer (put_all here.old (encode_utf8 c)) (Mode.Inside Seen.Zero)) }
{
    let mut room = [0u8; 4];
    put_bytes(here, mode, c.encode_utf8(&mut room).as_bytes())
}
