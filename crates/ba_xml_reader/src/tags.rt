//! What a byte does in start tags and end tags.
ghost use Rattle.std.specs.Prelude.{◌≡◌, ◌∷◌, [], false, List as Items, IfOk, OnOk, encode_utf8};
ghost use Rattle.ba_xml_names.specs.inside.Levels.{settled, with_child};
ghost use Rattle.ba_xml_words.specs.inside.Names.{spelled};
ghost use Rattle.ba_xml_names.specs.Namespaces.{opening, scope};
ghost use Rattle.ba_xml_reader.specs.inside.States.{LeadsTo, stands};
ghost use Rattle.ba_xml_names.specs.inside.Tags.{with_value, with_attribute};
ghost use Rattle.ba_xml_reader.specs.inside.Tags.{tag_name_after, in_tag_after, begun_attribute, attribute_name_after, name_ended, equals_after, quote_after, no_value, value_after, value_more, value_reference_after, opened_at, slashed_at, slashed_after, end_name_after, end_space_after, closed};

use crate::states::{Mode, Seen, State, go};
use ba_core::{List, Memory, Octets};
use ba_tree::Tree;
use ba_xml_names::{Held, Level, Opening, Stack, Tag, open_tag};
use ba_xml_words::{
    Class, Meeting, Naming, Partial, RawAttribute, RawName, Reason, Referred, Rest, first_letter,
    is_among, refer,
};
use std::alloc::Global;
use std::mem;

/// A tag has this many attributes at most, declarations counted.
pub const MOST_ATTRIBUTES: usize = 32;

/// In the name of a start tag.
pub fn tag_name(
    alloc: Global,
    outer: &mut Stack<Held<Level>>,
    here: &mut Held<Level>,
    mode: &mut Mode,
    name: RawName,
    b: u8,
    class: Class,
) -> Result<Option<Reason>, Memory>
    ensures { IfOk result (λ refusal. stands outer.new here.new mode.new refusal ≡ tag_name_after outer.old here.old name b class) }
{
    match name.grow(b, class)? {
        Naming::Wrong => Ok(Some(Reason::Syntax)),
        Naming::On(name) => Ok(go(mode, Mode::TagName(name))),
        Naming::Whole(name) => {
            let tag = without_attributes(alloc, name)?;
            in_tag(alloc, outer, here, mode, tag, false, b, class)
        }
    }
}

/// A start tag with this name and no attributes.
pub fn without_attributes(alloc: Global, name: RawName) -> Result<Held<Tag>, Memory>
    ensures { IfOk result (λ tag. tag ≡ record { name = name; attributes = [] }) }
{
    let tag = Tag {
        name,
        attributes: List::new(alloc),
    };
    Held::of(alloc, tag)
}

/// Behind a name or a value in a start tag.
pub fn in_tag(
    alloc: Global,
    outer: &mut Stack<Held<Level>>,
    here: &mut Held<Level>,
    mode: &mut Mode,
    tag: Held<Tag>,
    spaced: bool,
    b: u8,
    class: Class,
) -> Result<Option<Reason>, Memory>
    ensures { IfOk result (λ refusal. stands outer.new here.new mode.new refusal ≡ in_tag_after outer.old here.old tag spaced b class) }
{
    match class {
        Class::Space => Ok(go(mode, Mode::InTag(tag, true))),
        Class::Slash => slash(alloc, outer, here, mode, tag),
        Class::Greater => enter(alloc, outer, here, mode, tag),
        Class::Letter => attribute(alloc, mode, tag, spaced, b),
        _ => Ok(Some(Reason::Syntax)),
    }
}

fn slash(
    alloc: Global,
    outer: &Stack<Held<Level>>,
    here: &Held<Level>,
    mode: &mut Mode,
    tag: Held<Tag>,
) -> Result<Option<Reason>, Memory>
    ensures { IfOk result (λ refusal. stands outer.now here.now mode.new refusal ≡ slashed_at outer.now here.now (opening (scope (here.now ∷ outer.now)) tag)) }
{
    match open_tag(alloc, outer, here.get(), tag.into_inner())? {
        None => Ok(Some(Reason::Namespace)),
        Some(opening) => {
            let opening = Held::of(alloc, opening)?;
            Ok(go(mode, Mode::Slashed(opening)))
        }
    }
}

fn enter(
    alloc: Global,
    outer: &mut Stack<Held<Level>>,
    here: &mut Held<Level>,
    mode: &mut Mode,
    tag: Held<Tag>,
) -> Result<Option<Reason>, Memory>
    ensures { IfOk result (λ refusal. stands outer.new here.new mode.new refusal ≡ opened_at outer.old here.old (spelled tag.name) (opening (scope (here.old ∷ outer.old)) tag)) }
{
    let tag = tag.into_inner();
    let spelled = tag.name.spell()?;
    let found = open_tag(alloc, outer, here.get(), tag)?;
    entered(alloc, outer, here, mode, spelled, found)
}

// In the element with this name, if its start tag means something.
fn entered(
    alloc: Global,
    outer: &mut Stack<Held<Level>>,
    here: &mut Held<Level>,
    mode: &mut Mode,
    spelled: Octets,
    found: Option<Opening>,
) -> Result<Option<Reason>, Memory>
    ensures { IfOk result (λ refusal. stands outer.new here.new mode.new refusal ≡ opened_at outer.old here.old spelled found) }
{
    match found {
        None => Ok(Some(Reason::Namespace)),
        Some(opening) => {
            let inner = Held::of(alloc, opening.level(alloc, spelled))?;
            descend(alloc, outer, here, mode, inner)
        }
    }
}

fn descend(
    alloc: Global,
    outer: &mut Stack<Held<Level>>,
    here: &mut Held<Level>,
    mode: &mut Mode,
    inner: Held<Level>,
) -> Result<Option<Reason>, Memory>
    ensures { IfOk result (λ refusal. stands outer.new here.new mode.new refusal ≡ State.At (settled here.old ∷ outer.old) inner (Mode.Inside Seen.Zero)) }
{
    here.settle(alloc)?;
    outer.push(mem::replace(here, inner))?;
    Ok(go(mode, Mode::Inside(Seen::Zero)))
}

// White space stands before each attribute.
fn attribute(
    alloc: Global,
    mode: &mut Mode,
    tag: Held<Tag>,
    spaced: bool,
    b: u8,
) -> Result<Option<Reason>, Memory>
    ensures { IfOk result (λ refusal. LeadsTo mode.new refusal (λ outer here. begun_attribute outer here tag spaced b)) }
{
    if !spaced {
        return Ok(Some(Reason::Syntax));
    }
    if tag.get().attributes.len() >= MOST_ATTRIBUTES {
        return Ok(Some(Reason::Attributes));
    }
    let name = first_letter(alloc, b)?;
    Ok(go(mode, Mode::AttributeName(tag, name)))
}

/// In an attribute's name.
pub fn attribute_name(
    mode: &mut Mode,
    tag: Held<Tag>,
    name: RawName,
    b: u8,
    class: Class,
) -> Result<Option<Reason>, Memory>
    ensures { IfOk result (λ refusal. LeadsTo mode.new refusal (λ outer here. attribute_name_after outer here tag name b class)) }
{
    match name.grow(b, class)? {
        Naming::Wrong => Ok(Some(Reason::Syntax)),
        Naming::On(name) => Ok(go(mode, Mode::AttributeName(tag, name))),
        Naming::Whole(name) => Ok(name_end(mode, tag, name, class)),
    }
}

// No name stands twice in a tag.
fn name_end(mode: &mut Mode, tag: Held<Tag>, name: RawName, class: Class) -> Option<Reason>
    ensures { LeadsTo mode.new result (λ outer here. name_ended outer here tag name class) }
{
    if is_among(&name, tag.get().attributes.as_slice()) {
        return Some(Reason::Syntax);
    }
    equals(mode, tag, name, class)
}

/// Behind an attribute's name.
pub fn equals(mode: &mut Mode, tag: Held<Tag>, name: RawName, class: Class) -> Option<Reason>
    ensures { LeadsTo mode.new result (λ outer here. equals_after outer here tag name class) }
{
    match class {
        Class::Space => go(mode, Mode::Equals(tag, name)),
        Class::EqualsSign => go(mode, Mode::Quote(tag, name)),
        _ => Some(Reason::Syntax),
    }
}

/// Behind an attribute's `=`.
pub fn quote(
    alloc: Global,
    mode: &mut Mode,
    tag: Held<Tag>,
    name: RawName,
    b: u8,
    class: Class,
) -> Result<Option<Reason>, Memory>
    ensures { IfOk result (λ refusal. LeadsTo mode.new refusal (λ outer here. quote_after outer here tag name b class)) }
{
    match class {
        Class::Space => Ok(go(mode, Mode::Quote(tag, name))),
        Class::Apostrophe => value_begun(alloc, mode, tag, name, b),
        Class::DoubleQuote => value_begun(alloc, mode, tag, name, b),
        _ => Ok(Some(Reason::Syntax)),
    }
}

fn value_begun(
    alloc: Global,
    mode: &mut Mode,
    tag: Held<Tag>,
    name: RawName,
    quote: u8,
) -> Result<Option<Reason>, Memory>
    ensures { IfOk result (λ refusal. LeadsTo mode.new refusal (λ outer here. State.At outer here (Mode.Value tag (no_value name) quote))) }
{
    let attribute = RawAttribute {
        name,
        value: List::new(alloc),
    };
    let attribute = Held::of(alloc, attribute)?;
    Ok(go(mode, Mode::Value(tag, attribute, quote)))
}

/// In an attribute's value.
pub fn value(
    mode: &mut Mode,
    tag: Held<Tag>,
    attribute: Held<RawAttribute>,
    quote: u8,
    b: u8,
    class: Class,
) -> Result<Option<Reason>, Memory>
    ensures { IfOk result (λ refusal. LeadsTo mode.new refusal (λ outer here. value_after outer here tag attribute quote b class)) }
{
    if b == quote {
        return value_end(mode, tag, attribute);
    }
    match class {
        Class::Less => Ok(Some(Reason::Syntax)),
        Class::Control => Ok(Some(Reason::Syntax)),
        Class::Ampersand => Ok(go(
            mode,
            Mode::ValueReference(tag, attribute, quote, Partial::Nothing),
        )),
        Class::Space => value_on(mode, tag, attribute, quote, b' '),
        _ => value_on(mode, tag, attribute, quote, b),
    }
}

fn value_end(
    mode: &mut Mode,
    mut tag: Held<Tag>,
    attribute: Held<RawAttribute>,
) -> Result<Option<Reason>, Memory>
    ensures { IfOk result (λ refusal. LeadsTo mode.new refusal (λ outer here. State.At outer here (Mode.InTag (with_attribute tag attribute) false))) }
{
    tag.add(attribute)?;
    Ok(go(mode, Mode::InTag(tag, false)))
}

fn value_on(
    mode: &mut Mode,
    tag: Held<Tag>,
    mut attribute: Held<RawAttribute>,
    quote: u8,
    b: u8,
) -> Result<Option<Reason>, Memory>
    ensures { IfOk result (λ refusal. LeadsTo mode.new refusal (λ outer here. value_more outer here tag attribute quote b)) }
{
    attribute.put(b)?;
    Ok(go(mode, Mode::Value(tag, attribute, quote)))
}

/// In a reference of an attribute's value.
pub fn value_reference(
    mode: &mut Mode,
    tag: Held<Tag>,
    attribute: Held<RawAttribute>,
    quote: u8,
    partial: Partial,
    b: u8,
) -> Result<Option<Reason>, Memory>
    ensures { IfOk result (λ refusal. LeadsTo mode.new refusal (λ outer here. value_reference_after outer here tag attribute quote partial b)) }
{
    match refer(partial, b) {
        Referred::Wrong => Ok(Some(Reason::Syntax)),
        Referred::On(more) => Ok(go(mode, Mode::ValueReference(tag, attribute, quote, more))),
        Referred::Meant(c) => value_character(mode, tag, attribute, quote, c),
    }
}

fn value_character(
    mode: &mut Mode,
    tag: Held<Tag>,
    mut attribute: Held<RawAttribute>,
    quote: u8,
    c: char,
) -> Result<Option<Reason>, Memory>
    ensures { IfOk result (λ refusal. LeadsTo mode.new refusal (λ outer here. State.At outer here (Mode.Value tag (with_value attribute (encode_utf8 c)) quote))) }
{
    let mut room = [0u8; 4];
    attribute.put_all(c.encode_utf8(&mut room).as_bytes())?;
    Ok(go(mode, Mode::Value(tag, attribute, quote)))
}

/// Behind the `/` of a tag without content.
pub fn slashed(
    alloc: Global,
    here: &mut Held<Level>,
    mode: &mut Mode,
    opening: Held<Opening>,
    class: Class,
) -> Result<Option<Reason>, Memory>
    ensures { IfOk result (λ refusal. (outer : Items Level) → stands outer here.new mode.new refusal ≡ slashed_after outer here.old opening class) }
{
    match class {
        Class::Greater => child(alloc, here, mode, opening.into_inner().empty(alloc)),
        _ => Ok(Some(Reason::Syntax)),
    }
}

/// One child more of the innermost element.
pub fn child(
    alloc: Global,
    here: &mut Held<Level>,
    mode: &mut Mode,
    tree: Tree,
) -> Result<Option<Reason>, Memory>
    ensures { IfOk result (λ refusal. (outer : Items Level) → stands outer here.new mode.new refusal ≡ State.At outer (with_child (settled here.old) tree) (Mode.Inside Seen.Zero)) }
{
    here.settle(alloc)?;
    here.add(tree)?;
    Ok(go(mode, Mode::Inside(Seen::Zero)))
}

/// In the name of an end tag.
pub fn end_name(mode: &mut Mode, rest: Rest, b: u8) -> Option<Reason>
    ensures { LeadsTo mode.new result (λ outer here. end_name_after outer here rest b) }
{
    match rest.meet(b) {
        Meeting::Wrong => Some(Reason::Syntax),
        Meeting::On(rest) => go(mode, Mode::EndName(rest)),
        Meeting::Whole => go(mode, Mode::EndSpace),
    }
}

/// Behind the name of an end tag.
pub fn end_space(
    alloc: Global,
    outer: &mut Stack<Held<Level>>,
    here: &mut Held<Level>,
    mode: &mut Mode,
    class: Class,
) -> Result<Option<Reason>, Memory>
    ensures { IfOk result (λ refusal. stands outer.new here.new mode.new refusal ≡ end_space_after outer.old here.old class) }
{
    match class {
        Class::Space => Ok(go(mode, Mode::EndSpace)),
        Class::Greater => close(alloc, outer, here, mode),
        _ => Ok(Some(Reason::Syntax)),
    }
}

/// Ends the innermost element. The document itself has no end tag.
pub fn close(
    alloc: Global,
    outer: &mut Stack<Held<Level>>,
    here: &mut Held<Level>,
    mode: &mut Mode,
) -> Result<Option<Reason>, Memory>
    ensures { IfOk result (λ refusal. stands outer.new here.new mode.new refusal ≡ closed outer.old here.old) }
{
    match outer.pop() {
        None => Ok(Some(Reason::Syntax)),
        Some(parent) => {
            let ended = mem::replace(here, parent);
            here.add(ended.close(alloc)?)?;
            Ok(go(mode, Mode::Inside(Seen::Zero)))
        }
    }
}
