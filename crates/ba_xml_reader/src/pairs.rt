//! Attributes that are taken at once: a name of letters, `=`, and plain characters in quotes.
ghost use Rattle.std.specs.Prelude.{◌≡◌, ◌≤◌, ◌+◌, true, false, nat_lt, not, length, take, drop, IfOk, IfSome, OnOk, Some};
ghost use Rattle.ba_xml_words.specs.inside.Names.{is_written, same_name};
ghost use Rattle.ba_xml_names.specs.inside.Tags.{with_attribute};
ghost use Rattle.ba_xml_reader.specs.inside.Pairs.{IsPair, plain_name, plain_attribute, waiting, waiting_at, waiting_in, has_room, with_pair, with_pair_at, with_pair_in};

use crate::machine::Scan;
use crate::spans::{Puts, span_length};
use crate::states::{Mode, State};
use crate::tags::MOST_ATTRIBUTES;
use ba_core::{List, Memory, Octets};
use ba_xml_names::{Held, Tag};
use ba_xml_words::{Octet, RawAttribute, RawName};
use std::alloc::Global;

/// How many bytes the name and the value of an attribute have, and its quote.
#[derive(Clone, Copy, Debug, PartialEq, Eq)]
pub struct Pair {
    pub name: usize,
    pub value: usize,
    pub quote: u8,
}

// The attribute that the bytes begin with, if it is of this kind and has at most so many bytes. No clause asks that one
// is found: without it the bytes are taken one by one.
fn pair_in(bytes: &[u8], most: u64) -> Option<Pair>
    ensures pair { IfSome result (λ pair. IsPair bytes.now pair) }
    ensures most { IfSome result (λ pair. pair.name + 2 + pair.value + 1 ≤ most) }
{
    let name = span_length(Puts::Letters, bytes, most);
    if name == 0 || bytes.len() - name < 3 {
        return None;
    }
    let quote = bytes[name + 1];
    if bytes[name] != b'=' || !(quote == b'"' || quote == b'\'') {
        return None;
    }
    let value = span_length(Puts::Characters, &bytes[name + 2..], most);
    let end = name + 2 + value;
    if end >= bytes.len() || (end as u64) >= most || bytes[end] != quote {
        return None;
    }
    Some(Pair { name, value, quote })
}

impl Scan {
    /// The attribute that may be taken at once, if the bytes begin with one and it has at most so many bytes.
    pub fn pair(&self, bytes: &[u8], most: u64) -> Option<Pair>
        ensures pair { IfSome result (λ pair. IsPair bytes.now pair) }
        ensures most { IfSome result (λ pair. pair.name + 2 + pair.value + 1 ≤ most) }
        ensures room { IfSome result (λ pair. has_room (waiting self.now) (take pair.name bytes.now) ≡ true) }
    {
        let Some(tag) = self.waiting() else {
            return None;
        };
        let Some(pair) = pair_in(bytes, most) else {
            return None;
        };
        if !has_room(tag, &bytes[..pair.name]) {
            return None;
        }
        Some(pair)
    }

    // The start tag in which an attribute may begin with the next byte.
    fn waiting(&self) -> Option<&Held<Tag>>
        ensures { IfSome result (λ tag. waiting self.now ≡ Some tag.now) }
    {
        if self.returned {
            return None;
        }
        match self.octet {
            Octet::Between => waiting_at(&self.state),
            _ => None,
        }
    }

    /// Takes an attribute with this name and this value.
    pub fn put_pair(&mut self, alloc: Global, name: &[u8], value: &[u8]) -> Result<(), Memory>
        ensures { OnOk result (self.new ≡ with_pair self.old name.now value.now) }
    {
        match &mut self.state {
            State::Refused(_) => Ok(()),
            State::At(_, _, mode) => put_pair_in(alloc, mode, name, value),
        }
    }
}

fn waiting_at(state: &State) -> Option<&Held<Tag>>
    ensures { IfSome result (λ tag. waiting_at state.now ≡ Some tag.now) }
{
    match state {
        State::Refused(_) => None,
        State::At(_, _, mode) => waiting_in(mode),
    }
}

fn waiting_in(mode: &Mode) -> Option<&Held<Tag>>
    ensures { IfSome result (λ tag. waiting_in mode.now ≡ Some tag.now) }
{
    match mode {
        Mode::InTag(tag, true) => Some(tag),
        _ => None,
    }
}

// Whether the tag has room for an attribute of this name.
fn has_room(tag: &Held<Tag>, name: &[u8]) -> bool
    ensures { result ≡ has_room (Some tag.now) name.now }
{
    let attributes = tag.get().attributes.as_slice();
    attributes.len() < MOST_ATTRIBUTES && !is_written(name, attributes)
}

fn is_written(name: &[u8], attributes: &[RawAttribute]) -> bool
    ensures { result ≡ is_written (plain_name name.now) attributes.now }
{
    attributes
        .iter()
        .any(|attribute| is_named(name, &attribute.name))
}

fn is_named(name: &[u8], other: &RawName) -> bool
    ensures { result ≡ same_name (plain_name name.now) other.now }
{
    b"".as_slice() == other.prefix.as_slice() && name == other.local.as_slice()
}

fn put_pair_in(alloc: Global, mode: &mut Mode, name: &[u8], value: &[u8]) -> Result<(), Memory>
    ensures { OnOk result (mode.new ≡ with_pair_in mode.old name.now value.now) }
{
    match mode {
        Mode::InTag(tag, spaced) => {
            *spaced = false;
            put_attribute(tag, attribute(alloc, name, value)?)
        }
        _ => Ok(()),
    }
}

// The tag's attributes are at hand, so this one doesn't go by the heap.
fn put_attribute(tag: &mut Held<Tag>, attribute: RawAttribute) -> Result<(), Memory>
    ensures { OnOk result (tag.new ≡ with_attribute tag.old attribute) }
{
    tag.inside.attributes.push(attribute).map_err(|_| Memory)
}

fn attribute(alloc: Global, name: &[u8], value: &[u8]) -> Result<RawAttribute, Memory>
    ensures { IfOk result (λ attribute. attribute ≡ plain_attribute name.now value.now) }
{
    let name = RawName {
        prefix: List::new(alloc),
        local: octets(alloc, name)?,
    };
    let value = octets(alloc, value)?;
    Ok(RawAttribute { name, value })
}

/// These bytes.
pub fn octets(alloc: Global, bytes: &[u8]) -> Result<Octets, Memory>
    ensures { IfOk result (λ octets. octets ≡ bytes.now) }
{
    match Vec::from_slice(alloc, bytes) {
        Ok(items) => Ok(List::of(items)),
        Err(_) => Err(Memory),
    }
}
