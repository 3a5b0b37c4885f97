//! What a start tag means by its prefixes (Namespaces in XML 1.0).
ghost use Rattle.std.specs.Prelude.{◌≡◌, ◌≤◌, ◌++◌, ◌∷◌, ℕ, length, reverse, bytes_eq, not, [], ◌^◌, IfOk};
ghost use Rattle.std.specs.List.{list_all};
ghost use Rattle.std.specs.Vec.Iter.{into_iter_items};
ghost use Rattle.ba_tree.specs.Namespaces.{xml_space};
ghost use Rattle.ba_xml_names.specs.Namespaces.{opening, opening_in, scope, first_scope, is_default, is_prefixed, is_declaration, declaration_of, declarations, is_lawful, is_lawful_prefix, nearest, element_name, attribute_name, attribute_of, placed, placed_at, put_one, put_in_order, IsSpotWithin};
ghost use Rattle.ba_xml_names.specs.inside.Rows.{AreRising, gap_of};

use crate::boxed::Held;
use crate::levels::{Declaration, Level, Opening};
use crate::stacks::Stack;
use crate::tags::Tag;
use ba_core::{List, Memory, Octets};
use ba_tree::{Attribute, Name, Namespace, XML_SPACE};
use ba_xml_words::{RawAttribute, RawName};
use std::alloc::Global;
use std::vec::IntoIter;

/// Where an attribute belongs among others.
#[derive(Clone, Copy, Debug, PartialEq, Eq)]
pub enum Spot {
    At(usize),
    /// One of the others has its name.
    Taken,
}

/// What holds outside of the root.
pub fn first_declarations(alloc: Global) -> Result<List<Declaration>, Memory>
    ensures { IfOk result (λ declarations. declarations ≡ first_scope) }
{
    let nothing = Declaration {
        prefix: List::new(alloc),
        space: Namespace::none(),
    };
    let xml = Declaration {
        prefix: octets(alloc, b"xml")?,
        space: Namespace::of(alloc, octets(alloc, XML_SPACE)?)?,
    };
    with_declaration(with_declaration(List::new(alloc), nothing)?, xml)
}

fn octets(alloc: Global, bytes: &[u8]) -> Result<Octets, Memory>
    ensures { IfOk result (λ octets. octets ≡ bytes.now) }
{
    match Vec::from_slice(alloc, bytes) {
        Ok(items) => Ok(List::of(items)),
        Err(_) => Err(Memory),
    }
}

fn with_declaration(
    mut declarations: List<Declaration>,
    item: Declaration,
) -> Result<List<Declaration>, Memory>
    ensures { IfOk result (λ more. more ≡ declarations ++ item ∷ []) }
{
    match declarations.push(item) {
        Ok(()) => Ok(declarations),
        Err(_) => Err(Memory),
    }
}

/// What the start tag means in the elements that are open. None where its declarations aren't allowed,
/// a prefix has none, or two attributes have one name.
#[tactic(auto, using(crate::proofs::Openings::unlawful, crate::proofs::Openings::lawful))]
pub fn open_tag(
    alloc: Global,
    outer: &Stack<Held<Level>>,
    here: &Level,
    tag: Tag,
) -> Result<Option<Opening>, Memory>
    ensures { IfOk result (λ found. found ≡ opening (scope (here.now ∷ outer.now)) tag) }
{
    let own = declared(alloc, List::new(alloc), tag.attributes.as_slice())?;
    if !all_lawful(own.as_slice()) {
        return Ok(None);
    }
    open_with(alloc, outer, here, own, tag)
}

#[tactic(auto, using(crate::proofs::Rows::none_rising))]
fn open_with(
    alloc: Global,
    outer: &Stack<Held<Level>>,
    here: &Level,
    own: List<Declaration>,
    tag: Tag,
) -> Result<Option<Opening>, Memory>
    ensures { IfOk result (λ found. found ≡ opening_in (own ++ scope (here.now ∷ outer.now)) own tag) }
{
    let Tag { name, attributes } = tag;
    let Some(name) = element_of(own.as_slice(), outer, here, name)? else {
        return Ok(None);
    };
    let rows = room(alloc, attributes.len().saturating_sub(own.len()))?;
    let raws = attributes.into_vec().into_iter();
    let Some(attributes) = in_order(alloc, own.as_slice(), outer, here, rows, raws)? else {
        return Ok(None);
    };
    Ok(Some(Opening {
        name,
        attributes,
        declarations: own,
    }))
}

// No rows, and memory for so many.
fn room(alloc: Global, count: usize) -> Result<List<Attribute>, Memory>
    ensures { IfOk result (λ rows. rows ≡ []) }
{
    match Vec::with_capacity(alloc, count) {
        Ok(rows) => Ok(List::of(rows)),
        Err(_) => Err(Memory),
    }
}

// These declarations, and those among the attributes, of which there are at most 32.
fn declared(
    alloc: Global,
    own: List<Declaration>,
    attributes: &[RawAttribute],
) -> Result<List<Declaration>, Memory>
    ensures { IfOk result (λ all. all ≡ own ++ declarations attributes.now) }
{
    match attributes {
        [] => Ok(own),
        [first, others @ ..] => {
            if !is_declared(first) {
                return declared(alloc, own, others);
            }
            let more = with_declaration(own, declaration(alloc, first)?)?;
            declared(alloc, more, others)
        }
    }
}

fn is_declared(attribute: &RawAttribute) -> bool
    ensures { result ≡ is_declaration attribute.now }
{
    default(&attribute.name) || prefixed(&attribute.name)
}

fn default(name: &RawName) -> bool
    ensures { result ≡ is_default name.now }
{
    name.prefix.is_empty() && name.local.as_slice() == b"xmlns".as_slice()
}

fn prefixed(name: &RawName) -> bool
    ensures { result ≡ is_prefixed name.now }
{
    name.prefix.as_slice() == b"xmlns".as_slice()
}

fn declaration(alloc: Global, attribute: &RawAttribute) -> Result<Declaration, Memory>
    ensures { IfOk result (λ declaration. declaration ≡ declaration_of attribute.now) }
{
    let space = Namespace::of(alloc, attribute.value.copy()?)?;
    if default(&attribute.name) {
        return Ok(Declaration {
            prefix: List::new(alloc),
            space,
        });
    }
    Ok(Declaration {
        prefix: attribute.name.local.copy()?,
        space,
    })
}

fn all_lawful(declarations: &[Declaration]) -> bool
    ensures { result ≡ list_all is_lawful declarations.now }
{
    declarations.iter().all(|declaration| lawful(declaration))
}

fn lawful(declaration: &Declaration) -> bool
    ensures { result ≡ is_lawful declaration.now }
{
    if declaration.prefix.as_slice() == b"".as_slice() {
        return true;
    }
    lawful_prefix(declaration.prefix.as_slice(), declaration.space.as_slice())
}

fn lawful_prefix(prefix: &[u8], space: &[u8]) -> bool
    ensures { result ≡ is_lawful_prefix prefix.now space.now }
{
    if prefix == b"xmlns".as_slice() {
        return false;
    }
    let xml = space == XML_SPACE;
    if prefix == b"xml".as_slice() {
        return xml;
    }
    space != b"".as_slice() && !xml
}

// What the prefix means by one of these declarations.
fn space_in(declarations: &[Declaration], prefix: &[u8]) -> Result<Option<Namespace>, Memory>
    ensures { IfOk result (λ space. space ≡ nearest prefix.now declarations.now) }
{
    match declarations {
        [] => Ok(None),
        [first, others @ ..] => {
            if first.prefix.as_slice() == prefix {
                return Ok(Some(first.space.copy()?));
            }
            space_in(others, prefix)
        }
    }
}

// What the prefix means in these elements, of which the last is the innermost.
#[tactic(auto, using(crate::proofs::Nearest::in_front, crate::proofs::Nearest::behind))]
fn space_outside(levels: &[Held<Level>], prefix: &[u8]) -> Result<Option<Namespace>, Memory>
    ensures { IfOk result (λ space. space ≡ nearest prefix.now (scope (reverse levels.now))) }
{
    match levels {
        [] => Ok(None),
        [outer @ .., last] => {
            if let Some(space) = space_in(last.get().declarations.as_slice(), prefix)? {
                return Ok(Some(space));
            }
            space_outside(outer, prefix)
        }
    }
}

#[tactic(auto, using(crate::proofs::Nearest::in_front, crate::proofs::Nearest::behind))]
fn space_around(
    outer: &Stack<Held<Level>>,
    here: &Level,
    prefix: &[u8],
) -> Result<Option<Namespace>, Memory>
    ensures { IfOk result (λ space. space ≡ nearest prefix.now (scope (here.now ∷ outer.now))) }
{
    if let Some(space) = space_in(here.declarations.as_slice(), prefix)? {
        return Ok(Some(space));
    }
    space_outside(outer.as_slice(), prefix)
}

#[tactic(auto, using(crate::proofs::Nearest::in_front, crate::proofs::Nearest::behind))]
fn space_of(
    own: &[Declaration],
    outer: &Stack<Held<Level>>,
    here: &Level,
    prefix: &[u8],
) -> Result<Option<Namespace>, Memory>
    ensures { IfOk result (λ space. space ≡ nearest prefix.now (own.now ++ scope (here.now ∷ outer.now))) }
{
    if let Some(space) = space_in(own, prefix)? {
        return Ok(Some(space));
    }
    space_around(outer, here, prefix)
}

fn element_of(
    own: &[Declaration],
    outer: &Stack<Held<Level>>,
    here: &Level,
    name: RawName,
) -> Result<Option<Name>, Memory>
    ensures { IfOk result (λ found. found ≡ element_name (own.now ++ scope (here.now ∷ outer.now)) name) }
{
    let RawName { prefix, local } = name;
    match space_of(own, outer, here, prefix.as_slice())? {
        None => Ok(None),
        Some(space) => Ok(Some(Name { space, local })),
    }
}

// The default namespace is for elements alone.
fn name_of(
    alloc: Global,
    own: &[Declaration],
    outer: &Stack<Held<Level>>,
    here: &Level,
    name: RawName,
) -> Result<Option<Name>, Memory>
    ensures { IfOk result (λ found. found ≡ attribute_name (own.now ++ scope (here.now ∷ outer.now)) name) }
{
    if name.prefix.as_slice() == b"".as_slice() {
        return Ok(Some(Name {
            space: Namespace::none(),
            local: name.local,
        }));
    }
    element_of(own, outer, here, name)
}

fn attribute(
    alloc: Global,
    own: &[Declaration],
    outer: &Stack<Held<Level>>,
    here: &Level,
    raw: RawAttribute,
) -> Result<Option<Attribute>, Memory>
    ensures { IfOk result (λ found. found ≡ attribute_of (own.now ++ scope (here.now ∷ outer.now)) raw) }
{
    let RawAttribute { name, value } = raw;
    match name_of(alloc, own, outer, here, name)? {
        None => Ok(None),
        Some(name) => Ok(Some(Attribute { name, value })),
    }
}

// The rows in rising order, with the attributes that are no declarations put among them.
#[tactic(auto, using(crate::proofs::Rows::put_rising))]
fn in_order(
    alloc: Global,
    own: &[Declaration],
    outer: &Stack<Held<Level>>,
    here: &Level,
    rows: List<Attribute>,
    mut raws: IntoIter<RawAttribute>,
) -> Result<Option<List<Attribute>>, Memory>
    requires { AreRising rows }
    ensures { IfOk result (λ found. found ≡ put_in_order (own.now ++ scope (here.now ∷ outer.now)) rows (into_iter_items raws)) }
{
    match raws.next() {
        None => Ok(Some(rows)),
        Some(first) if is_declared(&first) => in_order(alloc, own, outer, here, rows, raws),
        Some(first) => match put(alloc, own, outer, here, rows, first)? {
            None => Ok(None),
            Some(rows) => in_order(alloc, own, outer, here, rows, raws),
        },
    }
}

// The rows with this attribute put among them.
fn put(
    alloc: Global,
    own: &[Declaration],
    outer: &Stack<Held<Level>>,
    here: &Level,
    rows: List<Attribute>,
    raw: RawAttribute,
) -> Result<Option<List<Attribute>>, Memory>
    requires { AreRising rows }
    ensures { IfOk result (λ found. found ≡ put_one (own.now ++ scope (here.now ∷ outer.now)) rows raw) }
{
    match attribute(alloc, own, outer, here, raw)? {
        None => Ok(None),
        Some(row) => place(rows, row),
    }
}

// The rows with one more, where it belongs.
fn place(rows: List<Attribute>, row: Attribute) -> Result<Option<List<Attribute>>, Memory>
    requires { AreRising rows }
    ensures { IfOk result (λ more. more ≡ placed row rows) }
{
    match spot_of(rows.as_slice(), &row) {
        Spot::Taken => Ok(None),
        Spot::At(index) => put_at(rows, index, row),
    }
}

fn put_at(
    rows: List<Attribute>,
    index: usize,
    row: Attribute,
) -> Result<Option<List<Attribute>>, Memory>
    requires { index ≤ length rows }
    ensures { IfOk result (λ more. more ≡ placed_at (Spot.At index) row rows) }
{
    let mut items = rows.into_vec();
    match items.insert(index, row) {
        Ok(()) => Ok(Some(List::of(items))),
        Err(_) => Err(Memory),
    }
}

// A search by halves, since names may be long and equal but for their ends.
fn spot_of(rows: &[Attribute], row: &Attribute) -> Spot
    requires { AreRising rows.now }
    ensures spot { placed row.now rows.now ≡ placed_at result row.now rows.now }
    ensures within { IsSpotWithin result (length rows.now) }
{
    gap(rows.binary_search_by(|other| other.name.cmp(&row.name)))
}

// The place that a search ended at, if it is free.
fn gap(found: Result<usize, usize>) -> Spot
    ensures { result ≡ gap_of found }
{
    match found {
        Ok(_) => Spot::Taken,
        Err(index) => Spot::At(index),
    }
}
