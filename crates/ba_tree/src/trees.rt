//! An element of XML as its reader gives it and its writer takes it: names with their namespaces, and no prefixes.
//! Its copies, its equality, its size in a record, the rules of trees that are read or written, and their limits.
ghost use Rattle.std.specs.Prelude.{◌≡◌, ◌↔◌, ◌-◌, ◌≤◌, ◌&&◌, IsTrue, IfOk, length, map, nat_le, not};
ghost use Rattle.std.specs.List.{list_all, sum_by};
ghost use Rattle.std.specs.Ordering.{is_lt};
ghost use Rattle.ba_tree.specs.Lengths.{attribute_length, in_u64, name_length, part_length, text_length, tree_length};
ghost use Rattle.ba_tree.specs.Spaces.{all_noted, spaces_within};
ghost use Rattle.ba_tree.specs.Trees.{all_adjacent, declares, element_of, is_fit_attribute, is_fit_element, is_fit_name, is_fit_part, is_fit_tree, is_text, joined, levels, levels_of, most_attributes, name_cmp, rises, spaces_named, within};

use crate::characters::{legal_text, plain_name};
use crate::namespaces::Namespace;
use crate::spaces::Spaces;
use ba_core::{List, Memory, Octets};
use std::alloc::Global;
use std::cmp::Ordering;

/// An expanded name (Namespaces in XML 1.0, section 2.1): the namespace, empty where there is none, and the local part.
#[derive(Debug, Drop)]
pub struct Name {
    pub space: Namespace,
    pub local: Octets,
}

/// An attribute that is no declaration of a namespace.
#[derive(Debug, Drop)]
pub struct Attribute {
    pub name: Name,
    pub value: Octets,
}

/// What stands between the tags of an element.
#[cycle(tree)]
#[derive(Debug, Drop)]
pub enum Content {
    Child(Tree),
    Text(Octets),
}

/// An element.
#[cycle(tree)]
#[derive(Debug, Drop)]
pub struct Tree {
    pub name: Name,
    pub attributes: List<Attribute>,
    pub content: List<Content>,
}

impl Name {
    /// An equal name, whose memory comes from where this one's does.
    pub fn copy(&self) -> Result<Name, Memory>
        ensures { IfOk result (λ copy. copy ≡ self.now) }
    {
        Ok(Name {
            space: self.space.copy()?,
            local: self.local.copy()?,
        })
    }

    /// True exactly where both the namespaces and the local parts are equal.
    pub fn equals(&self, other: &Name) -> bool
        ensures { IsTrue result ↔ (self.now ≡ other.now) }
    {
        self.space.as_slice() == other.space.as_slice()
            && self.local.as_slice() == other.local.as_slice()
    }

    /// How many bytes it takes in a record: both parts with their lengths, at most the greatest u64.
    pub fn size(&self) -> u64
        ensures { result ≡ in_u64 (name_length self.now) }
    {
        text_size(self.space.as_slice()).saturating_add(text_size(self.local.as_slice()))
    }

    /// Whether its local part is a plain name and its namespace a legal text.
    pub fn is_fit(&self) -> bool
        ensures { result ≡ is_fit_name self.now }
    {
        plain_name(self.local.as_slice()) && self.space.is_legal()
    }

    /// Where it stands beside the other: by the bytes of the namespace, and then by those of the local part.
    pub fn cmp(&self, other: &Name) -> Ordering
        ensures { result ≡ name_cmp self.now other.now }
    {
        match self.space.as_slice().cmp(other.space.as_slice()) {
            Ordering::Equal => self.local.as_slice().cmp(other.local.as_slice()),
            decided => decided,
        }
    }

    /// Whether it stands before the other.
    pub fn is_before(&self, other: &Name) -> bool
        ensures { result ≡ is_lt (name_cmp self.now other.now) }
    {
        self.cmp(other).is_lt()
    }

    /// Whether it is the name by which a document declares its default namespace.
    fn is_declaration(&self) -> bool
        ensures { result ≡ declares self.now }
    {
        self.space.as_slice() == b"".as_slice() && self.local.as_slice() == b"xmlns".as_slice()
    }
}

impl Attribute {
    /// An equal attribute, whose memory comes from where this one's does.
    pub fn copy(&self) -> Result<Attribute, Memory>
        ensures { IfOk result (λ copy. copy ≡ self.now) }
    {
        Ok(Attribute {
            name: self.name.copy()?,
            value: self.value.copy()?,
        })
    }

    /// True exactly where the names and the values are equal.
    pub fn equals(&self, other: &Attribute) -> bool
        ensures { IsTrue result ↔ (self.now ≡ other.now) }
    {
        self.name.equals(&other.name) && self.value.as_slice() == other.value.as_slice()
    }

    /// How many bytes it takes in a record, at most the greatest u64.
    pub fn size(&self) -> u64
        ensures { result ≡ in_u64 (attribute_length self.now) }
    {
        self.name
            .size()
            .saturating_add(text_size(self.value.as_slice()))
    }

    /// Whether its name is fit and declares nothing, and its value is a legal text.
    pub fn is_fit(&self) -> bool
        ensures { result ≡ is_fit_attribute self.now }
    {
        self.name.is_fit() && !self.name.is_declaration() && legal_text(self.value.as_slice())
    }
}

impl Content {
    /// Equal content.
    #[cycle(copies)]
    pub fn copy(&self, alloc: Global) -> Result<Content, Memory>
        ensures { IfOk result (λ copy. copy ≡ self.now) }
    {
        match self {
            Content::Child(tree) => Ok(Content::Child(tree.copy(alloc)?)),
            Content::Text(text) => Ok(Content::Text(text.copy()?)),
        }
    }

    /// True exactly where both are equal elements, or both equal texts.
    #[cycle(equals)]
    pub fn equals(&self, other: &Content) -> bool
        ensures { IsTrue result ↔ (self.now ≡ other.now) }
    {
        match self {
            Content::Child(tree) => match other {
                Content::Child(another) => tree.equals(another),
                Content::Text(_) => false,
            },
            Content::Text(text) => match other {
                Content::Child(_) => false,
                Content::Text(another) => text.as_slice() == another.as_slice(),
            },
        }
    }

    /// How many bytes it takes in a record, at most the greatest u64.
    #[cycle(sizes)]
    pub fn size(&self) -> u64
        ensures { result ≡ in_u64 (part_length self.now) }
    {
        match self {
            Content::Child(tree) => tree.size().saturating_add(1),
            Content::Text(text) => text_size(text.as_slice()).saturating_add(1),
        }
    }

    fn is_text(&self) -> bool
        ensures { result ≡ is_text (within self.now).part }
    {
        matches!(self, Content::Text(_))
    }

    /// Whether it is an element, or a text that is legal and not empty.
    fn is_fit_part(&self) -> bool
        ensures { result ≡ is_fit_part (within self.now).part }
    {
        match self {
            Content::Child(_) => true,
            Content::Text(text) => text.len() != 0 && legal_text(text.as_slice()),
        }
    }

    /// Whether it is a text, or an element that keeps the rules.
    #[cycle(rules)]
    fn is_fit_within(&self) -> bool
        ensures { result ≡ list_all is_fit_element (within self.now).elements }
    {
        match self {
            Content::Child(tree) => tree.is_fit(),
            Content::Text(_) => true,
        }
    }

    #[cycle(levels)]
    fn has_levels_within(&self, limit: u32) -> bool
        ensures { result ≡ nat_le (levels_of self.now) limit }
    {
        match self {
            Content::Child(tree) => tree.has_levels_within(limit),
            Content::Text(_) => true,
        }
    }

    #[cycle(attributes)]
    #[tactic(auto, using(crate::proofs::TreeLimits::attributes_of_child))]
    fn has_attributes_within(&self, limit: usize) -> bool
        ensures { result ≡ list_all (λ e. nat_le (length e.attributes) limit) (within self.now).elements }
    {
        match self {
            Content::Child(tree) => tree.has_attributes_within(limit),
            Content::Text(_) => true,
        }
    }

    #[cycle(spaces)]
    fn note_spaces<'a>(&'a self, most: usize, spaces: Spaces<'a>) -> Option<Spaces<'a>>
        requires { most ≤ 32 }
        ensures { result ≡ all_noted most spaces.entry (spaces_within self.now) }
    {
        match self {
            Content::Child(tree) => tree.note_spaces(most, spaces),
            Content::Text(_) => Some(spaces),
        }
    }
}

impl Tree {
    /// An equal tree.
    #[cycle(copies)]
    pub fn copy(&self, alloc: Global) -> Result<Tree, Memory>
        ensures { IfOk result (λ copy. copy ≡ self.now) }
    {
        Ok(Tree {
            name: self.name.copy()?,
            attributes: copy_attributes(alloc, &self.attributes)?,
            content: copy_content(alloc, &self.content)?,
        })
    }

    /// True exactly where the trees are equal in every part.
    #[cycle(equals)]
    pub fn equals(&self, other: &Tree) -> bool
        ensures { IsTrue result ↔ (self.now ≡ other.now) }
    {
        self.name.equals(&other.name)
            && equal_attributes(self.attributes.as_slice(), other.attributes.as_slice())
            && equal_content(self.content.as_slice(), other.content.as_slice())
    }

    /// How many bytes it takes in a record, at most the greatest u64. A length or a count that is too great for
    /// its field counts as if it had room there.
    #[cycle(sizes)]
    pub fn size(&self) -> u64
        ensures { result ≡ in_u64 (tree_length self.now) }
    {
        let attributes = attributes_size(self.attributes.as_slice());
        let content = content_size(self.content.as_slice());
        self.name
            .size()
            .saturating_add(attributes.saturating_add(1))
            .saturating_add(content.saturating_add(2))
    }

    /// Whether each of its elements keeps the rules.
    #[cycle(rules)]
    #[tactic(auto, using(crate::proofs::TreeRules::fit_in))]
    pub fn is_fit(&self) -> bool
        ensures { result ≡ is_fit_tree self.now }
    {
        is_fit_alone(self) && elements_are_fit(self.content.as_slice())
    }

    /// Whether it has at most this many levels; an element without child elements has one.
    #[cycle(levels)]
    #[tactic(auto, using(crate::proofs::TreeLimits::levels_step))]
    pub fn has_levels_within(&self, limit: u32) -> bool
        ensures { result ≡ nat_le (levels self.now) limit }
    {
        limit >= 1 && levels_are_within(self.content.as_slice(), limit - 1)
    }

    /// Whether each of its elements has at most this many attributes.
    #[cycle(attributes)]
    #[tactic(auto, using(crate::proofs::TreeLimits::attributes_step))]
    pub fn has_attributes_within(&self, limit: usize) -> bool
        ensures { result ≡ nat_le (most_attributes self.now) limit }
    {
        self.attributes.len() <= limit && attributes_are_within(self.content.as_slice(), limit)
    }

    /// Notes the namespaces that its elements name, in the order of a document. None where they are more than
    /// `most`, which is at most 32.
    #[cycle(spaces)]
    #[tactic(auto, using(crate::proofs::SpaceLaws::noted_tree))]
    pub fn note_spaces<'a>(&'a self, most: usize, spaces: Spaces<'a>) -> Option<Spaces<'a>>
        requires { most ≤ 32 }
        ensures { result ≡ all_noted most spaces.entry (spaces_named self.now) }
    {
        let Some(named) = spaces.note(most, self.name.space.as_slice()) else {
            return None;
        };
        let Some(with_attributes) = note_attributes(self.attributes.as_slice(), most, named) else {
            return None;
        };
        note_content(self.content.as_slice(), most, with_attributes)
    }
}

// ---- copies, equality and sizes of lists

/// How many bytes a string takes in a record, at most the greatest u64: two for its length, and its own.
pub fn text_size(bytes: &[u8]) -> u64
    ensures { result ≡ in_u64 (text_length bytes.now) }
{
    (bytes.len() as u64).saturating_add(2)
}

fn attributes_size(attributes: &[Attribute]) -> u64
    ensures { result ≡ in_u64 (sum_by attribute_length attributes.now) }
{
    let mut size: u64 = 0;
    for attribute in attributes {
        size = size.saturating_add(attribute.size());
    }
    size
}

#[cycle(sizes)]
fn content_size(content: &[Content]) -> u64
    ensures { result ≡ in_u64 (sum_by part_length content.now) }
{
    let mut size: u64 = 0;
    for part in content {
        size = size.saturating_add(part.size());
    }
    size
}

fn copy_attributes(alloc: Global, attributes: &List<Attribute>) -> Result<List<Attribute>, Memory>
    ensures { IfOk result (λ copy. copy ≡ attributes.now) }
{
    let mut copies = List::new(alloc);
    for attribute in attributes.as_slice() {
        let copy = attribute.copy()?;
        if copies.push(copy).is_err() {
            return Err(Memory);
        }
    }
    Ok(copies)
}

#[cycle(copies)]
fn copy_content(alloc: Global, content: &List<Content>) -> Result<List<Content>, Memory>
    ensures { IfOk result (λ copy. copy ≡ content.now) }
{
    let mut copies = List::new(alloc);
    for part in content.as_slice() {
        let copy = part.copy(alloc)?;
        if copies.push(copy).is_err() {
            return Err(Memory);
        }
    }
    Ok(copies)
}

fn equal_attributes(these: &[Attribute], those: &[Attribute]) -> bool
    ensures { IsTrue result ↔ (these.now ≡ those.now) }
{
    if these.len() != those.len() {
        return false;
    }
    for index in 0..these.len() {
        if !these[index].equals(&those[index]) {
            return false;
        }
    }
    true
}

#[cycle(equals)]
fn equal_content(these: &[Content], those: &[Content]) -> bool
    ensures { IsTrue result ↔ (these.now ≡ those.now) }
{
    if these.len() != those.len() {
        return false;
    }
    for index in 0..these.len() {
        if !these[index].equals(&those[index]) {
            return false;
        }
    }
    true
}

// ---- the rules

/// Whether the element keeps the rules, whatever its child elements hold.
#[tactic(auto, using(crate::proofs::TreeRules::fit_alone))]
fn is_fit_alone(tree: &Tree) -> bool
    ensures { result ≡ is_fit_element (element_of tree.now) }
{
    tree.name.is_fit()
        && attributes_are_fit(tree.attributes.as_slice())
        && attributes_rise(tree.attributes.as_slice())
        && parts_are_fit(tree.content.as_slice())
        && texts_are_apart(tree.content.as_slice())
}

fn attributes_are_fit(attributes: &[Attribute]) -> bool
    ensures { result ≡ list_all is_fit_attribute attributes.now }
{
    attributes.iter().all(|attribute| attribute.is_fit())
}

fn attributes_rise(attributes: &[Attribute]) -> bool
    ensures { result ≡ rises attributes.now }
{
    attributes.is_sorted_by(|one, next| one.name.is_before(&next.name))
}

fn parts_are_fit(content: &[Content]) -> bool
    ensures { result ≡ list_all (λ c. is_fit_part (within c).part) content.now }
{
    content.iter().all(|part| part.is_fit_part())
}

fn texts_are_apart(content: &[Content]) -> bool
    ensures { result ≡ all_adjacent (λ c d. not (is_text (within c).part && is_text (within d).part)) content.now }
{
    content.is_sorted_by(|one, next| !(one.is_text() && next.is_text()))
}

#[cycle(rules)]
fn elements_are_fit(content: &[Content]) -> bool
    ensures { result ≡ list_all (λ c. list_all is_fit_element (within c).elements) content.now }
{
    for part in content {
        if !part.is_fit_within() {
            return false;
        }
    }
    true
}

// ---- the limits

#[cycle(levels)]
fn levels_are_within(content: &[Content], limit: u32) -> bool
    ensures { result ≡ list_all (λ c. nat_le (levels_of c) limit) content.now }
{
    for part in content {
        if !part.has_levels_within(limit) {
            return false;
        }
    }
    true
}

#[cycle(attributes)]
fn attributes_are_within(content: &[Content], limit: usize) -> bool
    ensures { result ≡ list_all (λ c. list_all (λ e. nat_le (length e.attributes) limit) (within c).elements) content.now }
{
    for part in content {
        if !part.has_attributes_within(limit) {
            return false;
        }
    }
    true
}

// ---- the namespaces

fn note_attributes<'a>(
    attributes: &'a [Attribute],
    most: usize,
    spaces: Spaces<'a>,
) -> Option<Spaces<'a>>
    requires { most ≤ 32 }
    ensures { result ≡ all_noted most spaces.entry (map (λ a. a.name.space) attributes.now) }
{
    let mut noted = spaces;
    for attribute in attributes {
        let Some(next) = noted.note(most, attribute.name.space.as_slice()) else {
            return None;
        };
        noted = next;
    }
    Some(noted)
}

#[cycle(spaces)]
fn note_content<'a>(content: &'a [Content], most: usize, spaces: Spaces<'a>) -> Option<Spaces<'a>>
    requires { most ≤ 32 }
    ensures { result ≡ all_noted most spaces.entry (joined (map spaces_within content.now)) }
{
    let mut noted = spaces;
    for part in content {
        let Some(next) = part.note_spaces(most, noted) else {
            return None;
        };
        noted = next;
    }
    Some(noted)
}
