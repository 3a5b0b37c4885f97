//! Endpoint references (WS-Addressing 1.0 Core, section 2), and whether one fits into the messages and records of a node.
ghost use Rattle.std.specs.Prelude.{◌≡◌, ◌≤◌, ◌↔◌, IsTrue, IfOk, [], length, map, nat_le, not};
ghost use Rattle.std.specs.List.{list_all, list_any, sum_by};
ghost use Rattle.ba_message.specs.Endpoints.{Fits, all_namespaces, endpoint_length, marks_parameter};
ghost use Rattle.ba_tree.specs.Lengths.{in_u64, tree_length};
ghost use Rattle.ba_tree.specs.Spaces.{all_noted};
ghost use Rattle.ba_tree.specs.Trees.{is_fit_tree, joined, levels, most_attributes, spaces_named};

use ba_core::{List, Memory, Octets};
use ba_tree::{Attribute, Spaces, Tree, WSA_SPACE, bare_ends, legal_text, text_size};
use std::alloc::Global;

/// How many bytes an endpoint reference that fits takes in a record at most.
pub const MOST_ENDPOINT_BYTES: u64 = 4096;

/// How many reference parameters an endpoint reference that fits has at most.
pub const MOST_PARAMETERS: usize = 8;

/// How many levels each of its parameters has at most.
pub const MOST_PARAMETER_LEVELS: u32 = 16;

/// How many attributes each element of its parameters has at most.
pub const MOST_PARAMETER_ATTRIBUTES: usize = 16;

/// How many namespaces its parameters name at most, all together.
pub const MOST_PARAMETER_NAMESPACES: usize = 16;

/// The local part of the attribute by which a header block is marked as a parameter (WS-Addressing 1.0 SOAP
/// Binding, section 3.3).
pub const PARAMETER_MARK: &[u8] = b"IsReferenceParameter";

/// An endpoint reference: its address and its reference parameters. Metadata is not kept.
#[derive(Debug, Drop)]
pub struct Epr {
    pub address: Octets,
    pub parameters: List<Tree>,
}

impl Epr {
    /// An equal endpoint reference.
    pub fn copy(&self, alloc: Global) -> Result<Epr, Memory>
        ensures { IfOk result (λ copy. copy ≡ self.now) }
    {
        Ok(Epr {
            address: self.address.copy()?,
            parameters: copy_trees(alloc, &self.parameters)?,
        })
    }

    /// True exactly where the addresses and the parameters are equal.
    pub fn equals(&self, other: &Epr) -> bool
        ensures { IsTrue result ↔ (self.now ≡ other.now) }
    {
        self.address.as_slice() == other.address.as_slice()
            && equal_trees(self.parameters.as_slice(), other.parameters.as_slice())
    }

    /// How many bytes it takes in a record, at most the greatest u64. A length or a count that is too great for
    /// its field counts as if it had room there.
    pub fn size(&self) -> u64
        ensures { result ≡ in_u64 (endpoint_length self.now) }
    {
        text_size(self.address.as_slice()).saturating_add(trees_size(
            self.parameters.as_slice(),
        ).saturating_add(1))
    }

    /// Whether a record of it takes at most 4,096 bytes, it has at most 8 parameters, each of at most 16 levels
    /// and 16 attributes on each element, with at most 16 namespaces in all, its address is a legal text, not
    /// empty and without white space at its ends, and each parameter keeps the rules of trees and isn't marked as
    /// one.
    pub fn fits(&self) -> bool
        ensures { IsTrue result ↔ Fits self.now }
    {
        let address = self.address.as_slice();
        let parameters = self.parameters.as_slice();
        parameters.len() <= MOST_PARAMETERS
            && are_shallow(parameters)
            && have_few_attributes(parameters)
            && self.size() <= MOST_ENDPOINT_BYTES
            && name_few_spaces(parameters)
            && address.len() >= 1
            && bare_ends(address)
            && legal_text(address)
            && are_fit(parameters)
            && are_unmarked(parameters)
    }
}

fn copy_trees(alloc: Global, trees: &List<Tree>) -> Result<List<Tree>, Memory>
    ensures { IfOk result (λ copy. copy ≡ trees.now) }
{
    let mut copies = List::new(alloc);
    for tree in trees.as_slice() {
        let copy = tree.copy(alloc)?;
        if copies.push(copy).is_err() {
            return Err(Memory);
        }
    }
    Ok(copies)
}

fn equal_trees(these: &[Tree], those: &[Tree]) -> bool
    ensures { IsTrue result ↔ (these.now ≡ those.now) }
{
    if these.len() != those.len() {
        return false;
    }
    for index in 0..these.len() {
        if !these[index].equals(&those[index]) {
            return false;
        }
    }
    true
}

fn trees_size(trees: &[Tree]) -> u64
    ensures { result ≡ in_u64 (sum_by tree_length trees.now) }
{
    let mut size: u64 = 0;
    for tree in trees {
        size = size.saturating_add(tree.size());
    }
    size
}

// ---- what fits

fn are_shallow(trees: &[Tree]) -> bool
    ensures { result ≡ list_all (λ t. nat_le (levels t) MOST_PARAMETER_LEVELS) trees.now }
{
    trees
        .iter()
        .all(|tree| tree.has_levels_within(MOST_PARAMETER_LEVELS))
}

fn have_few_attributes(trees: &[Tree]) -> bool
    ensures { result ≡ list_all (λ t. nat_le (most_attributes t) MOST_PARAMETER_ATTRIBUTES) trees.now }
{
    trees.iter().all(|tree| tree.has_attributes_within(MOST_PARAMETER_ATTRIBUTES))
}

fn are_fit(trees: &[Tree]) -> bool
    ensures { result ≡ list_all is_fit_tree trees.now }
{
    trees.iter().all(|tree| tree.is_fit())
}

fn are_unmarked(trees: &[Tree]) -> bool
    ensures { result ≡ list_all (λ t. not (list_any marks_parameter t.attributes)) trees.now }
{
    trees
        .iter()
        .all(|tree| !has_mark(tree.attributes.as_slice()))
}

fn has_mark(attributes: &[Attribute]) -> bool
    ensures { result ≡ list_any marks_parameter attributes.now }
{
    attributes
        .iter()
        .any(|attribute| is_parameter_mark(attribute))
}

/// Whether it is the attribute by which a header block is marked as a parameter, whatever its value is.
pub fn is_parameter_mark(attribute: &Attribute) -> bool
    ensures { result ≡ marks_parameter attribute.now }
{
    attribute.name.space.as_slice() == WSA_SPACE
        && attribute.name.local.as_slice() == PARAMETER_MARK
}

fn name_few_spaces(trees: &[Tree]) -> bool
    ensures { IsTrue result ↔ (length (all_namespaces trees.now) ≤ MOST_PARAMETER_NAMESPACES) }
{
    match note_trees(trees) {
        Some(spaces) => spaces.into_len() <= MOST_PARAMETER_NAMESPACES,
        None => false,
    }
}

fn note_trees<'a>(trees: &'a [Tree]) -> Option<Spaces<'a>>
    ensures { result ≡ all_noted MOST_PARAMETER_NAMESPACES [] (joined (map spaces_named trees.now)) }
{
    let mut noted = Spaces::new();
    for tree in trees {
        let Some(next) = tree.note_spaces(MOST_PARAMETER_NAMESPACES, noted) else {
            return None;
        };
        noted = next;
    }
    Some(noted)
}
