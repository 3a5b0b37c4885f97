//! Endpoint references in elements.
ghost use Rattle.std.specs.Prelude.{◌≡◌, ◌≤◌, [], ◌∷◌, ◌++◌, Ok, ℕ, ◌+◌, None, Some, Option, IfOk, IfErr, MatchOption, length, map, filter, not};
ghost use Rattle.ba_message.specs.Endpoints.{Fits, marks_parameter};
ghost use Rattle.ba_soap_shapes.specs.Elements.{children};
ghost use Rattle.ba_tree.specs.declared.trees.Content.TheVariants.{Child, Text};
ghost use Rattle.ba_soap_shapes.specs.Endpoints.{IsAnswer, bare_element, epr_answer, parameters_element, fault_of, wsa_name, child_at, children_in, endpoint_element, endpoint_look, endpoint_of, endpoint_lines, parameters_content, text_at, misfit_unless_fit, unmarked_tree};
ghost use Rattle.ba_message.specs.Endpoints.{fits_endpoint};
ghost use Rattle.ba_soap_shapes.specs.Forms.{plain_look};
ghost use Rattle.ba_soap_shapes.specs.Shapes.{line_of, limit_at, rows_misfit};

use crate::elements::text_of;
use crate::forms::Plain;
use crate::shapes::{Misfit, Need, Row, Space, Why, rows_misfit};
use ba_core::{List, Memory, Octets};
use ba_message::{Epr, is_parameter_mark};
use ba_tree::{Attribute, Content, Name, Namespace, Tree, WSA_SPACE};
use std::alloc::Global;
use thiserror::Error;

pub const ADDRESS: Row<Plain> = Row {
    space: Space::Addressing,
    local: b"Address",
    need: Need::Required,
    form: Plain::Text,
};

const REFERENCE_PARAMETERS: Row<Plain> = Row {
    space: Space::Addressing,
    local: b"ReferenceParameters",
    need: Need::Optional,
    form: Plain::Skipped,
};

const METADATA: Row<Plain> = Row {
    space: Space::Addressing,
    local: b"Metadata",
    need: Need::Optional,
    form: Plain::Skipped,
};

const ENDPOINT: [Row<Plain>; 3] = [ADDRESS, REFERENCE_PARAMETERS, METADATA];

/// What is out of shape in an endpoint reference, and comes first.
pub fn endpoint_misfit(alloc: Global, tree: &Tree, number: u32) -> Result<Option<Misfit>, Memory>
    ensures { IfOk result (λ found. found ≡ endpoint_look number tree.now) }
{
    match rows_misfit(alloc, ENDPOINT.as_slice(), tree, number)? {
        Some(misfit) => Ok(Some(misfit)),
        None => {
            let epr = endpoint_of(alloc, tree)?;
            Ok(if fits(&epr) {
                None
            } else {
                Some(Misfit {
                    number,
                    why: Why::Limit,
                })
            })
        }
    }
}

fn fits(epr: &Epr) -> bool
    ensures { result ≡ fits_endpoint epr.now }
{
    epr.fits()
}

/// The endpoint reference that an element of that shape holds.
pub fn endpoint_of(alloc: Global, tree: &Tree) -> Result<Epr, Memory>
    ensures { IfOk result (λ epr. epr ≡ endpoint_of tree.now) }
{
    Ok(Epr {
        address: text_at(alloc, &ADDRESS, tree)?,
        parameters: parameters_of(alloc, tree)?,
    })
}

/// The first child that the row names.
pub fn child_at<'a, F>(row: &Row<F>, tree: &'a Tree) -> Option<&'a Tree>
    ensures { MatchOption result (child_at (line_of row.now) tree.now ≡ None) (λ child. child_at (line_of row.now) tree.now ≡ Some child.now) }
{
    match row.first(tree, 0, tree.content.as_slice()) {
        None => None,
        Some(found) => Some(found.tree),
    }
}

/// The text of the first child that the row names; none where there is no such child.
pub fn text_at<F>(alloc: Global, row: &Row<F>, tree: &Tree) -> Result<Octets, Memory>
    ensures { IfOk result (λ text. text ≡ text_at (line_of row.now) tree.now) }
{
    match child_at(row, tree) {
        None => Ok(List::new(alloc)),
        Some(child) => text_of(alloc, child),
    }
}

fn parameters_of(alloc: Global, tree: &Tree) -> Result<List<Tree>, Memory>
    ensures { IfOk result (λ parameters. parameters ≡ (endpoint_of tree.now).parameters) }
{
    match REFERENCE_PARAMETERS.first(tree, 0, tree.content.as_slice()) {
        None => Ok(List::new(alloc)),
        Some(found) => unmarked_children(alloc, found.tree.content.as_slice()),
    }
}

fn unmarked_children(alloc: Global, content: &[Content]) -> Result<List<Tree>, Memory>
    ensures { IfOk result (λ trees. trees ≡ map unmarked_tree (children content.now)) }
{
    let mut trees = List::new(alloc);
    for part in content {
        if let Content::Child(tree) = part {
            let tree = unmarked(alloc, tree)?;
            if trees.push(tree).is_err() {
                return Err(Memory);
            }
        }
    }
    Ok(trees)
}

/// An equal element without the attribute that marks it as a parameter.
pub fn unmarked(alloc: Global, tree: &Tree) -> Result<Tree, Memory>
    ensures { IfOk result (λ copy. copy ≡ unmarked_tree tree.now) }
{
    let Tree {
        name,
        attributes,
        content,
    } = tree.copy(alloc)?;
    Ok(Tree {
        name,
        attributes: kept(alloc, attributes.as_slice())?,
        content,
    })
}

fn kept(alloc: Global, attributes: &[Attribute]) -> Result<List<Attribute>, Memory>
    ensures { IfOk result (λ kept. kept ≡ filter (λ a. not (marks_parameter a)) attributes.now) }
{
    let mut kept = List::new(alloc);
    for attribute in attributes {
        if !is_parameter_mark(attribute) {
            let copy = attribute.copy()?;
            if kept.push(copy).is_err() {
                return Err(Memory);
            }
        }
    }
    Ok(kept)
}

/// Why an element is no endpoint reference that this product takes.
#[derive(Clone, Copy, Debug, PartialEq, Eq, Error)]
pub enum EprFault {
    #[error("out of memory")]
    Memory,
    /// The number, in document order from 0, of the first element out of shape.
    #[error("element {0} is out of shape")]
    Mismatch(u32),
    /// It has the shape and doesn't fit.
    #[error("an endpoint reference that doesn't fit")]
    EprLimit,
}

/// The endpoint reference that an element holds.
pub fn epr_of(alloc: Global, tree: &Tree) -> Result<Epr, EprFault>
    ensures { IsAnswer (epr_answer tree.now) result }
{
    match endpoint_misfit(alloc, tree, 0) {
        Err(Memory) => Err(EprFault::Memory),
        Ok(Some(misfit)) => Err(fault_of(misfit)),
        Ok(None) => match endpoint_of(alloc, tree) {
            Err(Memory) => Err(EprFault::Memory),
            Ok(epr) => Ok(epr),
        },
    }
}

/// The refusal of an element that is out of shape.
pub fn fault_of(misfit: Misfit) -> EprFault
    ensures { result ≡ fault_of misfit }
{
    match misfit.why {
        Why::Mismatch => EprFault::Mismatch(misfit.number),
        Why::Limit => EprFault::EprLimit,
    }
}

fn octets(alloc: Global, bytes: &[u8]) -> Result<Octets, Memory>
    ensures { IfOk result (λ octets. octets ≡ bytes.now) }
{
    let mut octets = List::new(alloc);
    octets.append(bytes)?;
    Ok(octets)
}

pub fn name(alloc: Global, space: &[u8], local: &[u8]) -> Result<Name, Memory>
    ensures { IfOk result (λ name. name ≡ record { space = space.now; local = local.now }) }
{
    Ok(Name {
        space: Namespace::of(alloc, octets(alloc, space)?)?,
        local: octets(alloc, local)?,
    })
}

/// An element without attributes that holds this content.
pub fn element(alloc: Global, name: Name, content: List<Content>) -> Tree
    ensures { result ≡ bare_element name content }
{
    Tree {
        name,
        attributes: List::new(alloc),
        content,
    }
}

pub fn only(alloc: Global, part: Content) -> Result<List<Content>, Memory>
    ensures { IfOk result (λ content. content ≡ part ∷ []) }
{
    let mut content = List::new(alloc);
    match content.push(part) {
        Ok(()) => Ok(content),
        Err(_) => Err(Memory),
    }
}

/// An element that holds a text alone.
pub fn text_element(alloc: Global, name: Name, text: &[u8]) -> Result<Tree, Memory>
    ensures { IfOk result (λ tree. tree ≡ bare_element name (Text text.now ∷ [])) }
{
    let text = octets(alloc, text)?;
    let content = only(alloc, Content::Text(text))?;
    Ok(element(alloc, name, content))
}

/// The element of that name that holds an endpoint reference, which is read back from it.
pub fn tree_of_epr(alloc: Global, epr: &Epr, name: &Name) -> Result<Tree, Memory>
    requires { Fits epr.now }
    ensures element { IfOk result (λ tree. tree ≡ endpoint_element name.now epr.now) }
    ensures reads_back { IfOk result (λ tree. epr_answer tree ≡ Ok epr.now) }
{
    endpoint_element(alloc, epr, name)
}

/// The element of that name that holds an endpoint reference, whether or not this product takes such a one.
pub fn endpoint_element(alloc: Global, epr: &Epr, name: &Name) -> Result<Tree, Memory>
    ensures { IfOk result (λ tree. tree ≡ endpoint_element name.now epr.now) }
{
    let address = wsa_name(alloc, b"Address".as_slice())?;
    let address = text_element(alloc, address, epr.address.as_slice())?;
    let content = only(alloc, Content::Child(address))?;
    let content = with_parameters(alloc, content, epr.parameters.as_slice())?;
    Ok(element(alloc, name.copy()?, content))
}

/// The content, and after it the element that holds the parameters, where there are any.
fn with_parameters(
    alloc: Global,
    content: List<Content>,
    parameters: &[Tree],
) -> Result<List<Content>, Memory>
    ensures { IfOk result (λ all. all ≡ content ++ parameters_content parameters.now) }
{
    if parameters.is_empty() {
        Ok(content)
    } else {
        and_holder(alloc, content, parameters)
    }
}

#[tactic(auto, using(crate::proofs::ElementLaws::some_parameters))]
fn and_holder(
    alloc: Global,
    content: List<Content>,
    parameters: &[Tree],
) -> Result<List<Content>, Memory>
    requires { 1 ≤ length parameters.now }
    ensures { IfOk result (λ all. all ≡ content ++ parameters_content parameters.now) }
{
    let holder = holder(alloc, parameters)?;
    and(content, Content::Child(holder))
}

fn holder(alloc: Global, parameters: &[Tree]) -> Result<Tree, Memory>
    ensures { IfOk result (λ tree. tree ≡ parameters_element parameters.now) }
{
    let name = wsa_name(alloc, b"ReferenceParameters".as_slice())?;
    let parameters = children(alloc, parameters)?;
    Ok(element(alloc, name, parameters))
}

/// The content and one part more.
pub fn and(content: List<Content>, part: Content) -> Result<List<Content>, Memory>
    ensures { IfOk result (λ all. all ≡ content ++ part ∷ []) }
{
    let mut content = content;
    match content.push(part) {
        Ok(()) => Ok(content),
        Err(_) => Err(Memory),
    }
}

pub fn wsa_name(alloc: Global, local: &[u8]) -> Result<Name, Memory>
    ensures { IfOk result (λ name. name ≡ wsa_name local.now) }
{
    name(alloc, WSA_SPACE, local)
}

/// Copies of the elements, as content.
fn children(alloc: Global, trees: &[Tree]) -> Result<List<Content>, Memory>
    ensures { IfOk result (λ content. content ≡ map Child trees.now) }
{
    let mut content = List::new(alloc);
    for tree in trees {
        let copy = tree.copy(alloc)?;
        if content.push(Content::Child(copy)).is_err() {
            return Err(Memory);
        }
    }
    Ok(content)
}
