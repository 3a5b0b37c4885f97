//! Shapes of elements as tables, and what is out of shape.
ghost use Rattle.std.specs.Prelude.{◌≡◌, ℕ, ◌+◌, None, Some, Option, IfOk, map, MatchOption, length};
ghost use Rattle.ba_tree.specs.Namespaces.{own_space, wsa_space};
ghost use Rattle.ba_tree.specs.declared.trees.Tree.{Tree};
ghost use Rattle.ba_soap_shapes.specs.declared.shapes.Misfit.{Misfit};
ghost use Rattle.ba_soap_shapes.specs.Elements.{first_child, number_after, in_u32};
ghost use Rattle.ba_soap_shapes.specs.Shapes.{comes_before, earlier_misfit, missing_misfit, line_of, mismatch_at, names, misfit_with_rows, row_misfit, rows_misfit, second_misfit, space_in};

use crate::elements::count;
use ba_core::Memory;
use ba_tree::{Content, OWN_SPACE, Tree, WSA_SPACE};
use std::alloc::Global;

/// Why an element is refused.
#[derive(Clone, Copy, Debug, PartialEq, Eq)]
pub enum Why {
    /// It is out of shape.
    Mismatch,
    /// It is an endpoint reference that doesn't fit.
    Limit,
}

/// What is refused: the number of the element, in document order, and why.
#[derive(Clone, Copy, Debug, PartialEq, Eq)]
pub struct Misfit {
    pub number: u32,
    pub why: Why,
}

/// The namespace of a child.
#[derive(Clone, Copy, Debug, PartialEq, Eq)]
pub enum Space {
    /// That of the element in which it stands.
    Parent,
    /// That of WS-Addressing.
    Addressing,
    /// This project's own.
    Own,
    /// None.
    Bare,
}

/// Whether a child has to be there.
#[derive(Clone, Copy, Debug, PartialEq, Eq)]
pub enum Need {
    Required,
    Optional,
}

/// A row of the table of a shape: a child, and its form.
#[derive(Clone, Copy, Debug)]
pub struct Row<F> {
    pub space: Space,
    pub local: &'static [u8],
    pub need: Need,
    pub form: F,
}

/// The form of an element.
pub trait Form {
    /// What is out of form in an element with that number, and comes first.
    ghost look: { Self → ℕ → Tree → Option Misfit };

    fn misfit(&self, alloc: Global, tree: &Tree, number: u32) -> Result<Option<Misfit>, Memory>
        ensures { IfOk result (λ found. found ≡ look self.now number tree.now) };
}

/// A child element and what stands after it.
#[derive(Clone, Copy)]
pub struct Found<'a> {
    pub tree: &'a Tree,
    pub number: u32,
    next: u32,
    rest: &'a [Content],
}

/// The first of two.
pub fn earlier(one: Option<Misfit>, other: Option<Misfit>) -> Option<Misfit>
    ensures { result ≡ earlier_misfit one other }
{
    match (one, other) {
        (None, other) => other,
        (one, None) => one,
        (Some(a), Some(b)) => { if comes_before(b, a) { other } else { one } }
    }
}

fn comes_before(one: Misfit, other: Misfit) -> bool
    ensures { result ≡ comes_before one other }
{
    match (one.why, other.why) {
        (Why::Mismatch, Why::Limit) => one.number <= other.number,
        _ => one.number < other.number,
    }
}

impl<F> Row<F> {
    /// Whether a child of that element is the one that the row names.
    fn names(&self, parent: &Tree, child: &Tree) -> bool
        ensures { result ≡ names (line_of self.now) parent.now child.now }
    {
        let space = match self.space {
            Space::Parent => parent.name.space.as_slice(),
            Space::Addressing => WSA_SPACE,
            Space::Own => OWN_SPACE,
            Space::Bare => b"".as_slice(),
        };
        child.name.space.as_slice() == space && child.name.local.as_slice() == self.local
    }

    /// The first child that the row names.
    #[tactic(auto, using(crate::proofs::ElementLaws::passed_child, crate::proofs::ElementLaws::passed_text))]
    pub fn first<'a>(&self, parent: &Tree, number: u32, content: &'a [Content]) -> Option<Found<'a>>
        ensures { MatchOption result (first_child (names (line_of self.now) parent.now) number content.now ≡ None)
            (λ f. first_child (names (line_of self.now) parent.now) number content.now ≡ Some (record { tree = f.tree.now; number = f.number; next = f.next; rest = f.rest.now })) }
    {
        let mut next = number;
        for index in 0..content.len() {
            if let Content::Child(tree) = &content[index] {
                let number = next;
                next = number.saturating_add(count(tree));
                if self.names(parent, tree) {
                    return Some(Found {
                        tree,
                        number,
                        next,
                        rest: &content[index + 1..],
                    });
                }
            }
        }
        None
    }
}

impl<F: Form> Row<F> {
    /// What is out of shape by this row, and comes first.
    fn misfit(&self, alloc: Global, tree: &Tree, number: u32) -> Result<Option<Misfit>, Memory>
        ensures { IfOk result (λ found. found ≡ row_misfit F.look (line_of self.now) number tree.now) }
    {
        let inner = number.saturating_add(1);
        match self.first(tree, inner, tree.content.as_slice()) {
            None => Ok(missing(self.need, number)),
            Some(found) => {
                let inside = self.form.misfit(alloc, found.tree, found.number)?;
                let second = second(self.first(tree, found.next, found.rest));
                Ok(earlier(inside, second))
            }
        }
    }
}

fn missing(need: Need, number: u32) -> Option<Misfit>
    ensures { result ≡ missing_misfit need number }
{
    match need {
        Need::Required => Some(mismatch(number)),
        Need::Optional => None,
    }
}

fn second(found: Option<Found>) -> Option<Misfit>
    ensures { MatchOption found.entry (result ≡ None) (λ f. result ≡ Some (mismatch_at f.number)) }
{
    match found {
        None => None,
        Some(found) => Some(mismatch(found.number)),
    }
}

pub fn mismatch(number: u32) -> Misfit
    ensures { result ≡ mismatch_at number }
{
    Misfit {
        number,
        why: Why::Mismatch,
    }
}

/// What is out of shape by these rows, and comes first.
pub fn rows_misfit<F: Form>(
    alloc: Global,
    rows: &[Row<F>],
    tree: &Tree,
    number: u32,
) -> Result<Option<Misfit>, Memory>
    ensures { IfOk result (λ found. found ≡ rows_misfit F.look (map line_of rows.now) number tree.now) }
{
    let mut least = None;
    for row in rows {
        least = earlier(least, row.misfit(alloc, tree, number)?);
    }
    Ok(least)
}
