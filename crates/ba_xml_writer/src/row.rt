//! The further namespaces of a tree, collected without memory as far as a tag has room for their declarations.

ghost use Rattle.std.specs.Prelude.{◌≡◌, ℕ, ◌<◌, List, [], ◌∷◌, ◌++◌, length, OnOk, OnErr, IfOk};
ghost use Rattle.std.specs.List.{list_any};
ghost use Rattle.std.specs.Str.{bytes_eq};
ghost use Rattle.ba_tree.specs.Trees.{spaces_named};
ghost use Rattle.ba_xml_writer.specs.Collected.{taken, spaces_with, spaces_of, spaces_in};
ghost use Rattle.ba_xml_writer.specs.Namespaces.{further};

use crate::space::Space;
use crate::spaces::needs_number;
use arrayvec::ArrayVec;
use ba_tree::{Attribute, Content, Tree};

/// Namespaces, each once and in the order in which they came, at most as many as a tag can declare beside the
/// four that it always declares.
pub type Row<'a> = ArrayVec<Space<'a>, 28>;

/// There is a namespace more than a row holds.
#[derive(Clone, Copy, Debug, PartialEq, Eq)]
pub struct TooMany;

fn holds(spaces: &[Space], space: &[u8]) -> bool
    ensures { result ≡ list_any (bytes_eq space.now) spaces.now }
{
    spaces.iter().any(|held| space == held.as_slice())
}

fn hold<'a>(row: &mut Row<'a>, space: &'a [u8]) -> Result<(), TooMany>
    ensures held { OnOk result ((rest : List (List ℕ)) → taken row.new.items rest ≡ taken row.old.items (space.now ∷ rest)) }
    ensures many { OnErr result ((rest : List (List ℕ)) → 28 < length (taken row.old.items (space.now ∷ rest))) }
{
    if !needs_number(space) {
        return Ok(());
    }
    if holds(row.as_slice(), space) {
        return Ok(());
    }
    match row.try_push(Space::of(space)) {
        Ok(()) => Ok(()),
        Err(_) => Err(TooMany),
    }
}

fn hold_attributes<'a>(row: &mut Row<'a>, list: &'a [Attribute]) -> Result<(), TooMany>
    ensures held { OnOk result ((rest : List (List ℕ)) → taken row.new.items rest ≡ taken row.old.items (spaces_with list.now rest)) }
    ensures many { OnErr result ((rest : List (List ℕ)) → 28 < length (taken row.old.items (spaces_with list.now rest))) }
{
    for attribute in list {
        if let Err(many) = hold(row, attribute.name.space.as_slice()) {
            return Err(many);
        }
    }
    Ok(())
}

#[cycle(holding)]
fn hold_item<'a>(row: &mut Row<'a>, content: &'a Content) -> Result<(), TooMany>
    ensures held { OnOk result ((rest : List (List ℕ)) → taken row.new.items rest ≡ taken row.old.items (spaces_of content.now ++ rest)) }
    ensures many { OnErr result ((rest : List (List ℕ)) → 28 < length (taken row.old.items (spaces_of content.now ++ rest))) }
{
    match content {
        Content::Text(_) => Ok(()),
        Content::Child(tree) => hold_tree(row, tree),
    }
}

#[cycle(holding)]
fn hold_items<'a>(row: &mut Row<'a>, list: &'a [Content]) -> Result<(), TooMany>
    ensures held { OnOk result ((rest : List (List ℕ)) → taken row.new.items rest ≡ taken row.old.items (spaces_in list.now rest)) }
    ensures many { OnErr result ((rest : List (List ℕ)) → 28 < length (taken row.old.items (spaces_in list.now rest))) }
{
    for content in list {
        if let Err(many) = hold_item(row, content) {
            return Err(many);
        }
    }
    Ok(())
}

#[cycle(holding)]
fn hold_tree<'a>(row: &mut Row<'a>, tree: &'a Tree) -> Result<(), TooMany>
    ensures held { OnOk result ((rest : List (List ℕ)) → taken row.new.items rest ≡ taken row.old.items (spaces_named tree.now ++ rest)) }
    ensures many { OnErr result ((rest : List (List ℕ)) → 28 < length (taken row.old.items (spaces_named tree.now ++ rest))) }
{
    if let Err(many) = hold(row, tree.name.space.as_slice()) {
        return Err(many);
    }
    if let Err(many) = hold_attributes(row, tree.attributes.as_slice()) {
        return Err(many);
    }
    if let Err(many) = hold_items(row, tree.content.as_slice()) {
        return Err(many);
    }
    Ok(())
}

/// The further namespaces of a tree, or that they are more than 28.
pub fn further_row(tree: &Tree) -> Result<Row<'_>, TooMany>
    ensures row { IfOk result (λ row. row.items ≡ further tree.now) }
    ensures many { OnErr result (28 < length (further tree.now)) }
{
    let mut row = ArrayVec::new();
    if let Err(many) = hold_tree(&mut row, tree) {
        return Err(many);
    }
    Ok(row)
}
