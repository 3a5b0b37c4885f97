//! The further namespaces of a tree, collected in order of first appearance.

ghost use Rattle.std.specs.Prelude.{◌≡◌, ℕ, List, [], ◌∷◌, ◌++◌, OnOk, IfOk};
ghost use Rattle.ba_tree.specs.Trees.{spaces_named};
ghost use Rattle.ba_xml_writer.specs.Collected.{taken, spaces_with, spaces_of, spaces_in};
ghost use Rattle.ba_xml_writer.specs.Namespaces.{is_further, further};

use crate::scribe::is;
use crate::space::Space;
use ba_core::Memory;
use ba_tree::{
    Attribute, Content, SOAP_SPACE, Tree, WSA_SPACE, WSBA_SPACE, WSCOOR_SPACE, XML_SPACE,
};
use indexmap::IndexSet;
use std::alloc::Global;

/// Namespaces, each once and in the order in which they came.
type Spaces<'a> = IndexSet<Space<'a>>;

#[tactic(auto, unfolding(crate::specs::Namespaces::xml_space, crate::specs::Namespaces::soap_space, crate::specs::Namespaces::wsa_space, crate::specs::Namespaces::wscoor_space, crate::specs::Namespaces::wsba_space))]
pub fn needs_number(space: &[u8]) -> bool
    ensures { result ≡ is_further space.now }
{
    !(is(space, b"")
        || is(space, XML_SPACE)
        || is(space, SOAP_SPACE)
        || is(space, WSA_SPACE)
        || is(space, WSCOOR_SPACE)
        || is(space, WSBA_SPACE))
}

fn add<'a>(spaces: &mut Spaces<'a>, space: &'a [u8]) -> Result<(), Memory>
    ensures { OnOk result ((rest : List (List ℕ)) → taken spaces.new.keys rest ≡ taken spaces.old.keys (space.now ∷ rest)) }
{
    if !needs_number(space) {
        return Ok(());
    }
    let key = Space::of(space);
    match spaces.insert(key) {
        Ok(_) => Ok(()),
        Err(_) => Err(Memory),
    }
}

fn add_attributes<'a>(spaces: &mut Spaces<'a>, list: &'a [Attribute]) -> Result<(), Memory>
    ensures { OnOk result ((rest : List (List ℕ)) → taken spaces.new.keys rest ≡ taken spaces.old.keys (spaces_with list.now rest)) }
{
    for attribute in list {
        add(spaces, attribute.name.space.as_slice())?;
    }
    Ok(())
}

#[cycle(adding)]
fn add_item<'a>(spaces: &mut Spaces<'a>, content: &'a Content) -> Result<(), Memory>
    ensures { OnOk result ((rest : List (List ℕ)) → taken spaces.new.keys rest ≡ taken spaces.old.keys (spaces_of content.now ++ rest)) }
{
    match content {
        Content::Text(_) => Ok(()),
        Content::Child(tree) => {
            add_tree(spaces, tree)?;
            Ok(())
        }
    }
}

#[cycle(adding)]
fn add_items<'a>(spaces: &mut Spaces<'a>, list: &'a [Content]) -> Result<(), Memory>
    ensures { OnOk result ((rest : List (List ℕ)) → taken spaces.new.keys rest ≡ taken spaces.old.keys (spaces_in list.now rest)) }
{
    for content in list {
        add_item(spaces, content)?;
    }
    Ok(())
}

#[cycle(adding)]
fn add_tree<'a>(spaces: &mut Spaces<'a>, tree: &'a Tree) -> Result<(), Memory>
    ensures { OnOk result ((rest : List (List ℕ)) → taken spaces.new.keys rest ≡ taken spaces.old.keys (spaces_named tree.now ++ rest)) }
{
    add(spaces, tree.name.space.as_slice())?;
    add_attributes(spaces, tree.attributes.as_slice())?;
    add_items(spaces, tree.content.as_slice())?;
    Ok(())
}

/// The further namespaces of a tree.
pub fn further_spaces(alloc: Global, tree: &Tree) -> Result<Spaces<'_>, Memory>
    ensures { IfOk result (λ spaces. spaces.keys ≡ further tree.now) }
{
    let mut spaces = IndexSet::new(alloc);
    add_tree(&mut spaces, tree)?;
    Ok(spaces)
}
