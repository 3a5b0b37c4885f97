//! Trees: a name, `name=value;` for each attribute and, after `|`, the content, in which a text stands in quotes. A namespace
//! stands in braces before a name.

use crate::texts::{is_shown_by, octets_of, put_bytes, put_text};
use ba_core::List;
use ba_tree::{Attribute, Content, Name, Namespace, Tree};
use std::alloc::{AllocError, Global};

// ---- as they are shown

/// Appends a name, after its namespace in braces.
fn put_name(name: &Name, out: &mut String) -> Result<(), AllocError> {
    if !name.space.is_empty() {
        out.push('{')?;
        put_bytes(name.space.as_slice(), out)?;
        out.push('}')?;
    }
    put_bytes(name.local.as_slice(), out)
}

/// Appends attributes, after a blank where there are any.
fn put_attributes(attributes: &[Attribute], out: &mut String) -> Result<(), AllocError> {
    if !attributes.is_empty() {
        out.push(' ')?;
    }
    for attribute in attributes {
        put_name(&attribute.name, out)?;
        out.push('=')?;
        put_bytes(attribute.value.as_slice(), out)?;
        out.push(';')?;
    }
    Ok(())
}

/// Appends an element, or a text in quotes.
#[cycle(shown)]
fn put_content(content: &Content, out: &mut String) -> Result<(), AllocError> {
    match content {
        Content::Child(tree) => put_tree(tree, out),
        Content::Text(text) => put_text(text, out),
    }
}

/// Appends an element: its name, its attributes and its content.
#[cycle(shown)]
pub fn put_tree(tree: &Tree, out: &mut String) -> Result<(), AllocError> {
    out.push('(')?;
    put_name(&tree.name, out)?;
    put_attributes(tree.attributes.as_slice(), out)?;
    out.push('|')?;
    for content in tree.content.as_slice() {
        put_content(content, out)?;
    }
    out.push(')')
}

/// Appends a word and, in brackets, the trees that it names, where there are any.
pub fn put_trees(word: &str, trees: &[Tree], out: &mut String) -> Result<(), AllocError> {
    if trees.is_empty() {
        return Ok(());
    }
    out.push_str(word)?;
    out.push('[')?;
    for tree in trees {
        put_tree(tree, out)?;
    }
    out.push(']')
}

// ---- as rows write them

/// The tree that these bytes show, if it is shown by exactly them again.
pub fn shown_tree(alloc: Global, shown: &[u8]) -> Result<Option<Tree>, AllocError> {
    let Ok(text) = str::from_utf8(shown) else {
        return Ok(None);
    };
    let Some(tree) = tree_of(alloc, text)? else {
        return Ok(None);
    };
    let mut again = String::new(alloc);
    put_tree(&tree, &mut again)?;
    Ok(is_shown_by(alloc, shown, again.as_str())?.then_some(tree))
}

/// The tree that is shown, if one is. What isn't understood is left out.
pub fn tree_of(alloc: Global, shown: &str) -> Result<Option<Tree>, AllocError> {
    let mut open = Vec::new(alloc);
    for part in shown.split('(').skip(1) {
        if let Some((head, content)) = part.split_once('|') {
            open.push(element_of(alloc, head)?)?;
            add_content(alloc, content, &mut open)?;
        }
    }
    Ok(open.pop())
}

/// An element without content, from its name and its attributes.
fn element_of(alloc: Global, head: &str) -> Result<Tree, AllocError> {
    let (name, attributes) = head.split_once(' ').unwrap_or((head, ""));
    Ok(Tree {
        name: name_of(alloc, name)?,
        attributes: attributes_of(alloc, attributes)?,
        content: List::new(alloc),
    })
}

/// Attributes, each of which ends with a semicolon.
fn attributes_of(alloc: Global, shown: &str) -> Result<List<Attribute>, AllocError> {
    let mut attributes = Vec::new(alloc);
    for part in shown.split(';') {
        if let Some((name, value)) = part.split_once('=') {
            attributes.push(Attribute {
                name: name_of(alloc, name)?,
                value: octets_of(alloc, value)?,
            })?;
        }
    }
    Ok(List::of(attributes))
}

/// A name, before which its namespace stands in braces.
fn name_of(alloc: Global, shown: &str) -> Result<Name, AllocError> {
    let (space, local) = space_and_local(shown).unwrap_or(("", shown));
    Ok(Name {
        space: namespace_of(alloc, space)?,
        local: octets_of(alloc, local)?,
    })
}

/// What stands in braces, and what stands after them.
fn space_and_local(shown: &str) -> Option<(&str, &str)> {
    shown.strip_prefix('{')?.split_once('}')
}

fn namespace_of(alloc: Global, text: &str) -> Result<Namespace, AllocError> {
    Namespace::of(alloc, octets_of(alloc, text)?).map_err(|_| AllocError)
}

/// Adds texts, which stand in quotes, to the innermost open element, and ends one at each `)`.
fn add_content(alloc: Global, shown: &str, open: &mut Vec<Tree>) -> Result<(), AllocError> {
    for (index, part) in shown.split('"').enumerate() {
        if index % 2 == 1 {
            add_part(Content::Text(octets_of(alloc, part)?), open)?;
        } else {
            for _ in part.matches(')') {
                end_element(open)?;
            }
        }
    }
    Ok(())
}

/// Ends the innermost open element, which becomes a part of the one around it. The outermost one stays open.
fn end_element(open: &mut Vec<Tree>) -> Result<(), AllocError> {
    if open.len() < 2 {
        return Ok(());
    }
    match open.pop() {
        Some(tree) => add_part(Content::Child(tree), open),
        None => Ok(()),
    }
}

/// Adds a part at the end of the innermost open element.
fn add_part(part: Content, open: &mut Vec<Tree>) -> Result<(), AllocError> {
    match open.last_mut() {
        Some(tree) => tree.content.push(part).map_err(|_| AllocError),
        None => Ok(()),
    }
}
