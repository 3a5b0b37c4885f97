//! Coordination contexts: copies, and elements of them.
ghost use Rattle.std.specs.Prelude.{◌↔◌, IsTrue};
ghost use Rattle.ba_soap.specs.Elements.{is_bare_text};

use ba_core::Memory;
use ba_message::Context;
use ba_soap_shapes::EprFault;
use ba_tree::{Tree, bare_ends};
use ba_wire::{context_of, tree_of_context};
use rows_of_trees::{put_context, shown_context};
use std::alloc::{AllocError, Global};

// ---- copies

/// Appends a copy of a context.
pub fn put_copy(alloc: Global, shown: &[u8], out: &mut String) -> Result<(), AllocError> {
    match shown_context(alloc, shown)? {
        None => out.push_str("no context"),
        Some(context) => put_copy_of(alloc, &context, out),
    }
}

fn put_copy_of(alloc: Global, context: &Context, out: &mut String) -> Result<(), AllocError> {
    match context.copy(alloc) {
        Err(Memory) => Err(AllocError),
        Ok(copy) => put_compared(context, &copy, out),
    }
}

/// Appends a copy, and that its registration isn't that of the context where it is another.
fn put_compared(context: &Context, copy: &Context, out: &mut String) -> Result<(), AllocError> {
    put_context(copy, out)?;
    if copy.registration.equals(&context.registration) {
        Ok(())
    } else {
        out.push_str(" with another registration")
    }
}

// ---- elements

/// Appends the context that is read from the element of a context.
pub fn put_read_back(alloc: Global, shown: &[u8], out: &mut String) -> Result<(), AllocError> {
    match shown_context(alloc, shown)? {
        None => out.push_str("no context"),
        Some(context) => put_element_read(alloc, &context, out),
    }
}

fn put_element_read(alloc: Global, context: &Context, out: &mut String) -> Result<(), AllocError> {
    if context.kind.is_none() {
        return out.push_str("no known type");
    }
    if !is_bare(context.identifier.as_slice()) {
        return out.push_str("no bare identifier");
    }
    if !context.registration.fits() {
        return out.push_str("no registration that fits");
    }
    match tree_of_context(alloc, context) {
        Err(Memory) => Err(AllocError),
        Ok(tree) => put_context_in(alloc, &tree, out),
    }
}

/// Whether a text isn't empty and has no white space at its ends.
fn is_bare(text: &[u8]) -> bool
    ensures { IsTrue result ↔ IsTrue (is_bare_text text.now) }
{
    match text {
        [] => false,
        _ => bare_ends(text),
    }
}

/// Appends the context that an element holds.
fn put_context_in(alloc: Global, tree: &Tree, out: &mut String) -> Result<(), AllocError> {
    match context_of(alloc, tree) {
        Err(EprFault::Memory) => Err(AllocError),
        Err(fault) => write!(out, "{fault}"),
        Ok(context) => put_context(&context, out),
    }
}
