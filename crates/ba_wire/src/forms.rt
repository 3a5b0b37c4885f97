//! The forms of the elements in a body.
ghost use Rattle.std.specs.Prelude.{◌≡◌, ℕ, IfOk};
ghost use Rattle.ba_wire.specs.Bodies.{is_upward, part_look, whole_look};

use crate::bodies::CONTEXT;
use ba_core::Memory;
use ba_soap_shapes::{Form, Misfit, Plain, endpoint_misfit, mismatch, own_texts, rows_misfit};
use ba_tree::Tree;
use std::alloc::Global;

/// The form of an element that holds no context.
#[derive(Clone, Copy, Debug)]
pub enum Part {
    Plain(Plain),
    /// `pc` or `cc`.
    Upward,
    /// An endpoint reference.
    Endpoint,
}

/// The form of an element in a body.
#[derive(Clone, Copy, Debug)]
pub enum Whole {
    Part(Part),
    /// The children of a context.
    Context,
}

fn is_upward(text: &[u8]) -> bool
    ensures { result ≡ is_upward text.now }
{
    text == b"pc".as_slice() || text == b"cc".as_slice()
}

impl Form for Part {
    ghost look = { part_look };

    fn misfit(&self, alloc: Global, tree: &Tree, number: u32) -> Result<Option<Misfit>, Memory> {
        match self {
            Part::Plain(form) => form.misfit(alloc, tree, number),
            Part::Upward => {
                let text = own_texts(alloc, tree.content.as_slice())?;
                Ok(if is_upward(text.as_slice()) {
                    None
                } else {
                    Some(mismatch(number))
                })
            }
            Part::Endpoint => endpoint_misfit(alloc, tree, number),
        }
    }
}

impl Form for Whole {
    ghost look = { whole_look };

    fn misfit(&self, alloc: Global, tree: &Tree, number: u32) -> Result<Option<Misfit>, Memory> {
        match self {
            Whole::Part(form) => form.misfit(alloc, tree, number),
            Whole::Context => rows_misfit(alloc, CONTEXT.as_slice(), tree, number),
        }
    }
}
