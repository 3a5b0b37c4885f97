//! Coordination contexts in elements, both ways.
ghost use Rattle.std.specs.Prelude.{◌≡◌, Ok, IfOk, codes};
ghost use Rattle.ba_soap_shapes.specs.Endpoints.{IsAnswer};
ghost use Rattle.ba_soap_shapes.specs.Shapes.{rows_misfit};
ghost use Rattle.ba_wire.specs.Bodies.{context_lines, part_look};
ghost use Rattle.ba_wire.specs.Contexts.{IsPlainContext, TimeFits, context_answer, context_answer_by};
ghost use Rattle.ba_wire.specs.Elements.{context_element};

use crate::bodies::CONTEXT;
use crate::elements::context_element;
use crate::values;
use ba_core::Memory;
use ba_message::Context;
use ba_soap_shapes::{EprFault, Misfit, fault_of, rows_misfit};
use ba_tree::Tree;
use std::alloc::Global;

/// The context that an element holds.
pub fn context_of(alloc: Global, tree: &Tree) -> Result<Context, EprFault>
    ensures { IsAnswer (context_answer tree.now) result }
{
    match misfit(alloc, tree) {
        Err(Memory) => Err(EprFault::Memory),
        Ok(Some(misfit)) => Err(fault_of(misfit)),
        Ok(None) => match values::context_of(alloc, tree) {
            Err(Memory) => Err(EprFault::Memory),
            Ok(context) => Ok(context),
        },
    }
}

fn misfit(alloc: Global, tree: &Tree) -> Result<Option<Misfit>, Memory>
    ensures { IfOk result (λ found. found ≡ rows_misfit part_look context_lines 0 tree.now) }
{
    rows_misfit(alloc, CONTEXT.as_slice(), tree, 0)
}

/// The element of a context, from which it is read back.
pub fn tree_of_context(alloc: Global, context: &Context) -> Result<Tree, Memory>
    requires { IsPlainContext context.now }
    ensures element { IfOk result (λ tree. tree ≡ context_element (codes "CoordinationContext") context.now) }
    ensures reads_back { TimeFits context.now.expires → IfOk result (λ tree. context_answer tree ≡ Ok context.now) }
{
    context_element(alloc, b"CoordinationContext", context)
}
