//! Each input.
ghost use Rattle.std.specs.Prelude.{◌≡◌, IfOk};
ghost use Rattle.ba_node_objects.specs.Changes.{Suits};
ghost use Rattle.ba_node_plans.specs.Proposals.{proposed_step};
ghost use Rattle.ba_node_steps.specs.Fits.{HasSpareCounters};
ghost use Rattle.ba_node_steps.specs.Steps.{node_step};

use crate::acts::act;
use crate::answers::{enrolled, refused_by};
use crate::asks::ask;
use crate::creating::{create, join};
use crate::decisions::{choose, complete, decide, finish, leave};
use crate::notices::notice;
use crate::proposals::Proposal;
use crate::registering::register;
use ba_core::Memory;
use ba_node_objects::Objects;
use ba_node_steps::Input;

/// What an input is to make of a node at this moment, in milliseconds: exactly its step. Only memory for a new object is
/// taken.
pub fn propose(node: &mut Objects, now: u64, input: Input) -> Result<Proposal, Memory>
    requires { HasSpareCounters node.old.node }
    ensures node { node.new.node ≡ node.old.node }
    ensures step { IfOk result (λ proposal. proposed_step node.old.node proposal ≡ node_step node.old.node now input) }
    ensures suits { IfOk result (λ proposal. Suits node.new proposal.change) }
{
    match input {
        Input::Create {
            expires,
            current,
            kind,
            up,
        } => create(node, now, expires, current, kind, up),
        Input::Register {
            scope,
            protocol,
            participant,
        } => register(node, scope, protocol, participant),
        Input::Join {
            protocol,
            registration,
        } => join(node, protocol, registration),
        Input::Enrolled(id, coordinator) => enrolled(node, id, &coordinator),
        Input::RefusedBy(id, code) => Ok(refused_by(node, id, code)),
        Input::Notice(side, id, received) => Ok(notice(node, side, id, received)),
        Input::Act(id, done) => Ok(act(node, id, done)),
        Input::Ask(id) => Ok(ask(node, id)),
        Input::Decide(id, verdict) => Ok(decide(node, id, verdict)),
        Input::Choose(id, verdict) => Ok(choose(node, id, verdict)),
        Input::Complete(id) => Ok(complete(node, id)),
        Input::Finish(id) => Ok(finish(node, id)),
        Input::Leave(id, how) => Ok(leave(node, id, how)),
    }
}
