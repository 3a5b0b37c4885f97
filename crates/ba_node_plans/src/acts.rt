//! The work of a lone participant came to something.
ghost use Rattle.std.specs.Prelude.{◌≡◌};
ghost use Rattle.ba_node_objects.specs.Changes.{Suits};
ghost use Rattle.ba_node_plans.specs.Proposals.{proposed_step};
ghost use Rattle.ba_node_steps.specs.Fits.{NodeFits};
ghost use Rattle.ba_node_steps.specs.Steps.{on_act};

use crate::proposals::Proposal;
use ba_core::{Act, CHILD_PART, Id, NO_SUCH_PART, WRONG_STATE};
use ba_node_objects::{Change, Objects, PartChange};
use ba_node_steps::Wake;
use ba_record::Record;

/// The work of the lone participant with this identifier came to this.
pub fn act(node: &Objects, id: Id, act: Act) -> Proposal
    ensures step { proposed_step node.now.node result ≡ on_act node.now.node id act }
    ensures suits { Suits node.now result.change }
{
    let Some(found) = node.find_lone(id) else {
        return match node.find_up(id) {
            None => Proposal::refused(NO_SUCH_PART, id),
            Some(_) => Proposal::refused(CHILD_PART, id),
        };
    };
    match ba_tables::p_act(found.part.protocol, found.part.state, act) {
        None => Proposal::refused(WRONG_STATE, id),
        Some(next) => Proposal::kept(
            Record::Acted(id.counter(), act),
            Wake::One(id),
            Change::Part(found.place, PartChange::Move(next)),
        ),
    }
}
