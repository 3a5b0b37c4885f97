//! The other side of an end or of a participant is to be asked for its Status.
ghost use Rattle.std.specs.Prelude.{◌≡◌};
ghost use Rattle.ba_core.specs.declared.identifiers.Id.{Id};
ghost use Rattle.ba_node_objects.specs.Changes.{Suits};
ghost use Rattle.ba_node_plans.specs.Proposals.{proposed_step};
ghost use Rattle.ba_node_objects.specs.Objects.{NodeInMemory};
ghost use Rattle.ba_node_objects.specs.Finds.{FindsEnd, FindsLone, FindsUp};
ghost use Rattle.ba_node_steps.specs.Fits.{NodeFits};
ghost use Rattle.ba_node_steps.specs.Node.{NodeState, lone, upward};
ghost use Rattle.ba_node_steps.specs.Steps.{ask_end, ask_part, on_ask};

use crate::proposals::Proposal;
use crate::states::lacks_coordinator;
use ba_core::{Id, NO_SUCH_END, WRONG_STATE};
use ba_node_objects::{Change, FoundEnd, FoundLone, FoundUp, Objects, PartChange, ScopeChange};
use ba_node_steps::Wake;
use ba_record::Record;

/// The other side of the end or of the participant with this identifier is to be asked.
pub fn ask(node: &Objects, id: Id) -> Proposal
    ensures step { proposed_step node.now.node result ≡ on_ask node.now.node id }
    ensures suits { Suits node.now result.change }
{
    if let Some(found) = node.find_end(id) {
        return ask_end(&found);
    }
    if let Some(found) = node.find_lone(id) {
        return ask_lone(&found);
    }
    match node.find_up(id) {
        None => Proposal::refused(NO_SUCH_END, id),
        Some(found) => ask_up(&found),
    }
}

fn ask_end(found: &FoundEnd) -> Proposal
    ensures step { (n : NodeState) (id : Id) → NodeFits n → FindsEnd n id found.now.place found.now.scope.now found.now.end.now
        → proposed_step n result ≡ ask_end n found.now.scope.now found.now.end.now }
    ensures suits { (m : NodeInMemory) (id : Id) → FindsEnd m.node id found.now.place found.now.scope.now found.now.end.now → Suits m result.change }
{
    let id = found.end.id;
    if found.end.asks {
        return Proposal::accepted();
    }
    Proposal::kept(
        Record::Asked(id.counter()),
        Wake::One(id),
        Change::Scope(found.place, ScopeChange::Ask(id)),
    )
}

fn ask_lone(found: &FoundLone) -> Proposal
    ensures step { (n : NodeState) (id : Id) → NodeFits n → FindsLone n id found.now.place found.now.part.now
        → proposed_step n result ≡ ask_part n (lone found.now.part.now) found.now.part.now }
    ensures suits { (m : NodeInMemory) (id : Id) → FindsLone m.node id found.now.place found.now.part.now → Suits m result.change }
{
    let id = found.part.id;
    if lacks_coordinator(found.part.state) {
        return Proposal::refused(WRONG_STATE, id);
    }
    if found.part.asks {
        return Proposal::accepted();
    }
    Proposal::kept(
        Record::Asked(id.counter()),
        Wake::One(id),
        Change::Part(found.place, PartChange::Ask),
    )
}

fn ask_up(found: &FoundUp) -> Proposal
    ensures step { (n : NodeState) (id : Id) → NodeFits n → FindsUp n id found.now.place found.now.scope.now found.now.part.now
        → proposed_step n result ≡ ask_part n (upward found.now.scope.now found.now.part.now) found.now.part.now }
    ensures suits { (m : NodeInMemory) (id : Id) → FindsUp m.node id found.now.place found.now.scope.now found.now.part.now → Suits m result.change }
{
    let id = found.part.id;
    if lacks_coordinator(found.part.state) {
        return Proposal::refused(WRONG_STATE, id);
    }
    if found.part.asks {
        return Proposal::accepted();
    }
    Proposal::kept(
        Record::Asked(id.counter()),
        Wake::One(id),
        Change::Scope(found.place, ScopeChange::Ask(id)),
    )
}
