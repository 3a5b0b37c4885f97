//! What the Register of a participant came to.
ghost use Rattle.std.specs.Prelude.{◌≡◌, IfOk};
ghost use Rattle.ba_core.specs.declared.identifiers.Id.{Id};
ghost use Rattle.ba_node_objects.specs.Changes.{Suits};
ghost use Rattle.ba_node_plans.specs.Proposals.{proposed_step};
ghost use Rattle.ba_node_objects.specs.Objects.{NodeInMemory};
ghost use Rattle.ba_node_objects.specs.Finds.{FindsLone, FindsUp};
ghost use Rattle.ba_node_steps.specs.Fits.{NodeFits};
ghost use Rattle.ba_node_steps.specs.Node.{NodeState};
ghost use Rattle.ba_node_steps.specs.Steps.{on_enrolled, on_refused_by, refusal_number};

use crate::proposals::Proposal;
use crate::states::{can_dial, is_registering};
use ba_core::{BAD_ADDRESS, Code, Id, Memory, NO_SUCH_PART};
use ba_message::Epr;
use ba_node_objects::{Change, FoundLone, FoundUp, Objects, PartChange, ScopeChange};
use ba_node_steps::Wake;
use ba_record::Record;
use std::alloc::Global;

// ---- refused

/// The Register of the participant with this identifier was answered with a fault.
pub fn refused_by(node: &Objects, id: Id, code: Code) -> Proposal
    ensures step { proposed_step node.now.node result ≡ on_refused_by node.now.node id code }
    ensures suits { Suits node.now result.change }
{
    if let Some(found) = node.find_lone(id) {
        return lone_refused(&found, code);
    }
    match node.find_up(id) {
        None => Proposal::refused(NO_SUCH_PART, id),
        Some(found) => up_refused(&found, code),
    }
}

// The number of a code that refuses a Register for good, in a record.
fn number_of_refusal(code: Code) -> Option<u8>
    ensures { result ≡ refusal_number code }
{
    match code {
        Code::CannotRegisterParticipant => Some(1),
        Code::InvalidProtocol => Some(2),
        _ => None,
    }
}

fn lone_refused(found: &FoundLone, code: Code) -> Proposal
    ensures step { (n : NodeState) (id : Id) → NodeFits n → FindsLone n id found.now.place found.now.part.now
        → proposed_step n result ≡ on_refused_by n id code }
    ensures suits { (m : NodeInMemory) (id : Id) → FindsLone m.node id found.now.place found.now.part.now → Suits m result.change }
{
    let id = found.part.id;
    if !is_registering(found.part.state) {
        return Proposal::accepted();
    }
    match number_of_refusal(code) {
        None => Proposal::accepted(),
        Some(number) => Proposal::kept(
            Record::Refused(id.counter(), number),
            Wake::One(id),
            Change::Part(found.place, PartChange::Refused),
        ),
    }
}

fn up_refused(found: &FoundUp, code: Code) -> Proposal
    ensures step { (n : NodeState) (id : Id) → NodeFits n → FindsUp n id found.now.place found.now.scope.now found.now.part.now
        → proposed_step n result ≡ on_refused_by n id code }
    ensures suits { (m : NodeInMemory) (id : Id) → FindsUp m.node id found.now.place found.now.scope.now found.now.part.now → Suits m result.change }
{
    let id = found.part.id;
    if !is_registering(found.part.state) {
        return Proposal::accepted();
    }
    match number_of_refusal(code) {
        None => Proposal::accepted(),
        Some(number) => Proposal::kept(
            Record::Refused(id.counter(), number),
            Wake::One(id),
            Change::Scope(found.place, ScopeChange::Refused),
        ),
    }
}

// ---- enrolled

/// The Register of the participant with this identifier was answered: this is its coordinator's end.
pub fn enrolled(node: &Objects, id: Id, coordinator: &Epr) -> Result<Proposal, Memory>
    ensures step { IfOk result (λ proposal. proposed_step node.now.node proposal ≡ on_enrolled node.now.node id coordinator.now) }
    ensures suits { IfOk result (λ proposal. Suits node.now proposal.change) }
{
    let alloc = node.allocator();
    if let Some(found) = node.find_lone(id) {
        return lone_enrolled(alloc, &found, coordinator);
    }
    match node.find_up(id) {
        None => Ok(Proposal::refused(NO_SUCH_PART, id)),
        Some(found) => up_enrolled(alloc, &found, coordinator),
    }
}

fn lone_enrolled(alloc: Global, found: &FoundLone, coordinator: &Epr) -> Result<Proposal, Memory>
    ensures step { IfOk result (λ proposal. (n : NodeState) (id : Id) → NodeFits n → FindsLone n id found.now.place found.now.part.now
        → proposed_step n proposal ≡ on_enrolled n id coordinator.now) }
    ensures suits { IfOk result (λ proposal. (m : NodeInMemory) (id : Id) → FindsLone m.node id found.now.place found.now.part.now → Suits m proposal.change) }
{
    let id = found.part.id;
    if !is_registering(found.part.state) {
        return Ok(Proposal::accepted());
    }
    if !can_dial(coordinator.address.as_slice()) {
        return Ok(Proposal::refused(BAD_ADDRESS, id));
    }
    let copies = two_copies(alloc, coordinator)?;
    Ok(Proposal::kept(
        Record::Enrolled(id.counter(), copies.first),
        Wake::One(id),
        Change::Part(found.place, PartChange::Enrolled(copies.second)),
    ))
}

fn up_enrolled(alloc: Global, found: &FoundUp, coordinator: &Epr) -> Result<Proposal, Memory>
    ensures step { IfOk result (λ proposal. (n : NodeState) (id : Id) → NodeFits n → FindsUp n id found.now.place found.now.scope.now found.now.part.now
        → proposed_step n proposal ≡ on_enrolled n id coordinator.now) }
    ensures suits { IfOk result (λ proposal. (m : NodeInMemory) (id : Id) → FindsUp m.node id found.now.place found.now.scope.now found.now.part.now → Suits m proposal.change) }
{
    let id = found.part.id;
    if !is_registering(found.part.state) {
        return Ok(Proposal::accepted());
    }
    if !can_dial(coordinator.address.as_slice()) {
        return Ok(Proposal::refused(BAD_ADDRESS, id));
    }
    let copies = two_copies(alloc, coordinator)?;
    Ok(Proposal::kept(
        Record::Enrolled(id.counter(), copies.first),
        Wake::One(id),
        Change::Scope(found.place, ScopeChange::Enrolled(copies.second)),
    ))
}

// An endpoint twice: for the record, and for the change.
#[derive(Drop)]
struct Copies {
    first: Epr,
    second: Epr,
}

fn two_copies(alloc: Global, epr: &Epr) -> Result<Copies, Memory>
    ensures first { IfOk result (λ copies. copies.first ≡ epr.now) }
    ensures second { IfOk result (λ copies. copies.second ≡ epr.now) }
{
    let first = epr.copy(alloc)?;
    let second = epr.copy(alloc)?;
    Ok(Copies { first, second })
}
