//! Ticks.
ghost use Rattle.std.specs.Prelude.{◌≡◌, ◌<◌, ◌^◌, IfOk, Some};
ghost use Rattle.ba_core.specs.declared.identifiers.Id.{Id};
ghost use Rattle.ba_node_objects.specs.Changes.{Suits};
ghost use Rattle.ba_node_objects.specs.Finds.{FindsEnd, FindsLone, FindsScope, FindsUp};
ghost use Rattle.ba_node_objects.specs.Objects.{NodeInMemory};
ghost use Rattle.ba_node_plans.specs.Proposals.{proposed_tick};
ghost use Rattle.ba_node_plans.specs.inside.Ticking.{end_changes, part_talks, wake_at_end};
ghost use Rattle.ba_scope.specs.Rules.{state_at_tick};
ghost use Rattle.ba_node_steps.specs.Node.{NodeState, lone, upward};
ghost use Rattle.ba_node_steps.specs.Steps.{same_part_state};
ghost use Rattle.ba_node_steps.specs.Ticks.{end_letter, notice_letter, part_letter, register_letter, tick_at_end, tick_at_part, tick_at_scope, tick_lone, tick_step, tick_upward};

use crate::notices::wake_by_end;
use crate::proposals::TickProposal;
use crate::states::{is_registering, same_end, same_part};
use ba_core::{CState, Id, Memory, Notice, code_of};
use ba_message::{Epr, Letter, Message};
use ba_node_addresses::{CODE_OF_REGISTER, number_of_message, participant_of};
use ba_node_objects::{
    Change, FoundEnd, FoundLone, FoundScope, FoundUp, Objects, PartChange, ScopeChange,
};
use ba_node_steps::Wake;
use ba_scope_ends::{End, Part};
use std::alloc::Global;

/// The object with this identifier says what it has to say at this moment, in milliseconds.
pub fn propose_tick(node: &Objects, now: u64, id: Id) -> Result<TickProposal, Memory>
    ensures step { IfOk result (λ proposal. proposed_tick node.now.node proposal ≡ tick_step node.now.node now id) }
    ensures suits { IfOk result (λ proposal. Suits node.now proposal.change) }
{
    if let Some(found) = node.find_scope(id) {
        return Ok(tick_scope(&found, now));
    }
    if let Some(found) = node.find_end(id) {
        return tick_end(node, id, &found);
    }
    if let Some(found) = node.find_lone(id) {
        return lone_at_tick(node, id, &found);
    }
    match node.find_up(id) {
        None => Ok(TickProposal::saying(None)),
        Some(found) => up_at_tick(node, id, &found),
    }
}

// ---- a scope: its deadline may be past

fn tick_scope(found: &FoundScope, now: u64) -> TickProposal
    ensures step { (n : NodeState) (id : Id) → FindsScope n id found.now.place found.now.scope.now
        → proposed_tick n result ≡ tick_at_scope n found.now.scope.now now }
    ensures suits { (m : NodeInMemory) (id : Id) → FindsScope m.node id found.now.place found.now.scope.now → Suits m result.change }
{
    if !found.scope.expires(now) {
        return TickProposal::saying(None);
    }
    let id = found.scope.id();
    TickProposal::changing(
        None,
        id,
        Wake::Scope(id),
        Change::Scope(found.place, ScopeChange::Expire(now)),
    )
}

// ---- an end

fn tick_end(node: &Objects, id: Id, found: &FoundEnd) -> Result<TickProposal, Memory>
    requires { FindsEnd node.now.node id found.now.place found.now.scope.now found.now.end.now }
    ensures step { IfOk result (λ proposal. proposed_tick node.now.node proposal ≡ tick_at_end node.now.node found.now.scope.now found.now.end.now) }
    ensures suits { IfOk result (λ proposal. Suits node.now proposal.change) }
{
    let end = found.end;
    let (next, says) = end.at_tick();
    let letter = letter_of_end(node.allocator(), end, says)?;
    if !changes_at_tick(end, next) {
        return Ok(TickProposal::saying(letter));
    }
    Ok(TickProposal::changing(
        letter,
        id,
        wake_after_tick(found, next),
        Change::Scope(found.place, ScopeChange::EndTick(id)),
    ))
}

fn changes_at_tick(end: &End, next: CState) -> bool
    ensures { result ≡ end_changes end.now next }
{
    end.owes || end.asks || !same_end(end.state, next)
}

fn wake_after_tick(found: &FoundEnd, next: CState) -> Wake
    ensures { result ≡ wake_at_end found.now.scope.now found.now.end.now next }
{
    if same_end(found.end.state, next) {
        Wake::Nobody
    } else {
        wake_by_end(found.scope, found.end.id, next)
    }
}

fn letter_of_end(alloc: Global, end: &End, says: Option<Notice>) -> Result<Option<Letter>, Memory>
    requires { end.now.id.0 < 2 ^ 96 }
    ensures { IfOk result (λ letter. letter ≡ end_letter end.now says) }
{
    match says {
        None => Ok(None),
        Some(notice) => {
            let letter = letter_with(alloc, end.id, &end.participant, notice)?;
            Ok(Some(letter))
        }
    }
}

fn letter_with(alloc: Global, sender: Id, to: &Epr, notice: Notice) -> Result<Letter, Memory>
    requires { sender.0 < 2 ^ 96 }
    ensures { IfOk result (λ letter. letter ≡ notice_letter sender to.now notice) }
{
    Ok(Letter {
        to: to.copy(alloc)?,
        number: number_of_message(code_of(notice), sender),
        message: Message::Notice(notice),
    })
}

// ---- a participant

fn lone_at_tick(node: &Objects, id: Id, found: &FoundLone) -> Result<TickProposal, Memory>
    requires { FindsLone node.now.node id found.now.place found.now.part.now }
    ensures step { IfOk result (λ proposal. proposed_tick node.now.node proposal ≡ tick_at_part node.now.node (lone found.now.part.now)) }
    ensures suits { IfOk result (λ proposal. Suits node.now proposal.change) }
{
    if is_registering(found.part.state) {
        let letter = register_of(node, found.part)?;
        return Ok(TickProposal::saying(Some(letter)));
    }
    tick_lone(node, id, found)
}

fn up_at_tick(node: &Objects, id: Id, found: &FoundUp) -> Result<TickProposal, Memory>
    requires { FindsUp node.now.node id found.now.place found.now.scope.now found.now.part.now }
    ensures step { IfOk result (λ proposal. proposed_tick node.now.node proposal ≡ tick_at_part node.now.node (upward found.now.scope.now found.now.part.now)) }
    ensures suits { IfOk result (λ proposal. Suits node.now proposal.change) }
{
    if is_registering(found.part.state) {
        let letter = register_of(node, found.part)?;
        return Ok(TickProposal::saying(Some(letter)));
    }
    tick_above(node, id, found)
}

// One that is Registering sends its Register.
fn register_of(node: &Objects, part: &Part) -> Result<Letter, Memory>
    requires { part.now.id.0 < 2 ^ 96 }
    ensures { IfOk result (λ letter. letter ≡ register_letter node.now.node part.now) }
{
    let alloc = node.allocator();
    let participant = participant_of(alloc, node.base(), part.id)?;
    Ok(Letter {
        to: part.registration.copy(alloc)?,
        number: number_of_message(CODE_OF_REGISTER, part.id),
        message: Message::Register {
            protocol: Some(part.protocol),
            participant,
        },
    })
}

fn tick_lone(node: &Objects, id: Id, found: &FoundLone) -> Result<TickProposal, Memory>
    requires { FindsLone node.now.node id found.now.place found.now.part.now }
    ensures step { IfOk result (λ proposal. proposed_tick node.now.node proposal ≡ tick_lone node.now.node found.now.part.now) }
    ensures suits { IfOk result (λ proposal. Suits node.now proposal.change) }
{
    let part = found.part;
    if !talks(part) {
        let says = ba_tables::p_says(part.protocol, part.state);
        let letter = letter_of_part(node.allocator(), part, says)?;
        return Ok(TickProposal::saying(letter));
    }
    let letter = letter_of_part(node.allocator(), part, part.says())?;
    Ok(TickProposal::changing(
        letter,
        id,
        Wake::Nobody,
        Change::Part(found.place, PartChange::Tick),
    ))
}

// A scope's own participant says its Status or asks for one, and else what its scope came to.
fn tick_above(node: &Objects, id: Id, found: &FoundUp) -> Result<TickProposal, Memory>
    requires { FindsUp node.now.node id found.now.place found.now.scope.now found.now.part.now }
    ensures step { IfOk result (λ proposal. proposed_tick node.now.node proposal ≡ tick_upward node.now.node found.now.scope.now found.now.part.now) }
    ensures suits { IfOk result (λ proposal. Suits node.now proposal.change) }
{
    let letter = letter_of_part(node.allocator(), found.part, found.scope.up_says())?;
    let change = Change::Scope(found.place, ScopeChange::UpTick);
    if talks(found.part) {
        return Ok(TickProposal::changing(letter, id, Wake::Nobody, change));
    }
    if stays_at_tick(found) {
        return Ok(TickProposal::saying(letter));
    }
    Ok(TickProposal::changing(letter, id, Wake::One(id), change))
}

fn stays_at_tick(found: &FoundUp) -> bool
    ensures { found.now.scope.now.up ≡ Some found.now.part.now
        → result ≡ same_part_state found.now.part.now.state (state_at_tick found.now.scope.now found.now.part.now) }
{
    match found.scope.up_state_at_tick() {
        None => true,
        Some(next) => same_part(found.part.state, next),
    }
}

fn talks(part: &Part) -> bool
    ensures { result ≡ part_talks part.now }
{
    part.owes || part.asks
}

fn letter_of_part(
    alloc: Global,
    part: &Part,
    says: Option<Notice>,
) -> Result<Option<Letter>, Memory>
    requires { part.now.id.0 < 2 ^ 96 }
    ensures { IfOk result (λ letter. letter ≡ part_letter part.now says) }
{
    let Some(notice) = says else {
        return Ok(None);
    };
    match &part.coordinator {
        None => Ok(None),
        Some(to) => {
            let letter = letter_with(alloc, part.id, to, notice)?;
            Ok(Some(letter))
        }
    }
}
