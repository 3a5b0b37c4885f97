//! A notice arrives.
ghost use Rattle.std.specs.Prelude.{◌≡◌, IsTrue, not};
ghost use Rattle.ba_core.specs.EndRows.{end_row};
ghost use Rattle.ba_core.specs.Messages.{is_column};
ghost use Rattle.ba_core.specs.PartRows.{part_row, is_part_state};
ghost use Rattle.ba_core.specs.declared.identifiers.Id.{Id};
ghost use Rattle.ba_node_objects.specs.Changes.{Suits};
ghost use Rattle.ba_node_plans.specs.Proposals.{proposed_step};
ghost use Rattle.ba_node_objects.specs.Objects.{NodeInMemory};
ghost use Rattle.ba_node_objects.specs.Finds.{FindsEnd, FindsLone, FindsUp};
ghost use Rattle.ba_scope_ends.specs.Ends.{has_own_state};
ghost use Rattle.ba_scope_ends.specs.Parts.{has_no_coordinator};
ghost use Rattle.ba_node_steps.specs.Fits.{NodeFits};
ghost use Rattle.ba_node_steps.specs.Node.{NodeState, lone, upward};
ghost use Rattle.ba_node_steps.specs.Steps.{on_end_asked, on_end_notice, on_end_row, on_lone_row, on_notice, on_part_asked, on_part_heard, on_place_notice, on_up_row, wake_of_end, wake_of_up};
ghost use Rattle.ba_node_steps.specs.Node.{part_place};

use crate::proposals::Proposal;
use crate::states::{
    brings_verdict, is_get_status, is_status, lacks_coordinator, same_end, same_part, settled,
};
use ba_core::{CRow, CState, Code, Id, Notice, PRow, PState, Side};
use ba_node_objects::{Change, FoundEnd, FoundLone, FoundUp, Objects, PartChange, ScopeChange};
use ba_node_steps::Wake;
use ba_record::Record;
use ba_scope::Scope;
use ba_scope_ends::{Part, is_ended};

/// A notice arrives at an end or at a participant.
pub fn notice(node: &Objects, side: Side, id: Id, notice: Notice) -> Proposal
    ensures step { proposed_step node.now.node result ≡ on_notice node.now.node side id notice }
    ensures suits { Suits node.now result.change }
{
    match side {
        Side::Coordinator => end_notice(node, id, notice),
        Side::Participant => part_notice(node, id, notice),
    }
}

// ---- at an end

fn end_notice(node: &Objects, id: Id, notice: Notice) -> Proposal
    ensures step { proposed_step node.now.node result ≡ on_end_notice node.now.node id notice }
    ensures suits { Suits node.now result.change }
{
    let Some(found) = node.find_end(id) else {
        return Proposal::fault(Code::DestinationUnreachable);
    };
    if is_status(notice) {
        return Proposal::accepted();
    }
    if is_get_status(notice) {
        return end_asked(&found);
    }
    end_received(&found, notice)
}

// The end owes its Status.
fn end_asked(found: &FoundEnd) -> Proposal
    ensures step { (n : NodeState) (id : Id) → NodeFits n → FindsEnd n id found.now.place found.now.scope.now found.now.end.now
        → proposed_step n result ≡ on_end_asked n found.now.scope.now found.now.end.now }
    ensures suits { (m : NodeInMemory) (id : Id) → FindsEnd m.node id found.now.place found.now.scope.now found.now.end.now → Suits m result.change }
{
    let id = found.end.id;
    if found.end.owes {
        return Proposal::accepted();
    }
    Proposal::kept(
        Record::Received(id.counter(), Notice::GetStatus),
        Wake::One(id),
        Change::Scope(found.place, ScopeChange::Owe(id)),
    )
}

// The end moves by its row.
fn end_received(found: &FoundEnd, notice: Notice) -> Proposal
    requires notice { IsTrue (is_column notice) }
    requires own { IsTrue (has_own_state found.now.end.now) }
    ensures step { (n : NodeState) (id : Id) → NodeFits n → FindsEnd n id found.now.place found.now.scope.now found.now.end.now
        → proposed_step n result ≡ on_end_row n found.now.scope.now found.now.end.now notice (end_row found.now.end.now.protocol found.now.end.now.state notice) }
    ensures suits { (m : NodeInMemory) (id : Id) → FindsEnd m.node id found.now.place found.now.scope.now found.now.end.now → Suits m result.change }
{
    let end = found.end;
    match ba_tables::c_receive(end.protocol, end.state, notice) {
        CRow::Invalid => Proposal::fault(Code::InvalidState),
        CRow::Row { next, prompt } => {
            let there = settled(end.protocol, next, end.verdict);
            if same_end(end.state, there) {
                return Proposal::again(end.id, prompt);
            }
            Proposal::kept(
                Record::Received(end.id.counter(), notice),
                wake_by_end(found.scope, end.id, there),
                Change::Scope(found.place, ScopeChange::EndReceive(end.id, notice)),
            )
        }
    }
}

/// An end that moved has something to say; where it ended in a child, the child's own participant has too.
pub(crate) fn wake_by_end(scope: &Scope, id: Id, next: CState) -> Wake
    ensures { result ≡ wake_of_end scope.now id next }
{
    if !is_ended(next) {
        return Wake::One(id);
    }
    match scope.up() {
        None => Wake::One(id),
        Some(up) => Wake::Two(id, up.id),
    }
}

// ---- at a participant

fn part_notice(node: &Objects, id: Id, notice: Notice) -> Proposal
    ensures step { proposed_step node.now.node result ≡ on_place_notice node.now.node (part_place node.now.node id) notice }
    ensures suits { Suits node.now result.change }
{
    if let Some(found) = node.find_lone(id) {
        return lone_notice(&found, notice);
    }
    match node.find_up(id) {
        None => Proposal::fault(Code::DestinationUnreachable),
        Some(found) => up_notice(&found, notice),
    }
}

fn lone_notice(found: &FoundLone, notice: Notice) -> Proposal
    requires own { IsTrue (is_part_state found.now.part.now.protocol found.now.part.now.state) }
    ensures step { (n : NodeState) (id : Id) → NodeFits n → FindsLone n id found.now.place found.now.part.now
        → proposed_step n result ≡ on_place_notice n (lone found.now.part.now) notice }
    ensures suits { (m : NodeInMemory) (id : Id) → FindsLone m.node id found.now.place found.now.part.now → Suits m result.change }
{
    if lacks_coordinator(found.part.state) {
        return Proposal::accepted();
    }
    if is_status(notice) {
        return Proposal::accepted();
    }
    if is_get_status(notice) {
        return lone_asked(found);
    }
    lone_received(found, notice)
}

// The lone participant owes its Status.
fn lone_asked(found: &FoundLone) -> Proposal
    ensures step { (n : NodeState) (id : Id) → NodeFits n → FindsLone n id found.now.place found.now.part.now
        → proposed_step n result ≡ on_part_asked n (lone found.now.part.now) found.now.part.now }
    ensures suits { (m : NodeInMemory) (id : Id) → FindsLone m.node id found.now.place found.now.part.now → Suits m result.change }
{
    let id = found.part.id;
    if found.part.owes {
        return Proposal::accepted();
    }
    Proposal::kept(
        Record::Received(id.counter(), Notice::GetStatus),
        Wake::One(id),
        Change::Part(found.place, PartChange::Owe),
    )
}

// The lone participant moves by its row.
fn lone_received(found: &FoundLone, notice: Notice) -> Proposal
    requires notice { IsTrue (is_column notice) }
    requires own { IsTrue (is_part_state found.now.part.now.protocol found.now.part.now.state) }
    requires answered { IsTrue (not (has_no_coordinator found.now.part.now.state)) }
    ensures step { (n : NodeState) (id : Id) → NodeFits n → FindsLone n id found.now.place found.now.part.now
        → proposed_step n result ≡ on_lone_row n found.now.part.now notice (part_row found.now.part.now.protocol found.now.part.now.state notice) }
    ensures suits { (m : NodeInMemory) (id : Id) → FindsLone m.node id found.now.place found.now.part.now → Suits m result.change }
{
    let part = found.part;
    match ba_tables::p_receive(part.protocol, part.state, notice) {
        PRow::Invalid => Proposal::fault(Code::InvalidState),
        PRow::Row { next, prompt } => {
            if same_part(part.state, next) {
                return Proposal::again(part.id, prompt);
            }
            Proposal::kept(
                Record::Received(part.id.counter(), notice),
                Wake::One(part.id),
                Change::Part(found.place, PartChange::Move(next)),
            )
        }
    }
}

fn up_notice(found: &FoundUp, notice: Notice) -> Proposal
    requires own { IsTrue (is_part_state found.now.part.now.protocol found.now.part.now.state) }
    ensures step { (n : NodeState) (id : Id) → NodeFits n → FindsUp n id found.now.place found.now.scope.now found.now.part.now
        → proposed_step n result ≡ on_place_notice n (upward found.now.scope.now found.now.part.now) notice }
    ensures suits { (m : NodeInMemory) (id : Id) → FindsUp m.node id found.now.place found.now.scope.now found.now.part.now → Suits m result.change }
{
    if lacks_coordinator(found.part.state) {
        return Proposal::accepted();
    }
    if is_status(notice) {
        return Proposal::accepted();
    }
    if is_get_status(notice) {
        return up_asked(found);
    }
    up_received(found, notice)
}

// The scope's own participant owes its Status.
fn up_asked(found: &FoundUp) -> Proposal
    requires answered { IsTrue (not (has_no_coordinator found.now.part.now.state)) }
    ensures step { (n : NodeState) (id : Id) → NodeFits n → FindsUp n id found.now.place found.now.scope.now found.now.part.now
        → proposed_step n result ≡ on_part_asked n (upward found.now.scope.now found.now.part.now) found.now.part.now }
    ensures suits { (m : NodeInMemory) (id : Id) → FindsUp m.node id found.now.place found.now.scope.now found.now.part.now → Suits m result.change }
{
    let id = found.part.id;
    if found.part.owes {
        return Proposal::accepted();
    }
    Proposal::kept(
        Record::Received(id.counter(), Notice::GetStatus),
        Wake::One(id),
        Change::Scope(found.place, ScopeChange::Owe(id)),
    )
}

// The scope's own participant moves by its row, and hands on the verdict that comes so.
fn up_received(found: &FoundUp, notice: Notice) -> Proposal
    requires notice { IsTrue (is_column notice) }
    requires own { IsTrue (is_part_state found.now.part.now.protocol found.now.part.now.state) }
    requires answered { IsTrue (not (has_no_coordinator found.now.part.now.state)) }
    ensures step { (n : NodeState) (id : Id) → NodeFits n → FindsUp n id found.now.place found.now.scope.now found.now.part.now
        → proposed_step n result ≡ on_up_row n found.now.scope.now found.now.part.now notice (part_row found.now.part.now.protocol found.now.part.now.state notice) }
    ensures suits { (m : NodeInMemory) (id : Id) → FindsUp m.node id found.now.place found.now.scope.now found.now.part.now → Suits m result.change }
{
    let part = found.part;
    match ba_tables::p_receive(part.protocol, part.state, notice) {
        PRow::Invalid => Proposal::fault(Code::InvalidState),
        PRow::Row { next, prompt } => {
            if same_part(part.state, next) {
                return Proposal::again(part.id, prompt);
            }
            Proposal::kept(
                Record::Received(part.id.counter(), notice),
                wake_by_up(found.scope, part, next),
                Change::Scope(found.place, ScopeChange::UpReceive(notice)),
            )
        }
    }
}

// A verdict from above goes to the scope and to each of its ends.
fn wake_by_up(scope: &Scope, up: &Part, next: PState) -> Wake
    ensures { result ≡ wake_of_up scope.now up.now next }
{
    if brings_verdict(up.state, next) {
        Wake::Scope(scope.id())
    } else {
        Wake::One(up.id)
    }
}
