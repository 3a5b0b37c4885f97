//! What is to be changed at a node, once its record is kept.
ghost use Rattle.std.specs.Prelude.{◌≡◌};
ghost use Rattle.ba_node_objects.specs.Changes.{SuitsPart, SuitsScope, changed_part, changed_scope};

use ba_core::{Id, Leave, Notice, PState, Protocol, Verdict};
use ba_message::Epr;
use ba_scope::Scope;
use ba_scope_ends::{Part, Room};

/// What is to be changed at a scope: one call of it.
#[derive(Debug, Drop)]
pub enum ScopeChange {
    Decide(Verdict),
    /// A verdict on this end.
    Choose(Id, Verdict),
    /// The participant of this end is asked to complete.
    Complete(Id),
    Finish,
    Leave(Leave),
    /// A notice to this end.
    EndReceive(Id, Notice),
    /// A notice to its own participant.
    UpReceive(Notice),
    /// This end, or its own participant, owes its Status.
    Owe(Id),
    /// This end, or its own participant, is to ask for the other side's Status.
    Ask(Id),
    /// Its own participant was enrolled, and this is its coordinator's end.
    Enrolled(Epr),
    /// Its own participant was refused for good.
    Refused,
    /// It expires at this moment.
    Expire(u64),
    /// This end ticks.
    EndTick(Id),
    /// Its own participant ticks.
    UpTick,
    /// It enrols this participant by this identifier, in this room.
    Enrol(Room, Id, Protocol, Epr),
}

/// What is to be changed at a lone participant.
#[derive(Debug, Drop)]
pub enum PartChange {
    /// It moves to this state.
    Move(PState),
    Owe,
    Ask,
    /// It was enrolled, and this is its coordinator's end.
    Enrolled(Epr),
    Refused,
    Tick,
}

/// What is to be changed at a node. A number is a place among its scopes, or among its lone participants, from 0.
#[derive(Debug, Drop)]
pub enum Change {
    Nothing,
    Scope(usize, ScopeChange),
    Part(usize, PartChange),
    /// A scope comes after the others.
    NewScope(Scope),
    /// A lone participant comes after the others.
    NewPart(Part),
}

/// Changes a scope, by one call of it.
pub(crate) fn change_scope(scope: &mut Scope, change: ScopeChange)
    requires { SuitsScope scope.old change }
    ensures { scope.new ≡ changed_scope change scope.old }
{
    match change {
        ScopeChange::Decide(verdict) => {
            scope.decide(verdict);
        }
        ScopeChange::Choose(id, verdict) => {
            scope.choose(id, verdict);
        }
        ScopeChange::Complete(id) => {
            scope.complete(id);
        }
        ScopeChange::Finish => {
            scope.finish();
        }
        ScopeChange::Leave(how) => {
            scope.leave(how);
        }
        ScopeChange::EndReceive(id, notice) => {
            scope.end_receive(id, notice);
        }
        ScopeChange::UpReceive(notice) => {
            scope.up_receive(notice);
        }
        ScopeChange::Owe(id) => {
            scope.owe(id);
        }
        ScopeChange::Ask(id) => {
            scope.ask(id);
        }
        ScopeChange::Enrolled(coordinator) => scope.enrolled(coordinator),
        ScopeChange::Refused => scope.refused(),
        ScopeChange::Expire(now) => {
            scope.expire(now);
        }
        ScopeChange::EndTick(id) => {
            scope.end_tick(id);
        }
        ScopeChange::UpTick => {
            scope.up_tick();
        }
        ScopeChange::Enrol(room, id, protocol, participant) => {
            scope.enrol(room, id, protocol, participant);
        }
    }
}

/// Changes a lone participant.
pub(crate) fn change_part(part: &mut Part, change: PartChange)
    requires { SuitsPart part.old change }
    ensures { part.new ≡ changed_part change part.old }
{
    match change {
        PartChange::Move(next) => part.state = next,
        PartChange::Owe => {
            part.owe();
        }
        PartChange::Ask => {
            part.ask();
        }
        PartChange::Enrolled(coordinator) => part.enrolled(coordinator),
        PartChange::Refused => part.refused(),
        PartChange::Tick => {
            part.tick();
        }
    }
}
