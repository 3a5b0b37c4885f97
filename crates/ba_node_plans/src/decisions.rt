//! Verdicts, and what a scope's rules let an application do.
ghost use Rattle.std.specs.Prelude.{◌≡◌, IsTrue};
ghost use Rattle.ba_core.specs.EndRows.{chosen_state};
ghost use Rattle.ba_node_objects.specs.Changes.{Suits};
ghost use Rattle.ba_node_plans.specs.Proposals.{proposed_step};
ghost use Rattle.ba_scope_ends.specs.Ends.{has_own_state};
ghost use Rattle.ba_scope.specs.Rules.{leave_act};
ghost use Rattle.ba_node_steps.specs.Fits.{NodeFits};
ghost use Rattle.ba_node_steps.specs.Steps.{choice_number, on_choose, on_complete, on_decide, on_finish, on_leave, wake_of_choice};

use crate::proposals::Proposal;
use ba_core::{Act, Id, Leave, NO_SUCH_END, NO_SUCH_SCOPE, NOT_A_CHILD, Verdict};
use ba_node_objects::{Change, Objects, ScopeChange};
use ba_node_steps::Wake;
use ba_record::Record;
use ba_scope::Said;
use ba_scope_ends::End;

// That an end's participant was asked to complete, among the choices in a record.
const NUMBER_OF_COMPLETE: u8 = 3;

/// A verdict on a root of type AtomicOutcome.
pub fn decide(node: &Objects, id: Id, verdict: Verdict) -> Proposal
    ensures step { proposed_step node.now.node result ≡ on_decide node.now.node id verdict }
    ensures suits { Suits node.now result.change }
{
    let Some(found) = node.find_scope(id) else {
        return Proposal::refused(NO_SUCH_SCOPE, id);
    };
    match found.scope.decision(verdict) {
        Said::No(number, shown) => Proposal::refused(number, shown),
        Said::Ok => Proposal::kept(
            Record::Decided(id.counter(), verdict),
            Wake::Scope(id),
            Change::Scope(found.place, ScopeChange::Decide(verdict)),
        ),
    }
}

/// A verdict on one end of a root of type MixedOutcome.
pub fn choose(node: &Objects, id: Id, verdict: Verdict) -> Proposal
    ensures step { proposed_step node.now.node result ≡ on_choose node.now.node id verdict }
    ensures suits { Suits node.now result.change }
{
    let Some(found) = node.find_end(id) else {
        return Proposal::refused(NO_SUCH_END, id);
    };
    match found.scope.choice(id, verdict) {
        Said::No(number, shown) => Proposal::refused(number, shown),
        Said::Ok => Proposal::kept(
            Record::Chosen(id.counter(), number_of_choice(verdict)),
            wake_by_choice(found.end, verdict),
            Change::Scope(found.place, ScopeChange::Choose(id, verdict)),
        ),
    }
}

// The number of a choice in a record.
fn number_of_choice(verdict: Verdict) -> u8
    ensures { result ≡ choice_number verdict }
{
    match verdict {
        Verdict::Close => 1,
        Verdict::Undo => 2,
    }
}

// An end has something to say where its choice changes its state.
fn wake_by_choice(end: &End, verdict: Verdict) -> Wake
    requires { IsTrue (has_own_state end.now) }
    ensures { result ≡ wake_of_choice end.now (chosen_state end.now.protocol end.now.state verdict) }
{
    match ba_tables::c_choose(end.protocol, end.state, verdict) {
        Some(next) if next != end.state => Wake::One(end.id),
        _ => Wake::Nobody,
    }
}

/// An end's participant is to be asked to complete.
pub fn complete(node: &Objects, id: Id) -> Proposal
    ensures step { proposed_step node.now.node result ≡ on_complete node.now.node id }
    ensures suits { Suits node.now result.change }
{
    let Some(found) = node.find_end(id) else {
        return Proposal::refused(NO_SUCH_END, id);
    };
    match found.scope.completion(id) {
        Said::No(number, shown) => Proposal::refused(number, shown),
        Said::Ok => Proposal::kept(
            Record::Chosen(id.counter(), NUMBER_OF_COMPLETE),
            Wake::One(id),
            Change::Scope(found.place, ScopeChange::Complete(id)),
        ),
    }
}

/// The work of a child scope is done.
pub fn finish(node: &Objects, id: Id) -> Proposal
    ensures step { proposed_step node.now.node result ≡ on_finish node.now.node id }
    ensures suits { Suits node.now result.change }
{
    let Some(found) = node.find_scope(id) else {
        return Proposal::refused(NO_SUCH_SCOPE, id);
    };
    let Some(up) = found.scope.up() else {
        return Proposal::refused(NOT_A_CHILD, id);
    };
    match found.scope.finishing() {
        Said::No(number, shown) => Proposal::refused(number, shown),
        Said::Ok => Proposal::kept(
            Record::Acted(up.id.counter(), Act::Completed),
            Wake::One(up.id),
            Change::Scope(found.place, ScopeChange::Finish),
        ),
    }
}

/// A child scope leaves its activity.
pub fn leave(node: &Objects, id: Id, how: Leave) -> Proposal
    ensures step { proposed_step node.now.node result ≡ on_leave node.now.node id how }
    ensures suits { Suits node.now result.change }
{
    let Some(found) = node.find_scope(id) else {
        return Proposal::refused(NO_SUCH_SCOPE, id);
    };
    let Some(up) = found.scope.up() else {
        return Proposal::refused(NOT_A_CHILD, id);
    };
    match found.scope.leaving(how) {
        Said::No(number, shown) => Proposal::refused(number, shown),
        Said::Ok => Proposal::kept(
            Record::Acted(up.id.counter(), act_of_leave(how)),
            Wake::One(up.id),
            Change::Scope(found.place, ScopeChange::Leave(how)),
        ),
    }
}

// The act by which a participant leaves.
fn act_of_leave(how: Leave) -> Act
    ensures { result ≡ leave_act how }
{
    match how {
        Leave::Exit => Act::Exit,
        Leave::CannotComplete => Act::CannotComplete,
        Leave::Fail => Act::Fail,
    }
}
