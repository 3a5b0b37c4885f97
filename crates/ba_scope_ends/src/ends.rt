//! The coordinator's ends of a scope.
ghost use Rattle.std.specs.Prelude.{◌≡◌, ◌<◌, [], ◌∷◌, length, map, position, slice_get, IsTrue, IfSome, IfNone, not};
ghost use Rattle.std.specs.List.{AllByRecursion, list_all, list_any};
ghost use Rattle.std.specs.Option.{option_map};
ghost use Rattle.ba_core.specs.EndRows.{chosen_state, end_row};
ghost use Rattle.ba_core.specs.Messages.{is_column};
ghost use Rattle.ba_link.specs.Link.{settled_state};
ghost use Rattle.ba_link.specs.States.{end_among};
ghost use Rattle.ba_message.specs.Endpoints.{same_epr};
ghost use Rattle.ba_scope_ends.specs.Ends.{has_own_state, end_after_notice, end_asking, end_owing, end_with_verdict, end_with_verdict_if_none, is_ready_for, settled_row, tick_of_end, end_of, end_with_id, first_failing, is_ended_state, is_ready_state, same_id, completing_end};

use ba_core::{CRow, CState, How, Id, Notice, Protocol, Verdict, c_name};
use ba_message::Epr;

/// A coordinator's end: a participant that a scope enrolled.
#[derive(Debug, Drop)]
pub struct End {
    pub id: Id,
    pub protocol: Protocol,
    pub participant: Epr,
    pub state: CState,
    pub verdict: Option<Verdict>,
    /// It owes its participant a Status.
    pub owes: bool,
    /// It is to ask for its participant's Status.
    pub asks: bool,
}

/// Whether an end in this state is no hindrance to closing.
fn is_ready(state: CState) -> bool
    ensures { result ≡ is_ready_state state }
{
    matches!(
        state,
        CState::Completed | CState::Exiting | CState::Ended(How::Exited)
    )
}

/// Whether an end in this state is no hindrance to a verdict on its scope.
fn is_ready_for_verdict(verdict: Verdict, state: CState) -> bool
    ensures { result ≡ is_ready_for verdict state }
{
    match verdict {
        Verdict::Close => is_ready(state),
        Verdict::Undo => true,
    }
}

/// Whether the state is Ended.
pub fn is_ended(state: CState) -> bool
    ensures { result ≡ is_ended_state state }
{
    matches!(state, CState::Ended(_))
}

impl End {
    /// Sets a verdict on the end, which moves where its state lets it.
    pub fn set_verdict(&mut self, verdict: Verdict)
        requires { IsTrue (has_own_state self.old) }
        ensures { self.new ≡ end_with_verdict verdict self.old }
    {
        self.state = ba_tables::c_choose(self.protocol, self.state, verdict).unwrap_or(self.state);
        self.verdict = Some(verdict);
    }

    /// The same, where it has none.
    fn set_verdict_if_none(&mut self, verdict: Verdict)
        requires { IsTrue (has_own_state self.old) }
        ensures { self.new ≡ end_with_verdict_if_none verdict self.old }
    {
        if self.verdict.is_none() {
            self.set_verdict(verdict);
        }
    }

    /// The end moves as its participant is asked to complete, where its state lets it.
    pub fn complete(&mut self)
        requires { IsTrue (has_own_state self.old) }
        ensures { self.new ≡ completing_end self.old }
    {
        self.state = ba_tables::c_complete(self.protocol, self.state).unwrap_or(self.state);
    }

    /// It owes its Status from now on; true exactly where it didn't before.
    pub fn owe(&mut self) -> bool
        ensures end { self.new ≡ end_owing self.old }
        ensures first { result ≡ not self.old.owes }
    {
        let first = !self.owes;
        self.owes = true;
        first
    }

    /// It is to ask for a Status from now on; true exactly where it wasn't before.
    pub fn ask(&mut self) -> bool
        ensures end { self.new ≡ end_asking self.old }
        ensures first { result ≡ not self.old.asks }
    {
        let first = !self.asks;
        self.asks = true;
        first
    }

    /// The row by which the end takes a notice. Where it leads to Completed, the end moves on by its verdict.
    pub fn row(&self, notice: Notice) -> CRow
        requires state { IsTrue (has_own_state self.now) }
        requires notice { IsTrue (is_column notice) }
        ensures { result ≡ settled_row (end_row self.now.protocol self.now.state notice) self.now }
    {
        match ba_tables::c_receive(self.protocol, self.state, notice) {
            CRow::Invalid => CRow::Invalid,
            CRow::Row { next, prompt } => CRow::Row {
                next: settle(self.protocol, next, self.verdict),
                prompt,
            },
        }
    }

    /// The end takes a notice.
    pub fn receive(&mut self, notice: Notice) -> CRow
        requires state { IsTrue (has_own_state self.old) }
        requires notice { IsTrue (is_column notice) }
        ensures end { self.new ≡ end_after_notice notice self.old }
        ensures row { result ≡ settled_row (end_row self.old.protocol self.old.state notice) self.old }
    {
        match self.row(notice) {
            CRow::Invalid => CRow::Invalid,
            CRow::Row { next, prompt } => {
                self.state = next;
                CRow::Row { next, prompt }
            }
        }
    }

    /// The state of the end after a tick, and what it says then.
    pub fn at_tick(&self) -> (CState, Option<Notice>)
        requires { IsTrue (has_own_state self.now) }
        ensures state { result.0 ≡ (tick_of_end self.now).after.state }
        ensures says { result.1 ≡ (tick_of_end self.now).says }
    {
        if self.owes {
            return (self.state, Some(Notice::Status(c_name(self.state))));
        }
        if self.asks {
            return (self.state, Some(Notice::GetStatus));
        }
        ba_tables::c_tick(self.protocol, self.state)
    }

    /// The end says what it has to say now.
    pub fn tick(&mut self) -> Option<Notice>
        requires { IsTrue (has_own_state self.old) }
        ensures end { self.new ≡ (tick_of_end self.old).after }
        ensures says { result ≡ (tick_of_end self.old).says }
    {
        let (next, says) = self.at_tick();
        if self.owes {
            self.owes = false;
            return says;
        }
        if self.asks {
            self.asks = false;
            return says;
        }
        self.state = next;
        says
    }
}

// An end that comes to Completed and has a verdict moves on by it.
fn settle(protocol: Protocol, state: CState, verdict: Option<Verdict>) -> CState
    ensures { result ≡ settled_state protocol state verdict }
{
    match (state, verdict) {
        (CState::Completed, Some(v)) => {
            ba_tables::c_choose(protocol, state, v).unwrap_or(CState::Completed)
        }
        _ => state,
    }
}

/// Sets a verdict on each end.
pub fn set_verdicts(ends: &mut [End], verdict: Verdict)
    requires { AllByRecursion (λ e. IsTrue (has_own_state e)) ends.old }
    ensures { ends.new ≡ map (end_with_verdict verdict) ends.old }
{
    for end in ends.iter_mut() {
        end.set_verdict(verdict);
    }
}

/// Sets a verdict on each end that has none.
pub fn set_verdicts_if_none(ends: &mut [End], verdict: Verdict)
    requires { AllByRecursion (λ e. IsTrue (has_own_state e)) ends.old }
    ensures { ends.new ≡ map (end_with_verdict_if_none verdict) ends.old }
{
    for end in ends.iter_mut() {
        end.set_verdict_if_none(verdict);
    }
}

/// The place of the end with this Id.
pub fn place_of(ends: &[End], id: Id) -> Option<usize>
    ensures within { IfSome result (λ place. place < length ends.now) }
    ensures found { IfSome result (λ place. end_with_id ends.now id ≡ slice_get ends.now place) }
    ensures none { IfNone result (end_with_id ends.now id ≡ None) }
{
    position_of(ends, id)
}

fn position_of(ends: &[End], id: Id) -> Option<usize>
    ensures { result ≡ position (λ e. same_id e.id id) ends.now }
{
    ends.iter().position(|end| end.id == id)
}

/// Whether there is an end with this Id.
pub fn has_end(ends: &[End], id: Id) -> bool
    ensures { result ≡ list_any (λ e. same_id e.id id) ends.now }
{
    ends.iter().any(|end| end.id == id)
}

/// The end of this participant.
pub fn end_of_participant(ends: &[End], participant: &Epr) -> Option<Id>
    ensures { result ≡ option_map (λ e. e.id) (end_of ends.now participant.now) }
{
    ends.iter()
        .find(|end| is_of(end, participant))
        .map(|end| end.id)
}

// Whether it is the end of this participant.
fn is_of(end: &End, participant: &Epr) -> bool
    ensures { result ≡ same_epr end.now.participant participant.now }
{
    end.participant.equals(participant)
}

/// The first end that isn't ready for a verdict on its scope.
pub fn first_not_ready_for(ends: &[End], verdict: Verdict) -> Option<Id>
    ensures { result ≡ first_failing (is_ready_for verdict) ends.now }
{
    ends.iter()
        .find(|end| !is_ready_for_verdict(verdict, end.state))
        .map(|end| end.id)
}

/// The first end that isn't ready to close.
pub fn first_not_ready(ends: &[End]) -> Option<Id>
    ensures { result ≡ first_failing is_ready_state ends.now }
{
    ends.iter()
        .find(|end| !is_ready(end.state))
        .map(|end| end.id)
}

/// The first end that isn't Ended.
pub fn first_not_ended(ends: &[End]) -> Option<Id>
    ensures { result ≡ first_failing is_ended_state ends.now }
{
    ends.iter()
        .find(|end| !is_ended(end.state))
        .map(|end| end.id)
}

/// Whether each end is Ended.
pub fn are_ended(ends: &[End]) -> bool
    ensures { result ≡ list_all (λ e. is_ended_state e.state) ends.now }
{
    ends.iter().all(|end| is_ended(end.state))
}

/// Whether an end is Ended by failing.
pub fn any_failed_end(ends: &[End]) -> bool
    ensures { result ≡ list_any (λ e. end_among (CState.Ended How.Failed ∷ []) e.state) ends.now }
{
    ends.iter().any(|end| is_failed(end.state))
}

// Whether the state is Ended by failing.
fn is_failed(state: CState) -> bool
    ensures { result ≡ end_among (CState.Ended How.Failed ∷ []) state }
{
    matches!(state, CState::Ended(How::Failed))
}
