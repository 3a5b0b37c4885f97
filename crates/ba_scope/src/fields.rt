//! The fields of a scope, as its calls change them.
ghost use Rattle.std.specs.Prelude.{◌≡◌, ◌^◌, ◌<◌, [], IsTrue, IfOk, IfSome, None, Some, is_some, length, not};
ghost use Rattle.std.specs.List.{AllByRecursion};
ghost use Rattle.std.specs.Option.{option_map};
ghost use Rattle.ba_core.specs.Messages.{is_column};
ghost use Rattle.ba_core.specs.PartRows.{is_part_state};
ghost use Rattle.ba_scope_ends.specs.Ends.{has_own_state, end_with_verdict, end_of, end_with_id, completing_end};
ghost use Rattle.ba_scope.specs.Fits.{ScopeFits};
ghost use Rattle.ba_scope_ends.specs.Parts.{act_when_drained, state_after_act, state_after_row, is_registering};
ghost use Rattle.ba_scope.specs.Rules.{ask, choose, complete, decide, drained_as, end_receive, enrol_refusal, enrolled_scope, expire, finish, is_atomic, leave_act, leave_by, may_leave, owe, refused_scope, scope_with_verdict, scope_with_verdict_if_any, tick_end, tick_up, up_receive, scope_with_end, state_at_tick, with_end_changed};
ghost use Rattle.ba_scope.specs.Scope.{has_id, is_at_work, is_id_above};
ghost use Rattle.ba_scope.specs.inside.Moves.{expired_scope, with_up_acted};

use crate::answers::{Drained, EnrolFault, Said};
use ba_core::{
    ALREADY_DECIDED, Act, CRow, CState, Id, Kind, Leave, Memory, NO_SUCH_END, NOT_A_CHILD,
    NOT_A_ROOT, NOT_DRAINED, NOT_READY, Notice, PRow, PState, Protocol, Verdict, WRONG_KIND,
    WRONG_STATE,
};
use ba_message::Epr;
use ba_scope_ends::{
    End, Part, Room, any_failed_end, are_ended, end_of_participant, first_not_ended,
    first_not_ready, first_not_ready_for, has_end, place_of, set_verdicts, set_verdicts_if_none,
    verdict_from_above,
};
use std::marker::Model;
use std::mem;

/// The fields of a scope. They may not fit each other: `Scope` keeps that they do.
#[derive(Debug, Drop)]
pub struct Fields {
    pub id: Id,
    pub kind: Kind,
    pub limit: u32,
    pub deadline: Option<u64>,
    pub up: Option<Part>,
    pub verdict: Option<Verdict>,
    pub ends: Vec<End>,
}

impl Model for Fields {
    ghost use Rattle.ba_scope.specs.Scope.{ScopeState};
    ghost use Rattle.ba_tree.specs.contracts.trees.Content as content;
    ghost use Rattle.std.specs.Coded.{codes};

    ghost Value = { ScopeState };

    ghost coded = { Prim.hlevel (codes, content.the_row.coded) };

    ghost view = { λ s. record { id = s.id; kind = s.kind; limit = s.limit; deadline = s.deadline; up = s.up; verdict = s.verdict; ends = s.ends.items } };
}

fn is_atomic_kind(kind: Kind) -> bool
    ensures { result ≡ is_atomic kind }
{
    matches!(kind, Kind::Atomic)
}

// Active, or Completing.
fn may_leave_at(state: PState) -> bool
    ensures { result ≡ may_leave state }
{
    matches!(state, PState::Active | PState::Completing)
}

fn act_of_leave(how: Leave) -> Act
    ensures { result ≡ leave_act how }
{
    match how {
        Leave::Exit => Act::Exit,
        Leave::CannotComplete => Act::CannotComplete,
        Leave::Fail => Act::Fail,
    }
}

impl Fields {
    // ---- verdicts

    /// What `decide` answers.
    pub fn decision(&self, verdict: Verdict) -> Said
        ensures { result ≡ (decide self.now verdict).answer }
    {
        if self.up.is_some() {
            return Said::No(NOT_A_ROOT, self.id);
        }
        if !is_atomic_kind(self.kind) {
            return Said::No(WRONG_KIND, self.id);
        }
        if self.verdict.is_some() {
            return Said::No(ALREADY_DECIDED, self.id);
        }
        match first_not_ready_for(&self.ends, verdict) {
            Some(end) => Said::No(NOT_READY, end),
            None => Said::Ok,
        }
    }

    /// Sets a verdict on a root and on each of its ends.
    pub fn decide(&mut self, verdict: Verdict) -> Said
        requires { ScopeFits self.old }
        ensures { decide self.old verdict ≡ record { after = self.new; answer = result } }
    {
        match self.decision(verdict) {
            Said::No(number, shown) => Said::No(number, shown),
            Said::Ok => {
                self.set_verdict(verdict);
                Said::Ok
            }
        }
    }

    // Sets a verdict on the scope and on each of its ends.
    fn set_verdict(&mut self, verdict: Verdict)
        requires { AllByRecursion (λ e. IsTrue (has_own_state e)) self.old.ends }
        ensures { self.new ≡ scope_with_verdict verdict self.old }
    {
        set_verdicts(&mut self.ends, verdict);
        self.verdict = Some(verdict);
    }

    /// The end with this Id.
    pub fn end(&self, id: Id) -> Option<&End>
        ensures { option_map (λ e. e.now) result ≡ end_with_id self.now.ends id }
    {
        self.ends.iter().find(|end| end.id == id)
    }

    /// What `choose` answers.
    pub fn choice(&self, id: Id, verdict: Verdict) -> Said
        requires { ScopeFits self.now }
        ensures { result ≡ (choose self.now id verdict).answer }
    {
        let Some(end) = self.end(id) else {
            return Said::No(NO_SUCH_END, id);
        };
        if self.up.is_some() {
            return Said::No(NOT_A_ROOT, id);
        }
        if is_atomic_kind(self.kind) {
            return Said::No(WRONG_KIND, id);
        }
        if end.verdict.is_some() {
            return Said::No(ALREADY_DECIDED, id);
        }
        match ba_tables::c_choose(end.protocol, end.state, verdict) {
            Some(_) => Said::Ok,
            None => Said::No(NOT_READY, id),
        }
    }

    /// Sets a verdict on an end of a MixedOutcome root.
    pub fn choose(&mut self, id: Id, verdict: Verdict) -> Said
        requires { ScopeFits self.old }
        ensures { choose self.old id verdict ≡ record { after = self.new; answer = result } }
    {
        match self.choice(id, verdict) {
            Said::No(number, shown) => Said::No(number, shown),
            Said::Ok => {
                self.set_verdict_at(id, verdict);
                Said::Ok
            }
        }
    }

    // Sets a verdict on the end with this Id, where there is one.
    fn set_verdict_at(&mut self, id: Id, verdict: Verdict)
        requires { ScopeFits self.old }
        ensures { self.new ≡ with_end_changed id (end_with_verdict verdict) self.old }
    {
        match place_of(&self.ends, id) {
            None => {}
            Some(place) => self.ends[place].set_verdict(verdict),
        }
    }

    /// What `complete` answers.
    pub fn completion(&self, id: Id) -> Said
        requires { ScopeFits self.now }
        ensures { result ≡ (complete self.now id).answer }
    {
        let Some(end) = self.end(id) else {
            return Said::No(NO_SUCH_END, id);
        };
        if self.verdict.is_some() || end.verdict.is_some() {
            return Said::No(ALREADY_DECIDED, id);
        }
        match ba_tables::c_complete(end.protocol, end.state) {
            Some(_) => Said::Ok,
            None => Said::No(WRONG_STATE, id),
        }
    }

    /// Asks an end's participant to complete.
    pub fn complete(&mut self, id: Id) -> Said
        requires { ScopeFits self.old }
        ensures { complete self.old id ≡ record { after = self.new; answer = result } }
    {
        match self.completion(id) {
            Said::No(number, shown) => Said::No(number, shown),
            Said::Ok => {
                self.complete_at(id);
                Said::Ok
            }
        }
    }

    // The end with this Id, where there is one, moves as its participant is asked to complete.
    fn complete_at(&mut self, id: Id)
        requires { ScopeFits self.old }
        ensures { self.new ≡ with_end_changed id completing_end self.old }
    {
        match place_of(&self.ends, id) {
            None => {}
            Some(place) => self.ends[place].complete(),
        }
    }

    /// What `expire` answers.
    pub fn expires(&self, now: u64) -> bool
        ensures { result ≡ (expire self.now now).answer }
    {
        let is_past = match self.deadline {
            None => false,
            Some(deadline) => deadline <= now,
        };
        self.up.is_none() && self.verdict.is_none() && is_past
    }

    /// Sets the verdict Undo on a root without verdict whose deadline is past, and on each end without one.
    pub fn expire(&mut self, now: u64) -> bool
        requires { ScopeFits self.old }
        ensures { expire self.old now ≡ record { after = self.new; answer = result } }
    {
        if self.expires(now) {
            self.set_expired();
            return true;
        }
        false
    }

    // Sets Undo on the scope, and on each end without verdict.
    fn set_expired(&mut self)
        requires { AllByRecursion (λ e. IsTrue (has_own_state e)) self.old.ends }
        ensures { self.new ≡ expired_scope self.old }
    {
        set_verdicts_if_none(&mut self.ends, Verdict::Undo);
        self.verdict = Some(Verdict::Undo);
    }

    /// What the scope came to, once each of its ends is Ended.
    pub fn drained(&self) -> Option<Drained>
        ensures { result ≡ drained_as self.now }
    {
        if are_ended(&self.ends) {
            Some(Drained {
                any_failed: any_failed_end(&self.ends),
            })
        } else {
            None
        }
    }

    /// Whether the scope, its own participant or one of its ends has this Id.
    pub fn has_id(&self, id: Id) -> bool
        ensures { result ≡ has_id self.now id }
    {
        self.id == id || has_id_above(&self.up, id) || has_end(&self.ends, id)
    }

    /// The end of this participant.
    pub fn find(&self, participant: &Epr) -> Option<Id>
        ensures { result ≡ option_map (λ e. e.id) (end_of self.now.ends participant.now) }
    {
        end_of_participant(&self.ends, participant)
    }

    // ---- the participant of a child, by itself

    /// What `finish` answers.
    pub fn finishing(&self) -> Said
        requires { ScopeFits self.now }
        ensures { result ≡ (finish self.now).answer }
    {
        let Some(up) = &self.up else {
            return Said::No(NOT_A_CHILD, self.id);
        };
        if ba_tables::p_act(up.protocol, up.state, Act::Completed).is_none() {
            return Said::No(WRONG_STATE, self.id);
        }
        match first_not_ready(&self.ends) {
            Some(end) => Said::No(NOT_READY, end),
            None => Said::Ok,
        }
    }

    /// The work of a child's own participant is done, where each end is ready.
    pub fn finish(&mut self) -> Said
        requires { ScopeFits self.old }
        ensures { finish self.old ≡ record { after = self.new; answer = result } }
    {
        match self.finishing() {
            Said::No(number, shown) => Said::No(number, shown),
            Said::Ok => {
                self.act(Act::Completed);
                Said::Ok
            }
        }
    }

    /// What `leave` answers.
    pub fn leaving(&self, how: Leave) -> Said
        requires { ScopeFits self.now }
        ensures { result ≡ (leave_by self.now how).answer }
    {
        let Some(up) = &self.up else {
            return Said::No(NOT_A_CHILD, self.id);
        };
        if !may_leave_at(up.state) {
            return Said::No(WRONG_STATE, self.id);
        }
        if ba_tables::p_act(up.protocol, up.state, act_of_leave(how)).is_none() {
            return Said::No(WRONG_STATE, self.id);
        }
        match first_not_ended(&self.ends) {
            Some(end) => Said::No(NOT_DRAINED, end),
            None => Said::Ok,
        }
    }

    /// A child leaves its activity before there is an outcome, where each of its ends is Ended.
    pub fn leave(&mut self, how: Leave) -> Said
        requires { ScopeFits self.old }
        ensures { leave_by self.old how ≡ record { after = self.new; answer = result } }
    {
        match self.leaving(how) {
            Said::No(number, shown) => Said::No(number, shown),
            Said::Ok => {
                self.act(act_of_leave(how));
                Said::Ok
            }
        }
    }

    // The child's own participant acts, where its state lets it.
    fn act(&mut self, act: Act)
        requires { ScopeFits self.old }
        ensures { self.new ≡ with_up_acted act self.old }
    {
        if let Some(up) = &mut self.up {
            up.state = ba_tables::p_act(up.protocol, up.state, act).unwrap_or(up.state);
        }
    }

    // ---- notices and ticks

    /// An end takes a participant's notice.
    pub fn end_receive(&mut self, id: Id, notice: Notice) -> CRow
        requires fits { ScopeFits self.old }
        requires notice { IsTrue (is_column notice) }
        ensures { end_receive self.old id notice ≡ record { after = self.new; answer = result } }
    {
        match place_of(&self.ends, id) {
            None => CRow::Invalid,
            Some(place) => self.ends[place].receive(notice),
        }
    }

    /// An end says what it has to say now.
    pub fn end_tick(&mut self, id: Id) -> Option<Notice>
        requires { ScopeFits self.old }
        ensures { tick_end self.old id ≡ record { after = self.new; says = result } }
    {
        match place_of(&self.ends, id) {
            None => None,
            Some(place) => self.ends[place].tick(),
        }
    }

    /// A child's own participant takes a coordinator's notice. A verdict that comes by it is set on the scope and on
    /// each of its ends.
    pub fn up_receive(&mut self, notice: Notice) -> PRow
        requires fits { ScopeFits self.old }
        requires answered { IsTrue (not (is_registering self.old.up)) }
        requires notice { IsTrue (is_column notice) }
        ensures { up_receive self.old notice ≡ record { after = self.new; answer = result } }
    {
        let Some(up) = &mut self.up else {
            return PRow::Invalid;
        };
        let row = ba_tables::p_receive(up.protocol, up.state, notice);
        let next = state_by_row(up.state, row);
        let verdict = verdict_from_above(up.state, next);
        up.state = next;
        self.set_verdict_if_any(verdict);
        row
    }

    // Sets a verdict, where there is one, on the scope and on each of its ends.
    fn set_verdict_if_any(&mut self, verdict: Option<Verdict>)
        requires { AllByRecursion (λ e. IsTrue (has_own_state e)) self.old.ends }
        ensures { self.new ≡ scope_with_verdict_if_any verdict self.old }
    {
        match verdict {
            None => {}
            Some(verdict) => self.set_verdict(verdict),
        }
    }

    /// The state in which a child's own participant ticks: it acts once its scope is drained.
    pub fn up_state_at_tick(&self) -> Option<PState>
        requires { ScopeFits self.now }
        ensures { result ≡ option_map (state_at_tick self.now) self.now.up }
    {
        match &self.up {
            None => None,
            Some(up) => Some(self.state_at_tick(up)),
        }
    }

    // The state in which this participant would tick above it.
    fn state_at_tick(&self, up: &Part) -> PState
        requires { IsTrue (is_part_state up.now.protocol up.now.state) }
        ensures { result ≡ state_at_tick self.now up.now }
    {
        match self.drained() {
            None => up.state,
            Some(Drained { any_failed }) => {
                state_once_drained(up.protocol, up.state, any_failed)
            }
        }
    }

    /// What `up_tick` says.
    pub fn up_says(&self) -> Option<Notice>
        requires { ScopeFits self.now }
        ensures { result ≡ (tick_up self.now).says }
    {
        let Some(up) = &self.up else {
            return None;
        };
        if up.owes || up.asks {
            return up.says();
        }
        ba_tables::p_says(up.protocol, self.state_at_tick(up))
    }

    /// A child's own participant says what it has to say now; where it neither owes nor asks, it acts once its scope
    /// is drained.
    pub fn up_tick(&mut self) -> Option<Notice>
        requires { ScopeFits self.old }
        ensures { tick_up self.old ≡ record { after = self.new; says = result } }
    {
        let drained = self.drained();
        let Some(up) = &mut self.up else {
            return None;
        };
        if !up.owes && !up.asks {
            if let Some(Drained { any_failed }) = drained {
                up.state = state_once_drained(up.protocol, up.state, any_failed);
            }
        }
        up.tick()
    }

    /// An end, or a child's own participant where it has a coordinator, owes its Status from now on.
    pub fn owe(&mut self, id: Id) -> bool
        requires { ScopeFits self.old }
        ensures { owe self.old id ≡ record { after = self.new; answer = result } }
    {
        if let Some(place) = place_of(&self.ends, id) {
            return self.ends[place].owe();
        }
        let Some(up) = &mut self.up else {
            return false;
        };
        if !up.is_enrolled_as(id) {
            return false;
        }
        up.owe()
    }

    /// An end, or a child's own participant where it has a coordinator, is to ask for the other side's Status from now on.
    pub fn ask(&mut self, id: Id) -> bool
        requires { ScopeFits self.old }
        ensures { ask self.old id ≡ record { after = self.new; answer = result } }
    {
        if let Some(place) = place_of(&self.ends, id) {
            return self.ends[place].ask();
        }
        let Some(up) = &mut self.up else {
            return false;
        };
        if !up.is_enrolled_as(id) {
            return false;
        }
        up.ask()
    }

    // ---- registering

    /// Why it doesn't enrol a participant that it hasn't enrolled, where it doesn't.
    pub fn enrol_refusal(&self) -> Option<EnrolFault>
        ensures { result ≡ enrol_refusal self.now }
    {
        if is_registering_above(&self.up) {
            return Some(EnrolFault::NotYetEnrolled);
        }
        if self.verdict.is_some() || !is_at_work_above(&self.up) {
            return Some(EnrolFault::Sealed);
        }
        if self.ends.len() as u64 >= u64::from(self.limit) {
            return Some(EnrolFault::Full);
        }
        None
    }

    /// Room for one end more than it has.
    pub fn room(&self) -> Result<Room, Memory>
        requires { ScopeFits self.now }
        ensures { IfOk result (λ room. length self.now.ends < room) }
    {
        Room::take(*self.ends.allocator(), self.ends.len() + 1)
    }

    /// Enrols a participant, in room that was taken before.
    pub fn enrol(&mut self, room: Room, id: Id, protocol: Protocol, participant: Epr)
        requires { length self.old.ends < room }
        ensures { self.new ≡ scope_with_end self.old id protocol participant }
    {
        let end = End {
            id,
            protocol,
            participant,
            state: CState::Active,
            verdict: None,
            owes: false,
            asks: false,
        };
        let mut ends = mem::replace(&mut self.ends, room.into_block());
        // There is room for them all, so this doesn't fail.
        let _ = self.ends.append(&mut ends);
        self.ends.push_reserved(end);
    }

    /// A child's own participant is enrolled, and its coordinator's end is there.
    pub fn enrolled(&mut self, coordinator: Epr)
        ensures { self.new ≡ enrolled_scope coordinator self.old }
    {
        if let Some(up) = &mut self.up {
            up.enrolled(coordinator);
        }
    }

    /// A child's own participant is refused for good.
    pub fn refused(&mut self)
        ensures { self.new ≡ refused_scope self.old }
    {
        if let Some(up) = &mut self.up {
            up.refused();
        }
    }
}

// Whether there is a participant above that isn't enrolled yet.
fn is_registering_above(up: &Option<Part>) -> bool
    ensures { result ≡ is_registering up.now }
{
    match up {
        None => false,
        Some(up) => matches!(up.state, PState::Registering),
    }
}

// Whether there is a participant above that has this Id.
fn has_id_above(up: &Option<Part>, id: Id) -> bool
    ensures { result ≡ is_id_above up.now id }
{
    match up {
        None => false,
        Some(up) => up.id == id,
    }
}

// Whether a scope below this enrols.
fn is_at_work_above(up: &Option<Part>) -> bool
    ensures { result ≡ is_at_work up.now }
{
    match up {
        None => true,
        Some(up) => matches!(
            up.state,
            PState::Registering | PState::Active | PState::Completing
        ),
    }
}

// The participant's state after a row.
fn state_by_row(before: PState, row: PRow) -> PState
    ensures { result ≡ state_after_row before row }
{
    match row {
        PRow::Invalid => before,
        PRow::Row { next, .. } => next,
    }
}

// The participant's state once its scope is drained: it acts by what the scope came to.
fn state_once_drained(protocol: Protocol, state: PState, any_failed: bool) -> PState
    requires { IsTrue (is_part_state protocol state) }
    ensures { result ≡ state_after_act protocol state (act_when_drained state any_failed) }
{
    let act = match state {
        PState::Closing => Act::Closed,
        PState::Canceling if any_failed => Act::Fail,
        PState::Canceling => Act::Canceled,
        PState::Compensating if any_failed => Act::Fail,
        PState::Compensating => Act::Compensated,
        _ => return state,
    };
    ba_tables::p_act(protocol, state, act).unwrap_or(state)
}
