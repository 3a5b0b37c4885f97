//! A scope as its callers see it.
ghost use Rattle.std.specs.Prelude.{◌≡◌, ◌<◌, IsTrue, IfOk, IfSome, None, Some, length, not};
ghost use Rattle.std.specs.Option.{option_map};
ghost use Rattle.ba_core.specs.Messages.{is_column};
ghost use Rattle.ba_scope.specs.Fits.{up_fits};
ghost use Rattle.ba_scope.specs.Rules.{ask, choose, complete, decide, drained_as, end_receive, enrol_refusal, enrolled_scope, expire, finish, leave_by, new_scope, owe, refused_scope, state_at_tick, tick_end, tick_up, up_receive, scope_with_end};
ghost use Rattle.ba_scope_ends.specs.Ends.{end_of, end_with_id};
ghost use Rattle.ba_scope_ends.specs.Parts.{is_registering};
ghost use Rattle.ba_scope.specs.Scope.{has_id};

use crate::answers::{Drained, EnrolFault, MOST_ENDS, Said};
use crate::fields::Fields;
use ba_core::{CRow, Id, Kind, Leave, Memory, Notice, PRow, PState, Protocol, Verdict};
use ba_message::Epr;
use ba_scope_ends::{End, Part, Room};
use std::alloc::Global;
use std::marker::Model;

/// A coordinator's scope: its ends, the verdict that was set on it, and for a child the participant by which it is
/// itself enrolled above.
#[derive(Debug, Drop)]
pub struct Scope {
    fields: Fields,
}

impl Model for Scope {
    ghost use Rattle.ba_scope.specs.Fits.{ScopeFits};
    ghost use Rattle.ba_scope.specs.Scope.{ScopeState};
    ghost use Rattle.ba_tree.specs.contracts.trees.Content as content;
    ghost use Rattle.std.specs.Coded.{codes};

    ghost Value = { ScopeState };

    ghost coded = { Prim.hlevel (codes, content.the_row.coded) };

    ghost view = { λ s. s.fields };

    ghost invariant = { λ s. ScopeFits s.fields };
}

impl Scope {
    /// A scope without ends and without verdict. A child's own participant is Registering, and has no coordinator.
    pub fn make(alloc: Global, id: Id, kind: Kind, deadline: Option<u64>, up: Option<Part>) -> Scope
        requires registering { IfSome up (λ part. IsTrue (is_registering (Some part))) }
        requires up_fits { IsTrue (up_fits up) }
        ensures { result ≡ new_scope id kind deadline up }
    {
        let fields = Fields {
            id,
            kind,
            limit: MOST_ENDS,
            deadline,
            up,
            verdict: None,
            ends: Vec::new(alloc),
        };
        Scope { fields }
    }

    // ---- what it is

    /// Its identifier.
    pub fn id(&self) -> Id
        ensures { result ≡ self.now.id }
    {
        self.fields.id
    }

    /// Its coordination type.
    pub fn kind(&self) -> Kind
        ensures { result ≡ self.now.kind }
    {
        self.fields.kind
    }

    /// How many ends it may have.
    pub fn limit(&self) -> u32
        ensures { result ≡ self.now.limit }
    {
        self.fields.limit
    }

    /// The moment from which it expires.
    pub fn deadline(&self) -> Option<u64>
        ensures { result ≡ self.now.deadline }
    {
        self.fields.deadline
    }

    /// For a child, the participant by which it is enrolled above.
    pub fn up(&self) -> Option<&Part>
        ensures { option_map (λ part. part.now) result ≡ self.now.up }
    {
        self.fields.up.as_ref()
    }

    /// The verdict that was set on it.
    pub fn verdict(&self) -> Option<Verdict>
        ensures { result ≡ self.now.verdict }
    {
        self.fields.verdict
    }

    /// Its ends, in the order in which they were enrolled.
    pub fn ends(&self) -> &[End]
        ensures { result.now ≡ self.now.ends }
    {
        self.fields.ends.as_slice()
    }

    /// The end with this Id.
    pub fn end(&self, id: Id) -> Option<&End>
        ensures { option_map (λ e. e.now) result ≡ end_with_id self.now.ends id }
    {
        self.fields.end(id)
    }

    /// The end of this participant, whose whole endpoint reference is equal.
    pub fn find(&self, participant: &Epr) -> Option<Id>
        ensures { result ≡ option_map (λ e. e.id) (end_of self.now.ends participant.now) }
    {
        self.fields.find(participant)
    }

    /// Whether it, its upward part or one of its ends has this Id.
    pub fn has_id(&self, id: Id) -> bool
        ensures { result ≡ has_id self.now id }
    {
        self.fields.has_id(id)
    }

    /// What it came to, once each of its ends is Ended.
    pub fn drained(&self) -> Option<Drained>
        ensures { result ≡ drained_as self.now }
    {
        self.fields.drained()
    }

    // ---- what a call would answer

    /// What `decide` would answer.
    pub fn decision(&self, verdict: Verdict) -> Said
        ensures { result ≡ (decide self.now verdict).answer }
    {
        self.fields.decision(verdict)
    }

    /// What `choose` would answer.
    pub fn choice(&self, end: Id, verdict: Verdict) -> Said
        ensures { result ≡ (choose self.now end verdict).answer }
    {
        self.fields.choice(end, verdict)
    }

    /// What `complete` would answer.
    pub fn completion(&self, end: Id) -> Said
        ensures { result ≡ (complete self.now end).answer }
    {
        self.fields.completion(end)
    }

    /// What `finish` would answer.
    pub fn finishing(&self) -> Said
        ensures { result ≡ (finish self.now).answer }
    {
        self.fields.finishing()
    }

    /// What `leave` would answer.
    pub fn leaving(&self, how: Leave) -> Said
        ensures { result ≡ (leave_by self.now how).answer }
    {
        self.fields.leaving(how)
    }

    /// What `expire` would answer.
    pub fn expires(&self, now: u64) -> bool
        ensures { result ≡ (expire self.now now).answer }
    {
        self.fields.expires(now)
    }

    /// For a child, the state in which its own participant would tick: it acts once the scope is drained.
    pub fn up_state_at_tick(&self) -> Option<PState>
        ensures { result ≡ option_map (state_at_tick self.now) self.now.up }
    {
        self.fields.up_state_at_tick()
    }

    /// What `up_tick` would say.
    pub fn up_says(&self) -> Option<Notice>
        ensures { result ≡ (tick_up self.now).says }
    {
        self.fields.up_says()
    }

    /// Why it doesn't enrol a participant that it hasn't enrolled, where it doesn't.
    pub fn enrol_refusal(&self) -> Option<EnrolFault>
        ensures { result ≡ enrol_refusal self.now }
    {
        self.fields.enrol_refusal()
    }

    /// Room for one end more than it has.
    pub fn room(&self) -> Result<Room, Memory>
        ensures { IfOk result (λ room. length self.now.ends < room) }
    {
        self.fields.room()
    }

    // ---- its ends

    /// Enrols a participant that it hasn't enrolled, by a new Id, as its last end: Active, and without verdict. It takes
    /// no memory but the room.
    pub fn enrol(&mut self, room: Room, id: Id, protocol: Protocol, participant: Epr)
        requires allowed { enrol_refusal self.old ≡ None }
        requires new_participant { end_of self.old.ends participant ≡ None }
        requires new_id { IsTrue (not (has_id self.old id)) }
        requires room { length self.old.ends < room }
        ensures { self.new ≡ scope_with_end self.old id protocol participant }
    {
        self.fields.enrol(room, id, protocol, participant);
    }

    /// Sets a verdict on a root of type AtomicOutcome, and on each of its ends.
    pub fn decide(&mut self, verdict: Verdict) -> Said
        ensures { decide self.old verdict ≡ record { after = self.new; answer = result } }
    {
        self.fields.decide(verdict)
    }

    /// Sets a verdict on one end of a root of type MixedOutcome.
    pub fn choose(&mut self, end: Id, verdict: Verdict) -> Said
        ensures { choose self.old end verdict ≡ record { after = self.new; answer = result } }
    {
        self.fields.choose(end, verdict)
    }

    /// Asks an end's participant to complete.
    pub fn complete(&mut self, end: Id) -> Said
        ensures { complete self.old end ≡ record { after = self.new; answer = result } }
    {
        self.fields.complete(end)
    }

    /// A root without verdict whose deadline is past gets Undo, and so does each end without verdict. True exactly
    /// where it was so.
    pub fn expire(&mut self, now: u64) -> bool
        ensures { expire self.old now ≡ record { after = self.new; answer = result } }
    {
        self.fields.expire(now)
    }

    /// An end takes a participant's notice.
    pub fn end_receive(&mut self, end: Id, notice: Notice) -> CRow
        requires { IsTrue (is_column notice) }
        ensures { end_receive self.old end notice ≡ record { after = self.new; answer = result } }
    {
        self.fields.end_receive(end, notice)
    }

    /// An end says what it has to say now.
    pub fn end_tick(&mut self, end: Id) -> Option<Notice>
        ensures { tick_end self.old end ≡ record { after = self.new; says = result } }
    {
        self.fields.end_tick(end)
    }

    // ---- the participant of a child

    /// It is enrolled, and this is its coordinator's end.
    pub fn enrolled(&mut self, coordinator: Epr)
        requires { IsTrue (is_registering self.old.up) }
        ensures { self.new ≡ enrolled_scope coordinator self.old }
    {
        self.fields.enrolled(coordinator)
    }

    /// It is refused for good.
    pub fn refused(&mut self)
        requires { IsTrue (is_registering self.old.up) }
        ensures { self.new ≡ refused_scope self.old }
    {
        self.fields.refused()
    }

    /// Its work is done, where each end is ready to close.
    pub fn finish(&mut self) -> Said
        ensures { finish self.old ≡ record { after = self.new; answer = result } }
    {
        self.fields.finish()
    }

    /// It leaves its activity, where each end is Ended.
    pub fn leave(&mut self, how: Leave) -> Said
        ensures { leave_by self.old how ≡ record { after = self.new; answer = result } }
    {
        self.fields.leave(how)
    }

    /// It takes a coordinator's notice. A verdict that comes by it is set on the scope and on each of its ends.
    pub fn up_receive(&mut self, notice: Notice) -> PRow
        requires answered { IsTrue (not (is_registering self.old.up)) }
        requires notice { IsTrue (is_column notice) }
        ensures { up_receive self.old notice ≡ record { after = self.new; answer = result } }
    {
        self.fields.up_receive(notice)
    }

    /// It says what it has to say now. Where it neither owes nor asks, and its scope is drained, it acts first.
    pub fn up_tick(&mut self) -> Option<Notice>
        ensures { tick_up self.old ≡ record { after = self.new; says = result } }
    {
        self.fields.up_tick()
    }

    // ---- either

    /// The end of this Id, or the participant of a child that has this Id and a coordinator, owes its Status from now on.
    /// True exactly where there is one that didn't before.
    pub fn owe(&mut self, id: Id) -> bool
        ensures { owe self.old id ≡ record { after = self.new; answer = result } }
    {
        self.fields.owe(id)
    }

    /// The end of this Id, or the participant of a child that has this Id and a coordinator, is to ask for the other
    /// side's Status from now on. True exactly where there is one that wasn't before.
    pub fn ask(&mut self, id: Id) -> bool
        ensures { ask self.old id ≡ record { after = self.new; answer = result } }
    {
        self.fields.ask(id)
    }
}
