//! Participants.
ghost use Rattle.std.specs.Prelude.{◌≡◌, IsTrue, Some, not};
ghost use Rattle.ba_core.specs.PartRows.{is_part_state};
ghost use Rattle.ba_scope_ends.specs.Parts.{enrolled_part, is_enrolled_as, part_asking, part_owing, refused_part, tick_of_part, verdict_on_the_way, has_no_coordinator, is_registering};

use ba_core::{How, Id, Notice, PState, Protocol, Verdict, p_name};
use ba_message::Epr;

/// A participant.
#[derive(Debug, Drop)]
pub struct Part {
    pub id: Id,
    pub protocol: Protocol,
    /// Where it registers.
    pub registration: Epr,
    /// The coordinator's end, once it was enrolled.
    pub coordinator: Option<Epr>,
    pub state: PState,
    /// It owes its coordinator a Status.
    pub owes: bool,
    /// It is to ask for its coordinator's Status.
    pub asks: bool,
}

impl Part {
    /// Whether its Register wasn't answered yet.
    pub fn is_registering(&self) -> bool
        ensures { result ≡ is_registering (Some self.now) }
    {
        matches!(self.state, PState::Registering)
    }

    /// Whether it has no coordinator: its Register wasn't answered, or was refused for good.
    pub fn lacks_coordinator(&self) -> bool
        ensures { result ≡ has_no_coordinator self.now.state }
    {
        matches!(
            self.state,
            PState::Registering | PState::Ended(How::Refused)
        )
    }

    /// What `tick` says.
    pub fn says(&self) -> Option<Notice>
        requires { IsTrue (is_part_state self.now.protocol self.now.state) }
        ensures { result ≡ (tick_of_part self.now).says }
    {
        if self.owes {
            return Some(Notice::Status(p_name(self.state)));
        }
        if self.asks {
            return Some(Notice::GetStatus);
        }
        ba_tables::p_says(self.protocol, self.state)
    }

    /// The participant says what it has to say now.
    pub fn tick(&mut self) -> Option<Notice>
        requires { IsTrue (is_part_state self.old.protocol self.old.state) }
        ensures part { self.new ≡ (tick_of_part self.old).after }
        ensures says { result ≡ (tick_of_part self.old).says }
    {
        let says = self.says();
        if self.owes {
            self.owes = false;
            return says;
        }
        self.asks = false;
        says
    }

    /// It owes its Status from now on; true exactly where it didn't before.
    pub fn owe(&mut self) -> bool
        ensures part { self.new ≡ part_owing self.old }
        ensures first { result ≡ not self.old.owes }
    {
        let first = !self.owes;
        self.owes = true;
        first
    }

    /// It is to ask for a Status from now on; true exactly where it wasn't before.
    pub fn ask(&mut self) -> bool
        ensures part { self.new ≡ part_asking self.old }
        ensures first { result ≡ not self.old.asks }
    {
        let first = !self.asks;
        self.asks = true;
        first
    }

    /// Whether it has this Id and a coordinator.
    pub fn is_enrolled_as(&self, id: Id) -> bool
        ensures { result ≡ is_enrolled_as id self.now }
    {
        self.id == id && !self.lacks_coordinator()
    }

    /// It is enrolled, and its coordinator's end is there.
    pub fn enrolled(&mut self, coordinator: Epr)
        ensures { self.new ≡ enrolled_part coordinator self.old }
    {
        self.state = PState::Active;
        self.coordinator = Some(coordinator);
    }

    /// It is refused for good.
    pub fn refused(&mut self)
        ensures { self.new ≡ refused_part self.old }
    {
        self.state = PState::Ended(How::Refused);
    }
}

/// The verdict that comes from above as a child's own participant goes from one state to the next.
pub fn verdict_from_above(before: PState, next: PState) -> Option<Verdict>
    ensures { result ≡ verdict_on_the_way before next }
{
    if before == next {
        return None;
    }
    match next {
        PState::Closing => Some(Verdict::Close),
        PState::Canceling | PState::Compensating => Some(Verdict::Undo),
        _ => None,
    }
}
