//! The two sides of a pair and the bag between them, as the events of a play move them.
ghost use Rattle.std.specs.Prelude.{◌≡◌, ◌≢◌, ◌↔◌, ◌^◌, ◌<◌, IsTrue, is_some, IfOk, IfSome, IfNone, OnOk, OnErr, Ok, Err, Some, None, length, ◌++◌, ◌⊎◌, true};
ghost use Rattle.ba_core.specs.EndRows.{end_row, end_tick, chosen_state, completed_state, is_end_state};
ghost use Rattle.ba_core.specs.PartRows.{part_row, part_says, acted_state, is_part_state};
ghost use Rattle.ba_core.specs.Messages.{is_column};
ghost use Rattle.std.specs.Option.{option_to_list};
ghost use Rattle.ba_pair.specs.PairState.{is_for_part, message_at};

use crate::events::{PairEvent, StepFault};
use crate::lines::Line;
use ba_core::{
    ALREADY_DECIDED, Act, CRow, CState, Code, Memory, NOT_READY, Notice, PRow, PState, Protocol,
    Side, Verdict, WRONG_STATE,
};
use std::alloc::Global;
use std::marker::Model;

/// A coordinator's end, its participant and the bag. They may not fit each other: `Pair` keeps that they do.
#[derive(Debug, Drop)]
pub struct Sides {
    protocol: Protocol,
    end: CState,
    verdict: Option<Verdict>,
    part: PState,
    bag: Vec<Notice>,
}

impl Model for Sides {
    ghost use Rattle.ba_pair.specs.PairState.{PairState};

    ghost Value = { PairState };

    ghost view = { λ s. record { protocol = s.protocol; end = s.end; verdict = s.verdict; part = s.part; bag = s.bag.items } };
}

// How many messages a new bag has room for.
const ROOM: usize = 64;

fn refused(why: u8) -> Line
    ensures { result ≡ Line.Refused why None }
{
    Line::Refused(why, None)
}

impl Sides {
    ghost use Rattle.ba_link.specs.Link.{settled_state};
    ghost use Rattle.ba_pair.specs.PairState.{PairFits, starting_pair};
    ghost use Rattle.ba_pair.specs.PairPlay.{seen_effect, acted_effect, end_ticked_effect, part_ticked_effect, chosen_effect, completed_effect, end_received_effect, part_received_effect, received_effect, delivered_effect, happens, speaks};

    /// The sides at their start: both are Active, and the bag is empty.
    pub fn make(alloc: Global, protocol: Protocol) -> Result<Sides, Memory>
        ensures { IfOk result (λ sides. sides ≡ starting_pair protocol) }
    {
        match Vec::with_capacity(alloc, ROOM) {
            Ok(bag) => Ok(Sides {
                protocol,
                end: CState::Active,
                verdict: None,
                part: PState::Active,
                bag,
            }),
            Err(_) => Err(Memory),
        }
    }

    fn seen(&self) -> Line
        ensures { (self.now, result) ≡ seen_effect self.now }
    {
        Line::Pair {
            c: self.end,
            p: self.part,
            bag: self.bag.len() as u64,
        }
    }

    fn act(&mut self, act: Act) -> Line
        requires part { IsTrue (is_part_state self.old.protocol self.old.part) }
        ensures acted { (self.new, result) ≡ acted_effect self.old (acted_state self.old.protocol self.old.part act) }
    {
        match ba_tables::p_act(self.protocol, self.part, act) {
            None => refused(WRONG_STATE),
            Some(next) => {
                self.part = next;
                self.seen()
            }
        }
    }

    // Adds what was said to the bag.
    fn say(&mut self, said: Option<Notice>) -> Result<(), StepFault>
        ensures said { OnOk result (self.new ≡ record self.old { bag = self.old.bag ++ option_to_list said }) }
        ensures err { OnErr result (result ≡ Err StepFault.Memory) }
        ensures spoken { OnErr result (IsTrue (is_some said)) }
        ensures unchanged { OnErr result (self.new ≡ self.old) }
    {
        if let Some(notice) = said {
            if self.bag.push(notice).is_err() {
                return Err(StepFault::Memory);
            }
        }
        Ok(())
    }

    fn tick_end(&mut self) -> Result<Line, StepFault>
        requires end { IsTrue (is_end_state self.old.protocol self.old.end) }
        ensures ticked { IfOk result (λ line. (self.new, line) ≡ end_ticked_effect self.old (end_tick self.old.end)) }
        ensures err { OnErr result (result ≡ Err StepFault.Memory) }
        ensures spoken { OnErr result (IsTrue (is_some (end_tick self.old.end).1)) }
        ensures unchanged { OnErr result (self.new ≡ self.old) }
    {
        let (next, said) = ba_tables::c_tick(self.protocol, self.end);
        self.say(said)?;
        self.end = next;
        Ok(self.seen())
    }

    fn tick_part(&mut self) -> Result<Line, StepFault>
        requires part { IsTrue (is_part_state self.old.protocol self.old.part) }
        ensures ticked { IfOk result (λ line. (self.new, line) ≡ part_ticked_effect self.old (part_says self.old.part)) }
        ensures err { OnErr result (result ≡ Err StepFault.Memory) }
        ensures spoken { OnErr result (IsTrue (is_some (part_says self.old.part))) }
        ensures unchanged { OnErr result (self.new ≡ self.old) }
    {
        self.say(ba_tables::p_says(self.protocol, self.part))?;
        Ok(self.seen())
    }

    fn choose(&mut self, v: Verdict) -> Line
        requires end { IsTrue (is_end_state self.old.protocol self.old.end) }
        ensures chosen { (self.new, result) ≡ chosen_effect self.old v self.old.verdict (chosen_state self.old.protocol self.old.end v) }
    {
        if self.verdict.is_some() {
            return refused(ALREADY_DECIDED);
        }
        match ba_tables::c_choose(self.protocol, self.end, v) {
            None => refused(NOT_READY),
            Some(next) => {
                self.end = next;
                self.verdict = Some(v);
                self.seen()
            }
        }
    }

    fn complete(&mut self) -> Line
        requires end { IsTrue (is_end_state self.old.protocol self.old.end) }
        ensures completed { (self.new, result) ≡ completed_effect self.old self.old.verdict (completed_state self.old.protocol self.old.end) }
    {
        if self.verdict.is_some() {
            return refused(ALREADY_DECIDED);
        }
        match ba_tables::c_complete(self.protocol, self.end) {
            None => refused(WRONG_STATE),
            Some(next) => {
                self.end = next;
                self.seen()
            }
        }
    }

    // A notice arrives at the side that it is for.
    fn receive(&mut self, n: Notice) -> Line
        requires end { IsTrue (is_end_state self.old.protocol self.old.end) }
        requires part { IsTrue (is_part_state self.old.protocol self.old.part) }
        requires enrolled { self.old.part ≢ PState.Registering }
        requires notice { IsTrue (is_column n) }
        ensures received { (self.new, result) ≡ received_effect self.old n }
    {
        if is_for_part(n) {
            self.receive_at_part(ba_tables::p_receive(self.protocol, self.part, n))
        } else {
            self.receive_at_end(ba_tables::c_receive(self.protocol, self.end, n))
        }
    }

    fn receive_at_part(&mut self, row: PRow) -> Line
        ensures { (self.new, result) ≡ part_received_effect self.old row }
    {
        match row {
            PRow::Invalid => Line::Fault(Code::InvalidState),
            PRow::Row { next, .. } => {
                self.part = next;
                self.seen()
            }
        }
    }

    fn receive_at_end(&mut self, row: CRow) -> Line
        ensures received { (self.new, result) ≡ end_received_effect self.old row }
    {
        match row {
            CRow::Invalid => Line::Fault(Code::InvalidState),
            CRow::Row { next, .. } => {
                self.end = self.settle(next);
                self.seen()
            }
        }
    }

    // An end that comes to Completed and has a verdict moves on by it at once.
    fn settle(&self, next: CState) -> CState
        ensures settled { result ≡ settled_state self.now.protocol next self.now.verdict }
    {
        match (next, self.verdict) {
            (CState::Completed, Some(v)) => {
                ba_tables::c_choose(self.protocol, next, v).unwrap_or(next)
            }
            _ => next,
        }
    }

    // The bag's message with this number arrives, if there is one.
    fn deliver(&mut self, number: u64) -> Option<Line>
        requires fits { PairFits self.old }
        ensures some { IfSome result (λ line. delivered_effect self.old (message_at self.old.bag number) ≡ Some (self.new, line)) }
        ensures none { IfNone result (message_at self.old.bag number ≡ None) }
        ensures unchanged { IfNone result (self.new ≡ self.old) }
    {
        let n = message_at(self.bag.as_slice(), number)?;
        Some(self.receive(n))
    }

    /// Plays one event.
    #[tactic(auto, using(crate::proofs::OfProtocol::end_state, crate::proofs::OfProtocol::part_state))]
    pub fn happen(&mut self, e: PairEvent) -> Result<Line, StepFault>
        requires fits { PairFits self.old }
        ensures step { IfOk result (λ line. happens self.old e ≡ Some (self.new, line)) }
        ensures none { (result ≡ Err StepFault.NoSuchMessage) ↔ (happens self.old e ≡ None) }
        ensures memory { (result ≡ Err StepFault.Memory) → IsTrue (speaks self.old e) }
        ensures unchanged { OnErr result (self.new ≡ self.old) }
    {
        match e {
            PairEvent::Act(act) => Ok(self.act(act)),
            PairEvent::Tick(Side::Coordinator) => self.tick_end(),
            PairEvent::Tick(Side::Participant) => self.tick_part(),
            PairEvent::Choose(v) => Ok(self.choose(v)),
            PairEvent::Complete => Ok(self.complete()),
            PairEvent::Deliver(number) => match self.deliver(number) {
                Some(line) => Ok(line),
                None => Err(StepFault::NoSuchMessage),
            },
        }
    }
}

// A coordinator sends it, so it is for a participant.
fn is_for_part(n: Notice) -> bool
    ensures { result ≡ is_for_part n }
{
    matches!(
        n,
        Notice::Complete
            | Notice::Close
            | Notice::Cancel
            | Notice::Compensate
            | Notice::Failed
            | Notice::Exited
            | Notice::NotCompleted
    )
}

// The message with this number, from 1.
fn message_at(bag: &[Notice], number: u64) -> Option<Notice>
    ensures { result ≡ message_at bag.now number }
{
    if number == 0 {
        return None;
    }
    bag.get((number - 1) as usize).copied()
}
