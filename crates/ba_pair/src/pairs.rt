//! A pair: a coordinator's end and its participant, with the bag of all messages between them.
ghost use Rattle.std.specs.Prelude.{◌≡◌, ◌≢◌, ◌↔◌, ◌++◌, List, [], ◌∷◌, IsTrue, IfOk, OnOk, OnErr, Ok, Err, Some, None};

use crate::events::{PairEvent, StepFault};
use crate::lines::Line;
use crate::sides::Sides;
use ba_core::{Code, Memory, Protocol};
use std::alloc::Global;
use std::marker::Model;

/// One link with both ends enrolled and Active at the start, and the bag of all messages that its sides sent.
#[derive(Debug, Drop)]
pub struct Pair {
    sides: Sides,
}

impl Model for Pair {
    ghost use Rattle.ba_pair.specs.PairState.{PairState, PairFits};

    ghost Value = { PairState };

    ghost view = { λ p. p.sides };

    ghost invariant = { λ p. PairFits p.sides };
}

impl Pair {
    ghost use Rattle.ba_pair.specs.PairState.{starting_pair, PairFits};
    ghost use Rattle.ba_pair.specs.PairPlay.{MovesBy, happens, speaks};
    ghost use Rattle.ba_pair.specs.Recorded.{Played, OutcomesRecorded};

    /// A pair at its start: both sides are Active, and the bag is empty.
    #[tactic(auto, using(crate::proofs::Safety::start_fits))]
    pub fn make(alloc: Global, protocol: Protocol) -> Result<Pair, Memory>
        ensures { IfOk result (λ pair. pair ≡ starting_pair protocol) }
    {
        let sides = Sides::make(alloc, protocol)?;
        Ok(Pair { sides })
    }

    /// Plays one event. The refusals of an event, 34 (there is a verdict), 35 (the end isn't ready for that
    /// verdict) and 43 (the state doesn't let it), are lines too. An `Err` changes nothing.
    pub fn step(&mut self, e: &PairEvent) -> Result<Line, StepFault>
        ensures step { IfOk result (λ line. happens self.old e.now ≡ Some (self.new, line)) }
        ensures none { (result ≡ Err StepFault.NoSuchMessage) ↔ (happens self.old e.now ≡ None) }
        // Memory is wanted only for a message that joins the bag.
        ensures memory { (result ≡ Err StepFault.Memory) → IsTrue (speaks self.old e.now) }
        ensures unchanged { OnErr result (self.new ≡ self.old) }
        // An event is the move of the link that it names, and is refused where the link has no such move.
        ensures moves { IfOk result (λ line. MovesBy self.old e.now self.new line) }
        // The sides stay among the possible pairs, and what each message says holds.
        ensures fits { PairFits self.new }
        // Nothing arrives out of place.
        ensures in_place { result ≢ Ok (Line.Fault Code.InvalidState) }
        // Whatever was played before, an event more keeps that outcomes are recorded once.
        ensures recorded { (past : List Played) → OutcomesRecorded past self.old → OnOk result (OutcomesRecorded (past ++ (self.old, e.now) ∷ []) self.new) }
    {
        self.sides.happen(*e)
    }
}
