//! The events of a schedule, and why one can't be played.

use ba_core::{Act, Side, Verdict};
use thiserror::Error;

/// An event of a pair.
#[derive(Clone, Copy, Debug, PartialEq, Eq)]
pub enum PairEvent {
    /// The participant's work comes to this.
    Act(Act),
    /// A side says what its state lets it say; what it says joins the bag.
    Tick(Side),
    /// This verdict is set on the coordinator's end.
    Choose(Verdict),
    /// The participant is asked to complete, which ParticipantCompletion refuses.
    Complete,
    /// The bag's message with this number, from 1, arrives. It stays in the bag.
    Deliver(u64),
}

/// Why an event wasn't played. Nothing has changed then.
#[derive(Clone, Copy, Debug, PartialEq, Eq, Error)]
pub enum StepFault {
    #[error("out of memory")]
    Memory,
    #[error("no such message")]
    NoSuchMessage,
}
