//! What happens to a node.

use ba_core::{Act, Code, Id, Kind, Leave, Notice, Protocol, Side, Verdict};
use ba_message::{Context, Epr};

/// A message that arrives at a node, or what the application asks of it.
#[derive(Debug, Drop)]
pub enum Input {
    /// A scope is to be made: a root, or with a current context a child, whose own participant registers there by the
    /// protocol `up`. Its deadline is so many milliseconds after the moment at which it is made.
    Create {
        expires: Option<u32>,
        current: Option<Context>,
        kind: Option<Kind>,
        up: Protocol,
    },
    /// A participant registers at a scope. No protocol where the message names one that is not known.
    Register {
        scope: Id,
        protocol: Option<Protocol>,
        participant: Epr,
    },
    /// A participant is to be made that registers there.
    Join {
        protocol: Protocol,
        registration: Epr,
    },
    /// The Register of this participant was answered: this is its coordinator's end.
    Enrolled(Id, Epr),
    /// The Register of this participant was answered with a fault.
    RefusedBy(Id, Code),
    /// A notice arrives at an end (side Coordinator) or at a participant (side Participant).
    Notice(Side, Id, Notice),
    /// The work of a lone participant came to this.
    Act(Id, Act),
    /// The other side of an end or of a participant is to be asked for its Status.
    Ask(Id),
    /// A verdict on a root of type AtomicOutcome.
    Decide(Id, Verdict),
    /// A verdict on one end of a root of type MixedOutcome.
    Choose(Id, Verdict),
    /// The participant of an end is to be asked to complete.
    Complete(Id),
    /// The work of a child scope is done.
    Finish(Id),
    /// A child scope leaves its activity.
    Leave(Id, Leave),
}
