//! What a node answers, and what it shows.

use ba_core::{CState, Code, Id, Kind, PState, Protocol, Verdict};
use ba_message::{Context, Epr, Letter};

/// The answer to an input.
#[derive(Debug, Drop)]
pub enum Reply {
    Accepted,
    /// The context of the scope that was made.
    Context(Context),
    /// The participant that was made.
    Joined(Id),
    /// The coordinator's end of the participant that registered.
    Enrolment(Epr),
    SoapFault(Code),
    /// The number of a refusal, and the object that shows it: for 35 and 40 the first end that hinders it, for 46 to a
    /// Join the node's own identifier, with the counter 0, and else the object that was asked for.
    Refused(u8, Id),
}

/// Which objects have something to say now.
#[derive(Clone, Copy, Debug, PartialEq, Eq)]
pub enum Wake {
    Nobody,
    One(Id),
    /// An end that ended in a child scope, and then the child's own participant.
    Two(Id, Id),
    /// The ends of this scope, and its own participant.
    Scope(Id),
}

/// What an input led to.
#[derive(Debug, Drop)]
pub struct Done {
    pub reply: Reply,
    pub wake: Wake,
}

/// What a tick led to.
#[derive(Debug, Drop)]
pub struct Ticked {
    pub letter: Option<Letter>,
    pub wake: Wake,
}

/// What an object shows.
#[derive(Clone, Copy, Debug, PartialEq, Eq)]
pub enum Seen {
    Scope(Kind, Option<Verdict>),
    End(Protocol, CState, Option<Verdict>),
    /// True for a lone participant, false for a child scope's own.
    Part(Protocol, PState, bool),
}
