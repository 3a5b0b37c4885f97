//! What an event of a world came to, and how a line says it.

use ba_core::{Code, Id, Notice};
use std::fmt;

/// A message in the bag, by what it is.
#[derive(Clone, Copy, Debug, PartialEq, Eq)]
pub enum Label {
    Notice(Notice),
    Register,
    RegisterResponse,
    Fault(Code),
}

/// What an event of a world came to.
#[derive(Clone, Copy, Debug, PartialEq, Eq)]
pub enum Outcome {
    /// It was done.
    Done,
    /// It made this object.
    Made(Id),
    /// It made this scope, and the participant that speaks for it in the activity above.
    MadeUnder(Id, Id),
    /// A message joined the bag as the one with this number, from 1.
    Sent(u64, Label),
    /// There was nothing to say.
    Quiet,
    /// A message was answered; the answer joined the bag as the one with this number, from 1.
    Reply(u64, Label),
    /// It was refused, for the reason that the number names, by the object that is named.
    Refused(u8, Option<Id>),
    /// It was answered by a fault.
    Fault(Code),
    /// The node is down.
    Down,
    /// The node's disk failed.
    Disk,
    /// The node's journal is full.
    Full,
    /// The node takes no more calls, since its disk failed before.
    Closed,
    /// The node stopped at the device call where it was to stop.
    Stopped,
}

impl fmt::Display for Label {
    ghost use Rattle.ba_world_events.specs.Outcomes.{label_text};
    ghost use Rattle.std.specs.Prelude.{Some};

    ghost output = { λ label. Some (label_text label) };

    fn fmt<W: fmt::Write>(&self, f: &mut fmt::Formatter<W>) -> fmt::Result {
        match self {
            Label::Notice(notice) => write!(f, "{notice}"),
            Label::Register => write!(f, "Register"),
            Label::RegisterResponse => write!(f, "RegisterResponse"),
            Label::Fault(code) => write!(f, "fault {code}"),
        }
    }
}

impl fmt::Display for Outcome {
    ghost use Rattle.ba_world_events.specs.Outcomes.{outcome_text};
    ghost use Rattle.std.specs.Prelude.{Some};

    ghost output = { λ outcome. Some (outcome_text outcome) };

    fn fmt<W: fmt::Write>(&self, f: &mut fmt::Formatter<W>) -> fmt::Result {
        match self {
            Outcome::Done => write!(f, "ok"),
            Outcome::Made(id) => write!(f, "ok {id}"),
            Outcome::MadeUnder(scope, up) => write!(f, "ok {scope} up {up}"),
            Outcome::Sent(number, label) => write!(f, "sent {number} {label}"),
            Outcome::Quiet => write!(f, "quiet"),
            Outcome::Reply(number, label) => write!(f, "reply {number} {label}"),
            Outcome::Refused(why, None) => write!(f, "refused {why}"),
            Outcome::Refused(why, Some(id)) => write!(f, "refused {why} {id}"),
            Outcome::Fault(code) => write!(f, "fault {code}"),
            Outcome::Down => write!(f, "down"),
            Outcome::Disk => write!(f, "disk"),
            Outcome::Full => write!(f, "full"),
            Outcome::Closed => write!(f, "closed"),
            Outcome::Stopped => write!(f, "stopped"),
        }
    }
}
