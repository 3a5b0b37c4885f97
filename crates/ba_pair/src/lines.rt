//! What an event shows.

use ba_core::{CState, Code, Id, PState};
use std::fmt;

/// The line that an event of a schedule shows, without its number.
#[derive(Clone, Copy, Debug, PartialEq, Eq)]
pub enum Line {
    /// The two states of a pair, and how many messages its bag holds.
    Pair { c: CState, p: PState, bag: u64 },
    /// The event was refused, for the reason that the number names, by the object that is named.
    Refused(u8, Option<Id>),
    /// A message was answered by a fault.
    Fault(Code),
}

impl fmt::Display for Line {
    ghost use Rattle.ba_pair.specs.LineText.{play_line_text};
    ghost use Rattle.std.specs.Prelude.{Some};

    ghost output = { λ line. Some (play_line_text line) };

    fn fmt<W: fmt::Write>(&self, f: &mut fmt::Formatter<W>) -> fmt::Result {
        match self {
            Line::Pair { c, p, bag } => write!(f, "C={c} P={p} bag={bag}"),
            Line::Refused(number, None) => write!(f, "refused {number}"),
            Line::Refused(number, Some(id)) => write!(f, "refused {number} {id}"),
            Line::Fault(code) => write!(f, "fault {code}"),
        }
    }
}
