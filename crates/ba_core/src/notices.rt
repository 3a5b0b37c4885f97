//! The notices that the two sides of a link send each other, and the acts of a participant's work.
ghost use Rattle.std.specs.Prelude.{◌≡◌, ◌≢◌, IfSome, IfNone};
ghost use Rattle.ba_core.specs.Messages.{notice_code, notice_name};
ghost use Rattle.ba_core.specs.Words.{act_word};
ghost use Rattle.ba_core.specs.declared.notices.Act.{Act};

use crate::states::StateName;
use std::fmt;

/// A message between a coordinator and a participant that is enrolled
/// (WS-BusinessActivity 1.2, section 3).
#[derive(Clone, Copy, Debug, PartialEq, Eq)]
pub enum Notice {
    // From the coordinator.
    Complete,
    Close,
    Cancel,
    Compensate,
    Failed,
    Exited,
    NotCompleted,
    // From the participant.
    Completed,
    Closed,
    Canceled,
    Compensated,
    Fail,
    Exit,
    CannotComplete,
    // Either way.
    GetStatus,
    Status(StateName),
}

/// What a participant's work has come to.
#[derive(Clone, Copy, Debug, PartialEq, Eq)]
pub enum Act {
    Completed,
    Closed,
    Canceled,
    Compensated,
    Fail,
    Exit,
    CannotComplete,
}

impl Act {
    /// The word by which lines and commands name it.
    pub fn word(self) -> &'static [u8]
        ensures { result.now ≡ act_word self }
    {
        match self {
            Act::Completed => b"completed",
            Act::Closed => b"closed",
            Act::Canceled => b"canceled",
            Act::Compensated => b"compensated",
            Act::Fail => b"fail",
            Act::Exit => b"exit",
            Act::CannotComplete => b"cannotcomplete",
        }
    }

    /// The act with this word.
    pub fn of_word(word: &[u8]) -> Option<Act>
        ensures some { IfSome result (λ act. word.now ≡ act_word act) }
        ensures none { IfNone result ((act : Act) → word.now ≢ act_word act) }
    {
        if word == b"completed".as_slice() {
            return Some(Act::Completed);
        }
        if word == b"closed".as_slice() {
            return Some(Act::Closed);
        }
        if word == b"canceled".as_slice() {
            return Some(Act::Canceled);
        }
        if word == b"compensated".as_slice() {
            return Some(Act::Compensated);
        }
        if word == b"fail".as_slice() {
            return Some(Act::Fail);
        }
        if word == b"exit".as_slice() {
            return Some(Act::Exit);
        }
        if word == b"cannotcomplete".as_slice() {
            return Some(Act::CannotComplete);
        }
        None
    }
}

/// How an interposed participant leaves its activity before the activity has an outcome.
#[derive(Clone, Copy, Debug, PartialEq, Eq)]
pub enum Leave {
    Exit,
    CannotComplete,
    Fail,
}

/// The notice's code, from 1 to 16 (this project's own).
pub fn code_of(n: Notice) -> u8
    ensures { result ≡ notice_code n }
{
    match n {
        Notice::Complete => 1,
        Notice::Close => 2,
        Notice::Cancel => 3,
        Notice::Compensate => 4,
        Notice::Failed => 5,
        Notice::Exited => 6,
        Notice::NotCompleted => 7,
        Notice::Completed => 8,
        Notice::Closed => 9,
        Notice::Canceled => 10,
        Notice::Compensated => 11,
        Notice::Fail => 12,
        Notice::Exit => 13,
        Notice::CannotComplete => 14,
        Notice::GetStatus => 15,
        Notice::Status(_) => 16,
    }
}

/// The local name of the notice's body element, which also ends its action
/// (WS-BusinessActivity 1.2, section 3).
pub fn name_of(n: Notice) -> &'static [u8]
    ensures { result.now ≡ notice_name n }
{
    match n {
        Notice::Complete => b"Complete",
        Notice::Close => b"Close",
        Notice::Cancel => b"Cancel",
        Notice::Compensate => b"Compensate",
        Notice::Failed => b"Failed",
        Notice::Exited => b"Exited",
        Notice::NotCompleted => b"NotCompleted",
        Notice::Completed => b"Completed",
        Notice::Closed => b"Closed",
        Notice::Canceled => b"Canceled",
        Notice::Compensated => b"Compensated",
        Notice::Fail => b"Fail",
        Notice::Exit => b"Exit",
        Notice::CannotComplete => b"CannotComplete",
        Notice::GetStatus => b"GetStatus",
        Notice::Status(_) => b"Status",
    }
}

impl fmt::Display for Notice {
    ghost use Rattle.ba_core.specs.Messages.{notice_name};
    ghost use Rattle.std.specs.Prelude.{Some};

    ghost output = { λ notice. Some (notice_name notice) };

    fn fmt<W: fmt::Write>(&self, f: &mut fmt::Formatter<W>) -> fmt::Result {
        match self {
            Notice::Complete => write!(f, "Complete"),
            Notice::Close => write!(f, "Close"),
            Notice::Cancel => write!(f, "Cancel"),
            Notice::Compensate => write!(f, "Compensate"),
            Notice::Failed => write!(f, "Failed"),
            Notice::Exited => write!(f, "Exited"),
            Notice::NotCompleted => write!(f, "NotCompleted"),
            Notice::Completed => write!(f, "Completed"),
            Notice::Closed => write!(f, "Closed"),
            Notice::Canceled => write!(f, "Canceled"),
            Notice::Compensated => write!(f, "Compensated"),
            Notice::Fail => write!(f, "Fail"),
            Notice::Exit => write!(f, "Exit"),
            Notice::CannotComplete => write!(f, "CannotComplete"),
            Notice::GetStatus => write!(f, "GetStatus"),
            Notice::Status(_) => write!(f, "Status"),
        }
    }
}
