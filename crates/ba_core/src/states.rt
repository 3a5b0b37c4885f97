//! The states of a coordinator's end and of a participant, and the names that they show.
ghost use Rattle.std.specs.Prelude.{◌≡◌, ◌≢◌, IfSome, IfNone};
ghost use Rattle.ba_core.specs.Messages.{end_name, part_name};
ghost use Rattle.ba_core.specs.Texts.{state_text};
ghost use Rattle.ba_core.specs.declared.states.StateName.{StateName};

use std::fmt;

/// How a link ended.
#[derive(Clone, Copy, Debug, PartialEq, Eq, Hash)]
pub enum How {
    Canceled,
    Closed,
    Compensated,
    Failed,
    Exited,
    NotCompleted,
    /// The participant was refused when it registered.
    Refused,
}

/// The state of a coordinator's end of a link (WS-BusinessActivity 1.2, section 3). The split states,
/// such as CancelingActive, and how a link ended are this project's own.
#[derive(Clone, Copy, Debug, PartialEq, Eq, Hash)]
pub enum CState {
    Active,
    Completing,
    Canceling,
    CancelingActive,
    CancelingCompleting,
    Completed,
    Closing,
    Compensating,
    FailingActive,
    FailingCompleting,
    FailingCanceling,
    FailingCompensating,
    NotCompleting,
    Exiting,
    Ended(How),
}

/// The state of a participant (WS-BusinessActivity 1.2, section 3). Registering, the split states and
/// how a link ended are this project's own.
#[derive(Clone, Copy, Debug, PartialEq, Eq, Hash)]
pub enum PState {
    /// It has asked to be enrolled, and knows of no answer.
    Registering,
    Active,
    Completing,
    Canceling,
    Completed,
    Closing,
    Compensating,
    FailingActive,
    FailingCompleting,
    FailingCanceling,
    FailingCompensating,
    NotCompleting,
    Exiting,
    Ended(How),
}

/// A state as a Status notice names it (WS-BusinessActivity 1.2, section 3.3).
#[derive(Clone, Copy, Debug, PartialEq, Eq, Hash)]
pub enum StateName {
    Active,
    Completing,
    Canceling,
    CancelingActive,
    CancelingCompleting,
    Completed,
    Closing,
    Compensating,
    FailingActive,
    FailingCompleting,
    FailingCanceling,
    FailingCompensating,
    NotCompleting,
    Exiting,
    Ended,
    /// A name that this project doesn't know.
    Other,
}

impl StateName {
    /// The local name of the state in a Status notice (WS-BusinessActivity 1.2, section 3.3); `Other` where this project doesn't know it.
    pub fn name(self) -> &'static [u8]
        ensures { result.now ≡ state_text self }
    {
        match self {
            StateName::Active => b"Active",
            StateName::Completing => b"Completing",
            StateName::Canceling => b"Canceling",
            StateName::CancelingActive => b"Canceling-Active",
            StateName::CancelingCompleting => b"Canceling-Completing",
            StateName::Completed => b"Completed",
            StateName::Closing => b"Closing",
            StateName::Compensating => b"Compensating",
            StateName::FailingActive => b"Failing-Active",
            StateName::FailingCompleting => b"Failing-Completing",
            StateName::FailingCanceling => b"Failing-Canceling",
            StateName::FailingCompensating => b"Failing-Compensating",
            StateName::NotCompleting => b"NotCompleting",
            StateName::Exiting => b"Exiting",
            StateName::Ended => b"Ended",
            StateName::Other => b"Other",
        }
    }

    /// The state with this local name, if this project knows one.
    pub fn of_name(name: &[u8]) -> Option<StateName>
        ensures some { IfSome result (λ state. name.now ≡ state_text state) }
        ensures known { IfSome result (λ state. state ≢ StateName.Other) }
        ensures none { IfNone result ((state : StateName) → state ≢ StateName.Other → name.now ≢ state_text state) }
    {
        if name == b"Active".as_slice() {
            return Some(StateName::Active);
        }
        if name == b"Completing".as_slice() {
            return Some(StateName::Completing);
        }
        if name == b"Canceling".as_slice() {
            return Some(StateName::Canceling);
        }
        if name == b"Canceling-Active".as_slice() {
            return Some(StateName::CancelingActive);
        }
        if name == b"Canceling-Completing".as_slice() {
            return Some(StateName::CancelingCompleting);
        }
        if name == b"Completed".as_slice() {
            return Some(StateName::Completed);
        }
        if name == b"Closing".as_slice() {
            return Some(StateName::Closing);
        }
        if name == b"Compensating".as_slice() {
            return Some(StateName::Compensating);
        }
        if name == b"Failing-Active".as_slice() {
            return Some(StateName::FailingActive);
        }
        if name == b"Failing-Completing".as_slice() {
            return Some(StateName::FailingCompleting);
        }
        if name == b"Failing-Canceling".as_slice() {
            return Some(StateName::FailingCanceling);
        }
        if name == b"Failing-Compensating".as_slice() {
            return Some(StateName::FailingCompensating);
        }
        if name == b"NotCompleting".as_slice() {
            return Some(StateName::NotCompleting);
        }
        if name == b"Exiting".as_slice() {
            return Some(StateName::Exiting);
        }
        if name == b"Ended".as_slice() {
            return Some(StateName::Ended);
        }
        None
    }
}

/// The name of an end's state. Each way to end is `Ended`.
pub fn c_name(s: CState) -> StateName
    ensures { result ≡ end_name s }
{
    match s {
        CState::Active => StateName::Active,
        CState::Completing => StateName::Completing,
        CState::Canceling => StateName::Canceling,
        CState::CancelingActive => StateName::CancelingActive,
        CState::CancelingCompleting => StateName::CancelingCompleting,
        CState::Completed => StateName::Completed,
        CState::Closing => StateName::Closing,
        CState::Compensating => StateName::Compensating,
        CState::FailingActive => StateName::FailingActive,
        CState::FailingCompleting => StateName::FailingCompleting,
        CState::FailingCanceling => StateName::FailingCanceling,
        CState::FailingCompensating => StateName::FailingCompensating,
        CState::NotCompleting => StateName::NotCompleting,
        CState::Exiting => StateName::Exiting,
        CState::Ended(_) => StateName::Ended,
    }
}

/// The name of a participant's state. Each way to end is `Ended`, and Registering shows as `Active`.
pub fn p_name(s: PState) -> StateName
    ensures { result ≡ part_name s }
{
    match s {
        PState::Registering | PState::Active => StateName::Active,
        PState::Completing => StateName::Completing,
        PState::Canceling => StateName::Canceling,
        PState::Completed => StateName::Completed,
        PState::Closing => StateName::Closing,
        PState::Compensating => StateName::Compensating,
        PState::FailingActive => StateName::FailingActive,
        PState::FailingCompleting => StateName::FailingCompleting,
        PState::FailingCanceling => StateName::FailingCanceling,
        PState::FailingCompensating => StateName::FailingCompensating,
        PState::NotCompleting => StateName::NotCompleting,
        PState::Exiting => StateName::Exiting,
        PState::Ended(_) => StateName::Ended,
    }
}

impl fmt::Display for How {
    ghost use Rattle.ba_core.specs.Texts.{how_text};
    ghost use Rattle.std.specs.Prelude.{Some};

    ghost output = { λ h. Some (how_text h) };

    fn fmt<W: fmt::Write>(&self, f: &mut fmt::Formatter<W>) -> fmt::Result {
        match self {
            How::Canceled => write!(f, "Canceled"),
            How::Closed => write!(f, "Closed"),
            How::Compensated => write!(f, "Compensated"),
            How::Failed => write!(f, "Failed"),
            How::Exited => write!(f, "Exited"),
            How::NotCompleted => write!(f, "NotCompleted"),
            How::Refused => write!(f, "Refused"),
        }
    }
}

impl fmt::Display for CState {
    ghost use Rattle.ba_core.specs.Texts.{end_text};
    ghost use Rattle.std.specs.Prelude.{Some};

    ghost output = { λ s. Some (end_text s) };

    fn fmt<W: fmt::Write>(&self, f: &mut fmt::Formatter<W>) -> fmt::Result {
        match self {
            CState::Active => write!(f, "Active"),
            CState::Completing => write!(f, "Completing"),
            CState::Canceling => write!(f, "Canceling"),
            CState::CancelingActive => write!(f, "Canceling-Active"),
            CState::CancelingCompleting => write!(f, "Canceling-Completing"),
            CState::Completed => write!(f, "Completed"),
            CState::Closing => write!(f, "Closing"),
            CState::Compensating => write!(f, "Compensating"),
            CState::FailingActive => write!(f, "Failing-Active"),
            CState::FailingCompleting => write!(f, "Failing-Completing"),
            CState::FailingCanceling => write!(f, "Failing-Canceling"),
            CState::FailingCompensating => write!(f, "Failing-Compensating"),
            CState::NotCompleting => write!(f, "NotCompleting"),
            CState::Exiting => write!(f, "Exiting"),
            CState::Ended(how) => write!(f, "Ended/{how}"),
        }
    }
}

impl fmt::Display for PState {
    ghost use Rattle.ba_core.specs.Texts.{part_text};
    ghost use Rattle.std.specs.Prelude.{Some};

    ghost output = { λ s. Some (part_text s) };

    fn fmt<W: fmt::Write>(&self, f: &mut fmt::Formatter<W>) -> fmt::Result {
        match self {
            PState::Registering => write!(f, "Registering"),
            PState::Active => write!(f, "Active"),
            PState::Completing => write!(f, "Completing"),
            PState::Canceling => write!(f, "Canceling"),
            PState::Completed => write!(f, "Completed"),
            PState::Closing => write!(f, "Closing"),
            PState::Compensating => write!(f, "Compensating"),
            PState::FailingActive => write!(f, "Failing-Active"),
            PState::FailingCompleting => write!(f, "Failing-Completing"),
            PState::FailingCanceling => write!(f, "Failing-Canceling"),
            PState::FailingCompensating => write!(f, "Failing-Compensating"),
            PState::NotCompleting => write!(f, "NotCompleting"),
            PState::Exiting => write!(f, "Exiting"),
            PState::Ended(how) => write!(f, "Ended/{how}"),
        }
    }
}
