//! The coordinator's end of a link.
ghost use Rattle.std.specs.Prelude.{◌≡◌, IsTrue, true};
ghost use Rattle.ba_core.specs.EndRows.{end_row, end_tick, chosen_state, completed_state, is_end_state};
ghost use Rattle.ba_core.specs.Messages.{is_column};
ghost use Rattle.ba_core.specs.declared.protocols.Protocol.{Protocol};

use ba_core::{CRow, CState, How, Notice, Verdict};

// A move to another state, which prompts.
fn to(next: CState) -> CRow
    ensures { result ≡ CRow.Row next true }
{
    CRow::Row { next, prompt: true }
}

/// The row of an end for a participant's notice.
pub fn c_receive(s: CState, n: Notice) -> CRow
    requires state { IsTrue (is_end_state Protocol.Cc s) }
    requires notice { IsTrue (is_column n) }
    ensures row { result ≡ end_row Protocol.Cc s n }
{
    let stay = CRow::Row {
        next: s,
        prompt: false,
    };
    let again = CRow::Row {
        next: s,
        prompt: true,
    };
    match n {
        Notice::Completed => match s {
            CState::Completing | CState::CancelingCompleting => to(CState::Completed),
            CState::Completed | CState::FailingCompensating | CState::Ended(_) => stay,
            CState::Closing | CState::Compensating => again,
            _ => CRow::Invalid,
        },
        Notice::Closed => match s {
            CState::Closing => to(CState::Ended(How::Closed)),
            CState::Ended(_) => stay,
            _ => CRow::Invalid,
        },
        Notice::Canceled => match s {
            CState::CancelingActive | CState::CancelingCompleting => {
                to(CState::Ended(How::Canceled))
            }
            CState::Ended(_) => stay,
            _ => CRow::Invalid,
        },
        Notice::Compensated => match s {
            CState::Compensating => to(CState::Ended(How::Compensated)),
            CState::Ended(_) => stay,
            _ => CRow::Invalid,
        },
        Notice::Fail => match s {
            CState::Active => to(CState::FailingActive),
            CState::Completing => to(CState::FailingCompleting),
            CState::CancelingActive | CState::CancelingCompleting => to(CState::FailingCanceling),
            CState::Compensating => to(CState::FailingCompensating),
            CState::Ended(How::Failed) => again,
            CState::FailingActive
            | CState::FailingCompleting
            | CState::FailingCanceling
            | CState::FailingCompensating
            | CState::Ended(_) => stay,
            _ => CRow::Invalid,
        },
        Notice::Exit => match s {
            CState::Active
            | CState::Completing
            | CState::CancelingActive
            | CState::CancelingCompleting => to(CState::Exiting),
            CState::Ended(How::Exited) => again,
            CState::Exiting | CState::Ended(_) => stay,
            _ => CRow::Invalid,
        },
        Notice::CannotComplete => match s {
            CState::Active
            | CState::Completing
            | CState::CancelingActive
            | CState::CancelingCompleting => to(CState::NotCompleting),
            CState::Ended(How::NotCompleted) => again,
            CState::NotCompleting | CState::Ended(_) => stay,
            _ => CRow::Invalid,
        },
        _ => CRow::Invalid,
    }
}

/// The state to which a verdict leads an end, or `None` where it can't be set there.
pub fn c_choose(s: CState, v: Verdict) -> Option<CState>
    requires { IsTrue (is_end_state Protocol.Cc s) }
    ensures { result ≡ chosen_state Protocol.Cc s v }
{
    match v {
        Verdict::Close => match s {
            CState::Completed => Some(CState::Closing),
            CState::Closing
            | CState::Exiting
            | CState::Ended(How::Closed)
            | CState::Ended(How::Exited) => Some(s),
            _ => None,
        },
        Verdict::Undo => match s {
            CState::Active => Some(CState::CancelingActive),
            CState::Completing => Some(CState::CancelingCompleting),
            CState::Completed => Some(CState::Compensating),
            CState::Closing | CState::Ended(How::Closed) => None,
            _ => Some(s),
        },
    }
}

/// What a tick makes of an end's state, and the notice by which the end then tells it.
pub fn c_tick(s: CState) -> (CState, Option<Notice>)
    requires { IsTrue (is_end_state Protocol.Cc s) }
    ensures { result ≡ end_tick s }
{
    match s {
        CState::Completing => (s, Some(Notice::Complete)),
        CState::CancelingActive | CState::CancelingCompleting => (s, Some(Notice::Cancel)),
        CState::Closing => (s, Some(Notice::Close)),
        CState::Compensating => (s, Some(Notice::Compensate)),
        CState::FailingActive
        | CState::FailingCompleting
        | CState::FailingCanceling
        | CState::FailingCompensating
        | CState::Ended(How::Failed) => (CState::Ended(How::Failed), Some(Notice::Failed)),
        CState::NotCompleting | CState::Ended(How::NotCompleted) => {
            (CState::Ended(How::NotCompleted), Some(Notice::NotCompleted))
        }
        CState::Exiting | CState::Ended(How::Exited) => {
            (CState::Ended(How::Exited), Some(Notice::Exited))
        }
        _ => (s, None),
    }
}

/// The state of an end whose participant is asked to complete, or `None` where it can't be asked.
pub fn c_complete(s: CState) -> Option<CState>
    requires { IsTrue (is_end_state Protocol.Cc s) }
    ensures { result ≡ completed_state Protocol.Cc s }
{
    match s {
        CState::Active => Some(CState::Completing),
        _ => None,
    }
}
