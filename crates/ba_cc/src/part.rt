//! The participant's side of a link.
ghost use Rattle.std.specs.Prelude.{◌≡◌, ◌≢◌, IsTrue, true};
ghost use Rattle.ba_core.specs.PartRows.{part_row, part_says, acted_state, is_part_state};
ghost use Rattle.ba_core.specs.Messages.{is_column};
ghost use Rattle.ba_core.specs.declared.protocols.Protocol.{Protocol};

use ba_core::{Act, How, Notice, PRow, PState};

// A move to another state, which prompts.
fn to(next: PState) -> PRow
    ensures { result ≡ PRow.Row next true }
{
    PRow::Row { next, prompt: true }
}

/// The row of a participant for a coordinator's notice.
pub fn p_receive(s: PState, n: Notice) -> PRow
    requires state { IsTrue (is_part_state Protocol.Cc s) }
    requires answered { s ≢ PState.Registering }
    requires notice { IsTrue (is_column n) }
    ensures row { result ≡ part_row Protocol.Cc s n }
{
    let stay = PRow::Row {
        next: s,
        prompt: false,
    };
    let again = PRow::Row {
        next: s,
        prompt: true,
    };
    match n {
        Notice::Complete => match s {
            PState::Active => to(PState::Completing),
            PState::Completed
            | PState::FailingActive
            | PState::FailingCompleting
            | PState::FailingCanceling
            | PState::NotCompleting
            | PState::Exiting
            | PState::Ended(How::Canceled | How::Closed | How::Compensated) => again,
            PState::Completing
            | PState::Canceling
            | PState::Closing
            | PState::Compensating
            | PState::FailingCompensating
            | PState::Ended(_) => stay,
            _ => PRow::Invalid,
        },
        Notice::Close => match s {
            PState::Completed => to(PState::Closing),
            PState::Ended(How::Canceled | How::Closed | How::Compensated) => again,
            PState::Closing | PState::Ended(_) => stay,
            _ => PRow::Invalid,
        },
        Notice::Cancel => match s {
            PState::Active | PState::Completing => to(PState::Canceling),
            PState::Completed
            | PState::FailingActive
            | PState::FailingCompleting
            | PState::FailingCanceling
            | PState::NotCompleting
            | PState::Exiting
            | PState::Ended(How::Canceled | How::Closed | How::Compensated) => again,
            PState::Canceling
            | PState::Closing
            | PState::Compensating
            | PState::FailingCompensating
            | PState::Ended(_) => stay,
            _ => PRow::Invalid,
        },
        Notice::Compensate => match s {
            PState::Completed => to(PState::Compensating),
            PState::FailingCompensating
            | PState::Ended(How::Canceled | How::Closed | How::Compensated) => again,
            PState::Compensating | PState::Ended(_) => stay,
            _ => PRow::Invalid,
        },
        Notice::Failed => match s {
            PState::FailingActive
            | PState::FailingCompleting
            | PState::FailingCanceling
            | PState::FailingCompensating => to(PState::Ended(How::Failed)),
            PState::Ended(_) => stay,
            _ => PRow::Invalid,
        },
        Notice::Exited => match s {
            PState::Exiting => to(PState::Ended(How::Exited)),
            PState::Ended(_) => stay,
            _ => PRow::Invalid,
        },
        Notice::NotCompleted => match s {
            PState::NotCompleting => to(PState::Ended(How::NotCompleted)),
            PState::Ended(_) => stay,
            _ => PRow::Invalid,
        },
        // The participant's own notices are no columns here.
        _ => PRow::Invalid,
    }
}

/// The state to which an act of the participant's work leads, or `None` where it can't be done.
pub fn p_act(s: PState, a: Act) -> Option<PState>
    requires { IsTrue (is_part_state Protocol.Cc s) }
    ensures { result ≡ acted_state Protocol.Cc s a }
{
    match (s, a) {
        (PState::Completing, Act::Completed) => Some(PState::Completed),
        (PState::Closing, Act::Closed) => Some(PState::Ended(How::Closed)),
        (PState::Canceling, Act::Canceled) => Some(PState::Ended(How::Canceled)),
        (PState::Compensating, Act::Compensated) => Some(PState::Ended(How::Compensated)),
        (PState::Active, Act::Fail) => Some(PState::FailingActive),
        (PState::Completing, Act::Fail) => Some(PState::FailingCompleting),
        (PState::Canceling, Act::Fail) => Some(PState::FailingCanceling),
        (PState::Compensating, Act::Fail) => Some(PState::FailingCompensating),
        (PState::Active | PState::Completing, Act::Exit) => Some(PState::Exiting),
        (PState::Active | PState::Completing, Act::CannotComplete) => Some(PState::NotCompleting),
        _ => None,
    }
}

/// The notice that a participant's state lets it send.
pub fn p_says(s: PState) -> Option<Notice>
    requires { IsTrue (is_part_state Protocol.Cc s) }
    ensures { result ≡ part_says s }
{
    match s {
        PState::Completed => Some(Notice::Completed),
        PState::FailingActive
        | PState::FailingCompleting
        | PState::FailingCanceling
        | PState::FailingCompensating => Some(Notice::Fail),
        PState::NotCompleting => Some(Notice::CannotComplete),
        PState::Exiting => Some(Notice::Exit),
        PState::Ended(How::Canceled) => Some(Notice::Canceled),
        PState::Ended(How::Closed) => Some(Notice::Closed),
        PState::Ended(How::Compensated) => Some(Notice::Compensated),
        _ => None,
    }
}
