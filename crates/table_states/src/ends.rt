//! The tables of a coordinator's end.
ghost use Rattle.std.specs.Prelude.{IsTrue};
ghost use Rattle.ba_core.specs.EndRows.{is_end_state};
ghost use Rattle.ba_core.specs.Messages.{is_column};

use crate::cells::{mark, put_choice, put_move, put_notice};
use ba_core::{CRow, CState, How, Notice, Protocol, Verdict};
use ba_tables::{c_choose, c_complete, c_receive, c_tick};
use std::alloc::{AllocError, Global};

/// The states of ends, in the order of the printed tables.
pub const STATES: [CState; 20] = [
    CState::Active,
    CState::Completing,
    CState::Canceling,
    CState::CancelingActive,
    CState::CancelingCompleting,
    CState::Completed,
    CState::Closing,
    CState::Compensating,
    CState::FailingActive,
    CState::FailingCanceling,
    CState::FailingCompleting,
    CState::FailingCompensating,
    CState::NotCompleting,
    CState::Exiting,
    CState::Ended(How::Failed),
    CState::Ended(How::Exited),
    CState::Ended(How::NotCompleted),
    CState::Ended(How::Canceled),
    CState::Ended(How::Closed),
    CState::Ended(How::Compensated),
];

/// The tables of a protocol.
pub fn tables(alloc: Global, protocol: Protocol) -> Result<String, AllocError> {
    let mut out = String::new(alloc);
    let mark = mark(protocol);
    write!(
        out,
        "# {mark}: an end receives Completed, Closed, Canceled, Compensated, Fail, Exit, CannotComplete\n"
    )?;
    for state in STATES {
        if is_state(protocol, state) {
            put_received(protocol, state, &mut out)?;
        }
    }
    write!(
        out,
        "# {mark}: an end receives Complete, Close, Cancel, Compensate, Failed, Exited, NotCompleted\n"
    )?;
    for state in STATES {
        if is_state(protocol, state) {
            put_own(protocol, state, &mut out)?;
        }
    }
    write!(
        out,
        "# {mark}: an end chooses close, chooses undo, is to complete, ticks and says\n"
    )?;
    for state in STATES {
        if is_state(protocol, state) {
            put_choices(protocol, state, &mut out)?;
        }
    }
    Ok(out)
}

/// Whether a protocol's ends have a state.
fn is_state(protocol: Protocol, state: CState) -> bool
    ensures { IsTrue result → IsTrue (is_end_state protocol state) }
{
    match state {
        CState::Completing
        | CState::CancelingActive
        | CState::CancelingCompleting
        | CState::FailingCompleting => protocol == Protocol::Cc,
        CState::Canceling => protocol == Protocol::Pc,
        CState::Ended(How::Refused) => false,
        _ => true,
    }
}

/// Appends the row of a state for the notices of participants.
fn put_received(protocol: Protocol, state: CState, out: &mut String) -> Result<(), AllocError>
    requires { IsTrue (is_end_state protocol state) }
{
    write!(out, "{state} |")?;
    put_cell(protocol, state, Notice::Completed, out)?;
    put_cell(protocol, state, Notice::Closed, out)?;
    put_cell(protocol, state, Notice::Canceled, out)?;
    put_cell(protocol, state, Notice::Compensated, out)?;
    put_cell(protocol, state, Notice::Fail, out)?;
    put_cell(protocol, state, Notice::Exit, out)?;
    put_cell(protocol, state, Notice::CannotComplete, out)?;
    out.push('\n')
}

/// Appends the row of a state for the notices of coordinators.
fn put_own(protocol: Protocol, state: CState, out: &mut String) -> Result<(), AllocError>
    requires { IsTrue (is_end_state protocol state) }
{
    write!(out, "{state} |")?;
    put_cell(protocol, state, Notice::Complete, out)?;
    put_cell(protocol, state, Notice::Close, out)?;
    put_cell(protocol, state, Notice::Cancel, out)?;
    put_cell(protocol, state, Notice::Compensate, out)?;
    put_cell(protocol, state, Notice::Failed, out)?;
    put_cell(protocol, state, Notice::Exited, out)?;
    put_cell(protocol, state, Notice::NotCompleted, out)?;
    out.push('\n')
}

/// Appends the cell of a state and a notice.
fn put_cell(
    protocol: Protocol,
    state: CState,
    notice: Notice,
    out: &mut String,
) -> Result<(), AllocError>
    requires state { IsTrue (is_end_state protocol state) }
    requires notice { IsTrue (is_column notice) }
{
    match c_receive(protocol, state, notice) {
        CRow::Invalid => out.push_str(" - |"),
        CRow::Row { next, prompt } => put_move(state, next, prompt, out),
    }
}

/// Appends what an end makes of each verdict, of a wish to complete and of a tick, and what it says then.
fn put_choices(protocol: Protocol, state: CState, out: &mut String) -> Result<(), AllocError>
    requires { IsTrue (is_end_state protocol state) }
{
    write!(out, "{state} |")?;
    put_choice(state, c_choose(protocol, state, Verdict::Close), out)?;
    put_choice(state, c_choose(protocol, state, Verdict::Undo), out)?;
    put_choice(state, c_complete(protocol, state), out)?;
    let (next, notice) = c_tick(protocol, state);
    put_choice(state, Some(next), out)?;
    out.push(' ')?;
    put_notice(notice, out)?;
    out.push_str(" |\n")
}
