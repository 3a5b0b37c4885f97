//! The tables of a participant.
ghost use Rattle.std.specs.Prelude.{IsTrue, ◌≢◌};
ghost use Rattle.ba_core.specs.Messages.{is_column};
ghost use Rattle.ba_core.specs.PartRows.{is_part_state};

use crate::cells::{mark, put_choice, put_move, put_notice};
use ba_core::{Act, How, Notice, PRow, PState, Protocol};
use ba_tables::{p_act, p_receive, p_says};
use std::alloc::{AllocError, Global};

/// The states of participants in which notices are received, in the order of the printed tables.
pub const STATES: [PState; 19] = [
    PState::Active,
    PState::Completing,
    PState::Canceling,
    PState::Completed,
    PState::Closing,
    PState::Compensating,
    PState::FailingActive,
    PState::FailingCanceling,
    PState::FailingCompleting,
    PState::FailingCompensating,
    PState::NotCompleting,
    PState::Exiting,
    PState::Ended(How::Canceled),
    PState::Ended(How::Closed),
    PState::Ended(How::Compensated),
    PState::Ended(How::Failed),
    PState::Ended(How::Exited),
    PState::Ended(How::NotCompleted),
    PState::Ended(How::Refused),
];

/// The tables of a protocol.
pub fn tables(alloc: Global, protocol: Protocol) -> Result<String, AllocError> {
    let mut out = String::new(alloc);
    let mark = mark(protocol);
    write!(
        out,
        "# {mark}: a participant receives Complete, Close, Cancel, Compensate, Failed, Exited, NotCompleted\n"
    )?;
    for state in STATES {
        if is_state(protocol, state) {
            put_received(protocol, state, &mut out)?;
        }
    }
    write!(
        out,
        "# {mark}: a participant receives Completed, Closed, Canceled, Compensated, Fail, Exit, CannotComplete\n"
    )?;
    for state in STATES {
        if is_state(protocol, state) {
            put_own(protocol, state, &mut out)?;
        }
    }
    write!(
        out,
        "# {mark}: a participant acts completed, closed, canceled, compensated, fail, exit, cannotcomplete, and says\n"
    )?;
    put_acts(protocol, PState::Registering, &mut out)?;
    for state in STATES {
        if is_state(protocol, state) {
            put_acts(protocol, state, &mut out)?;
        }
    }
    Ok(out)
}

/// Whether a protocol's participants have a state in which notices are received.
fn is_state(protocol: Protocol, state: PState) -> bool
    ensures state { IsTrue result → IsTrue (is_part_state protocol state) }
    ensures answered { IsTrue result → state ≢ PState.Registering }
{
    match state {
        PState::Completing | PState::FailingCompleting => protocol == Protocol::Cc,
        PState::Registering => false,
        _ => true,
    }
}

/// Appends the row of a state for the notices of coordinators.
fn put_received(protocol: Protocol, state: PState, out: &mut String) -> Result<(), AllocError>
    requires state { IsTrue (is_part_state protocol state) }
    requires answered { state ≢ PState.Registering }
{
    write!(out, "{state} |")?;
    put_cell(protocol, state, Notice::Complete, out)?;
    put_cell(protocol, state, Notice::Close, out)?;
    put_cell(protocol, state, Notice::Cancel, out)?;
    put_cell(protocol, state, Notice::Compensate, out)?;
    put_cell(protocol, state, Notice::Failed, out)?;
    put_cell(protocol, state, Notice::Exited, out)?;
    put_cell(protocol, state, Notice::NotCompleted, out)?;
    out.push('\n')
}

/// Appends the row of a state for the notices of participants.
fn put_own(protocol: Protocol, state: PState, out: &mut String) -> Result<(), AllocError>
    requires state { IsTrue (is_part_state protocol state) }
    requires answered { state ≢ PState.Registering }
{
    write!(out, "{state} |")?;
    put_cell(protocol, state, Notice::Completed, out)?;
    put_cell(protocol, state, Notice::Closed, out)?;
    put_cell(protocol, state, Notice::Canceled, out)?;
    put_cell(protocol, state, Notice::Compensated, out)?;
    put_cell(protocol, state, Notice::Fail, out)?;
    put_cell(protocol, state, Notice::Exit, out)?;
    put_cell(protocol, state, Notice::CannotComplete, out)?;
    out.push('\n')
}

/// Appends the cell of a state and a notice.
fn put_cell(
    protocol: Protocol,
    state: PState,
    notice: Notice,
    out: &mut String,
) -> Result<(), AllocError>
    requires state { IsTrue (is_part_state protocol state) }
    requires answered { state ≢ PState.Registering }
    requires notice { IsTrue (is_column notice) }
{
    match p_receive(protocol, state, notice) {
        PRow::Invalid => out.push_str(" - |"),
        PRow::Row { next, prompt } => put_move(state, next, prompt, out),
    }
}

/// Appends what a participant makes of each act, and what it says.
fn put_acts(protocol: Protocol, state: PState, out: &mut String) -> Result<(), AllocError>
    requires { IsTrue (is_part_state protocol state) }
{
    write!(out, "{state} |")?;
    put_choice(state, p_act(protocol, state, Act::Completed), out)?;
    put_choice(state, p_act(protocol, state, Act::Closed), out)?;
    put_choice(state, p_act(protocol, state, Act::Canceled), out)?;
    put_choice(state, p_act(protocol, state, Act::Compensated), out)?;
    put_choice(state, p_act(protocol, state, Act::Fail), out)?;
    put_choice(state, p_act(protocol, state, Act::Exit), out)?;
    put_choice(state, p_act(protocol, state, Act::CannotComplete), out)?;
    out.push(' ')?;
    put_notice(p_says(protocol, state), out)?;
    out.push_str(" |\n")
}
