//! The coordinator's end of a link.
ghost use Rattle.std.specs.Prelude.{◌≡◌, IsTrue};
ghost use Rattle.ba_core.specs.EndRows.{end_row, end_tick, chosen_state, completed_state, is_end_state};
ghost use Rattle.ba_core.specs.Messages.{is_column};

use ba_core::{CRow, CState, Notice, Protocol, Verdict};

/// The row of an end for a participant's notice.
pub fn c_receive(protocol: Protocol, s: CState, n: Notice) -> CRow
    requires state { IsTrue (is_end_state protocol s) }
    requires notice { IsTrue (is_column n) }
    ensures row { result ≡ end_row protocol s n }
{
    match protocol {
        Protocol::Pc => ba_pc::c_receive(s, n),
        Protocol::Cc => ba_cc::c_receive(s, n),
    }
}

/// The state to which a verdict leads an end, or `None` where it can't be set there.
pub fn c_choose(protocol: Protocol, s: CState, v: Verdict) -> Option<CState>
    requires { IsTrue (is_end_state protocol s) }
    ensures { result ≡ chosen_state protocol s v }
{
    match protocol {
        Protocol::Pc => ba_pc::c_choose(s, v),
        Protocol::Cc => ba_cc::c_choose(s, v),
    }
}

/// The state of an end whose participant is asked to complete, or `None` where it can't be asked.
pub fn c_complete(protocol: Protocol, s: CState) -> Option<CState>
    requires { IsTrue (is_end_state protocol s) }
    ensures { result ≡ completed_state protocol s }
{
    match protocol {
        Protocol::Pc => None,
        Protocol::Cc => ba_cc::c_complete(s),
    }
}

/// What a tick makes of an end's state, and the notice that the end then sends.
pub fn c_tick(protocol: Protocol, s: CState) -> (CState, Option<Notice>)
    requires { IsTrue (is_end_state protocol s) }
    ensures { result ≡ end_tick s }
{
    match protocol {
        Protocol::Pc => ba_pc::c_tick(s),
        Protocol::Cc => ba_cc::c_tick(s),
    }
}
