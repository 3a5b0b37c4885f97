//! The participant's side of a link.
ghost use Rattle.std.specs.Prelude.{◌≡◌, ◌≢◌, IsTrue};
ghost use Rattle.ba_core.specs.Messages.{is_column};
ghost use Rattle.ba_core.specs.PartRows.{part_row, part_says, acted_state, is_part_state};

use ba_core::{Act, Notice, PRow, PState, Protocol};

/// The row of a participant for a coordinator's notice.
pub fn p_receive(protocol: Protocol, s: PState, n: Notice) -> PRow
    requires state { IsTrue (is_part_state protocol s) }
    requires answered { s ≢ PState.Registering }
    requires notice { IsTrue (is_column n) }
    ensures row { result ≡ part_row protocol s n }
{
    match protocol {
        Protocol::Pc => ba_pc::p_receive(s, n),
        Protocol::Cc => ba_cc::p_receive(s, n),
    }
}

/// The state to which an act leads a participant, or `None` where it can't be done.
pub fn p_act(protocol: Protocol, s: PState, a: Act) -> Option<PState>
    requires { IsTrue (is_part_state protocol s) }
    ensures { result ≡ acted_state protocol s a }
{
    match protocol {
        Protocol::Pc => ba_pc::p_act(s, a),
        Protocol::Cc => ba_cc::p_act(s, a),
    }
}

/// The notice that a participant's state lets it send.
pub fn p_says(protocol: Protocol, s: PState) -> Option<Notice>
    requires { IsTrue (is_part_state protocol s) }
    ensures { result ≡ part_says s }
{
    match protocol {
        Protocol::Pc => ba_pc::p_says(s),
        Protocol::Cc => ba_cc::p_says(s),
    }
}
