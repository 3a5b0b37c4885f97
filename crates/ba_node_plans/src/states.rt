//! Tests of states, notices and addresses.
ghost use Rattle.std.specs.Prelude.{◌≡◌, IsTrue, is_some};
ghost use Rattle.ba_core.specs.EndRows.{is_end_state};
ghost use Rattle.ba_link.specs.Link.{settled_state};
ghost use Rattle.ba_message.specs.Dialing.{is_dialable};
ghost use Rattle.ba_scope_ends.specs.Parts.{has_no_coordinator, verdict_on_the_way};
ghost use Rattle.ba_node_steps.specs.Steps.{is_get_status, is_registering_state, is_status, same_end_state, same_part_state};

use ba_core::{CState, How, Notice, PState, Protocol, Verdict};

/// Whether an end's state stays.
pub(crate) fn same_end(before: CState, next: CState) -> bool
    ensures { result ≡ same_end_state before next }
{
    before == next
}

/// Whether a participant's state stays.
pub(crate) fn same_part(before: PState, next: PState) -> bool
    ensures { result ≡ same_part_state before next }
{
    before == next
}

/// Whether a participant in this state is Registering.
pub(crate) fn is_registering(state: PState) -> bool
    ensures { result ≡ is_registering_state state }
{
    matches!(state, PState::Registering)
}

/// Whether a participant in this state has no coordinator.
pub(crate) fn lacks_coordinator(state: PState) -> bool
    ensures { result ≡ has_no_coordinator state }
{
    matches!(state, PState::Registering | PState::Ended(How::Refused))
}

/// The state of an end that comes to this one: from Completed it moves on by its verdict.
pub(crate) fn settled(protocol: Protocol, state: CState, verdict: Option<Verdict>) -> CState
    ensures { result ≡ settled_state protocol state verdict }
{
    match (state, verdict) {
        (CState::Completed, Some(v)) => {
            ba_tables::c_choose(protocol, state, v).unwrap_or(CState::Completed)
        }
        _ => state,
    }
}

/// Whether a verdict comes from above as an own participant goes from one state to the next.
pub(crate) fn brings_verdict(before: PState, next: PState) -> bool
    ensures { result ≡ is_some (verdict_on_the_way before next) }
{
    before != next
        && matches!(
            next,
            PState::Closing | PState::Canceling | PState::Compensating
        )
}

/// Whether the address can be dialed.
pub(crate) fn can_dial(address: &[u8]) -> bool
    ensures { result ≡ is_dialable address.now }
{
    ba_message::dialable(address)
}

/// Whether the notice is a Status.
pub(crate) fn is_status(notice: Notice) -> bool
    ensures { result ≡ is_status notice }
{
    matches!(notice, Notice::Status(_))
}

/// Whether the notice is a GetStatus.
pub(crate) fn is_get_status(notice: Notice) -> bool
    ensures { result ≡ is_get_status notice }
{
    matches!(notice, Notice::GetStatus)
}
