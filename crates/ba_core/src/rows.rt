//! What the state tables answer when a notice arrives.

use crate::states::{CState, PState};

/// The row of a coordinator's end for a notice.
#[derive(Clone, Copy, Debug, PartialEq, Eq)]
pub enum CRow {
    /// The table has no row: the notice is answered with the fault InvalidState.
    Invalid,
    /// The end's next state, and whether the end is prompted to say something now.
    Row { next: CState, prompt: bool },
}

/// The row of a participant for a notice.
#[derive(Clone, Copy, Debug, PartialEq, Eq)]
pub enum PRow {
    /// The table has no row: the notice is answered with the fault InvalidState.
    Invalid,
    /// The participant's next state, and whether it is prompted to say something now.
    Row { next: PState, prompt: bool },
}
