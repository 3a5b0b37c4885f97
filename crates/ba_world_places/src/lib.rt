//! The place of a node of a world: a shipped node over its disk in memory, or the disk of one whose machine has stopped.
#![tactic(auto)]

mod bases;
mod calls;
mod happenings;
mod openings;
mod places;

pub use bases::{base_of, first_place};
pub use calls::{Answer, call_input, call_nothing, call_tick};
pub use happenings::{arm_failure, arm_stop, crash};
pub use openings::open;
pub use places::{KnownScope, Place};
