//! The command that checks an envelope.
#![tactic(auto)]

mod checks;

pub use checks::{CheckFault, MOST_TEXT, check};
