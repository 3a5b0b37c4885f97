//! The plan of a node: which of its objects are to say something again, and when.
#![tactic(auto)]

mod dues;
mod plans;
mod shares;

pub use dues::Due;
pub use plans::Plan;
