//! A node in memory: its objects, where each stands, and the doing of what a plan is to change.
#![tactic(auto)]

mod changes;
mod counts;
mod fields;
mod finds;
mod looks;
mod objects;
mod spots;

pub use changes::{Change, PartChange, ScopeChange};
pub use finds::{FoundEnd, FoundLone, FoundScope, FoundUp};
pub use objects::Objects;
