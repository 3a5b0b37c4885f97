//! What a daemon meets of the outside, in memory: a work that is always done.
#![tactic(auto)]

mod bares;

pub use bares::Bare;
