//! The state tables of both protocols, each asked by its protocol. No call takes memory.
#![tactic(auto)]

mod end;
mod part;

pub use end::{c_choose, c_complete, c_receive, c_tick};
pub use part::{p_act, p_receive, p_says};
