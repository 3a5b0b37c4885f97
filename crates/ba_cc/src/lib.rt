//! This project's tables of CoordinatorCompletion, after WS-BusinessActivity 1.2, section 3.
//! No call takes memory.
#![tactic(auto)]

mod end;
mod part;

pub use ba_core::{CRow, PRow};
pub use end::{c_choose, c_complete, c_receive, c_tick};
pub use part::{p_act, p_receive, p_says};
