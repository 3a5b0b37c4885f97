//! The types of WS-BusinessActivity 1.2 that every layer speaks of, and the tables that rule them.
#![tactic(auto)]

mod codes;
mod identifiers;
mod lists;
mod memory;
mod notices;
mod numbers;
mod protocols;
mod refusals;
mod rows;
mod states;

pub use codes::Code;
pub use identifiers::Id;
pub use lists::{List, Octets};
pub use memory::Memory;
pub use notices::{Act, Leave, Notice, code_of, name_of};
pub use numbers::number_of;
pub use protocols::{Kind, Protocol, Side, Verdict};
pub use refusals::{
    ALREADY_DECIDED, BAD_ADDRESS, CHILD_PART, NO_SUCH_END, NO_SUCH_PART, NO_SUCH_SCOPE,
    NOT_A_CHILD, NOT_A_ROOT, NOT_DRAINED, NOT_READY, WRONG_KIND, WRONG_STATE,
};
pub use rows::{CRow, PRow};
pub use states::{CState, How, PState, StateName, c_name, p_name};
