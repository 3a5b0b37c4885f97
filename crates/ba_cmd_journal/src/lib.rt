//! The command that lists a journal: the text that lists what a journal's file holds, and its printing.
#![tactic(auto)]

mod journals;
mod lines;
mod words;

pub use journals::{ListFault, MOST_FILE, journal};
pub use lines::{list, put_end, put_line};
