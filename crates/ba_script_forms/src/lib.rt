//! The forms of a script's lines: what a line says, or the column of its first word that no form allows.
#![tactic(auto)]

mod laws;
mod line_words;
mod readings;
mod words;
mod world_words;

pub use laws::lines_mean_one_thing;
pub use readings::{Form, MOST_BYTES, Reading, reading_of};
