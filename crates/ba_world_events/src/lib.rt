//! What scripts of worlds are made of: the events of many nodes, and the lines that they show.
#![tactic(auto)]

mod events;
mod outcomes;
mod printer;
mod summaries;

pub use events::{Event, image_of_word, leave_of_word};
pub use outcomes::{Label, Outcome};
pub use printer::{show_outcome, show_summary};
pub use summaries::Summary;
