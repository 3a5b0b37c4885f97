//! Written schedules are played here: a pair of ends, the bag of messages between them, and the line that
//! each event shows.
#![tactic(auto)]

mod events;
mod lines;
mod pairs;
mod plays;
mod sides;

pub use events::{PairEvent, StepFault};
pub use lines::Line;
pub use pairs::Pair;
pub use plays::plays_stay_safe;
