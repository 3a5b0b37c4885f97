//! The replay of a script of a pair or of a world: the script is read, its events are played, and the line of each is written.
#![tactic(auto)]

mod faults;
mod plays;
mod replays;
mod world_plays;

pub use faults::ReplayFault;
pub use replays::replay;
