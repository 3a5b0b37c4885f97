//! The bodies of HTTP/1.1 messages: a body of a length that is known, or of all that the input holds, is given to a taker,
//! and the line that says the size of a chunk is read byte by byte.
#![tactic(auto)]

mod counted_bodies;
mod remaining_bodies;
mod size_lines;
mod takers;

pub use counted_bodies::read_counted;
pub use remaining_bodies::read_remaining;
pub use size_lines::{Place, Step, take_byte};
pub use takers::Taker;
