//! The records of a node's journal, and the one coding that each of them has.
#![tactic(auto)]

mod elements;
mod endpoints;
mod fields;
mod laws;
mod reader;
mod records;
mod rooms;
mod sizes;
mod skips;
mod writer;

pub use laws::{long_bytes_are_refused_by_their_front, records_are_read_back};
pub use reader::get;
pub use records::{Record, RecordFault};
pub use rooms::Room;
pub use sizes::size_of;
pub use writer::{put, put_in};
