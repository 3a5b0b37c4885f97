//! The outside, as a program meets it: what is read from, what is written to, and the file that a journal
//! is kept in. Each object counts its faults, and only a count that rose justifies a fault.
#![tactic(auto)]

mod clocks;
mod disks;
mod failures;
mod images;
mod inputs;
pub mod laws;
mod links;
mod outputs;
mod requests;
mod sinks;
mod sources;

pub use clocks::{Clock, Moment};
pub use disks::{Disk, Faulty};
pub use failures::Failed;
pub use images::Image;
pub use inputs::{InputFault, read_up_to};
pub use links::Link;
pub use outputs::{NotWritten, send_all, write_all};
pub use requests::{Call, Request};
pub use sinks::Sink;
pub use sources::Source;
