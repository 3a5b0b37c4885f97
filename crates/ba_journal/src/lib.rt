//! The journal of a node: a file of records that outlives a stop at any moment.
#![tactic(auto)]

mod appending;
mod blocks;
mod faults;
mod frames;
mod journals;
pub mod laws;
mod loads;
mod looks;
mod making;
mod payloads;
mod readings;
mod repairing;
mod scanning;
mod scans;
mod syncing;

pub use faults::JournalFault;
pub use journals::{GREATEST_LENGTH, Journal};
pub use loads::FIRST_GATE;
pub use scanning::scan;
pub use scans::{Scan, ScanFault};
