//! The writer of XML: one canonical text for each tree.
#![tactic(auto)]

mod elements;
mod laws;
mod limits;
mod pages;
mod row;
mod scribe;
mod space;
mod spaces;
mod writer;

pub use laws::prefixes_resolve;
pub use limits::writable;
pub use writer::write;
