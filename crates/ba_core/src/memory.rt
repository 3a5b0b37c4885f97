//! Want of memory, as an error.

use thiserror::Error;

/// There was no memory for what a call had to keep.
#[derive(Clone, Copy, Debug, PartialEq, Eq, Error)]
#[error("out of memory")]
pub struct Memory;
