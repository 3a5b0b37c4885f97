//! Why a node's call didn't do its work.

use thiserror::Error;

/// Why a step wasn't taken.
#[derive(Clone, Copy, Debug, PartialEq, Eq, Error)]
pub enum NodeFault {
    /// There was no memory for the step; nothing has changed.
    #[error("out of memory")]
    Memory,
    /// The disk failed while the step's record was written: whether the journal holds it shows when it is loaded again, and
    /// until then each call is refused.
    #[error("the disk has failed")]
    Disk,
    /// The journal's file would be longer than 67,108,864 bytes; nothing has changed.
    #[error("the journal is full")]
    Full,
    /// The disk failed in an earlier call; this was its count of faults then.
    #[error("the node is closed since fault {0}")]
    Closed(u64),
}

/// Why a node wasn't loaded.
#[derive(Clone, Copy, Debug, PartialEq, Eq, Error)]
pub enum LoadFault {
    #[error("out of memory")]
    Memory,
    /// The disk has failed in this call.
    #[error("the disk has failed")]
    Disk,
    /// The file is no journal's, which shows at this place, in bytes.
    #[error("no journal at {0}")]
    NotAJournal(u64),
    /// The journal is that of the node with this number.
    #[error("the journal of node {0}")]
    OtherNode(u32),
    /// The journal is that of a node with another base of its addresses.
    #[error("the journal of a node with another base")]
    OtherBase,
    /// No step keeps the record with this number, from 0; the first is to be the node's own.
    #[error("no history from record {0} on")]
    BadHistory(u64),
}
