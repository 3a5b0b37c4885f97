//! Why a journal's call didn't do its work.

use thiserror::Error;

/// Why a journal's call didn't do its work.
#[derive(Clone, Copy, Debug, PartialEq, Eq, Error)]
pub enum JournalFault {
    #[error("out of memory")]
    Memory,
    /// The disk has failed in this call.
    #[error("the disk has failed")]
    Disk,
    /// The file is no journal's, which shows at this place, in bytes.
    #[error("no journal at {0}")]
    NotAJournal(u64),
    /// The file would be longer than 67,108,864 bytes.
    #[error("the journal is full")]
    Full,
    /// The disk has failed in an earlier call of this journal; this was its count of faults then.
    #[error("the journal is closed since fault {0}")]
    Closed(u64),
}
