//! Why a replay ended early.

use thiserror::Error;

/// Why a replay ended early. Its text is the note of a command that ended so.
#[derive(Clone, Copy, Debug, PartialEq, Eq, Error)]
pub enum ReplayFault {
    #[error("memory")]
    Memory,
    #[error("read")]
    Read,
    #[error("write")]
    Write,
    /// The first line that no script has there, and the column, from 1, of its first word that no form allows; one
    /// past its end where a word is missing, and 257 where the line is too long.
    #[error("line {0} column {1}")]
    BadLine(u32, u32),
    #[error("limit")]
    TooManyLines,
    /// The event of this line names a node that the world hasn't, or a scope that isn't there.
    #[error("line {0} no such name")]
    NoSuchName(u32),
    /// The event of this line names a message that isn't in the bag.
    #[error("line {0} no such message")]
    NoSuchMessage(u32),
}
