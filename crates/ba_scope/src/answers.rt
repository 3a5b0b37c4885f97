//! What a scope answers.

use ba_core::Id;
use thiserror::Error;

/// How many ends a scope may have.
pub const MOST_ENDS: u32 = 256;

/// An answer: done, or the number of a refusal and the object that shows it.
#[derive(Clone, Copy, Debug, PartialEq, Eq)]
pub enum Said {
    Ok,
    No(u8, Id),
}

/// What a scope came to, each of whose ends is Ended.
#[derive(Clone, Copy, Debug, PartialEq, Eq)]
pub struct Drained {
    pub any_failed: bool,
}

/// Why a participant isn't enrolled.
#[derive(Clone, Copy, Debug, PartialEq, Eq, Error)]
pub enum EnrolFault {
    /// The scope's own participant isn't enrolled above yet.
    #[error("the scope isn't enrolled itself yet")]
    NotYetEnrolled,
    /// The scope takes no new end any more.
    #[error("the scope takes no new end")]
    Sealed,
    /// The scope has as many ends as it may have.
    #[error("the scope is full")]
    Full,
}
