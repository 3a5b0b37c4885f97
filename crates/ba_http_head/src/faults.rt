//! Why a message wasn't read.

use thiserror::Error;

/// Why a request or a reply wasn't read. A place is the number of bytes before it: in the message for a head, in
/// the body's transfer for chunks.
#[derive(Clone, Copy, Debug, PartialEq, Eq, Error)]
pub enum HttpFault {
    #[error("out of memory")]
    Memory,
    #[error("the line at {0} is of no head")]
    BadHead(u64),
    #[error("the head says no length, or more than one")]
    Length,
    #[error("a limit is passed")]
    TooLarge,
    #[error("the byte at {0} is of no body in chunks")]
    BadChunk(u64),
    #[error("the input ends inside")]
    Truncated,
    #[error("the connection can't be read")]
    Read,
}
