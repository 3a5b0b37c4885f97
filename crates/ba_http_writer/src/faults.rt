//! Why a message wasn't written.

use thiserror::Error;

/// Why a request or a response wasn't written.
#[derive(Clone, Copy, Debug, PartialEq, Eq, Error)]
pub enum WriteFault {
    #[error("out of memory")]
    Memory,
    #[error("the connection can't be written")]
    Write,
}
