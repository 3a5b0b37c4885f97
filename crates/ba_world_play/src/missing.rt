//! What an event names, and the world hasn't.

use thiserror::Error;

/// What an event names, and the world hasn't.
#[derive(Clone, Copy, Debug, PartialEq, Eq, Error)]
pub enum Missing {
    /// The world has no node with this number, or the node has no such scope under which one is made, or where a
    /// participant is to register. The record of a step that is pending doesn't count.
    #[error("no such name")]
    Name,
    /// The bag has no message with this number.
    #[error("no such message")]
    Message,
}
