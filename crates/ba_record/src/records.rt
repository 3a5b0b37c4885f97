//! What a node keeps in its journal, one record for each step.
use ba_core::{Act, Kind, Notice, Octets, Protocol, Verdict};
use ba_message::Epr;
use thiserror::Error;

/// One step of a node. A counter is the number of a scope, an end or a part among the objects of its
/// node, from 1.
#[derive(Debug, Drop)]
pub enum Record {
    /// The node itself: its number from 1, and the base of its addresses, which has no path.
    Node(u32, Octets),
    /// A scope was made: its counter, kind and deadline in milliseconds, and for a child the protocol and
    /// the registration of its upward part, which has the next counter.
    Scope(u64, Kind, Option<u64>, Option<(Protocol, Epr)>),
    /// A participant was enrolled: the end's counter, its scope's, the protocol and the participant.
    End(u64, u64, Protocol, Epr),
    /// A part was made that registers: its counter, its protocol and where it registers.
    Part(u64, Protocol, Epr),
    /// A part was enrolled: its counter and its coordinator.
    Enrolled(u64, Epr),
    /// A part was refused: its counter, and 1 for CannotRegisterParticipant or 2 for InvalidProtocol.
    Refused(u64, u8),
    /// An end or a part received a notice other than Status.
    Received(u64, Notice),
    /// The work of a part came to this; for an upward part, its scope finished or left.
    Acted(u64, Act),
    /// A scope was decided.
    Decided(u64, Verdict),
    /// The choice for an end by itself was recorded: 1 to close, 2 to undo, 3 to complete.
    Chosen(u64, u8),
    /// A scope's deadline passed, or a tick changed an end or a part.
    Ticked(u64),
    /// The other side of an end or a part was asked for its state.
    Asked(u64),
}

/// Why bytes are no record.
#[derive(Clone, Copy, Debug, PartialEq, Eq, Error)]
pub enum RecordFault {
    #[error("out of memory")]
    Memory,
    /// The first byte is the number of no kind.
    #[error("no kind of record")]
    BadKind,
    /// The first byte of the first field that is outside its range, or of what is left over.
    #[error("bad at {0}")]
    BadField(u64),
    /// The bytes end inside a field, at their length.
    #[error("short at {0}")]
    Short(u64),
}
