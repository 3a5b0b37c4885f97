//! What a journal's file is found to hold.

use ba_core::List;
use ba_record::Record;
use thiserror::Error;

/// What a file holds.
#[derive(Debug, Drop)]
pub enum Scan {
    /// Nothing yet: no journal was made here, or its making broke off.
    Fresh,
    /// The records of the frames that count; the place where reading stopped, which is that of a gate; and
    /// how many bytes stand behind that gate. Both are in bytes.
    Found {
        records: List<Record>,
        end: u64,
        tail: u64,
    },
}

/// Why a file is no journal's.
#[derive(Clone, Copy, Debug, PartialEq, Eq, Error)]
pub enum ScanFault {
    #[error("out of memory")]
    Memory,
    /// The place of the first byte of the header that is another, or where the payload of a frame that counts
    /// stops being a record.
    #[error("no journal at {0}")]
    NotAJournal(u64),
}
