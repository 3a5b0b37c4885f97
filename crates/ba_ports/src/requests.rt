//! The calls of a disk, as its definitions speak of them.

use ba_core::Octets;

/// A call of a disk, with its arguments. Places and lengths are in bytes.
#[derive(Debug, Drop, PartialEq)]
pub enum Request {
    Len,
    ReadAt { place: u64, room: u64 },
    WriteAt { place: u64, bytes: Octets },
    Cut { len: u64 },
    Sync,
}

/// A call that was made, and whether it answered that it failed.
#[derive(Debug, Drop, PartialEq)]
pub struct Call {
    pub request: Request,
    pub failed: bool,
}
