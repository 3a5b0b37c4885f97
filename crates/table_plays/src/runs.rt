//! The replay of a script in memory.

use crate::rows::Condition;
use ba_cmd_replay::{ReplayFault, replay};
use ba_core::{List, Octets};
use ba_ports_memory::{Out, Text};
use std::alloc::{AllocError, Global};

/// What a replay printed, and why it ended early.
#[derive(Debug, Drop, PartialEq, Eq)]
pub struct Run {
    pub printed: Vec<u8>,
    pub fault: Option<ReplayFault>,
}

/// Replays a script, read in pieces of so many bytes, under a condition.
pub fn run_of(
    alloc: Global,
    script: &[u8],
    piece: usize,
    condition: Condition,
) -> Result<Run, AllocError> {
    let (failing_read, failing_write, room) = match condition {
        Condition::Nothing => (0, 0, 1_000_000),
        Condition::ReadFails(number) => (number, 0, 1_000_000),
        Condition::WriteFails(number) => (0, number, 1_000_000),
        Condition::Room(bytes) => (0, 0, bytes),
    };
    let bytes = Octets::of(Vec::from_slice(alloc, script)?);
    let mut source = Text::of(bytes, piece.max(1), only(alloc, failing_read)?);
    let mut sink = Out::of(alloc, room, only(alloc, failing_write)?);
    let mut disks = List::new(alloc);
    let fault = replay(alloc, &mut source, &mut sink, &mut disks).err();
    Ok(Run {
        printed: Vec::from_slice(alloc, sink.bytes())?,
        fault,
    })
}

/// The list of this number alone.
fn only(alloc: Global, number: u64) -> Result<List<u64>, AllocError> {
    Ok(List::of(vec![in alloc; number]?))
}
