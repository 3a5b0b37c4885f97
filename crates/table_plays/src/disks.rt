//! Rows that show the disks that a play of a world hands out.

use crate::rows::script_bytes;
use ba_cmd_replay::replay;
use ba_core::{List, Octets};
use ba_ports_memory::{Out, Text};
use std::alloc::{AllocError, Global};

/// The disks that the replay of a script hands out, node by node, in hexadecimal digits, and how it ended.
pub fn disks_answer(alloc: Global, written: &str) -> Result<String, AllocError> {
    let bytes = Octets::of(script_bytes(alloc, written)?);
    let mut source = Text::of(bytes, 4096, List::new(alloc));
    let mut sink = Out::of(alloc, 1_000_000, List::new(alloc));
    let mut disks = List::new(alloc);
    let fault = replay(alloc, &mut source, &mut sink, &mut disks).err();
    let mut out = String::new(alloc);
    let mut node = 0u32;
    for disk in disks.as_slice() {
        node = node.saturating_add(1);
        write!(out, "  disk {node} ")?;
        for byte in disk.bytes() {
            write!(out, "{byte:02x}")?;
        }
        out.push_str("\n")?;
    }
    match fault {
        None => out.push_str("  => done\n")?,
        Some(fault) => write!(out, "  => {fault}\n")?,
    }
    Ok(out)
}
