//! Loads of files in memory, where every call goes well or the machine stops at one.

use crate::shown::{IMAGES, disk_of, put_file};
use ba_journal::{Journal, JournalFault};
use ba_ports::{Faulty, Image};
use ba_ports_memory::MemDisk;
use std::alloc::{AllocError, Global};

/// How many records a load has found, or its fault; and the disk.
#[derive(Drop)]
struct Loaded {
    records: Result<usize, JournalFault>,
    disk: MemDisk,
}

/// Loads the journal on a disk.
fn load(alloc: Global, disk: MemDisk) -> Loaded {
    match Journal::load(alloc, disk) {
        Ok((journal, records)) => Loaded {
            records: Ok(records.len()),
            disk: journal.into_disk(),
        },
        Err((disk, fault)) => Loaded {
            records: Err(fault),
            disk,
        },
    }
}

/// Appends what a load finds in a file.
pub fn put_load(alloc: Global, file: &[u8], out: &mut String) -> Result<(), AllocError> {
    put_loaded(&load(alloc, disk_of(alloc, file)?), out)
}

/// Appends what a load has found.
fn put_loaded(loaded: &Loaded, out: &mut String) -> Result<(), AllocError> {
    match loaded.records {
        Ok(records) => write!(out, "{records} records, ")?,
        Err(JournalFault::Memory) => return Err(AllocError),
        Err(fault) => write!(out, "{fault}, ")?,
    }
    put_file(loaded.disk.bytes(), out)
}

/// Appends how many calls a load has at which the machine may stop, and what is loaded after any of these stops.
pub fn put_stopped(alloc: Global, file: &[u8], out: &mut String) -> Result<(), AllocError> {
    let whole = load(alloc, disk_of(alloc, file)?);
    for call in 1..100 {
        match stop_at(alloc, file, call, &whole)? {
            Stop::Another(image) => {
                write!(out, "another file after a stop at {call}, {image:?}: ")?;
            }
            Stop::Same => {}
            Stop::Past => {
                write!(out, "{} calls, ", call.saturating_sub(1))?;
                return put_loaded(&whole, out);
            }
        }
    }
    out.push_str("more than 100 calls")
}

/// What comes of a stop.
enum Stop {
    /// The load had ended before.
    Past,
    /// The same is loaded afterwards, whatever the stop leaves.
    Same,
    /// The load answers no failure of the disk, or another is loaded where the stop leaves this.
    Another(Image),
}

/// Stops a load at a call with each image, and compares what is loaded afterwards with what is loaded at once.
fn stop_at(alloc: Global, file: &[u8], call: u32, whole: &Loaded) -> Result<Stop, AllocError> {
    for image in IMAGES {
        let mut disk = disk_of(alloc, file)?;
        disk.stop_next(call, image);
        let mut stopped = load(alloc, disk);
        if !stopped.disk.stopped() {
            return Ok(Stop::Past);
        }
        if stopped.records != Err(JournalFault::Disk) {
            return Ok(Stop::Another(image));
        }
        stopped.disk.restart();
        let again = load(alloc, stopped.disk);
        if again.records != whole.records || again.disk.bytes() != whole.disk.bytes() {
            return Ok(Stop::Another(image));
        }
    }
    Ok(Stop::Same)
}
