//! What a stop leaves on a disk in memory.

use crate::shown::{IMAGES, disk_of};
use ba_ports::{Disk, Failed, Faulty, Image};
use ba_ports_memory::MemDisk;
use rows_of_bytes::bytes_of;
use rows_of_trees::put_bytes;
use std::alloc::{AllocError, Global};

/// What a row has a disk do, whose last call a stop meets.
#[derive(Clone, Copy)]
enum Work<'a> {
    /// A write of this at a place.
    Write(u64, &'a str),
    /// A write of this at the end, and a cut to a length.
    AppendAndCut(&'a str, u64),
}

/// A row's bytes, and what is done.
fn work_in<'a>(written: &'a str) -> Option<(&'a str, Work<'a>)> {
    if let Some((held, rest)) = written.split_once(" write ") {
        let (place, piece) = rest.split_once(' ')?;
        return Some((held, Work::Write(place.parse::<u64>().ok()?, piece)));
    }
    let (held, rest) = written.split_once(" append ")?;
    let (piece, length) = rest.split_once(" cut ")?;
    Some((held, Work::AppendAndCut(piece, length.parse::<u64>().ok()?)))
}

/// Appends what each image leaves where the machine stops at the last call of what is done.
pub fn put_left(alloc: Global, written: &str, out: &mut String) -> Result<(), AllocError> {
    match work_in(written) {
        None => out.push_str("no row"),
        Some((held, work)) => put_images(alloc, bytes_of(alloc, held)?.as_slice(), work, out),
    }
}

/// Appends what each image leaves.
fn put_images(alloc: Global, held: &[u8], work: Work, out: &mut String) -> Result<(), AllocError> {
    match work {
        Work::Write(place, piece) => {
            let piece = bytes_of(alloc, piece)?;
            for image in IMAGES {
                let mut disk = stopping(alloc, held, 1, image)?;
                let answer = write(&mut disk, place, piece.as_slice());
                put_restarted(&mut disk, answer, out)?;
            }
        }
        Work::AppendAndCut(piece, length) => {
            let piece = bytes_of(alloc, piece)?;
            for image in IMAGES {
                let mut disk = stopping(alloc, held, 2, image)?;
                let answer = append_and_cut(&mut disk, piece.as_slice(), length);
                put_restarted(&mut disk, answer, out)?;
            }
        }
    }
    Ok(())
}

/// A disk that holds these bytes, whose machine stops at a call.
fn stopping(alloc: Global, held: &[u8], call: u32, image: Image) -> Result<MemDisk, AllocError> {
    let mut disk = disk_of(alloc, held)?;
    disk.stop_next(call, image);
    Ok(disk)
}

/// Writes a piece, where the file reaches its place.
fn write<D: Disk>(disk: &mut D, place: u64, piece: &[u8]) -> Result<(), Failed> {
    if place > disk.len()? {
        return Err(Failed);
    }
    disk.write_at(place, piece)
}

/// Writes a piece at the end, and cuts the file, where it is as long. Only the cut may fail.
fn append_and_cut<D: Disk>(disk: &mut D, piece: &[u8], length: u64) -> Result<(), Failed> {
    let end = disk.len()?;
    if disk.write_at(end, piece).is_err() || length > disk.len()? {
        return Ok(());
    }
    disk.cut(length)
}

/// Appends what a disk holds when it has been started again, where the last call has failed and the machine had stopped.
fn put_restarted(
    disk: &mut MemDisk,
    answer: Result<(), Failed>,
    out: &mut String,
) -> Result<(), AllocError> {
    if answer.is_ok() || !disk.stopped() || disk.sync().is_ok() {
        out.push_str("not stopped ")?;
    }
    disk.restart();
    out.push('"')?;
    put_bytes(disk.bytes(), out)?;
    out.push_str("\" ")
}
