//! Bytes and files as the table shows them.

use ba_core::List;
use ba_ports::Image;
use ba_ports_memory::MemDisk;
use rows_of_trees::put_bytes;
use std::alloc::{AllocError, Global};

/// What a stop may leave, in the order of the answers.
pub const IMAGES: [Image; 4] = [Image::Old, Image::New, Image::Filled, Image::Half];

/// Appends what a file holds, or how long it is.
pub fn put_file(file: &[u8], out: &mut String) -> Result<(), AllocError> {
    if file.len() > 500 {
        return write!(out, "{} bytes", file.len());
    }
    put_bytes(file, out)
}

/// A disk that holds a file.
pub fn disk_of(alloc: Global, file: &[u8]) -> Result<MemDisk, AllocError> {
    Ok(MemDisk::of(alloc, List::of(Vec::from_slice(alloc, file)?)))
}
