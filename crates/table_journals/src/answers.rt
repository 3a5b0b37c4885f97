//! The answers to rows.

use crate::{appends, disks, listings, loads, records};
use rows_of_bytes::bytes_of;
use std::alloc::{AllocError, Global};

/// The answer to a row.
pub fn answer(alloc: Global, row: &str) -> Result<String, AllocError> {
    let mut out = String::new(alloc);
    if let Some(written) = row.strip_prefix("disk ") {
        disks::put_left(alloc, written, &mut out)?;
    } else {
        put_answer(alloc, row, &mut out)?;
    }
    Ok(out)
}

/// Appends the answer to a row that writes bytes after its form.
fn put_answer(alloc: Global, row: &str, out: &mut String) -> Result<(), AllocError> {
    if let Some(written) = row.strip_prefix("scan ") {
        listings::put_listing(alloc, bytes_of(alloc, written)?.as_slice(), out)
    } else if let Some(written) = row.strip_prefix("load stopped ") {
        loads::put_stopped(alloc, bytes_of(alloc, written)?.as_slice(), out)
    } else if let Some(written) = row.strip_prefix("load ") {
        loads::put_load(alloc, bytes_of(alloc, written)?.as_slice(), out)
    } else if let Some(written) = row.strip_prefix("append stopped ") {
        appends::put_stopped(alloc, bytes_of(alloc, written)?.as_slice(), out)
    } else if let Some(written) = row.strip_prefix("append failed ") {
        appends::put_failed(alloc, bytes_of(alloc, written)?.as_slice(), out)
    } else if let Some(written) = row.strip_prefix("append ") {
        appends::put_append(alloc, bytes_of(alloc, written)?.as_slice(), out)
    } else if let Some(written) = row.strip_prefix("record ") {
        records::put_reading(alloc, bytes_of(alloc, written)?.as_slice(), out)
    } else if let Some(written) = row.strip_prefix("cuts ") {
        records::put_cuts(alloc, bytes_of(alloc, written)?.as_slice(), out)
    } else {
        out.push_str("no row")
    }
}
