//! What a scan finds in a file.

use ba_cmd_journal::{ListFault, journal, list};
use ba_core::{List, Octets};
use ba_journal::{ScanFault, scan};
use ba_ports_memory::{Out, Text};
use std::alloc::{AllocError, Global};

/// Appends the listing of a file, which the command has to print too, or why there is none.
pub fn put_listing(alloc: Global, file: &[u8], out: &mut String) -> Result<(), AllocError> {
    match scan(alloc, file) {
        Err(ScanFault::Memory) => Err(AllocError),
        Err(fault) => write!(out, "{fault}"),
        Ok(found) => {
            let mut listing = List::new(alloc);
            if list(alloc, &found, &mut listing).is_err() {
                return Err(AllocError);
            }
            put_compared(alloc, file, &listing, out)
        }
    }
}

/// Appends a listing, and that the command prints another where it does.
fn put_compared(
    alloc: Global,
    file: &[u8],
    listing: &Octets,
    out: &mut String,
) -> Result<(), AllocError> {
    put_lines(listing.as_slice(), out)?;
    let bytes = Vec::from_slice(alloc, file)?;
    let mut source = Text::of(List::of(bytes), 7, List::new(alloc));
    let mut sink = Out::of(alloc, 1_000_000_000, List::new(alloc));
    match journal(alloc, &mut source, &mut sink) {
        Ok(()) if sink.bytes() == listing.as_slice() => Ok(()),
        Ok(()) => out.push_str(" but not by the command"),
        Err(_) => out.push_str(" but not by the command, which fails"),
    }
}

/// Appends lines, which end at semicolons, or how many bytes they have.
fn put_lines(lines: &[u8], out: &mut String) -> Result<(), AllocError> {
    if lines.len() > 2000 {
        return write!(out, "{} bytes", lines.len());
    }
    for byte in lines {
        match *byte {
            b'\n' => out.push(';')?,
            byte => out.push(char::from(byte))?,
        }
    }
    Ok(())
}
