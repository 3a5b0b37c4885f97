//! The lines of a listing, put behind other bytes.
ghost use Rattle.std.specs.Prelude.{◌≡◌, ℕ, ◌++◌, [], take, OnOk, OnErr, IfOk};
ghost use Rattle.ba_cmd_journal.specs.Listing.{line_text, lines_from, closing_line, records_of, listing};

use crate::words::{put_counted, put_number, put_record};
use ba_core::{List, Memory, Octets};
use ba_journal::Scan;
use ba_record::Record;
use std::alloc::Global;

// The bytes that a new line has room for.
const ROOM: usize = 128;

/// Puts the whole listing last. After `Memory` the lines of the first records, none or more, were put.
pub fn list(alloc: Global, scan: &Scan, out: &mut Octets) -> Result<(), Memory>
    ensures ok { OnOk result (out.new ≡ out.old ++ listing scan.now) }
    ensures err { OnErr result ((count : ℕ) × (out.new ≡ out.old ++ lines_from 0 (take count (records_of scan.now)))) }
{
    put_lines(alloc, found_in(scan), out)?;
    put_end(alloc, scan, out)
}

/// Puts the line of the record with this index, from 0, last. After `Memory` nothing has changed.
pub fn put_line(alloc: Global, index: u64, r: &Record, out: &mut Octets) -> Result<(), Memory>
    ensures ok { OnOk result (out.new ≡ out.old ++ line_text index r.now) }
    ensures err { OnErr result (out.new ≡ out.old) }
{
    let mut line = new_line(alloc)?;
    put_number(&mut line, index)?;
    line.append(b" ")?;
    put_record(&mut line, r)?;
    line.append(b"\n")?;
    out.append(line.as_slice())
}

/// Puts the last line of the listing last. After `Memory` nothing has changed.
pub fn put_end(alloc: Global, scan: &Scan, out: &mut Octets) -> Result<(), Memory>
    ensures ok { OnOk result (out.new ≡ out.old ++ closing_line scan.now) }
    ensures err { OnErr result (out.new ≡ out.old) }
{
    match scan {
        Scan::Fresh => out.append(b"fresh\n"),
        Scan::Found { end, tail, .. } => {
            let mut line = new_line(alloc)?;
            put_counted(&mut line, b"end at ", *end)?;
            put_counted(&mut line, b" tail ", *tail)?;
            line.append(b"\n")?;
            out.append(line.as_slice())
        }
    }
}

// The records that were found, none in a fresh file.
fn found_in(scan: &Scan) -> &[Record]
    ensures { result.now ≡ records_of scan.now }
{
    match scan {
        Scan::Fresh => &[],
        Scan::Found { records, .. } => records.as_slice(),
    }
}

fn put_lines(alloc: Global, records: &[Record], out: &mut Octets) -> Result<(), Memory>
    ensures ok { OnOk result (out.new ≡ out.old ++ lines_from 0 records.now) }
    ensures err { OnErr result ((count : ℕ) × (out.new ≡ out.old ++ lines_from 0 (take count records.now))) }
{
    for (index, record) in records.iter().enumerate() {
        put_line(alloc, index as u64, record, out)?;
    }
    Ok(())
}

fn new_line(alloc: Global) -> Result<Octets, Memory>
    ensures { IfOk result (λ line. line ≡ []) }
{
    match Vec::with_capacity(alloc, ROOM) {
        Ok(bytes) => Ok(List::of(bytes)),
        Err(_) => Err(Memory),
    }
}
