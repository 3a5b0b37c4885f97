//! What bytes are read as, where they are a record.
ghost use Rattle.ba_record.specs.Coding.{InRange};

use ba_cmd_journal::put_line;
use ba_core::List;
use ba_message::Epr;
use ba_record::{Record, RecordFault, get, put, size_of};
use rows_of_trees::{put_bytes, put_tree};
use std::alloc::{AllocError, Global};

/// Appends the record that these bytes are, or why they are none.
pub fn put_reading(alloc: Global, bytes: &[u8], out: &mut String) -> Result<(), AllocError> {
    match get(alloc, bytes) {
        Err(RecordFault::Memory) => Err(AllocError),
        Err(fault) => write!(out, "{fault}"),
        Ok(record) => {
            put_words(alloc, &record, out)?;
            put_again(alloc, &record, bytes, out)?;
            put_parameters(&record, out)
        }
    }
}

/// Appends the line of a record, without its index and its end.
fn put_words(alloc: Global, record: &Record, out: &mut String) -> Result<(), AllocError> {
    let mut line = List::new(alloc);
    if put_line(alloc, 0, record, &mut line).is_err() {
        return Err(AllocError);
    }
    let words = line.as_slice().strip_prefix(b"0 ").unwrap_or(b"no line");
    put_bytes(words.strip_suffix(b"\n").unwrap_or(words), out)
}

/// Appends the size of a record, and its bytes where they aren't those that were read.
fn put_again(alloc: Global, r: &Record, read: &[u8], out: &mut String) -> Result<(), AllocError>
    requires { InRange r.now }
{
    write!(out, " in {} bytes", size_of(r))?;
    let mut bytes = List::new(alloc);
    if put(alloc, r, &mut bytes).is_err() {
        return Err(AllocError);
    }
    if bytes.as_slice() == read {
        return Ok(());
    }
    out.push_str(", written as ")?;
    put_bytes(bytes.as_slice(), out)
}

/// Appends the reference parameters of a record's endpoint.
fn put_parameters(record: &Record, out: &mut String) -> Result<(), AllocError> {
    match record {
        Record::Scope(_, _, _, Some((_, endpoint)))
        | Record::End(_, _, _, endpoint)
        | Record::Part(_, _, endpoint)
        | Record::Enrolled(_, endpoint) => put_endpoint_parameters(endpoint, out),
        _ => Ok(()),
    }
}

/// Appends the reference parameters of an endpoint.
fn put_endpoint_parameters(endpoint: &Epr, out: &mut String) -> Result<(), AllocError> {
    for parameter in endpoint.parameters.as_slice() {
        out.push(' ')?;
        put_tree(parameter, out)?;
    }
    Ok(())
}

/// Appends how many prefixes of some bytes end too early at their ends, before the first that doesn't.
pub fn put_cuts(alloc: Global, bytes: &[u8], out: &mut String) -> Result<(), AllocError> {
    let cuts = short_cuts(alloc, bytes)?;
    write!(out, "{cuts}")
}

/// How many prefixes of some bytes end too early at their ends, before the first that doesn't.
fn short_cuts(alloc: Global, bytes: &[u8]) -> Result<usize, AllocError> {
    for cut in 0..bytes.len() {
        if !is_short(alloc, &bytes[..cut])? {
            return Ok(cut);
        }
    }
    Ok(bytes.len())
}

/// Whether bytes are no record since they end too early, at their end.
fn is_short(alloc: Global, bytes: &[u8]) -> Result<bool, AllocError> {
    match get(alloc, bytes) {
        Ok(_) => Ok(false),
        Err(RecordFault::Memory) => Err(AllocError),
        Err(fault) => Ok(fault == RecordFault::Short(bytes.len() as u64)),
    }
}
