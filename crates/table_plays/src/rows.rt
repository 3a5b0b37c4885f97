//! The forms of rows, and how rows write bytes.

use rows_of_bytes::bytes_of;
use std::alloc::{AllocError, Global};

/// What happens to a replay from outside.
#[derive(Clone, Copy)]
pub enum Condition {
    Nothing,
    /// The source's read with this number fails.
    ReadFails(u64),
    /// The sink's write with this number fails.
    WriteFails(u64),
    /// The sink takes so many bytes.
    Room(u64),
}

/// A row's condition, and the script that follows it.
pub fn condition_of(row: &str) -> (Condition, &str) {
    match row.split_once(": ") {
        Some((before, script)) => match condition_in(before) {
            Some(condition) => (condition, script),
            None => (Condition::Nothing, row),
        },
        None => (Condition::Nothing, row),
    }
}

/// The condition that these words name.
fn condition_in(words: &str) -> Option<Condition> {
    if let Some(rest) = words.strip_prefix("read ") {
        let number = rest.strip_suffix(" fails")?;
        return Some(Condition::ReadFails(number.parse::<u64>().ok()?));
    }
    if let Some(rest) = words.strip_prefix("write ") {
        let number = rest.strip_suffix(" fails")?;
        return Some(Condition::WriteFails(number.parse::<u64>().ok()?));
    }
    let number = words.strip_prefix("room for ")?.strip_suffix(" bytes")?;
    Some(Condition::Room(number.parse::<u64>().ok()?))
}

/// The bytes of the script that a row writes, in which a semicolon ends a line.
pub fn script_bytes(alloc: Global, written: &str) -> Result<Vec<u8>, AllocError> {
    let mut bytes = bytes_of(alloc, written)?;
    for byte in bytes.iter_mut() {
        if *byte == b';' {
            *byte = b'\n';
        }
    }
    Ok(bytes)
}
