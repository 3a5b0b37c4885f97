//! Numbers and identifiers.

use ba_core::{Id, number_of};
use std::alloc::AllocError;

/// Appends the number that digits write.
pub fn put_number(digits: &str, out: &mut String) -> Result<(), AllocError> {
    match number_of(digits.as_bytes()) {
        None => out.push('-'),
        Some(number) => write!(out, "{number}"),
    }
}

/// Appends the parts of an identifier that is written with a dot, and how it is written again.
pub fn put_written_id(text: &str, out: &mut String) -> Result<(), AllocError> {
    match Id::of_text(text.as_bytes()) {
        None => out.push('-'),
        Some(id) => {
            put_parts(id, out)?;
            write!(out, " {id}")
        }
    }
}

/// Appends the number of an object, which is named by its node and its counter, and its parts.
pub fn put_object(numbers: &str, out: &mut String) -> Result<(), AllocError> {
    match object_in(numbers) {
        None => out.push('-'),
        Some(id) => {
            write!(out, "{} ", id.0)?;
            put_parts(id, out)
        }
    }
}

/// The identifier of the object with this number of its node and this counter.
fn object_in(numbers: &str) -> Option<Id> {
    let (node, counter) = numbers.split_once(' ')?;
    Some(Id::of(node.parse::<u32>().ok()?, counter.parse::<u64>().ok()?))
}

/// Appends the number of a message, and its parts.
pub fn put_message(number: &str, out: &mut String) -> Result<(), AllocError> {
    match number.parse::<u128>() {
        Err(_) => out.push('-'),
        Ok(number) => {
            write!(out, "{number} ")?;
            put_parts(Id(number), out)
        }
    }
}

/// Appends the parts of an identifier.
fn put_parts(id: Id, out: &mut String) -> Result<(), AllocError> {
    let node = id.node();
    let counter = id.counter();
    let code = id.code();
    write!(out, "node {node} counter {counter} code {code}")
}
