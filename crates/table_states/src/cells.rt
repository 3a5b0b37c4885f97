//! What the tables of both sides have in common: how cells are written.

use ba_core::{Notice, Protocol, name_of};
use std::alloc::AllocError;
use std::fmt::Display;

/// The protocol's mark.
pub fn mark(protocol: Protocol) -> &'static str {
    match protocol {
        Protocol::Pc => "Pc",
        Protocol::Cc => "Cc",
    }
}

/// Appends the cell of a row that leads from a state to the next.
pub fn put_move<S: Copy + Display + PartialEq>(
    state: S,
    next: S,
    prompt: bool,
    out: &mut String,
) -> Result<(), AllocError> {
    match (next == state, prompt) {
        (true, true) => out.push_str(" again |"),
        (true, false) => out.push_str(" stay |"),
        (false, true) => write!(out, " {next} |"),
        (false, false) => write!(out, " {next} silently |"),
    }
}

/// Appends the cell of what may be done in a state, and leads to the next.
pub fn put_choice<S: Copy + Display + PartialEq>(
    state: S,
    next: Option<S>,
    out: &mut String,
) -> Result<(), AllocError> {
    match next {
        None => out.push_str(" - |"),
        Some(next) if next == state => out.push_str(" stay |"),
        Some(next) => write!(out, " {next} |"),
    }
}

/// Appends the name of a notice, or that there is none.
pub fn put_notice(notice: Option<Notice>, out: &mut String) -> Result<(), AllocError> {
    let name = match notice {
        None => b"-".as_slice(),
        Some(notice) => name_of(notice),
    };
    for byte in name {
        out.push(char::from(*byte))?;
    }
    Ok(())
}
