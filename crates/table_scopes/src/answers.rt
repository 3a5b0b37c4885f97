//! The answers to rows, and how answers are written.

use crate::scopes::scope_of;
use crate::steps::put_steps;
use ba_core::{Notice, name_of};
use ba_scope::Said;
use std::alloc::{AllocError, Global};

/// The answer to a row.
pub fn answer(alloc: Global, row: &str) -> Result<String, AllocError> {
    let mut out = String::new(alloc);
    match row.split_once(": ") {
        None => out.push_str("no row")?,
        Some((made, steps)) => put_row(alloc, made, steps, &mut out)?,
    }
    Ok(out)
}

/// Makes a scope, and appends what each step on it answers.
fn put_row(alloc: Global, made: &str, steps: &str, out: &mut String) -> Result<(), AllocError> {
    match scope_of(alloc, made)? {
        None => out.push_str("no scope"),
        Some(mut scope) => put_steps(alloc, &mut scope, steps, out),
    }
}

/// Appends what a call says.
pub fn put_said(said: Said, out: &mut String) -> Result<(), AllocError> {
    match said {
        Said::Ok => out.push_str("ok"),
        Said::No(number, id) => write!(out, "{number} {id}"),
    }
}

/// Appends the name of a notice, or that there is none.
pub fn put_notice(notice: Option<Notice>, out: &mut String) -> Result<(), AllocError> {
    let name = match notice {
        None => b"-".as_slice(),
        Some(notice) => name_of(notice),
    };
    for byte in name {
        out.push(char::from(*byte))?;
    }
    Ok(())
}
