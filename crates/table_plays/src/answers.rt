//! The answers to rows.

use crate::rows::{Condition, condition_of, script_bytes};
use crate::runs::{Run, run_of};
use std::alloc::{AllocError, Global};

/// The answer to a row that holds a script.
pub fn row_answer(alloc: Global, row: &str) -> Result<String, AllocError> {
    let (condition, written) = condition_of(row);
    let script = script_bytes(alloc, written)?;
    match condition {
        Condition::Nothing => answer_in_any_pieces(alloc, script.as_slice()),
        _ => answer_of(alloc, &run_of(alloc, script.as_slice(), 7, condition)?),
    }
}

/// The answer of a script that is read in pieces of one byte, of seven, and whole.
fn answer_in_any_pieces(alloc: Global, script: &[u8]) -> Result<String, AllocError> {
    let whole = run_of(alloc, script, script.len(), Condition::Nothing)?;
    for piece in [1, 7] {
        if run_of(alloc, script, piece, Condition::Nothing)? != whole {
            return format!(in alloc; "  => another answer in pieces of {piece}\n");
        }
    }
    answer_of(alloc, &whole)
}

/// The answer of an example, and of what has to be printed for it.
pub fn example_answer(alloc: Global, script: &[u8], due: &[u8]) -> Result<String, AllocError> {
    let whole = run_of(alloc, script, script.len(), Condition::Nothing)?;
    if whole.printed.as_slice() != due {
        return answer_of(alloc, &whole);
    }
    let mut out = String::from_str(alloc, "  as it has to\n")?;
    put_end(&whole, &mut out)?;
    Ok(out)
}

/// The printed lines of a replay, and how it ended.
fn answer_of(alloc: Global, done: &Run) -> Result<String, AllocError> {
    let mut out = String::new(alloc);
    let Ok(printed) = str::from_utf8(done.printed.as_slice()) else {
        return String::from_str(alloc, "  => no text\n");
    };
    for line in printed.lines() {
        write!(out, "  {line}\n")?;
    }
    put_end(done, &mut out)?;
    Ok(out)
}

/// Appends how a replay ended.
fn put_end(done: &Run, out: &mut String) -> Result<(), AllocError> {
    match done.fault {
        None => out.push_str("  => done\n"),
        Some(fault) => write!(out, "  => {fault}\n"),
    }
}
