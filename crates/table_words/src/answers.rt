//! The answers to rows.

use crate::{numbers, words};
use std::alloc::{AllocError, Global};

/// The answer to a row.
pub fn answer(alloc: Global, row: &str) -> Result<String, AllocError> {
    let mut out = String::new(alloc);
    match row.split_once(' ') {
        Some((form, word)) => put_answer(alloc, form, word, &mut out)?,
        None => out.push_str("no row")?,
    }
    Ok(out)
}

/// Appends the answer to a row of this form.
fn put_answer(alloc: Global, form: &str, word: &str, out: &mut String) -> Result<(), AllocError> {
    if form == "number" {
        numbers::put_number(word, out)
    } else if form == "id" {
        numbers::put_written_id(word, out)
    } else if form == "object" {
        numbers::put_object(word, out)
    } else if form == "message" {
        numbers::put_message(word, out)
    } else if form == "octets" {
        words::put_octets(alloc, word, out)
    } else {
        words::put_word(form, word, out)
    }
}
