//! The answers to rows.

use crate::rows::bytes_of;
use crate::{contexts, endpoints, envelopes, exchanges};
use std::alloc::{AllocError, Global};

/// The answer to a row.
pub fn answer(alloc: Global, row: &str) -> Result<String, AllocError> {
    let mut out = String::new(alloc);
    match row.split_once(": ") {
        None => out.push_str("no row")?,
        Some((form, written)) => {
            let bytes = bytes_of(alloc, written)?;
            put_answer(alloc, form, bytes.as_slice(), &mut out)?;
        }
    }
    Ok(out)
}

/// Appends the answer to a row of a form about endpoints or contexts, or of another.
fn put_answer(
    alloc: Global,
    form: &str,
    written: &[u8],
    out: &mut String,
) -> Result<(), AllocError> {
    if form == "dial" {
        endpoints::put_dialable(written, out)
    } else if form == "size" {
        endpoints::put_size(alloc, written, out)
    } else if form == "fits" {
        endpoints::put_fit(alloc, written, out)
    } else if form == "equal" {
        endpoints::put_equality(alloc, written, out)
    } else if form == "copy" {
        contexts::put_copy(alloc, written, out)
    } else if form == "element" {
        contexts::put_read_back(alloc, written, out)
    } else {
        put_message_answer(alloc, form, written, out)
    }
}

/// Appends the answer to a row of a form about messages and what carries them.
fn put_message_answer(
    alloc: Global,
    form: &str,
    written: &[u8],
    out: &mut String,
) -> Result<(), AllocError> {
    if form == "route" {
        envelopes::put_route(alloc, written, out)
    } else if form == "notice" {
        envelopes::put_notice(alloc, written, out)
    } else if form == "message" {
        envelopes::put_message(alloc, written, out)
    } else if form == "action" {
        envelopes::put_action(alloc, written, out)
    } else if form == "text" {
        envelopes::put_element_text(alloc, written, out)
    } else if form == "check" {
        exchanges::put_check(alloc, written, out)
    } else if form == "response" {
        exchanges::put_response(alloc, written, out)
    } else if form == "request" {
        exchanges::put_request(alloc, written, out)
    } else {
        out.push_str("no row")
    }
}
