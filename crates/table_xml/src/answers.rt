//! The answers to rows.

use crate::rows::{Form, form_of};
use crate::shown::put_fault;
use ba_core::List;
use ba_tree::Tree;
use ba_xml::{Reason, XmlFault, read, writable, write};
use rows_of_bytes::bytes_of;
use rows_of_trees::{put_bytes, put_tree, shown_tree};
use std::alloc::{AllocError, Global};

/// What stands before the one text where that is put.
const BEFORE: &[u8] = b"<!-- before -->";

/// The answer to a row.
pub fn answer(alloc: Global, row: &str) -> Result<String, AllocError> {
    let (form, written) = form_of(row);
    let bytes = bytes_of(alloc, written)?;
    let mut out = String::new(alloc);
    match form {
        Form::Cuts => put_cuts(alloc, bytes.as_slice(), &mut out)?,
        Form::Tree => put_shown_tree(alloc, bytes.as_slice(), &mut out)?,
        Form::Text | Form::Write | Form::Size => {
            put_reading(alloc, bytes.as_slice(), form, &mut out)?;
        }
    }
    Ok(out)
}

/// Puts how many fronts of a text are truncated.
fn put_cuts(alloc: Global, text: &[u8], out: &mut String) -> Result<(), AllocError> {
    let cuts = truncated_cuts(alloc, text)?;
    write!(out, "{cuts}")
}

/// How many fronts of a text are refused as truncated at their ends, before the first that isn't.
fn truncated_cuts(alloc: Global, text: &[u8]) -> Result<usize, AllocError> {
    for cut in 0..text.len() {
        if !truncated(alloc, &text[..cut])? {
            return Ok(cut);
        }
    }
    Ok(text.len())
}

/// Whether a text is refused as truncated at its end.
fn truncated(alloc: Global, text: &[u8]) -> Result<bool, AllocError> {
    match read(alloc, text) {
        Ok(_) => Ok(false),
        Err(XmlFault::Memory) => Err(AllocError),
        Err(XmlFault::At { reason, place }) => {
            Ok(reason == Reason::Truncated && place == text.len() as u64)
        }
    }
}

/// Puts the length of the one text of a tree that a row shows.
fn put_shown_tree(alloc: Global, shown: &[u8], out: &mut String) -> Result<(), AllocError> {
    match shown_tree(alloc, shown)? {
        Some(tree) => put_written(alloc, &tree, Form::Size, out),
        None => out.push_str("no tree"),
    }
}

/// Puts what is read of a text, in the way of the row's form.
fn put_reading(alloc: Global, text: &[u8], form: Form, out: &mut String) -> Result<(), AllocError> {
    match read(alloc, text) {
        Ok(tree) => match form {
            Form::Text => put_tree(&tree, out),
            _ => put_written(alloc, &tree, form, out),
        },
        Err(fault) => put_fault(fault, out),
    }
}

/// Puts the one text of a tree that is writable. It has to leave what stood before it.
fn put_written(alloc: Global, tree: &Tree, form: Form, out: &mut String) -> Result<(), AllocError> {
    if !writable(tree) {
        return out.push_str("unwritable");
    }
    let mut written = List::of(Vec::from_slice(alloc, BEFORE)?);
    if write(alloc, tree, &mut written).is_err() {
        return Err(AllocError);
    }
    match written.as_slice().strip_prefix(BEFORE) {
        Some(text) => put_read_back(alloc, tree, text, form, out),
        None => out.push_str("what stood before has changed"),
    }
}

/// Puts the one text of a tree. It has to be read back as the tree.
fn put_read_back(
    alloc: Global,
    tree: &Tree,
    text: &[u8],
    form: Form,
    out: &mut String,
) -> Result<(), AllocError> {
    match read(alloc, text) {
        Ok(back) if back.equals(tree) => put_one_text(text, form, out),
        Ok(_) => out.push_str("read back as another tree"),
        Err(fault) => {
            out.push_str("not read back: ")?;
            put_fault(fault, out)
        }
    }
}

/// Puts a one text, or for a row of the form `size` its length.
fn put_one_text(text: &[u8], form: Form, out: &mut String) -> Result<(), AllocError> {
    match form {
        Form::Write => put_bytes(text, out),
        _ => {
            let length = text.len();
            write!(out, "{length} bytes")
        }
    }
}
