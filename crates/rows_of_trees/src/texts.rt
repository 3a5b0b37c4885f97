//! Bytes and texts.

use ba_core::{List, Octets};
use rows_of_bytes::put_piece;
use std::alloc::{AllocError, Global};

/// Appends bytes: visible ASCII and blanks as they are, a backslash and all others by their two digits.
pub fn put_bytes(bytes: &[u8], out: &mut String) -> Result<(), AllocError> {
    for byte in bytes {
        if matches!(*byte, b' '..=b'~') && *byte != b'\\' {
            out.push(char::from(*byte))?;
        } else {
            write!(out, "\\{byte:02x}")?;
        }
    }
    Ok(())
}

/// Appends a text in quotes.
pub fn put_text(text: &Octets, out: &mut String) -> Result<(), AllocError> {
    out.push('"')?;
    put_bytes(text.as_slice(), out)?;
    out.push('"')
}

/// Appends a word and the text that it names, where there is one.
pub fn put_named(word: &str, text: &Option<Octets>, out: &mut String) -> Result<(), AllocError> {
    match text {
        None => Ok(()),
        Some(text) => {
            out.push_str(word)?;
            put_text(text, out)
        }
    }
}

pub fn octets_of(alloc: Global, text: &str) -> Result<Octets, AllocError> {
    Ok(List::of(Vec::from_slice(alloc, text.as_bytes())?))
}

/// Whether exactly these bytes are shown so.
pub fn is_shown_by(alloc: Global, bytes: &[u8], shown: &str) -> Result<bool, AllocError> {
    let mut again = Vec::new(alloc);
    put_piece(shown, &mut again)?;
    Ok(again.as_slice() == bytes)
}
