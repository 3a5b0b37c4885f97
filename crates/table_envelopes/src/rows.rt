//! The forms of rows, and how rows write bytes.

use rows_of_bytes::{put_piece, repeated};
use std::alloc::{AllocError, Global};

/// The start tag of the envelopes that rows write in parts.
const START: &str =
    "<s:Envelope xmlns:s='{soap}' xmlns:w='{wsa}' xmlns:c='{wscoor}' xmlns:b='{wsba}' xmlns:o='{own}'>";

/// The bytes of the envelope that a row writes.
pub fn envelope_bytes(alloc: Global, row: &str) -> Result<Vec<u8>, AllocError> {
    let mut bytes = Vec::new(alloc);
    if let Some(content) = row.strip_prefix("parts: ") {
        put_parts([START, content, "</s:Envelope>"].as_slice(), &mut bytes)?;
    } else if let Some((headers, body)) = said_in(row) {
        let header_parts = [START, "<s:Header>", headers, "</s:Header>"];
        put_parts(header_parts.as_slice(), &mut bytes)?;
        put_parts(
            ["<s:Body>", body, "</s:Body></s:Envelope>"].as_slice(),
            &mut bytes,
        )?;
    } else {
        put_written(row, &mut bytes)?;
    }
    Ok(bytes)
}

/// The header blocks and the content of the Body of a row that writes them.
fn said_in(row: &str) -> Option<(&str, &str)> {
    row.strip_prefix("says: ")?.split_once(" | ")
}

/// Appends parts of an envelope.
fn put_parts(parts: &[&str], bytes: &mut Vec<u8>) -> Result<(), AllocError> {
    for part in parts {
        put_written(*part, bytes)?;
    }
    Ok(())
}

/// Appends the bytes that a row writes.
fn put_written(written: &str, bytes: &mut Vec<u8>) -> Result<(), AllocError> {
    for (index, part) in written.split('{').enumerate() {
        match part.split_once('}') {
            Some((inside, rest)) if index != 0 => {
                put_braces(inside, bytes)?;
                put_piece(rest, bytes)?;
            }
            _ => put_piece(part, bytes)?,
        }
    }
    Ok(())
}

/// Appends what stands for braces: a piece so many times, or a namespace.
fn put_braces(inside: &str, bytes: &mut Vec<u8>) -> Result<(), AllocError> {
    match repeated(inside) {
        Some((times, piece)) => {
            for _ in 0..times {
                put_piece(piece, bytes)?;
            }
            Ok(())
        }
        None => bytes.extend_from_slice(namespace(inside)),
    }
}

/// The namespace that rows name by this word.
fn namespace(word: &str) -> &'static [u8] {
    if word == "soap" {
        ba_tree::SOAP_SPACE
    } else if word == "wsa" {
        ba_tree::WSA_SPACE
    } else if word == "wscoor" {
        ba_tree::WSCOOR_SPACE
    } else if word == "wsba" {
        ba_tree::WSBA_SPACE
    } else if word == "own" {
        ba_tree::OWN_SPACE
    } else {
        b"no such namespace"
    }
}
