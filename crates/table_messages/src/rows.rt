//! How rows write bytes.

use rows_of_bytes::{put_piece, repeated};
use std::alloc::{AllocError, Global};

/// The bytes that a row writes.
pub fn bytes_of(alloc: Global, written: &str) -> Result<Vec<u8>, AllocError> {
    let mut bytes = Vec::new(alloc);
    for (index, part) in written.split('{').enumerate() {
        match part.split_once('}') {
            Some((inside, rest)) if index != 0 => {
                put_braces(inside, &mut bytes)?;
                put_piece(rest, &mut bytes)?;
            }
            _ => put_piece(part, &mut bytes)?,
        }
    }
    Ok(bytes)
}

/// Appends what stands for braces: a piece so many times, or else themselves.
fn put_braces(inside: &str, bytes: &mut Vec<u8>) -> Result<(), AllocError> {
    match repeated(inside) {
        Some((times, piece)) => {
            for _ in 0..times {
                put_piece(piece, bytes)?;
            }
            Ok(())
        }
        None => {
            bytes.extend_from_slice(b"{")?;
            put_piece(inside, bytes)?;
            bytes.extend_from_slice(b"}")
        }
    }
}
