//! How the rows of the stored tables write bytes: a backslash and two digits stand for a byte, a backslash and `n` for
//! CR and LF, and braces for a piece so many times, as in `{32*<a>}`. All else stands for itself.
#![tactic(auto)]

use std::alloc::{AllocError, Global};

/// The bytes that a row writes.
pub fn bytes_of(alloc: Global, written: &str) -> Result<Vec<u8>, AllocError> {
    let mut bytes = Vec::new(alloc);
    for (index, part) in written.split('{').enumerate() {
        match part.split_once('}') {
            Some((inside, rest)) if index != 0 => {
                put_repeated(inside, &mut bytes)?;
                put_piece(rest, &mut bytes)?;
            }
            _ => put_piece(part, &mut bytes)?,
        }
    }
    Ok(bytes)
}

/// Appends what stands in braces: a piece so many times.
fn put_repeated(inside: &str, bytes: &mut Vec<u8>) -> Result<(), AllocError> {
    let (times, piece) = repeated(inside).unwrap_or((1, inside));
    for _ in 0..times {
        put_piece(piece, bytes)?;
    }
    Ok(())
}

/// How many times a piece stands, and the piece.
pub fn repeated(inside: &str) -> Option<(u32, &str)> {
    let (count, piece) = inside.split_once('*')?;
    let times = count.parse::<u32>().ok()?;
    Some((times, piece))
}

/// Appends the bytes of a piece without braces.
pub fn put_piece(piece: &str, bytes: &mut Vec<u8>) -> Result<(), AllocError> {
    for (index, part) in piece.split('\\').enumerate() {
        match part.as_bytes() {
            [b'n', rest @ ..] if index != 0 => {
                bytes.extend_from_slice(b"\r\n")?;
                bytes.extend_from_slice(rest)?;
            }
            [high, low, rest @ ..] if index != 0 => {
                bytes.push(digit(*high).wrapping_mul(16).wrapping_add(digit(*low)))?;
                bytes.extend_from_slice(rest)?;
            }
            whole => bytes.extend_from_slice(whole)?,
        }
    }
    Ok(())
}

/// What a digit stands for, from `0` to `f`.
fn digit(digit: u8) -> u8 {
    if digit >= b'a' {
        digit.wrapping_sub(b'a').wrapping_add(10)
    } else {
        digit.wrapping_sub(b'0')
    }
}
