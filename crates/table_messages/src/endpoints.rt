//! Addresses and endpoint references.

use ba_message::{Epr, dialable};
use rows_of_trees::shown_endpoint;
use std::alloc::{AllocError, Global};

/// Appends whether an address can be dialed.
pub fn put_dialable(address: &[u8], out: &mut String) -> Result<(), AllocError> {
    if dialable(address) {
        out.push_str("dialable")
    } else {
        out.push_str("not dialable")
    }
}

/// Appends how many bytes an endpoint takes in a record.
pub fn put_size(alloc: Global, shown: &[u8], out: &mut String) -> Result<(), AllocError> {
    match shown_endpoint(alloc, shown)? {
        None => out.push_str("no endpoint"),
        Some(endpoint) => put_size_of(&endpoint, out),
    }
}

fn put_size_of(endpoint: &Epr, out: &mut String) -> Result<(), AllocError> {
    let size = endpoint.size();
    write!(out, "{size} bytes")
}

/// Appends whether an endpoint fits.
pub fn put_fit(alloc: Global, shown: &[u8], out: &mut String) -> Result<(), AllocError> {
    match shown_endpoint(alloc, shown)? {
        None => out.push_str("no endpoint"),
        Some(endpoint) => put_fit_of(&endpoint, out),
    }
}

fn put_fit_of(endpoint: &Epr, out: &mut String) -> Result<(), AllocError> {
    if endpoint.fits() {
        out.push_str("fits")
    } else {
        out.push_str("doesn't fit")
    }
}

/// Appends whether two endpoints are equal.
pub fn put_equality(alloc: Global, shown: &[u8], out: &mut String) -> Result<(), AllocError> {
    match two_in(shown) {
        None => out.push_str("no row"),
        Some((one, other)) => {
            let one = shown_endpoint(alloc, one.as_bytes())?;
            let other = shown_endpoint(alloc, other.as_bytes())?;
            put_compared(&one, &other, out)
        }
    }
}

/// What stands before and after `and`.
fn two_in(shown: &[u8]) -> Option<(&str, &str)> {
    str::from_utf8(shown).ok()?.split_once(" and ")
}

fn put_compared(
    one: &Option<Epr>,
    other: &Option<Epr>,
    out: &mut String,
) -> Result<(), AllocError> {
    match (one, other) {
        (Some(one), Some(other)) => {
            if one.equals(other) {
                out.push_str("equal")
            } else {
                out.push_str("different")
            }
        }
        _ => out.push_str("no endpoint"),
    }
}
