//! The answers to rows: what messages say, and why they are refused.

use crate::rows::{Form, form_of};
use ba_core::List;
use ba_http::{Reply, Request, read_reply, read_request};
use ba_http_head::HttpFault;
use ba_ports::Link;
use ba_ports_memory::{Out, ScriptLink, Text};
use rows_of_bytes::bytes_of;
use std::alloc::{AllocError, Global};

/// The answer to a row.
pub fn answer(alloc: Global, row: &str) -> Result<String, AllocError> {
    let (form, written) = form_of(row);
    let bytes = bytes_of(alloc, written)?;
    match form {
        Form::RequestCuts => cuts(alloc, Form::Request, bytes.as_slice()),
        Form::ReplyCuts => cuts(alloc, Form::Reply, bytes.as_slice()),
        _ => whole(alloc, form, bytes.as_slice()),
    }
}

/// The answer to a message, which has to be the same however its bytes come.
fn whole(alloc: Global, form: Form, bytes: &[u8]) -> Result<String, AllocError> {
    let (mut one, taken) = read_by(alloc, form, bytes, 1)?;
    let (seven, _) = read_by(alloc, form, bytes, 7)?;
    let (all, _) = read_by(alloc, form, bytes, 1_000_000)?;
    if one.as_str() != seven.as_str() || one.as_str() != all.as_str() {
        one.push_str(" but not by other cuts")?;
    }
    write!(one, " after {taken}")?;
    Ok(one)
}

/// How many prefixes are truncated, from the empty one up to the first that isn't.
fn cuts(alloc: Global, form: Form, bytes: &[u8]) -> Result<String, AllocError> {
    let mut count = 0;
    for size in 0..bytes.len() {
        let (said, _) = read_by(alloc, form, &bytes[..size], 1_000_000)?;
        if said.as_str() != "95" {
            break;
        }
        count = size + 1;
    }
    let mut out = String::new(alloc);
    write!(out, "{count}")?;
    Ok(out)
}

/// What a message says, where a read gives so many bytes at most, and how many bytes were taken.
fn read_by(
    alloc: Global,
    form: Form,
    bytes: &[u8],
    most: usize,
) -> Result<(String, usize), AllocError> {
    let input = Text::of(
        List::of(Vec::from_slice(alloc, bytes)?),
        most.max(1),
        List::new(alloc),
    );
    let mut link = ScriptLink::of(input, Out::of(alloc, 0, List::new(alloc)));
    let mut out = String::new(alloc);
    match form {
        Form::Reply => match read_reply(alloc, &mut link) {
            Ok(reply) => put_reply(&reply, &mut out)?,
            Err(fault) => put_fault(fault, &mut out)?,
        },
        _ => match read_request(alloc, &mut link) {
            Ok(request) => put_request(&request, &mut out)?,
            Err(fault) => put_fault(fault, &mut out)?,
        },
    }
    let left = left_of(&mut link);
    Ok((out, bytes.len().saturating_sub(left)))
}

/// How many bytes a link has left.
fn left_of(link: &mut ScriptLink) -> usize {
    let mut room = [0u8; 64];
    let mut left: usize = 0;
    for _ in 0..1_000_000 {
        match link.read(&mut room) {
            Ok(0) => return left,
            Ok(size) => left = left.saturating_add(size),
            Err(_) => return left,
        }
    }
    left
}

/// Appends what a request says.
fn put_request(request: &Request, out: &mut String) -> Result<(), AllocError> {
    put_bytes(request.method.as_slice(), out)?;
    out.push(' ')?;
    put_bytes(request.path.as_slice(), out)?;
    out.push(' ')?;
    put_body(request.body.as_slice(), out)
}

/// Appends what a reply says.
fn put_reply(reply: &Reply, out: &mut String) -> Result<(), AllocError> {
    write!(out, "{} ", reply.code)?;
    put_body(reply.body.as_slice(), out)
}

/// Appends why there is no message.
fn put_fault(fault: HttpFault, out: &mut String) -> Result<(), AllocError> {
    match fault {
        HttpFault::Memory => out.push_str("memory"),
        HttpFault::BadHead(place) => write!(out, "91 at {place}"),
        HttpFault::Length => out.push_str("92"),
        HttpFault::TooLarge => out.push_str("93"),
        HttpFault::BadChunk(place) => write!(out, "94 at {place}"),
        HttpFault::Truncated => out.push_str("95"),
        HttpFault::Read => out.push_str("96"),
    }
}

/// Appends a body in quotes, or its size and the sum of its bytes.
fn put_body(body: &[u8], out: &mut String) -> Result<(), AllocError> {
    if body.len() > 64 {
        let mut sum: u64 = 0;
        for byte in body {
            sum = sum.wrapping_add(*byte as u64);
        }
        return write!(out, "{} bytes of sum {sum}", body.len());
    }
    out.push('"')?;
    put_bytes(body, out)?;
    out.push('"')
}

/// Appends bytes, of which those that aren't visible stand as a backslash and two digits.
fn put_bytes(bytes: &[u8], out: &mut String) -> Result<(), AllocError> {
    for byte in bytes {
        if (b' '..=b'~').contains(byte) && *byte != b'\\' && *byte != b'"' {
            out.push(char::from(*byte))?;
        } else {
            write!(out, "\\{byte:02x}")?;
        }
    }
    Ok(())
}
