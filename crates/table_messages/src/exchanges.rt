//! What the command that checks an envelope prints, and what is written to a connection.

use ba_cmd_check::{CheckFault, check};
use ba_core::List;
use ba_http_writer::{Body, WriteFault, write_request, write_response};
use ba_message::dialable;
use ba_ports_memory::{Out, ScriptLink, Text};
use rows_of_trees::put_bytes;
use std::alloc::{AllocError, Global};

// ---- the command

/// Appends what the command prints of an envelope, or why it ends early.
pub fn put_check(alloc: Global, envelope: &[u8], out: &mut String) -> Result<(), AllocError> {
    let bytes = Vec::from_slice(alloc, envelope)?;
    let mut source = Text::of(List::of(bytes), 700, List::new(alloc));
    let mut sink = Out::of(alloc, 2000, List::new(alloc));
    match check(alloc, &mut source, &mut sink) {
        Err(CheckFault::Memory) => Err(AllocError),
        Err(fault) => write!(out, "{fault}"),
        Ok(()) => put_bytes(sink.bytes(), out),
    }
}

// ---- connections

/// A connection from which nothing comes.
fn link(alloc: Global) -> ScriptLink {
    let input = Text::of(List::new(alloc), 1, List::new(alloc));
    ScriptLink::of(input, Out::of(alloc, 1000, List::new(alloc)))
}

/// Appends what was written to a connection, or why not all was.
fn put_written(
    answer: Result<(), WriteFault>,
    link: &ScriptLink,
    out: &mut String,
) -> Result<(), AllocError> {
    match answer {
        Err(WriteFault::Memory) => Err(AllocError),
        Err(fault) => write!(out, "{fault}"),
        Ok(()) => put_bytes(link.output().bytes(), out),
    }
}

/// Appends the response with a code and no body.
pub fn put_response(alloc: Global, code: &[u8], out: &mut String) -> Result<(), AllocError> {
    if code != b"404".as_slice() {
        return out.push_str("no row");
    }
    let mut link = link(alloc);
    let answer = write_response(alloc, &mut link, 404, Body::Nothing, b"");
    put_written(answer, &link, out)
}

/// A request's parts, as rows write them.
#[derive(Clone, Copy)]
struct Request<'a> {
    address: &'a str,
    action: &'a str,
    body: &'a str,
}

fn request_in<'a>(written: &'a [u8]) -> Option<Request<'a>> {
    let (address, rest) = str::from_utf8(written).ok()?.split_once(" \"")?;
    let (action, body) = rest.split_once("\" ")?;
    Some(Request {
        address,
        action,
        body,
    })
}

/// Appends a request.
pub fn put_request(alloc: Global, written: &[u8], out: &mut String) -> Result<(), AllocError> {
    match request_in(written) {
        None => out.push_str("no row"),
        Some(request) => put_request_of(alloc, request, out),
    }
}

fn put_request_of(alloc: Global, request: Request, out: &mut String) -> Result<(), AllocError> {
    let address = request.address.as_bytes();
    if !dialable(address) {
        return out.push_str("not dialable");
    }
    let mut link = link(alloc);
    let action = request.action.as_bytes();
    let answer = write_request(alloc, &mut link, address, action, request.body.as_bytes());
    put_written(answer, &link, out)
}
