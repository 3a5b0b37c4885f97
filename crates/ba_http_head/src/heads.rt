//! The head of a request, and of a reply.
ghost use Rattle.std.specs.Prelude.{◌≡◌, ◌≤◌, length, Err};
ghost use Rattle.std.specs.Io.KnownBytes.{Keeps};
ghost use Rattle.ba_ports.specs.Causes.{Rose};
ghost use Rattle.ba_http_head.specs.HeadLines.{IsWhole, field_lines};
ghost use Rattle.ba_http_head.specs.Heads.{Opens, request_opening, reply_opening};
ghost use Rattle.ba_http_head.specs.inside.HeadParts.{HeadSo};

use crate::blocks::copied;
use crate::faults::HttpFault;
use crate::fetches::{Fetched, fetch};
use crate::headings::Heading;
use crate::lengths::{Length, length_in};
use crate::scans::MOST_FIELDS;
use ba_core::Octets;
use ba_ports::Link;
use httparse::Status;
use httparse::spans::{EMPTY_HEADER_SPAN, parse_request, parse_response};
use std::alloc::Global;

/// The head of a request, without its other fields.
#[derive(Debug, Drop)]
pub struct Head {
    pub method: Octets,
    pub path: Octets,
    pub length: Length,
    /// What was taken after the head: less than a block.
    pub rest: Octets,
}

/// The head of a reply, without its other fields. With no length the body goes on to the end of the input.
#[derive(Debug, Drop)]
pub struct ReplyHead {
    pub code: u16,
    pub length: Option<Length>,
    /// What was taken after the head: less than a block.
    pub rest: Octets,
}

/// Reads the head of a request.
pub fn read_head<K: Link>(alloc: Global, link: &mut K) -> Result<Head, HttpFault>
    ensures head { Opens Heading.Request (K.left link.old) (K.left link.new) (request_opening result) }

    ensures written { Keeps (K.written link.old) (K.written link.new) }
    ensures cause { (result ≡ Err HttpFault.Read) → Rose (K.faults link.old) (K.faults link.new) }
    ensures later { K.faults link.old ≤ K.faults link.new }
    ensures stayed { (result ≡ Err HttpFault.Read → ⊥) → K.faults link.new ≡ K.faults link.old }
{
    let found = match fetch(alloc, link, Heading::Request) {
        Ok(found) => found,
        Err(fault) => return Err(fault),
    };
    let Fetched { bytes, len } = found;
    request_head(alloc, &bytes.as_slice()[..len], &bytes.as_slice()[len..])
}

/// Reads the head of a reply.
pub fn read_reply_head<K: Link>(alloc: Global, link: &mut K) -> Result<ReplyHead, HttpFault>
    ensures head { Opens Heading.Reply (K.left link.old) (K.left link.new) (reply_opening result) }

    ensures written { Keeps (K.written link.old) (K.written link.new) }
    ensures cause { (result ≡ Err HttpFault.Read) → Rose (K.faults link.old) (K.faults link.new) }
    ensures later { K.faults link.old ≤ K.faults link.new }
    ensures stayed { (result ≡ Err HttpFault.Read → ⊥) → K.faults link.new ≡ K.faults link.old }
{
    let found = match fetch(alloc, link, Heading::Reply) {
        Ok(found) => found,
        Err(fault) => return Err(fault),
    };
    let Fetched { bytes, len } = found;
    reply_head(alloc, &bytes.as_slice()[..len], &bytes.as_slice()[len..])
}

// The head that is all of these bytes, before others.
fn request_head(alloc: Global, prefix: &[u8], rest: &[u8]) -> Result<Head, HttpFault>
    requires whole { IsWhole Heading.Request prefix.now }
    requires few { field_lines Heading.Request prefix.now ≤ MOST_FIELDS }
    ensures { HeadSo Heading.Request prefix.now rest.now (request_opening result) }
{
    let mut room = [EMPTY_HEADER_SPAN; MOST_FIELDS];
    let head = match parse_request(prefix, &mut room) {
        Ok(Status::Complete(head)) => head,
        Ok(Status::Partial) => unreachable!(),
        Err(_) => unreachable!(),
    };
    let length = match length_in(prefix, &room[..head.headers]) {
        Ok(Some(length)) => length,
        Ok(None) => return Err(HttpFault::Length),
        Err(fault) => return Err(fault),
    };
    let Ok(method) = copied(alloc, head.method.of(prefix)) else {
        return Err(HttpFault::Memory);
    };
    let Ok(path) = copied(alloc, head.path.of(prefix)) else {
        return Err(HttpFault::Memory);
    };
    let Ok(rest) = copied(alloc, rest) else {
        return Err(HttpFault::Memory);
    };
    Ok(Head {
        method,
        path,
        length,
        rest,
    })
}

// The head that is all of these bytes, before others.
fn reply_head(alloc: Global, prefix: &[u8], rest: &[u8]) -> Result<ReplyHead, HttpFault>
    requires whole { IsWhole Heading.Reply prefix.now }
    requires few { field_lines Heading.Reply prefix.now ≤ MOST_FIELDS }
    ensures { HeadSo Heading.Reply prefix.now rest.now (reply_opening result) }
{
    let mut room = [EMPTY_HEADER_SPAN; MOST_FIELDS];
    let head = match parse_response(prefix, &mut room) {
        Ok(Status::Complete(head)) => head,
        Ok(Status::Partial) => unreachable!(),
        Err(_) => unreachable!(),
    };
    let length = match length_in(prefix, &room[..head.headers]) {
        Ok(length) => length,
        Err(fault) => return Err(fault),
    };
    let Ok(rest) = copied(alloc, rest) else {
        return Err(HttpFault::Memory);
    };
    Ok(ReplyHead {
        code: head.code,
        length,
        rest,
    })
}
