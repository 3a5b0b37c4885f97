//! Requests.
ghost use Rattle.std.specs.Prelude.{◌≡◌, ◌≤◌, Err};
ghost use Rattle.std.specs.Io.KnownBytes.{Keeps};
ghost use Rattle.ba_ports.specs.Causes.{Rose};
ghost use Rattle.ba_http.specs.Messages.{Reads, request_message};

use crate::bodies::read_body;
use ba_core::Octets;
use ba_http_head::{Head, Heading, HttpFault, read_head};
use ba_ports::Link;
use std::alloc::Global;

/// A request, without the fields of its head.
#[derive(Debug, Drop)]
pub struct Request {
    pub method: Octets,
    pub path: Octets,
    pub body: Octets,
}

/// Reads a request, and takes less than a block of what follows it.
pub fn read_request<K: Link>(alloc: Global, link: &mut K) -> Result<Request, HttpFault>
    ensures request { Reads Heading.Request (K.left link.old) (K.left link.new) (request_message result) }

    ensures written { Keeps (K.written link.old) (K.written link.new) }
    ensures cause { (result ≡ Err HttpFault.Read) → Rose (K.faults link.old) (K.faults link.new) }
    ensures later { K.faults link.old ≤ K.faults link.new }
    ensures stayed { (result ≡ Err HttpFault.Read → ⊥) → K.faults link.new ≡ K.faults link.old }
{
    let head = match read_head(alloc, link) {
        Ok(head) => head,
        Err(fault) => return Err(fault),
    };
    let Head {
        method,
        path,
        length,
        rest,
    } = head;
    let mut body = Octets::new(alloc);
    match read_body(alloc, link, length, rest.as_slice(), &mut body) {
        Ok(()) => Ok(Request { method, path, body }),
        Err(fault) => Err(fault),
    }
}
