//! Replies.
ghost use Rattle.std.specs.Prelude.{◌≡◌, ◌≤◌, Err};
ghost use Rattle.std.specs.Io.KnownBytes.{Keeps};
ghost use Rattle.ba_ports.specs.Causes.{Rose};
ghost use Rattle.ba_http.specs.Messages.{Reads, reply_message};

use crate::bodies::read_reply_body;
use ba_core::Octets;
use ba_http_head::{Heading, HttpFault, ReplyHead, read_reply_head};
use ba_ports::Link;
use std::alloc::Global;

/// A reply, without the fields of its head.
#[derive(Debug, Drop)]
pub struct Reply {
    pub code: u16,
    pub body: Octets,
}

/// Reads a reply, and takes less than a block of what follows it. Without a length its body goes on to the end of the input.
pub fn read_reply<K: Link>(alloc: Global, link: &mut K) -> Result<Reply, HttpFault>
    ensures reply { Reads Heading.Reply (K.left link.old) (K.left link.new) (reply_message result) }

    ensures written { Keeps (K.written link.old) (K.written link.new) }
    ensures cause { (result ≡ Err HttpFault.Read) → Rose (K.faults link.old) (K.faults link.new) }
    ensures later { K.faults link.old ≤ K.faults link.new }
    ensures stayed { (result ≡ Err HttpFault.Read → ⊥) → K.faults link.new ≡ K.faults link.old }
{
    let head = match read_reply_head(alloc, link) {
        Ok(head) => head,
        Err(fault) => return Err(fault),
    };
    let ReplyHead { code, length, rest } = head;
    let mut body = Octets::new(alloc);
    match read_reply_body(alloc, link, length, rest.as_slice(), &mut body) {
        Ok(()) => Ok(Reply { code, body }),
        Err(fault) => Err(fault),
    }
}
