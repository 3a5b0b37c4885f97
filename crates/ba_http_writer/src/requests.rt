//! Writing a request.
ghost use Rattle.std.specs.Prelude.{◌≡◌, ◌≤◌, ◌++◌, ◌==◌, length, position, IfOk, IfSome, OnOk, Err};
ghost use Rattle.std.specs.Io.KnownBytes.{Appends, Keeps};
ghost use Rattle.ba_message.specs.Addresses.{IsDialable};
ghost use Rattle.ba_ports.specs.Causes.{Rose};
ghost use Rattle.ba_ports.specs.Outputs.{WritesPart};
ghost use Rattle.ba_http_writer.specs.Texts.{request_text, text_to, authority_len, target_of, body_kind, action_line, quoted_action};

use crate::bodies::{Body, type_line};
use crate::faults::WriteFault;
use ba_core::{Memory, Octets};
use ba_ports::{Link, send_all};
use itoa::Buffer;
use std::alloc::Global;

// How many bytes `http://` takes.
const SCHEME: usize = 7;

/// Writes a POST to an address. After `Write` a prefix of it went out, after `Memory` nothing.
pub fn write_request<K: Link>(
    alloc: Global,
    link: &mut K,
    address: &[u8],
    action: &[u8],
    body: &[u8],
) -> Result<(), WriteFault>
    requires { IsDialable address.now }
    ensures request { OnOk result (Appends (K.written link.old) (K.written link.new) (request_text address.now action.now body.now)) }
    ensures part { (result ≡ Err WriteFault.Write)
        → WritesPart (K.written link.old) (K.written link.new) (request_text address.now action.now body.now) }
    ensures unchanged { (result ≡ Err WriteFault.Memory) → Keeps (K.written link.old) (K.written link.new) }

    // What became of the link besides.
    ensures others { Keeps (K.left link.old) (K.left link.new) }
    ensures cause { (result ≡ Err WriteFault.Write) → Rose (K.faults link.old) (K.faults link.new) }
    ensures later { K.faults link.old ≤ K.faults link.new }
    ensures stayed { (result ≡ Err WriteFault.Write → ⊥) → K.faults link.new ≡ K.faults link.old }
{
    let Ok(text) = text_of_request(alloc, &address[SCHEME..], action, body) else {
        return Err(WriteFault::Memory);
    };
    match send_all(link, text.as_slice()) {
        Ok(()) => Ok(()),
        Err(_) => Err(WriteFault::Write),
    }
}

// The bytes of a request to the address whose bytes after the scheme these are.
fn text_of_request(
    alloc: Global,
    address: &[u8],
    action: &[u8],
    body: &[u8],
) -> Result<Octets, Memory>
    ensures { IfOk result (λ text. text ≡ text_to address.now action.now body.now) }
{
    let len = authority_len(address);
    let mut text = Octets::new(alloc);
    text.append(b"POST ")?;
    text.append(target_of(&address[len..]))?;
    text.append(b" HTTP/1.1\r\nHost: ")?;
    text.append(&address[..len])?;
    text.append(b"\r\n")?;
    text.append(type_line(body_kind(action)))?;
    append_action(&mut text, action)?;
    text.append(b"Content-Length: ")?;
    text.append(Buffer::new().format(body.len()).as_bytes())?;
    text.append(b"\r\nConnection: close\r\n\r\n")?;
    text.append(body)?;
    Ok(text)
}

// How many bytes stand before the first slash.
fn authority_len(address: &[u8]) -> usize
    ensures len { result ≡ authority_len address.now }
    ensures within { result ≤ length address.now }
{
    match first_slash(address) {
        Some(at) => at,
        None => address.len(),
    }
}

fn first_slash(address: &[u8]) -> Option<usize>
    ensures first { result ≡ position (λ byte. byte == 47) address.now }
    ensures within { IfSome result (λ at. at ≤ length address.now) }
{
    address.iter().position(|byte| *byte == b'/')
}

fn target_of(path: &[u8]) -> &[u8]
    ensures { result.now ≡ target_of path.now }
{
    match path {
        [] => b"/",
        _ => path,
    }
}

fn body_kind(action: &[u8]) -> Body
    ensures { result ≡ body_kind action.now }
{
    match action {
        [] => Body::Plain,
        _ => Body::Xml,
    }
}

fn append_action(text: &mut Octets, action: &[u8]) -> Result<(), Memory>
    ensures { OnOk result (text.new ≡ text.old ++ action_line action.now) }
{
    match action {
        [] => Ok(()),
        _ => append_line(text, action),
    }
}

fn append_line(text: &mut Octets, action: &[u8]) -> Result<(), Memory>
    ensures { OnOk result (text.new ≡ text.old ++ quoted_action action.now) }
{
    text.append(b"SOAPAction: \"")?;
    text.append(action)?;
    text.append(b"\"\r\n")?;
    Ok(())
}
