//! Writing a response.
ghost use Rattle.std.specs.Prelude.{◌≡◌, ◌≤◌, ◌↔◌, [], IsSome, IfOk, OnOk, Err, Some};
ghost use Rattle.std.specs.Io.KnownBytes.{Appends, Keeps};
ghost use Rattle.http.specs.StatusCode.{reason_phrase};
ghost use Rattle.ba_ports.specs.Causes.{Rose};
ghost use Rattle.ba_ports.specs.Outputs.{WritesPart};
ghost use Rattle.ba_http_writer.specs.Texts.{response_text};

use crate::bodies::{Body, type_line};
use crate::faults::WriteFault;
use ba_core::{Memory, Octets};
use ba_ports::{Link, send_all};
use http::StatusCode;
use itoa::Buffer;
use std::alloc::Global;

/// Writes a response. After `Write` a prefix of it went out, after `Memory` nothing.
pub fn write_response<K: Link>(
    alloc: Global,
    link: &mut K,
    code: u16,
    kind: Body,
    body: &[u8],
) -> Result<(), WriteFault>
    requires phrase { IsSome (reason_phrase code) }
    requires empty { (body.now ≡ []) ↔ (kind ≡ Body.Nothing) }
    ensures response { OnOk result (Appends (K.written link.old) (K.written link.new) (response_text code kind body.now)) }
    ensures part { (result ≡ Err WriteFault.Write)
        → WritesPart (K.written link.old) (K.written link.new) (response_text code kind body.now) }
    ensures unchanged { (result ≡ Err WriteFault.Memory) → Keeps (K.written link.old) (K.written link.new) }

    // What became of the link besides.
    ensures others { Keeps (K.left link.old) (K.left link.new) }
    ensures cause { (result ≡ Err WriteFault.Write) → Rose (K.faults link.old) (K.faults link.new) }
    ensures later { K.faults link.old ≤ K.faults link.new }
    ensures stayed { (result ≡ Err WriteFault.Write → ⊥) → K.faults link.new ≡ K.faults link.old }
{
    let Ok(text) = text_of_response(alloc, code, kind, body) else {
        return Err(WriteFault::Memory);
    };
    match send_all(link, text.as_slice()) {
        Ok(()) => Ok(()),
        Err(_) => Err(WriteFault::Write),
    }
}

// The bytes of a response.
fn text_of_response(alloc: Global, code: u16, kind: Body, body: &[u8]) -> Result<Octets, Memory>
    requires phrase { IsSome (reason_phrase code) }
    ensures { IfOk result (λ text. text ≡ response_text code kind body.now) }
{
    let mut text = Octets::new(alloc);
    text.append(b"HTTP/1.1 ")?;
    text.append(Buffer::new().format(code).as_bytes())?;
    text.append(b" ")?;
    text.append(phrase_of(code).as_bytes())?;
    text.append(b"\r\n")?;
    text.append(type_line(kind))?;
    text.append(b"Content-Length: ")?;
    text.append(Buffer::new().format(body.len()).as_bytes())?;
    text.append(b"\r\nConnection: close\r\n\r\n")?;
    text.append(body)?;
    Ok(text)
}

fn phrase_of(code: u16) -> &'static str
    requires phrase { IsSome (reason_phrase code) }
    ensures { Some result.now ≡ reason_phrase code }
{
    match StatusCode::from_u16(code) {
        Ok(status) => match status.canonical_reason() {
            Some(phrase) => phrase,
            None => unreachable!(),
        },
        Err(_) => unreachable!(),
    }
}
