//! The answers to rows: what envelopes mean, why they are refused, and what is written of them.
ghost use Rattle.std.specs.Prelude.{IsTrue};
ghost use Rattle.ba_wire.specs.Envelopes.{CanEncode, CanEncodeLetter, HasEnvelope, is_known};

use crate::rows::envelope_bytes;
use ba_core::{Kind, Notice, Protocol, name_of};
use ba_message::{Context, Epr, Message};
use ba_soap::{Header, SoapFault};
use ba_wire::{Decoded, Route, WireFault, envelope_tree, is_known, letter_tree};
use ba_wire_short::{decode, encode, encode_letter};
use ba_xml::writable;
use rows_of_trees::{
    put_bytes, put_context, put_endpoint, put_expiry, put_kind, put_named, put_trees,
    shown_endpoint,
};
use std::alloc::{AllocError, Global};

/// The answer to a row.
pub fn answer(alloc: Global, row: &str) -> Result<String, AllocError> {
    if let Some(envelope) = row.strip_prefix("text: ") {
        return canonical(alloc, envelope_bytes(alloc, envelope)?.as_slice());
    }
    match letter_in(row) {
        None => meaning(alloc, envelope_bytes(alloc, row)?.as_slice()),
        Some((source, envelope)) => {
            let bytes = envelope_bytes(alloc, envelope)?;
            letter(alloc, source, bytes.as_slice())
        }
    }
}

/// The endpoint and the envelope of a row that asks for a letter.
fn letter_in(row: &str) -> Option<(&str, &str)> {
    row.strip_prefix("letter: ")?.split_once(" of ")
}

/// What an envelope means, or why it is refused.
fn meaning(alloc: Global, bytes: &[u8]) -> Result<String, AllocError> {
    let mut out = String::new(alloc);
    match decode(alloc, bytes) {
        Err(fault) => put_wire_fault(fault, &mut out)?,
        Ok(decoded) => put_decoded(&decoded, &mut out)?,
    }
    Ok(out)
}

/// The canonical text of what an envelope means, or why it is refused.
fn canonical(alloc: Global, bytes: &[u8]) -> Result<String, AllocError> {
    let mut out = String::new(alloc);
    match decode(alloc, bytes) {
        Err(fault) => put_wire_fault(fault, &mut out)?,
        Ok(decoded) => put_canonical(alloc, &decoded, &mut out)?,
    }
    Ok(out)
}

/// The canonical text of the letter of what an envelope means, from an endpoint as answers show it, or why it is refused.
fn letter(alloc: Global, source: &str, bytes: &[u8]) -> Result<String, AllocError> {
    let mut out = String::new(alloc);
    let Some(source) = shown_endpoint(alloc, source.as_bytes())? else {
        out.push_str("no endpoint")?;
        return Ok(out);
    };
    match decode(alloc, bytes) {
        Err(fault) => put_wire_fault(fault, &mut out)?,
        Ok(decoded) => put_letter(alloc, &source, &decoded, &mut out)?,
    }
    Ok(out)
}

// ---- what is written

/// Appends the canonical text of a message in its envelope, or why there is none.
fn put_canonical(alloc: Global, decoded: &Decoded, out: &mut String) -> Result<(), AllocError>
    requires { IsTrue (is_known decoded.now.message) → HasEnvelope decoded.now.route decoded.now.message }
{
    if !is_known(&decoded.message) {
        return out.push_str("unknown");
    }
    match envelope_tree(alloc, &decoded.route, &decoded.message) {
        Err(_) => Err(AllocError),
        Ok(tree) => {
            if !writable(&tree) {
                return out.push_str("unwritable");
            }
            put_text_of(alloc, decoded, out)
        }
    }
}

/// Appends the canonical text of a message in its envelope.
fn put_text_of(alloc: Global, decoded: &Decoded, out: &mut String) -> Result<(), AllocError>
    requires { CanEncode decoded.now.route decoded.now.message }
{
    match encode(alloc, &decoded.route, &decoded.message) {
        Err(_) => Err(AllocError),
        Ok(text) => put_bytes(text.as_slice(), out),
    }
}

/// Appends the canonical text of a letter from an endpoint, or why there is none.
fn put_letter(
    alloc: Global,
    source: &Epr,
    decoded: &Decoded,
    out: &mut String,
) -> Result<(), AllocError>
    requires { IsTrue (is_known decoded.now.message) → HasEnvelope decoded.now.route decoded.now.message }
{
    if !is_known(&decoded.message) {
        return out.push_str("unknown");
    }
    match letter_tree(alloc, source, &decoded.route, &decoded.message) {
        Err(_) => Err(AllocError),
        Ok(tree) => {
            if !writable(&tree) {
                return out.push_str("unwritable");
            }
            put_letter_text(alloc, source, decoded, out)
        }
    }
}

/// Appends the canonical text of a letter from an endpoint.
fn put_letter_text(
    alloc: Global,
    source: &Epr,
    decoded: &Decoded,
    out: &mut String,
) -> Result<(), AllocError>
    requires { CanEncodeLetter source.now decoded.now.route decoded.now.message }
{
    match encode_letter(alloc, source, &decoded.route, &decoded.message) {
        Err(_) => Err(AllocError),
        Ok(text) => put_bytes(text.as_slice(), out),
    }
}

// ---- what an envelope means

/// Appends what an envelope means.
fn put_decoded(decoded: &Decoded, out: &mut String) -> Result<(), AllocError> {
    put_message_name(&decoded.message, out)?;
    put_route(&decoded.route, out)?;
    put_message(&decoded.message, out)
}

/// Appends the name of a message.
fn put_message_name(message: &Message, out: &mut String) -> Result<(), AllocError> {
    match message {
        Message::Create { .. } => out.push_str("CreateCoordinationContext"),
        Message::Created(_) => out.push_str("CreateCoordinationContextResponse"),
        Message::Register { .. } => out.push_str("Register"),
        Message::Registered(_) => out.push_str("RegisterResponse"),
        Message::Notice(notice) => put_bytes(name_of(*notice), out),
        Message::Fault(_) => out.push_str("Fault"),
    }
}

/// Appends what the headers say.
fn put_route(route: &Route, out: &mut String) -> Result<(), AllocError> {
    put_named(" to=", &route.to, out)?;
    put_named(" id=", &route.message_id, out)?;
    put_named(" relates=", &route.relates_to, out)?;
    put_trees(" parameters=", route.parameters.as_slice(), out)
}

/// Appends what a message says besides its name, after `|` where it can say anything.
fn put_message(message: &Message, out: &mut String) -> Result<(), AllocError> {
    match message {
        Message::Create {
            expires,
            current,
            kind,
            up,
        } => put_create(*expires, current, *kind, *up, out),
        Message::Created(context) => {
            out.push_str(" | ")?;
            put_context(context, out)
        }
        Message::Register {
            protocol,
            participant,
        } => {
            put_protocol(*protocol, out)?;
            out.push_str(" participant=")?;
            put_endpoint(participant, out)
        }
        Message::Registered(coordinator) => {
            out.push_str(" | coordinator=")?;
            put_endpoint(coordinator, out)
        }
        Message::Notice(notice) => put_notice(*notice, out),
        Message::Fault(code) => write!(out, " | code={code}"),
    }
}

/// Appends what is said of a context that is to be made.
fn put_create(
    expires: Option<u32>,
    current: &Option<Context>,
    kind: Option<Kind>,
    up: Protocol,
    out: &mut String,
) -> Result<(), AllocError> {
    out.push_str(" | ")?;
    put_kind(kind, out)?;
    put_expiry(expires, out)?;
    out.push_str(" up=")?;
    put_bytes(up.word(), out)?;
    match current {
        None => Ok(()),
        Some(context) => {
            out.push_str(" current=")?;
            put_context(context, out)
        }
    }
}

/// Appends for which protocol a participant registers.
fn put_protocol(protocol: Option<Protocol>, out: &mut String) -> Result<(), AllocError> {
    match protocol {
        None => out.push_str(" | protocol=unknown"),
        Some(protocol) => {
            out.push_str(" | protocol=")?;
            put_bytes(protocol.word(), out)
        }
    }
}

/// Appends what a notice says: a Status says a state.
fn put_notice(notice: Notice, out: &mut String) -> Result<(), AllocError> {
    match notice {
        Notice::Status(state) => {
            out.push_str(" | state=")?;
            put_bytes(state.name(), out)
        }
        _ => Ok(()),
    }
}

// ---- refusals

/// Appends why an envelope means no message.
fn put_wire_fault(fault: WireFault, out: &mut String) -> Result<(), AllocError> {
    match fault {
        WireFault::Memory => Err(AllocError),
        WireFault::Xml { reason, place } => {
            let number = reason as u8;
            write!(out, "xml {number} at {place}")
        }
        WireFault::Soap(fault) => put_soap_fault(fault, out),
        WireFault::OnlyAnonymous => out.push_str("wire 16"),
        WireFault::EprLimit(element) => write!(out, "wire 18 at {element}"),
        WireFault::ActionNotSupported => out.push_str("wire 21"),
        WireFault::BodyMismatch(element) => write!(out, "wire 22 at {element}"),
    }
}

/// Appends why a tree is no envelope.
fn put_soap_fault(fault: SoapFault, out: &mut String) -> Result<(), AllocError> {
    match fault {
        SoapFault::Memory => Err(AllocError),
        SoapFault::VersionMismatch => out.push_str("soap 11"),
        SoapFault::MustUnderstand(block) => write!(out, "soap 12 at {block}"),
        SoapFault::NoBody => out.push_str("soap 13"),
        SoapFault::HeaderRequired(header) => {
            let name = header_name(header);
            write!(out, "soap 14 {name}")
        }
        SoapFault::InvalidHeader(header) => {
            let name = header_name(header);
            write!(out, "soap 15 {name}")
        }
        SoapFault::Shape => out.push_str("soap 17"),
    }
}

fn header_name(header: Header) -> &'static str {
    match header {
        Header::To => "To",
        Header::From => "From",
        Header::ReplyTo => "ReplyTo",
        Header::FaultTo => "FaultTo",
        Header::Action => "Action",
        Header::MessageID => "MessageID",
        Header::RelatesTo => "RelatesTo",
    }
}
