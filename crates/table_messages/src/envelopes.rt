//! Routes, envelopes and the texts of elements.

use ba_core::{Id, List, Memory, Notice};
use ba_message::{Letter, Message};
use ba_soap_shapes::text_of;
use ba_tree::Tree;
use ba_wire::{
    Decoded, Route, WireFault, action_of, decode, decode_tree, envelope_tree, message_name,
    route_of,
};
use ba_xml::{XmlFault, read, writable};
use rows_of_trees::{put_bytes, put_named, put_text, put_trees, shown_endpoint};
use std::alloc::{AllocError, Global};

// ---- routes

/// Appends the route of a letter, which is a Close.
pub fn put_route(alloc: Global, shown: &[u8], out: &mut String) -> Result<(), AllocError> {
    match letter_of(alloc, shown)? {
        None => out.push_str("no letter"),
        Some(letter) => put_route_of(alloc, &letter, out),
    }
}

/// The letter with a number to an endpoint.
fn letter_of(alloc: Global, shown: &[u8]) -> Result<Option<Letter>, AllocError> {
    let Some((number, endpoint)) = number_and_endpoint(shown) else {
        return Ok(None);
    };
    let Some(to) = shown_endpoint(alloc, endpoint.as_bytes())? else {
        return Ok(None);
    };
    Ok(Some(Letter {
        to,
        number: Id(number),
        message: Message::Notice(Notice::Close),
    }))
}

fn number_and_endpoint(shown: &[u8]) -> Option<(u128, &str)> {
    let (number, endpoint) = str::from_utf8(shown).ok()?.split_once(' ')?;
    let number = number.parse::<u128>().ok()?;
    Some((number, endpoint))
}

fn put_route_of(alloc: Global, letter: &Letter, out: &mut String) -> Result<(), AllocError> {
    match route_of(alloc, letter) {
        Err(Memory) => Err(AllocError),
        Ok(route) => put_route_parts(&route, out),
    }
}

fn put_route_parts(route: &Route, out: &mut String) -> Result<(), AllocError> {
    put_named("to=", &route.to, out)?;
    put_named(" id=", &route.message_id, out)?;
    put_named(" relates=", &route.relates_to, out)?;
    put_trees(" parameters=", route.parameters.as_slice(), out)
}

// ---- envelopes

/// Appends what the envelope of a Close means, whose tree has to be writable.
pub fn put_notice(alloc: Global, name: &[u8], out: &mut String) -> Result<(), AllocError> {
    if name != b"Close".as_slice() {
        return out.push_str("no row");
    }
    let route = Route {
        to: None,
        message_id: None,
        relates_to: None,
        parameters: List::new(alloc),
    };
    match envelope_tree(alloc, &route, &Message::Notice(Notice::Close)) {
        Err(Memory) => Err(AllocError),
        Ok(tree) => put_meaning_of(alloc, &tree, out),
    }
}

/// Appends what the tree of an envelope means.
fn put_meaning_of(alloc: Global, tree: &Tree, out: &mut String) -> Result<(), AllocError> {
    if !writable(tree) {
        return out.push_str("unwritable");
    }
    match decode_tree(alloc, tree) {
        Err(fault) => put_fault(fault, out),
        Ok(decoded) => put_decoded(&decoded, out),
    }
}

/// Appends what a text means.
pub fn put_message(alloc: Global, text: &[u8], out: &mut String) -> Result<(), AllocError> {
    match decode(alloc, text) {
        Err(fault) => put_fault(fault, out),
        Ok(decoded) => put_decoded(&decoded, out),
    }
}

/// Appends the action of the message that a text means.
pub fn put_action(alloc: Global, text: &[u8], out: &mut String) -> Result<(), AllocError> {
    match decode(alloc, text) {
        Err(fault) => put_fault(fault, out),
        Ok(decoded) => put_bytes(action_of(&decoded.message), out),
    }
}

/// Appends the name of a message and its To.
fn put_decoded(decoded: &Decoded, out: &mut String) -> Result<(), AllocError> {
    put_bytes(message_name(&decoded.message), out)?;
    put_named(" to=", &decoded.route.to, out)
}

fn put_fault(fault: WireFault, out: &mut String) -> Result<(), AllocError> {
    match fault {
        WireFault::Memory => Err(AllocError),
        fault => write!(out, "{fault}"),
    }
}

// ---- texts of elements

/// Appends the text of the element that a text is.
pub fn put_element_text(alloc: Global, text: &[u8], out: &mut String) -> Result<(), AllocError> {
    match read(alloc, text) {
        Err(XmlFault::Memory) => Err(AllocError),
        Err(XmlFault::At { place, .. }) => write!(out, "no element at {place}"),
        Ok(tree) => put_text_of(alloc, &tree, out),
    }
}

fn put_text_of(alloc: Global, tree: &Tree, out: &mut String) -> Result<(), AllocError> {
    match text_of(alloc, tree) {
        Err(Memory) => Err(AllocError),
        Ok(text) => put_text(&text, out),
    }
}
