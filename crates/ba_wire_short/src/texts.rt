//! Canonical texts of letters and replies, put piece by piece.
ghost use Rattle.std.specs.Prelude.{◌≡◌, ◌++◌, ℕ, List, [], IfOk, OnOk};
ghost use Rattle.ba_wire_short.specs.declared.pieces.TheConstants as piece;
ghost use Rattle.ba_wire_short.specs.inside.Texts.{action_text, before_participant, body_text, is_direct, is_direct_endpoint, is_itself, is_unescaped, letter_pieces, notice_pieces, notice_text, reply_pieces};

use crate::pieces::{
    ACTION, ACTION_NUMBER, ACTION_OF_NOTICES, ACTION_OF_REGISTER, ACTION_OF_REGISTERED,
    ACTION_RELATED, END, ENVELOPE, FAIL, NOTICE, NOTICE_END, NUMBER_BODY, NUMBER_SOURCE,
    REGISTER_CC, REGISTER_END, REGISTER_PC, REGISTERED, REGISTERED_END, RELATED_BODY, SOURCE_BODY,
    TO, TO_ACTION,
};
use ba_core::{List, Memory, Notice, Octets, Protocol, name_of};
use ba_message::{Epr, Message};
use std::alloc::Global;

/// The room with which a text begins: as much as those of nodes with short addresses take.
const ROOM: usize = 1200;

/// Whether each of these bytes is written as itself in a text.
pub fn is_unescaped(bytes: &[u8]) -> bool
    ensures { result ≡ is_unescaped bytes.now }
{
    bytes.iter().all(|byte| is_itself(*byte))
}

fn is_itself(byte: u8) -> bool
    ensures { result ≡ is_itself byte }
{
    byte != b'&' && byte != b'<' && byte != b'>' && byte != b'\r'
}

/// Whether the body of a message is put here: a notice other than Status, a Register for a protocol that is known, and its
/// answer, where the endpoint has no parameters and its address no byte that is escaped.
pub fn is_direct(message: &Message) -> bool
    ensures { result ≡ is_direct message.now }
{
    match message {
        Message::Notice(Notice::Status(_)) => false,
        Message::Notice(_) => true,
        Message::Register {
            protocol: Some(_),
            participant,
        } => is_direct_endpoint(participant),
        Message::Registered(coordinator) => is_direct_endpoint(coordinator),
        _ => false,
    }
}

fn is_direct_endpoint(endpoint: &Epr) -> bool
    ensures { result ≡ is_direct_endpoint endpoint.now }
{
    endpoint.parameters.as_slice().is_empty() && is_unescaped(endpoint.address.as_slice())
}

fn put(text: &mut Octets, piece: &[u8]) -> Result<(), Memory>
    ensures { OnOk result ((rest : List ℕ) → text.new ++ rest ≡ text.old ++ (piece.now ++ rest)) }
{
    text.append(piece)
}

fn put_action(text: &mut Octets, message: &Message) -> Result<(), Memory>
    ensures { OnOk result ((rest : List ℕ) → text.new ++ rest ≡ text.old ++ action_text message.now rest) }
{
    match message {
        Message::Notice(notice) => {
            put(text, ACTION_OF_NOTICES)?;
            put(text, name_of(*notice))
        }
        Message::Register { .. } => put(text, ACTION_OF_REGISTER),
        Message::Registered(_) => put(text, ACTION_OF_REGISTERED),
        _ => Ok(()),
    }
}

fn put_notice(text: &mut Octets, notice: Notice) -> Result<(), Memory>
    ensures { OnOk result ((rest : List ℕ) → text.new ++ rest ≡ text.old ++ notice_text notice rest) }
{
    match notice {
        Notice::Fail => put(text, FAIL),
        _ => put_between(text, NOTICE, name_of(notice), NOTICE_END),
    }
}

fn put_between(text: &mut Octets, before: &[u8], middle: &[u8], after: &[u8]) -> Result<(), Memory>
    ensures { OnOk result ((rest : List ℕ) → text.new ++ rest ≡ text.old ++ (before.now ++ (middle.now ++ (after.now ++ rest)))) }
{
    put(text, before)?;
    put(text, middle)?;
    put(text, after)
}

fn before_participant(protocol: Option<Protocol>) -> &'static [u8]
    ensures { result.now ≡ before_participant protocol }
{
    match protocol {
        Some(Protocol::Pc) => REGISTER_PC,
        Some(Protocol::Cc) => REGISTER_CC,
        None => b"",
    }
}

fn put_body(text: &mut Octets, message: &Message) -> Result<(), Memory>
    ensures { OnOk result ((rest : List ℕ) → text.new ++ rest ≡ text.old ++ body_text message.now rest) }
{
    match message {
        Message::Notice(notice) => put_notice(text, *notice),
        Message::Register {
            protocol,
            participant,
        } => put_between(
            text,
            before_participant(*protocol),
            participant.address.as_slice(),
            REGISTER_END,
        ),
        Message::Registered(coordinator) => put_between(
            text,
            REGISTERED,
            coordinator.address.as_slice(),
            REGISTERED_END,
        ),
        _ => Ok(()),
    }
}

fn put_letter(text: &mut Octets, to: &[u8], number: &[u8], message: &Message) -> Result<(), Memory>
    ensures { OnOk result ((rest : List ℕ) → text.new ++ rest ≡ text.old ++ letter_pieces to.now number.now message.now rest) }
{
    put(text, ENVELOPE)?;
    put_between(text, TO, to, TO_ACTION)?;
    put_action(text, message)?;
    put_between(text, ACTION_NUMBER, number, NUMBER_BODY)?;
    put_body(text, message)?;
    put(text, END)
}

fn put_number_and_source(text: &mut Octets, number: &[u8], source: &[u8]) -> Result<(), Memory>
    ensures { OnOk result ((rest : List ℕ) → text.new ++ rest ≡ text.old
        ++ (piece.ACTION_NUMBER.now ++ (number.now ++ (piece.NUMBER_SOURCE.now ++ (source.now ++ (piece.SOURCE_BODY.now ++ rest)))))) }
{
    put(text, ACTION_NUMBER)?;
    put(text, number)?;
    put_between(text, NUMBER_SOURCE, source, SOURCE_BODY)
}

fn put_notice_letter(
    text: &mut Octets,
    source: &[u8],
    to: &[u8],
    number: &[u8],
    message: &Message,
) -> Result<(), Memory>
    ensures { OnOk result ((rest : List ℕ) → text.new ++ rest ≡ text.old ++ notice_pieces source.now to.now number.now message.now rest) }
{
    put(text, ENVELOPE)?;
    put_between(text, TO, to, TO_ACTION)?;
    put_action(text, message)?;
    put_number_and_source(text, number, source)?;
    put_body(text, message)?;
    put(text, END)
}

fn put_reply(text: &mut Octets, related: &[u8], message: &Message) -> Result<(), Memory>
    ensures { OnOk result ((rest : List ℕ) → text.new ++ rest ≡ text.old ++ reply_pieces related.now message.now rest) }
{
    put(text, ENVELOPE)?;
    put(text, ACTION)?;
    put_action(text, message)?;
    put_between(text, ACTION_RELATED, related, RELATED_BODY)?;
    put_body(text, message)?;
    put(text, END)
}

fn page(alloc: Global) -> Result<Octets, Memory>
    ensures { IfOk result (λ page. page ≡ []) }
{
    match Vec::with_capacity(alloc, ROOM) {
        Ok(items) => Ok(List::of(items)),
        Err(_) => Err(Memory),
    }
}

/// The canonical text of a letter to this address, with this number, whose body is put here.
pub fn letter_text(
    alloc: Global,
    to: &[u8],
    number: &[u8],
    message: &Message,
) -> Result<Octets, Memory>
    ensures { IfOk result (λ text. text ≡ letter_pieces to.now number.now message.now []) }
{
    let mut text = page(alloc)?;
    put_letter(&mut text, to, number, message)?;
    Ok(text)
}

/// The canonical text of the letter of a notice from one address to another, with this number, whose body is put here.
pub fn notice_letter_text(
    alloc: Global,
    source: &[u8],
    to: &[u8],
    number: &[u8],
    message: &Message,
) -> Result<Octets, Memory>
    ensures { IfOk result (λ text. text ≡ notice_pieces source.now to.now number.now message.now []) }
{
    let mut text = page(alloc)?;
    put_notice_letter(&mut text, source, to, number, message)?;
    Ok(text)
}

/// The canonical text of a reply to the letter with this number, whose body is put here.
pub fn reply_text(alloc: Global, related: &[u8], message: &Message) -> Result<Octets, Memory>
    ensures { IfOk result (λ text. text ≡ reply_pieces related.now message.now []) }
{
    let mut text = page(alloc)?;
    put_reply(&mut text, related, message)?;
    Ok(text)
}
