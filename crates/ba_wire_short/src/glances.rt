//! What a text says if it is the canonical one of a letter or a reply: by a glance, from which nothing is known yet.
ghost use Rattle.std.specs.Prelude.{IsTrue};
ghost use Rattle.ba_message.specs.Letters.{IsOwnEndpoint, IsPostable, IsPostableMessage, IsReply};

use crate::pieces::{
    ACTION, ACTION_NUMBER, ACTION_RELATED, ENVELOPE, FAIL, NOTICE, NUMBER_BODY, NUMBER_SOURCE,
    REGISTER_CC, REGISTER_PC, REGISTERED, RELATED_BODY, SOURCE_BODY, TO, TO_ACTION,
};
use ba_core::{Id, List, Memory, Notice, Octets, Protocol, name_of};
use ba_message::{Epr, Letter, Message, dialable};
use std::alloc::Global;
use uuid::Uuid;

/// What a text seems to say.
#[derive(Debug, Drop)]
pub enum Glance {
    Letter(Letter),
    /// The letter of a notice from this endpoint.
    Notice(Epr, Letter),
    /// The reply to the letter with this number.
    Reply(Id, Message),
}

/// What a text seems to say, if it begins as the canonical text of a letter or a reply does.
pub fn glance_at(alloc: Global, text: &[u8]) -> Result<Option<Glance>, Memory> {
    let Some(blocks) = text.strip_prefix(ENVELOPE) else {
        return Ok(None);
    };
    if let Some(rest) = blocks.strip_prefix(TO) {
        return letter_in(alloc, rest);
    }
    match blocks.strip_prefix(ACTION) {
        Some(rest) => reply_in(alloc, rest),
        None => Ok(None),
    }
}

fn letter_in(alloc: Global, rest: &[u8]) -> Result<Option<Glance>, Memory> {
    let (address, rest) = up_to_tag(rest);
    let Some(rest) = rest.strip_prefix(TO_ACTION) else {
        return Ok(None);
    };
    let (_, rest) = up_to_tag(rest);
    if let Some((number, rest)) = number_in(rest, ACTION_NUMBER, NUMBER_SOURCE) {
        return notice_letter_in(alloc, address, number, rest);
    }
    let Some((number, body)) = number_in(rest, ACTION_NUMBER, NUMBER_BODY) else {
        return Ok(None);
    };
    match letter_with(alloc, address, number, body)? {
        Some(letter) => Ok(Some(Glance::Letter(letter))),
        None => Ok(None),
    }
}

fn notice_letter_in(
    alloc: Global,
    address: &[u8],
    number: Id,
    rest: &[u8],
) -> Result<Option<Glance>, Memory> {
    let (source, rest) = up_to_tag(rest);
    let Some(body) = rest.strip_prefix(SOURCE_BODY) else {
        return Ok(None);
    };
    match letter_with(alloc, address, number, body)? {
        Some(letter) => Ok(Some(Glance::Notice(endpoint(alloc, source)?, letter))),
        None => Ok(None),
    }
}

// The letter to this address with this number and this body.
fn letter_with(
    alloc: Global,
    address: &[u8],
    number: Id,
    body: &[u8],
) -> Result<Option<Letter>, Memory> {
    let Some(message) = message_in(alloc, body)? else {
        return Ok(None);
    };
    Ok(Some(Letter {
        to: endpoint(alloc, address)?,
        number,
        message,
    }))
}

fn reply_in(alloc: Global, rest: &[u8]) -> Result<Option<Glance>, Memory> {
    let (_, rest) = up_to_tag(rest);
    let Some((number, body)) = number_in(rest, ACTION_RELATED, RELATED_BODY) else {
        return Ok(None);
    };
    match message_in(alloc, body)? {
        Some(message) => Ok(Some(Glance::Reply(number, message))),
        None => Ok(None),
    }
}

// The bytes before the next tag, and those from it on.
fn up_to_tag(bytes: &[u8]) -> (&[u8], &[u8]) {
    let length = bytes
        .iter()
        .position(|byte| *byte == b'<')
        .unwrap_or(bytes.len());
    (&bytes[..length], &bytes[length..])
}

// The number between these pieces, and what stands after them.
fn number_in<'a>(bytes: &'a [u8], before: &[u8], after: &[u8]) -> Option<(Id, &'a [u8])> {
    let (urn, rest) = up_to_tag(bytes.strip_prefix(before)?);
    let rest = rest.strip_prefix(after)?;
    match Uuid::try_parse_ascii(urn) {
        Ok(number) => Some((Id(number.as_u128()), rest)),
        Err(_) => None,
    }
}

fn endpoint(alloc: Global, address: &[u8]) -> Result<Epr, Memory> {
    let mut copy: Octets = List::new(alloc);
    copy.append(address)?;
    Ok(Epr {
        address: copy,
        parameters: List::new(alloc),
    })
}

fn message_in(alloc: Global, body: &[u8]) -> Result<Option<Message>, Memory> {
    if body.strip_prefix(FAIL).is_some() {
        return Ok(Some(Message::Notice(Notice::Fail)));
    }
    if let Some(rest) = body.strip_prefix(NOTICE) {
        return Ok(notice_in(rest));
    }
    if let Some(rest) = body.strip_prefix(REGISTER_PC) {
        return register_in(alloc, Protocol::Pc, rest);
    }
    if let Some(rest) = body.strip_prefix(REGISTER_CC) {
        return register_in(alloc, Protocol::Cc, rest);
    }
    match body.strip_prefix(REGISTERED) {
        Some(rest) => {
            let (address, _) = up_to_tag(rest);
            Ok(Some(Message::Registered(endpoint(alloc, address)?)))
        }
        None => Ok(None),
    }
}

fn register_in(alloc: Global, protocol: Protocol, rest: &[u8]) -> Result<Option<Message>, Memory> {
    let (address, _) = up_to_tag(rest);
    Ok(Some(Message::Register {
        protocol: Some(protocol),
        participant: endpoint(alloc, address)?,
    }))
}

const NOTICES: [Notice; 14] = [
    Notice::Completed,
    Notice::Close,
    Notice::Closed,
    Notice::Complete,
    Notice::Cancel,
    Notice::Canceled,
    Notice::Compensate,
    Notice::Compensated,
    Notice::Exit,
    Notice::Exited,
    Notice::Failed,
    Notice::CannotComplete,
    Notice::NotCompleted,
    Notice::GetStatus,
];

// The notice of this name, which an empty element has.
fn notice_in(rest: &[u8]) -> Option<Message> {
    let length = rest.iter().position(|byte| *byte == b'/')?;
    let name = &rest[..length];
    let notice = NOTICES
        .iter()
        .copied()
        .find(|notice| name_of(*notice) == name)?;
    Some(Message::Notice(notice))
}

// ---- what a node may have sent

/// Whether an endpoint is one as nodes have them.
pub fn is_own(endpoint: &Epr) -> bool
    ensures { IsTrue result → IsOwnEndpoint endpoint.now }
{
    endpoint.parameters.is_empty() && dialable(endpoint.address.as_slice())
}

fn is_postable_message(message: &Message) -> bool
    ensures { IsTrue result → IsPostableMessage message.now }
{
    match message {
        Message::Notice(Notice::Status(_)) => false,
        Message::Notice(_) => true,
        Message::Register {
            protocol: Some(_),
            participant,
        } => is_own(participant),
        _ => false,
    }
}

/// Whether a letter is one to an endpoint as nodes have them, with a message as they post them.
pub fn is_postable(letter: &Letter) -> bool
    ensures { IsTrue result → IsPostable letter.now }
{
    is_own(&letter.to) && is_postable_message(&letter.message)
}

/// Whether a reply names an endpoint as nodes have them.
pub fn is_reply(message: &Message) -> bool
    ensures { IsTrue result → IsReply message.now }
{
    match message {
        Message::Registered(coordinator) => is_own(coordinator),
        _ => false,
    }
}
