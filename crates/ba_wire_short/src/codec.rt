//! Writing and reading of envelopes: of a node's own letters and replies by their canonical text, of the others by their trees.
ghost use Rattle.std.specs.Prelude.{◌≡◌, ◌≢◌, [], IfErr, IfOk, IfSome, IsTrue, Ok};
ghost use Rattle.ba_wire_short.specs.inside.Texts.{IsDirectLetter, IsDirectNotice, IsDirectReply};
ghost use Rattle.ba_message.specs.Letters.{IsOwnEndpoint, IsPostable, IsReply};
ghost use Rattle.ba_soap.specs.Envelopes.{soap11};
ghost use Rattle.ba_tree.specs.declared.trees.Tree.{Tree};
ghost use Rattle.ba_wire.specs.Envelopes.{CanEncode, CanEncodeLetter, TimesFit, envelope_text, is_numbered, letter_text, letter_tree, notice_tree};
ghost use Rattle.ba_wire.specs.Meaning.{IsDecodedOf, IsNoMessage, IsWireAnswer, Means};
ghost use Rattle.ba_wire.specs.declared.faults.WireFault.{WireFault};
ghost use Rattle.ba_wire.specs.declared.meaning.Decoded.{Decoded};
ghost use Rattle.ba_xml_grammar.specs.GrammarTexts.{IsXmlText};
ghost use Rattle.ba_xml_writer.specs.OneText.{one_text};

use crate::glances::{Glance, glance_at, is_own, is_postable, is_reply};
use crate::texts::{is_direct, is_unescaped, letter_text, notice_letter_text, reply_text};
use ba_core::{Id, List, Memory, Octets};
use ba_message::{Epr, Letter, Message};
use ba_wire::{Decoded, Route, WireFault, number_urn, route_of};
use std::alloc::Global;

/// The canonical text of the envelope of a route and a message.
pub fn encode(alloc: Global, route: &Route, message: &Message) -> Result<Octets, Memory>
    requires { CanEncode route.now message.now }
    ensures { IfOk result (λ text. text ≡ envelope_text route.now message.now) }
{
    match direct_text(alloc, route, message)? {
        Some(text) => Ok(text),
        None => ba_wire::encode(alloc, route, message),
    }
}

/// The canonical text of a letter from an endpoint.
pub fn encode_letter(
    alloc: Global,
    source: &Epr,
    route: &Route,
    message: &Message,
) -> Result<Octets, Memory>
    requires { CanEncodeLetter source.now route.now message.now }
    ensures { IfOk result (λ text. text ≡ letter_text source.now route.now message.now) }
{
    match message {
        Message::Notice(_) => encode_notice(alloc, source, route, message),
        _ => encode(alloc, route, message),
    }
}

fn encode_notice(
    alloc: Global,
    source: &Epr,
    route: &Route,
    message: &Message,
) -> Result<Octets, Memory>
    requires letter { CanEncodeLetter source.now route.now message.now }
    requires notice { letter_tree source.now route.now message.now ≡ notice_tree source.now route.now message.now }
    ensures { IfOk result (λ text. text ≡ letter_text source.now route.now message.now) }
{
    match direct_notice_text(alloc, source, route, message)? {
        Some(text) => Ok(text),
        None => ba_wire::encode_letter(alloc, source, route, message),
    }
}

// The canonical text of the letter of a notice, where it is put piece by piece.
fn direct_notice_text(
    alloc: Global,
    source: &Epr,
    route: &Route,
    message: &Message,
) -> Result<Option<Octets>, Memory>
    ensures { IfOk result (λ found. IfSome found (λ text. text ≡ one_text (notice_tree source.now route.now message.now))) }
{
    if !route.parameters.is_empty() || !is_alone(source) || !is_direct(message) {
        return Ok(None);
    }
    match (&route.to, &route.message_id, &route.relates_to) {
        (Some(to), Some(number), None) => {
            direct_notice(alloc, source, to.as_slice(), number.as_slice(), message)
        }
        _ => Ok(None),
    }
}

// Whether an endpoint is its address alone.
fn is_alone(endpoint: &Epr) -> bool
    ensures { IsTrue result → endpoint.now.parameters ≡ [] }
{
    endpoint.parameters.is_empty()
}

fn direct_notice(
    alloc: Global,
    source: &Epr,
    to: &[u8],
    number: &[u8],
    message: &Message,
) -> Result<Option<Octets>, Memory>
    ensures { IfOk result (λ found. IfSome found (IsDirectNotice source.now.address to.now number.now message.now)) }
{
    let source = source.address.as_slice();
    if is_unescaped(source) && is_unescaped(to) && is_unescaped(number) {
        Ok(Some(notice_letter_text(alloc, source, to, number, message)?))
    } else {
        Ok(None)
    }
}

// The canonical text, where it is put piece by piece.
fn direct_text(alloc: Global, route: &Route, message: &Message) -> Result<Option<Octets>, Memory>
    ensures { IfOk result (λ found. IfSome found (λ text. text ≡ envelope_text route.now message.now)) }
{
    if !route.parameters.is_empty() || !is_direct(message) {
        return Ok(None);
    }
    match (&route.to, &route.message_id, &route.relates_to) {
        (Some(to), Some(number), None) => {
            direct_letter(alloc, to.as_slice(), number.as_slice(), message)
        }
        (None, None, Some(related)) => direct_reply(alloc, related.as_slice(), message),
        _ => Ok(None),
    }
}

fn direct_letter(
    alloc: Global,
    to: &[u8],
    number: &[u8],
    message: &Message,
) -> Result<Option<Octets>, Memory>
    ensures { IfOk result (λ found. IfSome found (IsDirectLetter to.now number.now message.now)) }
{
    if is_unescaped(to) && is_unescaped(number) {
        Ok(Some(letter_text(alloc, to, number, message)?))
    } else {
        Ok(None)
    }
}

fn direct_reply(alloc: Global, related: &[u8], message: &Message) -> Result<Option<Octets>, Memory>
    ensures { IfOk result (λ found. IfSome found (IsDirectReply related.now message.now)) }
{
    if is_unescaped(related) {
        Ok(Some(reply_text(alloc, related, message)?))
    } else {
        Ok(None)
    }
}

/// Reads the message that a text of an envelope means.
pub fn decode(alloc: Global, bytes: &[u8]) -> Result<Decoded, WireFault>
    ensures answer { IsDecodedOf bytes.now result }
    ensures means { IfOk result (λ decoded. (tree : Tree) × IsXmlText bytes.now tree × Means soap11 tree decoded) }
    ensures only { (tree : Tree) (decoded : Decoded) → IsXmlText bytes.now tree → Means soap11 tree decoded → IsWireAnswer (Ok decoded) result }
    ensures refusal { IfErr result (λ fault. fault ≢ WireFault.Memory → IsNoMessage bytes.now fault) }
{
    answer(alloc, bytes)
}

fn answer(alloc: Global, bytes: &[u8]) -> Result<Decoded, WireFault>
    ensures { IsDecodedOf bytes.now result }
{
    match at_a_glance(alloc, bytes) {
        Err(Memory) => Err(WireFault::Memory),
        Ok(Some(decoded)) => Ok(decoded),
        Ok(None) => ba_wire::decode(alloc, bytes),
    }
}

// What a text says, where it is the canonical one of a letter or a reply: it is written again, and the same.
fn at_a_glance(alloc: Global, bytes: &[u8]) -> Result<Option<Decoded>, Memory>
    ensures { IfOk result (λ found. IfSome found (λ decoded. IsDecodedOf bytes.now (Ok decoded))) }
{
    match glance_at(alloc, bytes)? {
        Some(Glance::Letter(letter)) if is_postable(&letter) => as_letter(alloc, bytes, letter),
        Some(Glance::Notice(source, letter)) if is_own(&source) && is_postable(&letter) => {
            as_notice(alloc, bytes, &source, letter)
        }
        Some(Glance::Reply(number, message)) if is_reply(&message) => {
            as_reply(alloc, bytes, number, message)
        }
        _ => Ok(None),
    }
}

fn as_letter(alloc: Global, bytes: &[u8], letter: Letter) -> Result<Option<Decoded>, Memory>
    requires { IsPostable letter }
    ensures { IfOk result (λ found. IfSome found (λ decoded. IsDecodedOf bytes.now (Ok decoded))) }
{
    let route = route_of(alloc, &letter)?;
    let Letter { message, .. } = letter;
    same_text(alloc, bytes, route, message)
}

fn as_notice(
    alloc: Global,
    bytes: &[u8],
    source: &Epr,
    letter: Letter,
) -> Result<Option<Decoded>, Memory>
    requires source { IsOwnEndpoint source.now }
    requires letter { IsPostable letter }
    ensures { IfOk result (λ found. IfSome found (λ decoded. IsDecodedOf bytes.now (Ok decoded))) }
{
    let route = route_of(alloc, &letter)?;
    let Letter { message, .. } = letter;
    same_letter(alloc, bytes, source, route, message)
}

fn same_letter(
    alloc: Global,
    bytes: &[u8],
    source: &Epr,
    route: Route,
    message: Message,
) -> Result<Option<Decoded>, Memory>
    requires encodes { CanEncodeLetter source.now route message }
    requires numbered { IsTrue (is_numbered route message) }
    requires times { TimesFit message }
    ensures { IfOk result (λ found. IfSome found (λ decoded. IsDecodedOf bytes.now (Ok decoded))) }
{
    let text = encode_letter(alloc, source, &route, &message)?;
    if is_same(text.as_slice(), bytes) {
        Ok(Some(Decoded { route, message }))
    } else {
        Ok(None)
    }
}

fn as_reply(
    alloc: Global,
    bytes: &[u8],
    number: Id,
    message: Message,
) -> Result<Option<Decoded>, Memory>
    requires { IsReply message }
    ensures { IfOk result (λ found. IfSome found (λ decoded. IsDecodedOf bytes.now (Ok decoded))) }
{
    let route = Route {
        to: None,
        message_id: None,
        relates_to: Some(number_urn(alloc, number)?),
        parameters: List::new(alloc),
    };
    same_text(alloc, bytes, route, message)
}

fn same_text(
    alloc: Global,
    bytes: &[u8],
    route: Route,
    message: Message,
) -> Result<Option<Decoded>, Memory>
    requires encodes { CanEncode route message }
    requires numbered { IsTrue (is_numbered route message) }
    requires times { TimesFit message }
    ensures { IfOk result (λ found. IfSome found (λ decoded. IsDecodedOf bytes.now (Ok decoded))) }
{
    let text = encode(alloc, &route, &message)?;
    if is_same(text.as_slice(), bytes) {
        Ok(Some(Decoded { route, message }))
    } else {
        Ok(None)
    }
}

fn is_same(text: &[u8], bytes: &[u8]) -> bool
    ensures { IsTrue result → bytes.now ≡ text.now }
{
    text == bytes
}
