//! What envelopes and their texts mean: reading.
ghost use Rattle.std.specs.Prelude.{◌≡◌, ◌≢◌, ℕ, IfOk, IfErr, Ok, Err, Some, None, find, map};
ghost use Rattle.std.specs.List.{list_any};
ghost use Rattle.ba_soap.specs.Envelopes.{soap11};
ghost use Rattle.ba_wire.specs.Actions.{body_name, body_of, body_space, bodies, fault_actions};
ghost use Rattle.ba_wire.specs.Bodies.{body_look, message_of};
ghost use Rattle.ba_tree.specs.declared.trees.Tree.{Tree};
ghost use Rattle.ba_wire.specs.declared.meaning.Decoded.{Decoded};
ghost use Rattle.ba_xml_grammar.specs.GrammarTexts.{IsXmlText};
ghost use Rattle.ba_wire.specs.Meaning.{IsNoMessage, IsDecodedOf, IsWireAnswer, answer_by_tree, Means, asks_for_reply, answer_of_body, answer_by_envelope, answer_by_reply, answer_by_shape, is_elsewhere, body_named, wire_fault_at, reply_refusal, reply_rule, route_of_envelope, tree_answer, unknown_action_fault, which_body};

use crate::bodies::Body;
use crate::faults::WireFault;
use crate::routes::Route;
use ba_core::{Memory, Notice};
use ba_message::Message;
use ba_soap::{Envelope, Header, ReplyTo, SoapFault, is_called, read_envelope};
use ba_soap_shapes::{Misfit, Why};
use ba_tree::{SOAP_SPACE, Tree};
use ba_xml::{XmlFault, read};
use std::alloc::Global;

/// A route and a message.
#[derive(Debug, Drop)]
pub struct Decoded {
    pub route: Route,
    pub message: Message,
}

/// Reads the message that a text of an envelope means.
pub fn decode(alloc: Global, bytes: &[u8]) -> Result<Decoded, WireFault>
    ensures answer { IsDecodedOf bytes.now result }
    ensures means { IfOk result (λ decoded. (tree : Tree) × IsXmlText bytes.now tree × Means soap11 tree decoded) }
    ensures only { (tree : Tree) (decoded : Decoded) → IsXmlText bytes.now tree → Means soap11 tree decoded → IsWireAnswer (Ok decoded) result }
    ensures refusal { IfErr result (λ fault. fault ≢ WireFault.Memory → IsNoMessage bytes.now fault) }
{
    answer_of_text(alloc, bytes)
}

fn answer_of_text(alloc: Global, bytes: &[u8]) -> Result<Decoded, WireFault>
    ensures { IsDecodedOf bytes.now result }
{
    match read(alloc, bytes) {
        Err(fault) => Err(unread(fault)),
        Ok(tree) => answer(alloc, &tree),
    }
}

fn unread(fault: XmlFault) -> WireFault
    ensures { answer_by_tree (Err fault) ≡ Err result }
{
    match fault {
        XmlFault::Memory => WireFault::Memory,
        XmlFault::At { reason, place } => WireFault::Xml { reason, place },
    }
}

/// Reads the message that an envelope means.
pub fn decode_tree(alloc: Global, tree: &Tree) -> Result<Decoded, WireFault>
    ensures answer { IsWireAnswer (tree_answer soap11 tree.now) result }
    ensures means { IfOk result (λ decoded. Means soap11 tree.now decoded) }
    ensures refusal { IfErr result (λ fault. fault ≢ WireFault.Memory → tree_answer soap11 tree.now ≡ Err fault) }
{
    answer(alloc, tree)
}

fn answer(alloc: Global, tree: &Tree) -> Result<Decoded, WireFault>
    ensures { IsWireAnswer (tree_answer soap11 tree.now) result }
{
    match read_envelope(alloc, tree) {
        Err(SoapFault::Memory) => Err(WireFault::Memory),
        Err(fault) => Err(WireFault::Soap(fault)),
        Ok(envelope) => decode_envelope(alloc, envelope),
    }
}

fn decode_envelope(alloc: Global, envelope: Envelope) -> Result<Decoded, WireFault>
    ensures { IsWireAnswer (answer_by_envelope soap11 (Ok envelope)) result }
{
    match which_body(&envelope) {
        Err(fault) => Err(fault),
        Ok(body) => decode_body(alloc, body, envelope),
    }
}

fn decode_body(alloc: Global, body: Body, envelope: Envelope) -> Result<Decoded, WireFault>
    ensures { IsWireAnswer (answer_by_reply (reply_refusal body envelope) body envelope) result }
{
    match reply_refusal(body, &envelope) {
        Some(fault) => Err(fault),
        None => decode_shape(alloc, body, envelope),
    }
}

fn decode_shape(alloc: Global, body: Body, envelope: Envelope) -> Result<Decoded, WireFault>
    ensures { IsWireAnswer (answer_by_shape (body_look body 0 envelope.body) body envelope) result }
{
    match body.misfit(alloc, &envelope.body)? {
        Some(misfit) => Err(refused(misfit)),
        None => {
            let message = body.message(alloc, &envelope.body)?;
            Ok(Decoded {
                route: route_in(envelope),
                message,
            })
        }
    }
}

fn refused(misfit: Misfit) -> WireFault
    ensures { result ≡ wire_fault_at misfit.number misfit.why }
{
    match misfit.why {
        Why::Mismatch => WireFault::BodyMismatch(misfit.number),
        Why::Limit => WireFault::EprLimit(misfit.number),
    }
}

fn route_in(envelope: Envelope) -> Route
    ensures { result ≡ route_of_envelope envelope }
{
    Route {
        to: envelope.to,
        message_id: envelope.message_id,
        relates_to: envelope.relates_to,
        parameters: envelope.parameters,
    }
}

fn which_body(envelope: &Envelope) -> Result<Body, WireFault>
    ensures { result ≡ which_body soap11 envelope.now }
{
    let soap = SOAP_SPACE;
    if is_called(&envelope.body.name, soap, b"Fault".as_slice()) {
        return Ok(Body::Fault);
    }
    match Body::of(envelope.action.as_slice()) {
        None => Err(unknown(envelope.action.as_slice())),
        Some(body) => {
            if is_called(&envelope.body.name, body.space(), body.name()) {
                Ok(body)
            } else {
                Err(WireFault::BodyMismatch(0))
            }
        }
    }
}

/// The refusal of an action that names no body.
fn unknown(action: &[u8]) -> WireFault
    ensures { result ≡ unknown_action_fault action.now }
{
    if action == b"http://www.w3.org/2005/08/addressing/soap/fault".as_slice()
        || action == b"http://docs.oasis-open.org/ws-tx/wscoor/2006/06/fault".as_slice()
        || action == b"http://www.w3.org/2005/08/addressing/fault".as_slice()
    {
        WireFault::BodyMismatch(0)
    } else {
        WireFault::ActionNotSupported
    }
}

fn reply_refusal(body: Body, envelope: &Envelope) -> Option<WireFault>
    ensures { result ≡ reply_refusal body envelope.now }
{
    if !body.asks() {
        return None;
    }
    if envelope.message_id.is_none() {
        return Some(WireFault::Soap(SoapFault::HeaderRequired(Header::MessageID)));
    }
    match envelope.reply {
        ReplyTo::Elsewhere => Some(WireFault::OnlyAnonymous),
        ReplyTo::Absent | ReplyTo::Anonymous => None,
    }
}
