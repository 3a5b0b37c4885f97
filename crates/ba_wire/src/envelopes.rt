//! Messages in envelopes: writing, and texts both ways.
ghost use Rattle.std.specs.Prelude.{◌≡◌, ◌++◌, IfOk, IsTrue, is_some, map};
ghost use Rattle.ba_message.specs.Endpoints.{Fits};
ghost use Rattle.ba_soap.specs.Elements.{envelope_element, notification_element};
ghost use Rattle.ba_soap.specs.Envelopes.{soap11};
ghost use Rattle.ba_wire.specs.Actions.{body_name, element_uri};
ghost use Rattle.ba_wire.specs.Elements.{body_of_message};
ghost use Rattle.ba_xml_writer.specs.OneText.{one_text};
ghost use Rattle.ba_wire.specs.Envelopes.{CanEncode, CanEncodeLetter, EndpointsFit, HasEnvelope, action_for, envelope_of, envelope_text, envelope_tree, fault_action, is_known, is_known_code, is_known_context, has_known_state, is_known_state, letter_text, letter_tree, notice_tree};

use crate::bodies::{
    Body, CREATE_ACTION, CREATED_ACTION, REGISTER_ACTION, REGISTERED_ACTION, notice_action,
};
use crate::elements::{Family, body_element};
use crate::routes::Route;
use ba_core::{Code, List, Memory, Notice, Octets, StateName};
use ba_message::{Context, Epr, Message};
use ba_soap::{Envelope, ReplyTo, Soap11, write_envelope, write_notification};
use ba_tree::Tree;
use ba_xml::write;
use std::alloc::Global;

/// The name of a message: that of its body's element.
pub fn message_name(message: &Message) -> &'static [u8]
    ensures { result.now ≡ body_name (body_of_message message.now) }
{
    Body::of_message(message).name()
}

// ---- which messages are known

/// Whether a message names no protocol, no coordination type, no state and no code that this project doesn't know.
pub fn is_known(message: &Message) -> bool
    ensures { result ≡ is_known message.now }
{
    match message {
        Message::Create { current, kind, .. } => is_known_context(current) && kind.is_some(),
        Message::Created(context) => context.kind.is_some(),
        Message::Register { protocol, .. } => protocol.is_some(),
        Message::Registered(_) => true,
        Message::Notice(notice) => is_known_notice(*notice),
        Message::Fault(code) => is_known_code(*code),
    }
}

fn is_known_context(context: &Option<Context>) -> bool
    ensures { result ≡ is_known_context context.now }
{
    match context {
        None => true,
        Some(context) => context.kind.is_some(),
    }
}

fn is_known_notice(notice: Notice) -> bool
    ensures { result ≡ has_known_state notice }
{
    match notice {
        Notice::Status(state) => is_known_state(state),
        _ => true,
    }
}

fn is_known_state(state: StateName) -> bool
    ensures { result ≡ is_known_state state }
{
    !matches!(state, StateName::Other)
}

fn is_known_code(code: Code) -> bool
    ensures { result ≡ is_known_code code }
{
    !matches!(code, Code::Other)
}

// ---- the envelope

fn fault_action(family: Family) -> &'static [u8]
    ensures { result.now ≡ fault_action family }
{
    match family {
        Family::Soap => b"http://www.w3.org/2005/08/addressing/soap/fault",
        Family::Coordination => b"http://docs.oasis-open.org/ws-tx/wscoor/2006/06/fault",
        Family::Addressing => b"http://www.w3.org/2005/08/addressing/fault",
    }
}

/// The action of a message, which a SOAPAction repeats: that of its body, or of faults by whose code it is.
pub fn action_of(message: &Message) -> &'static [u8]
    ensures { result.now ≡ action_for message.now }
{
    match message {
        Message::Create { .. } => CREATE_ACTION,
        Message::Created(_) => CREATED_ACTION,
        Message::Register { .. } => REGISTER_ACTION,
        Message::Registered(_) => REGISTERED_ACTION,
        Message::Notice(notice) => notice_action(*notice),
        Message::Fault(code) => fault_action(Family::of(*code)),
    }
}

fn copy_action(alloc: Global, message: &Message) -> Result<Octets, Memory>
    ensures { IfOk result (λ action. action ≡ action_for message.now) }
{
    let mut action = List::new(alloc);
    action.append(action_of(message))?;
    Ok(action)
}

fn copy_text(text: &Option<Octets>) -> Result<Option<Octets>, Memory>
    ensures { IfOk result (λ copy. copy ≡ text.now) }
{
    match text {
        None => Ok(None),
        Some(text) => Ok(Some(text.copy()?)),
    }
}

fn copy_trees(alloc: Global, trees: &[Tree]) -> Result<List<Tree>, Memory>
    ensures { IfOk result (λ copies. copies ≡ trees.now) }
{
    let mut copies = List::new(alloc);
    for tree in trees {
        let copy = tree.copy(alloc)?;
        if copies.push(copy).is_err() {
            return Err(Memory);
        }
    }
    Ok(copies)
}

fn envelope_of(alloc: Global, route: &Route, message: &Message) -> Result<Envelope, Memory>
    requires { EndpointsFit message.now }
    ensures { IfOk result (λ envelope. envelope ≡ envelope_of route.now message.now) }
{
    Ok(Envelope {
        to: copy_text(&route.to)?,
        action: copy_action(alloc, message)?,
        message_id: copy_text(&route.message_id)?,
        relates_to: copy_text(&route.relates_to)?,
        reply: ReplyTo::Absent,
        parameters: copy_trees(alloc, route.parameters.as_slice())?,
        body: body_element(alloc, message)?,
    })
}

/// The element of the envelope of a route and a message.
pub fn envelope_tree(alloc: Global, route: &Route, message: &Message) -> Result<Tree, Memory>
    requires { HasEnvelope route.now message.now }
    ensures { IfOk result (λ tree. tree ≡ envelope_tree route.now message.now) }
{
    let envelope = envelope_of(alloc, route, message)?;
    write_envelope(alloc, &envelope)
}

/// The canonical text of the envelope of a route and a message.
pub fn encode(alloc: Global, route: &Route, message: &Message) -> Result<Octets, Memory>
    requires { CanEncode route.now message.now }
    ensures { IfOk result (λ text. text ≡ envelope_text route.now message.now) }
{
    let tree = envelope_tree(alloc, route, message)?;
    text_of(alloc, &tree)
}

/// The element of a letter from an endpoint: a notice says whose it is, and that no reply is wanted; a Register is in its
/// envelope as it is.
pub fn letter_tree(
    alloc: Global,
    source: &Epr,
    route: &Route,
    message: &Message,
) -> Result<Tree, Memory>
    requires { HasEnvelope route.now message.now }
    ensures { IfOk result (λ tree. tree ≡ letter_tree source.now route.now message.now) }
{
    match message {
        Message::Notice(_) => notice_tree(alloc, source, route, message),
        Message::Create { .. }
        | Message::Created(_)
        | Message::Register { .. }
        | Message::Registered(_)
        | Message::Fault(_) => envelope_tree(alloc, route, message),
    }
}

fn notice_tree(alloc: Global, source: &Epr, route: &Route, notice: &Message) -> Result<Tree, Memory>
    requires { HasEnvelope route.now notice.now }
    ensures { IfOk result (λ tree. tree ≡ notice_tree source.now route.now notice.now) }
{
    let envelope = envelope_of(alloc, route, notice)?;
    write_notification(alloc, &Soap11, source, &envelope)
}

/// The canonical text of a letter from an endpoint.
pub fn encode_letter(
    alloc: Global,
    source: &Epr,
    route: &Route,
    message: &Message,
) -> Result<Octets, Memory>
    requires { CanEncodeLetter source.now route.now message.now }
    ensures { IfOk result (λ text. text ≡ letter_text source.now route.now message.now) }
{
    let tree = letter_tree(alloc, source, route, message)?;
    text_of(alloc, &tree)
}

/// The canonical text of a tree.
fn text_of(alloc: Global, tree: &Tree) -> Result<Octets, Memory>
    ensures { IfOk result (λ text. text ≡ one_text tree.now) }
{
    let mut text = List::new(alloc);
    write(alloc, tree, &mut text)?;
    Ok(text)
}
