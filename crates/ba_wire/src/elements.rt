//! The body elements of messages: writing.
ghost use Rattle.std.specs.Prelude.{◌≡◌, [], ◌∷◌, ◌++◌, IfOk, map, codes};
ghost use Rattle.ba_core.specs.Texts.{state_text};
ghost use Rattle.ba_message.specs.Endpoints.{Fits};
ghost use Rattle.ba_tree.specs.declared.trees.Content.TheVariants.{Child, Text};
ghost use Rattle.ba_soap_shapes.specs.Endpoints.{bare_element, endpoint_element};
ghost use Rattle.ba_wire.specs.Elements.{body_element, body_of_message, body_of_notice, body_parts, context_element, context_parts, current_part, expires_part, family_of, fault_parts, kind_uri, notice_parts, prefix_of_family, protocol_uri, text_in_element, type_part, upward_part, wsba_name, wscoor_name};
ghost use Rattle.ba_wire.specs.Envelopes.{ContextFits, EndpointsFit};

use crate::bodies::Body;
use ba_core::{Code, Kind, List, Memory, Notice, Octets, Protocol, StateName};
use ba_message::{Context, Epr, Message};
use ba_soap_shapes::{and, element, name, only, text_element, tree_of_epr};
use ba_tree::{Content, OWN_SPACE, Tree, WSBA_SPACE, WSCOOR_SPACE};
use itoa::Buffer;
use std::alloc::Global;

/// Whose the code of a fault is.
#[derive(Clone, Copy, Debug, PartialEq, Eq)]
pub enum Family {
    Soap,
    Coordination,
    Addressing,
}

impl Family {
    pub fn of(code: Code) -> Family
        ensures { result ≡ family_of code }
    {
        match code {
            Code::VersionMismatch
            | Code::MustUnderstand
            | Code::Client
            | Code::Server
            | Code::Other => Family::Soap,
            Code::InvalidState
            | Code::InvalidProtocol
            | Code::InvalidParameters
            | Code::CannotCreateContext
            | Code::CannotRegisterParticipant => Family::Coordination,
            Code::InvalidAddressingHeader
            | Code::MessageAddressingHeaderRequired
            | Code::DestinationUnreachable
            | Code::ActionNotSupported
            | Code::EndpointUnavailable => Family::Addressing,
        }
    }

    /// The prefix that a canonical text declares for their namespace.
    fn prefix(self) -> &'static [u8]
        ensures { result.now ≡ prefix_of_family self }
    {
        match self {
            Family::Soap => b"soap:",
            Family::Coordination => b"wscoor:",
            Family::Addressing => b"wsa:",
        }
    }
}

impl Body {
    /// The body that a message has.
    pub fn of_message(message: &Message) -> Body
        ensures { result ≡ body_of_message message.now }
    {
        match message {
            Message::Create { .. } => Body::Create,
            Message::Created(_) => Body::Created,
            Message::Register { .. } => Body::Register,
            Message::Registered(_) => Body::Registered,
            Message::Notice(notice) => Body::of_notice(*notice),
            Message::Fault(_) => Body::Fault,
        }
    }

    fn of_notice(notice: Notice) -> Body
        ensures { result ≡ body_of_notice notice }
    {
        match notice {
            Notice::Status(_) => Body::Status,
            _ => Body::Notice(notice),
        }
    }
}

/// The URI of a coordination type.
fn kind_uri(kind: Option<Kind>) -> &'static [u8]
    ensures { result.now ≡ kind_uri kind }
{
    match kind {
        None => b"",
        Some(Kind::Atomic) => b"http://docs.oasis-open.org/ws-tx/wsba/2006/06/AtomicOutcome",
        Some(Kind::Mixed) => b"http://docs.oasis-open.org/ws-tx/wsba/2006/06/MixedOutcome",
    }
}

/// The URI of a protocol.
fn protocol_uri(protocol: Option<Protocol>) -> &'static [u8]
    ensures { result.now ≡ protocol_uri protocol }
{
    match protocol {
        None => b"",
        Some(Protocol::Pc) => {
            b"http://docs.oasis-open.org/ws-tx/wsba/2006/06/ParticipantCompletion"
        }
        Some(Protocol::Cc) => {
            b"http://docs.oasis-open.org/ws-tx/wsba/2006/06/CoordinatorCompletion"
        }
    }
}

/// One text after another.
fn joined(alloc: Global, one: &[u8], other: &[u8]) -> Result<Octets, Memory>
    ensures { IfOk result (λ text. text ≡ one.now ++ other.now) }
{
    let mut text = List::new(alloc);
    text.append(one)?;
    text.append(other)?;
    Ok(text)
}

/// A child element that holds a text alone.
fn text_child(alloc: Global, space: &[u8], local: &[u8], text: &[u8]) -> Result<Content, Memory>
    ensures { IfOk result (λ child. child ≡ Child (text_in_element (record { space = space.now; local = local.now }) text.now)) }
{
    let name = name(alloc, space, local)?;
    Ok(Content::Child(text_element(alloc, name, text)?))
}

/// A child element that holds an endpoint reference.
fn endpoint_child(alloc: Global, local: &[u8], epr: &Epr) -> Result<Content, Memory>
    requires { Fits epr.now }
    ensures { IfOk result (λ child. child ≡ Child (endpoint_element (wscoor_name local.now) epr.now)) }
{
    let name = name(alloc, WSCOOR_SPACE, local)?;
    Ok(Content::Child(tree_of_epr(alloc, epr, &name)?))
}

/// The child element that names a coordination type.
fn type_child(alloc: Global, kind: Option<Kind>) -> Result<Content, Memory>
    ensures { IfOk result (λ child. child ≡ Child (type_part kind)) }
{
    text_child(alloc, WSCOOR_SPACE, b"CoordinationType", kind_uri(kind))
}

fn and_expires(
    alloc: Global,
    parts: List<Content>,
    expires: Option<u32>,
) -> Result<List<Content>, Memory>
    ensures { IfOk result (λ all. all ≡ parts ++ map Child (expires_part expires)) }
{
    match expires {
        None => Ok(parts),
        Some(number) => {
            let mut buffer = Buffer::new();
            let text = buffer.format(number).as_bytes();
            let child = text_child(alloc, WSCOOR_SPACE, b"Expires", text)?;
            and(parts, child)
        }
    }
}

// ---- contexts

fn context_parts(alloc: Global, context: &Context) -> Result<List<Content>, Memory>
    requires { Fits context.now.registration }
    ensures { IfOk result (λ parts. parts ≡ map Child (context_parts context.now)) }
{
    let identifier = context.identifier.as_slice();
    let identifier = text_child(alloc, WSCOOR_SPACE, b"Identifier", identifier)?;
    let parts = and_expires(alloc, only(alloc, identifier)?, context.expires)?;
    let parts = and(parts, type_child(alloc, context.kind)?)?;
    let service = endpoint_child(alloc, b"RegistrationService", &context.registration)?;
    and(parts, service)
}

/// The element of that name that holds a context.
pub fn context_element(alloc: Global, local: &[u8], context: &Context) -> Result<Tree, Memory>
    requires { Fits context.now.registration }
    ensures { IfOk result (λ tree. tree ≡ context_element local.now context.now) }
{
    let parts = context_parts(alloc, context)?;
    let name = name(alloc, WSCOOR_SPACE, local)?;
    Ok(element(alloc, name, parts))
}

// ---- bodies

/// What stands in the element of Create.
fn create_parts(
    alloc: Global,
    expires: Option<u32>,
    current: &Option<Context>,
    kind: Option<Kind>,
    up: Protocol,
) -> Result<List<Content>, Memory>
    requires { ContextFits current.now }
    ensures { IfOk result (λ parts. parts ≡ map Child (expires_part expires ++ (current_part current.now ++ (type_part kind ∷ upward_part up)))) }
{
    let parts = and_expires(alloc, List::new(alloc), expires)?;
    let parts = and_current(alloc, parts, current)?;
    let parts = and(parts, type_child(alloc, kind)?)?;
    and_upward(alloc, parts, up)
}

fn and_current(
    alloc: Global,
    parts: List<Content>,
    current: &Option<Context>,
) -> Result<List<Content>, Memory>
    requires { ContextFits current.now }
    ensures { IfOk result (λ all. all ≡ parts ++ map Child (current_part current.now)) }
{
    match current {
        None => Ok(parts),
        Some(context) => and_context(alloc, parts, context),
    }
}

fn and_context(
    alloc: Global,
    parts: List<Content>,
    context: &Context,
) -> Result<List<Content>, Memory>
    requires { Fits context.now.registration }
    ensures { IfOk result (λ all. all ≡ parts ++ Child (context_element (codes "CurrentContext") context.now) ∷ []) }
{
    let child = context_element(alloc, b"CurrentContext", context)?;
    and(parts, Content::Child(child))
}

fn and_upward(alloc: Global, parts: List<Content>, up: Protocol) -> Result<List<Content>, Memory>
    ensures { IfOk result (λ all. all ≡ parts ++ map Child (upward_part up)) }
{
    match up {
        Protocol::Pc => Ok(parts),
        Protocol::Cc => and(parts, text_child(alloc, OWN_SPACE, b"Upward", b"cc")?),
    }
}

/// What stands in the element of Created.
fn created_parts(alloc: Global, context: &Context) -> Result<List<Content>, Memory>
    requires { Fits context.now.registration }
    ensures { IfOk result (λ parts. parts ≡ map Child (context_element (codes "CoordinationContext") context.now ∷ [])) }
{
    let child = context_element(alloc, b"CoordinationContext", context)?;
    only(alloc, Content::Child(child))
}

/// What stands in the element of Register.
fn register_parts(
    alloc: Global,
    protocol: Option<Protocol>,
    participant: &Epr,
) -> Result<List<Content>, Memory>
    requires { Fits participant.now }
    ensures { IfOk result (λ parts. parts ≡ map Child (text_in_element (wscoor_name (codes "ProtocolIdentifier")) (protocol_uri protocol)
        ∷ endpoint_element (wscoor_name (codes "ParticipantProtocolService")) participant.now ∷ [])) }
{
    let uri = protocol_uri(protocol);
    let identifier = text_child(alloc, WSCOOR_SPACE, b"ProtocolIdentifier", uri)?;
    let service = endpoint_child(alloc, b"ParticipantProtocolService", participant)?;
    and(only(alloc, identifier)?, service)
}

/// What stands in the element of a notice.
fn notice_parts(alloc: Global, notice: Notice) -> Result<List<Content>, Memory>
    ensures { IfOk result (λ parts. parts ≡ map Child (notice_parts notice)) }
{
    match notice {
        Notice::Status(state) => state_parts(alloc, state),
        Notice::Fail => only(
            alloc,
            text_child(alloc, WSBA_SPACE, b"ExceptionIdentifier", b"wsba:Fail")?,
        ),
        _ => Ok(List::new(alloc)),
    }
}

fn state_parts(alloc: Global, state: StateName) -> Result<List<Content>, Memory>
    ensures { IfOk result (λ parts. parts ≡ Child (text_in_element (wsba_name (codes "State")) (codes "wsba:" ++ state_text state)) ∷ []) }
{
    let text = joined(alloc, b"wsba:", state.name())?;
    let child = text_child(alloc, WSBA_SPACE, b"State", text.as_slice())?;
    only(alloc, child)
}

/// What stands in the element of a fault.
fn fault_parts(alloc: Global, code: Code) -> Result<List<Content>, Memory>
    ensures { IfOk result (λ parts. parts ≡ map Child (fault_parts code)) }
{
    let text = joined(alloc, Family::of(code).prefix(), code.name())?;
    let code_child = text_child(alloc, b"", b"faultcode", text.as_slice())?;
    let string_child = text_child(alloc, b"", b"faultstring", code.name())?;
    and(only(alloc, code_child)?, string_child)
}

fn body_parts(alloc: Global, message: &Message) -> Result<List<Content>, Memory>
    requires { EndpointsFit message.now }
    ensures { IfOk result (λ parts. parts ≡ map Child (body_parts message.now)) }
{
    match message {
        Message::Create {
            expires,
            current,
            kind,
            up,
        } => create_parts(alloc, *expires, current, *kind, *up),
        Message::Created(context) => created_parts(alloc, context),
        Message::Register {
            protocol,
            participant,
        } => register_parts(alloc, *protocol, participant),
        Message::Registered(coordinator) => registered_parts(alloc, coordinator),
        Message::Notice(notice) => notice_parts(alloc, *notice),
        Message::Fault(code) => fault_parts(alloc, *code),
    }
}

/// What stands in the element of Registered.
fn registered_parts(alloc: Global, coordinator: &Epr) -> Result<List<Content>, Memory>
    requires { Fits coordinator.now }
    ensures { IfOk result (λ parts. parts ≡ Child (endpoint_element (wscoor_name (codes "CoordinatorProtocolService")) coordinator.now) ∷ []) }
{
    let service = endpoint_child(alloc, b"CoordinatorProtocolService", coordinator)?;
    only(alloc, service)
}

/// The body element of a message.
pub fn body_element(alloc: Global, message: &Message) -> Result<Tree, Memory>
    requires { EndpointsFit message.now }
    ensures { IfOk result (λ tree. tree ≡ body_element message.now) }
{
    let parts = body_parts(alloc, message)?;
    let body = Body::of_message(message);
    let name = name(alloc, body.space(), body.name())?;
    Ok(element(alloc, name, parts))
}
