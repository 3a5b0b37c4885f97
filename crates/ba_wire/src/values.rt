//! What elements of a body mean.
ghost use Rattle.std.specs.Prelude.{bytes_eq, ◌≡◌, ℕ, IfOk, map, find, Some, None, ◌^◌, ◌<◌};
ghost use Rattle.ba_core.specs.Texts.{code_text, state_text};
ghost use Rattle.ba_soap_shapes.specs.Shapes.{line_of};
ghost use Rattle.ba_wire.specs.declared.bodies.Body.TheVariants as body;
ghost use Rattle.std.specs.Str.Parse.{digits_value};
ghost use Rattle.ba_soap_shapes.specs.Forms.{is_number};
ghost use Rattle.ba_soap_shapes.specs.Endpoints.{child_at};
ghost use Rattle.ba_wire.specs.Bodies.{all_codes, number_by, states, context_in, current_context_line, upward_line, code_of, context_of, endpoint_at, kind_of, message_of, number_at, protocol_of, state_of, up_in};

use crate::bodies::{
    COORDINATION_CONTEXT, COORDINATION_TYPE, COORDINATOR_SERVICE, CREATE_EXPIRES, CREATE_TYPE,
    CURRENT_CONTEXT, EXPIRES, FAULT_CODE, IDENTIFIER, PARTICIPANT_SERVICE, PROTOCOL_IDENTIFIER,
    REGISTRATION_SERVICE, STATE, UPWARD,
};
use ba_core::{Code, Kind, List, Memory, Notice, Protocol, StateName};
use ba_message::{Context, Epr, Message};
use ba_soap_shapes::{
    Row, child_at, endpoint_of, is_number, local_part, number_of, own_texts, text_at, text_of,
};
use ba_tree::Tree;
use std::alloc::Global;

fn kind_of(uri: &[u8]) -> Option<Kind>
    ensures { result ≡ kind_of uri.now }
{
    if uri == b"http://docs.oasis-open.org/ws-tx/wsba/2006/06/AtomicOutcome".as_slice() {
        Some(Kind::Atomic)
    } else if uri == b"http://docs.oasis-open.org/ws-tx/wsba/2006/06/MixedOutcome".as_slice() {
        Some(Kind::Mixed)
    } else {
        None
    }
}

fn protocol_of(uri: &[u8]) -> Option<Protocol>
    ensures { result ≡ protocol_of uri.now }
{
    if uri == b"http://docs.oasis-open.org/ws-tx/wsba/2006/06/ParticipantCompletion".as_slice() {
        Some(Protocol::Pc)
    } else if uri
        == b"http://docs.oasis-open.org/ws-tx/wsba/2006/06/CoordinatorCompletion".as_slice()
    {
        Some(Protocol::Cc)
    } else {
        None
    }
}

fn endpoint_at<F>(alloc: Global, row: &Row<F>, tree: &Tree) -> Result<Epr, Memory>
    ensures { IfOk result (λ epr. epr ≡ endpoint_at (line_of row.now) tree.now) }
{
    match child_at(row, tree) {
        None => Ok(Epr {
            address: List::new(alloc),
            parameters: List::new(alloc),
        }),
        Some(child) => endpoint_of(alloc, child),
    }
}

fn number_at<F>(alloc: Global, row: &Row<F>, tree: &Tree) -> Result<Option<u32>, Memory>
    ensures { IfOk result (λ number. number ≡ number_at (line_of row.now) tree.now) }
{
    match child_at(row, tree) {
        None => Ok(None),
        Some(child) => {
            let text = text_of(alloc, child)?;
            Ok(number_by(text.as_slice()))
        }
    }
}

/// The number that the digits write.
#[tactic(auto, using(crate::proofs::Numerals::number_is, crate::proofs::Numerals::are_digits))]
fn number_by(text: &[u8]) -> Option<u32>
    ensures { result ≡ number_by (is_number text.now) text.now }
{
    if is_number(text) {
        Some(number_of(text) as u32)
    } else {
        None
    }
}

fn up_at(alloc: Global, tree: &Tree) -> Result<Protocol, Memory>
    ensures { IfOk result (λ up. up ≡ up_in (child_at upward_line tree.now)) }
{
    match child_at(&UPWARD, tree) {
        None => Ok(Protocol::Pc),
        Some(child) => {
            let text = own_texts(alloc, child.content.as_slice())?;
            Ok(if text.as_slice() == b"cc".as_slice() {
                Protocol::Cc
            } else {
                Protocol::Pc
            })
        }
    }
}

/// What the children of a context say.
pub fn context_of(alloc: Global, tree: &Tree) -> Result<Context, Memory>
    ensures { IfOk result (λ context. context ≡ context_of tree.now) }
{
    let kind = text_at(alloc, &COORDINATION_TYPE, tree)?;
    Ok(Context {
        identifier: text_at(alloc, &IDENTIFIER, tree)?,
        expires: number_at(alloc, &EXPIRES, tree)?,
        kind: kind_of(kind.as_slice()),
        registration: endpoint_at(alloc, &REGISTRATION_SERVICE, tree)?,
    })
}

/// What Register says.
pub fn register(alloc: Global, tree: &Tree) -> Result<Message, Memory>
    ensures { IfOk result (λ message. message ≡ message_of body.Register tree.now) }
{
    let protocol = text_at(alloc, &PROTOCOL_IDENTIFIER, tree)?;
    Ok(Message::Register {
        protocol: protocol_of(protocol.as_slice()),
        participant: endpoint_at(alloc, &PARTICIPANT_SERVICE, tree)?,
    })
}

/// What Create says.
pub fn create(alloc: Global, tree: &Tree) -> Result<Message, Memory>
    ensures { IfOk result (λ message. message ≡ message_of body.Create tree.now) }
{
    let kind = text_at(alloc, &CREATE_TYPE, tree)?;
    let expires = number_at(alloc, &CREATE_EXPIRES, tree)?;
    let current = current_at(alloc, tree)?;
    let up = up_at(alloc, tree)?;
    Ok(Message::Create {
        expires,
        current,
        kind: kind_of(kind.as_slice()),
        up,
    })
}

fn current_at(alloc: Global, tree: &Tree) -> Result<Option<Context>, Memory>
    ensures { IfOk result (λ context. context ≡ context_in (child_at current_context_line tree.now)) }
{
    match child_at(&CURRENT_CONTEXT, tree) {
        None => Ok(None),
        Some(child) => Ok(Some(context_of(alloc, child)?)),
    }
}

/// What Created says.
pub fn created(alloc: Global, tree: &Tree) -> Result<Message, Memory>
    ensures { IfOk result (λ message. message ≡ message_of body.Created tree.now) }
{
    match child_at(&COORDINATION_CONTEXT, tree) {
        None => Ok(Message::Created(Context {
            identifier: List::new(alloc),
            expires: None,
            kind: None,
            registration: Epr {
                address: List::new(alloc),
                parameters: List::new(alloc),
            },
        })),
        Some(child) => Ok(Message::Created(context_of(alloc, child)?)),
    }
}

/// What Registered says.
pub fn registered(alloc: Global, tree: &Tree) -> Result<Message, Memory>
    ensures { IfOk result (λ message. message ≡ message_of body.Registered tree.now) }
{
    Ok(Message::Registered(endpoint_at(alloc, &COORDINATOR_SERVICE, tree)?))
}

/// What Status says.
pub fn status(alloc: Global, tree: &Tree) -> Result<Message, Memory>
    ensures { IfOk result (λ message. message ≡ message_of body.Status tree.now) }
{
    let text = text_at(alloc, &STATE, tree)?;
    let state = state_of(local_part(text.as_slice()));
    Ok(Message::Notice(Notice::Status(state)))
}

/// What a fault says.
pub fn fault(alloc: Global, tree: &Tree) -> Result<Message, Memory>
    ensures { IfOk result (λ message. message ≡ message_of body.Fault tree.now) }
{
    let text = text_at(alloc, &FAULT_CODE, tree)?;
    Ok(Message::Fault(code_of(local_part(text.as_slice()))))
}

const STATES: [StateName; 15] = [
    StateName::Active,
    StateName::Completing,
    StateName::Canceling,
    StateName::CancelingActive,
    StateName::CancelingCompleting,
    StateName::Completed,
    StateName::Closing,
    StateName::Compensating,
    StateName::FailingActive,
    StateName::FailingCompleting,
    StateName::FailingCanceling,
    StateName::FailingCompensating,
    StateName::NotCompleting,
    StateName::Exiting,
    StateName::Ended,
];

fn find_state(text: &[u8]) -> Option<StateName>
    ensures { result ≡ find (λ s. bytes_eq text.now (state_text s)) states }
{
    STATES.iter().copied().find(|state| text == state.name())
}

fn state_of(text: &[u8]) -> StateName
    ensures { result ≡ state_of text.now }
{
    match find_state(text) {
        None => StateName::Other,
        Some(state) => state,
    }
}

const CODES: [Code; 14] = [
    Code::VersionMismatch,
    Code::MustUnderstand,
    Code::Client,
    Code::Server,
    Code::InvalidState,
    Code::InvalidProtocol,
    Code::InvalidParameters,
    Code::CannotCreateContext,
    Code::CannotRegisterParticipant,
    Code::InvalidAddressingHeader,
    Code::MessageAddressingHeaderRequired,
    Code::DestinationUnreachable,
    Code::ActionNotSupported,
    Code::EndpointUnavailable,
];

fn find_code(text: &[u8]) -> Option<Code>
    ensures { result ≡ find (λ c. bytes_eq text.now (code_text c)) all_codes }
{
    CODES.iter().copied().find(|code| text == code.name())
}

fn code_of(text: &[u8]) -> Code
    ensures { result ≡ code_of text.now }
{
    match find_code(text) {
        None => Code::Other,
        Some(code) => code,
    }
}
