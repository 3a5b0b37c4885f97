//! Where a message goes, the input to which it leads there, and what answers it.
ghost use Rattle.std.specs.Prelude.{◌≡◌};
ghost use Rattle.ba_node_addresses.specs.Paths.{input_at, input_if_at};
ghost use Rattle.ba_node_steps.specs.Addresses.{sender_of};
ghost use Rattle.ba_node_steps.specs.Node.{NodeState};
ghost use Rattle.ba_node_steps.specs.Routing.{answer_input, answer_of_reply, letter_input, notice_input, register_input, told_input};

use crate::numbers::CODE_OF_REGISTER;
use crate::paths::{Endpoint, endpoint_at};
use ba_core::{Id, Side};
use ba_message::{Letter, Message};
use ba_node_steps::{Input, Reply};

/// The input to which a letter leads at the object with this identifier, of a node with this base.
pub fn letter_input(base: &[u8], id: Id, letter: Letter) -> Option<Input>
    ensures { (n : NodeState) → n.base ≡ base.now → result ≡ letter_input n id letter }
{
    if id.code() != 0 {
        return None;
    }
    let Letter { to, message, .. } = letter;
    input_if_at(endpoint_at(base, id, &to), id, message)
}

fn input_if_at(endpoint: Option<Endpoint>, id: Id, message: Message) -> Option<Input>
    ensures { result ≡ input_if_at endpoint id message }
{
    match endpoint {
        Some(endpoint) => input_at(endpoint, id, message),
        None => None,
    }
}

/// The input to which a message leads at this endpoint of the object with this identifier.
pub fn input_at(endpoint: Endpoint, id: Id, message: Message) -> Option<Input>
    ensures { result ≡ input_at endpoint id message }
{
    match endpoint {
        Endpoint::Registration => register_input(id, message),
        Endpoint::Coordinator => notice_input(Side::Coordinator, id, message),
        Endpoint::Participant => notice_input(Side::Participant, id, message),
    }
}

fn register_input(scope: Id, message: Message) -> Option<Input>
    ensures { result ≡ register_input scope message }
{
    match message {
        Message::Register {
            protocol,
            participant,
        } => Some(Input::Register {
            scope,
            protocol,
            participant,
        }),
        _ => None,
    }
}

fn notice_input(side: Side, id: Id, message: Message) -> Option<Input>
    ensures { result ≡ notice_input side id message }
{
    match message {
        Message::Notice(notice) => Some(Input::Notice(side, id, notice)),
        _ => None,
    }
}

/// The answer that a reply is to a letter, if it is one: a RegisterResponse or a fault.
pub fn answer_of_reply(reply: Reply) -> Option<Message>
    ensures { result ≡ answer_of_reply reply }
{
    match reply {
        Reply::Enrolment(coordinator) => Some(Message::Registered(coordinator)),
        Reply::SoapFault(code) => Some(Message::Fault(code)),
        _ => None,
    }
}

// An object's identifier is below this: it has 96 bits.
const OBJECT_IDENTIFIERS: u128 = 79_228_162_514_264_337_593_543_950_336;

/// The object that sent the letter with this number.
pub fn sender_of(number: Id) -> Id
    ensures { result.0 ≡ sender_of number }
{
    Id(number.0 % OBJECT_IDENTIFIERS)
}

/// The input to which the answer to the letter with this number leads.
pub fn answer_input(number: Id, message: Message) -> Option<Input>
    ensures { result ≡ answer_input number message }
{
    if number.code() != u32::from(CODE_OF_REGISTER) {
        return None;
    }
    told_input(sender_of(number), message)
}

fn told_input(id: Id, message: Message) -> Option<Input>
    ensures { result ≡ told_input id message }
{
    match message {
        Message::Registered(coordinator) => Some(Input::Enrolled(id, coordinator)),
        Message::Fault(code) => Some(Input::RefusedBy(id, code)),
        _ => None,
    }
}
