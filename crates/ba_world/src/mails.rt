//! Messages in the bag, and the way of each through its envelope.
ghost use Rattle.std.specs.Prelude.{◌≡◌, IfOk, IsTrue};
ghost use Rattle.ba_message.specs.Letters.{IsPostable, IsReply};
ghost use Rattle.ba_wire.specs.Envelopes.{CanEncode, TimesFit, is_numbered};

use ba_core::{Id, List, Memory, Octets};
use ba_message::{Epr, Letter, Message};
use ba_wire::{Decoded, Route, number_urn, route_of};
use ba_wire_short::{decode, encode};
use std::alloc::Global;

/// A message that was sent: a letter, or the answer to the letter with this number.
#[derive(Debug, Drop)]
pub enum Mail {
    Letter(Letter),
    Answer(Id, Message),
}

/// A letter as it arrives: its envelope is written, and read again.
pub fn posted(alloc: Global, letter: &Letter) -> Result<Letter, Memory>
    requires { IsPostable letter.now }
    ensures { IfOk result (λ arrived. arrived ≡ letter.now) }
{
    let route = route_of(alloc, letter)?;
    let Decoded { route, message } = through_text(alloc, &route, &letter.message)?;
    let Route { to, parameters, .. } = route;
    let Some(address) = to else {
        return Err(Memory);
    };
    let to = Epr {
        address,
        parameters,
    };
    Ok(Letter {
        to,
        number: letter.number,
        message,
    })
}

/// The answer to the letter with this number as it arrives: likewise.
pub fn posted_answer(alloc: Global, number: Id, answer: &Message) -> Result<Message, Memory>
    requires { IsReply answer.now }
    ensures { IfOk result (λ arrived. arrived ≡ answer.now) }
{
    let route = Route {
        to: None,
        message_id: None,
        relates_to: Some(number_urn(alloc, number)?),
        parameters: List::new(alloc),
    };
    let decoded = through_text(alloc, &route, answer)?;
    Ok(decoded.message)
}

// Writes an envelope, and reads it again, which nothing but want of memory can hinder.
fn through_text(alloc: Global, route: &Route, message: &Message) -> Result<Decoded, Memory>
    requires encodes { CanEncode route.now message.now }
    requires numbered { IsTrue (is_numbered route.now message.now) }
    requires times { TimesFit message.now }
    ensures { IfOk result (λ decoded. (decoded.route ≡ route.now) × (decoded.message ≡ message.now)) }
{
    let text: Octets = encode(alloc, route, message)?;
    match decode(alloc, text.as_slice()) {
        Ok(decoded) => Ok(decoded),
        Err(_) => Err(Memory),
    }
}
