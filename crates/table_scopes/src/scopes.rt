//! Scopes, and their participants.

use ba_core::{Id, Kind, List, PState, Protocol, number_of};
use ba_message::Epr;
use ba_scope::{EnrolFault, Scope};
use ba_scope_ends::Part;
use std::alloc::{AllocError, Global};

/// The scope that a row makes.
pub fn scope_of(alloc: Global, made: &str) -> Result<Option<Scope>, AllocError> {
    let (place, rest) = made.split_once(' ').unwrap_or((made, ""));
    let (kind, deadline) = rest.split_once(' ').unwrap_or((rest, ""));
    let Some(kind) = Kind::of_word(kind.as_bytes()) else {
        return Ok(None);
    };
    let deadline = number_of(deadline.as_bytes());
    if place == "child" {
        Ok(Some(child(alloc, kind, deadline)?))
    } else {
        Ok(Some(Scope::make(alloc, Id::of(1, 1), kind, deadline, None)))
    }
}

/// A child without ends, whose own participant is Registering.
fn child(alloc: Global, kind: Kind, deadline: Option<u64>) -> Result<Scope, AllocError> {
    let up = Part {
        id: Id::of(1, 2),
        protocol: Protocol::Cc,
        registration: endpoint(alloc, 1)?,
        coordinator: None,
        state: PState::Registering,
        owes: false,
        asks: false,
    };
    Ok(Scope::make(alloc, Id::of(1, 1), kind, deadline, Some(up)))
}

/// The endpoint of this number.
pub fn endpoint(alloc: Global, number: u32) -> Result<Epr, AllocError> {
    let address = format!(in alloc; "http://b/{number}")?;
    Ok(Epr {
        address: List::of(address.into_bytes()),
        parameters: List::new(alloc),
    })
}

/// Enrols the participant of this number; `None` where the scope has it, or an object of its Id.
pub fn enrol(
    alloc: Global,
    scope: &mut Scope,
    number: u32,
) -> Result<Option<Result<(), EnrolFault>>, AllocError> {
    let id = Id::of(1, u64::from(number));
    let participant = endpoint(alloc, number)?;
    if scope.has_id(id) || scope.find(&participant).is_some() {
        return Ok(None);
    }
    if let Some(why) = scope.enrol_refusal() {
        return Ok(Some(Err(why)));
    }
    let Ok(room) = scope.room() else {
        return Err(AllocError);
    };
    scope.enrol(room, id, Protocol::Pc, participant);
    Ok(Some(Ok(())))
}
