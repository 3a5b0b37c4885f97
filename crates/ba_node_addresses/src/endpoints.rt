//! Where a node's objects are found.
ghost use Rattle.std.specs.Prelude.{◌≡◌, ◌++◌, IfOk};
ghost use Rattle.ba_node_addresses.specs.Paths.{endpoint_word};
ghost use Rattle.ba_node_steps.specs.Addresses.{at_address, context_identifier, coordinator_of, hyphenated, participant_of, registration_of};

use crate::identifiers::append_text;
use crate::paths::{Endpoint, word_of};
use ba_core::{Id, List, Memory, Octets};
use ba_message::Epr;
use std::alloc::Global;

/// Where a scope takes Registers: the base of the node's addresses, `/registration/` and the scope's identifier.
pub fn registration_of(alloc: Global, base: &[u8], scope: Id) -> Result<Epr, Memory>
    ensures { IfOk result (λ epr. epr ≡ registration_of base.now scope) }
{
    endpoint(alloc, base, Endpoint::Registration, scope)
}

/// Where an end takes notices: likewise, by `/coordinator/`.
pub fn coordinator_of(alloc: Global, base: &[u8], end: Id) -> Result<Epr, Memory>
    ensures { IfOk result (λ epr. epr ≡ coordinator_of base.now end) }
{
    endpoint(alloc, base, Endpoint::Coordinator, end)
}

/// Where a participant takes notices: likewise, by `/participant/`.
pub fn participant_of(alloc: Global, base: &[u8], part: Id) -> Result<Epr, Memory>
    ensures { IfOk result (λ epr. epr ≡ participant_of base.now part) }
{
    endpoint(alloc, base, Endpoint::Participant, part)
}

/// The Identifier of a scope's context, a URI (WS-Coordination 1.2, section 2).
pub fn context_identifier(alloc: Global, scope: Id) -> Result<Octets, Memory>
    ensures { IfOk result (λ text. text ≡ context_identifier scope) }
{
    let mut text = List::new(alloc);
    text.append(b"urn:uuid:")?;
    append_text(&mut text, scope)?;
    Ok(text)
}

fn endpoint(alloc: Global, base: &[u8], at: Endpoint, id: Id) -> Result<Epr, Memory>
    ensures { IfOk result (λ epr. epr ≡ at_address (base.now ++ (endpoint_word at ++ hyphenated id.0))) }
{
    let mut address = List::new(alloc);
    address.append(base)?;
    address.append(word_of(at))?;
    append_text(&mut address, id)?;
    Ok(Epr {
        address,
        parameters: List::new(alloc),
    })
}
