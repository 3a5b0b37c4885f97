//! The paths of a node's objects.
ghost use Rattle.std.specs.Prelude.{◌≡◌, ◌++◌, IfSome, List, Some, ℕ};
ghost use Rattle.std.specs.Option.{option_map};
ghost use Rattle.ba_node_addresses.specs.Paths.{endpoint_of, endpoint_word, path_text};
ghost use Rattle.ba_node_steps.specs.Addresses.{HasText};

use crate::identifiers::identifier_of_text;
use ba_core::Id;
use ba_message::Epr;

/// What is found at an endpoint of a node's objects.
#[derive(Clone, Copy, Debug, PartialEq, Eq)]
pub enum Endpoint {
    /// A scope, where it takes Registers.
    Registration,
    /// An end, which takes the notices of its participant.
    Coordinator,
    /// A participant, which takes the notices of its end.
    Participant,
}

/// An object's endpoint, by the path that follows the base of its node's addresses.
#[derive(Clone, Copy, Debug, PartialEq, Eq)]
pub struct ObjectPath {
    pub endpoint: Endpoint,
    pub id: Id,
}

/// The object's endpoint whose path this is: `/registration/`, `/coordinator/` or `/participant/` and the text of an identifier.
pub fn object_path(path: &[u8]) -> Option<ObjectPath>
    ensures its { IfSome result (λ found. path.now ≡ path_text found) }
    ensures found { (at : ObjectPath) → HasText at.id → path.now ≡ path_text at → result ≡ Some at }
{
    path_at(Endpoint::Registration, path)
        .or(path_at(Endpoint::Coordinator, path))
        .or(path_at(Endpoint::Participant, path))
}

// The same, of objects of one kind.
fn path_at(endpoint: Endpoint, path: &[u8]) -> Option<ObjectPath>
    ensures its { IfSome result (λ found. (found.endpoint ≡ endpoint) × (path.now ≡ path_text found)) }
    ensures found { (id : Id) → HasText id → path.now ≡ path_text (record { endpoint = endpoint; id = id })
        → result ≡ Some (record { endpoint = endpoint; id = id }) }
{
    let text = rest_after(path, word_of(endpoint))?;
    let id = identifier_of_text(text)?;
    Some(ObjectPath { endpoint, id })
}

/// The word with which the paths of such endpoints begin.
pub fn word_of(endpoint: Endpoint) -> &'static [u8]
    ensures { result.now ≡ endpoint_word endpoint }
{
    match endpoint {
        Endpoint::Registration => b"/registration/",
        Endpoint::Coordinator => b"/coordinator/",
        Endpoint::Participant => b"/participant/",
    }
}

/// The endpoint of the object with this identifier that this is, of a node with this base.
pub fn endpoint_at(base: &[u8], id: Id, to: &Epr) -> Option<Endpoint>
    ensures its { IfSome result (λ endpoint. to.now ≡ endpoint_of base.now endpoint id) }
    ensures found { (endpoint : Endpoint) → HasText id → to.now ≡ endpoint_of base.now endpoint id → result ≡ Some endpoint }
{
    if !to.parameters.is_empty() {
        return None;
    }
    let path = rest_after(to.address.as_slice(), base)?;
    let found = object_path(path)?;
    if found.id == id {
        Some(found.endpoint)
    } else {
        None
    }
}

// What follows this beginning.
fn rest_after<'a>(bytes: &'a [u8], beginning: &[u8]) -> Option<&'a [u8]>
    ensures its { IfSome result (λ rest. bytes.now ≡ beginning.now ++ rest.now) }
    ensures found { (rest : List ℕ) → bytes.now ≡ beginning.now ++ rest → option_map (λ r. r.now) result ≡ Some rest }
{
    bytes.strip_prefix(beginning)
}
