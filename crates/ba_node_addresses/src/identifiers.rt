//! Identifiers as text: 8-4-4-4-12 hexadecimal digits in lower case.
ghost use Rattle.std.specs.Prelude.{◌≡◌, ◌++◌, OnOk};
ghost use Rattle.ba_node_steps.specs.Addresses.{hyphenated};
ghost use Rattle.ba_node_steps.specs.Routing.{identifier_in, identifier_of_text, if_its_text};

use ba_core::{Id, Memory, Octets};
use uuid::Uuid;

/// Appends the text of an identifier (RFC 9562, section 4).
pub fn append_text(out: &mut Octets, id: Id) -> Result<(), Memory>
    ensures { OnOk result (out.new ≡ out.old ++ hyphenated id.0) }
{
    let mut buffer = Uuid::encode_buffer();
    let hyphenated = Uuid::from_u128(id.0).hyphenated();
    out.append(hyphenated.encode_lower(&mut buffer).as_bytes())
}

/// The identifier whose text this is: 36 bytes, with letters in lower case.
pub fn identifier_of_text(text: &[u8]) -> Option<Id>
    ensures { result ≡ identifier_of_text text.now }
{
    match Uuid::try_parse_ascii(text) {
        Ok(uuid) => if_its_text(text, Id(uuid.as_u128())),
        Err(_) => None,
    }
}

/// The identifier whose text stands at the end of an address.
pub fn identifier_in(address: &[u8]) -> Option<Id>
    ensures { result ≡ identifier_in address.now }
{
    let first = address.len().saturating_sub(36);
    identifier_of_text(&address[first..])
}

// The identifier, if this is its text.
fn if_its_text(text: &[u8], id: Id) -> Option<Id>
    ensures { result ≡ if_its_text text.now id.0 }
{
    let mut buffer = Uuid::encode_buffer();
    let hyphenated = Uuid::from_u128(id.0).hyphenated();
    if text == hyphenated.encode_lower(&mut buffer).as_bytes() {
        Some(id)
    } else {
        None
    }
}
