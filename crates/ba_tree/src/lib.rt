//! Elements of XML as trees: their names, what their texts may hold, and the limits that they keep.
#![tactic(auto)]

mod characters;
mod laws;
mod namespaces;
mod spaces;
mod trees;

pub use characters::{
    bare_ends, digit, legal_character, legal_text, letter, name_part, name_start, plain_name,
    white_space,
};
pub use laws::tests_of_equality_are_exact;
pub use namespaces::{
    Namespace, OWN_SPACE, SOAP_SPACE, WSA_SPACE, WSBA_SPACE, WSCOOR_SPACE, XML_SPACE,
};
pub use spaces::Spaces;
pub use trees::{Attribute, Content, Name, Tree, text_size};
