//! Messages of WS-Coordination and WS-BusinessActivity in envelopes of SOAP.
#![tactic(auto)]

mod bodies;
mod contexts;
mod elements;
mod envelopes;
mod faults;
mod forms;
mod laws;
mod meaning;
mod routes;
mod values;

pub use contexts::{context_of, tree_of_context};
pub use envelopes::{
    action_of, encode, encode_letter, envelope_tree, is_known, letter_tree, message_name,
};
pub use faults::{WireFault, code_for};
pub use laws::{letters_are_read_back, memory_refuses_no_tree, messages_are_read_back};
pub use meaning::{Decoded, decode, decode_tree};
pub use routes::{Route, number_urn, route_of};
