//! The endpoints of a node's objects, and the numbers of the messages that they send; and where a message leads that was sent there.
#![tactic(auto)]

mod endpoints;
mod identifiers;
mod numbers;
mod paths;
mod routing;

pub use endpoints::{context_identifier, coordinator_of, participant_of, registration_of};
pub use identifiers::{identifier_in, identifier_of_text};
pub use numbers::{CODE_OF_REGISTER, number_of_message};
pub use paths::{Endpoint, ObjectPath, endpoint_at, object_path};
pub use routing::{answer_input, answer_of_reply, input_at, letter_input, sender_of};
