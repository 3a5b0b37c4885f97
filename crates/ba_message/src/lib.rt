//! Endpoint references, coordination contexts, and the messages that are made of them.
#![tactic(auto)]

mod addresses;
mod endpoints;
mod laws;
mod messages;

pub use addresses::{GREATEST_PORT, MOST_ADDRESS_BYTES, MOST_HOST_BYTES, dialable};
pub use endpoints::{
    Epr, MOST_ENDPOINT_BYTES, MOST_PARAMETER_ATTRIBUTES, MOST_PARAMETER_LEVELS,
    MOST_PARAMETER_NAMESPACES, MOST_PARAMETERS, PARAMETER_MARK, is_parameter_mark,
};
pub use laws::{own_endpoints_fit, tests_of_endpoints_are_exact};
pub use messages::{Context, Letter, MOST_IDENTIFIER_BYTES, Message};
