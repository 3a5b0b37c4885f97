//! Envelopes of SOAP with the headers of WS-Addressing 1.0.
#![tactic(auto)]

mod elements;
mod envelopes;
mod headers;
mod version;

pub use ba_soap_shapes::{EprFault, epr_of, tree_of_epr};
pub use elements::{write_as, write_envelope, write_notification};
pub use envelopes::{read_as, read_envelope};
pub use headers::{Dialect, Envelope, Header, ReplyTo, Soap11, SoapFault, is_called};
pub use version::Version;
