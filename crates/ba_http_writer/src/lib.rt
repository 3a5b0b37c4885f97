//! Messages of HTTP/1.1, written to a connection whole.
#![tactic(auto)]

mod bodies;
mod faults;
mod requests;
mod responses;

pub use bodies::Body;
pub use faults::WriteFault;
pub use requests::write_request;
pub use responses::write_response;
