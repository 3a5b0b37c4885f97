//! Whole messages of HTTP/1.1: a request or a reply is read from a connection, its body in one piece or given to a taker.
#![tactic(auto)]

mod bodies;
pub mod laws;
mod replies;
mod requests;

pub use bodies::{read_body, read_reply_body};
pub use replies::{Reply, read_reply};
pub use requests::{Request, read_request};
