//! The bodies of HTTP/1.1 messages that come in chunks: each chunk's bytes are given to a taker, up to the last chunk and
//! the trailer after it.
#![tactic(auto)]

mod chunks;
pub mod laws;
mod reads;
mod trailers;

pub use chunks::MOST_SIZE_LINE;
pub use reads::read_chunked;
