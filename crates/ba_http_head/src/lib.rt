//! The heads of HTTP/1.1 messages, as far as one request or one reply on a connection goes.
#![tactic(auto)]

mod asks;
mod blocks;
mod faults;
mod fetches;
mod headings;
mod heads;
pub mod laws;
mod lengths;
mod scans;

pub use blocks::{BLOCK, copied, read_block};
pub use faults::HttpFault;
pub use headings::Heading;
pub use heads::{Head, ReplyHead, read_head, read_reply_head};
pub use lengths::{Length, MOST_BODY};
pub use scans::{LineStart, MOST_FIELDS, MOST_HEAD, Shown, scan};
