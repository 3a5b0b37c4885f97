//! Envelopes of a node's own letters and replies, written and read as their canonical text, without trees.
#![tactic(auto)]

mod codec;
mod glances;
mod pieces;
mod texts;

pub use codec::{decode, encode, encode_letter};
