//! What a node sends can be encoded, and what was read can be written again.
#![tactic(auto)]

mod laws;

pub use laws::{
    SHORT_CODING, letters_from_own_endpoints_can_be_encoded, postable_letters_can_be_encoded,
    replies_can_be_encoded, short_codings_have_short_texts, what_was_read_can_be_written,
};
