//! How the stored tables show bytes, trees, endpoints and contexts, and how their rows write them: as they are shown.
#![tactic(auto)]

mod contexts;
mod endpoints;
mod texts;
mod trees;

pub use contexts::{put_context, put_expiry, put_kind, shown_context};
pub use endpoints::{put_endpoint, shown_endpoint};
pub use texts::{put_bytes, put_named, put_text};
pub use trees::{put_tree, put_trees, shown_tree};
