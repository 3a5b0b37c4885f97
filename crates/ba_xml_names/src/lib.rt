//! What names mean in a text of XML (Namespaces in XML 1.0): the elements that are open with their declarations,
//! and what a start tag means by them.
#![tactic(auto)]

mod boxed;
mod laws;
mod levels;
mod spaces;
mod stacks;
mod tags;

pub use boxed::Held;
pub use laws::start_tags_mean_by_the_rules;
pub use levels::{Declaration, Level, Opening, Place, place_next};
pub use spaces::{Spot, first_declarations, open_tag};
pub use stacks::Stack;
pub use tags::Tag;
