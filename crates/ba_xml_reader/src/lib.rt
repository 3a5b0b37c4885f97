//! A machine that reads texts of XML 1.0, in the part that this product takes, into trees.
#![tactic(auto)]

mod beginnings;
mod content;
mod empties;
mod endings;
mod escapes;
mod laws;
mod machine;
mod pairs;
mod spans;
mod states;
mod tags;

pub use ba_xml_words::{Reason, XmlFault};
pub use laws::{
    every_text_is_read, places_lie_within, refusals_stay, refused_fronts_are_dead,
    what_is_read_is_a_text, what_is_read_is_fit, what_is_read_keeps_the_limits,
};
pub use machine::{Refusal, Scan, begun};
pub use spans::Taken;
