//! Texts of XML both ways: the trees that texts mean, and the one text of each tree.
#![tactic(auto)]

mod laws;
mod readers;

pub use ba_xml_words::{Reason, XmlFault};
pub use ba_xml_writer::{writable, write};
pub use laws::{what_is_read_may_be_written, what_is_written_is_read_back};
pub use readers::{Reader, read};
