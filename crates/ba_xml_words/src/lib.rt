//! The words of texts of XML 1.0, read byte by byte: classes of bytes, UTF-8, names as they are written,
//! references and the XML declaration; and why a text isn't read.
#![tactic(auto)]

mod classes;
mod faults;
mod headings;
mod names;
mod octets;
mod references;
mod remaining;
mod words;

pub use classes::{Class, classify, is_first_letter, is_space};
pub use faults::{Reason, XmlFault};
pub use headings::{Declared, Heading, Item, Setting, declare};
pub use names::{Naming, RawAttribute, RawName, first_letter, is_among, with_byte, with_bytes};
pub use octets::{Decoding, Octet, decode};
pub use references::{Entity, Partial, Radix, Referred, refer};
pub use remaining::{Meeting, Rest};
pub use words::{Progress, reached};
