//! Why a text isn't read, and where.

use ba_core::Memory;
use thiserror::Error;

/// Why bytes are no text; the numbers are those that are shown.
#[derive(Clone, Copy, Debug, PartialEq, Eq, Error)]
pub enum Reason {
    #[error("not UTF-8")]
    NotUtf8 = 1,
    #[error("syntax")]
    Syntax = 2,
    /// The bytes end before the text does.
    #[error("truncated")]
    Truncated = 3,
    /// A prefix without a declaration, a declaration that isn't allowed, or two attributes with one name.
    #[error("namespace")]
    Namespace = 4,
    /// An element at level 33.
    #[error("too deep")]
    Depth = 5,
    /// More than 262,144 bytes.
    #[error("too long")]
    Size = 6,
    /// A 33rd attribute in one tag.
    #[error("too many attributes")]
    Attributes = 7,
}

/// Why a text wasn't read.
#[derive(Clone, Copy, Debug, PartialEq, Eq, Error)]
pub enum XmlFault {
    #[error("out of memory")]
    Memory,
    /// The bytes are no text. The place counts bytes from 0.
    #[error("{reason} at {place}")]
    At { reason: Reason, place: u64 },
}

impl From<Memory> for XmlFault {
    ghost use Rattle.std.specs.Prelude.{◌≡◌};
    ghost use Rattle.ba_xml_words.specs.declared.faults.XmlFault.TheVariants as fault;

    ghost from_gives = { λ _ e. e ≡ fault.Memory };

    fn from(_e: Memory) -> XmlFault {
        XmlFault::Memory
    }
}
