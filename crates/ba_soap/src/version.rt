//! The version of SOAP as a value, for what learns only as it runs in which version a peer speaks.

use crate::headers::{Dialect, Soap11};

/// A version of SOAP that is read and written.
#[derive(Clone, Copy, Debug, PartialEq, Eq)]
pub enum Version {
    Soap11,
}

impl Dialect for Version {
    ghost use Rattle.ba_soap.specs.Envelopes.{dialect_of};

    ghost sheet = { dialect_of };

    fn space(&self) -> &'static [u8] {
        match self {
            Version::Soap11 => Soap11.space(),
        }
    }

    fn role(&self) -> &'static [u8] {
        match self {
            Version::Soap11 => Soap11.role(),
        }
    }

    fn is_ours(&self, role: &[u8]) -> bool {
        match self {
            Version::Soap11 => Soap11.is_ours(role),
        }
    }

    fn must(&self, flag: &[u8]) -> bool {
        match self {
            Version::Soap11 => Soap11.must(flag),
        }
    }

    fn is_flag(&self, flag: &[u8]) -> bool {
        match self {
            Version::Soap11 => Soap11.is_flag(flag),
        }
    }
}
