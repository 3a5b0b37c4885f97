//! The namespaces of names: those that messages use, and one whose bytes are kept once for all names that have it.
ghost use Rattle.std.specs.Prelude.{◌≡◌, ◌↔◌, [], length, IsTrue, IfOk};
ghost use Rattle.ba_tree.specs.Characters.{is_legal_text};

use crate::characters::legal_text;
use ba_core::{Memory, Octets};
use std::alloc::Global;
use std::marker::Model;
use std::sync::Arc;

/// The namespace of an envelope (SOAP 1.1, section 3).
pub const SOAP_SPACE: &[u8] = b"http://schemas.xmlsoap.org/soap/envelope/";

/// The namespace of endpoint references and of the headers that address a message (WS-Addressing 1.0 Core,
/// section 1.2).
pub const WSA_SPACE: &[u8] = b"http://www.w3.org/2005/08/addressing";

/// The namespace of coordination contexts and of registration (WS-Coordination 1.2, section 1.3).
pub const WSCOOR_SPACE: &[u8] = b"http://docs.oasis-open.org/ws-tx/wscoor/2006/06";

/// The namespace of the notices of business activities (WS-BusinessActivity 1.2, section 1.3).
pub const WSBA_SPACE: &[u8] = b"http://docs.oasis-open.org/ws-tx/wsba/2006/06";

/// The namespace of what this project adds to messages.
pub const OWN_SPACE: &[u8] = b"urn:ba:profile:1";

/// The namespace that the prefix `xml` has of itself (Namespaces in XML 1.0, section 3).
pub const XML_SPACE: &[u8] = b"http://www.w3.org/XML/1998/namespace";

/// Bytes, and whether they are a legal text. Contracts see the bytes.
#[derive(Debug, Drop)]
struct Kept {
    bytes: Octets,
    legal: bool,
}

impl Model for Kept {
    ghost use Rattle.std.specs.Prelude.{List, ℕ, ◌≡◌};
    ghost use Rattle.ba_tree.specs.Characters.{is_legal_text};

    ghost Value = { List ℕ };

    ghost view = { λ it. it.bytes };

    ghost invariant = { λ it. it.legal ≡ is_legal_text it.bytes };
}

impl Kept {
    fn of(bytes: Octets) -> Kept
        ensures { result ≡ bytes }
    {
        let legal = legal_text(bytes.as_slice());
        Kept { bytes, legal }
    }

    fn as_slice(&self) -> &[u8]
        ensures { result.now ≡ self.now }
    {
        self.bytes.as_slice()
    }

    fn is_legal(&self) -> bool
        ensures { result ≡ is_legal_text self.now }
    {
        self.legal
    }
}

/// A namespace, empty where there is none. Copies share its bytes. Contracts see the bytes.
#[derive(Debug, Drop)]
pub struct Namespace {
    kept: Option<Arc<Kept, Global>>,
}

impl Model for Namespace {
    ghost use Rattle.std.specs.Prelude.{List, ℕ, [], Some, None};
    ghost use Rattle.std.specs.Arc.{arc_value};

    ghost Value = { List ℕ };

    ghost view = { λ it. elim it.kept [ None ↦ [] | Some kept ↦ arc_value kept ] };
}

impl Namespace {
    /// No namespace.
    pub fn none() -> Namespace
        ensures { result ≡ [] }
    {
        Namespace { kept: None }
    }

    /// The namespace of these bytes.
    pub fn of(alloc: Global, bytes: Octets) -> Result<Namespace, Memory>
        ensures { IfOk result (λ space. space ≡ bytes) }
    {
        if bytes.is_empty() {
            return Ok(Namespace::none());
        }
        match Arc::new(alloc, Kept::of(bytes)) {
            Ok(kept) => Ok(Namespace { kept: Some(kept) }),
            Err(_) => Err(Memory),
        }
    }

    /// An equal namespace, which takes no memory.
    pub fn copy(&self) -> Result<Namespace, Memory>
        ensures { IfOk result (λ copy. copy ≡ self.now) }
    {
        match &self.kept {
            None => Ok(Namespace::none()),
            Some(kept) => match kept.clone() {
                Ok(kept) => Ok(Namespace { kept: Some(kept) }),
                Err(_) => Err(Memory),
            },
        }
    }

    /// The bytes.
    pub fn as_slice(&self) -> &[u8]
        ensures { result.now ≡ self.now }
    {
        match &self.kept {
            None => b"".as_slice(),
            Some(kept) => kept.as_slice(),
        }
    }

    pub fn is_empty(&self) -> bool
        ensures { IsTrue result ↔ (self.now ≡ []) }
    {
        self.as_slice().is_empty()
    }

    /// Whether it is a legal text.
    pub fn is_legal(&self) -> bool
        ensures { result ≡ is_legal_text self.now }
    {
        match &self.kept {
            None => legal_text(b"".as_slice()),
            Some(kept) => kept.is_legal(),
        }
    }
}
