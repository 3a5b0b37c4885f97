//! Coordination contexts, messages, and messages on their way.
ghost use Rattle.std.specs.Prelude.{◌≡◌, IfOk};

use crate::endpoints::Epr;
use ba_core::{Code, Id, Kind, Memory, Notice, Octets, Protocol};
use std::alloc::Global;

/// How many bytes the identifier of a context or a message has at most where an envelope surely has room for it.
pub const MOST_IDENTIFIER_BYTES: usize = 1024;

/// A coordination context (WS-Coordination 1.2, section 2).
#[derive(Debug, Drop)]
pub struct Context {
    pub identifier: Octets,
    /// In milliseconds.
    pub expires: Option<u32>,
    /// None where the text names a type that is not known.
    pub kind: Option<Kind>,
    pub registration: Epr,
}

impl Context {
    /// An equal context.
    pub fn copy(&self, alloc: Global) -> Result<Context, Memory>
        ensures { IfOk result (λ copy. copy ≡ self.now) }
    {
        Ok(Context {
            identifier: self.identifier.copy()?,
            expires: self.expires,
            kind: self.kind,
            registration: self.registration.copy(alloc)?,
        })
    }
}

/// What a message says.
#[derive(Debug, Drop)]
pub enum Message {
    /// CreateCoordinationContext (WS-Coordination 1.2, section 3.1). `up` is the protocol for which a scope
    /// below the current context registers.
    Create {
        expires: Option<u32>,
        current: Option<Context>,
        kind: Option<Kind>,
        up: Protocol,
    },
    /// CreateCoordinationContextResponse (section 3.1).
    Created(Context),
    /// Register (section 3.2). No protocol where the text names one that is not known.
    Register {
        protocol: Option<Protocol>,
        participant: Epr,
    },
    /// RegisterResponse (section 3.2).
    Registered(Epr),
    /// A notice of WS-BusinessActivity 1.2.
    Notice(Notice),
    /// A fault.
    Fault(Code),
}

/// A message on its way: to whom it goes, and its number.
#[derive(Debug, Drop)]
pub struct Letter {
    pub to: Epr,
    pub number: Id,
    pub message: Message,
}
