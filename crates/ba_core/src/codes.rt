//! The codes of faults.
ghost use Rattle.std.specs.Prelude.{◌≡◌, ◌≢◌, IfSome, IfNone};
ghost use Rattle.ba_core.specs.Texts.{code_text};
ghost use Rattle.ba_core.specs.declared.codes.Code.{Code};

use std::fmt;

/// The code of a SOAP fault. The first four are SOAP's, the next five WS-Coordination's
/// (section 4) and the next five WS-Addressing's (SOAP binding, section 6).
#[derive(Clone, Copy, Debug, PartialEq, Eq, Hash)]
pub enum Code {
    VersionMismatch,
    MustUnderstand,
    Client,
    Server,
    InvalidState,
    InvalidProtocol,
    InvalidParameters,
    CannotCreateContext,
    CannotRegisterParticipant,
    InvalidAddressingHeader,
    MessageAddressingHeaderRequired,
    DestinationUnreachable,
    ActionNotSupported,
    EndpointUnavailable,
    /// A code that this project doesn't know.
    Other,
}

impl Code {
    /// The local name of the code; `Other` where this project doesn't know it.
    pub fn name(self) -> &'static [u8]
        ensures { result.now ≡ code_text self }
    {
        match self {
            Code::VersionMismatch => b"VersionMismatch",
            Code::MustUnderstand => b"MustUnderstand",
            Code::Client => b"Client",
            Code::Server => b"Server",
            Code::InvalidState => b"InvalidState",
            Code::InvalidProtocol => b"InvalidProtocol",
            Code::InvalidParameters => b"InvalidParameters",
            Code::CannotCreateContext => b"CannotCreateContext",
            Code::CannotRegisterParticipant => b"CannotRegisterParticipant",
            Code::InvalidAddressingHeader => b"InvalidAddressingHeader",
            Code::MessageAddressingHeaderRequired => b"MessageAddressingHeaderRequired",
            Code::DestinationUnreachable => b"DestinationUnreachable",
            Code::ActionNotSupported => b"ActionNotSupported",
            Code::EndpointUnavailable => b"EndpointUnavailable",
            Code::Other => b"Other",
        }
    }

    /// The code with this local name, if this project knows one.
    pub fn of_name(name: &[u8]) -> Option<Code>
        ensures some { IfSome result (λ code. name.now ≡ code_text code) }
        ensures known { IfSome result (λ code. code ≢ Code.Other) }
        ensures none { IfNone result ((code : Code) → code ≢ Code.Other → name.now ≢ code_text code) }
    {
        if name == b"VersionMismatch".as_slice() {
            return Some(Code::VersionMismatch);
        }
        if name == b"MustUnderstand".as_slice() {
            return Some(Code::MustUnderstand);
        }
        if name == b"Client".as_slice() {
            return Some(Code::Client);
        }
        if name == b"Server".as_slice() {
            return Some(Code::Server);
        }
        if name == b"InvalidState".as_slice() {
            return Some(Code::InvalidState);
        }
        if name == b"InvalidProtocol".as_slice() {
            return Some(Code::InvalidProtocol);
        }
        if name == b"InvalidParameters".as_slice() {
            return Some(Code::InvalidParameters);
        }
        if name == b"CannotCreateContext".as_slice() {
            return Some(Code::CannotCreateContext);
        }
        if name == b"CannotRegisterParticipant".as_slice() {
            return Some(Code::CannotRegisterParticipant);
        }
        if name == b"InvalidAddressingHeader".as_slice() {
            return Some(Code::InvalidAddressingHeader);
        }
        if name == b"MessageAddressingHeaderRequired".as_slice() {
            return Some(Code::MessageAddressingHeaderRequired);
        }
        if name == b"DestinationUnreachable".as_slice() {
            return Some(Code::DestinationUnreachable);
        }
        if name == b"ActionNotSupported".as_slice() {
            return Some(Code::ActionNotSupported);
        }
        if name == b"EndpointUnavailable".as_slice() {
            return Some(Code::EndpointUnavailable);
        }
        None
    }
}

impl fmt::Display for Code {
    ghost use Rattle.ba_core.specs.Texts.{code_text};
    ghost use Rattle.std.specs.Prelude.{Some};

    ghost output = { λ c. Some (code_text c) };

    fn fmt<W: fmt::Write>(&self, f: &mut fmt::Formatter<W>) -> fmt::Result {
        match self {
            Code::VersionMismatch => write!(f, "VersionMismatch"),
            Code::MustUnderstand => write!(f, "MustUnderstand"),
            Code::Client => write!(f, "Client"),
            Code::Server => write!(f, "Server"),
            Code::InvalidState => write!(f, "InvalidState"),
            Code::InvalidProtocol => write!(f, "InvalidProtocol"),
            Code::InvalidParameters => write!(f, "InvalidParameters"),
            Code::CannotCreateContext => write!(f, "CannotCreateContext"),
            Code::CannotRegisterParticipant => write!(f, "CannotRegisterParticipant"),
            Code::InvalidAddressingHeader => write!(f, "InvalidAddressingHeader"),
            Code::MessageAddressingHeaderRequired => write!(f, "MessageAddressingHeaderRequired"),
            Code::DestinationUnreachable => write!(f, "DestinationUnreachable"),
            Code::ActionNotSupported => write!(f, "ActionNotSupported"),
            Code::EndpointUnavailable => write!(f, "EndpointUnavailable"),
            Code::Other => write!(f, "Other"),
        }
    }
}
