//! What a business activity agrees on: its protocol, its kind, and its verdicts.
ghost use Rattle.std.specs.Prelude.{◌≡◌, ◌≢◌, IfSome, IfNone};
ghost use Rattle.ba_core.specs.Words.{kind_word, protocol_word, verdict_word};
ghost use Rattle.ba_core.specs.declared.protocols.Kind.{Kind};
ghost use Rattle.ba_core.specs.declared.protocols.Protocol.{Protocol};
ghost use Rattle.ba_core.specs.declared.protocols.Verdict.{Verdict};

use std::fmt;

/// The protocol between a coordinator and a participant (WS-BusinessActivity 1.2, section 3).
#[derive(Clone, Copy, Debug, PartialEq, Eq, Hash)]
pub enum Protocol {
    /// ParticipantCompletion: the participant itself says that its work is complete.
    Pc,
    /// CoordinatorCompletion: the coordinator tells the participant to complete.
    Cc,
}

impl Protocol {
    /// The word by which lines and commands name it.
    pub fn word(self) -> &'static [u8]
        ensures { result.now ≡ protocol_word self }
    {
        match self {
            Protocol::Pc => b"pc",
            Protocol::Cc => b"cc",
        }
    }

    /// The protocol with this word.
    pub fn of_word(word: &[u8]) -> Option<Protocol>
        ensures some { IfSome result (λ protocol. word.now ≡ protocol_word protocol) }
        ensures none { IfNone result ((protocol : Protocol) → word.now ≢ protocol_word protocol) }
    {
        if word == b"pc".as_slice() {
            return Some(Protocol::Pc);
        }
        if word == b"cc".as_slice() {
            return Some(Protocol::Cc);
        }
        None
    }
}

impl fmt::Display for Protocol {
    ghost use Rattle.ba_core.specs.Words.{protocol_word};
    ghost use Rattle.std.specs.Prelude.{Some};

    ghost output = { λ protocol. Some (protocol_word protocol) };

    fn fmt<W: fmt::Write>(&self, f: &mut fmt::Formatter<W>) -> fmt::Result {
        match self {
            Protocol::Pc => write!(f, "pc"),
            Protocol::Cc => write!(f, "cc"),
        }
    }
}

/// The coordination type of an activity (WS-BusinessActivity 1.2, section 2).
#[derive(Clone, Copy, Debug, PartialEq, Eq, Hash)]
pub enum Kind {
    /// AtomicOutcome: all participants are told the same outcome.
    Atomic,
    /// MixedOutcome: each participant is told an outcome of its own.
    Mixed,
}

impl Kind {
    /// The word by which lines and commands name it.
    pub fn word(self) -> &'static [u8]
        ensures { result.now ≡ kind_word self }
    {
        match self {
            Kind::Atomic => b"atomic",
            Kind::Mixed => b"mixed",
        }
    }

    /// The kind with this word.
    pub fn of_word(word: &[u8]) -> Option<Kind>
        ensures some { IfSome result (λ kind. word.now ≡ kind_word kind) }
        ensures none { IfNone result ((kind : Kind) → word.now ≢ kind_word kind) }
    {
        if word == b"atomic".as_slice() {
            return Some(Kind::Atomic);
        }
        if word == b"mixed".as_slice() {
            return Some(Kind::Mixed);
        }
        None
    }
}

impl fmt::Display for Kind {
    ghost use Rattle.ba_core.specs.Words.{kind_word};
    ghost use Rattle.std.specs.Prelude.{Some};

    ghost output = { λ kind. Some (kind_word kind) };

    fn fmt<W: fmt::Write>(&self, f: &mut fmt::Formatter<W>) -> fmt::Result {
        match self {
            Kind::Atomic => write!(f, "atomic"),
            Kind::Mixed => write!(f, "mixed"),
        }
    }
}

/// What is decided for a participant's work.
#[derive(Clone, Copy, Debug, PartialEq, Eq, Hash)]
pub enum Verdict {
    /// Completed work stands.
    Close,
    /// Work is canceled, or compensated where it was completed.
    Undo,
}

impl Verdict {
    /// The word by which lines and commands name it.
    pub fn word(self) -> &'static [u8]
        ensures { result.now ≡ verdict_word self }
    {
        match self {
            Verdict::Close => b"close",
            Verdict::Undo => b"undo",
        }
    }

    /// The verdict with this word.
    pub fn of_word(word: &[u8]) -> Option<Verdict>
        ensures some { IfSome result (λ verdict. word.now ≡ verdict_word verdict) }
        ensures none { IfNone result ((verdict : Verdict) → word.now ≢ verdict_word verdict) }
    {
        if word == b"close".as_slice() {
            return Some(Verdict::Close);
        }
        if word == b"undo".as_slice() {
            return Some(Verdict::Undo);
        }
        None
    }
}

impl fmt::Display for Verdict {
    ghost use Rattle.ba_core.specs.Words.{verdict_word};
    ghost use Rattle.std.specs.Prelude.{Some};

    ghost output = { λ verdict. Some (verdict_word verdict) };

    fn fmt<W: fmt::Write>(&self, f: &mut fmt::Formatter<W>) -> fmt::Result {
        match self {
            Verdict::Close => write!(f, "close"),
            Verdict::Undo => write!(f, "undo"),
        }
    }
}

/// One of the two sides of a link.
#[derive(Clone, Copy, Debug, PartialEq, Eq, Hash)]
pub enum Side {
    Coordinator,
    Participant,
}
