//! The events of a world of nodes, and the words by which scripts tell some of them.
ghost use Rattle.std.specs.Prelude.{◌≡◌, ◌≢◌, IfSome, IfNone};
ghost use Rattle.ba_core.specs.declared.notices.Leave.{Leave};
ghost use Rattle.ba_world_events.specs.Events.{image_word, leave_word};
ghost use Rattle.ba_ports.specs.declared.images.Image.{Image};

use ba_core::{Act, Id, Kind, Leave, Protocol, Verdict};
use ba_ports::Image;

/// An event of a world of nodes, which are numbered from 1.
#[derive(Clone, Copy, Debug, PartialEq, Eq)]
pub enum Event {
    /// A node is asked for a new activity (WS-Coordination 1.2, section 3.1), also for one that is interposed
    /// under another scope, with the protocol to use there, and for one that expires after so many milliseconds.
    Create {
        node: u32,
        kind: Kind,
        under: Option<(Id, Protocol)>,
        expires: Option<u32>,
    },
    /// A node begins a participant's work in this scope (WS-Coordination 1.2, section 3.2).
    Join {
        node: u32,
        protocol: Protocol,
        scope: Id,
    },
    /// An object says what its state lets it say; what it says joins the bag.
    Tick(Id),
    /// The bag's message with this number, from 1, arrives. It stays in the bag.
    Deliver(u64),
    /// A participant's work comes to this.
    Act(Id, Act),
    /// An object is to ask the other side for its state (WS-BusinessActivity 1.2, section 3.3).
    Ask(Id),
    /// This verdict is decided for a scope.
    Decide(Id, Verdict),
    /// This verdict is chosen for one end of a scope.
    Choose(Id, Verdict),
    /// An end's participant is to complete its work.
    Complete(Id),
    /// A child scope's work is complete.
    Finish(Id),
    /// A child scope leaves the activity that it is interposed in.
    Leave(Id, Leave),
    /// The one clock goes on by so many milliseconds.
    Wait(u32),
    /// A node stops.
    Crash(u32),
    /// A node stops at this device call, from 1, of its next call, and the disk leaves this.
    CrashAt {
        node: u32,
        call: u32,
        image: Image,
    },
    /// This device call, from 1, of a node's next call fails.
    Fail {
        node: u32,
        call: u32,
    },
    /// A node is loaded again from its disk.
    Open(u32),
}

/// The way to leave that has this word.
pub fn leave_of_word(word: &[u8]) -> Option<Leave>
    ensures some { IfSome result (λ leave. word.now ≡ leave_word leave) }
    ensures none { IfNone result ((leave : Leave) → word.now ≢ leave_word leave) }
{
    if word == b"exit".as_slice() {
        return Some(Leave::Exit);
    }
    if word == b"cannotcomplete".as_slice() {
        return Some(Leave::CannotComplete);
    }
    if word == b"fail".as_slice() {
        return Some(Leave::Fail);
    }
    None
}

/// What a stop leaves of a disk, by its word.
pub fn image_of_word(word: &[u8]) -> Option<Image>
    ensures some { IfSome result (λ image. word.now ≡ image_word image) }
    ensures none { IfNone result ((image : Image) → word.now ≢ image_word image) }
{
    if word == b"old".as_slice() {
        return Some(Image::Old);
    }
    if word == b"new".as_slice() {
        return Some(Image::New);
    }
    if word == b"filled".as_slice() {
        return Some(Image::Filled);
    }
    if word == b"half".as_slice() {
        return Some(Image::Half);
    }
    None
}
