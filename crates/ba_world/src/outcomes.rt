//! What a call of a node shows.
ghost use Rattle.std.specs.Prelude.{◌≡◌};
ghost use Rattle.ba_world_play.specs.Outcomes.{label_of, refused_outcome};
ghost use Rattle.ba_world.specs.inside.Shown.{answer_shown, reply_shown};

use ba_core::{BAD_ADDRESS, Code, Id};
use ba_message::Message;
use ba_node_steps::Reply;
use ba_world_events::{Label, Outcome};
use ba_world_places::Answer;

/// What an input makes where it makes a scope.
#[derive(Clone, Copy, Debug, PartialEq, Eq)]
pub enum Makes {
    /// This scope, or nothing.
    Scope(Id),
    /// This scope, and the participant that speaks for it in the activity above.
    Child(Id, Id),
}

/// What a node's answer to an input shows.
pub fn answer_outcome(answer: Answer<Reply>, makes: Makes) -> Outcome
    ensures { result ≡ answer_shown answer makes }
{
    match answer {
        Answer::Taken(reply) => reply_outcome(&reply, makes),
        Answer::Untaken(shown) => shown,
    }
}

/// What a node's reply shows.
pub fn reply_outcome(reply: &Reply, makes: Makes) -> Outcome
    ensures { result ≡ reply_shown reply.now makes }
{
    match reply {
        Reply::Accepted | Reply::Enrolment(_) => Outcome::Done,
        Reply::Context(_) => match makes {
            Makes::Scope(id) => Outcome::Made(id),
            Makes::Child(id, up) => Outcome::MadeUnder(id, up),
        },
        Reply::Joined(id) => Outcome::Made(*id),
        Reply::SoapFault(code) => Outcome::Fault(*code),
        Reply::Refused(why, id) => refused_outcome(*why, *id),
    }
}

// An address that can't be dialed is no object's.
fn refused_outcome(why: u8, id: Id) -> Outcome
    ensures { result ≡ refused_outcome why id }
{
    if why == BAD_ADDRESS {
        Outcome::Refused(why, None)
    } else {
        Outcome::Refused(why, Some(id))
    }
}

/// A message by what it is. Contexts aren't sent in a world, and have no word.
pub fn label_of(message: &Message) -> Label
    ensures { result ≡ label_of message.now }
{
    match message {
        Message::Create { .. } | Message::Created(_) => Label::Fault(Code::Other),
        Message::Register { .. } => Label::Register,
        Message::Registered(_) => Label::RegisterResponse,
        Message::Notice(notice) => Label::Notice(*notice),
        Message::Fault(code) => Label::Fault(*code),
    }
}
