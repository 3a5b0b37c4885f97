//! The messages of a world: where one goes, the context of a scope, and what joins the bag.
ghost use Rattle.std.specs.Prelude.{◌≡◌, ◌+◌, ◌++◌, [], ◌∷◌, length, map, IfOk, Some};
ghost use Rattle.std.specs.Option.{option_map};
ghost use Rattle.ba_world.specs.Mails.{mail_of};
ghost use Rattle.ba_message.specs.Letters.{IsPostable, IsReply};
ghost use Rattle.ba_world_play.specs.Posting.{CanBePosted};
ghost use Rattle.ba_world_runs.specs.World as runs;
ghost use Rattle.ba_world_runs.specs.World.{Net};
ghost use Rattle.ba_message.specs.Endpoints.{Fits};
ghost use Rattle.ba_world_play.specs.Plays.{WorldOnDisks, context_handed, mail_at};
ghost use Rattle.ba_node_steps.specs.Routing.{answer_of_reply, identifier_in};
ghost use Rattle.ba_scope.specs.Scope.{ScopeState};
ghost use Rattle.ba_world.specs.Worlds.{IsStageOf};
ghost use Rattle.ba_world.specs.inside.Deliveries.{HasBases, IsDeliveryOf};
ghost use Rattle.ba_world.specs.inside.Stages.{IsArrival, IsReplySent, IsStaged};

use crate::faults::StepFault;
use crate::mails::{Mail, posted, posted_answer};
use crate::outcomes::{Makes, label_of, reply_outcome};
use crate::stages::Stage;
use ba_core::{Id, Kind, Memory};
use ba_message::{Context, Letter, Message};
use ba_node_addresses::{
    answer_input, answer_of_reply, context_identifier, identifier_in, letter_input,
    registration_of, sender_of,
};
use ba_node_steps::{Input, Reply};
use ba_world_events::Outcome;
use ba_world_places::base_of;
use ba_world_play::Missing;
use std::alloc::Global;

/// Where a message goes.
#[derive(Debug, Drop)]
pub struct Delivery {
    /// The number of the node; the world may have none with this number, and has none with the number 0.
    pub node: u32,
    /// The input to which it leads there, if it leads to one.
    pub input: Option<Input>,
    /// Of a letter its number, which an answer to it names.
    pub answers: Option<Id>,
}

impl Stage {
    /// Where the message with this number, from 1, goes.
    pub fn arrive(&self, number: u64) -> Result<Delivery, StepFault>
        requires { IsStaged self.now }
        ensures { (p : WorldOnDisks) → IsStageOf self.now p → IsArrival p number result }
    {
        match self.mail(number) {
            Some(mail) => Ok(delivery_of(self.alloc, mail)?),
            None => Err(StepFault::Missing(Missing::Message)),
        }
    }

    // The message with this number.
    fn mail(&self, number: u64) -> Option<&Mail>
        ensures { option_map (λ m. mail_of m.now) result ≡ mail_at (map mail_of self.now.bag) number }
    {
        if number == 0 {
            return None;
        }
        self.bag.as_slice().get((number - 1) as usize)
    }

    /// A node's reply to what was delivered; where that was a letter, with this number, an answer to it joins the bag.
    pub fn answer(
        &mut self,
        answered: Option<Id>,
        reply: Reply,
        makes: Makes,
    ) -> Result<Outcome, Memory>
        ensures { IfOk result (λ shown. IsReplySent self.old self.new answered reply makes shown) }
    {
        let shown = reply_outcome(&reply, makes);
        match (answered, answer_of_reply(reply)) {
            (Some(number), Some(message)) => {
                let label = label_of(&message);
                let place = self.send(Mail::Answer(number, message))?;
                Ok(Outcome::Reply(place, label))
            }
            _ => Ok(shown),
        }
    }

    /// A message joins the bag: its number there, from 1.
    pub fn send(&mut self, mail: Mail) -> Result<u64, Memory>
        ensures { IfOk result (λ number. (number ≡ length self.old.bag + 1) × (self.new ≡ record self.old { bag = self.old.bag ++ mail ∷ [] })) }
    {
        if self.bag.push(mail).is_err() {
            return Err(Memory);
        }
        Ok(self.bag.len() as u64)
    }

    /// The context of a scope of this kind, as it is handed in.
    pub fn context(&self, scope: Id, kind: Kind) -> Result<Context, Memory>
        ensures handed { IfOk result (λ context. (p : WorldOnDisks) → IsStageOf self.now p → (s : ScopeState) → s.kind ≡ kind
            → context ≡ context_handed p scope s) }
        ensures fits { IfOk result (λ context. Fits context.registration) }
    {
        let base = base_of(self.alloc, scope.node())?;
        Ok(Context {
            identifier: context_identifier(self.alloc, scope)?,
            expires: None,
            kind: Some(kind),
            registration: registration_of(self.alloc, base.as_slice(), scope)?,
        })
    }
}

// Where a message goes, which passes through the text of its envelope.
fn delivery_of(alloc: Global, mail: &Mail) -> Result<Delivery, Memory>
    requires { CanBePosted (mail_of mail.now) }
    ensures { IfOk result (λ to. (w : Net) → HasBases w → IsDeliveryOf w (mail_of mail.now) to) }
{
    match mail {
        Mail::Letter(letter) => letter_delivery(alloc, letter),
        Mail::Answer(number, message) => answer_delivery(alloc, *number, message),
    }
}

fn letter_delivery(alloc: Global, letter: &Letter) -> Result<Delivery, Memory>
    requires { IsPostable letter.now }
    ensures { IfOk result (λ to. (w : Net) → HasBases w → IsDeliveryOf w (runs.letter letter.now) to) }
{
    let arrived = posted(alloc, letter)?;
    match identifier_in(arrived.to.address.as_slice()) {
        Some(id) => delivery_to(alloc, id, arrived),
        None => Ok(Delivery {
            node: 0,
            input: None,
            answers: Some(arrived.number),
        }),
    }
}

// Where a letter goes whose address ends with the text of this identifier.
fn delivery_to(alloc: Global, id: Id, arrived: Letter) -> Result<Delivery, Memory>
    ensures { IfOk result (λ to. (w : Net) → HasBases w → Some id ≡ identifier_in arrived.to.address
        → IsDeliveryOf w (runs.letter arrived) to) }
{
    let node = id.node();
    let base = base_of(alloc, node)?;
    let answers = Some(arrived.number);
    let input = letter_input(base.as_slice(), id, arrived);
    Ok(Delivery {
        node,
        input,
        answers,
    })
}

fn answer_delivery(alloc: Global, number: Id, message: &Message) -> Result<Delivery, Memory>
    requires { IsReply message.now }
    ensures { IfOk result (λ to. (w : Net) → HasBases w → IsDeliveryOf w (runs.answer number message.now) to) }
{
    let arrived = posted_answer(alloc, number, message)?;
    Ok(Delivery {
        node: sender_of(number).node(),
        input: answer_input(number, arrived),
        answers: None,
    })
}
