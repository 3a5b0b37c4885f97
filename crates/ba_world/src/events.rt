//! The events of a world, each as it is played on the places of its nodes.
ghost use Rattle.std.specs.Prelude.{◌≡◌, IfErr, IfOk, Ok};
ghost use Rattle.ba_core.specs.Numbers.{node_of};
ghost use Rattle.ba_message.specs.Endpoints.{Fits};
ghost use Rattle.ba_ports_memory.specs.DiskValue.{MediumValue};
ghost use Rattle.ba_world_places.specs.Calls.{IsOfInput};
ghost use Rattle.ba_world_places.specs.Places.{IsPlaceOf};
ghost use Rattle.ba_world_play.specs.Plays.{WorldOnDisks, create_at, deliver, join_at, mail_at, moment, own_at, play_step};
ghost use Rattle.ba_ports.specs.Disk.{fail, stop};
ghost use Rattle.ba_world_runs.specs.World.{Occasion, WorldNode, is_up, ticks};
ghost use Rattle.ba_node_steps.specs.Endpoints.{GivesFit};
ghost use Rattle.ba_node_steps.specs.Lawful.{given};
ghost use Rattle.ba_world.specs.Worlds.{IsStageOf};
ghost use Rattle.ba_world.specs.inside.Shown.{is_child, next_made};
ghost use Rattle.ba_world.specs.inside.Stages.{AreMade, IsCalled, IsContextNamed, IsLetterAt, IsNotCalled, IsReplyAt, IsStaged, StagePlays, arm_at, crash_at, lost_at, node_call_at, open_at, tick_at, wait_at};

use crate::faults::StepFault;
use crate::mails::Mail;
use crate::messages::Delivery;
use crate::outcomes::{Makes, answer_outcome, label_of};
use crate::stages::Stage;
use ba_core::{Id, Kind, Protocol};
use ba_message::{Context, Letter};
use ba_node_steps::{Input, Reply};
use ba_ports::Image;
use ba_world_events::{Event, Outcome};
use ba_world_places::{
    Answer, Place, arm_failure, arm_stop, call_input, call_nothing, call_tick, crash, open,
};

impl Stage {
    /// An event happens.
    pub fn happen(&mut self, e: Event) -> Result<Outcome, StepFault>
        requires { IsStaged self.old }
        ensures { StagePlays (λ p. play_step p e) self.old self.new result }
    {
        match e {
            Event::Create {
                node,
                kind,
                under,
                expires,
            } => self.create(node, kind, under, expires),
            Event::Join {
                node,
                protocol,
                scope,
            } => self.join(node, protocol, scope),
            Event::Tick(id) => self.tick(id),
            Event::Deliver(number) => self.deliver(number),
            Event::Act(id, act) => self.own(id.node(), Input::Act(id, act)),
            Event::Ask(id) => self.own(id.node(), Input::Ask(id)),
            Event::Decide(id, verdict) => self.own(id.node(), Input::Decide(id, verdict)),
            Event::Choose(id, verdict) => self.own(id.node(), Input::Choose(id, verdict)),
            Event::Complete(id) => self.own(id.node(), Input::Complete(id)),
            Event::Finish(id) => self.own(id.node(), Input::Finish(id)),
            Event::Leave(id, how) => self.own(id.node(), Input::Leave(id, how)),
            Event::Wait(time) => Ok(self.wait(time)),
            Event::Crash(node) => self.crash(node),
            Event::CrashAt { node, call, image } => self.arm_stop(node, call, image),
            Event::Fail { node, call } => self.arm_failure(node, call),
            Event::Open(node) => self.open(node),
        }
    }

    // ---- inputs of a node's own

    fn create(
        &mut self,
        node: u32,
        kind: Kind,
        under: Option<(Id, Protocol)>,
        expires: Option<u32>,
    ) -> Result<Outcome, StepFault>
        ensures { StagePlays (λ p. create_at p node kind expires under) self.old self.new result }
    {
        let kind = Some(kind);
        let Some((scope, up)) = under else {
            return self.own(
                node,
                Input::Create {
                    expires,
                    current: None,
                    kind,
                    up: Protocol::Pc,
                },
            );
        };
        let current = Some(self.handed(scope)?);
        self.own(
            node,
            Input::Create {
                expires,
                current,
                kind,
                up,
            },
        )
    }

    fn join(&mut self, node: u32, protocol: Protocol, scope: Id) -> Result<Outcome, StepFault>
        ensures { StagePlays (λ p. join_at p node protocol scope) self.old self.new result }
    {
        let Context { registration, .. } = self.handed(scope)?;
        self.own(
            node,
            Input::Join {
                protocol,
                registration,
            },
        )
    }

    // The context of a scope that is named, as it is handed in.
    fn handed(&self, scope: Id) -> Result<Context, StepFault>
        ensures context { (p : WorldOnDisks) → IsStageOf self.now p → IsContextNamed p scope result }
        ensures fits { IfOk result (λ context. Fits context.registration) }
    {
        let kind = self.scope_kind(scope)?;
        Ok(self.context(scope, kind)?)
    }

    fn own(&mut self, node: u32, input: Input) -> Result<Outcome, StepFault>
        requires { GivesFit (given 0 input) }
        ensures { StagePlays (λ p. own_at p node input) self.old self.new result }
    {
        let (answer, makes) = self.input(node, input)?;
        Ok(answer_outcome(answer, makes))
    }

    // An input at the node with this number: what it answered, and what it made if that was a context.
    fn input(&mut self, node: u32, input: Input) -> Result<(Answer<Reply>, Makes), StepFault>
        requires { GivesFit (given 0 input) }
        ensures called { IfOk result (λ made. (p : WorldOnDisks) (o : Occasion) → IsStageOf self.old p → IsOfInput (moment p) input o
            → IsCalled (IsReplyAt p node input) self.old self.new p node (node_call_at p node o) made.0) }
        ensures makes { IfOk result (λ made. (p : WorldOnDisks) → IsStageOf self.old p → AreMade p node input made.1) }
        ensures missing { IfErr result (IsNotCalled self.old self.new node) }
    {
        let held = self.take(node)?;
        let makes = next_of(&held, node, is_child(&input));
        let (after, answer) = call_input(self.alloc, held, self.clock, input)?;
        self.put(node, after);
        Ok((answer, makes))
    }

    // ---- ticks

    fn tick(&mut self, id: Id) -> Result<Outcome, StepFault>
        ensures { StagePlays (tick_at id) self.old self.new result }
    {
        match self.tick_object(id)? {
            Answer::Untaken(shown) => Ok(shown),
            Answer::Taken(None) => Ok(Outcome::Quiet),
            Answer::Taken(Some(letter)) => {
                let label = label_of(&letter.message);
                let number = self.send(Mail::Letter(letter))?;
                Ok(Outcome::Sent(number, label))
            }
        }
    }

    fn tick_object(&mut self, id: Id) -> Result<Answer<Option<Letter>>, StepFault>
        ensures called { IfOk result (λ answer. (p : WorldOnDisks) → IsStageOf self.old p
            → IsCalled (IsLetterAt p id) self.old self.new p (node_of id.0) (node_call_at p (node_of id.0) (ticks (moment p) id)) answer) }
        ensures missing { IfErr result (IsNotCalled self.old self.new (node_of id.0)) }
    {
        let node = id.node();
        let held = self.take(node)?;
        let (after, answer) = call_tick(self.alloc, held, self.clock, id)?;
        self.put(node, after);
        Ok(answer)
    }

    // ---- deliveries

    fn deliver(&mut self, number: u64) -> Result<Outcome, StepFault>
        requires { IsStaged self.old }
        ensures { StagePlays (λ p. deliver p (mail_at p.world.bag number)) self.old self.new result }
    {
        let Delivery {
            node,
            input,
            answers,
        } = self.arrive(number)?;
        if self.place(node).is_none() {
            return Ok(Outcome::Done);
        }
        let Some(input) = input else {
            return self.lose(node);
        };
        let (answer, makes) = self.input(node, input)?;
        match answer {
            Answer::Untaken(shown) => Ok(shown),
            Answer::Taken(reply) => Ok(self.answer(answers, reply, makes)?),
        }
    }

    // A message that leads to no input is delivered to the node with this number.
    fn lose(&mut self, node: u32) -> Result<Outcome, StepFault>
        ensures { StagePlays (lost_at node) self.old self.new result }
    {
        let held = self.take(node)?;
        let (after, shown) = call_nothing(held);
        self.put(node, after);
        Ok(shown)
    }

    // ---- what is no call of a node

    fn wait(&mut self, time: u32) -> Outcome
        ensures { StagePlays (wait_at time) self.old self.new (Ok result) }
    {
        self.clock = self.clock.saturating_add(u64::from(time));
        Outcome::Done
    }

    fn crash(&mut self, node: u32) -> Result<Outcome, StepFault>
        ensures { StagePlays (crash_at node) self.old self.new result }
    {
        let held = self.take(node)?;
        let after = crash(self.alloc, held)?;
        self.put(node, after);
        Ok(Outcome::Done)
    }

    fn arm_stop(&mut self, node: u32, call: u32, image: Image) -> Result<Outcome, StepFault>
        ensures { StagePlays (arm_at node (stop call image)) self.old self.new result }
    {
        let held = self.take(node)?;
        self.put(node, arm_stop(held, call, image));
        Ok(Outcome::Done)
    }

    fn arm_failure(&mut self, node: u32, call: u32) -> Result<Outcome, StepFault>
        ensures { StagePlays (arm_at node (fail call)) self.old self.new result }
    {
        let held = self.take(node)?;
        self.put(node, arm_failure(held, call));
        Ok(Outcome::Done)
    }

    fn open(&mut self, node: u32) -> Result<Outcome, StepFault>
        ensures { StagePlays (open_at node) self.old self.new result }
    {
        let held = self.take(node)?;
        let (after, shown) = open(self.alloc, held, node)?;
        self.put(node, after);
        Ok(shown)
    }
}

// A scope is to be made under another.
fn is_child(input: &Input) -> bool
    ensures { result ≡ is_child input.now }
{
    matches!(
        input,
        Input::Create {
            current: Some(_),
            ..
        }
    )
}

// What the node makes where it makes a scope next: the scope, and with it the participant of one that is interposed.
fn next_of(held: &Place, node: u32, is_child: bool) -> Makes
    ensures { (n : WorldNode) (disk : MediumValue) → IsPlaceOf n disk held.now → n.mode ≡ is_up → n.state.number ≡ node
        → result ≡ next_made n.state is_child }
{
    let last = match held {
        Place::Up(node) => node.last(),
        Place::Down(_, _) => 0,
    };
    let id = Id::of(node, last.saturating_add(1));
    if is_child {
        Makes::Child(id, Id::of(node, last.saturating_add(2)))
    } else {
        Makes::Scope(id)
    }
}
