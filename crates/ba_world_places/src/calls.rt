//! The calls of one node: an input or a tick.
ghost use Rattle.std.specs.Prelude.{◌≡◌, IfOk, Some};
ghost use Rattle.ba_ports_memory.specs.DiskValue.{MediumValue, rearm};
ghost use Rattle.ba_world_play.specs.Nodes.{lost_call, node_call};
ghost use Rattle.ba_ports.specs.Disk.{nothing};
ghost use Rattle.ba_world_runs.specs.World.{Occasion, WorldNode, ticks};
ghost use Rattle.ba_node_steps.specs.Endpoints.{GivesFit};
ghost use Rattle.ba_node_steps.specs.Fits.{HasSpareCounters};
ghost use Rattle.ba_node_steps.specs.Lawful.{given};
ghost use Rattle.ba_node_steps.specs.Steps.{node_step};
ghost use Rattle.ba_node_steps.specs.Ticks.{tick_step};
ghost use Rattle.ba_world_places.specs.Calls.{CallLeadsTo, IsOfInput, MatchesBoth};
ghost use Rattle.ba_world_places.specs.inside.Calls.{IsBroken, IsUntaken, unarmed};
ghost use Rattle.ba_world_places.specs.Places.{Matches};
ghost use Rattle.ba_world_places.specs.declared.places.Place.TheVariants as place;

use crate::places::{KnownScope, Place, scopes_of};
use ba_core::{Id, List, Memory};
use ba_message::Letter;
use ba_node::{Node, NodeFault};
use ba_node_steps::{Input, Reply};
use ba_ports::Faulty;
use ba_ports_memory::MemDisk;
use ba_world_events::Outcome;
use std::alloc::Global;

/// What a node answered to a call.
#[derive(Debug, Drop)]
pub enum Answer<T> {
    /// It took its step.
    Taken(T),
    /// It took none, and this is what the call shows.
    Untaken(Outcome),
}

/// An input goes to a node, at this moment in milliseconds.
pub fn call_input(
    alloc: Global,
    held: Place,
    now: u64,
    input: Input,
) -> Result<(Place, Answer<Reply>), Memory>
    requires { GivesFit (given now input) }
    ensures { IfOk result (λ made. (n : WorldNode) (disk : MediumValue) (o : Occasion) → IsOfInput now input o → Matches n disk held
        → CallLeadsTo (λ reply. reply ≡ (node_step n.state now input).reply) (node_call n disk o) made.0 made.1) }
{
    match held {
        Place::Down(disk, known) => Ok((rested(disk, known), Answer::Untaken(Outcome::Down))),
        Place::Up(node) => {
            let mut node = node;
            let answer = node.handle(now, input);
            if node.starved() {
                return Err(Memory);
            }
            match answer {
                Ok(done) => Ok((ready(node), Answer::Taken(done.reply))),
                Err(fault) => {
                    let (place, shown) = untaken(alloc, node, fault)?;
                    Ok((place, Answer::Untaken(shown)))
                }
            }
        }
    }
}

/// The object with this identifier ticks.
pub fn call_tick(
    alloc: Global,
    held: Place,
    now: u64,
    id: Id,
) -> Result<(Place, Answer<Option<Letter>>), Memory>
    ensures { IfOk result (λ made. (n : WorldNode) (disk : MediumValue) → Matches n disk held
        → CallLeadsTo (λ letter. letter ≡ (tick_step n.state now id).letter) (node_call n disk (ticks now id)) made.0 made.1) }
{
    match held {
        Place::Down(disk, known) => Ok((rested(disk, known), Answer::Untaken(Outcome::Down))),
        Place::Up(node) => {
            let mut node = node;
            let answer = node.tick(now, id);
            if node.starved() {
                return Err(Memory);
            }
            match answer {
                Ok(ticked) => Ok((ready(node), Answer::Taken(ticked.letter))),
                Err(fault) => {
                    let (place, shown) = untaken(alloc, node, fault)?;
                    Ok((place, Answer::Untaken(shown)))
                }
            }
        }
    }
}

/// A message that leads to no input is delivered to a node.
pub fn call_nothing(held: Place) -> (Place, Outcome)
    ensures { (n : WorldNode) (disk : MediumValue) → Matches n disk held
        → MatchesBoth (lost_call n disk n.mode).after result.0 × ((lost_call n disk n.mode).shown ≡ Some result.1) }
{
    match held {
        Place::Down(disk, known) => (rested(disk, known), Outcome::Down),
        Place::Up(node) => (ready(node), Outcome::Done),
    }
}

/// What was armed is spent.
pub fn ready(node: Node<MemDisk>) -> Place
    ensures place { result ≡ place.Up (unarmed node) }
    ensures spare { HasSpareCounters node.node }
{
    let mut node = node;
    node.disarm();
    // A node says of its counters that two more are always to spare.
    let _last = node.last();
    Place::Up(node)
}

/// What was armed is spent.
pub fn rested(disk: MemDisk, known: List<KnownScope>) -> Place
    ensures { result ≡ place.Down (rearm nothing disk) known }
{
    let mut disk = disk;
    disk.disarm();
    Place::Down(disk, known)
}

// A call of the node that took no step.
fn untaken(alloc: Global, node: Node<MemDisk>, fault: NodeFault) -> Result<(Place, Outcome), Memory>
    ensures { IfOk result (λ made. IsUntaken node fault made.0 made.1) }
{
    match fault {
        NodeFault::Memory => Err(Memory),
        NodeFault::Full => Ok((ready(node), Outcome::Full)),
        NodeFault::Closed(_) => Ok((ready(node), Outcome::Closed)),
        NodeFault::Disk => broken(alloc, node),
    }
}

// The disk failed, or its machine stopped.
fn broken(alloc: Global, node: Node<MemDisk>) -> Result<(Place, Outcome), Memory>
    ensures { IfOk result (λ made. IsBroken node made.0 made.1) }
{
    if !node.stopped() {
        return Ok((ready(node), Outcome::Disk));
    }
    let known = scopes_of(alloc, &node)?;
    Ok((rested(node.into_disk(), known), Outcome::Stopped))
}
