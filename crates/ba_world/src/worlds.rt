//! A world of nodes over disks in memory, and the bag of all messages between them.
ghost use Rattle.std.specs.Prelude.{◌≡◌, true, false, length, IfOk, Err};
ghost use Rattle.ba_world_play.specs.Plays.{WorldOnDisks, play_step, starting_play};
ghost use Rattle.ba_node_steps.specs.Node.{last};
ghost use Rattle.ba_world.specs.Worlds.{AreDisksOf, IsPlayedAs, IsWorldOf, is_node_up, seen_in};
ghost use Rattle.ba_world.specs.declared.faults.StepFault.TheVariants as fault;
ghost use Rattle.ba_world.specs.inside.Stages.{is_starved};

use crate::faults::StepFault;
use crate::stages::Stage;
use ba_core::{Id, List, Memory};
use ba_node_steps::Seen;
use ba_ports_memory::MemDisk;
use ba_world_events::{Event, Outcome};
use std::alloc::Global;
use std::marker::Model;

/// A world of nodes, each on a disk in memory, with one clock and the bag of all messages that were ever sent. Each message that
/// is delivered passes through the text of its envelope.
#[derive(Drop)]
pub struct World {
    stage: Stage,
    spent: bool,
}

impl Model for World {
    ghost use Rattle.ba_world.specs.Worlds.{IsPlayed, WorldValue};
    ghost use Rattle.ba_tree.specs.contracts.trees.Content as content;
    ghost use Rattle.std.specs.Coded.{codes};

    ghost Value = { WorldValue };

    ghost coded = { Prim.hlevel (codes, content.the_row.coded) };

    ghost view = { λ w. record { stage = w.stage; spent = w.spent } };

    ghost invariant = { λ w. IsPlayed (record { stage = w.stage; spent = w.spent }) };
}

impl World {
    /// A world of so many nodes, numbered from 1, without objects. The base of a node's addresses is `http://node` and its number;
    /// its disk holds its journal with the node's own record.
    pub fn make(alloc: Global, nodes: u32) -> Result<World, Memory>
        ensures { IfOk result (λ world. IsWorldOf world (starting_play nodes)) }
    {
        let stage = Stage::make(alloc, nodes)?;
        Ok(World {
            stage,
            spent: false,
        })
    }

    /// Plays one event. What a node refuses or a disk fails is an outcome too. An `Err` is for an event that names what isn't there,
    /// and for want of memory, after which the world isn't used again.
    pub fn step(&mut self, e: &Event) -> Result<Outcome, StepFault>
        requires { self.old.spent ≡ false }
        // Of whatever play this is the world: exactly the event's effect, or what it names that isn't there.
        ensures play { (p : WorldOnDisks) → IsWorldOf self.old p → IsPlayedAs (play_step p e.now) self.old self.new result }
        ensures memory { (result ≡ Err fault.Memory) → self.new.spent ≡ true }
    {
        let played = self.stage.happen(*e);
        self.spent = is_starved(&played);
        played
    }

    /// The world has this node, and it isn't down.
    pub fn up(&self, node: u32) -> bool
        ensures { (p : WorldOnDisks) → IsWorldOf self.now p → result ≡ is_node_up p node }
    {
        self.stage.up(node)
    }

    /// The greatest counter in use at this node, where that isn't down.
    pub fn last(&self, node: u32) -> u64
        ensures { (p : WorldOnDisks) → IsWorldOf self.now p → is_node_up p node ≡ true → result ≡ last (p.world.nodes node).state }
    {
        self.stage.last(node)
    }

    /// What the object with this identifier shows at its node, where that isn't down.
    pub fn seen(&self, id: Id) -> Option<Seen>
        ensures { (p : WorldOnDisks) → IsWorldOf self.now p → result ≡ seen_in p id }
    {
        self.stage.seen(id)
    }

    /// How many messages are in the bag.
    pub fn bag(&self) -> u64
        ensures { (p : WorldOnDisks) → IsWorldOf self.now p → result ≡ length p.world.bag }
    {
        self.stage.bag.len() as u64
    }

    /// The disks of the nodes in the order of their numbers, with nothing done to them.
    pub fn into_disks(self) -> Result<List<MemDisk>, Memory>
        ensures { IfOk result (λ disks. (p : WorldOnDisks) → IsWorldOf self p → AreDisksOf p disks) }
    {
        let World { stage, .. } = self;
        stage.into_disks()
    }
}

// There was no memory.
fn is_starved(played: &Result<Outcome, StepFault>) -> bool
    ensures { result ≡ is_starved played.now }
{
    matches!(played, Err(StepFault::Memory))
}
