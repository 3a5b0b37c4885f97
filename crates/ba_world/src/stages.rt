//! What is played: the clock, the bag, and where each node is.
ghost use Rattle.std.specs.Prelude.{◌≡◌, true, IfErr, IfOk, IsTrue, is_some};
ghost use Rattle.std.specs.Option.{option_map};
ghost use Rattle.ba_world_play.specs.Plays.{WorldOnDisks, scope_named, starting_play};
ghost use Rattle.ba_node_steps.specs.Node.{last};
ghost use Rattle.ba_world.specs.Worlds.{AreDisksOf, IsStageOf, is_node_up, seen_in};
ghost use Rattle.ba_world.specs.inside.Stages.{ArePlacesAtStart, IsKindNamed, IsNotThere, IsTakenOut, place_at, with_place};

use crate::faults::StepFault;
use crate::mails::Mail;
use ba_core::{Id, Kind, List, Memory};
use ba_node_steps::Seen;
use ba_ports_memory::MemDisk;
use ba_world_places::{Place, first_place};
use ba_world_play::Missing;
use std::alloc::Global;
use std::marker::Model;
use std::mem;

/// What is played. `World` keeps that it is that of a play.
#[derive(Drop)]
pub struct Stage {
    pub alloc: Global,
    pub clock: u64,
    pub bag: List<Mail>,
    pub places: Vec<Place>,
}

impl Model for Stage {
    ghost use Rattle.ba_world.specs.Worlds.{StageValue};
    ghost use Rattle.ba_tree.specs.contracts.trees.Content as content;
    ghost use Rattle.std.specs.Coded.{codes};

    ghost Value = { StageValue };

    ghost coded = { Prim.hlevel (codes, content.the_row.coded) };

    ghost view = { λ s. record { clock = s.clock; bag = s.bag; places = s.places.items } };
}

impl Stage {
    /// So many nodes, numbered from 1, without objects.
    pub fn make(alloc: Global, nodes: u32) -> Result<Stage, Memory>
        ensures { IfOk result (λ stage. IsStageOf stage (starting_play nodes)) }
    {
        Ok(Stage {
            alloc,
            clock: 0,
            bag: List::new(alloc),
            places: first_places(alloc, nodes)?,
        })
    }

    // ---- what it shows

    /// There is this node, and it isn't down.
    pub fn up(&self, node: u32) -> bool
        ensures { (p : WorldOnDisks) → IsStageOf self.now p → result ≡ is_node_up p node }
    {
        match self.place(node) {
            Some(Place::Up(_)) => true,
            Some(Place::Down(_, _)) => false,
            None => false,
        }
    }

    /// The greatest counter in use at this node, where that isn't down.
    pub fn last(&self, node: u32) -> u64
        ensures { (p : WorldOnDisks) → IsStageOf self.now p → is_node_up p node ≡ true → result ≡ last (p.world.nodes node).state }
    {
        match self.place(node) {
            Some(Place::Up(held)) => held.last(),
            Some(Place::Down(_, _)) => 0,
            None => 0,
        }
    }

    /// What the object with this identifier shows at its node, where that isn't down.
    pub fn seen(&self, id: Id) -> Option<Seen>
        ensures { (p : WorldOnDisks) → IsStageOf self.now p → result ≡ seen_in p id }
    {
        match self.place(id.node()) {
            Some(Place::Up(node)) => node.status(id),
            Some(Place::Down(_, _)) => None,
            None => None,
        }
    }

    /// The kind of a scope that is named.
    pub fn scope_kind(&self, scope: Id) -> Result<Kind, StepFault>
        ensures { (p : WorldOnDisks) → IsStageOf self.now p → IsKindNamed (scope_named p scope) result }
    {
        let Some(place) = self.place(scope.node()) else {
            return Err(StepFault::Missing(Missing::Name));
        };
        match place.scope_kind(scope) {
            Some(kind) => Ok(kind),
            None => Err(StepFault::Missing(Missing::Name)),
        }
    }

    /// The disks in the order of the nodes' numbers, with nothing done to them.
    pub fn into_disks(self) -> Result<List<MemDisk>, Memory>
        ensures { IfOk result (λ disks. (p : WorldOnDisks) → IsStageOf self p → AreDisksOf p disks) }
    {
        let Stage { alloc, places, .. } = self;
        let mut disks = List::new(alloc);
        for place in places {
            if disks.push(place.into_disk()).is_err() {
                return Err(Memory);
            }
        }
        Ok(disks)
    }

    // ---- places

    /// Where the node with this number is, if there is one.
    pub fn place(&self, node: u32) -> Option<&Place>
        ensures { option_map (λ at. at.now) result ≡ place_at self.now node }
    {
        if node == 0 {
            return None;
        }
        self.places.get((node - 1) as usize)
    }

    /// Takes the node with this number out of its place, and leaves an empty one.
    pub fn take(&mut self, node: u32) -> Result<Place, StepFault>
        ensures taken { IfOk result (λ held. IsTakenOut self.old self.new node held) }
        ensures missing { IfErr result (λ why. IsNotThere self.old self.new node why) }
    {
        if node == 0 || self.places.len() < node as usize {
            return Err(StepFault::Missing(Missing::Name));
        }
        let empty = Place::Down(MemDisk::new(self.alloc), List::new(self.alloc));
        Ok(mem::replace(&mut self.places[(node - 1) as usize], empty))
    }

    /// Puts it back.
    pub fn put(&mut self, node: u32, after: Place)
        requires { IsTrue (is_some (place_at self.old node)) }
        ensures { self.new ≡ with_place self.old node after }
    {
        self.places[(node - 1) as usize] = after;
    }
}

// The places of so many nodes without objects.
fn first_places(alloc: Global, nodes: u32) -> Result<Vec<Place>, Memory>
    ensures { IfOk result (λ places. ArePlacesAtStart nodes places.items) }
{
    let mut places = Vec::new(alloc);
    for before in 0..nodes {
        let place = first_place(alloc, before + 1)?;
        if places.push(place).is_err() {
            return Err(Memory);
        }
    }
    Ok(places)
}
