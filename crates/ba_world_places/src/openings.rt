//! A node of a world is loaded again.
ghost use Rattle.std.specs.Prelude.{◌≡◌, ◌≤◌, IfOk, Some};
ghost use Rattle.ba_ports_memory.specs.DiskValue.{MediumValue};
ghost use Rattle.ba_world_play.specs.Nodes.{open_call};
ghost use Rattle.ba_world_runs.specs.World.{WorldNode};
ghost use Rattle.ba_world_places.specs.Calls.{IsLawfulNode, MatchesBoth};
ghost use Rattle.ba_world_places.specs.inside.Calls.{IsReadied, IsUnloaded, KnowsScopes, ready_disk};
ghost use Rattle.ba_world_places.specs.Places.{Matches};

use crate::bases::base_of;
use crate::calls::{ready, rested};
use crate::places::{KnownScope, Place};
use ba_core::{List, Memory};
use ba_node::{LoadFault, Node};
use ba_ports::Faulty;
use ba_ports_memory::MemDisk;
use ba_world_events::Outcome;
use std::alloc::Global;

/// The node with this number is loaded again, also one that is up. A disk that has stopped is restarted first.
pub fn open(alloc: Global, held: Place, number: u32) -> Result<(Place, Outcome), Memory>
    requires { 1 ≤ number }
    ensures { IfOk result (λ made. (n : WorldNode) (disk : MediumValue) → IsLawfulNode number n → Matches n disk held
        → MatchesBoth (open_call n disk).after made.0 × ((open_call n disk).shown ≡ Some made.1)) }
{
    let (disk, known) = held.into_parts(alloc)?;
    load(alloc, restarted(disk), known, number)
}

// The disk of a machine that runs.
fn restarted(disk: MemDisk) -> MemDisk
    ensures { result ≡ ready_disk disk }
{
    let mut disk = disk;
    if disk.stopped() {
        disk.restart();
    }
    disk
}

// Loads a node from a disk whose machine runs.
fn load(
    alloc: Global,
    disk: MemDisk,
    known: List<KnownScope>,
    number: u32,
) -> Result<(Place, Outcome), Memory>
    requires { 1 ≤ number }
    ensures { IfOk result (λ made. (n : WorldNode) (held : MediumValue) → IsLawfulNode number n → IsReadied n held disk
        → KnowsScopes n known
        → MatchesBoth (open_call n held).after made.0 × ((open_call n held).shown ≡ Some made.1)) }
{
    match Node::load(alloc, disk, number, base_of(alloc, number)?) {
        Ok(node) => {
            if node.starved() {
                return Err(Memory);
            }
            Ok((ready(node), Outcome::Done))
        }
        Err((disk, fault)) => {
            if disk.starved() {
                return Err(Memory);
            }
            unloaded(disk, known, fault)
        }
    }
}

// A load that failed: a disk that stands for a node's own records is refused for nothing else.
fn unloaded(
    disk: MemDisk,
    known: List<KnownScope>,
    fault: LoadFault,
) -> Result<(Place, Outcome), Memory>
    ensures { IfOk result (λ made. IsUnloaded disk known fault made.0 made.1) }
{
    let shown = if disk.stopped() {
        Outcome::Stopped
    } else {
        Outcome::Disk
    };
    match fault {
        LoadFault::Disk => Ok((rested(disk, known), shown)),
        _ => Err(Memory),
    }
}
