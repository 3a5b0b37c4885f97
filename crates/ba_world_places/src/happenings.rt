//! What happens to a node's place beside its calls.
ghost use Rattle.std.specs.Prelude.{◌≡◌, IfOk};
ghost use Rattle.ba_ports_memory.specs.DiskValue.{MediumValue};
ghost use Rattle.ba_world_play.specs.Nodes.{armed_with, crashed};
ghost use Rattle.ba_ports.specs.Disk.{fail, stop};
ghost use Rattle.ba_world_runs.specs.World.{WorldNode};
ghost use Rattle.ba_world_places.specs.Calls.{MatchesBoth};
ghost use Rattle.ba_world_places.specs.Places.{Matches};

use crate::places::Place;
use ba_core::Memory;
use ba_ports::{Faulty, Image};
use std::alloc::Global;

/// The node stops, and its disk is restarted.
pub fn crash(alloc: Global, held: Place) -> Result<Place, Memory>
    ensures { IfOk result (λ after. (n : WorldNode) (disk : MediumValue) → Matches n disk held → MatchesBoth (crashed n disk) after) }
{
    let (disk, known) = held.into_parts(alloc)?;
    let mut disk = disk;
    disk.restart();
    Ok(Place::Down(disk, known))
}

/// A stop of the machine is armed for the next call of the node.
pub fn arm_stop(held: Place, call: u32, image: Image) -> Place
    ensures { (n : WorldNode) (disk : MediumValue) → Matches n disk held → MatchesBoth (armed_with (stop call image) n disk) result }
{
    match held {
        Place::Up(node) => {
            let mut node = node;
            node.stop_next(call, image);
            Place::Up(node)
        }
        Place::Down(disk, known) => {
            let mut disk = disk;
            disk.stop_next(call, image);
            Place::Down(disk, known)
        }
    }
}

/// A failure of a call of the disk is armed for the next call of the node.
pub fn arm_failure(held: Place, call: u32) -> Place
    ensures { (n : WorldNode) (disk : MediumValue) → Matches n disk held → MatchesBoth (armed_with (fail call) n disk) result }
{
    match held {
        Place::Up(node) => {
            let mut node = node;
            node.fail_next(call);
            Place::Up(node)
        }
        Place::Down(disk, known) => {
            let mut disk = disk;
            disk.fail_next(call);
            Place::Down(disk, known)
        }
    }
}
