//! The base of a node's addresses, and a node of a world that begins.
ghost use Rattle.std.specs.Prelude.{◌≡◌, ◌≤◌, IfOk};
ghost use Rattle.ba_world_places.specs.Places.{Matches};
ghost use Rattle.ba_world_play.specs.Plays.{disk_at_start, node_base};
ghost use Rattle.ba_world_runs.specs.Runs.{node_at_start};

use crate::calls::ready;
use crate::places::Place;
use ba_core::{List, Memory, Octets};
use ba_node::Node;
use ba_ports::Faulty;
use ba_ports_memory::MemDisk;
use std::alloc::Global;

/// The base of a node's addresses.
pub fn base_of(alloc: Global, node: u32) -> Result<Octets, Memory>
    ensures { IfOk result (λ base. base ≡ node_base node) }
{
    match format!(in alloc; "http://node{node}") {
        Ok(text) => Ok(List::of(text.into_bytes())),
        Err(_) => Err(Memory),
    }
}

/// A node without objects on an empty disk.
pub fn first_place(alloc: Global, number: u32) -> Result<Place, Memory>
    requires { 1 ≤ number }
    ensures { IfOk result (λ place. Matches (node_at_start number (node_base number)) (disk_at_start number) place) }
{
    match Node::load(alloc, MemDisk::new(alloc), number, base_of(alloc, number)?) {
        Ok(node) => {
            if node.starved() {
                return Err(Memory);
            }
            Ok(ready(node))
        }
        Err(_) => Err(Memory),
    }
}
