//! Memory for the ends of a scope, taken before an end is made.
ghost use Rattle.std.specs.Prelude.{◌≡◌, [], IfOk, vec_capacity};

use crate::ends::End;
use ba_core::Memory;
use std::alloc::Global;
use std::marker::Model;

/// Memory for so many ends.
#[derive(Debug, Drop)]
pub struct Room {
    block: Vec<End>,
}

impl Model for Room {
    ghost use Rattle.std.specs.Prelude.{◌≡◌, ℕ, [], vec_capacity};

    ghost Value = { ℕ };

    ghost view = { λ room. vec_capacity room.block };

    ghost invariant = { λ room. room.block.items ≡ [] };
}

impl Room {
    /// Memory for so many ends.
    pub fn take(alloc: Global, size: usize) -> Result<Room, Memory>
        ensures { IfOk result (λ room. room ≡ size) }
    {
        match Vec::with_capacity(alloc, size) {
            Ok(block) => Ok(Room { block }),
            Err(_) => Err(Memory),
        }
    }

    /// The memory itself, in which there are no ends.
    pub fn into_block(self) -> Vec<End>
        ensures items { result.items ≡ [] }
        ensures capacity { vec_capacity result ≡ self }
    {
        let Room { block } = self;
        block
    }
}
