//! Where the objects of a node stood when they were made: hints, of which nothing is promised.

use crate::changes::{Change, ScopeChange};
use ba_core::{Id, Memory};
use std::alloc::Global;

/// Where an object stands. A number is a place among the scopes, or among the lone participants, from 0.
#[derive(Clone, Copy, Debug)]
pub enum Spot {
    /// It is this scope, its own participant or one of its ends.
    InScope(usize),
    /// It is this lone participant.
    Lone(usize),
    /// There is no such object.
    Nowhere,
}

/// The spots of a node's objects by their counters, from 1. A look-up looks at the spot before it believes it.
#[derive(Debug, Drop)]
pub struct Spots {
    spots: Vec<Spot>,
}

impl Spots {
    /// Those of a node without objects.
    pub fn empty(alloc: Global) -> Spots {
        Spots {
            spots: Vec::new(alloc),
        }
    }

    /// Takes memory for the spots of two more objects: a change makes no more.
    pub fn reserve(&mut self) -> Result<(), Memory> {
        if self.spots.reserve(2).is_err() {
            return Err(Memory);
        }
        Ok(())
    }

    /// Where the object with this identifier may stand.
    pub fn guess(&self, id: Id) -> Option<Spot> {
        let place = id.counter().checked_sub(1)?;
        self.spots.get(place as usize).copied()
    }

    /// Learns where the objects that the change makes are to stand, at a node with so many scopes and lone participants.
    pub fn learn(&mut self, change: &Change, scopes: usize, parts: usize) {
        match change {
            Change::NewScope(scope) => {
                self.put(scope.id(), Spot::InScope(scopes));
                if let Some(part) = scope.up() {
                    self.put(part.id, Spot::InScope(scopes));
                }
            }
            Change::NewPart(part) => self.put(part.id, Spot::Lone(parts)),
            Change::Scope(place, ScopeChange::Enrol(_, id, _, _)) => {
                self.put(*id, Spot::InScope(*place));
            }
            _ => {}
        }
    }

    // Counters rise by one, so that the spot comes after the others. What had no memory is made up for here, by a spot that
    // a look-up won't believe. Where there is no memory now, the object is found by a search.
    fn put(&mut self, id: Id, spot: Spot) {
        let count = id.counter() as usize;
        if self.spots.len() < count {
            let _ = self.spots.resize(count, spot);
        }
    }
}
