//! The namespaces of trees, counted in a row of fixed length that borrows them.
ghost use Rattle.std.specs.Prelude.{◌≡◌, ◌≤◌, [], length, map};
ghost use Rattle.std.specs.List.{list_any};
ghost use Rattle.std.specs.Str.{bytes_eq};
ghost use Rattle.ba_tree.specs.Spaces.{all_noted, is_noted, noted, spaces_within};
ghost use Rattle.ba_tree.specs.Trees.{joined, spaces_named};

use std::marker::Model;

/// At most 32 namespaces, each once, in the order in which they came. Contracts see the list of them.
pub struct Spaces<'a> {
    row: [&'a [u8]; 32],
    count: usize,
}

impl<'a> Model for Spaces<'a> {
    ghost use Rattle.std.specs.Prelude.{List, ℕ, ◌≤◌, ◌≡◌, length, map, take};

    ghost Value = { List (List ℕ) };

    ghost view = { λ s. map (λ b. b.now) (take s.count s.row) };

    ghost invariant = { λ s. (s.count ≤ 32) × (length s.row ≡ 32) };
}

impl<'a> Spaces<'a> {
    /// A row without namespaces.
    pub fn new() -> Self
        ensures { result ≡ [] }
    {
        Spaces {
            row: [b"".as_slice(); 32],
            count: 0,
        }
    }

    #[tactic(auto, using(crate::proofs::SpaceLaws::any_map))]
    fn holds(&self, space: &[u8]) -> bool
        ensures { result ≡ list_any (bytes_eq space.now) self.now }
    {
        is_among(space, &self.row[..self.count])
    }

    /// How many there are.
    #[tactic(auto, using(crate::proofs::SpaceLaws::row_length))]
    pub fn into_len(self) -> usize
        ensures { result ≡ length self.entry }
    {
        let Spaces { row: _, count } = self;
        count
    }

    /// Notes a namespace that isn't empty and that the row doesn't have yet. None where it would be more than
    /// `most`, which is at most 32.
    pub fn note(self, most: usize, space: &'a [u8]) -> Option<Self>
        requires { most ≤ 32 }
        ensures { result ≡ noted most self.entry space.now }
    {
        if space.is_empty() || self.holds(space) {
            return Some(self);
        }
        let Spaces { mut row, count } = self;
        if count >= most {
            return None;
        }
        row[count] = space;
        Some(Spaces {
            row,
            count: count + 1,
        })
    }
}

fn is_among(space: &[u8], row: &[&[u8]]) -> bool
    ensures { result ≡ list_any (λ held. bytes_eq space.now held.now) row.now }
{
    row.iter().any(|held| space == *held)
}
