//! The part of a plan that one sender serves.
ghost use Rattle.ba_resend.specs.inside.Tournaments.{IsFirstOf, IsTournament, comes_first, due_in as due_of, entry_at, first_of, half, slot, slots_of};
ghost use Rattle.std.specs.Prelude.{◌≡◌, ℕ, ◌+◌, ◌*◌, ◌/◌, ◌<◌, ◌≤◌, IfOk, OnErr, OnOk, None, length, slice_set, []};

use crate::dues::Due;
use ba_core::Memory;
use std::alloc::Global;
use std::marker::Model;

/// What is due at a place of a share.
#[derive(Clone, Copy)]
pub(crate) struct Entry {
    pub place: usize,
    pub due: Due,
}

/// The places of a share, with what is due at each, as a tournament that the first of them wins.
#[derive(Drop)]
pub(crate) struct Share {
    tree: Vec<Option<Entry>>,
}

impl Model for Share {
    ghost use Rattle.std.specs.Prelude.{List, Option};
    ghost use Rattle.ba_resend.specs.declared.dues.Due.{Due};

    ghost Value = { List (Option Due) };

    ghost use Rattle.ba_resend.specs.inside.Tournaments.{IsTournament, slots_of};

    ghost view = { λ a. slots_of a.tree.items };

    ghost invariant = { λ a. IsTournament a.tree.items };
}

impl Share {
    /// A share without a place.
    pub(crate) fn new(alloc: Global) -> Share
        ensures { result ≡ [] }
    {
        Share {
            tree: Vec::new(alloc),
        }
    }

    /// A share of so many places, with nothing due.
    fn empty(alloc: Global, places: usize) -> Result<Share, Memory>
        ensures places { IfOk result (λ s. length s ≡ places) }
        ensures nothing { IfOk result (λ s. (j : ℕ) → slot s j ≡ None) }
    {
        let Some(nodes) = places.checked_mul(2) else {
            return Err(Memory);
        };
        match Vec::from_elem(alloc, None, nodes) {
            Ok(tree) => Ok(Share { tree }),
            Err(_) => Err(Memory),
        }
    }

    pub(crate) fn len(&self) -> usize
        ensures { result ≡ length self.now }
    {
        self.tree.len() / 2
    }

    /// Makes room for so many places, and for at least twice as many as there are where these don't do.
    pub(crate) fn reserve(&mut self, count: usize) -> Result<(), Memory>
        ensures slots { (j : ℕ) → slot self.new j ≡ slot self.old j }
        ensures longer { length self.old ≤ length self.new }
        ensures ok { OnOk result (count ≤ length self.new) }
    {
        let places = self.len();
        if count <= places {
            return Ok(());
        }
        let alloc = *self.tree.allocator();
        let mut wider = Share::empty(alloc, count.max(places.saturating_mul(2)))?;
        self.copy_to(&mut wider);
        *self = wider;
        Ok(())
    }

    /// Sets what is due at each place at the same place of another share, which is empty.
    fn copy_to(&self, wider: &mut Share)
        requires room { length self.now ≤ length wider.old }
        requires nothing { (j : ℕ) → slot wider.old j ≡ None }
        ensures slots { (j : ℕ) → slot wider.new j ≡ slot self.now j }
        ensures len { length wider.new ≡ length wider.old }
    {
        for place in 0..self.len() {
            wider.set(place, self.at(place));
        }
    }

    /// What is due at the place, if there is that place.
    pub(crate) fn at(&self, place: usize) -> Option<Due>
        ensures { result ≡ slot self.now place }
    {
        if place < self.tree.len() / 2 {
            due_in(self.tree[self.tree.len() / 2 + place])
        } else {
            None
        }
    }

    /// Sets what is due at the place.
    pub(crate) fn set(&mut self, place: usize, due: Option<Due>)
        requires { place < length self.old }
        ensures { self.new ≡ slice_set self.old place due }
    {
        put(&mut self.tree, place, due);
    }

    /// The first that is due at any time.
    pub(crate) fn first(&self) -> Option<Entry>
        ensures { IsFirstOf self.now result }
    {
        if self.tree.len() < 2 {
            None
        } else {
            self.tree[1]
        }
    }
}

fn due_in(entry: Option<Entry>) -> Option<Due>
    ensures { result ≡ due_of entry }
{
    match entry {
        Some(entry) => Some(entry.due),
        None => None,
    }
}

fn placed_entry(place: usize, due: Option<Due>) -> Option<Entry>
    ensures { result ≡ entry_at place due }
{
    match due {
        Some(due) => Some(Entry { place, due }),
        None => None,
    }
}

/// The one of two that is due first; of two at the same moment the one at the lower place.
fn earlier(one: Option<Entry>, other: Option<Entry>) -> Option<Entry>
    ensures { result ≡ first_of one other }
{
    match (one, other) {
        (None, _) => other,
        (_, None) => one,
        (Some(a), Some(b)) => { if is_before(&a, &b) { one } else { other } }
    }
}

fn is_before(a: &Entry, b: &Entry) -> bool
    ensures { result ≡ comes_first a.now b.now }
{
    a.due.moment < b.due.moment || a.due.moment == b.due.moment && a.place < b.place
}

/// Puts what is due at a place into a tournament, and settles the nodes above it.
fn put(tree: &mut [Option<Entry>], place: usize, due: Option<Due>)
    requires fits { IsTournament tree.old }
    requires place { place < half tree.old }
    ensures fits { IsTournament tree.new }
    ensures slots { slots_of tree.new ≡ slice_set (slots_of tree.old) place due }
{
    let leaf = tree.len() / 2 + place;
    tree[leaf] = placed_entry(place, due);
    let mut node = leaf / 2;
    while node > 0 {
        tree[node] = earlier(tree[2 * node], tree[2 * node + 1]);
        node /= 2;
    }
}
