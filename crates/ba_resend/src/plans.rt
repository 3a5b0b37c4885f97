//! The plan: when each object of a node is to say something again.
ghost use Rattle.ba_resend.specs.Plans.{HasRoom, IsNextDue, Planned, delay_of, due_after_later, due_after_prompt, due_after_quiet, due_after_sent, due_with, prompted_moment};
ghost use Rattle.ba_resend.specs.inside.Rows.{row_at, shares_with_row};
ghost use Rattle.ba_resend.specs.inside.Tournaments.{slot};
ghost use Rattle.ba_core.specs.Numbers.{counter_of};
ghost use Rattle.std.specs.FinMap as map;
ghost use Rattle.std.specs.Prelude.{◌≡◌, ℕ, ◌+◌, ◌/◌, ◌%◌, ◌<◌, ◌≤◌, ◌↔◌, IfOk, IsTrue, OnErr, OnOk, length, get_or, max, []};

use crate::dues::{Due, FIRST_DELAY, LONGEST_DELAY};
use crate::shares::Share;
use ba_core::{Id, Memory};
use std::alloc::Global;
use std::marker::Model;

/// The objects of one node that are to say something, each with a moment and a delay, shared out to senders by their
/// counters. Moments and delays are in milliseconds.
#[derive(Drop)]
pub struct Plan {
    node: u32,
    room: u64,
    shares: Vec<Share>,
}

impl Model for Plan {
    ghost use Rattle.ba_resend.specs.Plans.{Planned, planned_code};

    ghost Value = { Planned };

    ghost coded = { planned_code };

    ghost use Rattle.ba_resend.specs.inside.Rows.{FitsRoom, planned_of};

    ghost view = { λ p. planned_of p.node p.room p.shares.items };

    ghost invariant = { λ p. FitsRoom p.shares.items p.room };
}

impl Plan {
    /// The plan of this node for so many senders, with no room and nothing due. The only failure is want of memory.
    pub fn new(alloc: Global, node: u32, senders: usize) -> Result<Plan, Memory>
        requires { 0 < senders }
        ensures { IfOk result (λ p. p ≡ record { node = node; senders = senders; room = 0; due = map.empty }) }
    {
        let mut shares = Vec::new(alloc);
        for _ in 0..senders {
            if shares.push(Share::new(alloc)).is_err() {
                return Err(Memory);
            }
        }
        Ok(Plan {
            node,
            room: 0,
            shares,
        })
    }

    /// Makes room for all objects of the node whose counters are at most `last`. All other calls take no memory.
    /// The only failure is want of memory.
    pub fn reserve(&mut self, last: u64) -> Result<(), Memory>
        ensures room { OnOk result (self.new ≡ record self.old { room = max self.old.room (last + 1) }) }
        ensures unchanged { OnErr result (self.new ≡ self.old) }
    {
        if last < self.room {
            return Ok(());
        }
        let Some(room) = last.checked_add(1) else {
            return Err(Memory);
        };
        let senders = self.shares.len() as u64;
        widen(&mut self.shares, (last / senders) as usize + 1)?;
        self.room = room;
        Ok(())
    }

    /// The number of the node whose objects the plan speaks of.
    pub fn node(&self) -> u32
        ensures { result ≡ self.now.node }
    {
        self.node
    }

    /// How many senders share the objects. There is at least one.
    pub fn senders(&self) -> usize
        ensures count { result ≡ self.now.senders }
        ensures some { 0 < result }
    {
        self.shares.len()
    }

    /// Whether there is room for what is due of this object.
    pub fn has_room(&self, id: Id) -> bool
        ensures { IsTrue result ↔ HasRoom self.now id.0 }
    {
        id.0 == Id::of(self.node, id.counter()).0 && id.counter() < self.room
    }

    /// When the object is to say something, if it is.
    pub fn due(&self, id: Id) -> Option<Due>
        ensures { result ≡ map.get self.now.due id.0 }
    {
        if self.has_room(id) {
            row(&self.shares, id.counter() as usize)
        } else {
            None
        }
    }

    /// Makes the object due now, or leaves it due since it was, and sets its delay back to the first.
    pub fn prompt(&mut self, id: Id, now: u64)
        requires { HasRoom self.old id.0 }
        ensures { self.new ≡ record self.old { due = due_after_prompt self.old.due id.0 now } }
    {
        let moment = prompted(self.due(id), now);
        self.set(
            id,
            Some(Due {
                moment,
                delay: FIRST_DELAY,
            }),
        );
    }

    /// Makes the object due at the moment, with the first delay.
    pub fn later(&mut self, id: Id, moment: u64)
        requires { HasRoom self.old id.0 }
        ensures { self.new ≡ record self.old { due = due_after_later self.old.due id.0 moment } }
    {
        self.set(
            id,
            Some(Due {
                moment,
                delay: FIRST_DELAY,
            }),
        );
    }

    /// Makes the object due after its delay, which doubles up to the longest. One that wasn't due has the first delay.
    pub fn sent(&mut self, id: Id, now: u64)
        requires { HasRoom self.old id.0 }
        ensures { self.new ≡ record self.old { due = due_after_sent self.old.due id.0 now } }
    {
        let delay = delay(self.due(id));
        self.set(
            id,
            Some(Due {
                moment: now.saturating_add(delay),
                delay: delay.saturating_mul(2).min(LONGEST_DELAY),
            }),
        );
    }

    /// Makes the object due no more.
    pub fn quiet(&mut self, id: Id)
        ensures { self.new ≡ record self.old { due = due_after_quiet self.old.due id.0 } }
    {
        let _ = &self.node;
        if self.has_room(id) {
            self.set(id, None);
        }
    }

    /// Of the objects that are due now and that the sender serves, the one with the least moment, and of these the least.
    /// A sender serves the objects whose counters, divided by the number of senders, leave its share.
    pub fn next(&self, share: usize, now: u64) -> Option<Id>
        requires { share < self.now.senders }
        ensures { IsNextDue self.now.due self.now.senders share now result }
    {
        let Some(first) = self.shares[share].first() else {
            return None;
        };
        if now < first.due.moment {
            return None;
        }
        let senders = self.shares.len() as u64;
        Some(Id::of(self.node, first.place as u64 * senders + share as u64))
    }

    /// Sets when an object is due.
    fn set(&mut self, id: Id, due: Option<Due>)
        requires { HasRoom self.old id.0 }
        ensures { self.new ≡ record self.old { due = due_with self.old.due id.0 due } }
    {
        set_row(&mut self.shares, id.counter() as usize, due);
    }
}

fn prompted(due: Option<Due>, now: u64) -> u64
    ensures { result ≡ prompted_moment due now }
{
    match due {
        Some(due) => due.moment.min(now),
        None => now,
    }
}

fn delay(due: Option<Due>) -> u64
    ensures { result ≡ delay_of due }
{
    match due {
        Some(due) => due.delay,
        None => FIRST_DELAY,
    }
}

/// What is due of the object with this counter.
fn row(shares: &[Share], counter: usize) -> Option<Due>
    requires { 0 < length shares.now }
    ensures { result ≡ row_at shares.now counter }
{
    shares[counter % shares.len()].at(counter / shares.len())
}

/// Sets what is due of the object with this counter.
fn set_row(shares: &mut [Share], counter: usize, due: Option<Due>)
    requires senders { 0 < length shares.old }
    requires within { counter / length shares.old < length (get_or shares.old (counter % length shares.old) []) }
    ensures { shares.new ≡ shares_with_row shares.old counter due }
{
    let senders = shares.len();
    shares[counter % senders].set(counter / senders, due);
}

/// Makes room for so many places in each share.
fn widen(shares: &mut [Share], places: usize) -> Result<(), Memory>
    ensures senders { length shares.new ≡ length shares.old }
    ensures slots { (s j : ℕ) → slot (get_or shares.new s []) j ≡ slot (get_or shares.old s []) j }
    ensures longer { (s : ℕ) → length (get_or shares.old s []) ≤ length (get_or shares.new s []) }
    ensures ok { OnOk result ((s : ℕ) → s < length shares.new → places ≤ length (get_or shares.new s [])) }
{
    for share in 0..shares.len() {
        shares[share].reserve(places)?;
    }
    Ok(())
}
