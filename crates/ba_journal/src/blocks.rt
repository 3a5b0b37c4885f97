//! A file's bytes, read block by block into a room of one size, whatever the file's length.
ghost use Rattle.std.specs.Prelude.{◌≡◌, ◌+◌, ◌-◌, ◌<◌, ◌≤◌, ◌^◌, [], min, length, take, drop, slice_range, IfOk, IfErr, OnOk, IsTrue, ◌↔◌};
ghost use Rattle.ba_journal.specs.inside.Blocks.{AtHand, IsOf, frame_front};
ghost use Rattle.ba_journal.specs.inside.Looks.{BreaksOff, Looked};
ghost use Rattle.ba_ports.specs.Causes.{Rose};

use crate::looks::look_at_all;
use ba_core::Memory;
use ba_ports::{Disk, Failed};
use std::alloc::Global;
use std::marker::Model;

/// So many bytes of a payload decide whether it is a record: one more than the longest record has.
pub const DECIDING: usize = 65_543;

// A gate, the size, and the payload's bytes that decide.
const FRAME_FRONT: usize = 5 + DECIDING;

// The bytes of a block, behind the front of a frame.
const ROOM: usize = FRAME_FRONT + 65_536;

/// The bytes of a file that were read and not used yet.
#[derive(Drop)]
pub struct Blocks {
    room: Vec<u8>,
    at: usize,
    end: usize,
    place: u64,
    len: u64,
}

impl Model for Blocks {
    ghost use Rattle.std.specs.Prelude.{length, slice_range};
    ghost use Rattle.ba_journal.specs.inside.Blocks.{AtHand, LieWithin};

    ghost Value = { AtHand };

    ghost view = { λ it. record { place = it.place; bytes = slice_range it.room.items it.at it.end; len = it.len } };

    ghost invariant = { λ it. LieWithin it.at it.end (length it.room.items) it.place it.len };
}

impl Blocks {
    /// No bytes yet, of a file that is so long.
    pub fn new(alloc: Global, len: u64) -> Result<Blocks, Memory>
        ensures { IfOk result (λ blocks. blocks ≡ record { place = 0; bytes = []; len = len }) }
    {
        match vec![in alloc; 0u8; ROOM] {
            Ok(room) => Ok(Blocks {
                room,
                at: 0,
                end: 0,
                place: 0,
                len,
            }),
            Err(_) => Err(Memory),
        }
    }

    /// The bytes at hand.
    pub fn bytes(&self) -> &[u8]
        ensures bytes { result.now ≡ self.now.bytes }
        ensures within { self.now.place + length self.now.bytes ≤ self.now.len }
    {
        &self.room[self.at..self.end]
    }

    /// The place of the first of them in the file, in bytes.
    pub fn place(&self) -> u64
        ensures { result ≡ self.now.place }
    {
        self.place
    }

    /// How many bytes the file has from there on.
    pub fn left(&self) -> u64
        ensures left { result ≡ self.now.len - self.now.place }
        ensures small { self.now.len < 2 ^ 64 }
    {
        self.len.saturating_sub(self.place)
    }

    /// Lets go of the first so many of them.
    pub fn pass(&mut self, count: usize)
        requires { count ≤ length self.old.bytes }
        ensures place { self.new.place ≡ self.old.place + count }
        ensures bytes { self.new.bytes ≡ drop count self.old.bytes }
        ensures len { self.new.len ≡ self.old.len }
    {
        self.at += count;
        self.place += count as u64;
    }

    /// Reads on until the front of a frame is at hand, or all that the file still has. A file that ends sooner
    /// than its length told is taken to be as long as it was found.
    pub fn fill<D: Disk>(&mut self, disk: &mut D) -> Result<(), Failed>
        ensures place { self.new.place ≡ self.old.place }
        ensures no_longer { self.new.len ≤ self.old.len }
        ensures enough { OnOk result (min frame_front (self.new.len - self.new.place) ≤ length self.new.bytes) }
        ensures file { IsTrue (D.follows disk.old) → IsOf (D.seen disk.old) self.old → OnOk result (IsOf (D.seen disk.old) self.new) }
        ensures looked { Looked D.follows D.seen D.may_leave D.later D.left_between D.driven D.faults disk.old disk.new }
        ensures cause { IfErr result (λ why. Rose (D.faults disk.old) (D.faults disk.new)) }
        ensures broke_off { IfErr result (λ why. BreaksOff D.driven disk.old disk.new) }
    {
        if self.has_front() {
            return Ok(());
        }
        self.read_on(disk)
    }

    // Whether the front of a frame is at hand, or all that the file still has.
    fn has_front(&self) -> bool
        ensures { IsTrue result ↔ (min frame_front (self.now.len - self.now.place) ≤ length self.now.bytes) }
    {
        let count = self.end - self.at;
        count >= FRAME_FRONT || count as u64 >= self.len.saturating_sub(self.place)
    }

    // Reads until the room is full, or the file ends.
    fn read_on<D: Disk>(&mut self, disk: &mut D) -> Result<(), Failed>
        requires { length self.old.bytes ≤ frame_front }
        ensures place { self.new.place ≡ self.old.place }
        ensures no_longer { self.new.len ≤ self.old.len }
        ensures enough { OnOk result (min frame_front (self.new.len - self.new.place) ≤ length self.new.bytes) }
        ensures file { IsTrue (D.follows disk.old) → IsOf (D.seen disk.old) self.old → OnOk result (IsOf (D.seen disk.old) self.new) }
        ensures looked { Looked D.follows D.seen D.may_leave D.later D.left_between D.driven D.faults disk.old disk.new }
        ensures cause { IfErr result (λ why. Rose (D.faults disk.old) (D.faults disk.new)) }
        ensures broke_off { IfErr result (λ why. BreaksOff D.driven disk.old disk.new) }
    {
        let (at, end) = (self.at, self.end);
        let kept = end - at;
        self.at = 0;
        self.end = kept;
        let behind = self.place + kept as u64;
        let most = most_of(self.len - behind, ROOM - kept);
        let count = read_behind(disk, behind, self.room.as_mut_slice(), at, end, most)?;
        self.end += count;
        if count < most {
            self.len = behind + count as u64;
        }
        Ok(())
    }
}

// The lesser of what a file has and what a room has.
fn most_of(left: u64, room: usize) -> usize
    ensures { result ≡ min left room }
{
    left.min(room as u64) as usize
}

// Moves the bytes between these places to the front of the room, and reads so many behind them, which stand at a
// place of the file.
fn read_behind<D: Disk>(
    disk: &mut D,
    place: u64,
    room: &mut [u8],
    at: usize,
    end: usize,
    most: usize,
) -> Result<usize, Failed>
    requires ordered { at ≤ end }
    requires within { end ≤ length room.old }
    requires space { end - at + most ≤ length room.old }
    requires small { place + most < 2 ^ 64 }
    ensures kept { take (end - at) room.new ≡ slice_range room.old at end }
    ensures bound { IfOk result (λ n. n ≤ most) }
    ensures bytes { IsTrue (D.follows disk.old) → place + most ≤ length (D.seen disk.old)
        → IfOk result (λ n. (n ≡ most) × (take n (drop (end - at) room.new) ≡ take n (drop place (D.seen disk.old)))) }
    ensures looked { Looked D.follows D.seen D.may_leave D.later D.left_between D.driven D.faults disk.old disk.new }
    ensures cause { IfErr result (λ why. Rose (D.faults disk.old) (D.faults disk.new)) }
    ensures broke_off { IfErr result (λ why. BreaksOff D.driven disk.old disk.new) }
{
    compact(room, at, end);
    read_into(disk, place, room, end - at, most)
}

// Moves the bytes between these places to the front.
fn compact(room: &mut [u8], at: usize, end: usize)
    requires ordered { at ≤ end }
    requires within { end ≤ length room.old }
    ensures { take (end - at) room.new ≡ slice_range room.old at end }
{
    room.copy_within(at..end, 0);
}

// Reads so many bytes behind the first bytes of the room.
fn read_into<D: Disk>(
    disk: &mut D,
    place: u64,
    room: &mut [u8],
    kept: usize,
    most: usize,
) -> Result<usize, Failed>
    requires space { kept + most ≤ length room.old }
    requires small { place + most < 2 ^ 64 }
    ensures kept { take kept room.new ≡ take kept room.old }
    ensures bound { IfOk result (λ n. n ≤ most) }
    ensures bytes { IsTrue (D.follows disk.old) → place + most ≤ length (D.seen disk.old)
        → IfOk result (λ n. (n ≡ most) × (take n (drop kept room.new) ≡ take n (drop place (D.seen disk.old)))) }
    ensures looked { Looked D.follows D.seen D.may_leave D.later D.left_between D.driven D.faults disk.old disk.new }
    ensures cause { IfErr result (λ why. Rose (D.faults disk.old) (D.faults disk.new)) }
    ensures broke_off { IfErr result (λ why. BreaksOff D.driven disk.old disk.new) }
{
    look_at_all(disk, place, &mut room[kept..kept + most])
}
