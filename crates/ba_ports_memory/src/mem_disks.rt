//! A disk in memory: a test sees what is on it, and chooses where it fails and where its machine stops.
ghost use Rattle.std.specs.Prelude.{◌≡◌, ◌≤◌, ◌<◌, ◌^◌, [], length, true, false, is_some, is_err, refl, if◌then◌else◌, OnOk, OnErr};
ghost use Rattle.ba_ports.specs.Counts.{risen};
ghost use Rattle.ba_ports.specs.Disk.{Reads, fail, stop, nothing};
ghost use Rattle.ba_ports_memory.specs.DiskValue.{bytes_of, goes_wrong, after, starve, Makes, MayBeLeft, IsLater, MayHaveBeenLeft, told_calls, Drives, rearm, restarted, holding};
ghost use Rattle.ba_ports_memory.specs.inside.DiskLaws.{shown_may_stay, later_none, later_on, left_now, left_only_now, left_widened, drives_on, lists, keeps_rearmed};
ghost use Rattle.ba_ports.specs.declared.requests.Request.TheVariants as request;

use crate::changes::{Change, copied};
use crate::media::{Course, Medium, Trouble};
use ba_core::{List, Memory, Octets};
use ba_ports::{Disk, Failed, Faulty, Image, Request};
use std::alloc::Global;
use std::marker::Model;

/// A disk in memory, which follows the disk model.
#[derive(Debug, Drop)]
pub struct MemDisk {
    alloc: Global,
    medium: Medium,
    faults: u64,
    starved: bool,
}

impl Model for MemDisk {
    ghost use Rattle.ba_ports_memory.specs.DiskValue.{DiskValue};

    ghost Value = { DiskValue };

    ghost view = { λ disk. record { medium = disk.medium; faults = disk.faults; starved = disk.starved } };
}

impl MemDisk {
    /// An empty disk, with nothing armed.
    pub fn new(alloc: Global) -> MemDisk
        ensures { result ≡ holding [] }
    {
        MemDisk::of(alloc, List::new(alloc))
    }

    /// A disk that holds these bytes as synced, with nothing armed.
    pub fn of(alloc: Global, bytes: Octets) -> MemDisk
        ensures { result ≡ holding bytes }
    {
        MemDisk {
            alloc,
            medium: Medium::of(alloc, bytes),
            faults: 0,
            starved: false,
        }
    }

    /// What a read gives.
    pub fn bytes(&self) -> &[u8]
        ensures { result.now ≡ bytes_of self.now.medium }
    {
        self.medium.bytes()
    }

    /// Starts the machine again. The contents are then what the stop left, or all that was issued where
    /// no stop has come since the last restart, with nothing pending. What is armed stays armed.
    pub fn restart(&mut self)
        ensures { self.new ≡ restarted self.old }
    {
        self.medium.restart();
    }

    fn look(&mut self) -> Result<(), Failed>
        ensures ok { OnOk result ((is_some self.old.medium.stopped ≡ false) × (self.new ≡ self.old)) }
        ensures err { OnErr result ((is_some self.old.medium.stopped ≡ true)
            × (self.new ≡ record self.old { faults = risen self.old.faults })) }
        ensures later { self.old.faults ≤ self.new.faults }
    {
        if self.medium.is_stopped() {
            return Err(self.fail());
        }
        Ok(())
    }

    fn write(&mut self, place: u64, piece: &[u8]) -> Result<(), Failed>
        ensures makes { Makes (request.WriteAt place piece.now) result self.old self.new }
        ensures later { self.old.faults ≤ self.new.faults }
        ensures end { length (bytes_of self.new.medium) < 2 ^ 64 }
    {
        let course = self.medium.course();
        let made = self.change_to(place, piece);
        let answer = self.answer(course, made);
        // A file in memory ends below the greatest u64.
        let _end = self.bytes().len();
        answer
    }

    fn change_to(&mut self, place: u64, piece: &[u8]) -> Result<(), Memory>
        ensures ok { OnOk result (self.new ≡ record self.old { medium = after (request.WriteAt place piece.now) self.old.medium }) }
        ensures err { OnErr result (self.new ≡ self.old) }
    {
        let asked = copied(self.alloc, piece)?;
        let bytes = copied(self.alloc, piece)?;
        let request = Request::WriteAt {
            place,
            bytes: asked,
        };
        self.medium.change(request, Change::Write { place, bytes })
    }

    fn cut_to(&mut self, len: u64) -> Result<(), Failed>
        ensures makes { Makes (request.Cut len) result self.old self.new }
        ensures later { self.old.faults ≤ self.new.faults }
    {
        let course = self.medium.course();
        let made = self
            .medium
            .change(Request::Cut { len }, Change::Cut { len });
        self.answer(course, made)
    }

    fn settle(&mut self) -> Result<(), Failed>
        ensures makes { Makes request.Sync result self.old self.new }
        ensures later { self.old.faults ≤ self.new.faults }
    {
        let course = self.medium.course();
        let made = self.medium.sync();
        self.answer(course, made)
    }

    /// Counts the fault, where the call failed or found no memory.
    fn answer(&mut self, course: Course, made: Result<(), Memory>) -> Result<(), Failed>
        ensures made { OnOk made ((is_err result ≡ goes_wrong course) × (self.new ≡ record self.old {
          faults = if goes_wrong course then risen self.old.faults else self.old.faults;
        })) }
        ensures starved { OnErr made ((is_err result ≡ true) × (self.new ≡ starve self.old)) }
        ensures later { self.old.faults ≤ self.new.faults }
    {
        if made.is_err() {
            self.starved = true;
            return Err(self.fail());
        }
        match course {
            Course::GoesOn => Ok(()),
            Course::Refused | Course::Met(_) => Err(self.fail()),
        }
    }

    fn fail(&mut self) -> Failed
        ensures count { self.new ≡ record self.old { faults = risen self.old.faults } }
        ensures later { self.old.faults ≤ self.new.faults }
    {
        self.faults = self.faults.saturating_add(1);
        Failed
    }
}

impl Disk for MemDisk {
    ghost follows = { λ _. true };

    ghost seen = { λ disk. bytes_of disk.medium };

    ghost may_leave = { λ disk. MayBeLeft disk.medium };

    ghost later = { λ a b. IsLater a.medium b.medium };

    ghost left_between = { λ a b. MayHaveBeenLeft a.medium b.medium };

    ghost calls = { told_calls };

    ghost driven = { Drives };

    ghost faults = { λ disk. disk.faults };

    ghost seen_may_stay = { λ disk follows. shown_may_stay disk.medium };

    ghost no_call = { λ disk. later_none disk.medium };

    ghost call_after_call = { λ a b c first second. later_on a.medium b.medium c.medium first second };

    ghost counts_now = { λ a b c later left. left_now a.medium b.medium c later left };

    ghost only_now = { λ disk c left. left_only_now disk.medium c left };

    ghost widens = { λ a b c d left first second third some. left_widened a.medium b.medium c.medium d.medium left first second third some };

    ghost driven_by_none = { λ disk calls. refl };

    ghost driven_on = { λ a b c first second before behind. drives_on first second a b c before behind };

    ghost listed = { λ a b made driven. lists made a b driven };

    fn len(&mut self) -> Result<u64, Failed> {
        self.look()?;
        Ok(self.bytes().len() as u64)
    }

    fn read_at(&mut self, place: u64, room: &mut [u8]) -> Result<usize, Failed> {
        self.look()?;
        Ok(move_into(self.bytes(), place, room))
    }

    fn write_at(&mut self, place: u64, piece: &[u8]) -> Result<(), Failed> {
        self.write(place, piece)
    }

    fn cut(&mut self, len: u64) -> Result<(), Failed> {
        self.cut_to(len)
    }

    fn sync(&mut self) -> Result<(), Failed> {
        self.settle()
    }

    fn faults(&self) -> u64 {
        self.faults
    }
}

impl Faulty for MemDisk {
    ghost rearmed = { λ a armament b. b ≡ rearm armament a };

    ghost is_stopped = { λ disk. is_some disk.medium.stopped };

    ghost is_starved = { λ disk. disk.starved };

    ghost keeps_content = { λ a b armament same. keeps_rearmed armament a b same };

    fn fail_next(&mut self, k: u32) {
        self.medium.arm(k, Trouble::Fails);
    }

    fn stop_next(&mut self, k: u32, image: Image) {
        self.medium.arm(k, Trouble::Stops(image));
    }

    fn disarm(&mut self) {
        self.medium.disarm();
    }

    fn stopped(&self) -> bool {
        self.medium.is_stopped()
    }

    fn starved(&self) -> bool {
        self.starved
    }
}

/// Moves bytes of a file, from a place on, into the room, and says how many.
fn move_into(file: &[u8], place: u64, room: &mut [u8]) -> usize
    ensures bound { result ≤ length room.new }
    ensures bytes { Reads file.now place result room.old room.new }
{
    if place >= file.len() as u64 {
        return 0;
    }
    let rest = &file[place as usize..];
    let count = rest.len().min(room.len());
    room[..count].copy_from_slice(&rest[..count]);
    count
}
