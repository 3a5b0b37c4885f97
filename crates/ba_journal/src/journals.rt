//! The journal of a node on its disk.
ghost use Rattle.std.specs.Prelude.{◌≡◌, ◌≢◌, ◌↔◌, ◌+◌, ◌<◌, ◌≤◌, ◌^◌, ◌++◌, [], ◌∷◌, ℕ, List as Items, None, Some, Err, length, max, IsTrue, IfOk, IfErr, OnOk, OnErr};
ghost use Rattle.std.specs.List.{AllByRecursion};
ghost use Rattle.ba_journal.specs.Journals.{Asked, GoesPast, IsSettled, StandsWithOrWithout, behind_gate};
ghost use Rattle.ba_journal.specs.declared.faults.JournalFault.TheVariants as fault;
ghost use Rattle.ba_journal.specs.Frames.{IsNoJournal, StandsFor};
ghost use Rattle.ba_journal.specs.Loads.{IsOpenedAs, Loaded, MayStandSince, answer_of, disk_of};
ghost use Rattle.ba_journal.specs.Readings.{ReadsAs, last_gate};
ghost use Rattle.ba_ports.specs.Causes.{Rose};
ghost use Rattle.ba_ports.specs.Disk.{LeavesOnly, fail, stop, nothing};
ghost use Rattle.ba_ports.specs.declared.requests.Call.{Call};
ghost use Rattle.ba_record.specs.Coding.{coding, InRange};

use crate::appending::put_frame;
use crate::faults::JournalFault;
use crate::loads::open_file;
use crate::payloads::put_behind_gate;
use ba_core::{List, Memory};
use ba_ports::{Disk, Faulty, Image};
use ba_record::{Record, Room, size_of};
use std::alloc::Global;
use std::marker::Model;

/// How long a journal's file may be, in bytes.
pub const GREATEST_LENGTH: u64 = 67_108_864;

/// A file of records on a disk, which grows by one record at a time.
#[derive(Drop)]
pub struct Journal<D> {
    disk: D,
    gate: u64,
    closed: Option<u64>,
    // What is put behind the gate is built in here.
    room: Room,
}

impl<D> Model for Journal<D> {
    ghost use Rattle.std.specs.Prelude.{◌-◌};
    ghost use Rattle.ba_journal.specs.Journals.{JournalValue, journal_code};

    ghost Value = { JournalValue D };

    ghost coded = { journal_code D.code };

    ghost view = { λ journal. record { disk = journal.disk; gate = journal.gate; closed = journal.closed; spare = journal.room.size - 5 } };
}

impl<D: Disk> Journal<D> {
    /// The journal on the disk, with its records. What the disk holds is made durable first; then a fresh file is made a
    /// journal without records, or an end that broke off is repaired. An error gives the disk back: Memory and
    /// NotAJournal leave the file as it was, and NotAJournal tells the place, in bytes, where that shows. A crash during
    /// the call leaves what one before it might have left, or a file that stands for the same records as one of those.
    pub fn load(alloc: Global, disk: D) -> Result<(Journal<D>, List<Record>), (D, JournalFault)>

        // What is said of content, over a disk that follows its model.
        ensures records { IsTrue (D.follows disk) → IfOk result (λ loaded. StandsFor (D.seen disk) loaded.1) }
        ensures settled { IsTrue (D.follows disk) → IfOk result (λ loaded.
            IsSettled D.seen D.may_leave loaded.0.disk loaded.0.gate loaded.1) }
        ensures refused { IsTrue (D.follows disk) → IfErr result (λ refused. (place : ℕ) →
            refused.1 ≡ fault.NotAJournal place → IsNoJournal (D.seen disk) place) }
        ensures any_moment { IsTrue (D.follows disk) →
            LeavesOnly D.later D.left_between disk (disk_of result) (MayStandSince (D.may_leave disk)) }

        // Which calls of the disk were made, and what they leave of it.
        ensures calls { (calls : Items Call) × D.driven disk calls (disk_of result)
            × Loaded (λ found. IsTrue (D.follows disk) → ReadsAs (D.seen disk) found) (λ loaded. IsOpenedAs loaded.0.gate loaded.1) (answer_of result) calls }
        ensures follows { D.follows (disk_of result) ≡ D.follows disk }
        ensures cause { IfErr result (λ refused. refused.1 ≡ fault.Disk → Rose (D.faults disk) (D.faults refused.0)) }
        ensures faults { D.faults disk ≤ D.faults (disk_of result) }

        // What is answered, whatever the disk.
        ensures in_range { IfOk result (λ loaded. AllByRecursion InRange loaded.1) }
        ensures end { IfOk result (λ loaded. loaded.0.gate ≡ last_gate loaded.1) }
        ensures small { IfOk result (λ loaded. loaded.0.gate < 2 ^ 64) }
        ensures opened { IfOk result (λ loaded. loaded.0.closed ≡ None) }
        ensures not_full { IfErr result (λ refused. refused.1 ≢ fault.Full) }
        ensures not_closed { IfErr result (λ refused. (count : ℕ) → refused.1 ≢ fault.Closed count) }
    {
        let mut held = disk;
        match open_file(alloc, &mut held) {
            Ok((gate, records)) => Ok((Journal::resting(alloc, held, gate), records)),
            Err(fault) => Err((held, fault)),
        }
    }

    /// The journal that the disk holds already. Its last gate stands at this place, in bytes, and is the file's
    /// last byte.
    pub fn resting(alloc: Global, disk: D, gate: u64) -> Journal<D>
        ensures disk { result.disk ≡ disk }
        ensures gate { result.gate ≡ gate }
        ensures closed { result.closed ≡ None }
        ensures spare { result.spare ≡ 0 }
    {
        Journal {
            disk,
            gate,
            closed: None,
            room: Room::new(alloc),
        }
    }

    /// Takes memory, so that an append takes none of a record whose coding has at most so many bytes. After
    /// `Memory` nothing has changed.
    pub fn reserve(&mut self, bytes: u64) -> Result<(), Memory>
        ensures ok { OnOk result (self.new ≡ record self.old { spare = max self.old.spare bytes }) }
        ensures err { OnErr result (self.new ≡ self.old) }
    {
        // The size stands before the payload, and the next gate behind it.
        match bytes.checked_add(5) {
            Some(size) => self.room.reserve(size),
            None => Err(Memory),
        }
    }

    /// Appends a record, which takes no memory. When this is Ok, the record outlives every crash; a crash during
    /// the call leaves the journal with it or without it. Full comes exactly where the file would grow too long, and
    /// Closed exactly after Disk. Only Ok and Disk change anything.
    pub fn append(&mut self, r: &Record) -> Result<(), JournalFault>
        requires in_range { InRange r.now }
        requires spare { length (coding r.now) ≤ self.old.spare }
        requires place { IsTrue (D.follows self.old.disk) → self.old.closed ≡ None → self.old.gate + 1 ≡ length (D.seen self.old.disk) }

        // What is said of content, over a disk that follows its model.
        ensures acknowledged { OnOk result (IsTrue (D.follows self.old.disk) → (records : Items Record) →
            IsSettled D.seen D.may_leave self.old.disk self.old.gate records
            → IsSettled D.seen D.may_leave self.new.disk self.new.gate (records ++ r.now ∷ [])) }
        ensures place { OnOk result (IsTrue (D.follows self.old.disk) → self.new.gate + 1 ≡ length (D.seen self.new.disk)) }
        ensures any_moment { IsTrue (D.follows self.old.disk) → (records : Items Record) →
            IsSettled D.seen D.may_leave self.old.disk self.old.gate records
            → LeavesOnly D.later D.left_between self.old.disk self.new.disk (StandsWithOrWithout records r.now) }

        // Which calls of the disk were made, and what they leave of it.
        ensures calls { (calls : Items Call) × D.driven self.old.disk calls self.new.disk
            × Asked self.old.gate (behind_gate (coding r.now)) result calls }
        ensures follows { D.follows self.new.disk ≡ D.follows self.old.disk }
        ensures cause { (result ≡ Err fault.Disk) → Rose (D.faults self.old.disk) (D.faults self.new.disk) }
        ensures faults { D.faults self.old.disk ≤ D.faults self.new.disk }

        // When each error comes.
        ensures full { (result ≡ Err fault.Full) ↔ ((self.old.closed ≡ None) × GoesPast self.old.gate (length (coding r.now))) }
        ensures closed { (count : ℕ) → (result ≡ Err (fault.Closed count)) ↔ (self.old.closed ≡ Some count) }
        ensures no_memory { result ≢ Err fault.Memory }
        ensures no_reading { (place : ℕ) → result ≢ Err (fault.NotAJournal place) }

        // What becomes of the journal.
        ensures grows { OnOk result (self.new.gate ≡ self.old.gate + (length (coding r.now) + 5)) }
        ensures stays_open { OnOk result (self.new.closed ≡ None) }
        ensures closes { (result ≡ Err fault.Disk) → self.new.closed ≡ Some (D.faults self.new.disk) }
        ensures stays { OnErr result (self.new.gate ≡ self.old.gate) }
        ensures spare { self.new.spare ≡ self.old.spare }
        ensures unchanged { IfErr result (λ why. why ≢ fault.Disk → self.new ≡ self.old) }
    {
        if let Some(count) = self.closed {
            return Err(JournalFault::Closed(count));
        }
        let size = size_of(r);
        if size.saturating_add(6) > GREATEST_LENGTH.saturating_sub(self.gate) {
            return Err(JournalFault::Full);
        }
        put_behind_gate(r, size as u32, &mut self.room);
        match put_frame(&mut self.disk, self.gate, self.room.as_slice()) {
            Ok(()) => {
                self.gate += size + 5;
                Ok(())
            }
            Err(_) => {
                self.closed = Some(self.disk.faults());
                Err(JournalFault::Disk)
            }
        }
    }

    /// The disk's count of failures when an append answered Disk; since then each is refused.
    pub fn closed(&self) -> Option<u64>
        ensures { result ≡ self.now.closed }
    {
        self.closed
    }

    /// How often its disk has failed.
    pub fn faults(&self) -> u64
        ensures { result ≡ D.faults self.now.disk }
    {
        self.disk.faults()
    }

    /// Gives the disk back.
    pub fn into_disk(self) -> D
        ensures { result ≡ self.disk }
    {
        let Journal { disk, .. } = self;
        disk
    }
}

impl<D: Faulty> Journal<D> {
    /// Arms a failure of the disk's k-th counted call from now, in place of what is armed.
    pub fn fail_next(&mut self, k: u32)
        ensures armed { D.rearmed self.old.disk (fail k) self.new.disk }
        ensures kept { self.new ≡ record self.old { disk = self.new.disk } }
    {
        self.disk.fail_next(k);
    }

    /// Arms a stop of the disk's machine at its k-th counted call from now, in place of what is armed.
    pub fn stop_next(&mut self, k: u32, image: Image)
        ensures armed { D.rearmed self.old.disk (stop k image) self.new.disk }
        ensures kept { self.new ≡ record self.old { disk = self.new.disk } }
    {
        self.disk.stop_next(k, image);
    }

    /// Takes back what is armed.
    pub fn disarm(&mut self)
        ensures armed { D.rearmed self.old.disk nothing self.new.disk }
        ensures kept { self.new ≡ record self.old { disk = self.new.disk } }
    {
        self.disk.disarm();
    }

    /// The machine of the disk has stopped.
    pub fn stopped(&self) -> bool
        ensures { result ≡ D.is_stopped self.now.disk }
    {
        self.disk.stopped()
    }

    /// A counted call of the disk found no memory, had no effect and was counted as a fault.
    pub fn starved(&self) -> bool
        ensures { result ≡ D.is_starved self.now.disk }
    {
        self.disk.starved()
    }
}
