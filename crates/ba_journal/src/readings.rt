//! What a load finds in a journal's file, and its reading from the disk, block by block, which changes nothing.
ghost use Rattle.std.specs.Prelude.{◌≡◌, ◌≢◌, ◌≤◌, ◌<◌, ◌+◌, ◌^◌, ◌++◌, ◌∷◌, [], ℕ, List as Items, Ok, Err, None, min, length, IsTrue, IfOk, IfErr, IfSome, IfNone, OnOk};
ghost use Rattle.ba_journal.specs.inside.Blocks.{frame_front, Begins, BeginsFrames, Counts, IsOfReading, RefusesFile, RefusesShown};
ghost use Rattle.ba_journal.specs.Frames.{frame_of, IsNoJournal};
ghost use Rattle.ba_journal.specs.inside.Looks.{BreaksOff, Looked};
ghost use Rattle.ba_journal.specs.Readings.{IsAfterRecords, IsTail, IsWithin, ReadsAs};
ghost use Rattle.ba_journal.specs.declared.faults.JournalFault.TheVariants as fault;
ghost use Rattle.ba_ports.specs.Causes.{Rose};
ghost use Rattle.ba_ports.specs.Disk.{LeavesOnly, NoMore, counted};
ghost use Rattle.ba_ports.specs.declared.requests.Call.{Call};
ghost use Rattle.ba_record.specs.Reading.{reading, IsBytes};
ghost use Rattle.ba_record.specs.declared.records.Record.{Record};

use crate::blocks::{Blocks, DECIDING};
use crate::faults::JournalFault;
use crate::frames::{HEADER, foreign_at, is_fresh};
use crate::looks::length_of;
use crate::scanning::take_in;
use crate::scans::ScanFault;
use ba_core::List;
use ba_ports::Disk;
use ba_record::Record;
use std::alloc::Global;

/// What a load found.
#[derive(Debug, Drop)]
pub enum Reading {
    /// Nothing yet: no journal was made here, or its making broke off.
    Fresh,
    /// The records of the frames that count; the place of the gate where reading stopped, in bytes; and what
    /// stands from that gate on.
    Found {
        records: List<Record>,
        gate: u64,
        tail: Tail,
    },
}

/// What stands from the last gate on.
#[derive(Clone, Copy, Debug, PartialEq, Eq)]
pub enum Tail {
    /// A gate that is 0, the file's last byte.
    AtRest,
    /// A gate that is another byte than 0.
    Open,
    /// A gate that is 0, with bytes behind it.
    Closed,
}

/// What the disk's file holds: nothing yet, or the records that it stands for, with the place of the gate where
/// reading stopped and what stands from there on. The disk is asked for its length and for bytes alone. NotAJournal
/// tells the place in bytes of the header's first byte that is another, or where the payload of a frame that counts
/// stops being a record. Disk comes where a call of the disk failed, and Memory may come at any time.
pub fn read_file<D: Disk>(alloc: Global, disk: &mut D) -> Result<Reading, JournalFault>
    ensures ok { IsTrue (D.follows disk.old) → IfOk result (ReadsAs (D.seen disk.old)) }
    ensures fault { (place : ℕ) → result ≡ Err (fault.NotAJournal place) → IsTrue (D.follows disk.old) → IsNoJournal (D.seen disk.old) place }
    ensures seen { IsTrue (D.follows disk.old) → D.seen disk.new ≡ D.seen disk.old }
    ensures crash { IsTrue (D.follows disk.old) → NoMore (D.may_leave disk.old) (D.may_leave disk.new) }
    ensures moments { IsTrue (D.follows disk.old) → LeavesOnly D.later D.left_between disk.old disk.new (D.may_leave disk.old) }
    ensures calls { (calls : Items Call) × D.driven disk.old calls disk.new × (counted calls ≡ []) }
    ensures follows { D.follows disk.new ≡ D.follows disk.old }
    ensures cause { (result ≡ Err fault.Disk) → Rose (D.faults disk.old) (D.faults disk.new) }
    ensures broke_off { (result ≡ Err fault.Disk) → BreaksOff D.driven disk.old disk.new }
    ensures faults { D.faults disk.old ≤ D.faults disk.new }
    ensures not_full { result ≢ Err fault.Full }
    ensures not_closed { (count : ℕ) → result ≢ Err (fault.Closed count) }
    ensures within { IfOk result IsWithin }
    ensures end { IfOk result IsAfterRecords }
{
    read_all(alloc, disk)
}

// The same, told in fewer clauses.
fn read_all<D: Disk>(alloc: Global, disk: &mut D) -> Result<Reading, JournalFault>
    ensures ok { IsTrue (D.follows disk.old) → IfOk result (ReadsAs (D.seen disk.old)) }
    ensures refused { IsTrue (D.follows disk.old) → IfErr result (RefusesFile (D.seen disk.old)) }
    ensures looked { Looked D.follows D.seen D.may_leave D.later D.left_between D.driven D.faults disk.old disk.new }
    ensures cause { (result ≡ Err fault.Disk) → Rose (D.faults disk.old) (D.faults disk.new) }
    ensures broke_off { (result ≡ Err fault.Disk) → BreaksOff D.driven disk.old disk.new }
    ensures known { IfErr result IsOfReading }
    ensures within { IfOk result IsWithin }
    ensures end { IfOk result IsAfterRecords }
{
    let Ok(len) = length_of(disk) else {
        return Err(JournalFault::Disk);
    };
    let Ok(mut blocks) = Blocks::new(alloc, len) else {
        return Err(JournalFault::Memory);
    };
    let Ok(()) = blocks.fill(disk) else {
        return Err(JournalFault::Disk);
    };
    if is_fresh(blocks.bytes()) {
        return Ok(Reading::Fresh);
    }
    if let Some(place) = foreign_at(blocks.bytes()) {
        return Err(JournalFault::NotAJournal(place as u64));
    }
    blocks.pass(HEADER.len());
    read_frames(alloc, disk, blocks)
}

// Reads frames as long as they count. The first of them begins with the bytes at hand.
fn read_frames<D: Disk>(
    alloc: Global,
    disk: &mut D,
    mut blocks: Blocks,
) -> Result<Reading, JournalFault>
    requires begun { blocks.place ≡ 16 }
    requires small { blocks.place + 1 < 2 ^ 64 }
    ensures ok { IsTrue (D.follows disk.old) → BeginsFrames (D.seen disk.old) blocks → IfOk result (ReadsAs (D.seen disk.old)) }
    ensures refused { IsTrue (D.follows disk.old) → BeginsFrames (D.seen disk.old) blocks → IfErr result (RefusesFile (D.seen disk.old)) }
    ensures looked { Looked D.follows D.seen D.may_leave D.later D.left_between D.driven D.faults disk.old disk.new }
    ensures cause { (result ≡ Err fault.Disk) → Rose (D.faults disk.old) (D.faults disk.new) }
    ensures broke_off { (result ≡ Err fault.Disk) → BreaksOff D.driven disk.old disk.new }
    ensures known { IfErr result IsOfReading }
    ensures within { IfOk result IsWithin }
    ensures end { IfOk result IsAfterRecords }
{
    let mut records: List<Record> = List::new(alloc);
    'frames: loop {
        let Ok(()) = blocks.fill(disk) else {
            return Err(JournalFault::Disk);
        };
        let left = blocks.left();
        let Some(shown) = shown_payload(blocks.bytes(), left) else {
            let tail = tail_of(blocks.bytes(), left);
            return Ok(Reading::Found {
                records,
                gate: blocks.place(),
                tail,
            });
        };
        if let Err(fault) = take_shown(alloc, blocks.place() + 5, shown, &mut records) {
            return Err(fault);
        }
        let count = 5 + shown.len();
        blocks.pass(count);
    }
}

// What the payload of the frame that begins with these bytes shows, where it counts: all of it, or as many bytes
// as decide whether it is a record. The file has so many bytes from its gate on.
fn shown_payload<'a>(bytes: &'a [u8], left: u64) -> Option<&'a [u8]>
    requires { min frame_front left ≤ length bytes.now }
    ensures some { IfSome result (λ shown. (all : Items ℕ) → Begins bytes.now left all → Counts all shown.now) }
    ensures within { IfSome result (λ shown. 5 + length shown.now ≤ length bytes.now) }
    ensures before_the_end { IfSome result (λ shown. 5 + length shown.now < left) }
    ensures are { IfSome result (λ shown. IsBytes shown.now) }
    ensures none { IfNone result ((all : Items ℕ) → Begins bytes.now left all → frame_of all ≡ None) }
{
    let Some((gate, behind)) = bytes.split_first() else {
        return None;
    };
    if *gate != 1 {
        return None;
    }
    let Some((digits, rest)) = behind.split_first_chunk::<4>() else {
        return None;
    };
    let size = u32::from_le_bytes(*digits) as usize;
    if size as u64 + 5 >= left {
        return None;
    }
    Some(&rest[..size.min(DECIDING)])
}

// Puts the record last that these bytes of a payload show. They stand at this place of the file.
fn take_shown(
    alloc: Global,
    place: u64,
    shown: &[u8],
    records: &mut List<Record>,
) -> Result<(), JournalFault>
    requires { place + length shown.now < 2 ^ 64 }
    ensures ok { OnOk result ((r : Record) × (reading shown.now ≡ Ok r) × (records.new ≡ records.old ++ r ∷ [])) }
    ensures fault { IfErr result (RefusesShown place shown.now) }
{
    match take_in(alloc, place as usize, shown, records) {
        Ok(()) => Ok(()),
        Err(ScanFault::Memory) => Err(JournalFault::Memory),
        Err(ScanFault::NotAJournal(at)) => Err(JournalFault::NotAJournal(at)),
    }
}

// What stands from a gate on that begins with these bytes. The file has so many bytes from there on.
fn tail_of(bytes: &[u8], left: u64) -> Tail
    ensures { (all : Items ℕ) → Begins bytes.now left all → 0 < length bytes.now → IsTail result all }
{
    match bytes.first() {
        Some(0) if left == 1 => Tail::AtRest,
        Some(0) => Tail::Closed,
        _ => Tail::Open,
    }
}
