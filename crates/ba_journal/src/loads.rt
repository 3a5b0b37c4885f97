//! What a load makes of a journal's file: what the disk holds is made durable and read, and then a journal is made or its end
//! repaired.
ghost use Rattle.std.specs.Prelude.{◌≡◌, ◌≢◌, ◌+◌, ◌<◌, ◌≤◌, ◌^◌, ℕ, List as Items, [], None, IsTrue, IfOk, IfErr, Err, is_err};
ghost use Rattle.ba_journal.specs.Journals.{IsSettled};
ghost use Rattle.ba_journal.specs.Frames.{IsNoJournal, StandsFor};
ghost use Rattle.ba_journal.specs.Loads.{IsOpenedAs, Loaded, MayStandSince, StandAlike, settling};
ghost use Rattle.ba_journal.specs.Readings.{AreBefore, IsAfterRecords, IsWithin, ReadsAs};
ghost use Rattle.ba_journal.specs.declared.faults.JournalFault.TheVariants as fault;
ghost use Rattle.ba_ports.specs.Causes.{HasCause, Rose};
ghost use Rattle.ba_ports.specs.Disk.{InTurn, LeavesOnly, Only};
ghost use Rattle.ba_ports.specs.declared.requests.Call.{Call};

use crate::faults::JournalFault;
use crate::making::make_file;
use crate::readings::{Reading, read_file};
use crate::repairing::repair;
use ba_core::List;
use ba_ports::{Disk, Failed};
use ba_record::Record;
use std::alloc::Global;

/// The place of a new journal's first gate, in bytes.
pub const FIRST_GATE: u64 = 16;

/// Makes what the disk holds durable, reads it, and makes a journal or repairs its end: the place of the last gate,
/// which is then 0 and the last byte, and the records.
pub fn open_file<D: Disk>(alloc: Global, disk: &mut D) -> Result<(u64, List<Record>), JournalFault>
    ensures records { IsTrue (D.follows disk.old) → IfOk result (λ opened. StandsFor (D.seen disk.old) opened.1) }
    ensures settled { IsTrue (D.follows disk.old) → IfOk result (λ opened. IsSettled D.seen D.may_leave disk.new opened.0 opened.1) }
    ensures refused { IsTrue (D.follows disk.old) → (place : ℕ) → result ≡ Err (fault.NotAJournal place) → IsNoJournal (D.seen disk.old) place }
    ensures any_moment { IsTrue (D.follows disk.old) →
        LeavesOnly D.later D.left_between disk.old disk.new (MayStandSince (D.may_leave disk.old)) }
    ensures calls { (calls : Items Call) × D.driven disk.old calls disk.new
        × Loaded (λ found. IsTrue (D.follows disk.old) → ReadsAs (D.seen disk.old) found) (λ opened. IsOpenedAs opened.0 opened.1) result calls }
    ensures follows { D.follows disk.new ≡ D.follows disk.old }
    ensures not_full { result ≢ Err fault.Full }
    ensures not_closed { (count : ℕ) → result ≢ Err (fault.Closed count) }
    ensures cause { (result ≡ Err fault.Disk) → Rose (D.faults disk.old) (D.faults disk.new) }
    ensures faults { D.faults disk.old ≤ D.faults disk.new }
    ensures end { IfOk result (λ opened. AreBefore opened.1 opened.0) }
    ensures small { IfOk result (λ opened. opened.0 + 1 < 2 ^ 64) }
{
    if disk.sync().is_err() {
        return Err(JournalFault::Disk);
    }
    let found = read_file(alloc, disk)?;
    match settle(alloc, disk, found) {
        Ok(opened) => Ok(opened),
        Err(_) => Err(JournalFault::Disk),
    }
}

// Makes a journal in a fresh file, or repairs the end of one that was found.
fn settle<D: Disk>(
    alloc: Global,
    disk: &mut D,
    found: Reading,
) -> Result<(u64, List<Record>), Failed>
    requires found { IsTrue (D.follows disk.old) → ReadsAs (D.seen disk.old) found }
    requires within { IsWithin found }
    requires end { IsAfterRecords found }
    ensures records { IsTrue (D.follows disk.old) → IfOk result (λ opened. StandsFor (D.seen disk.old) opened.1) }
    ensures settled { IsTrue (D.follows disk.old) → Only (D.seen disk.old) (D.may_leave disk.old)
        → IfOk result (λ opened. IsSettled D.seen D.may_leave disk.new opened.0 opened.1) }
    ensures any_moment { IsTrue (D.follows disk.old) → Only (D.seen disk.old) (D.may_leave disk.old)
        → LeavesOnly D.later D.left_between disk.old disk.new (StandAlike (D.seen disk.old)) }
    ensures opened { IfOk result (λ opened. IsOpenedAs opened.0 opened.1 found) }
    ensures end { IfOk result (λ opened. AreBefore opened.1 opened.0) }
    ensures small { IfOk result (λ opened. opened.0 + 1 < 2 ^ 64) }
    ensures calls { (calls : Items Call) × D.driven disk.old calls disk.new × InTurn (settling found) (is_err result) calls }
    ensures follows { D.follows disk.new ≡ D.follows disk.old }
    ensures cause { HasCause (D.faults disk.old) (D.faults disk.new) result }
{
    match found {
        Reading::Fresh => {
            make_file(disk)?;
            Ok((FIRST_GATE, List::new(alloc)))
        }
        Reading::Found {
            records,
            gate,
            tail,
        } => {
            repair(disk, gate, tail)?;
            Ok((gate, records))
        }
    }
}
