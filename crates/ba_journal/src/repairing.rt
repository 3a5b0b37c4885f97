//! Repairs the end of a journal's file, so that a stop at any moment leaves a file that stands for the same records.
ghost use Rattle.std.specs.Prelude.{◌≡◌, ◌+◌, ◌<◌, ◌≤◌, ◌^◌, List, length, IsTrue, OnOk, is_err};
ghost use Rattle.ba_journal.specs.Journals.{IsSettled};
ghost use Rattle.ba_journal.specs.Frames.{StandsFor};
ghost use Rattle.ba_journal.specs.Loads.{repairing};
ghost use Rattle.ba_journal.specs.Readings.{Finds};
ghost use Rattle.ba_ports.specs.Causes.{HasCause};
ghost use Rattle.ba_ports.specs.Disk.{InTurn, LeavesOnly, Only};
ghost use Rattle.ba_ports.specs.declared.requests.Call.{Call};
ghost use Rattle.ba_record.specs.declared.records.Record.{Record};

use crate::readings::Tail;
use crate::syncing::{cut_through, write_through};
use ba_ports::{Disk, Failed};

/// Leaves the last gate, at this place in bytes, as 0 and the file's last byte. What stands behind it is gone before the
/// gate is written, since behind a gate that is torn open it would count. Where nothing is to be done, nothing is called.
pub fn repair<D: Disk>(disk: &mut D, gate: u64, tail: Tail) -> Result<(), Failed>
    requires place { IsTrue (D.follows disk.old) → gate + 1 ≤ length (D.seen disk.old) }
    requires small { gate + 1 < 2 ^ 64 }
    ensures settled { OnOk result (IsTrue (D.follows disk.old) → (records : List Record) →
        Finds (D.seen disk.old) records gate tail → Only (D.seen disk.old) (D.may_leave disk.old)
        → IsSettled D.seen D.may_leave disk.new gate records) }
    ensures any_moment { IsTrue (D.follows disk.old) → (records : List Record) →
        Finds (D.seen disk.old) records gate tail → Only (D.seen disk.old) (D.may_leave disk.old)
        → LeavesOnly D.later D.left_between disk.old disk.new (λ left. StandsFor left records) }
    ensures calls { (calls : List Call) × D.driven disk.old calls disk.new × InTurn (repairing gate tail) (is_err result) calls }
    ensures follows { D.follows disk.new ≡ D.follows disk.old }
    ensures cause { HasCause (D.faults disk.old) (D.faults disk.new) result }
{
    match tail {
        Tail::AtRest => Ok(()),
        Tail::Closed => cut_through(disk, gate + 1),
        Tail::Open => {
            cut_through(disk, gate + 1)?;
            write_through(disk, gate, &[0])
        }
    }
}
