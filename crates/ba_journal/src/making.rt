//! Makes a journal in a file, so that a stop at any moment leaves a file that stands for no records.
ghost use Rattle.std.specs.Prelude.{◌≡◌, true, [], List, IsTrue, OnOk, is_err};
ghost use Rattle.ba_journal.specs.Journals.{IsSettled};
ghost use Rattle.ba_journal.specs.Frames.{is_fresh, StandsFor};
ghost use Rattle.ba_journal.specs.Loads.{making};
ghost use Rattle.ba_ports.specs.Causes.{HasCause};
ghost use Rattle.ba_ports.specs.Disk.{InTurn, LeavesOnly, Only};
ghost use Rattle.ba_ports.specs.declared.requests.Call.{Call};

use crate::syncing::{cut_through, write_through};
use ba_ports::{Disk, Failed};

// What stands behind the first byte: the rest of the header, and the last gate.
const BEHIND: [u8; 16] = *b"BAJOURNAL\x01\0\0\0\0\0\0";

/// Makes a journal without records in the file, whatever the file holds. The first byte is set last.
pub fn make_file<D: Disk>(disk: &mut D) -> Result<(), Failed>
    ensures settled { OnOk result (IsTrue (D.follows disk.old) → IsSettled D.seen D.may_leave disk.new 16 []) }
    ensures any_moment { IsTrue (D.follows disk.old) → is_fresh (D.seen disk.old) ≡ true → Only (D.seen disk.old) (D.may_leave disk.old)
        → LeavesOnly D.later D.left_between disk.old disk.new (λ left. StandsFor left []) }
    ensures calls { (calls : List Call) × D.driven disk.old calls disk.new × InTurn making (is_err result) calls }
    ensures follows { D.follows disk.new ≡ D.follows disk.old }
    ensures cause { HasCause (D.faults disk.old) (D.faults disk.new) result }
{
    cut_through(disk, 0)?;
    write_through(disk, 0, &[0])?;
    write_through(disk, 1, &BEHIND)?;
    write_through(disk, 0, &[1])?;
    Ok(())
}
