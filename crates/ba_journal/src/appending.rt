//! Puts a frame at the end of a journal's file, so that a stop at any moment leaves all of it or nothing.
ghost use Rattle.std.specs.Prelude.{◌≡◌, ◌+◌, ◌<◌, ◌^◌, ◌++◌, [], ◌∷◌, List, length, IsTrue, OnOk, is_err};
ghost use Rattle.ba_journal.specs.Journals.{appending, IsSettled, StandsWithOrWithout};
ghost use Rattle.ba_journal.specs.inside.Appending.{IsFrameOf};
ghost use Rattle.ba_ports.specs.Causes.{HasCause};
ghost use Rattle.ba_ports.specs.Disk.{InTurn, LeavesOnly};
ghost use Rattle.ba_ports.specs.declared.requests.Call.{Call};
ghost use Rattle.ba_record.specs.declared.records.Record.{Record};

use ba_ports::{Disk, Failed};

/// Writes what stands behind the gate, and then the gate, which is the file's last byte.
pub fn put_frame<D: Disk>(disk: &mut D, gate: u64, behind: &[u8]) -> Result<(), Failed>
    requires place { IsTrue (D.follows disk.old) → gate + 1 ≡ length (D.seen disk.old) }
    requires small { gate + 1 < 2 ^ 64 }
    ensures acknowledged { OnOk result (IsTrue (D.follows disk.old) → (records : List Record) (last : Record) →
        IsSettled D.seen D.may_leave disk.old gate records → IsFrameOf behind.now last
        → IsSettled D.seen D.may_leave disk.new (gate + length behind.now) (records ++ last ∷ [])) }
    ensures place { OnOk result (IsTrue (D.follows disk.old) → gate + length behind.now + 1 ≡ length (D.seen disk.new)) }
    ensures any_moment { IsTrue (D.follows disk.old) → (records : List Record) (last : Record) →
        IsSettled D.seen D.may_leave disk.old gate records → IsFrameOf behind.now last
        → LeavesOnly D.later D.left_between disk.old disk.new (StandsWithOrWithout records last) }
    ensures calls { (calls : List Call) × D.driven disk.old calls disk.new × InTurn (appending gate behind.now) (is_err result) calls }
    ensures follows { D.follows disk.new ≡ D.follows disk.old }
    ensures cause { HasCause (D.faults disk.old) (D.faults disk.new) result }
{
    disk.write_at(gate + 1, behind)?;
    disk.sync()?;
    disk.write_at(gate, &[1])?;
    disk.sync()?;
    Ok(())
}
