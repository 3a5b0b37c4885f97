//! Changes of a file that outlive every crash once they are Ok.
ghost use Rattle.std.specs.Prelude.{◌≡◌, ◌≤◌, [], ◌∷◌, List, length, take, IsTrue, OnOk, is_err};
ghost use Rattle.ba_journal.specs.inside.Syncing.{MayHaveChanged};
ghost use Rattle.ba_ports.specs.Causes.{HasCause};
ghost use Rattle.ba_ports.specs.Disk.{CutShort, InTurn, LeavesOnly, Only, Torn, written_at};
ghost use Rattle.ba_ports.specs.declared.requests.Call.{Call};
ghost use Rattle.ba_ports.specs.declared.requests.Request.TheVariants as request;

use ba_ports::{Disk, Failed};

/// Writes a piece at a place, which is at most the length, in bytes, and waits until it is on the disk.
pub fn write_through<D: Disk>(disk: &mut D, place: u64, piece: &[u8]) -> Result<(), Failed>
    requires { IsTrue (D.follows disk.old) → place ≤ length (D.seen disk.old) }
    ensures written { OnOk result (IsTrue (D.follows disk.old) → D.seen disk.new ≡ written_at place piece.now (D.seen disk.old)) }
    ensures durable { OnOk result (IsTrue (D.follows disk.old) → Only (D.seen disk.new) (D.may_leave disk.new)) }
    ensures any_moment { IsTrue (D.follows disk.old) →
        LeavesOnly D.later D.left_between disk.old disk.new (MayHaveChanged (Torn place (length piece.now)) (D.may_leave disk.old)) }
    ensures calls { (calls : List Call) × D.driven disk.old calls disk.new
        × InTurn (request.WriteAt place piece.now ∷ request.Sync ∷ []) (is_err result) calls }
    ensures follows { D.follows disk.new ≡ D.follows disk.old }
    ensures cause { HasCause (D.faults disk.old) (D.faults disk.new) result }
{
    disk.write_at(place, piece)?;
    disk.sync()?;
    Ok(())
}

/// Cuts the file to a length in bytes, which is at most its own, and waits until the cut is on the disk.
pub fn cut_through<D: Disk>(disk: &mut D, len: u64) -> Result<(), Failed>
    requires { IsTrue (D.follows disk.old) → len ≤ length (D.seen disk.old) }
    ensures cut { OnOk result (IsTrue (D.follows disk.old) → D.seen disk.new ≡ take len (D.seen disk.old)) }
    ensures durable { OnOk result (IsTrue (D.follows disk.old) → Only (D.seen disk.new) (D.may_leave disk.new)) }
    ensures any_moment { IsTrue (D.follows disk.old) →
        LeavesOnly D.later D.left_between disk.old disk.new (MayHaveChanged (CutShort len) (D.may_leave disk.old)) }
    ensures calls { (calls : List Call) × D.driven disk.old calls disk.new
        × InTurn (request.Cut len ∷ request.Sync ∷ []) (is_err result) calls }
    ensures follows { D.follows disk.new ≡ D.follows disk.old }
    ensures cause { HasCause (D.faults disk.old) (D.faults disk.new) result }
{
    disk.cut(len)?;
    disk.sync()?;
    Ok(())
}
