//! The calls by which a file is read: they change nothing of it, and this is said once.
ghost use Rattle.std.specs.Prelude.{◌≡◌, ◌+◌, ◌≤◌, ◌<◌, ◌^◌, length, take, drop, IsTrue, IfOk, IfErr};
ghost use Rattle.std.specs.Io.{ReadsAtMost};
ghost use Rattle.ba_journal.specs.inside.Looks.{BreaksOff, Looked};
ghost use Rattle.ba_ports.specs.Causes.{Rose};
ghost use Rattle.ba_ports.specs.Disk.{Reads};

use ba_ports::{Disk, Failed};

/// The length of the disk's file, in bytes.
pub fn length_of<D: Disk>(disk: &mut D) -> Result<u64, Failed>
    ensures length { IsTrue (D.follows disk.old) → IfOk result (λ n. n ≡ length (D.seen disk.old)) }
    ensures looked { Looked D.follows D.seen D.may_leave D.later D.left_between D.driven D.faults disk.old disk.new }
    ensures cause { IfErr result (λ why. Rose (D.faults disk.old) (D.faults disk.new)) }
    ensures broke_off { IfErr result (λ why. BreaksOff D.driven disk.old disk.new) }
{
    disk.len()
}

/// Moves bytes of the file from a place on into the room, and says how many.
pub fn look_at<D: Disk>(disk: &mut D, place: u64, room: &mut [u8]) -> Result<usize, Failed>
    ensures bound { ReadsAtMost result room.new }
    ensures bytes { IsTrue (D.follows disk.old) → IfOk result (λ n. Reads (D.seen disk.old) place n room.old room.new) }
    ensures looked { Looked D.follows D.seen D.may_leave D.later D.left_between D.driven D.faults disk.old disk.new }
    ensures cause { IfErr result (λ why. Rose (D.faults disk.old) (D.faults disk.new)) }
    ensures broke_off { IfErr result (λ why. BreaksOff D.driven disk.old disk.new) }
{
    disk.read_at(place, room)
}

/// Fills the room with the bytes of the file from a place on, and says how many there were. The file has that
/// many, where the disk follows its model.
pub fn look_at_all<D: Disk>(disk: &mut D, place: u64, room: &mut [u8]) -> Result<usize, Failed>
    requires { place + length room.old < 2 ^ 64 }
    ensures bound { IfOk result (λ n. n ≤ length room.new) }
    ensures bytes { IsTrue (D.follows disk.old) → place + length room.old ≤ length (D.seen disk.old)
        → IfOk result (λ n. (n ≡ length room.new) × (room.new ≡ take n (drop place (D.seen disk.old)))) }
    ensures looked { Looked D.follows D.seen D.may_leave D.later D.left_between D.driven D.faults disk.old disk.new }
    ensures cause { IfErr result (λ why. Rose (D.faults disk.old) (D.faults disk.new)) }
    ensures broke_off { IfErr result (λ why. BreaksOff D.driven disk.old disk.new) }
{
    let mut done: usize = 0;
    'reads: while done < room.len() {
        let count = look_at(disk, place + done as u64, &mut room[done..])?;
        if count == 0 {
            return Ok(done);
        }
        done += count;
    }
    Ok(done)
}
