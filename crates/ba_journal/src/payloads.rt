//! What is put behind the last gate of a journal's file.
ghost use Rattle.std.specs.Prelude.{◌≡◌, ◌+◌, ◌≤◌, length};
ghost use Rattle.ba_journal.specs.Journals.{behind_gate};
ghost use Rattle.ba_record.specs.Coding.{coding, InRange};

use ba_record::{Record, Room, put_in};

/// Makes the room hold the record's frame behind its gate, and the next gate, which takes no memory. The size is that
/// of the record's coding, in bytes.
pub fn put_behind_gate(r: &Record, size: u32, room: &mut Room)
    requires in_range { InRange r.now }
    requires size { size ≡ length (coding r.now) }
    requires fits { size + 5 ≤ room.old.size }
    ensures { room.new ≡ record room.old { bytes = behind_gate (coding r.now) } }
{
    room.clear();
    room.put_bytes(size.to_le_bytes().as_slice());
    put_in(r, room);
    room.put_bytes(&[0]);
}
