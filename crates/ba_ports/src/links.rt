//! One connection to a peer.
ghost use Rattle.std.specs.Prelude.{◌≡◌, ℕ, true, List, Option};
ghost use Rattle.std.specs.Io.{ReadsAtMost, WritesAtMost};
ghost use Rattle.std.specs.Io.KnownBytes.{ReadConsumes, WriteAppends, Keeps};
ghost use Rattle.ba_ports.specs.Causes.{CountsFailedWrites, CountsFailures, Rose};
ghost use Rattle.ba_ports.specs.Streams.{takes_nothing};

use crate::failures::Failed;

/// A connection: what the peer sent is read, and what is written goes to the peer.
pub trait Link {
    // The bytes that reads will give from here on, where the link says them.
    ghost left: { Self → Option (List ℕ) };
    // The bytes that were written, where the link says them.
    ghost written: { Self → Option (List ℕ) };
    // How often the link has failed. A call that reaches a time limit is a fault, and so is a write that takes
    // nothing of a piece that isn't empty.
    ghost faults: { Self → ℕ };

    /// Moves a prefix of the bytes that are left into the room, and returns how many. 0 for a room
    /// that isn't empty is the end of input. After `Failed` the bytes that are left are as before.
    fn read(&mut self, room: &mut [u8]) -> Result<usize, Failed>
        ensures bound { ReadsAtMost result room.new }
        ensures bytes { ReadConsumes (left self.old) (left self.new) result room.new }
        ensures others { Keeps (written self.old) (written self.new) }
        ensures cause { CountsFailures (faults self.old) (faults self.new) result };

    /// Appends a prefix of the piece, and returns how many bytes. After `Failed` nothing was appended.
    fn write(&mut self, piece: &[u8]) -> Result<usize, Failed>
        ensures bound { WritesAtMost result piece.now }
        ensures bytes { WriteAppends (written self.old) (written self.new) result piece.now }
        ensures others { Keeps (left self.old) (left self.new) }
        ensures nothing { takes_nothing result piece.now ≡ true → Rose (faults self.old) (faults self.new) }
        ensures cause { CountsFailedWrites (faults self.old) (faults self.new) (takes_nothing result piece.now) result };

    /// How often the link has failed; the greatest u64 stands for that many or more.
    fn faults(&self) -> u64
        ensures { result ≡ faults self.now };
}
