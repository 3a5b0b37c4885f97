//! What is read from.
ghost use Rattle.std.specs.Prelude.{◌≡◌, ℕ, List, Option};
ghost use Rattle.std.specs.Io.{ReadsAtMost};
ghost use Rattle.std.specs.Io.KnownBytes.{ReadConsumes};
ghost use Rattle.ba_ports.specs.Causes.{CountsFailures};

use crate::failures::Failed;

/// A stream of bytes that are read from its front.
pub trait Source {
    // The bytes that reads will give from here on, where the source tells them.
    ghost left: { Self → Option (List ℕ) };
    // How often the source has failed.
    ghost faults: { Self → ℕ };

    /// Moves a front of the bytes that are left into the room, and says how many. 0 for a room
    /// that isn't empty is the end of input. After `Failed` the bytes that are left are as before.
    fn read(&mut self, room: &mut [u8]) -> Result<usize, Failed>
        ensures bound { ReadsAtMost result room.new }
        ensures bytes { ReadConsumes (left self.old) (left self.new) result room.new }
        ensures cause { CountsFailures (faults self.old) (faults self.new) result };

    /// How often the source has failed; the greatest u64 stands for that many or more.
    fn faults(&self) -> u64
        ensures { result ≡ faults self.now };
}
