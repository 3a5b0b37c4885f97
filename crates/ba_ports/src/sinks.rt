//! What is written to.
ghost use Rattle.std.specs.Prelude.{◌≡◌, ℕ, Bool, List, Option};
ghost use Rattle.std.specs.Io.{WritesAtMost};
ghost use Rattle.std.specs.Io.KnownBytes.{WriteAppends};
ghost use Rattle.ba_ports.specs.Causes.{CountsFailedWrites};
ghost use Rattle.ba_ports.specs.Streams.{takes_nothing};

use crate::failures::Failed;

/// A stream of bytes that are written at its end.
pub trait Sink {
    // The bytes that were written, where the sink tells them.
    ghost written: { Self → Option (List ℕ) };
    // How often the sink has failed.
    ghost faults: { Self → ℕ };
    // Its last write was of a piece that wasn't empty, and took nothing of it.
    ghost took_nothing: { Self → Bool };

    /// Appends a front of the piece, and says how many bytes. After `Failed` nothing was appended.
    fn write(&mut self, piece: &[u8]) -> Result<usize, Failed>
        ensures bound { WritesAtMost result piece.now }
        ensures bytes { WriteAppends (written self.old) (written self.new) result piece.now }
        ensures nothing { took_nothing self.new ≡ takes_nothing result piece.now }
        ensures cause { CountsFailedWrites (faults self.old) (faults self.new) (takes_nothing result piece.now) result };

    /// How often the sink has failed; the greatest u64 stands for that many or more.
    fn faults(&self) -> u64
        ensures { result ≡ faults self.now };
}
