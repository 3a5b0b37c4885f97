//! What bodies are given to.
ghost use Rattle.std.specs.Prelude.{◌≡◌, ◌++◌, ℕ, List, OnOk};

use ba_core::{Memory, Octets};

/// What takes on the bytes of a body, piece by piece.
pub trait Taker {
    // The taker stands for these bytes.
    ghost stands: { Self → List ℕ → Type 0 };

    /// Takes on a piece. After `Memory` nothing is said of the taker.
    fn take(&mut self, piece: &[u8]) -> Result<(), Memory>
        ensures { OnOk result ((given : List ℕ) → stands self.old given → stands self.new (given ++ piece.now)) };
}

impl Taker for Octets {
    ghost stands = { λ bytes given. bytes ≡ given };

    fn take(&mut self, piece: &[u8]) -> Result<(), Memory> {
        self.append(piece)
    }
}
