//! What a text is written on: bytes, or no more than their number.

ghost use Rattle.std.specs.Prelude.{◌≡◌, ℕ, ◌+◌, ◌-◌, ◌^◌, List, ◌++◌, length, min, OnOk};
ghost use Rattle.ba_xml_writer.specs.declared.pages.Tally.{Tally};

use ba_core::{Memory, Octets};
use std::convert::Infallible;

/// Something that bytes are put on, one piece after another.
pub trait Page {
    /// The page once these bytes are put on it.
    ghost after: { Self → List ℕ → Self };

    /// Why a piece can't be put.
    type Refusal: Drop;

    fn put(&mut self, piece: &[u8]) -> Result<(), Self::Refusal>
        ensures { OnOk result ((rest : List ℕ) → after self.new rest ≡ after self.old (piece.now ++ rest)) };
}

impl Page for Octets {
    type Refusal = Memory;

    ghost after = { λ page bytes. page ++ bytes };

    fn put(&mut self, piece: &[u8]) -> Result<(), Memory> {
        self.append(piece)
    }
}

/// The number of bytes that were put, as far as a `usize` counts.
#[derive(Debug, Drop)]
pub struct Tally {
    pub bytes: usize,
}

impl Tally {
    pub fn count(&self) -> usize
        ensures { result ≡ self.now.bytes }
    {
        self.bytes
    }
}

impl Page for Tally {
    type Refusal = Infallible;

    ghost after = { λ page bytes. record { bytes = min (page.bytes + length bytes) (2 ^ 64 - 1) } };

    fn put(&mut self, piece: &[u8]) -> Result<(), Infallible> {
        self.bytes = self.bytes.saturating_add(piece.len());
        Ok(())
    }
}
