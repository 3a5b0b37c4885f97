//! A namespace by its borrowed bytes, as a holder of namespaces finds it.

ghost use Rattle.std.specs.Prelude.{◌≡◌, [], ◌∷◌, ◌++◌, length, take};
ghost use Rattle.std.proofs.Common.{rules};
ghost use Rattle.std.proofs.lemmas.Slice.Eq.{bytes_eq-Decides};
ghost use Rattle.std.specs.Cmp.Rules.{comparing};
ghost use Rattle.std.specs.Hash as fed;
ghost use Rattle.std.specs.Hash.{same_Alike};
ghost use Rattle.std.specs.Str.{bytes_eq};

use std::hash::{Hash, Hasher};
use std::marker::Model;

/// How many bytes of a namespace are hashed.
const HASHED: usize = 32;

/// The bytes of a namespace. Contracts see the bytes. Its hash takes the length and the first bytes alone, so
/// that a long namespace costs no more than a short one.
#[derive(Drop)]
pub struct Space<'a> {
    bytes: &'a [u8],
}

impl<'a> Model for Space<'a> {
    ghost use Rattle.std.specs.Prelude.{List, ℕ};

    ghost Value = { List ℕ };

    ghost view = { λ s. s.bytes.now };
}

impl<'a> Space<'a> {
    pub fn of(bytes: &'a [u8]) -> Space<'a>
        ensures { result ≡ bytes.now }
    {
        Space { bytes }
    }

    pub fn as_slice(&self) -> &[u8]
        ensures { result.now ≡ self.now }
    {
        self.bytes
    }
}

impl<'a> Default for Space<'a> {
    fn default() -> Space<'a> {
        Space::of(b"".as_slice())
    }
}

impl<'a> PartialEq for Space<'a> {
    ghost eq = { bytes_eq };

    ghost laws = { Prim.search (comparing, rules) };

    fn eq(&self, other: &Space<'a>) -> bool {
        self.bytes == other.bytes
    }
}

impl<'a> Eq for Space<'a> {
    ghost laws = { Prim.search (comparing, rules) };
}

/// The first bytes of a namespace.
fn hashed(bytes: &[u8]) -> &[u8]
    ensures { result.now ≡ take HASHED bytes.now }
{
    if bytes.len() <= HASHED {
        bytes
    } else {
        &bytes[..HASHED]
    }
}

impl<'a> Hash for Space<'a> {
    ghost use Rattle.ba_xml_writer.specs.declared.space.TheConstants.{HASHED};

    ghost hash_input = { λ s. fed.usize (length s) ++ take HASHED s ∷ [] };

    ghost respects_eq = { (same_Alike (λ s. fed.usize (length s) ++ take HASHED s ∷ []) bytes_eq-Decides).fed };

    fn hash<H: Hasher>(&self, state: &mut H) {
        self.bytes.len().hash(state);
        state.write(hashed(self.bytes));
    }
}
