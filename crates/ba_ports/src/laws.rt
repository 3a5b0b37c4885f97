//! Laws of disks. Each function does nothing: its contract is the law.
ghost use Rattle.std.specs.Prelude.{Bool, List, ℕ, IsTrue};
ghost use Rattle.ba_ports.specs.Disk.{LeavesOnly, Passes};

use crate::disks::Disk;

/// Where a crash up to some call left only what passes a test, and a crash during the next does too,
/// so did a crash up to now.
pub fn tests_go_on<D: Disk>()
    ensures { (old mid new : D) (test : List ℕ → Bool) (during : List ℕ → Bool) → LeavesOnly D.later D.left_between old mid (λ c. IsTrue (test c))
        → Passes D.later D.left_between (λ c. IsTrue (during c)) mid new → ((c : List ℕ) → IsTrue (during c) → IsTrue (test c))
        → LeavesOnly D.later D.left_between old new (λ c. IsTrue (test c)) }
{}
