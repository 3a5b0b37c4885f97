//! Reading a connection a block at a time.
ghost use Rattle.std.specs.Prelude.{◌≡◌, ◌<◌, ◌≤◌, ◌⊎◌, ℕ, List, ◌++◌, length, IfOk, IfErr, OnErr, Err};
ghost use Rattle.std.specs.Io.KnownBytes.{Consumes, IsAtEnd, Keeps};
ghost use Rattle.ba_ports.specs.Causes.{Rose};
ghost use Rattle.ba_ports.specs.Inputs.{TakesAtMost};

use crate::faults::HttpFault;
use ba_core::{List, Memory, Octets};
use ba_ports::Link;
use std::alloc::Global;

/// A read gives this many bytes at most.
pub const BLOCK: usize = 4_096;

/// Appends what one read gives. Nothing is the end of input.
pub fn read_block<K: Link>(
    link: &mut K,
    block: &mut [u8],
    bytes: &mut Octets,
) -> Result<usize, HttpFault>
    requires { 0 < length block.old }
    ensures taken { IfOk result (λ n. (more : List ℕ) × (length more ≡ n) × (n ≤ length block.old)
        × (bytes.new ≡ bytes.old ++ more) × Consumes (K.left link.old) (K.left link.new) more) }
    ensures end { IfOk result (λ n. n ≡ 0 → IsAtEnd (K.left link.new)) }
    ensures few { OnErr result (TakesAtMost (K.left link.old) (K.left link.new) (length block.old)) }
    ensures faults { IfErr result (λ fault. (fault ≡ HttpFault.Memory) ⊎ (fault ≡ HttpFault.Read)) }
    ensures none { (result ≡ Err HttpFault.Read) → Keeps (K.left link.old) (K.left link.new) }

    ensures written { Keeps (K.written link.old) (K.written link.new) }
    ensures cause { (result ≡ Err HttpFault.Read) → Rose (K.faults link.old) (K.faults link.new) }
    ensures later { K.faults link.old ≤ K.faults link.new }
    ensures stayed { (result ≡ Err HttpFault.Read → ⊥) → K.faults link.new ≡ K.faults link.old }
{
    let Ok(count) = link.read(block) else {
        return Err(HttpFault::Read);
    };
    match bytes.append(&block[..count]) {
        Ok(()) => Ok(count),
        Err(_) => Err(HttpFault::Memory),
    }
}

/// The same bytes.
pub fn copied(alloc: Global, bytes: &[u8]) -> Result<Octets, Memory>
    ensures { IfOk result (λ copy. copy ≡ bytes.now) }
{
    match Vec::from_slice(alloc, bytes) {
        Ok(bytes) => Ok(List::of(bytes)),
        Err(_) => Err(Memory),
    }
}
