//! Input that is read whole, up to a limit.
ghost use Rattle.std.specs.Prelude.{◌≡◌, ◌+◌, ◌<◌, ◌≤◌, ◌++◌, ℕ, List, length, IfOk, IfErr, IfSome, OnOk, OnErr, Err};
ghost use Rattle.std.specs.Io.KnownBytes.{Consumes, IsAtEnd};
ghost use Rattle.ba_ports.specs.Causes.{Rose};
ghost use Rattle.ba_ports.specs.Inputs.{TakesAtMost};

use crate::sources::Source;
use ba_core::Octets;
use std::alloc::Global;
use thiserror::Error;

/// Why input wasn't read whole.
#[derive(Clone, Copy, Debug, PartialEq, Eq, Error)]
pub enum InputFault {
    #[error("out of memory")]
    Memory,
    #[error("the input can't be read")]
    Read,
    #[error("the input is too long")]
    Limit,
}

// A read is of this many bytes at most.
const BLOCK: usize = 65_536;

/// Reads all bytes that are left, of which there may be `limit`. Where there are more, it takes one more than
/// that, or less, and answers `Limit`. `Read` is answered where a read fails before, `Memory` at any time.
pub fn read_up_to<S: Source>(
    alloc: Global,
    source: &mut S,
    limit: usize,
) -> Result<Octets, InputFault>
    ensures bytes { IfOk result (λ bytes. IfSome (S.left source.old) (λ input. bytes ≡ input)) }
    ensures small { IfOk result (λ bytes. length bytes ≤ limit) }
    ensures end { OnOk result (IsAtEnd (S.left source.new)) }
    ensures long { (result ≡ Err InputFault.Limit) → IfSome (S.left source.old) (λ input. limit < length input) }
    ensures cause { (result ≡ Err InputFault.Read) → Rose (S.faults source.old) (S.faults source.new) }
    ensures stayed { OnOk result (S.faults source.new ≡ S.faults source.old) }
    ensures later { S.faults source.old ≤ S.faults source.new }
    ensures bounded { TakesAtMost (S.left source.old) (S.left source.new) (limit + 1) }
{
    match vec![in alloc; 0u8; BLOCK] {
        Ok(mut room) => read_by(alloc, source, room.as_mut_slice(), limit),
        Err(_) => Err(InputFault::Memory),
    }
}

// Reads all bytes that are left, in pieces that fit the room.
fn read_by<S: Source>(
    alloc: Global,
    source: &mut S,
    room: &mut [u8],
    limit: usize,
) -> Result<Octets, InputFault>
    requires { 0 < length room.old }
    ensures bytes { IfOk result (λ bytes. IfSome (S.left source.old) (λ input. bytes ≡ input)) }
    ensures small { IfOk result (λ bytes. length bytes ≤ limit) }
    ensures end { OnOk result (IsAtEnd (S.left source.new)) }
    ensures long { (result ≡ Err InputFault.Limit) → IfSome (S.left source.old) (λ input. limit < length input) }
    ensures cause { (result ≡ Err InputFault.Read) → Rose (S.faults source.old) (S.faults source.new) }
    ensures stayed { OnOk result (S.faults source.new ≡ S.faults source.old) }
    ensures later { S.faults source.old ≤ S.faults source.new }
    ensures bounded { TakesAtMost (S.left source.old) (S.left source.new) (limit + 1) }
{
    let mut bytes = Octets::new(alloc);
    'reading: loop {
        let most = (limit - bytes.len()).min(room.len() - 1) + 1;
        match read_block(source, &mut room[..most], &mut bytes) {
            Ok(0) => return Ok(bytes),
            Ok(_) => (),
            Err(fault) => return Err(fault),
        }
        if bytes.len() > limit {
            return Err(InputFault::Limit);
        }
    }
}

// Puts what one read gives last. Nothing is the end of input.
fn read_block<S: Source>(
    source: &mut S,
    room: &mut [u8],
    bytes: &mut Octets,
) -> Result<usize, InputFault>
    requires { 0 < length room.old }
    ensures taken { IfOk result (λ n. (block : List ℕ) × (length block ≡ n) × (n ≤ length room.old)
        × (bytes.new ≡ bytes.old ++ block) × Consumes (S.left source.old) (S.left source.new) block) }
    ensures end { IfOk result (λ n. n ≡ 0 → IsAtEnd (S.left source.new)) }
    ensures few { OnErr result (TakesAtMost (S.left source.old) (S.left source.new) (length room.old)) }
    ensures limit { IfErr result (λ fault. fault ≡ InputFault.Limit → ⊥) }
    ensures cause { (result ≡ Err InputFault.Read) → Rose (S.faults source.old) (S.faults source.new) }
    ensures stayed { OnOk result (S.faults source.new ≡ S.faults source.old) }
    ensures later { S.faults source.old ≤ S.faults source.new }
{
    let Ok(count) = source.read(room) else {
        return Err(InputFault::Read);
    };
    match bytes.append(&room[..count]) {
        Ok(()) => Ok(count),
        Err(_) => Err(InputFault::Memory),
    }
}
