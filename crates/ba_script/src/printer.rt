//! The printed lines of a play.
ghost use Rattle.std.specs.Prelude.{◌≡◌, ◌++◌, OnOk, OnErr};
ghost use Rattle.ba_script.specs.Printer.{numbered_line};

use ba_core::{Memory, Octets};
use ba_pair::Line;
use std::alloc::Global;

/// Appends a line with its number and a line feed. After `Memory` nothing has changed.
pub fn show(alloc: Global, number: u32, line: &Line, out: &mut Octets) -> Result<(), Memory>
    ensures ok { OnOk result (out.new ≡ out.old ++ numbered_line number line.now) }
    ensures err { OnErr result (out.new ≡ out.old) }
{
    match format!(in alloc; "{number} {line}\n") {
        Ok(text) => out.append(text.as_bytes()),
        Err(_) => Err(Memory),
    }
}
