//! The printed lines of a world's play.
ghost use Rattle.std.specs.Prelude.{◌≡◌, ◌++◌, OnOk, OnErr};
ghost use Rattle.ba_world_events.specs.Outcomes.{outcome_line, summary_line};

use crate::outcomes::Outcome;
use crate::summaries::Summary;
use ba_core::{Memory, Octets};
use std::alloc::Global;

/// Appends the line of an event: the number of its line in the script, its outcome and a line feed. After
/// `Memory` nothing has changed.
pub fn show_outcome(
    alloc: Global,
    number: u32,
    outcome: &Outcome,
    out: &mut Octets,
) -> Result<(), Memory>
    ensures ok { OnOk result (out.new ≡ out.old ++ outcome_line number outcome.now) }
    ensures err { OnErr result (out.new ≡ out.old) }
{
    match format!(in alloc; "{number} {outcome}\n") {
        Ok(text) => out.append(text.as_bytes()),
        Err(_) => Err(Memory),
    }
}

/// Appends a line after the last event, with a line feed and without a number. After `Memory` nothing has changed.
pub fn show_summary(alloc: Global, summary: &Summary, out: &mut Octets) -> Result<(), Memory>
    ensures ok { OnOk result (out.new ≡ out.old ++ summary_line summary.now) }
    ensures err { OnErr result (out.new ≡ out.old) }
{
    match format!(in alloc; "{summary}\n") {
        Ok(text) => out.append(text.as_bytes()),
        Err(_) => Err(Memory),
    }
}
