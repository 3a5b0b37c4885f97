//! Plays the events of a pair, and writes the line of each.
ghost use Rattle.std.specs.Prelude.{◌≡◌, ◌<◌, ◌≤◌, length, ◌⊎◌, ◌++◌, IsTrue, IfErr, OnOk, OnErr, Err, Some, None};
ghost use Rattle.std.specs.Io.KnownBytes.{Appends};
ghost use Rattle.ba_pair.specs.PairPlay.{happens, play};
ghost use Rattle.ba_pair.specs.PairState.{starting_pair};
ghost use Rattle.ba_pair.specs.declared.lines.Line.{Line};
ghost use Rattle.ba_ports.specs.Causes.{Rose};
ghost use Rattle.ba_ports.specs.Outputs.{WritesPart};
ghost use Rattle.ba_script.specs.Printer.{numbered_line, shown_lines};
ghost use Rattle.ba_cmd_replay.specs.inside.Plays.{BreaksOff, BreaksOffAt, GoesOutOrStays};

use ba_core::{Octets, Protocol};
use ba_pair::{Pair, PairEvent, StepFault};
use ba_ports::{NotWritten, Sink, write_all};
use ba_script::show;
use std::alloc::Global;
use thiserror::Error;

/// Why a play broke off.
#[derive(Clone, Copy, Debug, PartialEq, Eq, Error)]
pub enum PlayFault {
    #[error("out of memory")]
    Memory,
    #[error("the output can't be written")]
    Write,
    /// The event of this line names a node or a scope that isn't there.
    #[error("line {0} no such name")]
    NoSuchName(u32),
    /// The event of this line names a message that isn't in the bag.
    #[error("line {0} no such message")]
    NoSuchMessage(u32),
}

// Lines go to the sink once they are so many bytes.
const FULL: usize = 65_536;

/// Plays the events from the start of a pair with this protocol, and writes their lines. All lines before an
/// event that can't be played are out when it ends; after `Memory` the first so many of them are, whole; after
/// `Write` a prefix of them is, which may end anywhere.
pub fn play_pair<K: Sink>(
    alloc: Global,
    protocol: Protocol,
    events: &[(u32, PairEvent)],
    sink: &mut K,
) -> Result<(), PlayFault>
    ensures whole { OnOk result ((play (starting_pair protocol) events.now).stopped_at ≡ None) }
    ensures written { OnOk result (Appends (K.written sink.old) (K.written sink.new) (shown_lines (play (starting_pair protocol) events.now).lines)) }
    ensures broken { IfErr result (BreaksOff (play (starting_pair protocol) events.now) (K.written sink.old) (K.written sink.new)) }
    ensures cause { (result ≡ Err PlayFault.Write) → Rose (K.faults sink.old) (K.faults sink.new) ⊎ IsTrue (K.took_nothing sink.new) }
    ensures later { K.faults sink.old ≤ K.faults sink.new }
    ensures stayed { (result ≡ Err PlayFault.Write → ⊥) → K.faults sink.new ≡ K.faults sink.old }
{
    let Ok(mut pair) = Pair::make(alloc, protocol) else {
        return Err(PlayFault::Memory);
    };
    let mut text = Octets::new(alloc);
    'events: for (number, event) in events {
        if let Err(fault) = play_event(alloc, *number, event, &mut pair, &mut text, sink) {
            return Err(fault);
        }
    }
    match write_all(sink, text.as_slice()) {
        Ok(()) => Ok(()),
        Err(NotWritten) => Err(PlayFault::Write),
    }
}

// Plays one event: its line joins the text, which goes out where it is a block or where the event can't
// be played.
fn play_event<K: Sink>(
    alloc: Global,
    number: u32,
    event: &PairEvent,
    pair: &mut Pair,
    text: &mut Octets,
    sink: &mut K,
) -> Result<(), PlayFault>
    ensures played { OnOk result ((line : Line) × (happens pair.old event.now ≡ Some (pair.new, line))
        × GoesOutOrStays (K.written sink.old) (text.old ++ numbered_line number line) (K.written sink.new) text.new) }
    ensures broken { IfErr result (BreaksOffAt number (happens pair.old event.now) text.old (K.written sink.old) (K.written sink.new)) }
    ensures cause { (result ≡ Err PlayFault.Write) → Rose (K.faults sink.old) (K.faults sink.new) ⊎ IsTrue (K.took_nothing sink.new) }
    ensures later { K.faults sink.old ≤ K.faults sink.new }
    ensures stayed { (result ≡ Err PlayFault.Write → ⊥) → K.faults sink.new ≡ K.faults sink.old }
{
    match pair.step(event) {
        Ok(line) => {
            if show(alloc, number, &line, text).is_err() {
                return Err(PlayFault::Memory);
            }
            match write_full(text, sink) {
                Ok(()) => Ok(()),
                Err(NotWritten) => Err(PlayFault::Write),
            }
        }
        Err(StepFault::NoSuchMessage) => match write_all(sink, text.as_slice()) {
            Ok(()) => Err(PlayFault::NoSuchMessage(number)),
            Err(NotWritten) => Err(PlayFault::Write),
        },
        Err(StepFault::Memory) => Err(PlayFault::Memory),
    }
}

/// Writes a text that is a block or more.
#[tactic(auto, using(crate::proofs::Breaks::stays, crate::proofs::Breaks::goes_out))]
pub fn write_full<K: Sink>(text: &mut Octets, sink: &mut K) -> Result<(), NotWritten>
    ensures written { OnOk result (GoesOutOrStays (K.written sink.old) text.old (K.written sink.new) text.new) }
    ensures short { OnOk result (length text.new < FULL) }
    ensures part { OnErr result (WritesPart (K.written sink.old) (K.written sink.new) text.old) }
    ensures cause { OnErr result (Rose (K.faults sink.old) (K.faults sink.new) ⊎ IsTrue (K.took_nothing sink.new)) }
    ensures later { K.faults sink.old ≤ K.faults sink.new }
    ensures stayed { OnOk result (K.faults sink.new ≡ K.faults sink.old) }
{
    if text.len() < FULL {
        return Ok(());
    }
    match write_all(sink, text.as_slice()) {
        Ok(()) => {
            text.clear();
            Ok(())
        }
        Err(NotWritten) => Err(NotWritten),
    }
}
