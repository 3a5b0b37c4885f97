//! Scripts of the events of a pair or of a world: what they are made of, why one is refused, and how one is read.
ghost use Rattle.std.specs.Prelude.{◌≡◌, ◌≤◌, ◌++◌, ◌∷◌, [], None, IfOk, IfErr, IfSome, OnOk, OnErr};
ghost use Rattle.std.specs.Io.KnownBytes.{IsAtEnd};
ghost use Rattle.ba_ports.specs.Causes.{Rose};
ghost use Rattle.ba_ports.specs.Inputs.{TakesAtMost};
ghost use Rattle.ba_script.specs.Scripts.{IsScript, ExplainsFault, form_after, most_of_script, most_until_fault};
ghost use Rattle.ba_script.specs.inside.Events.{pair_event_of, script_of, world_event_of};

use crate::lines::Lines;
use ba_core::{List, Memory, Protocol};
use ba_pair::PairEvent;
use ba_ports::{Failed, Source};
use ba_script_forms::{Form, Reading, reading_of};
use ba_world_events::Event;
use std::alloc::Global;
use thiserror::Error;

/// A script has this many lines at most.
pub const MOST_LINES: u32 = 100_000;

/// A script that was read: the events with the numbers of their lines.
#[derive(Debug, Drop)]
pub enum Script {
    /// The events of one pair.
    Pair(Protocol, List<(u32, PairEvent)>),
    /// The events of a world of so many nodes.
    World(u32, List<(u32, Event)>),
}

/// Why a script wasn't read.
#[derive(Clone, Copy, Debug, PartialEq, Eq, Error)]
pub enum ScriptFault {
    #[error("out of memory")]
    Memory,
    #[error("the input can't be read")]
    Read,
    /// The first line that no script has there, and the column, from 1, of its first word that no form allows; one
    /// past its end where a word is missing, and 257 where the line is too long.
    #[error("line {0} column {1}")]
    BadLine(u32, u32),
    #[error("more than 100000 lines")]
    TooManyLines,
}

impl From<Memory> for ScriptFault {
    ghost use Rattle.std.specs.Prelude.{◌≡◌};
    ghost use Rattle.ba_script.specs.declared.scripts.ScriptFault.TheVariants as fault;

    ghost from_gives = { λ _ e. e ≡ fault.Memory };

    fn from(_e: Memory) -> ScriptFault {
        ScriptFault::Memory
    }
}

impl From<Failed> for ScriptFault {
    ghost use Rattle.std.specs.Prelude.{◌≡◌};
    ghost use Rattle.ba_script.specs.declared.scripts.ScriptFault.TheVariants as fault;

    ghost from_gives = { λ _ e. e ≡ fault.Read };

    fn from(_e: Failed) -> ScriptFault {
        ScriptFault::Read
    }
}

/// Reads a script. Its lines are looked at as they come: the first bad line ends the reading at
/// once, as does a line past the last one that a script may have, and a line is bad as soon as it is
/// too long. `Read` is answered where a read fails before.
pub fn read_script<S: Source>(alloc: Global, source: &mut S) -> Result<Script, ScriptFault>
    ensures script { IfOk result (λ script. IfSome (S.left source.old) (λ text. IsScript text script)) }
    ensures end { OnOk result (IsAtEnd (S.left source.new)) }
    ensures fault { IfErr result (λ fault. IfSome (S.left source.old) (λ text. ExplainsFault text fault)) }

    // A read fails only where the source counts a fault, and its count rises at no other answer.
    ensures cause { (result ≡ Err ScriptFault.Read) → Rose (S.faults source.old) (S.faults source.new) }
    ensures later { S.faults source.old ≤ S.faults source.new }
    ensures stayed { (result ≡ Err ScriptFault.Read → ⊥) → S.faults source.new ≡ S.faults source.old }

    // Little is read past what decides the answer.
    ensures reads { IfErr result (λ fault. IfSome (S.left source.old)
        (λ text. TakesAtMost (S.left source.old) (S.left source.new) (most_until_fault text fault))) }
    ensures bounded { TakesAtMost (S.left source.old) (S.left source.new) most_of_script }
{
    let mut lines = Lines::new(alloc)?;
    let mut pairs = List::new(alloc);
    let mut worlds = List::new(alloc);
    let mut form = None;
    'lines: for read in 0..MOST_LINES {
        let Some(count) = lines.find(source)? else {
            return Ok(script_of(form, pairs, worlds));
        };
        let reading = match reading_of(lines.first(count), form) {
            Ok(reading) => reading,
            Err(column) => return Err(ScriptFault::BadLine(read + 1, column)),
        };
        add(&mut pairs, &mut worlds, reading, read + 1)?;
        form = form_after(form, reading);
        lines.pass(count);
    }
    if lines.is_at_end(source)? {
        return Ok(script_of(form, pairs, worlds));
    }
    Err(ScriptFault::TooManyLines)
}

// The script of this form that has these events.
fn script_of(
    form: Option<Form>,
    pairs: List<(u32, PairEvent)>,
    worlds: List<(u32, Event)>,
) -> Script
    ensures { result ≡ script_of form pairs worlds }
{
    match form {
        None => Script::Pair(Protocol::Pc, pairs),
        Some(Form::Pair(protocol)) => Script::Pair(protocol, pairs),
        Some(Form::World(nodes)) => Script::World(nodes, worlds),
    }
}

// Appends the event of the line with this number, if the line tells one.
fn add(
    pairs: &mut List<(u32, PairEvent)>,
    worlds: &mut List<(u32, Event)>,
    reading: Reading,
    number: u32,
) -> Result<(), Memory>
    ensures pairs { OnOk result (pairs.new ≡ pairs.old ++ pair_event_of reading number) }
    ensures worlds { OnOk result (worlds.new ≡ worlds.old ++ world_event_of reading number) }
{
    match reading {
        Reading::Pair(event) => add_to(pairs, event, number),
        Reading::World(event) => add_to(worlds, event, number),
        _ => Ok(()),
    }
}

// Appends an event with the number of its line.
fn add_to<E: Drop>(events: &mut List<(u32, E)>, event: E, number: u32) -> Result<(), Memory>
    ensures { OnOk result (events.new ≡ events.old ++ (number, event) ∷ []) }
{
    match events.push((number, event)) {
        Ok(()) => Ok(()),
        Err(_) => Err(Memory),
    }
}

// The form that stands after a line that says this.
fn form_after(form: Option<Form>, reading: Reading) -> Option<Form>
    ensures { result ≡ form_after form reading }
{
    match form {
        Some(chosen) => Some(chosen),
        None => form_begun(reading),
    }
}

// The form of a script whose first line that says something says this. One that begins with an event is of
// a ParticipantCompletion pair.
fn form_begun(reading: Reading) -> Option<Form>
    ensures { result ≡ form_after None reading }
{
    match reading {
        Reading::Nothing | Reading::World(_) => None,
        Reading::Opening(form) => Some(form),
        Reading::Pair(_) => Some(Form::Pair(Protocol::Pc)),
    }
}
