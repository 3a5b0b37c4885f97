//! Plays the events of a world, and writes the line of each, and after the last one what each object shows.
ghost use Rattle.std.specs.Prelude.{◌≡◌, ◌≤◌, ◌⊎◌, ◌∷◌, [], true, map, length, IsTrue, IfErr, IfOk, OnOk, OnErr, Err, None};
ghost use Rattle.std.specs.Io.KnownBytes.{Appends};
ghost use Rattle.ba_world_events.specs.Outcomes.{outcome_line, summary_line};
ghost use Rattle.ba_world_play.specs.Plays.{WorldOnDisks, has_node};
ghost use Rattle.ba_world_play.specs.Shows.{ending_lines, event_line, node_summaries, object_summaries, object_summary, story, story_text, summaries};
ghost use Rattle.ba_ports.specs.Causes.{Rose};
ghost use Rattle.ba_ports.specs.Outputs.{WritesPart};
ghost use Rattle.ba_cmd_replay.specs.inside.Plays.{GoesOutOrStays};
ghost use Rattle.ba_cmd_replay.specs.inside.WorldPlays.{BreaksOffStory, IsAnswerTo, IsHandedOut, IsLeftAt, AreLinesShown, AreLinesWritten, LedTo, halt_told, object_lines};
ghost use Rattle.ba_world.specs.Worlds.{AreDisksOf, IsWorldOf, is_node_up, seen_in};

use crate::plays::{PlayFault, write_full};
use ba_core::{Id, List, Memory, Octets};
use ba_node_steps::Seen;
use ba_ports::{NotWritten, Sink, write_all};
use ba_ports_memory::MemDisk;
use ba_world::{StepFault, World};
use ba_world_events::{Event, Outcome, Summary, show_outcome, show_summary};
use ba_world_play::Missing;
use std::alloc::Global;

/// Plays the events of a world of so many nodes, writes their lines, and after the last one what each object shows. The disks of
/// the nodes are handed out after a whole play and at an event that can't be played, and at no other end.
pub fn play_world<K: Sink>(
    alloc: Global,
    nodes: u32,
    events: &[(u32, Event)],
    sink: &mut K,
    disks: &mut List<MemDisk>,
) -> Result<(), PlayFault>
    ensures whole { OnOk result ((story nodes events.now).halt ≡ None) }
    ensures written { OnOk result (Appends (K.written sink.old) (K.written sink.new) (story_text (story nodes events.now))) }
    ensures disks { OnOk result (AreDisksOf (story nodes events.now).last disks.new) }
    ensures broken { IfErr result (BreaksOffStory (story nodes events.now) (K.written sink.old) (K.written sink.new)) }
    ensures handed { IfErr result (IsHandedOut (story nodes events.now).last disks.old disks.new) }
    ensures cause { (result ≡ Err PlayFault.Write) → Rose (K.faults sink.old) (K.faults sink.new) ⊎ IsTrue (K.took_nothing sink.new) }
    ensures later { K.faults sink.old ≤ K.faults sink.new }
    ensures stayed { (result ≡ Err PlayFault.Write → ⊥) → K.faults sink.new ≡ K.faults sink.old }
{
    let mut text = Octets::new(alloc);
    let Played { world, halt } = match play_events(alloc, nodes, events, &mut text, sink) {
        Ok(played) => played,
        Err(fault) => return Err(fault),
    };
    if let Err(fault) = write_end(alloc, nodes, &world, halt, &mut text, sink) {
        return Err(fault);
    }
    match world.into_disks() {
        Ok(left) => {
            *disks = left;
            halted(halt)
        }
        Err(Memory) => Err(PlayFault::Memory),
    }
}

// The answer of a play that was written up to where it halted, if it did.
fn halted(halt: Option<(u32, Missing)>) -> Result<(), PlayFault>
    ensures { IsAnswerTo halt result }
{
    match halt {
        None => Ok(()),
        Some((number, Missing::Name)) => Err(PlayFault::NoSuchName(number)),
        Some((number, Missing::Message)) => Err(PlayFault::NoSuchMessage(number)),
    }
}

// A world after some events, and the number of the event that can't be played with what it names that isn't there.
#[derive(Drop)]
struct Played {
    world: World,
    halt: Option<(u32, Missing)>,
}

// Plays the events of a world of so many nodes, up to one that can't be played; their lines are shown.
fn play_events<K: Sink>(
    alloc: Global,
    nodes: u32,
    events: &[(u32, Event)],
    text: &mut Octets,
    sink: &mut K,
) -> Result<Played, PlayFault>
    ensures led { IfOk result (LedTo (story nodes events.now)) }
    ensures shown { AreLinesShown (text.old ∷ map event_line (story nodes events.now).lines) (K.written sink.old) (K.written sink.new) text.new result }
    ensures cause { (result ≡ Err PlayFault.Write) → Rose (K.faults sink.old) (K.faults sink.new) ⊎ IsTrue (K.took_nothing sink.new) }
    ensures later { K.faults sink.old ≤ K.faults sink.new }
    ensures stayed { (result ≡ Err PlayFault.Write → ⊥) → K.faults sink.new ≡ K.faults sink.old }
{
    let Ok(mut world) = World::make(alloc, nodes) else {
        return Err(PlayFault::Memory);
    };
    'events: for (number, event) in events {
        match world.step(event) {
            Ok(outcome) => {
                if let Err(fault) = show_event(alloc, *number, &outcome, text, sink) {
                    return Err(fault);
                }
            }
            Err(fault) => return left_at(world, *number, fault),
        }
    }
    Ok(Played { world, halt: None })
}

// What a play comes to at the event of this line, which wasn't played for this reason.
fn left_at(world: World, number: u32, fault: StepFault) -> Result<Played, PlayFault>
    ensures { IsLeftAt world number fault result }
{
    match fault {
        StepFault::Missing(why) => Ok(Played {
            world,
            halt: Some((number, why)),
        }),
        StepFault::Memory => Err(PlayFault::Memory),
    }
}

// Writes what is held, and after the last event what each object shows.
fn write_end<K: Sink>(
    alloc: Global,
    nodes: u32,
    world: &World,
    halt: Option<(u32, Missing)>,
    text: &mut Octets,
    sink: &mut K,
) -> Result<(), PlayFault>
    ensures written { (p : WorldOnDisks) → IsWorldOf world.now p → p.count ≡ nodes
        → AreLinesWritten (text.old ∷ ending_lines p (halt_told halt)) (K.written sink.old) (K.written sink.new) result }
    ensures cause { (result ≡ Err PlayFault.Write) → Rose (K.faults sink.old) (K.faults sink.new) ⊎ IsTrue (K.took_nothing sink.new) }
    ensures later { K.faults sink.old ≤ K.faults sink.new }
    ensures stayed { (result ≡ Err PlayFault.Write → ⊥) → K.faults sink.new ≡ K.faults sink.old }
{
    match halt {
        None => match show_ending(alloc, nodes, world, text, sink) {
            Ok(()) => write_rest(text, sink),
            Err(fault) => Err(fault),
        },
        Some(_) => write_rest(text, sink),
    }
}

// Shows what each object shows, node by node, and how many messages are in the bag.
fn show_ending<K: Sink>(
    alloc: Global,
    nodes: u32,
    world: &World,
    text: &mut Octets,
    sink: &mut K,
) -> Result<(), PlayFault>
    ensures shown { (p : WorldOnDisks) → IsWorldOf world.now p → p.count ≡ nodes
        → AreLinesShown (text.old ∷ map summary_line (summaries p)) (K.written sink.old) (K.written sink.new) text.new result }
    ensures cause { (result ≡ Err PlayFault.Write) → Rose (K.faults sink.old) (K.faults sink.new) ⊎ IsTrue (K.took_nothing sink.new) }
    ensures later { K.faults sink.old ≤ K.faults sink.new }
    ensures stayed { (result ≡ Err PlayFault.Write → ⊥) → K.faults sink.new ≡ K.faults sink.old }
{
    'nodes: for index in 0..nodes {
        if let Err(fault) = show_node(alloc, index + 1, world, text, sink) {
            return Err(fault);
        }
    }
    show_line(alloc, &Summary::Bag(world.bag()), text, sink)
}

// Shows each object of a node, or that it is down.
fn show_node<K: Sink>(
    alloc: Global,
    node: u32,
    world: &World,
    text: &mut Octets,
    sink: &mut K,
) -> Result<(), PlayFault>
    ensures shown { (p : WorldOnDisks) → IsWorldOf world.now p → has_node p node ≡ true
        → AreLinesShown (text.old ∷ map summary_line (node_summaries p.world node)) (K.written sink.old) (K.written sink.new) text.new result }
    ensures cause { (result ≡ Err PlayFault.Write) → Rose (K.faults sink.old) (K.faults sink.new) ⊎ IsTrue (K.took_nothing sink.new) }
    ensures later { K.faults sink.old ≤ K.faults sink.new }
    ensures stayed { (result ≡ Err PlayFault.Write → ⊥) → K.faults sink.new ≡ K.faults sink.old }
{
    if !world.up(node) {
        return show_line(alloc, &Summary::NodeDown(node), text, sink);
    }
    show_objects(alloc, node, world, text, sink)
}

// Shows each object of a node that isn't down.
fn show_objects<K: Sink>(
    alloc: Global,
    node: u32,
    world: &World,
    text: &mut Octets,
    sink: &mut K,
) -> Result<(), PlayFault>
    ensures shown { (p : WorldOnDisks) → IsWorldOf world.now p → is_node_up p node ≡ true
        → AreLinesShown (text.old ∷ map summary_line (object_summaries (p.world.nodes node).state)) (K.written sink.old) (K.written sink.new) text.new result }
    ensures cause { (result ≡ Err PlayFault.Write) → Rose (K.faults sink.old) (K.faults sink.new) ⊎ IsTrue (K.took_nothing sink.new) }
    ensures later { K.faults sink.old ≤ K.faults sink.new }
    ensures stayed { (result ≡ Err PlayFault.Write → ⊥) → K.faults sink.new ≡ K.faults sink.old }
{
    'counters: for index in 0..world.last(node) {
        if let Err(fault) = show_object(alloc, Id::of(node, index + 1), world, text, sink) {
            return Err(fault);
        }
    }
    Ok(())
}

// Shows the object with this identifier, if there is one.
fn show_object<K: Sink>(
    alloc: Global,
    id: Id,
    world: &World,
    text: &mut Octets,
    sink: &mut K,
) -> Result<(), PlayFault>
    ensures shown { (p : WorldOnDisks) → IsWorldOf world.now p
        → AreLinesShown (text.old ∷ object_lines id (seen_in p id)) (K.written sink.old) (K.written sink.new) text.new result }
    ensures cause { (result ≡ Err PlayFault.Write) → Rose (K.faults sink.old) (K.faults sink.new) ⊎ IsTrue (K.took_nothing sink.new) }
    ensures later { K.faults sink.old ≤ K.faults sink.new }
    ensures stayed { (result ≡ Err PlayFault.Write → ⊥) → K.faults sink.new ≡ K.faults sink.old }
{
    match world.seen(id) {
        Some(seen) => show_line(alloc, &object_summary(id, seen), text, sink),
        None => Ok(()),
    }
}

fn object_summary(id: Id, seen: Seen) -> Summary
    ensures { result ≡ object_summary id seen }
{
    match seen {
        Seen::Scope(kind, verdict) => Summary::Scope(id, kind, verdict),
        Seen::End(protocol, state, verdict) => Summary::End(id, protocol, state, verdict),
        Seen::Part(protocol, state, _) => Summary::Part(id, protocol, state),
    }
}

// ---- lines

// The line of an event joins the text, which goes out where it is a block.
fn show_event<K: Sink>(
    alloc: Global,
    number: u32,
    outcome: &Outcome,
    text: &mut Octets,
    sink: &mut K,
) -> Result<(), PlayFault>
    ensures shown { AreLinesShown (text.old ∷ outcome_line number outcome.now ∷ []) (K.written sink.old) (K.written sink.new) text.new result }
    ensures cause { (result ≡ Err PlayFault.Write) → Rose (K.faults sink.old) (K.faults sink.new) ⊎ IsTrue (K.took_nothing sink.new) }
    ensures later { K.faults sink.old ≤ K.faults sink.new }
    ensures stayed { (result ≡ Err PlayFault.Write → ⊥) → K.faults sink.new ≡ K.faults sink.old }
{
    match show_outcome(alloc, number, outcome, text) {
        Ok(()) => let_out(text, sink),
        Err(Memory) => Err(PlayFault::Memory),
    }
}

// Likewise a line after the last event.
fn show_line<K: Sink>(
    alloc: Global,
    summary: &Summary,
    text: &mut Octets,
    sink: &mut K,
) -> Result<(), PlayFault>
    ensures shown { AreLinesShown (text.old ∷ summary_line summary.now ∷ []) (K.written sink.old) (K.written sink.new) text.new result }
    ensures cause { (result ≡ Err PlayFault.Write) → Rose (K.faults sink.old) (K.faults sink.new) ⊎ IsTrue (K.took_nothing sink.new) }
    ensures later { K.faults sink.old ≤ K.faults sink.new }
    ensures stayed { (result ≡ Err PlayFault.Write → ⊥) → K.faults sink.new ≡ K.faults sink.old }
{
    match show_summary(alloc, summary, text) {
        Ok(()) => let_out(text, sink),
        Err(Memory) => Err(PlayFault::Memory),
    }
}

// Lets a text out that is a block.
fn let_out<K: Sink>(text: &mut Octets, sink: &mut K) -> Result<(), PlayFault>
    ensures goes { OnOk result (GoesOutOrStays (K.written sink.old) text.old (K.written sink.new) text.new) }
    ensures broken { IfErr result (λ why. (why ≡ PlayFault.Write) × WritesPart (K.written sink.old) (K.written sink.new) text.old) }
    ensures cause { (result ≡ Err PlayFault.Write) → Rose (K.faults sink.old) (K.faults sink.new) ⊎ IsTrue (K.took_nothing sink.new) }
    ensures later { K.faults sink.old ≤ K.faults sink.new }
    ensures stayed { (result ≡ Err PlayFault.Write → ⊥) → K.faults sink.new ≡ K.faults sink.old }
{
    match write_full(text, sink) {
        Ok(()) => Ok(()),
        Err(NotWritten) => Err(PlayFault::Write),
    }
}

// Writes what is held.
fn write_rest<K: Sink>(text: &Octets, sink: &mut K) -> Result<(), PlayFault>
    ensures written { OnOk result (Appends (K.written sink.old) (K.written sink.new) text.now) }
    ensures broken { IfErr result (λ why. (why ≡ PlayFault.Write) × WritesPart (K.written sink.old) (K.written sink.new) text.now) }
    ensures cause { (result ≡ Err PlayFault.Write) → Rose (K.faults sink.old) (K.faults sink.new) ⊎ IsTrue (K.took_nothing sink.new) }
    ensures later { K.faults sink.old ≤ K.faults sink.new }
    ensures stayed { (result ≡ Err PlayFault.Write → ⊥) → K.faults sink.new ≡ K.faults sink.old }
{
    match write_all(sink, text.as_slice()) {
        Ok(()) => Ok(()),
        Err(NotWritten) => Err(PlayFault::Write),
    }
}
