//! Reads a script, plays it, and writes the line of each event.
ghost use Rattle.std.specs.Prelude.{◌≡◌, ◌⊎◌, [], false, IsTrue, IfErr, IfSome, OnOk, Err, None};
ghost use Rattle.std.specs.Io.KnownBytes.{Appends, IsAtEnd, Keeps};
ghost use Rattle.ba_ports.specs.Causes.{Rose};
ghost use Rattle.ba_ports.specs.Inputs.{TakesAtMost};
ghost use Rattle.ba_cmd_replay.specs.Replay.{PrintsWhole, StopsReplay, most_of_script};
ghost use Rattle.ba_cmd_replay.specs.WorldReplay.{HandsOut, LeavesDisks, is_halt};
ghost use Rattle.ba_cmd_replay.specs.inside.Plays.{unplayed_fault, unread_fault};

use crate::faults::ReplayFault;
use crate::plays::{PlayFault, play_pair};
use crate::world_plays::play_world;
use ba_core::List;
use ba_ports::{Sink, Source};
use ba_ports_memory::MemDisk;
use ba_script::{Script, ScriptFault, read_script};
use std::alloc::Global;

/// Reads a script of a pair or of a world, plays it and writes its lines. The disks of a world's nodes, in the order of
/// their numbers, are handed out after a whole play and at an event that can't be played, and at no other end.
pub fn replay<S: Source, K: Sink>(
    alloc: Global,
    source: &mut S,
    sink: &mut K,
    disks: &mut List<MemDisk>,
) -> Result<(), ReplayFault>
    requires { disks.old ≡ [] }

    // The input is a script, read to its end, and its whole play is written.
    ensures done { OnOk result (IfSome (S.left source.old) (λ input. PrintsWhole input (K.written sink.old) (K.written sink.new))) }
    ensures end { OnOk result (IsAtEnd (S.left source.new)) }

    // Else the fault says what was wrong, and what was written before.
    ensures stops { IfErr result (λ fault. IfSome (S.left source.old)
        (λ input. StopsReplay input (S.left source.new) (K.written sink.old) (K.written sink.new) fault)) }

    // The disks are those of the play.
    ensures disks { OnOk result (IfSome (S.left source.old) (λ input. LeavesDisks input disks.new)) }
    ensures none { IfErr result (λ fault. is_halt fault ≡ false → disks.new ≡ []) }
    ensures handed { IfErr result (λ fault. IfSome (S.left source.old) (λ input. HandsOut input disks.new fault)) }

    // A read fails only where the source counts a fault, nothing is written then, and the count rises at no other answer.
    ensures read { (result ≡ Err ReplayFault.Read) → Rose (S.faults source.old) (S.faults source.new) }
    ensures unwritten { (result ≡ Err ReplayFault.Read) → Keeps (K.written sink.old) (K.written sink.new) }
    ensures source_stayed { (result ≡ Err ReplayFault.Read → ⊥) → S.faults source.new ≡ S.faults source.old }

    // A write fails only where the sink counts a fault, or takes nothing of what isn't empty; likewise.
    ensures write { (result ≡ Err ReplayFault.Write) → Rose (K.faults sink.old) (K.faults sink.new) ⊎ IsTrue (K.took_nothing sink.new) }
    ensures sink_stayed { (result ≡ Err ReplayFault.Write → ⊥) → K.faults sink.new ≡ K.faults sink.old }

    // However long the input is, so much of it is taken at most.
    ensures bounded { TakesAtMost (S.left source.old) (S.left source.new) most_of_script }
{
    match read_script(alloc, source) {
        Ok(Script::Pair(protocol, events)) => {
            match play_pair(alloc, protocol, events.as_slice(), sink) {
                Ok(()) => Ok(()),
                Err(fault) => Err(unplayed_fault(fault)),
            }
        }
        Ok(Script::World(nodes, events)) => {
            match play_world(alloc, nodes, events.as_slice(), sink, disks) {
                Ok(()) => Ok(()),
                Err(fault) => Err(unplayed_fault(fault)),
            }
        }
        Err(fault) => Err(unread_fault(fault)),
    }
}

// The fault of a replay whose script wasn't read.
fn unread_fault(fault: ScriptFault) -> ReplayFault
    ensures { result ≡ unread_fault fault }
{
    match fault {
        ScriptFault::Memory => ReplayFault::Memory,
        ScriptFault::Read => ReplayFault::Read,
        ScriptFault::BadLine(number, column) => ReplayFault::BadLine(number, column),
        ScriptFault::TooManyLines => ReplayFault::TooManyLines,
    }
}

// The fault of a replay whose play broke off.
fn unplayed_fault(fault: PlayFault) -> ReplayFault
    ensures { result ≡ unplayed_fault fault }
{
    match fault {
        PlayFault::Memory => ReplayFault::Memory,
        PlayFault::Write => ReplayFault::Write,
        PlayFault::NoSuchName(number) => ReplayFault::NoSuchName(number),
        PlayFault::NoSuchMessage(number) => ReplayFault::NoSuchMessage(number),
    }
}
