//! The program's work, over whatever it reads from and writes to.
ghost use Rattle.std.specs.Prelude.{◌≡◌, ◌≢◌, [], ◌<◌, ◌↔◌, IfErr, IfSome, OnOk, codes, map, string_bytes};
ghost use Rattle.std.specs.Io.KnownBytes.{IsAtEnd, Keeps};
ghost use Rattle.ba.specs.Command.{ByCommand, IsCommandLine};
ghost use Rattle.ba.specs.Notes.{IsStatus, status_of};
ghost use Rattle.ba.specs.Run.{Does, IsFaultOf, LeavesAt, LeavesWhole, StoppedAs, Stops, most_taken_by};
ghost use Rattle.ba_ports.specs.Causes.{Rose};
ghost use Rattle.ba_ports.specs.Inputs.{TakesAtMost};
ghost use Rattle.ba_ports.specs.Whole.{FailsToWrite, WritesOrFails};

use crate::command::{Command, command_of};
use crate::notes::{RunFault, refuse};
use ba_cmd_check::check;
use ba_cmd_journal::journal;
use ba_cmd_replay::replay;
use ba_core::List;
use ba_ports::{Sink, Source};
use ba_ports_memory::MemDisk;
use std::alloc::Global;

/// Does what the words ask for, and returns the status of the program: `replay` reads a script of a pair or of a world
/// from the source, plays it, and writes its lines to the sink; `check` reads one envelope, and writes the report of its
/// message; `journal` reads a journal's file, and writes its listing. The disks of a world's nodes are handed out after
/// its play, also at an event that can't be played.
/// Unless the status is 0, a note that says why goes to `notes`, whose faults are ignored.
pub fn run<S: Source, K: Sink, N: Sink>(
    alloc: Global,
    words: &[String],
    source: &mut S,
    sink: &mut K,
    notes: &mut N,
    disks: &mut List<MemDisk>,
) -> u8
    requires { disks.old ≡ [] }
    ensures known { IsStatus result }

    // 2: the words are no command line, and the note says so.
    ensures usage { (result ≡ 2) ↔ ¬ IsCommandLine (map string_bytes words.now) }
    ensures untouched { result ≡ 2 → (source.new ≡ source.old) × (sink.new ≡ sink.old) × (disks.new ≡ disks.old) }
    ensures noted { result ≡ 2 → WritesOrFails (N.written notes.old) (N.written notes.new)
        (FailsToWrite (N.faults notes.old) (N.faults notes.new) (N.took_nothing notes.new)) (codes "usage\n") }

    // 0: the input is what the command reads, read to its end, and its whole output is written.
    ensures done { result ≡ 0 → ByCommand (map string_bytes words.now) (λ command. IfSome (S.left source.old)
        (λ input. Does command input (K.written sink.old) (K.written sink.new))) }
    ensures end { result ≡ 0 → IsAtEnd (S.left source.new) }
    ensures handed { result ≡ 0 → ByCommand (map string_bytes words.now) (λ command. IfSome (S.left source.old)
        (λ input. LeavesWhole command input disks.new)) }
    ensures silent { result ≡ 0 → notes.new ≡ notes.old }

    // 3 to 7: a fault of this status stopped the command, and its note was left whole; where the notes failed, a
    // prefix of it. 3: the input is refused; 4: it can't be read; 5: the output can't be written; 6: want of
    // memory, which may come at any time; 7: the input goes past a limit.
    ensures stopped { 2 < result → StoppedAs result (map string_bytes words.now) (S.left source.old) (S.left source.new)
        (K.written sink.old) (K.written sink.new) disks.new (WritesOrFails (N.written notes.old) (N.written notes.new)
        (FailsToWrite (N.faults notes.old) (N.faults notes.new) (N.took_nothing notes.new))) }

    // 4: the source failed, and nothing is written. 5: the sink failed, or took nothing of what wasn't empty.
    ensures read { result ≡ 4 → Rose (S.faults source.old) (S.faults source.new) }
    ensures unwritten { result ≡ 4 → Keeps (K.written sink.old) (K.written sink.new) }
    ensures write { result ≡ 5 → FailsToWrite (K.faults sink.old) (K.faults sink.new) (K.took_nothing sink.new) }

    // However long the input is, so much of it is taken at most.
    ensures bounded { result ≢ 2 → ByCommand (map string_bytes words.now)
        (λ command. TakesAtMost (S.left source.old) (S.left source.new) (most_taken_by command)) }
{
    let Some(command) = command_of(words) else {
        return refuse(RunFault::Usage, notes);
    };
    match carry_out(alloc, command, source, sink, disks) {
        Ok(()) => 0,
        Err(fault) => refuse(fault, notes),
    }
}

// Carries out a command.
fn carry_out<S: Source, K: Sink>(
    alloc: Global,
    command: Command,
    source: &mut S,
    sink: &mut K,
    disks: &mut List<MemDisk>,
) -> Result<(), RunFault>
    requires { disks.old ≡ [] }
    ensures done { OnOk result (IfSome (S.left source.old) (λ input. Does command input (K.written sink.old) (K.written sink.new))) }
    ensures end { OnOk result (IsAtEnd (S.left source.new)) }
    ensures left { OnOk result (IfSome (S.left source.old) (λ input. LeavesWhole command input disks.new)) }
    ensures own { IfErr result (IsFaultOf command) }
    ensures handed { IfErr result (λ fault. IfSome (S.left source.old) (λ input. LeavesAt command input disks.new fault)) }
    ensures stops { IfErr result (λ fault. IfSome (S.left source.old)
        (λ input. Stops command input (S.left source.new) (K.written sink.old) (K.written sink.new) fault)) }
    ensures read { IfErr result (λ fault. status_of fault ≡ 4 → Rose (S.faults source.old) (S.faults source.new)) }
    ensures unwritten { IfErr result (λ fault. status_of fault ≡ 4 → Keeps (K.written sink.old) (K.written sink.new)) }
    ensures write { IfErr result (λ fault. status_of fault ≡ 5 → FailsToWrite (K.faults sink.old) (K.faults sink.new) (K.took_nothing sink.new)) }
    ensures bounded { TakesAtMost (S.left source.old) (S.left source.new) (most_taken_by command) }
{
    match command {
        Command::Replay => replayed(alloc, source, sink, disks),
        Command::Check => checked(alloc, source, sink),
        Command::Journal => listed(alloc, source, sink),
    }
}

fn replayed<S: Source, K: Sink>(
    alloc: Global,
    source: &mut S,
    sink: &mut K,
    disks: &mut List<MemDisk>,
) -> Result<(), RunFault>
    requires { disks.old ≡ [] }
    ensures done { OnOk result (IfSome (S.left source.old) (λ input. Does Command.Replay input (K.written sink.old) (K.written sink.new))) }
    ensures end { OnOk result (IsAtEnd (S.left source.new)) }
    ensures left { OnOk result (IfSome (S.left source.old) (λ input. LeavesWhole Command.Replay input disks.new)) }
    ensures own { IfErr result (IsFaultOf Command.Replay) }
    ensures handed { IfErr result (λ fault. IfSome (S.left source.old) (λ input. LeavesAt Command.Replay input disks.new fault)) }
    ensures stops { IfErr result (λ fault. IfSome (S.left source.old)
        (λ input. Stops Command.Replay input (S.left source.new) (K.written sink.old) (K.written sink.new) fault)) }
    ensures read { IfErr result (λ fault. status_of fault ≡ 4 → Rose (S.faults source.old) (S.faults source.new)) }
    ensures unwritten { IfErr result (λ fault. status_of fault ≡ 4 → Keeps (K.written sink.old) (K.written sink.new)) }
    ensures write { IfErr result (λ fault. status_of fault ≡ 5 → FailsToWrite (K.faults sink.old) (K.faults sink.new) (K.took_nothing sink.new)) }
    ensures bounded { TakesAtMost (S.left source.old) (S.left source.new) (most_taken_by Command.Replay) }
{
    match replay(alloc, source, sink, disks) {
        Ok(()) => Ok(()),
        Err(fault) => Err(RunFault::Replay(fault)),
    }
}

fn checked<S: Source, K: Sink>(alloc: Global, source: &mut S, sink: &mut K) -> Result<(), RunFault>
    ensures done { OnOk result (IfSome (S.left source.old) (λ input. Does Command.Check input (K.written sink.old) (K.written sink.new))) }
    ensures end { OnOk result (IsAtEnd (S.left source.new)) }
    ensures own { IfErr result (IsFaultOf Command.Check) }
    ensures stops { IfErr result (λ fault. IfSome (S.left source.old)
        (λ input. Stops Command.Check input (S.left source.new) (K.written sink.old) (K.written sink.new) fault)) }
    ensures read { IfErr result (λ fault. status_of fault ≡ 4 → Rose (S.faults source.old) (S.faults source.new)) }
    ensures unwritten { IfErr result (λ fault. status_of fault ≡ 4 → Keeps (K.written sink.old) (K.written sink.new)) }
    ensures write { IfErr result (λ fault. status_of fault ≡ 5 → FailsToWrite (K.faults sink.old) (K.faults sink.new) (K.took_nothing sink.new)) }
    ensures bounded { TakesAtMost (S.left source.old) (S.left source.new) (most_taken_by Command.Check) }
{
    match check(alloc, source, sink) {
        Ok(()) => Ok(()),
        Err(fault) => Err(RunFault::Check(fault)),
    }
}

fn listed<S: Source, K: Sink>(alloc: Global, source: &mut S, sink: &mut K) -> Result<(), RunFault>
    ensures done { OnOk result (IfSome (S.left source.old) (λ input. Does Command.Journal input (K.written sink.old) (K.written sink.new))) }
    ensures end { OnOk result (IsAtEnd (S.left source.new)) }
    ensures own { IfErr result (IsFaultOf Command.Journal) }
    ensures stops { IfErr result (λ fault. IfSome (S.left source.old)
        (λ input. Stops Command.Journal input (S.left source.new) (K.written sink.old) (K.written sink.new) fault)) }
    ensures read { IfErr result (λ fault. status_of fault ≡ 4 → Rose (S.faults source.old) (S.faults source.new)) }
    ensures unwritten { IfErr result (λ fault. status_of fault ≡ 4 → Keeps (K.written sink.old) (K.written sink.new)) }
    ensures write { IfErr result (λ fault. status_of fault ≡ 5 → FailsToWrite (K.faults sink.old) (K.faults sink.new) (K.took_nothing sink.new)) }
    ensures bounded { TakesAtMost (S.left source.old) (S.left source.new) (most_taken_by Command.Journal) }
{
    match journal(alloc, source, sink) {
        Ok(()) => Ok(()),
        Err(fault) => Err(RunFault::Journal(fault)),
    }
}
