//! Why a run ended early: its status, and the note that it leaves, which takes no memory.
ghost use Rattle.std.specs.Prelude.{◌≡◌, ◌≤◌, ◌++◌, OnOk, OnErr};
ghost use Rattle.std.specs.Io.KnownBytes.{Appends};
ghost use Rattle.ba.specs.Notes.{check_note, check_status, counted_text, counts_text, envelope_note, list_note, list_status};
ghost use Rattle.ba.specs.Notes.{message_note, note_text, reason_number, replay_note, replay_status, status_of};
ghost use Rattle.ba_ports.specs.Outputs.{WritesPart};
ghost use Rattle.ba_ports.specs.Whole.{FailsToWrite, WritesOrFails};

use ba_cmd_check::CheckFault;
use ba_cmd_journal::ListFault;
use ba_cmd_replay::ReplayFault;
use ba_ports::{NotWritten, Sink, write_all};
use ba_soap::SoapFault;
use ba_wire::WireFault;
use ba_xml::Reason;
use itoa::Buffer;
use thiserror::Error;

/// Why a run ended early.
#[derive(Clone, Copy, Debug, PartialEq, Eq, Error)]
pub enum RunFault {
    /// The words are no command line.
    #[error("usage")]
    Usage,
    /// The words can't be held.
    #[error("memory")]
    Memory,
    #[error("{0}")]
    Replay(ReplayFault),
    #[error("{0}")]
    Check(CheckFault),
    #[error("{0}")]
    Journal(ListFault),
}

/// Leaves the note of a run that ended early, and returns its status. Faults of the notes are ignored.
pub fn refuse<N: Sink>(fault: RunFault, notes: &mut N) -> u8
    ensures status { result ≡ status_of fault }
    ensures note { WritesOrFails (N.written notes.old) (N.written notes.new)
        (FailsToWrite (N.faults notes.old) (N.faults notes.new) (N.took_nothing notes.new)) (note_text fault) }
{
    let _ = write_note(fault, notes);
    status_of(fault)
}

// The note of a run that ended early.
fn write_note<N: Sink>(fault: RunFault, notes: &mut N) -> Result<(), NotWritten>
    ensures all { OnOk result (Appends (N.written notes.old) (N.written notes.new) (note_text fault)) }
    ensures part { OnErr result (WritesPart (N.written notes.old) (N.written notes.new) (note_text fault)) }
    ensures cause { OnErr result (FailsToWrite (N.faults notes.old) (N.faults notes.new) (N.took_nothing notes.new)) }
{
    match fault {
        RunFault::Usage => write_all(notes, b"usage\n"),
        RunFault::Memory => write_all(notes, b"memory\n"),
        RunFault::Replay(fault) => write_replay_note(fault, notes),
        RunFault::Check(fault) => write_check_note(fault, notes),
        RunFault::Journal(fault) => write_list_note(fault, notes),
    }
}

fn write_replay_note<N: Sink>(fault: ReplayFault, notes: &mut N) -> Result<(), NotWritten>
    ensures all { OnOk result (Appends (N.written notes.old) (N.written notes.new) (replay_note fault)) }
    ensures part { OnErr result (WritesPart (N.written notes.old) (N.written notes.new) (replay_note fault)) }
    ensures cause { OnErr result (FailsToWrite (N.faults notes.old) (N.faults notes.new) (N.took_nothing notes.new)) }
{
    match fault {
        ReplayFault::BadLine(number, column) => write_counts(
            b"line ",
            u64::from(number),
            b" column ",
            u64::from(column),
            notes,
        ),
        ReplayFault::NoSuchName(number) => write_line(
            b"line ",
            u64::from(number),
            b" no such name\n",
            notes,
        ),
        ReplayFault::NoSuchMessage(number) => write_line(
            b"line ",
            u64::from(number),
            b" no such message\n",
            notes,
        ),
        ReplayFault::Read => write_all(notes, b"read\n"),
        ReplayFault::Write => write_all(notes, b"write\n"),
        ReplayFault::Memory => write_all(notes, b"memory\n"),
        ReplayFault::TooManyLines => write_all(notes, b"limit\n"),
    }
}

fn write_check_note<N: Sink>(fault: CheckFault, notes: &mut N) -> Result<(), NotWritten>
    ensures all { OnOk result (Appends (N.written notes.old) (N.written notes.new) (check_note fault)) }
    ensures part { OnErr result (WritesPart (N.written notes.old) (N.written notes.new) (check_note fault)) }
    ensures cause { OnErr result (FailsToWrite (N.faults notes.old) (N.faults notes.new) (N.took_nothing notes.new)) }
{
    match fault {
        CheckFault::Refused(why) => write_message_note(why, notes),
        CheckFault::Read => write_all(notes, b"read\n"),
        CheckFault::Write => write_all(notes, b"write\n"),
        CheckFault::Memory => write_all(notes, b"memory\n"),
        CheckFault::TooLong | CheckFault::Unwritable => write_all(notes, b"limit\n"),
    }
}

fn write_message_note<N: Sink>(why: WireFault, notes: &mut N) -> Result<(), NotWritten>
    ensures all { OnOk result (Appends (N.written notes.old) (N.written notes.new) (message_note why)) }
    ensures part { OnErr result (WritesPart (N.written notes.old) (N.written notes.new) (message_note why)) }
    ensures cause { OnErr result (FailsToWrite (N.faults notes.old) (N.faults notes.new) (N.took_nothing notes.new)) }
{
    match why {
        WireFault::Xml { reason, place } => write_counts(
            b"xml ",
            reason_number(reason),
            b" at ",
            place,
            notes,
        ),
        WireFault::Soap(why) => write_all(notes, envelope_note(why)),
        WireFault::OnlyAnonymous => write_all(notes, b"wire 16\n"),
        WireFault::EprLimit(_) => write_all(notes, b"wire 18\n"),
        WireFault::ActionNotSupported => write_all(notes, b"wire 21\n"),
        WireFault::BodyMismatch(_) => write_all(notes, b"wire 22\n"),
        WireFault::Memory => write_all(notes, b"memory\n"),
    }
}

fn envelope_note(why: SoapFault) -> &'static [u8]
    ensures { result.now ≡ envelope_note why }
{
    match why {
        SoapFault::VersionMismatch => b"soap 11\n",
        SoapFault::MustUnderstand(_) => b"soap 12\n",
        SoapFault::NoBody => b"soap 13\n",
        SoapFault::HeaderRequired(_) => b"soap 14\n",
        SoapFault::InvalidHeader(_) => b"soap 15\n",
        SoapFault::Shape => b"soap 17\n",
        SoapFault::Memory => b"memory\n",
    }
}

fn write_list_note<N: Sink>(fault: ListFault, notes: &mut N) -> Result<(), NotWritten>
    ensures all { OnOk result (Appends (N.written notes.old) (N.written notes.new) (list_note fault)) }
    ensures part { OnErr result (WritesPart (N.written notes.old) (N.written notes.new) (list_note fault)) }
    ensures cause { OnErr result (FailsToWrite (N.faults notes.old) (N.faults notes.new) (N.took_nothing notes.new)) }
{
    match fault {
        ListFault::NoJournal(place) => write_line(b"journal at ", place, b"\n", notes),
        ListFault::Read => write_all(notes, b"read\n"),
        ListFault::Write => write_all(notes, b"write\n"),
        ListFault::Memory => write_all(notes, b"memory\n"),
        ListFault::TooLong => write_all(notes, b"limit\n"),
    }
}

// Two words, each with its number, on a line.
#[tactic(auto, using(ba_ports::proofs::Due::part_before))]
fn write_counts<N: Sink>(
    word: &[u8],
    number: u64,
    other: &[u8],
    count: u64,
    notes: &mut N,
) -> Result<(), NotWritten>
    ensures all { OnOk result (Appends (N.written notes.old) (N.written notes.new) (counts_text word.now number other.now count)) }
    ensures part { OnErr result (WritesPart (N.written notes.old) (N.written notes.new) (counts_text word.now number other.now count)) }
    ensures cause { OnErr result (FailsToWrite (N.faults notes.old) (N.faults notes.new) (N.took_nothing notes.new)) }
{
    write_counted(word, number, notes)?;
    write_line(other, count, b"\n", notes)
}

// A word, its number and how the line ends.
#[tactic(auto, using(ba_ports::proofs::Due::part_before))]
fn write_line<N: Sink>(
    word: &[u8],
    number: u64,
    end: &[u8],
    notes: &mut N,
) -> Result<(), NotWritten>
    ensures all { OnOk result (Appends (N.written notes.old) (N.written notes.new) (counted_text word.now number ++ end.now)) }
    ensures part { OnErr result (WritesPart (N.written notes.old) (N.written notes.new) (counted_text word.now number ++ end.now)) }
    ensures cause { OnErr result (FailsToWrite (N.faults notes.old) (N.faults notes.new) (N.took_nothing notes.new)) }
{
    write_counted(word, number, notes)?;
    write_all(notes, end)
}

// A word and its number.
#[tactic(auto, using(ba_ports::proofs::Due::part_before))]
fn write_counted<N: Sink>(word: &[u8], number: u64, notes: &mut N) -> Result<(), NotWritten>
    ensures all { OnOk result (Appends (N.written notes.old) (N.written notes.new) (counted_text word.now number)) }
    ensures part { OnErr result (WritesPart (N.written notes.old) (N.written notes.new) (counted_text word.now number)) }
    ensures cause { OnErr result (FailsToWrite (N.faults notes.old) (N.faults notes.new) (N.took_nothing notes.new)) }
    ensures later { N.faults notes.old ≤ N.faults notes.new }
{
    write_all(notes, word)?;
    write_all(notes, Buffer::new().format(number).as_bytes())
}

// The number of a reason.
fn reason_number(reason: Reason) -> u64
    ensures { result ≡ reason_number reason }
{
    reason as u64
}

// The status of a run that ended early.
fn status_of(fault: RunFault) -> u8
    ensures { result ≡ status_of fault }
{
    match fault {
        RunFault::Usage => 2,
        RunFault::Memory => 6,
        RunFault::Replay(fault) => replay_status(fault),
        RunFault::Check(fault) => check_status(fault),
        RunFault::Journal(fault) => list_status(fault),
    }
}

fn replay_status(fault: ReplayFault) -> u8
    ensures { result ≡ replay_status fault }
{
    match fault {
        ReplayFault::BadLine(_, _) | ReplayFault::NoSuchName(_) | ReplayFault::NoSuchMessage(_) =>
            3,
        ReplayFault::Read => 4,
        ReplayFault::Write => 5,
        ReplayFault::Memory => 6,
        ReplayFault::TooManyLines => 7,
    }
}

fn check_status(fault: CheckFault) -> u8
    ensures { result ≡ check_status fault }
{
    match fault {
        CheckFault::Refused(_) => 3,
        CheckFault::Read => 4,
        CheckFault::Write => 5,
        CheckFault::Memory => 6,
        CheckFault::TooLong | CheckFault::Unwritable => 7,
    }
}

fn list_status(fault: ListFault) -> u8
    ensures { result ≡ list_status fault }
{
    match fault {
        ListFault::NoJournal(_) => 3,
        ListFault::Read => 4,
        ListFault::Write => 5,
        ListFault::Memory => 6,
        ListFault::TooLong => 7,
    }
}
