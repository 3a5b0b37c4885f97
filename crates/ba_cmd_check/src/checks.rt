//! Reads one envelope, and prints the name of its message and the canonical text of what it says.
ghost use Rattle.std.specs.Prelude.{◌≡◌, ◌+◌, ◌≤◌, ◌++◌, length, IfOk, IfErr, IfSome, OnOk, OnErr, Err, IsTrue, codes};
ghost use Rattle.std.specs.Io.KnownBytes.{IsAtEnd, Keeps};
ghost use Rattle.ba_cmd_check.specs.Checks.{IsReport, MayBePrinted, StopsCheck, first_line, report_of};
ghost use Rattle.ba_cmd_check.specs.inside.Printing.{HasNoLines, HasNoReport, HasNoText, StopsPrint};
ghost use Rattle.ba_ports.specs.Causes.{Rose};
ghost use Rattle.ba_ports.specs.Inputs.{TakesAtMost};
ghost use Rattle.ba_ports.specs.Whole.{FailsToWrite, WritesOne};
ghost use Rattle.ba_wire.specs.Envelopes.{HasEnvelope, envelope_text, envelope_tree, is_known};
ghost use Rattle.ba_xml_writer.specs.OneText.{one_text};
ghost use Rattle.ba_xml_writer.specs.Writable.{IsWritable};

use ba_core::{List, Memory, Octets};
use ba_message::Message;
use ba_ports::{InputFault, NotWritten, Sink, Source, read_up_to, write_all};
use ba_tree::Tree;
use ba_wire::{Decoded, WireFault, decode, envelope_tree, is_known, message_name};
use ba_xml::{writable, write};
use std::alloc::Global;
use thiserror::Error;

/// A text that is checked has this many bytes at most.
pub const MOST_TEXT: usize = 262_144;

/// Why a check ended early.
#[derive(Clone, Copy, Debug, PartialEq, Eq, Error)]
pub enum CheckFault {
    #[error("memory")]
    Memory,
    #[error("read")]
    Read,
    #[error("write")]
    Write,
    /// The input is longer than a text may be.
    #[error("limit")]
    TooLong,
    /// The canonical text of what the input says goes past the limits of texts.
    #[error("limit")]
    Unwritable,
    /// The input is no message, for this reason.
    #[error("{0}")]
    Refused(WireFault),
}

impl From<Memory> for CheckFault {
    ghost use Rattle.std.specs.Prelude.{◌≡◌};
    ghost use Rattle.ba_cmd_check.specs.declared.checks.CheckFault.TheVariants as fault;

    ghost from_gives = { λ _ e. e ≡ fault.Memory };

    fn from(_e: Memory) -> CheckFault {
        CheckFault::Memory
    }
}

/// Reads one envelope, and prints the name of its message and, where the message names nothing that this project doesn't
/// know, the canonical text of what the envelope says, each on a line. Input past the limit isn't looked at.
pub fn check<S: Source, K: Sink>(
    alloc: Global,
    source: &mut S,
    sink: &mut K,
) -> Result<(), CheckFault>
    ensures done { OnOk result (IfSome (S.left source.old)
        (λ input. WritesOne (IsReport input) (K.written sink.old) (K.written sink.new))) }
    ensures end { OnOk result (IsAtEnd (S.left source.new)) }
    ensures stops { IfErr result (λ fault. IfSome (S.left source.old)
        (λ input. StopsCheck input (S.left source.new) (K.written sink.old) (K.written sink.new) fault)) }
    ensures read { (result ≡ Err CheckFault.Read) → Rose (S.faults source.old) (S.faults source.new) }
    ensures unwritten { (result ≡ Err CheckFault.Read) → Keeps (K.written sink.old) (K.written sink.new) }
    ensures write { (result ≡ Err CheckFault.Write) → FailsToWrite (K.faults sink.old) (K.faults sink.new) (K.took_nothing sink.new) }
    ensures source_stayed { OnOk result (S.faults source.new ≡ S.faults source.old) }
    ensures sink_stayed { (result ≡ Err CheckFault.Write → ⊥) → K.faults sink.new ≡ K.faults sink.old }
    ensures bounded { TakesAtMost (S.left source.old) (S.left source.new) (MOST_TEXT + 1) }
{
    match read_up_to(alloc, source, MOST_TEXT) {
        Ok(input) => print_report(alloc, input.as_slice(), sink),
        Err(InputFault::Memory) => Err(CheckFault::Memory),
        Err(InputFault::Read) => Err(CheckFault::Read),
        Err(InputFault::Limit) => Err(CheckFault::TooLong),
    }
}

// Prints the report of the message that the bytes mean.
fn print_report<K: Sink>(alloc: Global, bytes: &[u8], sink: &mut K) -> Result<(), CheckFault>
    ensures done { OnOk result (WritesOne (IsReport bytes.now) (K.written sink.old) (K.written sink.new)) }
    ensures stops { IfErr result (StopsPrint bytes.now (K.written sink.old) (K.written sink.new)) }
    ensures write { (result ≡ Err CheckFault.Write) → FailsToWrite (K.faults sink.old) (K.faults sink.new) (K.took_nothing sink.new) }
    ensures sink_stayed { (result ≡ Err CheckFault.Write → ⊥) → K.faults sink.new ≡ K.faults sink.old }
{
    match report(alloc, bytes) {
        Ok(report) => match write_all(sink, report.as_slice()) {
            Ok(()) => Ok(()),
            Err(NotWritten) => Err(CheckFault::Write),
        },
        Err(fault) => Err(fault),
    }
}

// The report of the message that the bytes mean.
fn report(alloc: Global, bytes: &[u8]) -> Result<Octets, CheckFault>
    ensures report { IfOk result (IsReport bytes.now) }
    ensures fault { IfErr result (HasNoReport bytes.now) }
{
    match decode(alloc, bytes) {
        Ok(decoded) => report_of(alloc, &decoded),
        Err(WireFault::Memory) => Err(CheckFault::Memory),
        Err(fault) => Err(CheckFault::Refused(fault)),
    }
}

// The report of a message.
fn report_of(alloc: Global, decoded: &Decoded) -> Result<Octets, CheckFault>
    requires { IsTrue (is_known decoded.now.message) → HasEnvelope decoded.now.route decoded.now.message }
    ensures report { IfOk result (λ report. report ≡ report_of decoded.now) }
    ensures writable { OnOk result (MayBePrinted decoded.now) }
    ensures fault { IfErr result (HasNoLines decoded.now) }
{
    let mut report = first_line(alloc, &decoded.message)?;
    if is_known(&decoded.message) {
        append_text(alloc, decoded, &mut report)?;
    }
    Ok(report)
}

fn first_line(alloc: Global, message: &Message) -> Result<Octets, Memory>
    ensures { IfOk result (λ line. line ≡ first_line message.now) }
{
    let mut line = List::new(alloc);
    line.append(b"message ")?;
    line.append(message_name(message))?;
    line.append(b"\n")?;
    Ok(line)
}

// Appends the canonical text of a message in its envelope and a line feed, where it keeps to the limits of texts.
fn append_text(alloc: Global, decoded: &Decoded, report: &mut Octets) -> Result<(), CheckFault>
    requires { HasEnvelope decoded.now.route decoded.now.message }
    ensures text { OnOk result (report.new ≡ report.old ++ (envelope_text decoded.now.route decoded.now.message ++ codes "\n")) }
    ensures writable { OnOk result (IsWritable (envelope_tree decoded.now.route decoded.now.message)) }
    ensures fault { IfErr result (HasNoText (envelope_tree decoded.now.route decoded.now.message)) }
{
    let tree = envelope_tree(alloc, &decoded.route, &decoded.message)?;
    append_tree(alloc, &tree, report)
}

// Appends the canonical text of a tree and a line feed, where it keeps to the limits of texts.
fn append_tree(alloc: Global, tree: &Tree, report: &mut Octets) -> Result<(), CheckFault>
    ensures text { OnOk result (report.new ≡ report.old ++ (one_text tree.now ++ codes "\n")) }
    ensures writable { OnOk result (IsWritable tree.now) }
    ensures fault { IfErr result (HasNoText tree.now) }
{
    if !writable(tree) {
        return Err(CheckFault::Unwritable);
    }
    match append_line(alloc, tree, report) {
        Ok(()) => Ok(()),
        Err(Memory) => Err(CheckFault::Memory),
    }
}

// Appends the canonical text of a tree and a line feed.
fn append_line(alloc: Global, tree: &Tree, report: &mut Octets) -> Result<(), Memory>
    ensures { OnOk result (report.new ≡ report.old ++ (one_text tree.now ++ codes "\n")) }
{
    write(alloc, tree, report)?;
    report.append(b"\n")?;
    Ok(())
}
