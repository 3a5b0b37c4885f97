//! Reads a journal's file, and prints its listing.
ghost use Rattle.std.specs.Prelude.{◌≡◌, ◌+◌, IfOk, IfErr, IfSome, OnOk, Err};
ghost use Rattle.std.specs.Io.KnownBytes.{IsAtEnd, Keeps};
ghost use Rattle.ba_cmd_journal.specs.Journals.{IsListing, StopsListing};
ghost use Rattle.ba_cmd_journal.specs.Listing.{listing};
ghost use Rattle.ba_cmd_journal.specs.inside.Printing.{HasNoListing, StopsPrinting};
ghost use Rattle.ba_ports.specs.Causes.{Rose};
ghost use Rattle.ba_ports.specs.Inputs.{TakesAtMost};
ghost use Rattle.ba_ports.specs.Whole.{FailsToWrite, WritesOne};

use crate::lines::list;
use ba_core::{Memory, Octets};
use ba_journal::{Scan, ScanFault, scan};
use ba_ports::{InputFault, NotWritten, Sink, Source, read_up_to, write_all};
use std::alloc::Global;
use thiserror::Error;

/// A journal's file that is listed has this many bytes at most.
pub const MOST_FILE: usize = 67_108_864;

/// Why a listing ended early. Its text is the note of a command that ended so.
#[derive(Clone, Copy, Debug, PartialEq, Eq, Error)]
pub enum ListFault {
    #[error("memory")]
    Memory,
    #[error("read")]
    Read,
    #[error("write")]
    Write,
    /// The input is longer than a file that is listed may be.
    #[error("limit")]
    TooLong,
    /// The input is no journal's file, which shows at this place.
    #[error("journal at {0}")]
    NoJournal(u64),
}

/// Reads a journal's file, and prints its listing. Input past the limit isn't looked at.
pub fn journal<S: Source, K: Sink>(
    alloc: Global,
    source: &mut S,
    sink: &mut K,
) -> Result<(), ListFault>
    ensures done { OnOk result (IfSome (S.left source.old)
        (λ input. WritesOne (IsListing input) (K.written sink.old) (K.written sink.new))) }
    ensures end { OnOk result (IsAtEnd (S.left source.new)) }
    ensures stops { IfErr result (λ fault. IfSome (S.left source.old)
        (λ input. StopsListing input (S.left source.new) (K.written sink.old) (K.written sink.new) fault)) }
    ensures read { (result ≡ Err ListFault.Read) → Rose (S.faults source.old) (S.faults source.new) }
    ensures unwritten { (result ≡ Err ListFault.Read) → Keeps (K.written sink.old) (K.written sink.new) }
    ensures write { (result ≡ Err ListFault.Write) → FailsToWrite (K.faults sink.old) (K.faults sink.new) (K.took_nothing sink.new) }
    ensures source_stayed { OnOk result (S.faults source.new ≡ S.faults source.old) }
    ensures sink_stayed { (result ≡ Err ListFault.Write → ⊥) → K.faults sink.new ≡ K.faults sink.old }
    ensures bounded { TakesAtMost (S.left source.old) (S.left source.new) (MOST_FILE + 1) }
{
    match read_up_to(alloc, source, MOST_FILE) {
        Ok(file) => print_listing(alloc, file.as_slice(), sink),
        Err(InputFault::Memory) => Err(ListFault::Memory),
        Err(InputFault::Read) => Err(ListFault::Read),
        Err(InputFault::Limit) => Err(ListFault::TooLong),
    }
}

// Prints the listing of a journal's file.
fn print_listing<K: Sink>(alloc: Global, file: &[u8], sink: &mut K) -> Result<(), ListFault>
    ensures done { OnOk result (WritesOne (IsListing file.now) (K.written sink.old) (K.written sink.new)) }
    ensures stops { IfErr result (StopsPrinting file.now (K.written sink.old) (K.written sink.new)) }
    ensures write { (result ≡ Err ListFault.Write) → FailsToWrite (K.faults sink.old) (K.faults sink.new) (K.took_nothing sink.new) }
    ensures sink_stayed { (result ≡ Err ListFault.Write → ⊥) → K.faults sink.new ≡ K.faults sink.old }
{
    match listing_in(alloc, file) {
        Ok(text) => match write_all(sink, text.as_slice()) {
            Ok(()) => Ok(()),
            Err(NotWritten) => Err(ListFault::Write),
        },
        Err(fault) => Err(fault),
    }
}

// The listing of a journal's file.
fn listing_in(alloc: Global, file: &[u8]) -> Result<Octets, ListFault>
    ensures text { IfOk result (IsListing file.now) }
    ensures fault { IfErr result (HasNoListing file.now) }
{
    match scan(alloc, file) {
        Ok(found) => listing_of(alloc, &found),
        Err(ScanFault::Memory) => Err(ListFault::Memory),
        Err(ScanFault::NotAJournal(place)) => Err(ListFault::NoJournal(place)),
    }
}

// The listing of what a file holds.
fn listing_of(alloc: Global, found: &Scan) -> Result<Octets, ListFault>
    ensures text { IfOk result (λ text. text ≡ listing found.now) }
    ensures fault { IfErr result (λ fault. fault ≡ ListFault.Memory) }
{
    let mut text = Octets::new(alloc);
    match list(alloc, found, &mut text) {
        Ok(()) => Ok(text),
        Err(Memory) => Err(ListFault::Memory),
    }
}
