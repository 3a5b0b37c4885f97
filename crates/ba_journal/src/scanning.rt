//! Reads what a journal's file holds, and changes nothing.
ghost use Rattle.std.specs.Prelude.{◌≡◌, ◌+◌, ◌<◌, ◌^◌, ◌++◌, [], ◌∷◌, length, IfOk, IfErr, OnOk, Ok};
ghost use Rattle.ba_journal.specs.Scans.{Scans, Refuses, RefusesPayload};
ghost use Rattle.ba_record.specs.Reading.{reading};
ghost use Rattle.ba_record.specs.declared.records.Record.{Record};

use crate::frames::{HEADER, foreign_at, is_fresh, next_frame};
use crate::scans::{Scan, ScanFault};
use ba_core::List;
use ba_record::{Record, RecordFault, get};
use std::alloc::Global;

/// What the file holds: nothing yet, or the records that it stands for, with the place where reading
/// stopped and the number of bytes behind the gate there.
pub fn scan(alloc: Global, file: &[u8]) -> Result<Scan, ScanFault>
    ensures ok { IfOk result (Scans file.now) }
    ensures fault { IfErr result (Refuses file.now) }
{
    if is_fresh(file) {
        return Ok(Scan::Fresh);
    }
    if let Some(place) = foreign_at(file) {
        return Err(ScanFault::NotAJournal(place as u64));
    }
    let mut records: List<Record> = List::new(alloc);
    let mut rest = &file[HEADER.len()..];
    'frames: while let Some((payload, next)) = next_frame(rest) {
        let place = file.len() - rest.len() + 5;
        if let Err(fault) = take_in(alloc, place, payload, &mut records) {
            return Err(fault);
        }
        rest = next;
    }
    Ok(Scan::Found {
        records,
        end: (file.len() - rest.len()) as u64,
        tail: (rest.len() - 1) as u64,
    })
}

// Puts the record that a payload is last. The payload stands at this place of the file.
#[tactic(auto, using(crate::proofs::Leading::fault_within))]
pub fn take_in(
    alloc: Global,
    place: usize,
    payload: &[u8],
    records: &mut List<Record>,
) -> Result<(), ScanFault>
    requires { place + length payload.now < 2 ^ 64 }
    ensures ok { OnOk result ((r : Record) × (reading payload.now ≡ Ok r) × (records.new ≡ records.old ++ r ∷ [])) }
    ensures fault { IfErr result (RefusesPayload place payload.now) }
{
    match get(alloc, payload) {
        Ok(record) => put_last(records, record),
        Err(RecordFault::Memory) => Err(ScanFault::Memory),
        Err(RecordFault::BadKind) => Err(ScanFault::NotAJournal(place as u64)),
        Err(RecordFault::BadField(at)) => Err(ScanFault::NotAJournal(place as u64 + at)),
        Err(RecordFault::Short(at)) => Err(ScanFault::NotAJournal(place as u64 + at)),
    }
}

fn put_last(records: &mut List<Record>, last: Record) -> Result<(), ScanFault>
    ensures ok { OnOk result (records.new ≡ records.old ++ last ∷ []) }
    ensures fault { IfErr result (λ fault. fault ≡ ScanFault.Memory) }
{
    match records.push(last) {
        Ok(()) => Ok(()),
        Err(_) => Err(ScanFault::Memory),
    }
}
