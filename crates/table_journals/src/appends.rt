//! Appends to journals in memory, where every call goes well, fails, or meets a stop.
ghost use Rattle.std.specs.Prelude.{◌≡◌, ◌+◌, ◌≤◌, length, None, IsTrue};

use crate::shown::{IMAGES, disk_of, put_file};
use ba_journal::{Journal, JournalFault};
use ba_ports::{Disk, Faulty};
use ba_ports_memory::MemDisk;
use ba_record::Record;
use std::alloc::{AllocError, Global};

/// What came of loading a journal and appending three records: how many were there, how many were acknowledged, and the disk.
#[derive(Drop)]
struct Life {
    found: usize,
    acknowledged: usize,
    disk: MemDisk,
}

/// Appends three records, one after another: how many are acknowledged.
fn append_three<D: Disk>(journal: &mut Journal<D>) -> usize
    requires place { IsTrue (D.follows journal.old.disk) → journal.old.closed ≡ None → journal.old.gate + 1 ≡ length (D.seen journal.old.disk) }
{
    if journal.reserve(9).is_err() || journal.append(&Record::Asked(7)).is_err() {
        return 0;
    }
    if journal.append(&Record::Asked(8)).is_err() {
        return 1;
    }
    if journal.append(&Record::Asked(9)).is_err() {
        return 2;
    }
    3
}

/// Loads the journal on a disk and appends three records.
fn lived(alloc: Global, disk: MemDisk) -> Life {
    match Journal::load(alloc, disk) {
        Err((disk, _)) => Life {
            found: 0,
            acknowledged: 0,
            disk,
        },
        Ok((mut journal, records)) => {
            let acknowledged = append_three(&mut journal);
            Life {
                found: records.len(),
                acknowledged,
                disk: journal.into_disk(),
            }
        }
    }
}

/// Appends how many records a file has, how many of three more are acknowledged, and what it holds then.
pub fn put_append(alloc: Global, file: &[u8], out: &mut String) -> Result<(), AllocError> {
    let life = lived(alloc, disk_of(alloc, file)?);
    write!(out, "{} and {}, ", life.found, life.acknowledged)?;
    put_file(life.disk.bytes(), out)
}

// ---- stops

/// Appends what is acknowledged and what is found after a stop at each call.
pub fn put_stopped(alloc: Global, file: &[u8], out: &mut String) -> Result<(), AllocError> {
    let whole = lived(alloc, disk_of(alloc, file)?);
    for call in 1..100 {
        if !is_stopped_at(alloc, file, call)? {
            return Ok(());
        }
        write!(out, "{call}:")?;
        put_images(alloc, file, call, whole.found, out)?;
        out.push(';')?;
    }
    Ok(())
}

/// Whether there is a call with this number.
fn is_stopped_at(alloc: Global, file: &[u8], call: u32) -> Result<bool, AllocError> {
    let mut disk = disk_of(alloc, file)?;
    disk.stop_next(call, IMAGES[0]);
    let life = lived(alloc, disk);
    Ok(life.disk.stopped())
}

/// Appends what is acknowledged before a stop at a call, and what is found after it, for each image.
fn put_images(
    alloc: Global,
    file: &[u8],
    call: u32,
    before: usize,
    out: &mut String,
) -> Result<(), AllocError> {
    for image in IMAGES {
        let mut disk = disk_of(alloc, file)?;
        disk.stop_next(call, image);
        let mut stopped = lived(alloc, disk);
        stopped.disk.restart();
        let acknowledged = stopped.acknowledged;
        let again = lived(alloc, stopped.disk);
        write!(
            out,
            " {acknowledged}/{}",
            again.found.saturating_sub(before)
        )?;
        put_third(alloc, again, out)?;
    }
    Ok(())
}

/// Appends that three more records aren't found, where they aren't.
fn put_third(alloc: Global, second: Life, out: &mut String) -> Result<(), AllocError> {
    let expected = second.found.saturating_add(3);
    let third = lived(alloc, second.disk);
    if third.found == expected {
        return Ok(());
    }
    write!(out, " then {} in place of {expected}", third.found)
}

// ---- failures

/// What three appends answer of which one has a call that fails, and how often the disk has failed then.
#[derive(Drop)]
struct Answered {
    answers: [Result<(), JournalFault>; 3],
    faults: u64,
}

/// Appends what is answered where each call of three appends fails in turn.
pub fn put_failed(alloc: Global, file: &[u8], out: &mut String) -> Result<(), AllocError> {
    for call in 1..10 {
        write!(out, "{call}: ")?;
        match failing_at(alloc, disk_of(alloc, file)?, call) {
            None => out.push_str("not loaded;")?,
            Some(failing) => put_failing(&failing, out)?,
        }
    }
    Ok(())
}

/// Appends what three appends answer.
fn put_failing(failing: &Answered, out: &mut String) -> Result<(), AllocError> {
    for answer in failing.answers {
        put_answer(answer, out)?;
    }
    write!(out, "{} faults;", failing.faults)
}

/// Loads the journal on a disk, and appends three records with a call that fails.
fn failing_at(alloc: Global, disk: MemDisk, call: u32) -> Option<Answered> {
    match Journal::load(alloc, disk) {
        Err((_disk, _fault)) => None,
        Ok((mut journal, _records)) => {
            let answers = failing(&mut journal, call);
            let faults = journal.faults();
            let _disk = journal.into_disk();
            Some(Answered { answers, faults })
        }
    }
}

/// What three appends answer of which the first has a call that fails; before the third that is taken back.
fn failing<D: Faulty>(journal: &mut Journal<D>, call: u32) -> [Result<(), JournalFault>; 3]
    requires place { IsTrue (D.follows journal.old.disk) → journal.old.closed ≡ None → journal.old.gate + 1 ≡ length (D.seen journal.old.disk) }
{
    if journal.reserve(9).is_err() {
        return [Err(JournalFault::Memory); 3];
    }
    journal.fail_next(call);
    let first = journal.append(&Record::Asked(7));
    let second = journal.append(&Record::Asked(8));
    journal.disarm();
    let third = journal.append(&Record::Asked(9));
    [first, second, third]
}

/// Appends what an append answers.
fn put_answer(answer: Result<(), JournalFault>, out: &mut String) -> Result<(), AllocError> {
    match answer {
        Ok(()) => out.push_str("done, "),
        Err(fault) => write!(out, "{fault}, "),
    }
}
