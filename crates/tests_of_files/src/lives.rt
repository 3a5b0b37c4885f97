//! A journal in a file of the system, from its making on.

ghost use Rattle.std.specs.Prelude.{◌≡◌, ◌+◌, ◌≤◌, length, None, IsTrue};

use ba_core::Memory;
use ba_journal::Journal;
use ba_ports::Disk;
use ba_ports_system::FileDisk;
use ba_record::Record;
use std::alloc::Global;
use std::fs::{File, OpenOptions};
use std::test::Fail;
use std::{fs, io};

const PATH: &str = "ba_journal_life_test";

// How many of three records are acknowledged, one after another.
fn append_three<D: Disk>(journal: &mut Journal<D>) -> usize
    requires spare { 9 ≤ journal.old.spare }
    requires place { IsTrue (D.follows journal.old.disk) → journal.old.closed ≡ None → journal.old.gate + 1 ≡ length (D.seen journal.old.disk) }
{
    if journal.append(&Record::Asked(7)).is_err() {
        return 0;
    }
    if journal.append(&Record::Asked(8)).is_err() {
        return 1;
    }
    if journal.append(&Record::Asked(9)).is_err() {
        return 2;
    }
    3
}

// Loads a journal and appends three records: how many were there, how many were acknowledged, and the disk.
fn lived<D: Disk + Drop>(alloc: Global, disk: D) -> Result<(usize, usize, D), Memory> {
    match Journal::load(alloc, disk) {
        Err((disk, _)) => Ok((0, 0, disk)),
        Ok((mut journal, records)) => {
            journal.reserve(9)?;
            let count = append_three(&mut journal);
            Ok((records.len(), count, journal.into_disk()))
        }
    }
}

fn open(rt: &HostRuntime) -> io::Result<File> {
    let mut options = OpenOptions::new();
    options.read(true).write(true).create(true);
    options.open(rt, PATH)
}

#[test]
fn outlives_a_reopening(rt: HostRuntime) -> Result<(), Fail> {
    let alloc = rt.alloc();
    let _ = fs::remove_file(&rt, PATH);
    let (none, three, first) = lived(alloc, FileDisk::of(open(&rt)?))?;
    let _ = first;
    let (found, more, second) = lived(alloc, FileDisk::of(open(&rt)?))?;
    let _ = second;
    let bytes = fs::read(&rt, PATH)?;
    fs::remove_file(&rt, PATH)?;
    assert_eq!(rt; (none, three, found, more), (0, 3, 3, 3));
    // The header and a gate, and six frames of 14 bytes.
    assert_eq!(rt; bytes.len(), 101);
    Ok(())
}
