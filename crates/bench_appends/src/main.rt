//! Appends records to the journal in a file, to be timed by hand. The words are the file's path and how many records.
#![tactic(auto)]

use ba_journal::{Journal, JournalFault};
use ba_ports_system::FileDisk;
use ba_record::Record;
use std::env;
use std::fs::{File, OpenOptions};
use std::process::ExitCode;

fn main(rt: HostRuntime) -> ExitCode {
    match asked(&rt) {
        Some((file, count)) => match append_all(&rt, file, count) {
            Ok(()) => ExitCode::SUCCESS,
            Err(_) => ExitCode::FAILURE,
        },
        None => ExitCode::FAILURE,
    }
}

// The file, which is made where it isn't there, and the number of records.
fn asked(rt: &HostRuntime) -> Option<(File, u64)> {
    let mut words = env::args(rt).ok()?.skip(1);
    let path = words.next()?;
    let count = words.next()?.parse::<u64>().ok()?;
    let mut options = OpenOptions::new();
    options.read(true).write(true).create(true);
    let file = options.open(rt, path.as_str()).ok()?;
    Some((file, count))
}

fn append_all(rt: &HostRuntime, file: File, count: u64) -> Result<(), JournalFault> {
    match Journal::load(rt.alloc(), FileDisk::of(file)) {
        Ok((mut journal, _)) => append_each(&mut journal, count),
        Err((_, fault)) => Err(fault),
    }
}

fn append_each(journal: &mut Journal<FileDisk>, count: u64) -> Result<(), JournalFault> {
    for counter in 1..=count {
        if journal.reserve(9).is_err() {
            return Err(JournalFault::Memory);
        }
        journal.append(&Record::Asked(counter))?;
    }
    Ok(())
}
