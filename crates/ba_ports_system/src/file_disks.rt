//! A file of the operating system as a disk, which counts the system's errors. It doesn't say that it
//! follows the disk model, and tells nothing of its content.
ghost use Rattle.std.specs.Prelude.{◌≡◌, false, [], None, Ok, IfOk, OnOk, OnErr};
ghost use Rattle.ba_ports.specs.Causes.{HasCause};
ghost use Rattle.ba_ports.specs.Counts.{risen};

use ba_ports::{Disk, Failed};
use std::fs::File;
use std::io;
use std::marker::Model;
use std::os::unix::fs::FileExt;

/// An open file, for reading and writing. Contracts see its count of faults alone.
#[derive(Drop)]
pub struct FileDisk {
    file: File,
    faults: u64,
}

impl Model for FileDisk {
    ghost use Rattle.std.specs.Prelude.{ℕ};

    ghost Value = { ℕ };

    ghost view = { λ disk. disk.faults };
}

impl FileDisk {
    /// A disk over this file, which has not failed yet.
    pub fn of(file: File) -> FileDisk
        ensures { result ≡ 0 }
    {
        FileDisk { file, faults: 0 }
    }
}

impl Disk for FileDisk {
    ghost follows = { λ _. false };

    ghost seen = { λ _. [] };

    ghost may_leave = { λ _ _. Unit {0} };

    ghost later = { λ _ _. Unit {0} };

    ghost left_between = { λ _ _ _. Unit {0} };

    ghost calls = { λ _. None };

    ghost driven = { λ _ _ _. Unit {0} };

    ghost faults = { λ faults. faults };

    ghost seen_may_stay = { λ disk follows. tt };

    ghost no_call = { λ disk. tt };

    ghost call_after_call = { λ a b c first second. tt };

    ghost counts_now = { λ a b c later left. tt };

    ghost only_now = { λ disk c left. tt };

    ghost widens = { λ a b c d left first second third some. tt };

    ghost driven_by_none = { λ disk. tt };

    ghost driven_on = { λ a b c first second before behind. tt };

    ghost listed = { λ a b made driven. tt };

    fn len(&mut self) -> Result<u64, Failed> {
        let answer = self.file.metadata();
        match count(&mut self.faults, answer) {
            Ok(metadata) => Ok(metadata.len()),
            Err(failed) => Err(failed),
        }
    }

    fn read_at(&mut self, place: u64, room: &mut [u8]) -> Result<usize, Failed> {
        let answer = self.file.read_at(room, place);
        count(&mut self.faults, answer)
    }

    fn write_at(&mut self, place: u64, piece: &[u8]) -> Result<(), Failed> {
        let answer = write_all(&self.file, place, piece);
        count(&mut self.faults, answer)
    }

    fn cut(&mut self, len: u64) -> Result<(), Failed> {
        let answer = self.file.set_len(len);
        count(&mut self.faults, answer)
    }

    /// Waits for the content, and not for the file's times.
    fn sync(&mut self) -> Result<(), Failed> {
        let answer = self.file.sync_data();
        count(&mut self.faults, answer)
    }

    fn faults(&self) -> u64 {
        self.faults
    }
}

/// Writes all of the piece. One that would end past the greatest u64 is an error.
fn write_all(file: &File, place: u64, piece: &[u8]) -> io::Result<()> {
    if place.checked_add(piece.len() as u64).is_none() {
        return Err(io::Error::from(io::ErrorKind::InvalidInput));
    }
    file.write_all_at(piece, place)
}

/// An error counts as a fault.
fn count<T: Drop>(faults: &mut u64, answer: io::Result<T>) -> Result<T, Failed>
    ensures same { IfOk result (λ value. answer ≡ Ok value) }
    ensures cause { HasCause faults.old faults.new result }
    ensures ok { OnOk result (faults.new ≡ faults.old) }
    ensures err { OnErr result (faults.new ≡ risen faults.old) }
{
    match answer {
        Ok(value) => Ok(value),
        Err(_) => {
            *faults = faults.saturating_add(1);
            Err(Failed)
        }
    }
}
