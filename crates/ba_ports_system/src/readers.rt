//! A reader of std as a source, which counts the reader's errors.
ghost use Rattle.std.specs.Prelude.{◌≡◌, OnOk, OnErr};
ghost use Rattle.std.specs.Io.{ReadsAtMost};
ghost use Rattle.std.specs.Io.KnownBytes.{ReadConsumes};
ghost use Rattle.ba_ports.specs.Causes.{CountsFailures};
ghost use Rattle.ba_ports.specs.Counts.{risen};

use ba_ports::{Failed, Source};
use std::io::Read;
use std::marker::Model;

/// A source that reads from a reader, one read of the reader for each of its own.
#[derive(Debug, Drop)]
pub struct ReadSource<R> {
    reader: R,
    faults: u64,
}

impl<R> Model for ReadSource<R> {
    ghost use Rattle.ba_ports_system.specs.ReadSourceState.{ReadSourceState};

    ghost Value = { ReadSourceState R };

    ghost view = { λ source. record { reader = source.reader; faults = source.faults } };
}

impl<R: Read> ReadSource<R> {
    /// A source over this reader, which has not failed yet.
    pub fn of(reader: R) -> ReadSource<R>
        ensures { result ≡ record { reader = reader; faults = 0 } }
    {
        ReadSource { reader, faults: 0 }
    }
}

impl<R: Read> Source for ReadSource<R> {
    ghost left = { λ source. R.remaining source.reader };

    ghost faults = { λ source. source.faults };

    fn read(&mut self, room: &mut [u8]) -> Result<usize, Failed>
        ensures bound { ReadsAtMost result room.new }
        ensures bytes { ReadConsumes (R.remaining self.old.reader) (R.remaining self.new.reader)
            result room.new }
        ensures cause { CountsFailures self.old.faults self.new.faults result }

        // What this source says beyond the trait.
        ensures ok { OnOk result (self.new.faults ≡ self.old.faults) }
        ensures err { OnErr result (self.new.faults ≡ risen self.old.faults) }
    {
        match self.reader.read(room) {
            Ok(count) => Ok(count),
            Err(_) => {
                self.faults = self.faults.saturating_add(1);
                Err(Failed)
            }
        }
    }

    fn faults(&self) -> u64 {
        self.faults
    }
}
