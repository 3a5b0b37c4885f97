//! A writer of std as a sink, which counts the writer's errors.
ghost use Rattle.std.specs.Prelude.{◌≡◌, false, OnOk, OnErr};
ghost use Rattle.std.specs.Io.{WritesAtMost};
ghost use Rattle.std.specs.Io.KnownBytes.{WriteAppends};
ghost use Rattle.ba_ports.specs.Causes.{CountsFailedWrites};
ghost use Rattle.ba_ports.specs.Counts.{risen};
ghost use Rattle.ba_ports.specs.Streams.{takes_nothing};

use ba_ports::{Failed, Sink};
use std::io::Write;
use std::marker::Model;

/// A sink that writes to a writer, one write of the writer for each of its own. It flushes nothing:
/// a writer that keeps bytes back goes on doing so, and the standard streams keep none.
#[derive(Debug, Drop)]
pub struct WriteSink<W> {
    writer: W,
    faults: u64,
    took_nothing: bool,
}

impl<W> Model for WriteSink<W> {
    ghost use Rattle.ba_ports_system.specs.WriteSinkState.{WriteSinkState};

    ghost Value = { WriteSinkState W };

    ghost view = { λ sink. record {
      writer = sink.writer;
      faults = sink.faults;
      took_nothing = sink.took_nothing;
    } };
}

impl<W: Write> WriteSink<W> {
    /// A sink over this writer, which has not failed yet.
    pub fn of(writer: W) -> WriteSink<W>
        ensures { result ≡ record { writer = writer; faults = 0; took_nothing = false } }
    {
        WriteSink {
            writer,
            faults: 0,
            took_nothing: false,
        }
    }
}

impl<W: Write> Sink for WriteSink<W> {
    ghost written = { λ sink. W.contents sink.writer };

    ghost faults = { λ sink. sink.faults };

    ghost took_nothing = { λ sink. sink.took_nothing };

    fn write(&mut self, piece: &[u8]) -> Result<usize, Failed>
        ensures bound { WritesAtMost result piece.now }
        ensures bytes { WriteAppends (W.contents self.old.writer) (W.contents self.new.writer)
            result piece.now }
        ensures nothing { self.new.took_nothing ≡ takes_nothing result piece.now }
        ensures cause { CountsFailedWrites self.old.faults self.new.faults (takes_nothing result piece.now) result }

        // What this sink says beyond the trait.
        ensures ok { OnOk result (self.new.faults ≡ self.old.faults) }
        ensures err { OnErr result (self.new.faults ≡ risen self.old.faults) }
    {
        match self.writer.write(piece) {
            Ok(count) => {
                self.took_nothing = count == 0 && !piece.is_empty();
                Ok(count)
            }
            Err(_) => {
                self.took_nothing = false;
                self.faults = self.faults.saturating_add(1);
                Err(Failed)
            }
        }
    }

    fn faults(&self) -> u64 {
        self.faults
    }
}
