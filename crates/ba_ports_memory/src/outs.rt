//! A sink in memory: a test sees what was written, and chooses where a write fails or finds no room.
ghost use Rattle.std.specs.Prelude.{◌≡◌, ◌≤◌, [], length, false, IsErr, IfOk, OnErr, Some, Ok};
ghost use Rattle.std.specs.Io.{WritesAtMost};
ghost use Rattle.std.specs.Io.KnownBytes.{WriteAppends};
ghost use Rattle.ba_ports.specs.Causes.{CountsFailedWrites};
ghost use Rattle.ba_ports.specs.Counts.{FailsNext};
ghost use Rattle.ba_ports_memory.specs.OutState.{taken_count, after_write, after_failed_write};
ghost use Rattle.ba_ports.specs.Streams.{takes_nothing};

use crate::calls::Calls;
use ba_core::{List, Octets};
use ba_ports::{Failed, Sink};
use std::alloc::Global;
use std::marker::Model;

/// A sink that keeps what is written in memory.
#[derive(Debug, Drop)]
pub struct Out {
    bytes: Octets,
    room: u64,
    calls: Calls,
    took_nothing: bool,
}

impl Model for Out {
    ghost use Rattle.std.specs.Prelude.{◌≤◌, length};
    ghost use Rattle.ba_ports_memory.specs.OutState.{OutState};

    ghost Value = { OutState };

    ghost view = { λ out. record {
      bytes = out.bytes;
      room = out.room;
      calls = out.calls.number;
      fails = out.calls.fails;
      faults = out.calls.faults;
      took_nothing = out.took_nothing;
    } };

    ghost invariant = { λ out. length out.bytes ≤ out.room };
}

impl Out {
    /// A sink that takes `room` bytes in all. The writes whose numbers are in `fails`, counted from
    /// 1, fail.
    pub fn of(alloc: Global, room: u64, fails: List<u64>) -> Out
        ensures { result ≡ record {
          bytes = [];
          room = room;
          calls = 0;
          fails = fails;
          faults = 0;
          took_nothing = false;
        } }
    {
        Out {
            bytes: List::new(alloc),
            room,
            calls: Calls::of(fails),
            took_nothing: false,
        }
    }

    /// What was written.
    pub fn bytes(&self) -> &[u8]
        ensures { result.now ≡ self.now.bytes }
    {
        self.bytes.as_slice()
    }
}

impl Sink for Out {
    ghost written = { λ out. Some out.bytes };

    ghost faults = { λ out. out.faults };

    ghost took_nothing = { λ out. out.took_nothing };

    /// A write that finds no memory fails too.
    fn write(&mut self, piece: &[u8]) -> Result<usize, Failed>
        ensures bound { WritesAtMost result piece.now }
        ensures bytes { WriteAppends (Some self.old.bytes) (Some self.new.bytes) result piece.now }
        ensures nothing { self.new.took_nothing ≡ takes_nothing result piece.now }
        ensures cause { CountsFailedWrites self.old.faults self.new.faults (takes_nothing result piece.now) result }

        // What this sink says beyond the trait.
        ensures fails { FailsNext self.old.fails self.old.calls → IsErr result }
        ensures full { ¬ FailsNext self.old.fails self.old.calls →
            taken_count self.old (length piece.now) ≡ 0 → result ≡ Ok 0 }
        ensures count { IfOk result (λ n. n ≡ taken_count self.old (length piece.now)) }
        ensures within { length self.new.bytes ≤ self.new.room }
        ensures ok { IfOk result (λ n. self.new ≡ after_write self.old piece.now n) }
        ensures err { OnErr result (self.new ≡ after_failed_write self.old) }
    {
        self.took_nothing = false;
        self.calls.begin()?;
        let space = self.room - self.bytes.len() as u64;
        let count = space.min(piece.len() as u64) as usize;
        if count == 0 {
            self.took_nothing = !piece.is_empty();
            return Ok(0);
        }
        match self.bytes.append(&piece[..count]) {
            Ok(()) => Ok(count),
            Err(_) => Err(self.calls.fail()),
        }
    }

    fn faults(&self) -> u64 {
        self.calls.faults
    }
}
