//! A connection in memory: a test chooses what the peer sends, and sees what is written to it.
ghost use Rattle.std.specs.Prelude.{◌≡◌, true, Some};
ghost use Rattle.std.specs.Io.{ReadsAtMost, WritesAtMost};
ghost use Rattle.std.specs.Io.KnownBytes.{ReadConsumes, WriteAppends};
ghost use Rattle.ba_ports.specs.Causes.{CountsFailedWrites, CountsFailures, Rose};
ghost use Rattle.ba_ports.specs.Streams.{takes_nothing};
ghost use Rattle.ba_ports_memory.specs.ScriptLinkState.{faults_after_read, faults_after_write};

use crate::outs::Out;
use crate::texts::Text;
use ba_ports::{Failed, Link, Sink, Source};
use std::marker::Model;

/// A connection over a text and an output in memory.
#[derive(Debug, Drop)]
pub struct ScriptLink {
    input: Text,
    output: Out,
    faults: u64,
}

impl Model for ScriptLink {
    ghost use Rattle.ba_ports_memory.specs.ScriptLinkState.{ScriptLinkState};

    ghost Value = { ScriptLinkState };

    ghost view = { λ link. record {
      input = link.input;
      output = link.output;
      faults = link.faults;
    } };
}

impl ScriptLink {
    /// A connection that reads from the one and writes to the other, and hasn't failed yet.
    pub fn of(input: Text, output: Out) -> ScriptLink
        ensures { result ≡ record { input = input; output = output; faults = 0 } }
    {
        ScriptLink {
            input,
            output,
            faults: 0,
        }
    }

    /// What is written to.
    pub fn output(&self) -> &Out
        ensures { result.now ≡ self.now.output }
    {
        &self.output
    }
}

impl Link for ScriptLink {
    ghost left = { λ link. Some link.input.left };

    ghost written = { λ link. Some link.output.bytes };

    ghost faults = { λ link. link.faults };

    fn read(&mut self, room: &mut [u8]) -> Result<usize, Failed>
        ensures bound { ReadsAtMost result room.new }
        ensures bytes { ReadConsumes (Some self.old.input.left) (Some self.new.input.left)
            result room.new }
        ensures others { self.new.output ≡ self.old.output }
        ensures cause { CountsFailures self.old.faults self.new.faults result }

        // What this link says beyond the trait.
        ensures count { self.new.faults ≡ faults_after_read self.old.faults result }
    {
        match self.input.read(room) {
            Ok(count) => Ok(count),
            Err(Failed) => {
                self.faults = self.faults.saturating_add(1);
                Err(Failed)
            }
        }
    }

    fn write(&mut self, piece: &[u8]) -> Result<usize, Failed>
        ensures bound { WritesAtMost result piece.now }
        ensures bytes { WriteAppends (Some self.old.output.bytes) (Some self.new.output.bytes)
            result piece.now }
        ensures others { self.new.input ≡ self.old.input }
        ensures nothing { takes_nothing result piece.now ≡ true
            → Rose self.old.faults self.new.faults }
        ensures cause { CountsFailedWrites self.old.faults self.new.faults (takes_nothing result piece.now) result }

        // What this link says beyond the trait.
        ensures count { self.new.faults ≡ faults_after_write self.old.faults result piece.now }
    {
        match self.output.write(piece) {
            Ok(count) => {
                if count == 0 && !piece.is_empty() {
                    self.faults = self.faults.saturating_add(1);
                }
                Ok(count)
            }
            Err(Failed) => {
                self.faults = self.faults.saturating_add(1);
                Err(Failed)
            }
        }
    }

    fn faults(&self) -> u64 {
        self.faults
    }
}
