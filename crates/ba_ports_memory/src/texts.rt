//! A source in memory: a test chooses the bytes, how many a read gives, and which reads fail.
ghost use Rattle.std.specs.Prelude.{◌≡◌, ◌↔◌, ◌≤◌, ◌++◌, length, take, drop, IsErr, IfOk, OnErr, Some};
ghost use Rattle.std.specs.Io.{ReadsAtMost};
ghost use Rattle.std.specs.Io.KnownBytes.{ReadConsumes};
ghost use Rattle.ba_ports.specs.Causes.{CountsFailures};
ghost use Rattle.ba_ports.specs.Counts.{FailsNext};
ghost use Rattle.ba_ports_memory.specs.TextState.{given_count, after_read, after_failed_read};

use crate::calls::Calls;
use ba_core::{List, Octets};
use ba_ports::{Failed, Source};
use std::marker::Model;

/// A source over bytes in memory.
#[derive(Debug, Drop)]
pub struct Text {
    bytes: Octets,
    at: usize,
    most: usize,
    calls: Calls,
}

impl Model for Text {
    ghost use Rattle.std.specs.Prelude.{◌≤◌, length, drop};
    ghost use Rattle.ba_ports_memory.specs.TextState.{TextState};

    ghost Value = { TextState };

    ghost view = { λ text. record {
      left = drop text.at text.bytes;
      most = text.most;
      calls = text.calls.number;
      fails = text.calls.fails;
      faults = text.calls.faults;
    } };

    ghost invariant = { λ text. (text.at ≤ length text.bytes) × (1 ≤ text.most) };
}

impl Text {
    /// A source of these bytes. A read gives at most `most`, and the reads whose numbers are in
    /// `fails`, counted from 1, fail.
    pub fn of(bytes: Octets, most: usize, fails: List<u64>) -> Text
        requires { 1 ≤ most }
        ensures { result ≡ record {
          left = bytes;
          most = most;
          calls = 0;
          fails = fails;
          faults = 0;
        } }
    {
        Text {
            bytes,
            at: 0,
            most,
            calls: Calls::of(fails),
        }
    }
}

impl Source for Text {
    ghost left = { λ text. Some text.left };

    ghost faults = { λ text. text.faults };

    fn read(&mut self, room: &mut [u8]) -> Result<usize, Failed>
        ensures bound { ReadsAtMost result room.new }
        ensures bytes { ReadConsumes (Some self.old.left) (Some self.new.left) result room.new }
        ensures cause { CountsFailures self.old.faults self.new.faults result }

        // What this source says beyond the trait.
        ensures fails { IsErr result ↔ FailsNext self.old.fails self.old.calls }
        ensures count { IfOk result (λ n. n ≡ given_count self.old (length room.old)) }
        ensures given { IfOk result (λ n. room.new ≡ take n self.old.left ++ drop n room.old) }
        ensures ok { IfOk result (λ n. self.new ≡ after_read self.old n) }
        ensures err { OnErr result (self.new ≡ after_failed_read self.old) }
        ensures kept { OnErr result (room.new ≡ room.old) }
    {
        self.calls.begin()?;
        let left = &self.bytes.as_slice()[self.at..];
        let count = self.most.min(room.len()).min(left.len());
        room[..count].copy_from_slice(&left[..count]);
        self.at += count;
        Ok(count)
    }

    fn faults(&self) -> u64 {
        self.calls.faults
    }
}
