//! A TCP connection of the operating system as a link, which counts the system's errors. It says nothing of
//! what the peer sent, or of what was written.
ghost use Rattle.std.specs.Prelude.{◌≡◌, ◌≤◌, None, Ok, IfOk, OnErr, true, false};
ghost use Rattle.std.specs.Io.{ReadsAtMost, WritesAtMost};
ghost use Rattle.std.specs.Io.KnownBytes.{ReadConsumes, WriteAppends};
ghost use Rattle.ba_ports.specs.Causes.{CountsFailedWrites, CountsFailures, Rose};
ghost use Rattle.ba_ports.specs.Counts.{risen};
ghost use Rattle.ba_ports.specs.Streams.{takes_nothing};

use ba_ports::{Failed, Link};
use std::io;
use std::io::{Read, Write};
use std::marker::Model;
use std::net::OpenStream;
use std::time::Duration;

/// An open connection. Contracts see its count of faults alone.
#[derive(Drop)]
pub struct TcpLink<S> {
    stream: S,
    faults: u64,
}

impl<S> Model for TcpLink<S> {
    ghost use Rattle.std.specs.Prelude.{ℕ};

    ghost Value = { ℕ };

    ghost view = { λ link. link.faults };
}

impl<S: Read + Write + OpenStream + Drop> TcpLink<S> {
    /// A link over this stream, which has not failed yet. A read or a write of it that waits longer than the limit
    /// fails. An error says that the system didn't take the limit, as it doesn't take one of no time.
    pub fn of(stream: S, limit: Duration) -> io::Result<TcpLink<S>>
        ensures { IfOk result (λ link. link ≡ 0) }
    {
        stream.set_read_timeout(Some(limit))?;
        stream.set_write_timeout(Some(limit))?;
        Ok(TcpLink { stream, faults: 0 })
    }
}

impl<S: Read + Write + OpenStream + Drop> Link for TcpLink<S> {
    ghost left = { λ _. None };

    ghost written = { λ _. None };

    ghost faults = { λ faults. faults };

    fn read(&mut self, room: &mut [u8]) -> Result<usize, Failed>
        ensures bound { ReadsAtMost result room.new }
        ensures bytes { ReadConsumes None None result room.new }
        ensures others { Unit {0} }
        ensures cause { CountsFailures self.old self.new result }

        // What this link says beyond the trait.
        ensures ok { IfOk result (λ n. self.new ≡ self.old) }
        ensures err { OnErr result (self.new ≡ risen self.old) }
    {
        match self.stream.read(room) {
            Ok(count) => Ok(count),
            Err(_) => {
                self.faults = self.faults.saturating_add(1);
                Err(Failed)
            }
        }
    }

    fn write(&mut self, piece: &[u8]) -> Result<usize, Failed>
        ensures bound { WritesAtMost result piece.now }
        ensures bytes { WriteAppends None None result piece.now }
        ensures others { Unit {0} }
        ensures nothing { takes_nothing result piece.now ≡ true → Rose self.old self.new }
        ensures cause { CountsFailedWrites self.old self.new (takes_nothing result piece.now) result }

        // What this link says beyond the trait.
        ensures ok { IfOk result (λ n. takes_nothing result piece.now ≡ false → self.new ≡ self.old) }
        ensures err { OnErr result (self.new ≡ risen self.old) }
    {
        match self.stream.write(piece) {
            Ok(count) => {
                if count == 0 && !piece.is_empty() {
                    self.faults = self.faults.saturating_add(1);
                }
                Ok(count)
            }
            Err(_) => {
                self.faults = self.faults.saturating_add(1);
                Err(Failed)
            }
        }
    }

    fn faults(&self) -> u64 {
        self.faults
    }
}
