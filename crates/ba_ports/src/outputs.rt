//! Output that goes to a sink or a link whole.
ghost use Rattle.std.specs.Prelude.{◌≡◌, ◌≤◌, ◌⊎◌, IsTrue, OnOk, OnErr};
ghost use Rattle.std.specs.Io.KnownBytes.{Appends, Keeps};
ghost use Rattle.ba_ports.specs.Causes.{Rose};
ghost use Rattle.ba_ports.specs.Outputs.{WritesPart};

use crate::failures::Failed;
use crate::links::Link;
use crate::sinks::Sink;
use thiserror::Error;

/// The sink failed, or took nothing of a piece that wasn't empty.
#[derive(Clone, Copy, Debug, PartialEq, Eq, Error)]
#[error("the output can't be written")]
pub struct NotWritten;

/// Writes all bytes. After an error a front of them was written.
pub fn write_all<K: Sink>(sink: &mut K, bytes: &[u8]) -> Result<(), NotWritten>
    ensures all { OnOk result (Appends (K.written sink.old) (K.written sink.new) bytes.now) }
    ensures part { OnErr result (WritesPart (K.written sink.old) (K.written sink.new) bytes.now) }
    ensures cause { OnErr result (Rose (K.faults sink.old) (K.faults sink.new) ⊎ IsTrue (K.took_nothing sink.new)) }
    ensures stayed { OnOk result (K.faults sink.new ≡ K.faults sink.old) }
    ensures later { K.faults sink.old ≤ K.faults sink.new }
{
    let mut at = 0;
    'pieces: while at < bytes.len() {
        match sink.write(&bytes[at..]) {
            Ok(0) => return Err(NotWritten),
            Ok(count) => at += count,
            Err(_) => return Err(NotWritten),
        }
    }
    Ok(())
}

/// Sends all bytes. After an error a front of them was sent.
pub fn send_all<L: Link>(link: &mut L, bytes: &[u8]) -> Result<(), Failed>
    ensures all { OnOk result (Appends (L.written link.old) (L.written link.new) bytes.now) }
    ensures part { OnErr result (WritesPart (L.written link.old) (L.written link.new) bytes.now) }
    ensures others { Keeps (L.left link.old) (L.left link.new) }
    ensures cause { OnErr result (Rose (L.faults link.old) (L.faults link.new)) }
    ensures stayed { OnOk result (L.faults link.new ≡ L.faults link.old) }
    ensures later { L.faults link.old ≤ L.faults link.new }
{
    let mut at = 0;
    'pieces: while at < bytes.len() {
        match link.write(&bytes[at..]) {
            Ok(0) => return Err(Failed),
            Ok(taken) => at += taken,
            Err(failed) => return Err(failed),
        }
    }
    Ok(())
}
