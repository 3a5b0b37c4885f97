//! A row of bytes whose memory is taken beforehand.
ghost use Rattle.std.specs.Prelude.{◌≡◌, [], length, max, OnOk, OnErr};
ghost use Rattle.ba_record.specs.Rooms.{RoomValue, filled};

use ba_core::Memory;
use std::alloc::Global;
use std::marker::Model;

/// Bytes, and room for so many. Bytes for which no room is left aren't kept, so that putting them in takes no memory.
#[derive(Debug, Drop)]
pub struct Room {
    bytes: Vec<u8>,
    size: usize,
}

impl Model for Room {
    ghost use Rattle.std.specs.Prelude.{◌≤◌, length, vec_capacity};
    ghost use Rattle.ba_record.specs.Rooms.{RoomValue};

    ghost Value = { RoomValue };

    ghost view = { λ room. record { bytes = room.bytes.items; size = room.size } };

    ghost invariant = { λ room. (length room.bytes.items ≤ room.size) × (room.size ≤ vec_capacity room.bytes) };
}

impl Room {
    /// No bytes, and room for none.
    pub fn new(alloc: Global) -> Room
        ensures { result ≡ record { bytes = []; size = 0 } }
    {
        Room {
            bytes: Vec::new(alloc),
            size: 0,
        }
    }

    /// Takes room for so many bytes in all, those that it keeps among them. After `Memory` nothing has changed.
    pub fn reserve(&mut self, size: u64) -> Result<(), Memory>
        ensures ok { OnOk result (self.new ≡ record self.old { size = max self.old.size size }) }
        ensures err { OnErr result (self.new ≡ self.old) }
    {
        let size = size as usize;
        if size <= self.size {
            return Ok(());
        }
        match self.bytes.reserve(size - self.bytes.len()) {
            Ok(()) => {
                self.size = size;
                Ok(())
            }
            Err(_) => Err(Memory),
        }
    }

    /// Puts bytes last, and leaves out those for which no room is left.
    pub fn put_bytes(&mut self, bytes: &[u8])
        ensures { self.new ≡ filled self.old bytes.now }
    {
        let left = self.size - self.bytes.len();
        let kept = &bytes[..left.min(bytes.len())];
        // The room was taken beforehand, so this doesn't fail.
        let _ = self.bytes.extend_from_slice(kept);
    }

    /// Takes all bytes out, and keeps the room.
    pub fn clear(&mut self)
        ensures { self.new ≡ record self.old { bytes = [] } }
    {
        self.bytes.clear();
    }

    /// The bytes that it keeps.
    pub fn as_slice(&self) -> &[u8]
        ensures { result.now ≡ self.now.bytes }
    {
        self.bytes.as_slice()
    }
}
