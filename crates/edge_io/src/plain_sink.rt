//! Room in memory whose writes never fail.

ghost use Rattle.std.specs.Prelude.{◌≡◌, ◌≤◌, length, IfOk};

use seen_list::Memory;
use std::alloc::Global;
use std::marker::Model;

/// Room for bytes in memory, all taken at once. It takes each piece whole.
///
/// It is no `Sink`, since a caller must keep each piece within the room that is left.
#[derive(Drop)]
pub struct PlainSink {
    bytes: Vec<u8>,
    room: usize,
}

impl Model for PlainSink {
    ghost use Rattle.std.specs.{Prelude.◌+◌, Prelude.◌≤◌, Prelude.vec_len, Vec.vec_capacity};
    ghost use Rattle.edge_io.specs.PlainRoom.{PlainRoom};

    ghost Value = { PlainRoom };

    ghost view = { λ s. record { taken = s.bytes.items; room = s.room } };

    ghost invariant = { λ s. vec_len s.bytes + s.room ≤ vec_capacity s.bytes };
}

impl PlainSink {
    ghost use Rattle.edge_io.specs.PlainRoom.{untouched, after_write};

    /// Room for `room` bytes, all taken from memory here.
    pub fn new(alloc: Global, room: usize) -> Result<PlainSink, Memory>
        ensures { IfOk result (λ sink. sink ≡ untouched room) }
    {
        match Vec::with_capacity(alloc, room) {
            Ok(bytes) => Ok(PlainSink { bytes, room }),
            Err(_) => Err(Memory),
        }
    }

    /// The bytes taken so far.
    pub fn taken(&self) -> &[u8]
        ensures { result.now ≡ self.now.taken }
    {
        self.bytes.as_slice()
    }

    /// The number of bytes for which there is room left.
    pub fn room(&self) -> usize
        ensures { result ≡ self.now.room }
    {
        self.room
    }

    /// Takes the whole piece. It takes no memory.
    pub fn write(&mut self, piece: &[u8])
        requires { length piece.now ≤ self.old.room }
        ensures { self.new ≡ after_write self.old piece.now }
    {
        match self.bytes.extend_from_slice(piece) {
            Ok(()) => {}
            Err(_) => unreachable!(),
        }
        self.room -= piece.len();
    }
}
