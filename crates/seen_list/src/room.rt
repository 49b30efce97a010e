//! Room for bytes that is taken once, and then filled without memory.

ghost use Rattle.std.specs.Prelude.{◌≡◌, ◌+◌, ◌<◌, ◌≤◌, [], ◌∷◌, ◌++◌, length, IfOk};
ghost use Rattle.seen_list.specs.Filling.{empty_room};

use crate::Memory;
use std::alloc::Global;
use std::marker::Model;

/// Bytes in order, and how many of them there is room for. A contract sees these two and nothing
/// else. The room stays as it was taken.
#[derive(Drop)]
pub struct Room {
    inner: Vec<u8>,
    room: usize,
}

impl Model for Room {
    ghost use Rattle.std.specs.{Prelude.◌≤◌, Prelude.vec_len, Vec.vec_capacity};
    ghost use Rattle.seen_list.specs.Filling.{Filling};

    ghost Value = { Filling };

    ghost view = { λ r. record { bytes = r.inner.items; room = r.room } };

    ghost invariant = { λ r. (vec_len r.inner ≤ r.room) × (r.room ≤ vec_capacity r.inner) };
}

impl Room {
    /// Room for `room` bytes, all of it taken here, with no bytes in it.
    pub fn new(alloc: Global, room: usize) -> Result<Room, Memory>
        ensures { IfOk result (λ filling. filling ≡ empty_room room) }
    {
        let inner = Vec::with_capacity(alloc, room)?;
        Ok(Room { inner, room })
    }

    /// The bytes so far.
    pub fn as_bytes(&self) -> &[u8]
        ensures { result.now ≡ self.now.bytes }
    {
        self.inner.as_slice()
    }

    /// How many bytes there is room for, in all.
    pub fn room(&self) -> usize
        ensures room { result ≡ self.now.room }
        ensures within { length self.now.bytes ≤ result }
    {
        self.room
    }

    /// Lets all the bytes go, and keeps the room.
    pub fn clear(&mut self)
        ensures { self.new ≡ record self.old { bytes = [] } }
    {
        self.inner.clear();
    }

    /// Adds a byte at the end.
    pub fn push(&mut self, byte: u8)
        requires { length self.old.bytes < self.old.room }
        ensures { self.new ≡ record self.old { bytes = self.old.bytes ++ byte ∷ [] } }
    {
        self.inner.push_reserved(byte);
    }

    /// Adds the whole piece at the end.
    pub fn push_bytes(&mut self, piece: &[u8])
        requires { length self.old.bytes + length piece.now ≤ self.old.room }
        ensures { self.new ≡ record self.old { bytes = self.old.bytes ++ piece.now } }
    {
        match self.inner.extend_from_slice(piece) {
            Ok(()) => {}
            Err(_) => unreachable!(),
        }
    }
}
