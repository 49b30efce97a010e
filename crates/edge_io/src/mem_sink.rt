//! A sink with room in memory, with calls that fail by their number.

ghost use Rattle.std.specs.Prelude.{◌≡◌, ◌≤◌, ◌<◌, Some, length, IfOk, is_err, MatchResult};

use crate::counts::raise;
use crate::script::Script;
use crate::{Failed, PlainSink, Sink};
use seen_list::{List, Memory};
use std::alloc::Global;
use std::marker::Model;

/// Room for bytes in memory, of which one call takes at most so many.
#[derive(Drop)]
pub struct MemSink {
    plain: PlainSink,
    most: usize,
    script: Script,
    faults: u64,
}

impl Model for MemSink {
    ghost use Rattle.std.specs.Prelude.{◌<◌};
    ghost use Rattle.edge_io.specs.MemRoom.{MemRoom};

    ghost Value = { MemRoom };

    ghost view = { λ s. record {
      taken = s.plain.taken;
      room = s.plain.room;
      most = s.most;
      script = s.script;
      faults = s.faults;
    } };

    ghost invariant = { λ s. 0 < s.most };
}

impl MemSink {
    ghost use Rattle.edge_io.specs.MemRoom.{untouched};

    /// A sink with room for `room` bytes, all taken from memory here, of which one call takes at
    /// most `most`. Calls of `write` are numbered from 1 on; those whose numbers are in `fails`
    /// fail, and so does a piece that isn't empty when no room is left.
    pub fn new(alloc: Global, room: usize, most: usize, fails: List<u64>) -> Result<MemSink, Memory>
        requires { 1 ≤ most }
        ensures { IfOk result (λ sink. sink ≡ untouched room most fails) }
    {
        match PlainSink::new(alloc, room) {
            Ok(plain) => Ok(MemSink {
                plain,
                most,
                script: Script::new(fails),
                faults: 0,
            }),
            Err(_) => Err(Memory),
        }
    }

    /// The bytes taken so far.
    pub fn taken(&self) -> &[u8]
        ensures { result.now ≡ self.now.taken }
    {
        self.plain.taken()
    }
}

impl Sink for MemSink {
    ghost use Rattle.edge_io.specs.MemRoom.{write_fails, share, after_write, after_failed_write};

    ghost taken = { λ s. Some s.taken };

    ghost faults = { λ s. s.faults };

    ghost writes = { λ s. s.script.calls };

    fn write(&mut self, piece: &[u8]) -> Result<usize, Failed>
        ensures answer { is_err result ≡ write_fails self.old piece.now }
        ensures count { IfOk result (λ n. n ≡ share self.old piece.now) }
        ensures progress { IfOk result (λ n. 0 < length piece.now → 0 < n) }
        ensures after { MatchResult result (λ n. self.new ≡ after_write self.old piece.now n) (λ _. self.new ≡ after_failed_write self.old) }
    {
        let fails = self.script.call();
        let room = self.plain.room();
        if fails || (room == 0 && !piece.is_empty()) {
            raise(&mut self.faults, 1);
            return Err(Failed);
        }
        let n = piece.len().min(self.most.min(room));
        self.plain.write(&piece[..n]);
        Ok(n)
    }
}
