//! A store of files in memory whose calls never fail.

ghost use Rattle.std.specs.Prelude.{◌≡◌, Ok, min, length, take, drop, ◌++◌, IsOk, IfOk};

use crate::counts::FileCounts;
use crate::mem_files::{NamedBytes, bytes_of, copy_front, file_named};
use crate::{Failed, Files};
use seen_list::List;
use std::marker::Model;

/// Files in memory, of which no call fails: its counts of faults and of calls that failed are the
/// constant 0. The first with a name counts.
///
/// Every name is there: one that no file of the list has is that of an empty file.
#[derive(Drop)]
pub struct PlainFiles {
    files: List<NamedBytes>,
    current: Option<usize>,
    offset: usize,
    counts: FileCounts,
}

impl Model for PlainFiles {
    ghost use Rattle.std.specs.Prelude.{◌≤◌, length, drop};
    ghost use Rattle.edge_io.specs.{MemStore.bytes_at, PlainStore.PlainStore};

    ghost Value = { PlainStore };

    ghost view = { λ s. record {
      files = s.files;
      left = drop s.offset (bytes_at s.files s.current);
      counts = s.counts;
    } };

    ghost invariant = { λ s. s.offset ≤ length (bytes_at s.files s.current) };
}

impl PlainFiles {
    ghost use Rattle.edge_io.specs.PlainStore.{unread};

    /// A store of these files. It takes no memory.
    pub fn new(files: List<NamedBytes>) -> PlainFiles
        ensures { result ≡ unread files }
    {
        PlainFiles {
            files,
            current: None,
            offset: 0,
            counts: FileCounts::new(),
        }
    }
}

impl Files for PlainFiles {
    ghost use Rattle.std.specs.Prelude.{Some};
    ghost use Rattle.edge_io.specs.{MemStore.bytes_named, PlainStore.has_name, PlainStore.started, PlainStore.read_past};

    ghost names = { λ _. Some has_name };

    ghost bytes = { λ s. Some (bytes_named s.files) };

    ghost left = { λ s. Some s.left };

    // no call fails, and no name is absent
    ghost counts = { λ s. record s.counts { faults = 0; failures = 0; absent_starts = 0 } };

    fn start(&mut self, name: &[u8]) -> Result<(), Failed>
        ensures answer { IsOk result }
        ensures after { self.new ≡ started self.old name.now }
    {
        self.counts.start(false, false);
        self.offset = 0;
        self.current = file_named(self.files.as_slice(), name);
        Ok(())
    }

    fn read(&mut self, buf: &mut [u8]) -> Result<usize, Failed>
        ensures answer { result ≡ Ok (min (length buf.old) (length self.old.left)) }
        ensures buffer { IfOk result (λ n. buf.new ≡ take n self.old.left ++ drop n buf.old) }
        ensures after { IfOk result (λ n. self.new ≡ read_past self.old n) }
    {
        let left = &bytes_of(self.files.as_slice(), self.current)[self.offset..];
        let n = buf.len().min(left.len());
        copy_front(left, n, buf);
        self.offset += n;
        self.counts.read(n);
        Ok(n)
    }
}
