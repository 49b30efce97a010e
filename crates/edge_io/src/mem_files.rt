//! A store of files in memory, with calls that fail by their number.

ghost use Rattle.std.specs.Prelude.{◌≡◌, ◌<◌, ◌≤◌, Some, length, take, drop, ◌++◌, IfOk, IfSome, is_err, MatchResult};
ghost use Rattle.edge_io.specs.{Script.next_fails, MemStore.place_named, MemStore.bytes_at, MemStore.at_most};

use crate::counts::FileCounts;
use crate::script::Script;
use crate::{Failed, Files};
use seen_list::{List, Text};
use std::marker::Model;

/// A file of a store in memory.
#[derive(Drop)]
pub struct NamedBytes {
    pub name: Text,
    pub bytes: List<u8>,
}

/// Files in memory, of which one read perhaps gives at most so many bytes. The first with a name
/// counts.
///
/// A `start` that fails leaves nothing to read; a `read` that fails gives nothing, and the next one
/// goes on from the same place.
#[derive(Drop)]
pub struct MemFiles {
    files: List<NamedBytes>,
    script: Script,
    most: Option<usize>,
    current: Option<usize>,
    offset: usize,
    counts: FileCounts,
}

impl Model for MemFiles {
    ghost use Rattle.std.specs.Prelude.{◌<◌, ◌≤◌, length, drop, IfSome};
    ghost use Rattle.edge_io.specs.MemStore.{MemStore, bytes_at};

    ghost Value = { MemStore };

    ghost view = { λ s. record {
      files = s.files;
      script = s.script;
      most = s.most;
      left = drop s.offset (bytes_at s.files s.current);
      counts = s.counts;
    } };

    ghost invariant = { λ s. (s.offset ≤ length (bytes_at s.files s.current)) × IfSome s.most (λ most. 0 < most) };
}

impl MemFiles {
    ghost use Rattle.std.specs.Prelude.{None};
    ghost use Rattle.edge_io.specs.MemStore.{unread};

    /// A store of these files, of which one read gives as many bytes as there is room for. Calls of
    /// `start` and `read` are numbered together, from 1 on; those whose numbers are in `fails` fail.
    /// It takes no memory.
    pub fn new(files: List<NamedBytes>, fails: List<u64>) -> MemFiles
        ensures { result ≡ unread files fails None }
    {
        MemFiles::by_reads(files, fails, None)
    }

    /// The same, but one read gives at most `most` bytes.
    pub fn with_most(files: List<NamedBytes>, fails: List<u64>, most: usize) -> MemFiles
        requires { 1 ≤ most }
        ensures { result ≡ unread files fails (Some most) }
    {
        MemFiles::by_reads(files, fails, Some(most))
    }

    /// A store before its first call.
    fn by_reads(files: List<NamedBytes>, fails: List<u64>, most: Option<usize>) -> MemFiles
        requires { IfSome most (λ most. 1 ≤ most) }
        ensures { result ≡ unread files fails most }
    {
        MemFiles {
            files,
            script: Script::new(fails),
            most,
            current: None,
            offset: 0,
            counts: FileCounts::new(),
        }
    }
}

impl Files for MemFiles {
    ghost use Rattle.edge_io.specs.MemStore.{MemStore, has_name, bytes_named, start_fails, started, share, read_past, read_failed};

    ghost names = { λ s. Some (has_name s.files) };

    ghost bytes = { λ s. Some (bytes_named s.files) };

    ghost left = { λ s. Some s.left };

    ghost counts = { λ s. s.counts };

    fn start(&mut self, name: &[u8]) -> Result<(), Failed>
        ensures answer { is_err result ≡ start_fails self.old name.now }
        ensures after { self.new ≡ started self.old name.now }
    {
        let fails = self.script.call();
        let place = file_named(self.files.as_slice(), name);
        let failed = fails || place.is_none();
        self.counts.start(place.is_none(), failed);
        self.offset = 0;
        if failed {
            self.current = None;
            return Err(Failed);
        }
        self.current = place;
        Ok(())
    }

    fn read(&mut self, buf: &mut [u8]) -> Result<usize, Failed>
        ensures answer { is_err result ≡ next_fails self.old.script }
        ensures count { IfOk result (λ n. n ≡ share self.old (length buf.old)) }
        ensures progress { IfOk result (λ n. 0 < length buf.old → 0 < length self.old.left → 0 < n) }
        ensures buffer { IfOk result (λ n. buf.new ≡ take n self.old.left ++ drop n buf.old) }
        ensures after { MatchResult result (λ n. self.new ≡ read_past self.old n) (λ _. self.new ≡ read_failed self.old) }
    {
        if self.script.call() {
            self.counts.failed_read();
            return Err(Failed);
        }
        let left = &bytes_of(self.files.as_slice(), self.current)[self.offset..];
        let n = buf.len().min(up_to(self.most, left.len()));
        copy_front(left, n, buf);
        self.offset += n;
        self.counts.read(n);
        Ok(n)
    }
}

/// The place of the first file with this name.
pub(crate) fn file_named(files: &[NamedBytes], name: &[u8]) -> Option<usize>
    ensures { result ≡ place_named files.now name.now }
{
    files.iter().position(|file| file.name.as_bytes() == name)
}

/// The bytes of the file at a place, or none.
pub(crate) fn bytes_of(files: &[NamedBytes], place: Option<usize>) -> &[u8]
    ensures { result.now ≡ bytes_at files.now place }
{
    match place {
        Some(i) => match files.get(i) {
            Some(file) => file.bytes.as_slice(),
            None => &[],
        },
        None => &[],
    }
}

/// A number, or the most that there may be.
fn up_to(most: Option<usize>, n: usize) -> usize
    requires { IfSome most (λ most. 1 ≤ most) }
    ensures number { result ≡ at_most most n }
    ensures progress { 0 < n → 0 < result }
{
    match most {
        Some(most) => n.min(most),
        None => n,
    }
}

/// Copies the first n of the bytes to the front of `buf`.
pub(crate) fn copy_front(bytes: &[u8], n: usize, buf: &mut [u8])
    requires bytes { n ≤ length bytes.now }
    requires buffer { n ≤ length buf.old }
    ensures { buf.new ≡ take n bytes.now ++ drop n buf.old }
{
    buf[..n].copy_from_slice(&bytes[..n]);
}
