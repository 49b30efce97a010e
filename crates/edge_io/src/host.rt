//! The files and the writers of the host.

ghost use Rattle.std.specs.Prelude.{◌≡◌, ◌↔◌, ◌<◌, ◌≤◌, None, Some, Ok, false, IfOk, IfSome, IsErr, IsTrue, MatchResult, is_err, is_none, length, take};
ghost use Rattle.std.specs.Io.KnownBytes.{Appends, ReadConsumes};
ghost use Rattle.edge_io.specs.FileCounts.{no_calls, after_start, after_read, after_failed_read};
ghost use Rattle.edge_io.specs.SinkCounts.{no_writes, after_write};

use crate::counts::{FileCounts, SinkCounts};
use crate::{Failed, Files, Sink};
use std::io::{ErrorKind, Read, Write};
use std::marker::Model;
use std::{fs, io, rt, str};

/// How often a call of the host is made that a signal cuts off each time.
const MAX_TRIES: u32 = 1000;

/// The files of the host, by their paths. It tells no names and no bytes.
///
/// A path that isn't UTF-8 is a fault, and so are a folder, an absent file and one that can't be
/// read. After a `start` that failed nothing is left to read.
#[derive(Drop)]
pub struct HostFiles<'a, R: rt::Files> {
    rt: &'a R,
    file: Option<R::File>,
    counts: FileCounts,
}

impl<'a, R: rt::Files> HostFiles<'a, R> {
    /// The files that this runtime reaches. It takes no memory.
    pub fn new(rt: &'a R) -> HostFiles<'a, R>
        ensures none_begun { result.file ≡ None }
        ensures counts { result.counts ≡ no_calls }
    {
        HostFiles {
            rt,
            file: None,
            counts: FileCounts::new(),
        }
    }
}

impl<'a, R: rt::Files> Files for HostFiles<'a, R> {
    ghost names = { λ _. None };

    ghost bytes = { λ _. None };

    ghost left = { λ _. None };

    // it tells no names, so none is absent
    ghost counts = { λ s. record s.counts { absent_starts = 0 } };

    fn start(&mut self, name: &[u8]) -> Result<(), Failed>
        ensures begun { IsTrue (is_none self.new.file) ↔ IsErr result }
        ensures counts { self.new.counts ≡ after_start self.old.counts false (is_err result) }
    {
        self.file = open(self.rt, name);
        let failed = self.file.is_none();
        self.counts.start(false, failed);
        if failed { Err(Failed) } else { Ok(()) }
    }

    fn read(&mut self, buf: &mut [u8]) -> Result<usize, Failed>
        ensures bound { IfOk result (λ n. n ≤ length buf.new) }
        ensures given { IfSome self.old.file (λ old. (new : R.File) × (self.new.file ≡ Some new)
            × ReadConsumes (R.File.remaining old) (R.File.remaining new) result buf.new) }
        ensures unbegun { self.old.file ≡ None → (result ≡ Ok 0) × (self.new.file ≡ None) }
        ensures after { MatchResult result
            (λ n. self.new.counts ≡ after_read self.old.counts n) (λ _. self.new.counts ≡ after_failed_read self.old.counts) }
    {
        let got = match &mut self.file {
            Some(file) => read_through(file, buf),
            None => Ok(0),
        };
        match got {
            Ok(n) => {
                self.counts.read(n);
                Ok(n)
            }
            Err(_) => {
                self.counts.failed_read();
                Err(Failed)
            }
        }
    }
}

/// A writer, as the host's standard output. It tells no bytes.
///
/// Each write is flushed, so that no byte waits in a buffer of the writer; a flush that fails is a
/// fault, and then the writer may have taken bytes that `write` doesn't answer for.
#[derive(Drop)]
pub struct HostSink<W: Write + Drop> {
    writer: W,
    counts: SinkCounts,
}

impl<W: Write + Drop> HostSink<W> {
    /// A sink that writes to `writer`. It takes no memory.
    pub fn new(writer: W) -> HostSink<W>
        ensures { result ≡ record { writer = writer; counts = no_writes } }
    {
        HostSink {
            writer,
            counts: SinkCounts::new(),
        }
    }
}

impl<W: Write + Drop> Sink for HostSink<W> {
    ghost taken = { λ _. None };

    ghost faults = { λ s. s.counts.faults };

    ghost writes = { λ s. s.counts.writes };

    fn write(&mut self, piece: &[u8]) -> Result<usize, Failed>
        ensures bound { IfOk result (λ n. n ≤ length piece.now) }
        ensures progress { IfOk result (λ n. 0 < length piece.now → 0 < n) }
        ensures bytes { IfOk result (λ n. Appends (W.contents self.old.writer) (W.contents self.new.writer) (take n piece.now)) }
        ensures after { self.new.counts ≡ after_write self.old.counts (is_err result) }
    {
        match write_through(&mut self.writer, piece) {
            Ok(n) if n > 0 || piece.is_empty() => {
                self.counts.write(false);
                Ok(n)
            }
            _ => {
                self.counts.write(true);
                Err(Failed)
            }
        }
    }
}

fn open<R: rt::Files>(rt: &R, name: &[u8]) -> Option<R::File> {
    let path = str::from_utf8(name).ok()?;
    fs::open(rt, path).ok()
}

/// Reads once, and again where a signal cut the call off before it gave a byte.
fn read_through<F: Read>(file: &mut F, buf: &mut [u8]) -> io::Result<usize>
    ensures bound { IfOk result (λ n. n ≤ length buf.new) }
    ensures bytes { ReadConsumes (F.remaining file.old) (F.remaining file.new) result buf.new }
{
    'tries: for _ in 0..MAX_TRIES {
        match file.read(buf) {
            Err(e) if e.kind() == ErrorKind::Interrupted => {}
            other => return other,
        }
    }
    Err(io::Error::from(ErrorKind::Interrupted))
}

/// Writes once, and again where a signal cut the call off before it took a byte, and flushes.
fn write_through<W: Write>(writer: &mut W, piece: &[u8]) -> io::Result<usize>
    ensures bound { IfOk result (λ n. n ≤ length piece.now) }
    ensures bytes { IfOk result (λ n. Appends (W.contents writer.old) (W.contents writer.new) (take n piece.now)) }
{
    'tries: for _ in 0..MAX_TRIES {
        match writer.write(piece) {
            Ok(n) => {
                writer.flush()?;
                return Ok(n);
            }
            Err(e) if e.kind() == ErrorKind::Interrupted => {}
            Err(e) => return Err(e),
        }
    }
    Err(io::Error::from(ErrorKind::Interrupted))
}
