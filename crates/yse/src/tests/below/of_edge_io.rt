//! Values from outside: whole reads and whole writes over the host and over a writer.

use edge_io::{Files, HostFiles, HostSink, ReadNo, WriteNo, read_file, write_whole};
use std::alloc::Global;
use std::io::{ErrorKind, Write};
use std::test::Fail;
use std::time::{SystemTime, UNIX_EPOCH};
use std::{fs, io};

/// Why no more than so many bytes are read of a file, or whether they are these.
fn read<F: Files>(
    alloc: Global,
    files: &mut F,
    name: &[u8],
    limit: u8,
    wanted: &[u8],
) -> Result<bool, ReadNo> {
    match read_file(alloc, files, name, usize::from(limit)) {
        Ok(bytes) => Ok(bytes.as_slice() == wanted),
        Err(no) => Err(no),
    }
}

/// Whether the file has three bytes, of which two are too few.
fn is_read<F: Files>(alloc: Global, files: &mut F, name: &[u8]) -> bool {
    read(alloc, files, name, 3, b"abc") == Ok(true)
        && read(alloc, files, name, 2, b"abc") == Err(ReadNo::TooLong)
}

fn is_no_file<F: Files>(alloc: Global, files: &mut F, name: &[u8]) -> bool {
    read(alloc, files, name, 3, b"abc") == Err(ReadNo::Failed)
}

/// A name of no file.
fn fresh_name(rt: &HostRuntime) -> Result<String, Fail> {
    let now = SystemTime::now(rt)?.duration_since(UNIX_EPOCH)?;
    let (seconds, nanos) = (now.as_secs(), now.subsec_nanos());
    Ok(format!(in rt.alloc(); "/tmp/edge_io_{seconds}_{nanos}")?)
}

/// Whether a file of this name is read while it is there, and then no more.
fn is_read_while_there(rt: &HostRuntime, name: &str) -> Result<bool, Fail> {
    let mut files = HostFiles::new(rt);
    fs::write(rt, name, "abc")?;
    let there = is_read(rt.alloc(), &mut files, name.as_bytes());
    fs::remove_file(rt, name)?;
    Ok(there && is_no_file(rt.alloc(), &mut files, name.as_bytes()))
}

/// Whether a folder is no file, nor a name that is no text.
fn are_no_files(rt: &HostRuntime) -> bool {
    let mut files = HostFiles::new(rt);
    is_no_file(rt.alloc(), &mut files, b"/tmp") && is_no_file(rt.alloc(), &mut files, b"\xff")
}

#[test]
fn reads_from_the_host(rt: HostRuntime) -> Result<(), Fail> {
    let name = fresh_name(&rt)?;
    assert!(rt; is_read_while_there(&rt, name.as_str())?);
    assert!(rt; are_no_files(&rt));
    Ok(())
}

/// A writer with one quirk, which takes two bytes a call into a vector.
#[derive(Drop)]
struct Odd<'a> {
    bytes: &'a mut Vec<u8>,
    quirk: Quirk,
}

#[derive(Clone, Copy, PartialEq, Eq, Drop)]
enum Quirk {
    None,
    CutOffOnce,
    TakesNothing,
    FlushFails,
}

impl Write for Odd<'_> {
    fn write(&mut self, buf: &[u8]) -> io::Result<usize> {
        if self.quirk == Quirk::TakesNothing {
            return Ok(0);
        }
        if self.quirk == Quirk::CutOffOnce {
            self.quirk = Quirk::None;
            return Err(io::Error::from(ErrorKind::Interrupted));
        }
        let n = buf.len().min(2);
        self.bytes.extend_from_slice(&buf[..n])?;
        Ok(n)
    }

    fn flush(&mut self) -> io::Result<()> {
        if self.quirk == Quirk::FlushFails {
            Err(io::Error::from(ErrorKind::StorageFull))
        } else {
            Ok(())
        }
    }
}

/// Quirks, how a whole write ends by a writer that has them, and what was taken.
const QUIRKS: &[(Quirk, Result<(), WriteNo>, &[u8])] = &[
    (Quirk::None, Ok(()), b"abcde"),
    (Quirk::CutOffOnce, Ok(()), b"abcde"),
    (Quirk::TakesNothing, Err(WriteNo::Failed), b""),
    (Quirk::FlushFails, Err(WriteNo::Failed), b"ab"),
];

fn quirks() -> &'static [(Quirk, Result<(), WriteNo>, &'static [u8])] {
    QUIRKS
}

fn write(bytes: &mut Vec<u8>, quirk: Quirk) -> Result<(), WriteNo> {
    let mut sink = HostSink::new(Odd { bytes, quirk });
    write_whole(&mut sink, b"abcde")
}

/// Whether a whole write by a writer with a quirk ends so.
fn is_written(alloc: Global, quirk: Quirk, wanted: &Result<(), WriteNo>, taken: &[u8]) -> bool {
    let mut bytes = Vec::new(alloc);
    write(&mut bytes, quirk) == *wanted && bytes.as_slice() == taken
}

#[test]
fn writes_to_a_writer(rt: HostRuntime) {
    for (quirk, wanted, taken) in quirks() {
        assert!(rt; is_written(rt.alloc(), *quirk, wanted, taken));
    }
}
