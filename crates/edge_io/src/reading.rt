//! The reading of a whole file.

ghost use Rattle.std.specs.Prelude.{◌≡◌, ◌+◌, ◌-◌, ◌^◌, ◌<◌, ◌≤◌, ◌++◌, length, IfOk, IfSome, OnOk};
ghost use Rattle.edge_io.specs.{Names.is_absent, Names.IsAbsent, Names.OfTold, FileCounts.CountsFile, code.FileCounts.CountsReads};

use crate::{Failed, Files};
use seen_list::{List, Memory};
use std::alloc::Global;

/// Why a file wasn't read.
#[derive(Clone, Copy, PartialEq, Eq)]
pub enum ReadNo {
    /// A call of the store failed: the file is absent, or can't be read.
    Failed,
    /// The file has more bytes than the limit.
    TooLong,
    /// Want of memory.
    Memory,
}

/// The most bytes that one read asks for.
const CHUNK: usize = 65536;

/// Reads a whole file: one `start`, and then reads to the file's end, or until one byte past
/// `limit` was given. The bytes are kept in memory as they come.
pub fn read_file<F: Files>(
    alloc: Global,
    files: &mut F,
    name: &[u8],
    limit: usize,
) -> Result<List<u8>, ReadNo>
    requires { limit < 2 ^ 62 }
    ensures same_names { F.names files.new ≡ F.names files.old }
    ensures same_bytes { F.bytes files.new ≡ F.bytes files.old }

    ensures whole { IfOk result (λ read. OfTold (F.bytes files.old) name.now (λ whole. read ≡ whole)) }
    ensures short { IfOk result (λ read. length read ≤ limit) }
    ensures too_long { result ≡ Err ReadNo.TooLong
        → OfTold (F.bytes files.old) name.now (λ whole. limit < length whole) }
    ensures absent { IsAbsent (F.names files.old) name.now → result ≡ Err ReadNo.Failed }

    ensures counted { CountsFile (is_absent (F.names files.old) name.now) limit result (F.counts files.old) (F.counts files.new) }
{
    if files.start(name).is_err() {
        return Err(ReadNo::Failed);
    }
    read_rest(alloc, files, limit)
}

/// Reads what is left of the file begun last, to its end or until one byte past `limit` was given.
fn read_rest<F: Files>(alloc: Global, files: &mut F, limit: usize) -> Result<List<u8>, ReadNo>
    requires { limit < 2 ^ 62 }
    ensures same_names { F.names files.new ≡ F.names files.old }
    ensures same_bytes { F.bytes files.new ≡ F.bytes files.old }

    ensures whole { IfOk result (λ read. IfSome (F.left files.old) (λ left. read ≡ left)) }
    ensures short { IfOk result (λ read. length read ≤ limit) }
    ensures too_long { result ≡ Err ReadNo.TooLong → IfSome (F.left files.old) (λ left. limit < length left) }

    ensures counted { CountsReads limit result (F.counts files.old) (F.counts files.new) }
{
    let mut buffer = [0; CHUNK];
    let mut bytes = List::new(alloc);
    'chunks: while bytes.len() <= limit {
        let room = (limit - bytes.len() + 1).min(CHUNK);
        match files.read(&mut buffer[..room]) {
            Ok(0) => return Ok(bytes),
            Ok(n) => {
                if bytes.extend_from_slice(&buffer[..n]).is_err() {
                    return Err(ReadNo::Memory);
                }
            }
            Err(Failed) => return Err(ReadNo::Failed),
        }
    }
    Err(ReadNo::TooLong)
}
