//! The readers of all sends of a port, in one list, and which of them lag.

ghost use Rattle.std.specs.Prelude.{◌≡◌, ◌↔◌, ◌+◌, ◌-◌, ◌<◌, ◌≤◌, length, slice_index_or, slice_range, IsTrue, IfOk, OnOk, MatchOption, []};
ghost use Rattle.std.specs.List.Sorted.{IsStrictlyIncreasing};
ghost use Rattle.limits.specs.declared.TheConstants.{MAX_SLOTS, MAX_PORTS};
ghost use Rattle.image_defs.specs.Places.{Each};
ghost use Rattle.port_walk.specs.{code.Readers.NoneLags, code.Readers.IsFirstLagging, Rows.AreReaders, Rows.start_of, code.Stops.HasFewReaders};

use image_defs::LinkOut;
use seen_list::{List, Memory};
use std::alloc::Global;

/// The readers of each send, those of one after those of the other, and where those of each begin:
/// at the end of those of the send before.
#[derive(Drop)]
pub struct Readers {
    pub all: List<u32>,
    pub starts: List<u32>,
}

/// The readers of these sends.
pub fn readers_of(alloc: Global, outs: &[LinkOut]) -> Result<Readers, Memory>
    requires few { length outs.now ≤ MAX_SLOTS }
    requires readers { Each HasFewReaders outs.now }
    ensures { IfOk result (AreReaders (length outs.now) outs.now) }
{
    let mut readers = Readers {
        all: List::new(alloc),
        starts: List::new(alloc),
    };
    match add_readers(&mut readers, outs) {
        Ok(()) => Ok(readers),
        Err(no) => Err(no),
    }
}

/// Adds the readers of these sends, where there were none.
fn add_readers(readers: &mut Readers, outs: &[LinkOut]) -> Result<(), Memory>
    requires few { length outs.now ≤ MAX_SLOTS }
    requires each { Each HasFewReaders outs.now }
    requires all { readers.old.all ≡ [] }
    requires starts { readers.old.starts ≡ [] }
    ensures { OnOk result (AreReaders (length outs.now) outs.now readers.new) }
{
    readers.starts.push(0)?;
    'sends: for link in outs {
        readers.all.extend_from_slice(link.readers.as_slice())?;
        readers.starts.push(readers.all.len() as u32)?;
    }
    Ok(())
}

/// The readers of a send.
#[inline]
pub fn readers_at(readers: &Readers, send: usize) -> &[u32]
    requires there { send + 1 < length readers.now.starts }
    requires order { start_of readers.now send ≤ start_of readers.now (send + 1) }
    requires within { start_of readers.now (send + 1) ≤ length readers.now.all }
    ensures { result.now ≡ slice_range
        readers.now.all (start_of readers.now send) (start_of readers.now (send + 1)) }
{
    let starts = readers.starts.as_slice();
    let from = starts[send] as usize;
    let to = starts[send + 1] as usize;
    &readers.all.as_slice()[from..to]
}

/// How many turns a port in this turn wants its readers to have finished, with so many banks.
pub fn turns_wanted(turn: u64, banks: u32) -> u64
    ensures { result ≡ turn - banks }
{
    turn.saturating_sub(banks as u64)
}

/// Whether the reader isn't known to have finished so many turns.
#[inline]
fn lags(known: &[u64], reader: u32, turns: u64) -> bool
    requires { reader < length known.now }
    ensures { IsTrue result ↔ (slice_index_or known.now reader 0 < turns) }
{
    known[reader as usize] < turns
}

/// The first of the readers that isn't known to have finished so many turns.
pub fn first_lagging(readers: &[u32], known: &[u64], turns: u64) -> Option<u32>
    requires there { Each (λ r. r < length known.now) readers.now }
    requires rising { IsStrictlyIncreasing readers.now }
    ensures { MatchOption result
        (NoneLags readers.now known.now turns)
        (IsFirstLagging readers.now known.now turns) }
{
    'readers: for reader in readers {
        if lags(known, *reader, turns) {
            return Some(*reader);
        }
    }
    None
}
