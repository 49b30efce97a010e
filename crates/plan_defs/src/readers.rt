//! The ports that read each item.

ghost use Rattle.std.specs.Prelude.{◌≡◌, ◌≢◌, ◌+◌, ◌*◌, ◌<◌, ◌≤◌, [], ◌∷◌, ◌++◌, IfOk, IfSome, IsNone, OnOk, length, Some, slice_get, slice_index_or};
ghost use Rattle.plan_defs.specs.{Bits.HasBit, Homes.AreHomes, Lists.Lists, code.Lists.ListsBelow, code.Words.IsNextBit, code.Words.HasNoBit};
ghost use Rattle.node_defs.specs.WellFormed.{IsWellFormed};

use crate::BitRows;
use crate::plan::Homes;
use crate::users::users;
use node_defs::NodeNet;
use seen_list::{List, Memory};
use std::alloc::Global;

/// The readers of each item: one list of ports for each, in item order.
#[derive(Drop)]
pub struct Readers {
    pub lists: List<List<u32>>,
}

impl Readers {
    ghost use Rattle.plan_defs.specs.ReaderLists.{AreReaders};

    /// The readers of all items at these homes.
    pub fn new(alloc: Global, nodes: &NodeNet, homes: &Homes) -> Result<Readers, Memory>
        requires nodes { IsWellFormed nodes.now }
        requires homes { AreHomes nodes.now homes.now }
        ensures { IfOk result (AreReaders nodes.now homes.now) }
    {
        let rows = users(alloc, nodes, homes)?;
        let mut lists = List::new(alloc);
        let ports = homes.items.as_slice();
        'items: for item in 0..ports.len() {
            let list = row_readers(alloc, &rows, item, ports[item])?;
            lists.push(list)?;
        }
        Ok(Readers { lists })
    }

    /// The readers of an item, in port order.
    pub fn of(&self, item: usize) -> &[u32]
        requires { item < length self.now.lists }
        ensures { slice_get self.now.lists item ≡ Some result.now }
    {
        self.lists.as_slice()[item].as_slice()
    }
}

/// The ports of an item's row but for its home, in order.
fn row_readers(alloc: Global, rows: &BitRows, item: usize, home: u32) -> Result<List<u32>, Memory>
    requires stride { rows.now.stride ≡ 4 }
    requires room { item * rows.now.stride + rows.now.stride ≤ length rows.now.words }
    ensures { IfOk result (Lists (λ port. HasBit rows.now item port × (port ≢ home))) }
{
    let mut ports = List::new(alloc);
    'words: for w in 0..4usize {
        push_word(&mut ports, rows, item, w, home)?;
    }
    Ok(ports)
}

/// Adds the ports of one word of an item's row but for its home.
fn push_word(
    ports: &mut List<u32>,
    rows: &BitRows,
    item: usize,
    w: usize,
    home: u32,
) -> Result<(), Memory>
    requires word { w < 4 }
    requires stride { rows.now.stride ≡ 4 }
    requires room { item * rows.now.stride + rows.now.stride ≤ length rows.now.words }
    requires before { ListsBelow (λ port. HasBit rows.now item port × (port ≢ home)) (64 * w) ports.old }
    ensures { OnOk result (ListsBelow (λ port. HasBit rows.now item port × (port ≢ home)) (64 * w + 64) ports.new) }
{
    let word = rows.word(item, w);
    let mut from = 0;
    'bits: while let Some(bit) = next_bit(word, from) {
        push_other(ports, 64 * w as u32 + bit, home)?;
        from = bit + 1;
    }
    Ok(())
}

/// The first bit from `from` on that is set.
fn next_bit(word: u64, from: u32) -> Option<u32>
    ensures some { IfSome result (IsNextBit word from) }
    ensures none { IsNone result → HasNoBit word from }
{
    if from >= 64 {
        return None;
    }
    let rest = word >> from;
    if rest == 0 {
        return None;
    }
    Some(from + rest.trailing_zeros())
}

/// Adds a port if it is not the home.
fn push_other(ports: &mut List<u32>, port: u32, home: u32) -> Result<(), Memory>
    ensures away { port ≢ home → OnOk result (ports.new ≡ ports.old ++ port ∷ []) }
    ensures home { port ≡ home → OnOk result (ports.new ≡ ports.old) }
{
    if port == home {
        return Ok(());
    }
    ports.push(port)
}
