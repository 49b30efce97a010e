//! The crossings of a plan.

ghost use Rattle.std.specs.Prelude.{◌≡◌, ◌<◌, IfOk, [], length, slice_index_or};
ghost use Rattle.node_defs.specs.WellFormed.{IsWellFormed};
ghost use Rattle.plan_defs.specs.Homes.{AreHomes};
ghost use Rattle.plan_text.specs.Counted.{AreCrossings};

use node_defs::NodeNet;
use plan_defs::{Homes, Readers};
use seen_list::Memory;
use std::alloc::Global;

/// The number of pairs of an item and a port that reads it, which is not its home.
pub fn crossings(alloc: Global, nodes: &NodeNet, homes: &Homes) -> Result<u64, Memory>
    requires nodes { IsWellFormed nodes.now }
    requires homes { AreHomes nodes.now homes.now }
    ensures { IfOk result (AreCrossings nodes.now homes.now) }
{
    let readers = Readers::new(alloc, nodes, homes)?;
    let mut count = 0u64;
    'items: for i in 0..nodes.items.len() {
        count += reader_count(&readers, i) as u64;
    }
    Ok(count)
}

/// How many ports read an item.
fn reader_count(readers: &Readers, item: usize) -> usize
    requires { item < length readers.now.lists }
    ensures { result ≡ length (slice_index_or readers.now.lists item []) }
{
    readers.of(item).len()
}
