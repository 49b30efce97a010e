//! The memories of each array port.

ghost use Rattle.std.specs.Prelude.{◌≡◌, ◌<◌, ◌^◌, ◌++◌, ◌∷◌, [], IfOk, OnOk, length, slice_set};
ghost use Rattle.node_defs.specs.WellFormed.{IsWellFormed};
ghost use Rattle.plan_defs.specs.Homes.{AreHomes};
ghost use Rattle.image_defs.specs.Matches.{claims_of};
ghost use Rattle.image_build.specs.code.Plans.{AreMemories};

use crate::port_items::{empty_lists, push_to};
use node_defs::NodeNet;
use plan_defs::Homes;
use seen_list::{List, Memory};
use std::alloc::Global;

/// The memories of each port, in their order, and for each memory its place among those of its port.
#[derive(Drop)]
pub(crate) struct Memories {
    pub(crate) lists: List<List<u32>>,
    pub(crate) places: List<u32>,
}

/// Where the memories stand at their homes.
pub(crate) fn memories_of(alloc: Global, nodes: &NodeNet, homes: &Homes) -> Result<Memories, Memory>
    requires nodes { IsWellFormed nodes.now }
    requires homes { AreHomes nodes.now homes.now }
    ensures { IfOk result (AreMemories nodes.now homes.now) }
{
    let count = (homes.logic + homes.array + 1) as usize;
    let mut memories = Memories {
        lists: empty_lists(alloc, count)?,
        places: List::new(alloc),
    };
    let ports = homes.blocks.as_slice();
    'memories: for m in 0..ports.len() {
        put(&mut memories, ports[m] as usize, m as u32)?;
    }
    Ok(memories)
}

/// Puts the next memory at its home.
fn put(memories: &mut Memories, port: usize, memory: u32) -> Result<(), Memory>
    requires port { port < length memories.old.lists }
    requires few { length (claims_of memories.old.lists port) < 2 ^ 32 }
    ensures lists { OnOk result (memories.new.lists ≡ slice_set memories.old.lists port (claims_of memories.old.lists port ++ memory ∷ [])) }
    ensures places { OnOk result (memories.new.places ≡ memories.old.places ++ length (claims_of memories.old.lists port) ∷ []) }
{
    let place = memories.lists.as_slice()[port].len() as u32;
    memories.places.push(place)?;
    push_to(&mut memories.lists, port, memory)
}
