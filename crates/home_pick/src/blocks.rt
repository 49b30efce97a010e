//! The array ports of memories.

ghost use Rattle.std.specs.Prelude.{◌≡◌, ◌+◌, ◌*◌, ◌^◌, ◌<◌, ◌≤◌, ◌⊎◌, ℕ, IfOk, OnOk, IsNone, IfSome, length, slice_index};
ghost use Rattle.limits.specs.declared.TheConstants.{MAX_ADDRESS_BITS, MAX_WORD_BITS};
ghost use Rattle.machine_text.specs.Machines.{IsValid};
ghost use Rattle.plan_defs.specs.{Lists.IsLeastFree, Picks.bits_of};
ghost use Rattle.home_pick.specs.code.Rooms.{LacksBits, IsMostLeft, AreFilled};

use crate::ports::limits_of;
use machine_text::{Limited, Machine};
use node_defs::{NodeBlock, NodeNet};
use seen_list::{List, Memory};
use std::alloc::Global;

/// The ports of the memories so far, and the bits that they leave on each array port.
#[derive(Drop)]
pub(crate) struct Filling {
    pub(crate) ports: List<u32>,
    pub(crate) left: List<u32>,
}

/// No memory has a port.
pub(crate) fn empty(alloc: Global, nodes: &NodeNet, machine: &Machine) -> Result<Filling, Memory>
    ensures { IfOk result (AreFilled nodes.now machine.now 0) }
{
    let left = limits_of(alloc, machine, Limited::Bits, machine.array)?;
    Ok(Filling {
        ports: List::new(alloc),
        left,
    })
}

/// The bits of a memory: 2^m words of n bits for m address and n data bits.
pub fn block_bits(block: &NodeBlock) -> u32
    requires address { length block.now.address ≤ MAX_ADDRESS_BITS }
    requires word { length block.now.word ≤ MAX_WORD_BITS }
    ensures { result ≡ 2 ^ length block.now.address * length block.now.word }
{
    (1 << block.address.len() as u32) * block.word.len() as u32
}

/// The first array port that has room for so many bits.
pub(crate) fn first_with_room(left: &[u32], needed: u32) -> Option<usize>
    ensures none { IsNone result → (a : ℕ) → a < length left.now → LacksBits left.now needed a }
    ensures some { IfSome result (λ a. (a < length left.now) × IsLeastFree (LacksBits left.now needed) a) }
{
    'ports: for a in 0..left.len() {
        if needed <= left[a] {
            return Some(a);
        }
    }
    None
}

/// The most bits that are left on an array port, and 0 without one.
pub(crate) fn most_left(left: &[u32]) -> u32
    ensures { IsMostLeft left.now (length left.now) result }
{
    let mut most: u32 = 0;
    'ports: for a in 0..left.len() {
        most = most.max(left[a]);
    }
    most
}

impl Filling {
    /// Puts the next memory, of so many bits, at an array port with room.
    pub(crate) fn put(
        &mut self,
        nodes: &NodeNet,
        machine: &Machine,
        a: usize,
        needed: u32,
    ) -> Result<(), Memory>
        requires machine { IsValid machine.now }
        requires before { AreFilled nodes.now machine.now (length self.old.ports) self.old }
        requires needed { needed ≡ bits_of nodes.now (length self.old.ports) }
        requires within { a < length self.old.left }
        requires least { IsLeastFree (LacksBits self.old.left needed) a }
        ensures { OnOk result (AreFilled nodes.now machine.now (length self.old.ports + 1) self.new) }
    {
        let left = self.left.as_slice()[a] - needed;
        self.left.set(a, left);
        self.ports.push(machine.logic + a as u32)?;
        Ok(())
    }
}
