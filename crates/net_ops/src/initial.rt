//! The state before the first turn.

ghost use Rattle.std.specs.Prelude.{◌≡◌, ◌≤◌, ◌<◌, ℕ, [], length, slice_index_or, replicate, IfOk};
ghost use Rattle.limits.specs.declared.TheConstants.{MAX_ADDRESS_BITS, MAX_WORD_BITS};
ghost use Rattle.logic_four.specs.Memory.{initial_words};
ghost use Rattle.net_defs.specs.{Steps.first_state, Valid.IsValid};
ghost use Rattle.net_ops.specs.{Places.place_count, States.lane_state, States.AreShaped, code.States.initial_memories};

use crate::state::LaneState;
use crate::wire::Wire;
use array_cells::Cells;
use logic_four::V4;
use net_defs::{Block, Netlist, Timing, initial_value};
use seen_list::{List, Memory};
use std::alloc::Global;

/// The state before the first turn of so many lanes: in these every signal is undefined, and every word of a memory has
/// the initial value.
pub fn initial_state<W: Wire>(
    alloc: Global,
    net: &Netlist,
    timing: &Timing,
    lanes: usize,
) -> Result<LaneState<W>, Memory>
    requires valid { IsValid net.now }
    requires lanes { lanes ≤ W.lanes }
    ensures places { IfOk result (λ state. length state.values ≡ place_count net.now) }
    ensures lanes { IfOk result (λ state. length state.memories ≡ lanes) }
    ensures shaped { IfOk result (λ state. (l : ℕ) → l < lanes → AreShaped net.now (slice_index_or state.memories l [])) }
    ensures first { IfOk result (λ state. (l : ℕ) → l < lanes → lane_state W.lane net.now l state ≡ first_state net.now timing.now) }
{
    let count = net.signals.len();
    let values = List::filled(alloc, W::of(V4::Undef), count + count)?;
    let memories = lane_memories(alloc, net, lanes, initial_value(timing.init))?;
    Ok(LaneState { values, memories })
}

/// The words of all memories, once for each lane.
fn lane_memories(
    alloc: Global,
    net: &Netlist,
    lanes: usize,
    v: V4,
) -> Result<List<List<Cells>>, Memory>
    requires { IsValid net.now }
    ensures { IfOk result (λ memories. memories ≡ replicate lanes (initial_memories net.now v)) }
{
    let mut memories = List::new(alloc);
    'lanes: for _lane in 0..lanes {
        memories.push(initial_memories(alloc, net, v)?)?;
    }
    Ok(memories)
}

/// The words of all memories, with this value in every bit.
fn initial_memories(alloc: Global, net: &Netlist, v: V4) -> Result<List<Cells>, Memory>
    requires { IsValid net.now }
    ensures { IfOk result (λ words. words ≡ initial_memories net.now v) }
{
    let mut words = List::new(alloc);
    for block in net.blocks.as_slice() {
        words.push(initial_memory(alloc, block, v)?)?;
    }
    Ok(words)
}

fn initial_memory(alloc: Global, block: &Block, v: V4) -> Result<Cells, Memory>
    requires address { length block.now.address ≤ MAX_ADDRESS_BITS }
    requires word { length block.now.word ≤ MAX_WORD_BITS }
    ensures { IfOk result (λ words. words ≡ initial_words (length block.now.address) (length block.now.word) v) }
{
    Cells::new(
        alloc,
        block.address.len() as u32,
        block.word.len() as u32,
        v,
    )
}
