//! The checks of sizes that runs of lanes and lists of stuck faults have.

ghost use Rattle.std.specs.Prelude.{◌≡◌, ◌≤◌, ℕ, Some, length, slice_get};
ghost use Rattle.limits.specs.declared.TheConstants.{MAX_ADDRESS_BITS, MAX_CYCLES, MAX_WORD_BITS};
ghost use Rattle.net_defs.specs.{declared.stimulus.Stimulus.Stimulus, Valid.IsValid, Valid.IsValidStimulus, Valid.input_count};
ghost use Rattle.stim_text.specs.Lanes.{AreLanes, longest};
ghost use Rattle.call_steps.specs.Checks.{HasFewBits, HasFewLaneCells, HasFewSignals, block_bits, lane_cell_count, memory_bits};
ghost use Rattle.call_steps.specs.Refused.{Satisfies};

use crate::designs::OnMachine;
use limits::{LANES, MAX_CELLS, MAX_FAULT_SIGNALS, MAX_PACK_BITS};
use net_defs::{Block, Netlist};
use refusals::Refusal;
use stim_text::Lanes;

/// Whether there are not too many cells of lanes.
pub fn few_lane_cells<'a>(design: &OnMachine, lanes: &Lanes) -> Result<(), Refusal<'a>>
    requires { AreLanes (input_count design.now.net) lanes.now }
    ensures { Satisfies result (HasFewLaneCells design.now.net lanes.now) }
{
    let cells = lane_cell_count(&design.run.net, lanes);
    if cells > MAX_CELLS {
        Err(Refusal::Cells(cells))
    } else {
        Ok(())
    }
}

/// A cell for each of `LANES` lanes, each input and each printed name in each cycle of the longest lane.
fn lane_cell_count(net: &Netlist, lanes: &Lanes) -> u64
    requires valid { IsValid net.now }
    requires lanes { AreLanes (input_count net.now) lanes.now }
    ensures { result ≡ lane_cell_count net.now lanes.now }
{
    let columns = u64::from(net.inputs()) + net.printed.len() as u64;
    LANES as u64 * u64::from(lane_cycles(lanes)) * columns
}

/// The cycles of the longest lane, which are no more than a stimulus may have.
fn lane_cycles(lanes: &Lanes) -> u32
    requires { (l : ℕ) (stimulus : Stimulus) → slice_get lanes.now.lanes l ≡ Some stimulus → IsValidStimulus stimulus }
    ensures longest { result ≡ longest lanes.now }
    ensures short { result ≤ MAX_CYCLES }
{
    lanes.cycles()
}

/// Whether there are not too many bits of memories.
pub fn few_bits<'a>(design: &OnMachine) -> Result<(), Refusal<'a>>
    ensures { Satisfies result (HasFewBits design.now.net) }
{
    let bits = memory_bits(&design.run.net);
    if bits > MAX_PACK_BITS {
        Err(Refusal::MemoryBits(bits))
    } else {
        Ok(())
    }
}

/// The bits of all memories.
fn memory_bits(net: &Netlist) -> u64
    requires { IsValid net.now }
    ensures { result ≡ memory_bits net.now }
{
    let mut bits = 0u64;
    'memories: for m in 0..net.blocks.len() {
        bits += block_bits(&net.blocks.as_slice()[m]);
    }
    bits
}

/// The bits of a memory: a word for each address.
fn block_bits(memory: &Block) -> u64
    requires address { length memory.now.address ≤ MAX_ADDRESS_BITS }
    requires word { length memory.now.word ≤ MAX_WORD_BITS }
    ensures { result ≡ block_bits memory.now }
{
    (1u64 << memory.address.len()) * memory.word.len() as u64
}

/// Whether there are not too many signals.
pub fn few_signals<'a>(net: &Netlist) -> Result<(), Refusal<'a>>
    requires { IsValid net.now }
    ensures { Satisfies result (HasFewSignals net.now) }
{
    let signals = net.signals.len() as u64;
    if signals > MAX_FAULT_SIGNALS {
        Err(Refusal::Signals(signals))
    } else {
        Ok(())
    }
}
