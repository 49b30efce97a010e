//! The memories of an array processor, and what they do at an edge, lane by lane.

ghost use Rattle.std.specs.Prelude.{◌≡◌, ◌≢◌, ◌<◌, ◌≤◌, ℕ, true, false, [], length, map, replicate, set, slice_index_or, IfOk};
ghost use Rattle.limits.specs.declared.TheConstants.{MAX_ADDRESS_BITS, MAX_WORD_BITS};
ghost use Rattle.logic_four.specs.Memory.{memory_act, initial_words, HasShape};
ghost use Rattle.net_defs.specs.Time.{is_edge};
ghost use Rattle.image_defs.specs.{Places.Each, Ports.lane_port};
ghost use Rattle.port_array.specs.Lanes.{lane_memory, lane_memories, IsWhole, AreWhole};
ghost use Rattle.port_array.specs.code.Acts.{past_of, answered_bit, FitsBit, IsPastAt, ReadsPast, HasFewBits, Acted};
ghost use Rattle.port_array.specs.code.Lanes.{IsFirst, Stays, HasActed, ReadPast, AreFirst, HaveActed};

use crate::laned::Laned;
use array_cells::Cells;
use image_defs::{BlockWork, OutBit, Source};
use logic_four::V4;
use port_bank::Bank;
use seen_list::{List, Memory};
use std::alloc::Global;

/// A memory in each lane, with room for what one of them takes and answers at an edge, and what all of
/// them answered at the last one.
#[derive(Drop)]
pub(crate) struct MemoryState<W> {
    pub(crate) cells: List<Cells>,
    pub(crate) address: List<V4>,
    pub(crate) word: List<V4>,
    pub(crate) answers: List<V4>,
    pub(crate) outs: List<W>,
}

/// The words of a memory in each lane, with `v` in every bit.
fn make_cells<W: Laned>(alloc: Global, block: &BlockWork, v: V4) -> Result<List<Cells>, Memory>
    requires { HasFewBits block.now }
    ensures { IfOk result (λ cells. cells ≡ replicate W.lanes (initial_words (length block.now.address) (length block.now.word) v)) }
{
    let address_bits = block.address.len() as u32;
    let word_bits = block.word.len() as u32;
    let mut cells = List::new(alloc);
    'lanes: for _lane in 0..W::count() {
        cells.push(Cells::new(alloc, address_bits, word_bits, v)?)?;
    }
    Ok(cells)
}

/// A memory in each lane, with `v` in every bit of every word.
fn make_memory<W: Laned>(alloc: Global, block: &BlockWork, v: V4) -> Result<MemoryState<W>, Memory>
    requires { HasFewBits block.now }
    ensures { IfOk result (IsFirst W.Word v block.now) }
{
    let word_bits = block.word.len();
    Ok(MemoryState {
        cells: make_cells::<W>(alloc, block, v)?,
        address: List::filled(alloc, V4::Undef, block.address.len())?,
        word: List::filled(alloc, V4::Undef, word_bits)?,
        answers: List::filled(alloc, V4::Undef, word_bits)?,
        outs: List::filled(alloc, W::of(V4::Undef), word_bits)?,
    })
}

/// A memory in each lane for each block.
pub(crate) fn make_memories<W: Laned>(
    alloc: Global,
    blocks: &[BlockWork],
    v: V4,
) -> Result<List<MemoryState<W>>, Memory>
    requires { Each HasFewBits blocks.now }
    ensures { IfOk result (AreFirst W.Word v blocks.now) }
{
    let mut memories = List::new(alloc);
    'each: for block in blocks {
        memories.push(make_memory(alloc, block, v)?)?;
    }
    Ok(memories)
}

/// What a source had in a lane in the last turn.
fn take_past<W: Laned>(bank: &Bank<'_, W>, source: Source, k: u32) -> V4
    requires lane { k < W.lanes }
    requires past { IsPastAt (lane_port W.stimulus k bank.now) source }
    ensures { result ≡ past_of (lane_port W.stimulus k bank.now) source }
{
    bank.take(source).at(k)
}

/// Takes what the sources had in a lane in the last turn.
fn fill<W: Laned>(room: &mut List<V4>, sources: &[Source], bank: &Bank<'_, W>, k: u32)
    requires lane { k < W.lanes }
    requires long { length room.old ≡ length sources.now }
    requires past { Each (IsPastAt (lane_port W.stimulus k bank.now)) sources.now }
    ensures { room.new ≡ map (past_of (lane_port W.stimulus k bank.now)) sources.now }
{
    'sources: for i in 0..sources.len() {
        room.set(i, take_past(bank, sources[i], k));
    }
}

/// Takes the words of a lane through an edge.
fn edge_cells(
    cells: &mut List<Cells>,
    k: u32,
    enable: V4,
    address: &[V4],
    word: &[V4],
    answers: &mut List<V4>,
)
    requires lane { k < length cells.old }
    requires shape { HasShape (length address.now) (length word.now) (slice_index_or cells.old k []) }
    requires fits { length answers.old ≡ length word.now }
    ensures words { cells.new ≡ set cells.old k (memory_act (slice_index_or cells.old k []) enable address.now word.now).words }
    ensures outputs { answers.new ≡ (memory_act (slice_index_or cells.old k []) enable address.now word.now).outputs }
    ensures shape { HasShape (length address.now) (length word.now) (slice_index_or cells.new k []) }
    ensures long { length answers.new ≡ length answers.old }
{
    cells.as_mut_slice()[k as usize].edge(enable, address, word, answers.as_mut_slice());
}

/// Takes the memory of a lane through an edge.
fn edge_lane<W: Laned>(memory: &mut MemoryState<W>, block: &BlockWork, bank: &Bank<'_, W>, k: u32)
    requires lane { k < W.lanes }
    requires past { ReadsPast (lane_port W.stimulus k bank.now) block.now }
    requires whole { IsWhole W.Word block.now memory.old }
    ensures acted { Acted (lane_port W.stimulus k bank.now) block.now (lane_memory W.Word k memory.old) (lane_memory W.Word k memory.new) }
    ensures others { (l : ℕ) → l < W.lanes → l ≢ k → Stays W.Word l memory.old memory.new }
    ensures whole { IsWhole W.Word block.now memory.new }
{
    let enable = take_past(bank, block.we, k);
    fill(&mut memory.address, block.address.as_slice(), bank, k);
    fill(&mut memory.word, block.word.as_slice(), bank, k);
    edge_cells(
        &mut memory.cells,
        k,
        enable,
        memory.address.as_slice(),
        memory.word.as_slice(),
        &mut memory.answers,
    );
    W::put_row(&mut memory.outs, k, &mut memory.answers);
}

/// Takes a memory through an edge, in each lane.
fn edge<W: Laned>(memory: &mut MemoryState<W>, block: &BlockWork, bank: &Bank<'_, W>)
    requires past { (l : ℕ) → l < W.lanes → ReadsPast (lane_port W.stimulus l bank.now) block.now }
    requires whole { IsWhole W.Word block.now memory.old }
    ensures acted { HasActed W.Word bank.now block.now W.lanes memory.old memory.new }
    ensures whole { IsWhole W.Word block.now memory.new }
{
    'lanes: for k in 0..W::count() {
        edge_lane(memory, block, bank, k);
    }
}

/// Takes each memory through an edge.
fn edge_all<W: Laned>(memories: &mut [MemoryState<W>], blocks: &[BlockWork], bank: &Bank<'_, W>)
    requires past { ReadPast W.Word bank.now blocks.now }
    requires whole { AreWhole W.Word blocks.now memories.old }
    ensures acted { HaveActed W.Word bank.now blocks.now (length blocks.now) memories.old memories.new }
    ensures whole { AreWhole W.Word blocks.now memories.new }
{
    'all: for b in 0..blocks.len() {
        edge(&mut memories[b], &blocks[b], bank);
    }
}

/// What the memory of an output bit answered for it at the last edge, in each lane.
pub(crate) fn answered<W: Laned>(memories: &[MemoryState<W>], bit: OutBit) -> W
    requires { FitsBit (lane_memories W.Word 0 memories.now) bit }
    ensures { (l : ℕ) → l < W.lanes → W.lane result l ≡ answered_bit (lane_memories W.Word l memories.now) bit }
{
    memories[bit.block as usize].outs.as_slice()[bit.bit as usize]
}

/// Takes each memory through the edge of this turn, if it is one.
pub(crate) fn begin_memories<W: Laned>(
    memories: &mut List<MemoryState<W>>,
    blocks: &[BlockWork],
    bank: &Bank<'_, W>,
)
    requires past { ReadPast W.Word bank.now blocks.now }
    requires whole { AreWhole W.Word blocks.now memories.old }
    ensures acted { is_edge bank.now.image.units bank.now.turn ≡ true
        → HaveActed W.Word bank.now blocks.now (length blocks.now) memories.old memories.new }
    ensures same { is_edge bank.now.image.units bank.now.turn ≡ false → memories.new ≡ memories.old }
    ensures whole { AreWhole W.Word blocks.now memories.new }
{
    if bank.is_edge() {
        edge_all(memories.as_mut_slice(), blocks, bank);
    }
}
