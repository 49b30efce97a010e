//! What a port does: it names only what is there.

ghost use Rattle.std.specs.Prelude.{◌≡◌, ◌↔◌, ◌<◌, ◌≤◌, IsTrue, length};
ghost use Rattle.limits.specs.declared.TheConstants.{MAX_ADDRESS_BITS, MAX_WORD_BITS};
ghost use Rattle.image_defs.specs.WellFormed.{IsTask, IsBlock, IsBit, IsWork, IsOperand, IsPast, IsPresent};
ghost use Rattle.image_defs.specs.Places.{Each};
ghost use Rattle.image_check.specs.code.Shapes.{IsShapeOf, IsRising};

use crate::shapes::Shape;
use crate::sources::{are_past, are_present, is_operand, is_past};
use image_defs::{BlockWork, InColumn, OutBit, PortImage, Source, Task, Work};
use limits::{MAX_ADDRESS_BITS, MAX_WORD_BITS};

/// Whether what the port does names only what is there.
pub(crate) fn is_work(columns: u32, port: &PortImage, shape: &Shape) -> bool
    requires shape { IsShapeOf port.now shape.now }
    requires rising { IsRising port.now }
    ensures { IsTrue result ↔ IsWork columns port.now port.now.work }
{
    match &port.work {
        Work::Logic { tables, tasks } => are_tasks(port, shape, tables.len(), tasks.as_slice()),
        Work::Array { blocks, outs } => is_array(port, shape, blocks.as_slice(), outs.as_slice()),
        Work::Host { inputs, printed } => {
            is_host(columns, port, shape, inputs.as_slice(), printed.as_slice())
        }
    }
}

fn is_array(port: &PortImage, shape: &Shape, blocks: &[BlockWork], outs: &[OutBit]) -> bool
    requires shape { IsShapeOf port.now shape.now }
    requires rising { IsRising port.now }
    ensures { IsTrue result ↔ (Each (IsBlock port.now) blocks.now × Each (IsBit blocks.now) outs.now) }
{
    if !are_bits(blocks, outs) {
        return false;
    }
    are_blocks(port, shape, blocks)
}

fn is_host(
    columns: u32,
    port: &PortImage,
    shape: &Shape,
    inputs: &[InColumn],
    printed: &[Source],
) -> bool
    requires shape { IsShapeOf port.now shape.now }
    requires rising { IsRising port.now }
    ensures { IsTrue result
        ↔ (Each (λ input. input.column < columns) inputs.now × Each (IsPresent port.now) printed.now) }
{
    if !are_inputs(columns, inputs) {
        return false;
    }
    are_present(port, shape, printed)
}

fn are_tasks(port: &PortImage, shape: &Shape, tables: usize, tasks: &[Task]) -> bool
    requires shape { IsShapeOf port.now shape.now }
    requires rising { IsRising port.now }
    ensures { IsTrue result ↔ Each (IsTask port.now tables) tasks.now }
{
    'tasks: for k in 0..tasks.len() {
        if !is_task(port, shape, tables, &tasks[k]) {
            return false;
        }
    }
    true
}

fn is_task(port: &PortImage, shape: &Shape, tables: usize, task: &Task) -> bool
    requires shape { IsShapeOf port.now shape.now }
    requires rising { IsRising port.now }
    ensures { IsTrue result ↔ IsTask port.now tables task.now }
{
    match task {
        Task::Eval {
            slot,
            table,
            a,
            b,
            c,
            d,
        } => { (*table as usize) < tables && are_operands(port, shape, *slot, a, b, c, d) }
        Task::Hold { from, .. } => is_past(port, shape, from),
    }
}

fn are_operands(
    port: &PortImage,
    shape: &Shape,
    slot: u32,
    a: &Source,
    b: &Source,
    c: &Source,
    d: &Source,
) -> bool
    requires shape { IsShapeOf port.now shape.now }
    requires rising { IsRising port.now }
    ensures { IsTrue result ↔ (IsOperand port.now slot a.now × IsOperand port.now slot b.now
        × IsOperand port.now slot c.now × IsOperand port.now slot d.now) }
{
    if !is_operand(port, shape, slot, a) {
        return false;
    }
    if !is_operand(port, shape, slot, b) {
        return false;
    }
    if !is_operand(port, shape, slot, c) {
        return false;
    }
    is_operand(port, shape, slot, d)
}

fn are_blocks(port: &PortImage, shape: &Shape, blocks: &[BlockWork]) -> bool
    requires shape { IsShapeOf port.now shape.now }
    requires rising { IsRising port.now }
    ensures { IsTrue result ↔ Each (IsBlock port.now) blocks.now }
{
    'memories: for b in 0..blocks.len() {
        if !is_block(port, shape, &blocks[b]) {
            return false;
        }
    }
    true
}

fn is_block(port: &PortImage, shape: &Shape, block: &BlockWork) -> bool
    requires shape { IsShapeOf port.now shape.now }
    requires rising { IsRising port.now }
    ensures { IsTrue result ↔ IsBlock port.now block.now }
{
    if !is_from_1_to(block.address.len(), MAX_ADDRESS_BITS) {
        return false;
    }
    if !is_from_1_to(block.word.len(), MAX_WORD_BITS) {
        return false;
    }
    if !is_past(port, shape, &block.we) {
        return false;
    }
    if !are_past(port, shape, block.address.as_slice()) {
        return false;
    }
    are_past(port, shape, block.word.as_slice())
}

fn is_from_1_to(number: usize, most: usize) -> bool
    ensures { IsTrue result ↔ ((1 ≤ number) × (number ≤ most)) }
{
    1 <= number && number <= most
}

fn are_bits(blocks: &[BlockWork], outs: &[OutBit]) -> bool
    ensures { IsTrue result ↔ Each (IsBit blocks.now) outs.now }
{
    'outs: for k in 0..outs.len() {
        if !is_bit(blocks, &outs[k]) {
            return false;
        }
    }
    true
}

fn is_bit(blocks: &[BlockWork], out: &OutBit) -> bool
    ensures { IsTrue result ↔ IsBit blocks.now out.now }
{
    match blocks.get(out.block as usize) {
        Some(block) => (out.bit as usize) < block.word.len(),
        None => false,
    }
}

fn are_inputs(columns: u32, inputs: &[InColumn]) -> bool
    ensures { IsTrue result ↔ Each (λ input. input.column < columns) inputs.now }
{
    'inputs: for k in 0..inputs.len() {
        if inputs[k].column >= columns {
            return false;
        }
    }
    true
}
