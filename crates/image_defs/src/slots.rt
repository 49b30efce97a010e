//! The slots of what a port does.

ghost use Rattle.std.specs.Prelude.{◌≡◌, IfOk, map};
ghost use Rattle.image_defs.specs.Places.{item_slots, task_slot};

use crate::{InColumn, OutBit, Task, Work};
use seen_list::{List, Memory};
use std::alloc::Global;

/// The slots of a port's items, in their order.
pub fn slots_of(alloc: Global, work: &Work) -> Result<List<u32>, Memory>
    ensures { IfOk result (λ slots. slots ≡ item_slots work.now) }
{
    match work {
        Work::Logic { tasks, .. } => task_slots(alloc, tasks.as_slice()),
        Work::Array { outs, .. } => bit_slots(alloc, outs.as_slice()),
        Work::Host { inputs, .. } => input_slots(alloc, inputs.as_slice()),
    }
}

/// The slots of tasks, in their order.
fn task_slots(alloc: Global, tasks: &[Task]) -> Result<List<u32>, Memory>
    ensures { IfOk result (λ slots. slots ≡ map task_slot tasks.now) }
{
    let mut slots = List::new(alloc);
    'tasks: for task in tasks {
        slots.push(match task {
            Task::Eval { slot, .. } | Task::Hold { slot, .. } => *slot,
        })?;
    }
    Ok(slots)
}

/// The slots of output bits, in their order.
fn bit_slots(alloc: Global, bits: &[OutBit]) -> Result<List<u32>, Memory>
    ensures { IfOk result (λ slots. slots ≡ map (λ bit. bit.slot) bits.now) }
{
    let mut slots = List::new(alloc);
    'bits: for bit in bits {
        slots.push(bit.slot)?;
    }
    Ok(slots)
}

/// The slots of inputs, in their order.
fn input_slots(alloc: Global, inputs: &[InColumn]) -> Result<List<u32>, Memory>
    ensures { IfOk result (λ slots. slots ≡ map (λ input. input.slot) inputs.now) }
{
    let mut slots = List::new(alloc);
    'inputs: for input in inputs {
        slots.push(input.slot)?;
    }
    Ok(slots)
}
