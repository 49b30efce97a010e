//! A core that steps in an order, or round after round to its end, and the rows that are done then.

ghost use Rattle.std.specs.Prelude.{◌≡◌, ◌<◌, ◌≤◌, ℕ, Some, IfOk, length, replicate, slice_get};
ghost use Rattle.std.specs.List.{flat_map};
ghost use Rattle.image_defs.specs.WellFormed.{IsWellFormed};
ghost use Rattle.machine_run.specs.Shown.{AreShown};
ghost use Rattle.net_defs.specs.{Time.cycle_count, Valid.IsValidStimulus};
ghost use Rattle.stim_text.specs.{declared.order.OrderLine.OrderLine, Orders.IsValidOrder};
ghost use Rattle.order_run.specs.Core.{AreDone, IsSameCore, IsSoundCore, rows_of};
ghost use Rattle.order_run.specs.{Orders.AreRowsInOrder, code.Stepped.HasStepped, code.Stepped.IsEndingOf};

use crate::{Core, CoreStep};
use event_defs::law::steps_are_sound;
use image_defs::Image;
use net_defs::{CellRow, Rows, Stimulus};
use seen_list::{List, Memory};
use std::alloc::Global;
use stim_text::{Order, OrderLine};

/// The rows of a run to its end: all ports step, round after round, until they are done.
pub fn rows_by_rounds(
    alloc: Global,
    image: &Image,
    stimulus: &Stimulus,
    banks: u32,
) -> Result<Rows, Memory>
    requires image { IsWellFormed image.now }
    requires stimulus { IsValidStimulus stimulus.now }
    requires columns { stimulus.now.columns ≡ image.now.columns }
    requires banks { 1 ≤ banks }
    ensures { IfOk result (λ rows. AreShown image.now stimulus.now (cycle_count stimulus.now) rows.rows) }
{
    let mut core = Core::new(alloc, image, stimulus, banks)?;
    step_rounds(&mut core);
    let rows = rows_of(alloc, &core);
    core.end();
    rows
}

/// The rows that are done by the end of an order, and how many they are if a port is not done then.
pub fn rows_by_order(
    alloc: Global,
    image: &Image,
    stimulus: &Stimulus,
    banks: u32,
    order: &Order,
) -> Result<(Rows, Option<u32>), Memory>
    requires image { IsWellFormed image.now }
    requires stimulus { IsValidStimulus stimulus.now }
    requires columns { stimulus.now.columns ≡ image.now.columns }
    requires banks { 1 ≤ banks }
    requires order { IsValidOrder (length image.now.ports) order.now }
    ensures { IfOk result (λ made. AreRowsInOrder order.now banks stimulus.now image.now made.0 made.1) }
{
    let mut core = Core::new(alloc, image, stimulus, banks)?;
    step_lines(&mut core, order.lines.as_slice());
    steps_are_sound();
    let made = rows_and_ending(alloc, &core);
    core.end();
    made
}

/// The rows that are done, and how many they are if a port is not done.
fn rows_and_ending(alloc: Global, core: &Core<'_>) -> Result<(Rows, Option<u32>), Memory>
    ensures { IfOk result (λ made. AreShown core.now.image core.now.stimulus (rows_of core.now) made.0.rows × IsEndingOf core.now made.1) }
{
    let rows = rows_of(alloc, core)?;
    Ok((rows, ending_of(core)))
}

/// How many rows are done, if a port is not done.
fn ending_of(core: &Core<'_>) -> Option<u32>
    ensures { IsEndingOf core.now result }
{
    if core.all_done() {
        return None;
    }
    Some(core.rows_done())
}

/// Steps all ports until they are done.
fn step_rounds(core: &mut Core<'_>)
    requires { IsSoundCore core.old }
    ensures same { IsSameCore core.old core.new }
    ensures sound { IsSoundCore core.new }
    ensures done { AreDone core.new }
{
    'rounds: while !core.all_done() {
        core.run_round();
    }
}

/// Steps the ports that the lines name, until the last line or until all ports are done: then no later
/// step would change anything.
fn step_lines(core: &mut Core<'_>, lines: &[OrderLine])
    requires { (l : ℕ) (line : OrderLine) → slice_get lines.now l ≡ Some line → line.port < length core.old.image.ports }
    ensures { HasStepped core.old core.new (flat_map (λ line. replicate line.times line.port) lines.now) }
{
    'lines: for l in 0..lines.len() {
        if core.all_done() {
            return;
        }
        repeat_step(core, lines[l].port, lines[l].times);
    }
}

/// Steps a port so many times, or until it does not move: then none of these steps would change
/// anything.
fn repeat_step(core: &mut Core<'_>, port: u32, times: u32)
    requires { port < length core.old.image.ports }
    ensures { HasStepped core.old core.new (replicate times port) }
{
    'steps: for _step in 0..times {
        match core.apply(port) {
            CoreStep::Moved(_) => {}
            CoreStep::NotYet | CoreStep::Done => return,
        }
    }
}

/// The rows that are done.
fn rows_of(alloc: Global, core: &Core<'_>) -> Result<Rows, Memory>
    ensures { IfOk result (λ rows. AreShown core.now.image core.now.stimulus (rows_of core.now) rows.rows) }
{
    let mut rows = List::new(alloc);
    'cycles: for c in 0..core.rows_done() {
        let cells = List::from_slice(alloc, core.cells(c + 1))?;
        rows.push(CellRow { cells })?;
    }
    Ok(Rows { rows })
}
