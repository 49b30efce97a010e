//! The numbers of names: their places in signal order.

ghost use Rattle.std.specs.Prelude.{◌≡◌, ◌⊎◌, ◌++◌, ◌+◌, ◌≤◌, ◌<◌, ◌^◌, length, get_or, IfOk, OnOk, slice_get};
ghost use Rattle.std.specs.List.{flat_map, range_with_len};
ghost use Rattle.text_lines.specs.Answers.{Answers};
ghost use Rattle.bench_read.specs.code.Drafting.{IsWhole, driven_names, used_names, placed_in, lines_in};
ghost use Rattle.bench_read.specs.Netlists.{input_names, other_names, names_of, numbers};
ghost use Rattle.bench_read.specs.{declared.refusal.BenchNo.TheVariants.Memory as NoMemory, declared.refusal.BenchNo.TheVariants.Undriven, Faults.uses_fault};
ghost use Rattle.bench_read.specs.{Lines.used, code.Making.seen, code.Making.order_by, code.Making.line_of_use};

use crate::draft::Draft;
use crate::lines::{DraftLine, DraftLines};
use crate::refusal::BenchNo;
use seen_list::{List, Memory, Text};
use std::alloc::Global;

/// The numbers of the driven names in file order: the inputs stand first.
pub fn signal_numbers(alloc: Global, draft: &Draft, inputs: usize) -> Result<List<u32>, Memory>
    requires inputs { length (flat_map input_names (lines_in draft.now)) ≤ inputs }
    requires few { inputs + length (flat_map other_names (lines_in draft.now)) < 2 ^ 32 }
    ensures { IfOk result (λ order. order ≡ order_by 0 inputs (lines_in draft.now)) }
{
    let mut order = List::new(alloc);
    let mut input = 0;
    let mut other = inputs;
    'lines: for (_at, line) in DraftLines::new(draft) {
        let own_inputs = input_count(line);
        let own_others = other_count(line);
        push_range(&mut order, input, own_inputs)?;
        push_range(&mut order, other, own_others)?;
        input += own_inputs;
        other += own_others;
    }
    Ok(order)
}

/// How many inputs the line drives.
fn input_count(line: DraftLine) -> usize
    ensures { result ≡ length (input_names (seen line.entry)) }
{
    match line {
        DraftLine::Input { .. } => 1,
        _ => 0,
    }
}

/// How many other signals the line drives.
fn other_count(line: DraftLine) -> usize
    ensures { result ≡ length (other_names (seen line.entry)) }
{
    match line {
        DraftLine::Input { .. } | DraftLine::Output { .. } => 0,
        DraftLine::Gate { .. } | DraftLine::Register { .. } => 1,
        DraftLine::Memory { outs, .. } => outs.len(),
    }
}

/// Adds so many numbers from the first on.
pub fn push_range(numbers: &mut List<u32>, first: usize, count: usize) -> Result<(), Memory>
    requires { first + count < 2 ^ 32 }
    ensures { OnOk result (numbers.new ≡ numbers.old ++ range_with_len first count) }
{
    for k in 0..count {
        numbers.push((first + k) as u32)?;
    }
    Ok(())
}

/// The numbers of the names that the lines use, or the refusal of the first that no line drives.
pub fn number_uses(alloc: Global, draft: &Draft, order: &[u32]) -> Result<List<u32>, BenchNo>
    requires whole { IsWhole draft.now }
    requires order { order.now ≡ numbers (names_of (lines_in draft.now)) (driven_names draft.now) }
    ensures { Answers NoMemory result (uses_fault (placed_in draft.now))
        (λ found. found ≡ numbers (names_of (lines_in draft.now)) (used_names draft.now)) }
{
    let mut numbers = List::new(alloc);
    'uses: for name in draft.uses.as_slice() {
        match draft.names.find(*name) {
            Some(driver) => numbers.push(order[driver])?,
            None => return Err(undriven(alloc, draft, *name, numbers.len())),
        }
    }
    Ok(numbers)
}

/// The refusal of a name, the use in this place, that no line drives.
fn undriven(alloc: Global, draft: &Draft, name: &[u8], place: usize) -> BenchNo
    ensures { (result ≡ NoMemory) ⊎ (result ≡ Undriven name.now (line_of_use (placed_in draft.now) place)) }
{
    match Text::from_bytes(alloc, name) {
        Ok(name) => BenchNo::Undriven {
            name,
            line: line_of_use(draft, place),
        },
        Err(_) => BenchNo::Memory,
    }
}

/// The number of the line that the use in this place stands in.
#[tactic(auto, unfolding(crate::specs::code::Making::line_of_use))]
fn line_of_use(draft: &Draft, place: usize) -> u32
    ensures { result ≡ line_of_use (placed_in draft.now) place }
{
    let mut left = place;
    'lines: for (at, line) in DraftLines::new(draft) {
        if left < used_count(line) {
            return at;
        }
        left -= used_count(line);
    }
    0
}

/// How many names the line uses.
pub fn used_count(line: DraftLine) -> usize
    ensures { result ≡ length (used (seen line.entry)) }
{
    match line {
        DraftLine::Input { .. } => 0,
        DraftLine::Output { .. } | DraftLine::Register { .. } => 1,
        DraftLine::Gate { uses, .. } => uses.len(),
        DraftLine::Memory { address, words, .. } => 1 + (address.len() + words.len()),
    }
}
