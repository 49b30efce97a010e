//! The netlist that the lines of a draft make.

ghost use Rattle.std.specs.Prelude.{◌≡◌, ◌+◌, ◌<◌, ◌^◌, [], ◌∷◌, ◌++◌, map, drop, length, slice_index, OnOk};
ghost use Rattle.std.specs.List.{flat_map};
ghost use Rattle.text_lines.specs.Answers.{Answers};
ghost use Rattle.bench_read.specs.Netlists.{input_names, other_names, names_of, numbers, input_signal, bit_signals, netlist_of};
ghost use Rattle.bench_read.specs.code.Drafting.{IsWhole, used_names, placed_in, lines_in};
ghost use Rattle.bench_read.specs.{declared.refusal.BenchNo.TheVariants.Memory as NoMemory, Faults.uses_fault};
ghost use Rattle.bench_read.specs.code.Making.{seen, with_line, with_memory};

use crate::draft::{Draft, DrivenName};
use crate::lines::{DraftLine, DraftLines};
use crate::numbers::{number_uses, push_range, signal_numbers, used_count};
use crate::refusal::BenchNo;
use net_defs::{Block, Driver, Netlist, Signal};
use seen_list::{List, Memory, Text};
use std::alloc::Global;

/// The netlist of the lines, or the refusal of the first use that no line drives.
pub fn make_netlist(alloc: Global, draft: &Draft) -> Result<Netlist, BenchNo>
    requires whole { IsWhole draft.now }
    ensures { Answers NoMemory result (uses_fault (placed_in draft.now)) (λ net. net ≡ netlist_of (lines_in draft.now)) }
{
    let mut net = Netlist {
        signals: List::new(alloc),
        printed: List::new(alloc),
        blocks: List::new(alloc),
    };
    fill_netlist(alloc, draft, &mut net)?;
    Ok(net)
}

/// Adds all that the lines make to an empty netlist, or answers the refusal of the first use that no line drives.
fn fill_netlist(alloc: Global, draft: &Draft, net: &mut Netlist) -> Result<(), BenchNo>
    requires whole { IsWhole draft.now }
    requires signals { net.old.signals ≡ [] }
    requires printed { net.old.printed ≡ [] }
    requires memories { net.old.blocks ≡ [] }
    ensures { Answers NoMemory result (uses_fault (placed_in draft.now)) (λ _. net.new ≡ netlist_of (lines_in draft.now)) }
{
    add_inputs(alloc, draft, &mut net.signals)?;
    let order = signal_numbers(alloc, draft, net.signals.len())?;
    let uses = number_uses(alloc, draft, order.as_slice())?;
    add_lines(alloc, draft, net, uses.as_slice())?;
    Ok(())
}

/// Adds the inputs in file order to no signals.
fn add_inputs(alloc: Global, draft: &Draft, signals: &mut List<Signal>) -> Result<(), Memory>
    requires { signals.old ≡ [] }
    ensures { OnOk result (signals.new ≡ map input_signal (flat_map input_names (lines_in draft.now))) }
{
    'lines: for (_at, line) in DraftLines::new(draft) {
        if let DraftLine::Input { name } = line {
            push_signal(alloc, signals, name, Driver::Input)?;
        }
    }
    Ok(())
}

/// Adds what the lines make beside inputs, whose uses have these numbers, to a netlist of the inputs.
fn add_lines(alloc: Global, draft: &Draft, net: &mut Netlist, uses: &[u32]) -> Result<(), Memory>
    requires whole { IsWhole draft.now }
    requires uses { uses.now ≡ numbers (names_of (lines_in draft.now)) (used_names draft.now) }
    requires signals { net.old.signals ≡ map input_signal (flat_map input_names (lines_in draft.now)) }
    requires printed { net.old.printed ≡ [] }
    requires memories { net.old.blocks ≡ [] }
    ensures { OnOk result (net.new ≡ netlist_of (lines_in draft.now)) }
{
    let mut left = uses;
    'lines: for (_at, line) in DraftLines::new(draft) {
        let (mine, others) = left.split_at(used_count(line));
        add_line(alloc, net, line, mine)?;
        left = others;
    }
    Ok(())
}

/// Adds what the line makes beside an input: a printed signal, a signal, or a memory.
fn add_line(alloc: Global, net: &mut Netlist, line: DraftLine, uses: &[u32]) -> Result<(), Memory>
    requires signals { length net.old.signals + length (other_names (seen line)) < 2 ^ 32 }
    requires blocks { length net.old.blocks < 2 ^ 32 }
    ensures { OnOk result (net.new ≡ with_line net.old (seen line.entry) uses.now) }
{
    match line {
        DraftLine::Input { .. } => Ok(()),
        DraftLine::Output { .. } => net.printed.extend_from_slice(uses),
        DraftLine::Gate { name, kind, .. } => {
            let ops = List::from_slice(alloc, uses)?;
            push_signal(alloc, &mut net.signals, name, Driver::Gate { kind, ops })
        }
        DraftLine::Register { name, .. } => {
            let op = first_of(uses);
            push_signal(alloc, &mut net.signals, name, Driver::Dff { op })
        }
        DraftLine::Memory { outs, address, .. } => {
            add_memory(alloc, net, outs, uses, address.len())
        }
    }
}

/// Adds a signal.
fn push_signal(
    alloc: Global,
    signals: &mut List<Signal>,
    name: &[u8],
    driver: Driver,
) -> Result<(), Memory>
    ensures { OnOk result (signals.new ≡ signals.old ++ record { name = name.now; driver = driver } ∷ []) }
{
    let name = Text::from_bytes(alloc, name)?;
    signals.push(Signal { name, driver })?;
    Ok(())
}

/// Adds a memory of so many address bits, and the signals that it drives.
fn add_memory(
    alloc: Global,
    net: &mut Netlist,
    outs: &[DrivenName],
    uses: &[u32],
    address: usize,
) -> Result<(), Memory>
    requires signals { length net.old.signals + length outs.now < 2 ^ 32 }
    requires blocks { length net.old.blocks < 2 ^ 32 }
    ensures { OnOk result (net.new ≡ with_memory net.old (map (λ driver. driver.name.now) outs.now) uses.now address) }
{
    let mut numbers = List::new(alloc);
    push_range(&mut numbers, net.signals.len(), outs.len())?;
    push_bits(alloc, &mut net.signals, net.blocks.len() as u32, outs)?;
    let (address, word) = others_of(uses).split_at(address.min(others_of(uses).len()));
    let address = List::from_slice(alloc, address)?;
    let word = List::from_slice(alloc, word)?;
    net.blocks.push(Block {
        we: first_of(uses),
        address,
        word,
        outs: numbers,
    })?;
    Ok(())
}

/// Adds the signals that a memory drives.
fn push_bits(
    alloc: Global,
    signals: &mut List<Signal>,
    block: u32,
    outs: &[DrivenName],
) -> Result<(), Memory>
    requires { length outs.now < 2 ^ 32 }
    ensures { OnOk result (signals.new ≡ signals.old ++ bit_signals block (map (λ driver. driver.name.now) outs.now)) }
{
    for (bit, driven) in outs.iter().enumerate() {
        push_signal(
            alloc,
            signals,
            driven.name,
            Driver::BlockBit {
                block,
                bit: bit as u32,
            },
        )?;
    }
    Ok(())
}

/// The numbers after the first.
fn others_of(uses: &[u32]) -> &[u32]
    ensures { result.now ≡ drop 1 uses.now }
{
    match uses {
        [_, others @ ..] => others,
        [] => &[],
    }
}

/// The first of the numbers, and 0 of none.
fn first_of(numbers: &[u32]) -> u32
    ensures { result ≡ slice_index numbers.now 0 }
{
    match numbers {
        [first, ..] => *first,
        [] => 0,
    }
}
