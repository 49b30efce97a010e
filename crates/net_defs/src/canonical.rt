//! The canonical text of a netlist.

ghost use Rattle.std.specs.Prelude.{◌≡◌, ◌++◌, [], ◌∷◌, codes, IfOk, OnOk, slice_get};
ghost use Rattle.std.specs.List.{flat_map};
ghost use Rattle.net_defs.specs.Canonical.{name_of, names_of, input_line, output_line, gate_line, memory_line, memory_line_at, driver_line, canonical_text};

use crate::{Block, Driver, Netlist, Signal};
use logic_four::word_of;
use seen_list::{Memory, Text};
use std::alloc::Global;

/// The canonical text: a line for each input in signal order, for each printed name in file order,
/// and for the other signals in signal order, a memory once, at its first output. Read back, it
/// gives the same netlist, where that is valid. A number that names no signal is shown as no name.
pub fn show(alloc: Global, net: &Netlist) -> Result<Text, Memory>
    ensures { IfOk result (λ text. text ≡ canonical_text net.now) }
{
    let mut text = Text::new(alloc);
    push_inputs(&mut text, net)?;
    push_outputs(&mut text, net)?;
    push_drivers(&mut text, net)?;
    Ok(text)
}

fn push_inputs(text: &mut Text, net: &Netlist) -> Result<(), Memory>
    ensures { OnOk result (text.new ≡ text.old ++ flat_map input_line net.now.signals) }
{
    for signal in net.signals.as_slice() {
        push_input(text, signal)?;
    }
    Ok(())
}

fn push_outputs(text: &mut Text, net: &Netlist) -> Result<(), Memory>
    ensures { OnOk result (text.new ≡ text.old ++ flat_map (output_line net.now) net.now.printed) }
{
    for number in net.printed.as_slice() {
        push_output(text, net, *number)?;
    }
    Ok(())
}

fn push_drivers(text: &mut Text, net: &Netlist) -> Result<(), Memory>
    ensures { OnOk result (text.new ≡ text.old ++ flat_map (driver_line net.now) net.now.signals) }
{
    for signal in net.signals.as_slice() {
        push_driver(text, net, signal)?;
    }
    Ok(())
}

#[tactic(auto, unfolding(crate::specs::Canonical::input_line))]
fn push_input(text: &mut Text, signal: &Signal) -> Result<(), Memory>
    ensures { OnOk result (text.new ≡ text.old ++ input_line signal.now) }
{
    match signal.driver {
        Driver::Input => push_pieces(text, b"INPUT(", signal.name.as_bytes(), b")\n"),
        _ => Ok(()),
    }
}

#[tactic(auto, unfolding(crate::specs::Canonical::output_line))]
fn push_output(text: &mut Text, net: &Netlist, number: u32) -> Result<(), Memory>
    ensures { OnOk result (text.new ≡ text.old ++ output_line net.now number) }
{
    push_pieces(text, b"OUTPUT(", name_of(net, number), b")\n")
}

#[tactic(auto, unfolding(crate::specs::Canonical::driver_line))]
fn push_driver(text: &mut Text, net: &Netlist, signal: &Signal) -> Result<(), Memory>
    ensures { OnOk result (text.new ≡ text.old ++ driver_line net.now signal.now) }
{
    match &signal.driver {
        Driver::Input => Ok(()),
        Driver::Gate { kind, ops } => {
            push_gate(
                text,
                net,
                signal.name.as_bytes(),
                word_of(*kind),
                ops.as_slice(),
            )
        }
        Driver::Dff { op } => push_gate(text, net, signal.name.as_bytes(), b"DFF", &[*op]),
        Driver::BlockBit { block, bit } => {
            if *bit == 0 {
                push_ram_at(text, net, *block)
            } else {
                Ok(())
            }
        }
    }
}

#[tactic(auto, unfolding(crate::specs::Canonical::gate_line))]
fn push_gate(
    text: &mut Text,
    net: &Netlist,
    gate: &[u8],
    word: &[u8],
    operands: &[u32],
) -> Result<(), Memory>
    ensures { OnOk result (text.new ≡ text.old ++ gate_line net.now gate.now word.now operands.now) }
{
    push_pieces(text, gate, b" = ", word)?;
    text.push_bytes(b"(")?;
    push_names_then(text, net, operands, b")\n")
}

fn push_ram_at(text: &mut Text, net: &Netlist, number: u32) -> Result<(), Memory>
    ensures { OnOk result (text.new ≡ text.old ++ memory_line_at net.now number) }
{
    match net.blocks.get(number as usize) {
        Some(memory) => push_ram(text, net, memory),
        None => Ok(()),
    }
}

#[tactic(auto, unfolding(crate::specs::Canonical::memory_line))]
fn push_ram(text: &mut Text, net: &Netlist, memory: &Block) -> Result<(), Memory>
    ensures { OnOk result (text.new ≡ text.old ++ memory_line net.now memory.now) }
{
    text.push_bytes(b"[")?;
    push_names_then(text, net, memory.outs.as_slice(), b"] = RAM(")?;
    push_pieces(text, name_of(net, memory.we), b"; ", b"")?;
    push_names_then(text, net, memory.address.as_slice(), b"; ")?;
    push_names_then(text, net, memory.word.as_slice(), b")\n")
}

/// The names, and what stands after the last one.
fn push_names_then(
    text: &mut Text,
    net: &Netlist,
    numbers: &[u32],
    end: &[u8],
) -> Result<(), Memory>
    ensures { OnOk result (text.new ≡ text.old ++ (names_of net.now numbers.now ++ end.now)) }
{
    push_names(text, net, numbers)?;
    text.push_bytes(end)?;
    Ok(())
}

/// The names, a comma and a space between.
fn push_names(text: &mut Text, net: &Netlist, numbers: &[u32]) -> Result<(), Memory>
    ensures { OnOk result (text.new ≡ text.old ++ names_of net.now numbers.now) }
{
    match numbers {
        [] => Ok(()),
        [first, others @ ..] => {
            text.push_bytes(name_of(net, *first))?;
            push_more_names(text, net, others)
        }
    }
}

fn push_more_names(text: &mut Text, net: &Netlist, numbers: &[u32]) -> Result<(), Memory>
    ensures { OnOk result (text.new ≡ text.old ++ flat_map (λ s. codes ", " ++ name_of net.now s) numbers.now) }
{
    for number in numbers {
        push_pieces(text, b", ", name_of(net, *number), b"")?;
    }
    Ok(())
}

/// The name of a signal, given by its number, and no bytes for a number that names none.
pub fn name_of(net: &Netlist, number: u32) -> &[u8]
    ensures { result.now ≡ name_of net.now number }
{
    match net.signals.get(number as usize) {
        Some(signal) => signal.name.as_bytes(),
        None => b"",
    }
}

fn push_pieces(text: &mut Text, first: &[u8], second: &[u8], third: &[u8]) -> Result<(), Memory>
    ensures { OnOk result (text.new ≡ text.old ++ (first.now ++ second.now ++ third.now)) }
{
    text.push_bytes(first)?;
    text.push_bytes(second)?;
    text.push_bytes(third)?;
    Ok(())
}
