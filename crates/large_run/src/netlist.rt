//! The large netlist.

ghost use Rattle.std.specs.Prelude.{◌≡◌, ◌≤◌, ◌++◌, ℕ, List as Items, All, IfOk, OnOk, decimal, map};
ghost use Rattle.std.specs.List.{range_with_len};
ghost use Rattle.limits.specs.declared.TheConstants.{MAX_LARGE_GATES};
ghost use Rattle.net_defs.specs.{declared.timing.Timing.Timing, Loops.IsCircle, Valid.IsValid, Valid.operand_count};
ghost use Rattle.large_run.specs.Large.{input_signal, gate_signal, gate_state, large_printed, large_netlist};
ghost use Rattle.large_run.specs.Draws.{IsState};

use crate::draws::Draws;
use crate::gate::gate_driver;
use net_defs::{Driver, Netlist, Signal};
use seen_list::{List, Memory, Text};
use std::alloc::Global;

/// The inputs of a large netlist.
const INPUTS: u32 = 8;

/// The most gates that are printed.
const PRINTED: u32 = 8;

/// A netlist that was drawn, and the state of the generator after it, with which the rows of its
/// stimulus go on.
#[derive(Drop)]
pub struct Generated {
    pub net: Netlist,
    pub state: u32,
}

/// The large netlist of so many gates, 1 to 30,000: 8 inputs, and gates and registers that take inputs
/// and what stands before them, so that no gate waits for itself. The last 8 gates are printed.
pub fn large_net(alloc: Global, gates: u32) -> Result<Generated, Memory>
    requires { gates ≤ MAX_LARGE_GATES }
    ensures net { IfOk result (λ made. made.net ≡ large_netlist gates) }
    ensures state { IfOk result (λ made. made.state ≡ gate_state gates) }
    ensures valid { IfOk result (λ made. IsValid made.net) }
    ensures narrow { IfOk result (λ made. All (λ signal. operand_count signal.driver ≤ 4) made.net.signals) }
    ensures no_loop { IfOk result (λ made. (timing : Timing) (members : Items ℕ) → IsCircle made.net timing members → ⊥) }
    ensures state_valid { IfOk result (λ made. IsState made.state) }
{
    let mut draws = Draws { state: 1 };
    let mut signals = List::new(alloc);
    push_inputs(alloc, &mut signals)?;
    push_gates(alloc, &mut signals, &mut draws, gates)?;
    let printed = printed(alloc, gates)?;
    let net = Netlist {
        signals,
        printed,
        blocks: List::new(alloc),
    };
    Ok(Generated {
        net,
        state: draws.reached(),
    })
}

fn push_inputs(alloc: Global, signals: &mut List<Signal>) -> Result<(), Memory>
    ensures { OnOk result (signals.new ≡ signals.old ++ map input_signal (range_with_len 0 8)) }
{
    'inputs: for i in 0..INPUTS {
        let name = numbered(alloc, b"i", i)?;
        signals.push(Signal {
            name,
            driver: Driver::Input,
        })?;
    }
    Ok(())
}

fn push_gates(
    alloc: Global,
    signals: &mut List<Signal>,
    draws: &mut Draws,
    gates: u32,
) -> Result<(), Memory>
    requires few { gates ≤ MAX_LARGE_GATES }
    requires first { draws.old.state ≡ 1 }
    ensures signals { OnOk result (signals.new ≡ signals.old ++ map gate_signal (range_with_len 0 gates)) }
    ensures state { OnOk result (draws.new.state ≡ gate_state gates) }
{
    'drawn: for j in 0..gates {
        let name = numbered(alloc, b"g", j)?;
        let driver = gate_driver(alloc, draws, j)?;
        signals.push(Signal { name, driver })?;
    }
    Ok(())
}

/// The signals of the last gates.
fn printed(alloc: Global, gates: u32) -> Result<List<u32>, Memory>
    requires { gates ≤ MAX_LARGE_GATES }
    ensures { IfOk result (λ list. list ≡ large_printed gates) }
{
    let first = gates.saturating_sub(PRINTED);
    let mut list = List::new(alloc);
    'printed: for k in 0..gates.min(PRINTED) {
        list.push(INPUTS + first + k)?;
    }
    Ok(list)
}

/// A name of a letter and a number.
fn numbered(alloc: Global, letter: &[u8], number: u32) -> Result<Text, Memory>
    ensures { IfOk result (λ name. name ≡ letter.now ++ decimal number) }
{
    let mut name = Text::from_bytes(alloc, letter)?;
    name.push_decimal(number as u64)?;
    Ok(name)
}
