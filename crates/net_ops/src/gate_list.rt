//! Signals as operations on the places of a row.

ghost use Rattle.std.specs.Prelude.{◌≡◌, ◌≢◌, ◌+◌, ◌*◌, ◌^◌, ◌<◌, ◌≤◌, ◌∷◌, [], ◌++◌, ℕ, true, false, length, map, All, Contains, IfOk, OnOk, IsTrue, if◌then◌else◌};
ghost use Rattle.limits.specs.declared.TheConstants.{MAX_SIGNALS};
ghost use Rattle.logic_four.specs.{Gates.gate_value, Kinds.AllowsOperands, Folds.takes_many};
ghost use Rattle.net_defs.specs.Valid.{IsValid, IsValidTiming, IsSignal, IsDrivable};
ghost use Rattle.net_defs.specs.Loops.{IsGate, IsOrder, is_gate_driver, waits_for, gate_operands};
ghost use Rattle.net_defs.specs.{Time.value_at, Steps.is_late};
ghost use Rattle.net_ops.specs.{Schedules.here_driven, Schedules.here_value, Schedules.Settles, code.Sequences.Adds};

use crate::ops::PairOp;
use crate::wire::Wire;
use logic_four::{Kind, base_kind};
use net_defs::{Driver, Netlist, Timing, is_late};
use seen_list::{List, Memory};
use std::alloc::Global;

/// The operations that give the gates of an order their values, one after the other.
pub(crate) fn signal_ops<W: Wire>(
    alloc: Global,
    net: &Netlist,
    timing: &Timing,
    list: &[u32],
) -> Result<List<PairOp<W::Form>>, Memory>
    requires valid { IsValid net.now }
    requires timing { IsValidTiming timing.now }
    requires order { IsOrder net.now timing.now list.now }
    ensures { IfOk result (Settles W.answer W.is_form net.now timing.now list.now (length list.now)) }
{
    let mut ops = List::new(alloc);
    'signals: for signal in list {
        push_signal::<W>(&mut ops, net, timing, *signal)?;
    }
    Ok(ops)
}

/// Adds the operations of a gate.
fn push_signal<W: Wire>(
    ops: &mut List<PairOp<W::Form>>,
    net: &Netlist,
    timing: &Timing,
    signal: u32,
) -> Result<(), Memory>
    requires valid { IsValid net.now }
    requires timing { IsValidTiming timing.now }
    requires signal { IsSignal net.now signal }
    requires gate { IsGate net.now signal }
    requires apart { (o : ℕ) → Contains (waits_for net.now timing.now signal) o → o ≢ signal }
    ensures { OnOk result (Adds W.answer W.is_form (length net.now.signals) signal (here_value net.now timing.now signal) ops.old ops.new) }
{
    let found = &net.signals.as_slice()[signal as usize];
    push_driven::<W>(ops, net, timing, signal, &found.driver)
}

/// Adds the operations of a gate with this driver. A late gate reads the last turn.
fn push_driven<W: Wire>(
    ops: &mut List<PairOp<W::Form>>,
    net: &Netlist,
    timing: &Timing,
    signal: u32,
    driver: &Driver,
) -> Result<(), Memory>
    requires few { length net.now.signals ≤ MAX_SIGNALS }
    requires timing { IsValidTiming timing.now }
    requires signal { IsSignal net.now signal }
    requires gate { is_gate_driver driver.now ≡ true }
    requires drivable { IsDrivable net.now signal driver.now }
    requires apart { is_late net.now timing.now signal ≡ false → (o : ℕ) → Contains (gate_operands driver.now) o → o ≢ signal }
    ensures { OnOk result (Adds W.answer W.is_form (length net.now.signals) signal
        (λ row. here_driven net.now timing.now signal row driver.now) ops.old ops.new) }
{
    let count = net.signals.len() as u32;
    match driver {
        Driver::Input | Driver::Dff { .. } | Driver::BlockBit { .. } => Ok(()),
        Driver::Gate {
            kind,
            ops: operands,
        } => {
            let base = operand_base(net, timing, signal);
            push_gate::<W>(ops, count, *kind, operands.as_slice(), signal, base)
        }
    }
}

/// Where the operands of a gate begin: a late gate reads the last turn.
fn operand_base(net: &Netlist, timing: &Timing, gate: u32) -> u32
    requires few { length net.now.signals < 2 ^ 32 }
    requires timing { IsValidTiming timing.now }
    ensures { result ≡ (if is_late net.now timing.now gate then length net.now.signals else 0) }
{
    if is_late(net, timing, gate) {
        net.signals.len() as u32
    } else {
        0
    }
}

/// Adds the operations of a gate, one fewer than it has operands, but one for a single operand.
fn push_gate<W: Wire>(
    ops: &mut List<PairOp<W::Form>>,
    signals: u32,
    kind: Kind,
    operands: &[u32],
    gate: u32,
    base: u32,
) -> Result<(), Memory>
    requires few { signals ≤ MAX_SIGNALS }
    requires allowed { AllowsOperands kind (length operands.now) }
    requires gate { gate < signals }
    requires base { base ≤ signals }
    requires within { All (λ o. o < signals) operands.now }
    requires apart { All (λ o. base + o ≢ gate) operands.now }
    ensures { OnOk result (Adds W.answer W.is_form signals gate
        (λ row. gate_value kind (map (λ o. value_at row (base + o)) operands.now)) ops.old ops.new) }
{
    let first = base + operands[0];
    match operands.len() {
        1 => push_pair(ops, W::lone(kind), gate, first, first),
        2 => push_pair(ops, W::form(kind), gate, first, base + operands[1]),
        _ => push_wide::<W>(ops, signals, kind, operands, gate, base),
    }
}

/// Adds the operations of a gate of three operands or more: all but the last one join what came before with one
/// operand more in the gate's own place, which none of them reads.
fn push_wide<W: Wire>(
    ops: &mut List<PairOp<W::Form>>,
    signals: u32,
    kind: Kind,
    operands: &[u32],
    gate: u32,
    base: u32,
) -> Result<(), Memory>
    requires few { signals ≤ MAX_SIGNALS }
    requires many { IsTrue (takes_many kind) }
    requires wide { 2 < length operands.now }
    requires gate { gate < signals }
    requires base { base ≤ signals }
    requires within { All (λ o. o < signals) operands.now }
    requires apart { All (λ o. base + o ≢ gate) operands.now }
    ensures { OnOk result (Adds W.answer W.is_form signals gate
        (λ row. gate_value kind (map (λ o. value_at row (base + o)) operands.now)) ops.old ops.new) }
{
    let joining = W::form(base_kind(kind));
    push_pair(ops, joining, gate, base + operands[0], base + operands[1])?;
    let last = operands.len() - 1;
    'operands: for k in 2..last {
        push_pair(ops, joining, gate, gate, base + operands[k])?;
    }
    push_pair(ops, W::form(kind), gate, gate, base + operands[last])
}

/// Adds one operation.
fn push_pair<F: Copy>(
    ops: &mut List<PairOp<F>>,
    form: F,
    gate: u32,
    a: u32,
    b: u32,
) -> Result<(), Memory>
    ensures { OnOk result (ops.new ≡ ops.old ++ record { gate = gate; a = a; b = b; form = form } ∷ []) }
{
    ops.push(PairOp { gate, a, b, form })
}
