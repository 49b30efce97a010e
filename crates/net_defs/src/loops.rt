//! What a gate waits for in a turn. Loops, orders and ranks speak of this alone.

ghost use Rattle.std.specs.Prelude.{◌≡◌, ◌<◌, length};
ghost use Rattle.net_defs.specs.{Steps.is_late, Steps.is_listed, Loops.gate_operands, Loops.is_gate, Loops.waits_for, Valid.Ascends, Valid.IsValidTiming};

use crate::{Driver, Mode, Netlist, Timing};

/// Whether the gate of this number is late: it reads the last turn's values. In unit delay every gate
/// is late, in rank order none, in mixed mode those that are listed.
pub fn is_late(net: &Netlist, timing: &Timing, gate: u32) -> bool
    requires { IsValidTiming timing.now }
    ensures { result ≡ is_late net.now timing.now gate }
{
    match timing.mode {
        Mode::Rank => false,
        Mode::Unit => true,
        Mode::Mixed => is_listed(timing.listed.as_slice(), gate),
    }
}

/// Whether an ascending list has this number.
fn is_listed(listed: &[u32], gate: u32) -> bool
    requires { Ascends listed.now }
    ensures { result ≡ is_listed listed.now gate }
{
    listed.binary_search(&gate).is_ok()
}

/// Whether a gate drives the signal of this number. A register or a memory is no gate.
pub fn is_gate(net: &Netlist, signal: u32) -> bool
    ensures { result ≡ is_gate net.now signal }
{
    match net.signals.get(signal as usize) {
        Some(found) => matches!(found.driver, Driver::Gate { .. }),
        None => false,
    }
}

/// The signals whose values of this turn the signal of this number needs: of a gate that is not late
/// its operands, from left to right, and of all else none.
pub fn waits_for<'a>(net: &'a Netlist, timing: &Timing, signal: u32) -> &'a [u32]
    requires { IsValidTiming timing.now }
    ensures { result.now ≡ waits_for net.now timing.now signal }
{
    match net.signals.get(signal as usize) {
        Some(found) => {
            if is_late(net, timing, signal) {
                &[]
            } else {
                operands(&found.driver)
            }
        }
        None => &[],
    }
}

fn operands(driver: &Driver) -> &[u32]
    ensures { result.now ≡ gate_operands driver.now }
{
    match driver {
        Driver::Gate { ops, .. } => ops.as_slice(),
        Driver::Input | Driver::Dff { .. } | Driver::BlockBit { .. } => &[],
    }
}
