//! What is made before a run: the operations of the gates, and the signals that are no gates.

ghost use Rattle.std.specs.Prelude.{◌≡◌, ◌+◌, ◌≤◌, length, IfOk, OnOk};
ghost use Rattle.limits.specs.declared.TheConstants.{MAX_SIGNALS};
ghost use Rattle.net_defs.specs.{Loops.IsOrder, Valid.IsValid, Valid.IsValidTiming, Valid.IsSignal};
ghost use Rattle.net_ops.specs.Schedules.{AreSources, IsSchedule, IsTakenFrom, giver_of};

use crate::gate_list::signal_ops;
use crate::ops::PairOp;
use crate::wire::Wire;
use net_defs::{Driver, Netlist, Timing, is_gate};
use seen_list::{List, Memory};
use std::alloc::Global;

/// The operations of all gates in an order, and the sources: the signals that are no gates.
#[derive(Drop)]
pub struct Schedule<F> {
    pub(crate) gate_ops: List<PairOp<F>>,
    pub(crate) sources: List<Source>,
}

/// A signal that is no gate, and what gives it its value.
#[derive(Clone, Copy)]
pub(crate) struct Source {
    pub(crate) signal: u32,
    pub(crate) giver: Giver,
}

/// What gives a signal its value that is no gate.
#[derive(Clone, Copy)]
pub(crate) enum Giver {
    /// The stimulus.
    Input,
    /// A register, which takes what stands in this place: its operand in the last turn.
    Register { taken: u32 },
    /// A memory.
    Memory,
}

/// The schedule of an order.
pub fn make_schedule<W: Wire>(
    alloc: Global,
    net: &Netlist,
    timing: &Timing,
    order: &[u32],
) -> Result<Schedule<W::Form>, Memory>
    requires valid { IsValid net.now }
    requires timing { IsValidTiming timing.now }
    requires order { IsOrder net.now timing.now order.now }
    ensures { IfOk result (IsSchedule W.answer W.is_form net.now timing.now) }
{
    let sources = make_sources(alloc, net)?;
    let gate_ops = signal_ops::<W>(alloc, net, timing, order)?;
    Ok(Schedule { gate_ops, sources })
}

fn make_sources(alloc: Global, net: &Netlist) -> Result<List<Source>, Memory>
    requires { IsValid net.now }
    ensures { IfOk result (AreSources net.now (length net.now.signals)) }
{
    let mut sources = List::new(alloc);
    'signals: for s in 0..net.signals.len() as u32 {
        push_source(&mut sources, net, s)?;
    }
    Ok(sources)
}

/// Adds a signal if it is a source. Those before it are there.
fn push_source(sources: &mut List<Source>, net: &Netlist, s: u32) -> Result<(), Memory>
    requires valid { IsValid net.now }
    requires signal { IsSignal net.now s }
    requires before { AreSources net.now s sources.old }
    ensures { OnOk result (AreSources net.now (s + 1) sources.new) }
{
    if is_gate(net, s) {
        return Ok(());
    }
    let found = &net.signals.as_slice()[s as usize];
    sources.push(Source {
        signal: s,
        giver: giver_of(net.signals.len() as u32, &found.driver),
    })
}

/// What gives a signal with this driver its value, of so many signals.
fn giver_of(signals: u32, driver: &Driver) -> Giver
    requires few { signals ≤ MAX_SIGNALS }
    requires taken { IsTakenFrom signals (giver_of signals driver.now) }
    ensures { result ≡ giver_of signals driver.now }
{
    match driver {
        Driver::Input => Giver::Input,
        Driver::Dff { op } => Giver::Register {
            taken: signals + *op,
        },
        Driver::Gate { .. } | Driver::BlockBit { .. } => Giver::Memory,
    }
}
