//! What is made before the run of a large design.

ghost use Rattle.std.specs.Prelude.{◌≡◌, ◌≤◌, IfOk};
ghost use Rattle.limits.specs.declared.TheConstants.{MAX_LARGE_CYCLES, MAX_LARGE_GATES};
ghost use Rattle.large_run.specs.{Large.large_netlist, code.Designs.AreFigures, code.Designs.IsDesign};
ghost use Rattle.large_run.specs.Setting.{large_machine as machine_is, large_timing as timing_is};
ghost use Rattle.net_defs.specs.{declared.stimulus.Stimulus.Stimulus as Rows, Valid.IsValid};
ghost use Rattle.yse_compile.specs.{Compiled.IsCompiled, Compiled.ShowsReference, Designs.DesignFits};
ghost use Rattle.yse_compile.specs.declared.compiler.CompNo.TheVariants as no;

use crate::law::large_fits;
use crate::machine::{large_machine, large_timing};
use crate::{CellCounts, Summary, large_net, large_rows};
use net_defs::{Netlist, Stimulus};
use plan_defs::law::items_are_well_formed;
use plan_text::crossings;
use seen_list::Memory;
use std::alloc::Global;
use yse_compile::{CompNo, Compiled, compile};

/// A large netlist as it is compiled, what a summary tells of its plan, and its rows.
#[derive(Drop)]
pub(crate) struct Design {
    pub(crate) compiled: Compiled,
    pub(crate) figures: Summary,
    pub(crate) rows: Stimulus,
}

/// Draws a netlist of so many gates and the rows of so many cycles, and compiles the netlist.
pub(crate) fn large_design(alloc: Global, gates: u32, cycles: u32) -> Result<Design, Memory>
    requires few_gates { gates ≤ MAX_LARGE_GATES }
    requires few_cycles { cycles ≤ MAX_LARGE_CYCLES }
    ensures { IfOk result (IsDesign gates cycles) }
{
    large_fits();
    let made = large_net(alloc, gates)?;
    let rows = large_rows(alloc, made.state, cycles)?;
    let compiled = compile_large(alloc, &made.net)?;
    let figures = figures(alloc, gates, &compiled)?;
    Ok(Design {
        compiled,
        figures,
        rows,
    })
}

/// What a netlist that fits is compiled to.
fn compile_large(alloc: Global, net: &Netlist) -> Result<Compiled, Memory>
    requires valid { IsValid net.now }
    requires fits { DesignFits net.now machine_is timing_is }
    ensures compiled { IfOk result (IsCompiled net.now machine_is timing_is) }
    ensures shown { IfOk result (λ compiled. (stimulus : Rows) → ShowsReference net.now timing_is stimulus compiled.image) }
{
    match compile(alloc, net, &large_machine(alloc), &large_timing(alloc)) {
        Ok(compiled) => Ok(compiled),
        Err(refusal) => Err(lack(&refusal)),
    }
}

/// The only refusal of a design that fits.
fn lack(refusal: &CompNo) -> Memory
    requires { refusal.now ≡ no.Memory }
{
    match refusal {
        CompNo::Loop(_) => unreachable!(),
        CompNo::Bits { .. } => unreachable!(),
        CompNo::Slots { .. } => unreachable!(),
        CompNo::Functions { .. } => unreachable!(),
        CompNo::Memory => Memory,
        CompNo::Nodes { .. } => unreachable!(),
    }
}

/// What a summary tells of the plan of so many gates.
fn figures(alloc: Global, gates: u32, compiled: &Compiled) -> Result<Summary, Memory>
    requires few { gates ≤ MAX_LARGE_GATES }
    requires compiled { IsCompiled (large_netlist gates) machine_is timing_is compiled.now }
    ensures { IfOk result (AreFigures gates compiled.now) }
{
    items_are_well_formed();
    let nodes = &compiled.nodes;
    let crossings = crossings(alloc, nodes, &compiled.homes)?;
    Ok(Summary {
        gates: gates as u64,
        nodes: (nodes.items.len() - nodes.first_node as usize) as u64,
        slots: compiled.plan.needed as u64,
        crossings,
        cells: CellCounts::none(),
    })
}
