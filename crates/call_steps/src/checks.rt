//! The checks of what was read: one function a check, beside those by which `reading` reads a text.

ghost use Rattle.std.specs.Prelude.{◌≡◌, Ok, IfOk, IfErr, OnOk};
ghost use Rattle.net_defs.specs.{Loops.AreRanks, Loops.IsOrder, declared.homes.HomeChoice.HomeChoice, declared.timing.Timing.Timing};
ghost use Rattle.net_defs.specs.Valid.{IsValid, IsValidStimulus, IsValidTiming};
ghost use Rattle.machine_text.specs.declared.machine.Machine.{Machine};
ghost use Rattle.yse_compile.specs.{Chosen.FitsBy, Compiled.IsOverfull, Compiled.IsRight};
ghost use Rattle.call_steps.specs.Checks.{Refuses, HasNoLoop, HasFewCells, cell_count};
ghost use Rattle.call_steps.specs.{code.Checks.RefusesDesign, Refused.Satisfies, Refused.refused_of};

use image_defs::Image;
use limits::MAX_CELLS;
use net_defs::{Netlist, Ranks, Stimulus, Timing};
use rank_find::{RankNo, order, rank};
use refusals::Refusal;
use seen_list::List;
use std::alloc::Global;
use yse_compile::CompNo;

/// A netlist, and an order of its gates.
#[derive(Drop)]
pub struct Design {
    pub net: Netlist,
    pub order: List<u32>,
}

/// A netlist, and the ranks of its gates.
#[derive(Drop)]
pub struct WithRanks {
    pub net: Netlist,
    pub ranks: Ranks,
}

/// A netlist, and an image of it.
#[derive(Drop)]
pub struct Built {
    pub net: Netlist,
    pub image: Image,
}

/// The netlist with an order of its gates, and else a loop.
pub fn ordered<'a>(alloc: Global, net: Netlist, timing: &Timing) -> Result<Design, Refusal<'a>>
    requires net { IsValid net }
    requires timing { IsValidTiming timing.now }
    ensures same { IfOk result (λ design. design.net ≡ net) }
    ensures order { IfOk result (λ design. IsOrder net timing.now design.order) }
    ensures acyclic { OnOk result (HasNoLoop net timing.now (Ok tt)) }
    ensures looped { IfErr result (λ no. Refuses (HasNoLoop net timing.now) (refused_of no)) }
{
    match order(alloc, &net, timing) {
        Ok(order) => Ok(Design { net, order }),
        Err(RankNo::Loop(members)) => Err(Refusal::Loop(net, members)),
        Err(RankNo::Memory) => Err(Refusal::Memory),
    }
}

/// The refusal of a netlist that is not compiled, which a loop comes before.
pub fn of_design<'a>(net: Netlist, no: CompNo) -> Refusal<'a>
    ensures { (choice : HomeChoice) (machine : Machine) (timing : Timing) → IsRight net machine timing no
        → (IsOverfull no → FitsBy choice net machine timing → ⊥) → RefusesDesign choice net machine timing (refused_of result) }
{
    match no {
        CompNo::Loop(members) => Refusal::Loop(net, members),
        CompNo::Bits {
            block,
            needed,
            left,
        } => {
            let no = CompNo::Bits {
                block,
                needed,
                left,
            };
            Refusal::Overfull(net, no)
        }
        CompNo::Slots { needed, limit } => Refusal::Overfull(net, CompNo::Slots { needed, limit }),
        CompNo::Functions {
            port,
            needed,
            limit,
        } => {
            let no = CompNo::Functions {
                port,
                needed,
                limit,
            };
            Refusal::Overfull(net, no)
        }
        CompNo::Memory => Refusal::Memory,
        CompNo::Nodes { needed, limit } => Refusal::Overfull(net, CompNo::Nodes { needed, limit }),
    }
}

/// Whether there are not too many cells.
pub fn few_cells<'a>(net: &Netlist, stimulus: &Stimulus) -> Result<(), Refusal<'a>>
    requires valid { IsValid net.now }
    requires stimulus { IsValidStimulus stimulus.now }
    ensures { Satisfies result (HasFewCells net.now stimulus.now) }
{
    let cells = cell_count(net, stimulus);
    if cells > MAX_CELLS {
        Err(Refusal::Cells(cells))
    } else {
        Ok(())
    }
}

/// A cell for each input and each printed name in each cycle.
fn cell_count(net: &Netlist, stimulus: &Stimulus) -> u64
    requires valid { IsValid net.now }
    requires stimulus { IsValidStimulus stimulus.now }
    ensures { result ≡ cell_count net.now stimulus.now }
{
    let columns = u64::from(net.inputs()) + net.printed.len() as u64;
    u64::from(stimulus.cycles()) * columns
}

/// The netlist with the ranks of its gates, and else a loop.
pub fn ranked<'a>(alloc: Global, net: Netlist, timing: &Timing) -> Result<WithRanks, Refusal<'a>>
    requires net { IsValid net }
    requires timing { IsValidTiming timing.now }
    ensures same { IfOk result (λ design. design.net ≡ net) }
    ensures ranks { IfOk result (λ design. AreRanks net timing.now design.ranks) }
    ensures acyclic { OnOk result (HasNoLoop net timing.now (Ok tt)) }
    ensures looped { IfErr result (λ no. Refuses (HasNoLoop net timing.now) (refused_of no)) }
{
    match rank(alloc, &net, timing) {
        Ok(ranks) => Ok(WithRanks { net, ranks }),
        Err(RankNo::Loop(members)) => Err(Refusal::Loop(net, members)),
        Err(RankNo::Memory) => Err(Refusal::Memory),
    }
}
