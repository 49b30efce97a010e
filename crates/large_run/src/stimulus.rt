//! The stimulus of a large netlist.

ghost use Rattle.std.specs.Prelude.{◌≡◌, ◌<◌, ◌≤◌, IfOk, OnOk};
ghost use Rattle.limits.specs.declared.TheConstants.{MAX_LARGE_CYCLES};
ghost use Rattle.net_defs.specs.{Valid.IsValidStimulus, Time.cycle_count};
ghost use Rattle.large_run.specs.{Draws.IsState, Draws.draw as draw_of, Large.drawn_value, Large.drawn_values, Large.large_stimulus};

use crate::draws::Draws;
use logic_four::V4;
use net_defs::{StimRow, Stimulus};
use seen_list::{List, Memory};
use std::alloc::Global;

/// So many rows of 8 values for the inputs of a large netlist, 1 to 10,000, each for one cycle, drawn
/// from a state of the generator on: that after the netlist.
pub fn large_rows(alloc: Global, state: u32, cycles: u32) -> Result<Stimulus, Memory>
    requires state { IsState state }
    requires cycles { cycles ≤ MAX_LARGE_CYCLES }
    ensures stimulus { IfOk result (λ stimulus. stimulus ≡ large_stimulus state cycles) }
    ensures valid { IfOk result IsValidStimulus }
    ensures cycles { IfOk result (λ stimulus. cycle_count stimulus ≡ cycles) }
{
    let mut draws = Draws { state };
    let mut rows = List::new(alloc);
    'turns: for _c in 0..cycles {
        let values = values(alloc, &mut draws)?;
        rows.push(StimRow { values, times: 1 })?;
    }
    Ok(Stimulus { columns: 8, rows })
}

/// A value for each input.
fn values(alloc: Global, draws: &mut Draws) -> Result<List<V4>, Memory>
    requires { draws.old.state < 30269 }
    ensures values { IfOk result (λ values. values ≡ drawn_values draws.old.state 8) }
    ensures state { OnOk result (draws.new.state ≡ draw_of draws.old.state 8) }
    ensures below { OnOk result (draws.new.state < 30269) }
{
    let mut values = List::new(alloc);
    'columns: for _i in 0..8u32 {
        values.push(value(draws.draw()))?;
    }
    Ok(values)
}

fn value(number: u32) -> V4
    ensures { result ≡ drawn_value number }
{
    if number % 2 == 0 { V4::Zero } else { V4::One }
}
