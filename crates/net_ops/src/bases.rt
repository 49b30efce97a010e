//! What the signals have that are no gates.

ghost use Rattle.std.specs.Prelude.{◌≡◌, ◌<◌, ℕ, length};
ghost use Rattle.net_defs.specs.{Time.value_at, Time.initial_value, Valid.IsValid};
ghost use Rattle.net_ops.specs.{Lanes.lane_row, Places.place_count, Schedules.AreSources, code.States.by_phase, code.States.given_value, code.States.AreBases};
ghost use Rattle.net_ops.specs.declared.schedule.Giver.TheVariants as Giver;

use crate::schedule::{Giver, Source};
use crate::step::Phase;
use crate::wire::Wire;
use logic_four::V4;
use net_defs::{Netlist, Timing, initial_value};
use seen_list::List;

/// Gives each source what it has in a turn of this phase, or what it is stuck at. What the memories answer stands in
/// the places of their outputs.
pub(crate) fn set_bases<W: Wire>(
    row: &mut List<W>,
    net: &Netlist,
    timing: &Timing,
    sources: &[Source],
    forces: &W::Forces,
    phase: Phase,
    inputs: &[V4],
)
    requires valid { IsValid net.now }
    requires long { length row.old ≡ place_count net.now }
    requires sources { AreSources net.now (length net.now.signals) sources.now }
    requires forces { (s : ℕ) → s < length net.now.signals → W.tells forces.now s }
    ensures long { length row.new ≡ length row.old }
    ensures bases { (l : ℕ) → l < W.lanes
        → AreBases timing.now (W.held forces.now l) phase inputs.now (lane_row W.lane l row.old) sources.now (length sources.now) (lane_row W.lane l row.new) }
{
    'sources: for source in sources {
        let base = base_of(row.as_slice(), timing, *source, phase, inputs);
        row.set(source.signal as usize, base.forced(forces, source.signal));
    }
}

/// What a source has in a turn of this phase.
fn base_of<W: Wire>(row: &[W], timing: &Timing, source: Source, phase: Phase, inputs: &[V4]) -> W
    requires own { source.signal < length row.now }
    requires taken { (taken : ℕ) → source.giver ≡ Giver.Register taken → taken < length row.now }
    ensures { (l : ℕ) → l < W.lanes → W.lane result l ≡ given_value timing.now phase inputs.now (lane_row W.lane l row.now) source.signal source.giver }
{
    let here = row[source.signal as usize];
    match source.giver {
        Giver::Input => W::of(input_value(inputs, source.signal)),
        Giver::Register { taken } => {
            registered(timing, phase, row[taken as usize].settled(), here)
        }
        Giver::Memory => registered(timing, phase, here, here),
    }
}

/// What a register or an output of a memory has in a turn of this phase.
fn registered<W: Wire>(timing: &Timing, phase: Phase, new: W, kept: W) -> W
    ensures { (l : ℕ) → l < W.lanes → W.lane result l ≡ by_phase phase (initial_value timing.now.init) (W.lane new l) (W.lane kept l) }
{
    match phase {
        Phase::Start => W::of(initial_value(timing.init)),
        Phase::Edge => new,
        Phase::Within => kept,
    }
}

fn input_value(inputs: &[V4], signal: u32) -> V4
    ensures { result ≡ value_at inputs.now signal }
{
    match inputs.get(signal as usize) {
        Some(v) => *v,
        None => V4::Undef,
    }
}
