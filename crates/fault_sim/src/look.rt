//! What the printed names tell of each fault at the end of a cycle.

ghost use Rattle.std.specs.Prelude.{◌≡◌, ◌+◌, ◌<◌, ◌≤◌, ◌^◌, ℕ, false, length, not, replicate, All, IfOk};
ghost use Rattle.wide_planes.specs.declared.TheConstants.{WIDE_LANES};
ghost use Rattle.net_defs.specs.Valid.{IsSignal};
ghost use Rattle.fault_sim.specs.declared.faults.Verdict.TheVariants as Verdict;
ghost use Rattle.fault_sim.specs.code.Runs.{FindsColumn, HasJudged, IsLooked, AreLooked, MarkOthers, differs_in, are_decided};
ghost use Rattle.fault_sim.specs.{Verdicts.differs, code.Lanes.lane_row};

use crate::Verdict;
use crate::lines::is_detected;
use crate::wires::Lanes;
use logic_four::V4;
use net_defs::Netlist;
use ref_sim::Observer;
use seen_list::{List, Memory};
use std::alloc::Global;
use wide_planes::{Words, in_all_lanes, lane, opposite};

/// The verdicts on the faults of a group after so many cycles.
#[derive(Drop)]
pub(crate) struct Judging {
    pub(crate) verdicts: List<Verdict>,
    cycles: u32,
}

impl Judging {
    /// Before the first cycle none of so many faults is seen.
    pub(crate) fn new(alloc: Global, faults: usize) -> Result<Judging, Memory>
        ensures { IfOk result (λ judging. (judging.verdicts ≡ replicate faults Verdict.Unseen) × (judging.cycles ≡ 0)) }
    {
        let verdicts = List::filled(alloc, Verdict::Unseen, faults)?;
        Ok(Judging {
            verdicts,
            cycles: 0,
        })
    }
}

impl Observer<Lanes> for Judging {
    ghost has_seen = { λ judging net rows left. HasJudged net judging.verdicts judging.cycles rows left };

    ghost goes_on = { λ judging. not (are_decided judging.verdicts) };

    ghost size = { λ judging. length judging.verdicts };

    /// Looks at each fault that isn't seen, and goes on until each is.
    fn look(&mut self, net: &Netlist, row: &[Lanes]) -> bool {
        self.cycles += 1;
        look(&mut self.verdicts, row, net, self.cycles);
        !are_decided(self.verdicts.as_slice())
    }
}

/// Whether each fault is seen.
fn are_decided(verdicts: &[Verdict]) -> bool
    ensures { result ≡ are_decided verdicts.now }
{
    verdicts.iter().all(|verdict| is_detected(verdict))
}

/// The lanes in which a printed value is another one than that of the good design, as a tester sees it.
fn other_lanes(row: &[Lanes], net: &Netlist) -> Words
    requires printed { All (IsSignal net.now) net.now.printed }
    requires long { length row.now ≡ length net.now.signals }
    ensures { MarkOthers net.now row.now result }
{
    let mut marks = Words::all(0);
    'columns: for s in net.printed.as_slice() {
        let place = row[*s as usize];
        let good = in_all_lanes(lane(place.planes, 0));
        marks = marks.or(opposite(good, place.planes));
    }
    marks
}

/// Looks at the values of the last turn of a cycle.
fn look(verdicts: &mut List<Verdict>, row: &[Lanes], net: &Netlist, cycle: u32)
    requires few { length verdicts.old < WIDE_LANES }
    requires printed { All (IsSignal net.now) net.now.printed }
    requires columns { length net.now.printed < 2 ^ 32 }
    requires long { length row.now ≡ length net.now.signals }
    ensures { AreLooked net.now row.now cycle verdicts.old verdicts.new }
{
    let marks = other_lanes(row, net);
    'faults: for k in 0..verdicts.len() {
        let verdict = verdicts.as_slice()[k];
        let at = k as u32 + 1;
        verdicts.set(k, looked(verdict, row, net, at, cycle, marks.bit(at)));
    }
}

/// The verdict on the fault of a lane after a cycle. Where the mark is 0 the lane differs in no column.
fn looked(verdict: Verdict, row: &[Lanes], net: &Netlist, at: u32, cycle: u32, mark: u32) -> Verdict
    requires lane { at < WIDE_LANES }
    requires mark { mark ≡ 0 → (j : ℕ) → differs_in net.now (lane_row 0 row.now) (lane_row at row.now) j ≡ false }
    requires printed { All (IsSignal net.now) net.now.printed }
    requires columns { length net.now.printed < 2 ^ 32 }
    requires long { length row.now ≡ length net.now.signals }
    ensures { IsLooked net.now (lane_row 0 row.now) (lane_row at row.now) cycle verdict result }
{
    match verdict {
        Verdict::Seen { .. } => verdict,
        Verdict::Unseen if mark == 0 => verdict,
        Verdict::Unseen => match first_column(row, net, at) {
            Some(column) => Verdict::Seen { cycle, column },
            None => Verdict::Unseen,
        },
    }
}

/// The first column in which a lane differs from the good design.
fn first_column(row: &[Lanes], net: &Netlist, at: u32) -> Option<u32>
    requires lane { at < WIDE_LANES }
    requires printed { All (IsSignal net.now) net.now.printed }
    requires columns { length net.now.printed < 2 ^ 32 }
    requires long { length row.now ≡ length net.now.signals }
    ensures { FindsColumn net.now (lane_row 0 row.now) (lane_row at row.now) result }
{
    let printed = net.printed.as_slice();
    'columns: for j in 0..printed.len() {
        let place = row[printed[j] as usize];
        if differs(lane(place.planes, 0), lane(place.planes, at)) {
            return Some(j as u32);
        }
    }
    None
}

fn differs(good: V4, faulty: V4) -> bool
    ensures { result ≡ differs good faulty }
{
    matches!((good, faulty), (V4::Zero, V4::One) | (V4::One, V4::Zero))
}
