//! The walk down the operands.

ghost use Rattle.std.specs.Prelude.{◌≡◌, ◌≢◌, ℕ, ◌+◌, ◌-◌, ◌*◌, ◌^◌, ◌<◌, ◌≤◌, [], ◌∷◌, ◌++◌, length, take, map, replicate, slice_set, slice_index, IfOk, OnOk, IfSome, IsNone, MatchOption, Contains};
ghost use Rattle.net_defs.specs.{Loops.waits_for, Loops.IsLoop, Valid.IsValidTiming};
ghost use Rattle.rank_find.specs.code.Walk.{mark_at, first_mark, work_left, IsWalking, Advances, Reaches, IsTop, IsFirstUndone, AreDoneFrom, IsStart, IsIdle, IsOver, WentDown, StepsTo};

use crate::circle::circle_at;
use net_defs::{Driver, Netlist, Signal, Timing, waits_for};
use seen_list::{List, Memory};
use std::alloc::Global;

/// How far the walk has come with a signal.
#[derive(Clone, Copy, PartialEq, Eq)]
pub(crate) enum Mark {
    /// A gate that was not reached.
    Fresh,
    /// A gate on the path.
    Open,
    /// A gate in the order, or no gate.
    Done,
}

/// A walk with its path in a list, so that no call is as deep as the netlist.
#[derive(Drop)]
pub(crate) struct Walk {
    /// One for each signal.
    marks: List<Mark>,
    /// For each signal, how many of its operands from the left were found done.
    places: List<usize>,
    /// Open gates, each waiting for the next.
    path: List<u32>,
    /// The gates that are done, each after those that it waits for.
    pub(crate) order: List<u32>,
}

impl Walk {
    /// The walk before its first step.
    pub(crate) fn new(alloc: Global, net: &Netlist) -> Result<Walk, Memory>
        ensures { IfOk result (IsStart net.now) }
    {
        Ok(Walk {
            marks: first_marks(alloc, net)?,
            places: first_places(alloc, net)?,
            path: List::new(alloc),
            order: List::new(alloc),
        })
    }

    /// Walks down from every gate. It finds a loop, or the walk is over.
    pub(crate) fn run(
        &mut self,
        alloc: Global,
        net: &Netlist,
        timing: &Timing,
    ) -> Result<Option<List<u32>>, Memory>
        requires few { length net.now.signals < 2 ^ 32 }
        requires timing { IsValidTiming timing.now }
        requires idle { IsIdle net.now timing.now self.old }
        ensures { IfOk result (λ found.
            MatchOption found (IsOver net.now timing.now self.new) (IsLoop net.now timing.now)) }
    {
        for root in 0..net.signals.len() as u32 {
            if self.mark(root) == Mark::Fresh {
                if let Some(found) = self.go_down(alloc, net, timing, root)? {
                    return Ok(Some(found));
                }
            }
        }
        Ok(None)
    }

    /// Walks down from a fresh gate until the path is empty again, or finds a loop.
    fn go_down(
        &mut self,
        alloc: Global,
        net: &Netlist,
        timing: &Timing,
        root: u32,
    ) -> Result<Option<List<u32>>, Memory>
        requires timing { IsValidTiming timing.now }
        requires idle { IsIdle net.now timing.now self.old }
        requires fresh { mark_at self.old.marks root ≡ Mark.Fresh }
        ensures { IfOk result (λ found.
            MatchOption found (WentDown net.now timing.now root self.old self.new) (IsLoop net.now timing.now)) }
    {
        self.enter(root)?;
        while let Some(gate) = self.top() {
            if let Some(found) = self.step(alloc, net, timing, gate)? {
                return Ok(Some(found));
            }
        }
        Ok(None)
    }

    /// Goes down from the last gate of the path to an operand that was not reached, or takes the gate
    /// into the order, or finds a loop.
    fn step(
        &mut self,
        alloc: Global,
        net: &Netlist,
        timing: &Timing,
        gate: u32,
    ) -> Result<Option<List<u32>>, Memory>
        requires timing { IsValidTiming timing.now }
        requires walking { IsWalking net.now timing.now self.old }
        requires top { IsTop self.old.path gate }
        ensures { IfOk result (λ found.
            MatchOption found (StepsTo net.now timing.now self.old self.new) (IsLoop net.now timing.now)) }
    {
        let operands = waits_for(net, timing, gate);
        match self.first_undone(operands, self.places.as_slice()[gate as usize]) {
            None => {
                self.finish(gate)?;
                Ok(None)
            }
            Some(place) => {
                let operand = operands[place];
                match self.mark(operand) {
                    Mark::Fresh => {
                        self.places.set(gate as usize, place);
                        self.enter(operand)?;
                        Ok(None)
                    }
                    _ => Ok(Some(circle_at(alloc, self.path.as_slice(), operand)?)),
                }
            }
        }
    }

    fn mark(&self, signal: u32) -> Mark
        ensures { result ≡ mark_at self.now.marks signal }
    {
        match self.marks.as_slice().get(signal as usize) {
            Some(mark) => *mark,
            None => Mark::Done,
        }
    }

    fn top(&self) -> Option<u32>
        ensures none { IsNone result → self.now.path ≡ [] }
        ensures some { IfSome result (IsTop self.now.path) }
    {
        self.path.as_slice().last().copied()
    }

    /// Puts a fresh gate onto the path.
    fn enter(&mut self, gate: u32) -> Result<(), Memory>
        requires { gate < length self.old.marks }
        ensures { OnOk result (self.new ≡ record self.old {
          marks = slice_set self.old.marks gate Mark.Open;
          path = self.old.path ++ gate ∷ [];
        }) }
    {
        self.path.push(gate)?;
        self.marks.set(gate as usize, Mark::Open);
        Ok(())
    }

    /// Takes the last gate from the path into the order.
    fn finish(&mut self, gate: u32) -> Result<(), Memory>
        requires { gate < length self.old.marks }
        ensures { OnOk result (self.new ≡ record self.old {
          marks = slice_set self.old.marks gate Mark.Done;
          path = take (length self.old.path - 1) self.old.path;
          order = self.old.order ++ gate ∷ [];
        }) }
    {
        self.order.push(gate)?;
        self.path.pop();
        self.marks.set(gate as usize, Mark::Done);
        Ok(())
    }

    fn first_undone(&self, operands: &[u32], from: usize) -> Option<usize>
        ensures none { IsNone result → AreDoneFrom self.now.marks operands.now from }
        ensures some { IfSome result (IsFirstUndone self.now.marks operands.now from) }
    {
        for place in from..operands.len() {
            if self.mark(operands[place]) != Mark::Done {
                return Some(place);
            }
        }
        None
    }
}

fn first_marks(alloc: Global, net: &Netlist) -> Result<List<Mark>, Memory>
    ensures { IfOk result (λ marks. marks ≡ map first_mark net.now.signals) }
{
    let mut marks = List::new(alloc);
    for signal in net.signals.as_slice() {
        marks.push(first_mark(signal))?;
    }
    Ok(marks)
}

fn first_mark(signal: &Signal) -> Mark
    ensures { result ≡ first_mark signal.now }
{
    match signal.driver {
        Driver::Gate { .. } => Mark::Fresh,
        _ => Mark::Done,
    }
}

fn first_places(alloc: Global, net: &Netlist) -> Result<List<usize>, Memory>
    ensures { IfOk result (λ places. places ≡ replicate (length net.now.signals) 0) }
{
    let mut places = List::new(alloc);
    for _signal in net.signals.as_slice() {
        places.push(0)?;
    }
    Ok(places)
}
