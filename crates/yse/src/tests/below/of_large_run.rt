//! Large designs with ample memory, against draws and texts from outside.

ghost use Rattle.limits.specs.declared.TheConstants.{MAX_LARGE_GATES};
ghost use Rattle.large_run.specs.Draws.{IsState};
ghost use Rattle.std.specs.Prelude.{IfSome, ◌≤◌};

use super::wanted::{Wanted, tell_netlist, tell_rows};
use large_run::{large_net, large_rows};
use std::alloc::Global;

const TWO: &str =
    "INPUT(i0)\nINPUT(i1)\nINPUT(i2)\nINPUT(i3)\nINPUT(i4)\nINPUT(i5)\nINPUT(i6)\nINPUT(i7)\nOUTPUT(g0)\nOUTPUT(g1)\ng0 = NOR(i2, i6)\ng1 = BUFF(g0)\n";

const TEN: &str =
    "INPUT(i0)\nINPUT(i1)\nINPUT(i2)\nINPUT(i3)\nINPUT(i4)\nINPUT(i5)\nINPUT(i6)\nINPUT(i7)\nOUTPUT(g2)\nOUTPUT(g3)\nOUTPUT(g4)\nOUTPUT(g5)\nOUTPUT(g6)\nOUTPUT(g7)\nOUTPUT(g8)\nOUTPUT(g9)\ng0 = NOR(i2, i6)\ng1 = BUFF(g0)\ng2 = NAND(i6, i0)\ng3 = NOT(i0)\ng4 = OR(i1, g0, i3)\ng5 = NOT(g4)\ng6 = NOT(i3)\ng7 = DFF(g4)\ng8 = NOR(g6, g3, i6, i4)\ng9 = NOR(i1, i3, g8)\n";

const TEN_STATE: u32 = 11134;

/// The rows of a design of two gates.
const TWO_ROWS: &str = "11001000*1\n10110111*1\n";

/// Whether two rows that are drawn from a state on are these.
fn are_rows(alloc: Global, state: u32, wanted: &str) -> bool
    requires { IsState state }
{
    let mut wanted = Wanted::new(wanted);
    if let Ok(stimulus) = large_rows(alloc, state, 2) {
        tell_rows(&mut wanted, stimulus.rows.as_slice());
        drop(stimulus);
    }
    wanted.is_told()
}

/// The state of the generator behind a design of so many gates, if this is the design's canonical text.
fn state_behind(alloc: Global, gates: u32, text: &str) -> Option<u32>
    requires { gates ≤ MAX_LARGE_GATES }
    ensures { IfSome result IsState }
{
    let mut wanted = Wanted::new(text);
    let Ok(design) = large_net(alloc, gates) else {
        return None;
    };
    tell_netlist(alloc, &mut wanted, &design.net);
    let state = design.state;
    drop(design);
    if wanted.is_told() { Some(state) } else { None }
}

/// Whether a design of two gates has its text and its rows.
fn is_two(alloc: Global) -> bool {
    match state_behind(alloc, 2, TWO) {
        Some(state) => are_rows(alloc, state, TWO_ROWS),
        None => false,
    }
}

#[test]
fn designs_are_known(rt: HostRuntime) {
    assert!(rt; is_two(rt.alloc()));
    assert!(rt; state_behind(rt.alloc(), 10, TEN) == Some(TEN_STATE));
}
