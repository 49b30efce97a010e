//! `refer` with ample memory, against the rows that whole calls print and a loop.

ghost use Rattle.net_defs.specs.Valid.{IsValid, IsValidTiming};

use super::items::{netlist_of, timing_of};
use super::wanted::{Wanted, parts_of, tell_values};
use net_defs::{Netlist, Rows, Timing};
use ref_sim::{RefNo, refer};
use std::alloc::Global;
use stim_text::read_stim;

/// Netlists with `|` between them, each in the timing that its word names. Behind the first `=>` stand the rows of a stimulus,
/// and behind the second the values of the printed names, a line a cycle, or the loop.
const CASES: &str = "\
rank: INPUT(G0)\nINPUT(G1)\nINPUT(G2)\nINPUT(G3)\nOUTPUT(G17)\nG5 = DFF(G10)\nG6 = DFF(G11)\nG7 = DFF(G13)\nG14 = NOT(G0)\n\
G17 = NOT(G11)\nG8 = AND(G14, G6)\nG15 = OR(G12, G8)\nG16 = OR(G3, G8)\nG9 = NAND(G16, G15)\nG10 = NOR(G14, G11)\n\
G11 = NOR(G5, G9)\nG12 = NOR(G1, G7)\nG13 = NOR(G2, G12)\n\
=> 0000\n0001\n0000\n1000\n0001\n=> 1\n0\n0\n1\n1\n\
|q: INPUT(s)\nINPUT(r)\nOUTPUT(q)\nOUTPUT(p)\nq = NAND(s, p)\np = NAND(r, q)\n\
=> 01\n11\n10\n=> 10\n10\n01\n\
|rank: INPUT(s)\nINPUT(r)\nOUTPUT(q)\nOUTPUT(p)\nq = NAND(s, p)\np = NAND(r, q)\n\
=> 01\n=> loop 2 3\n";

fn cases() -> &'static str {
    CASES
}

fn tell_run(wanted: &mut Wanted<'_>, run: &Result<Rows, RefNo>) {
    match run {
        Ok(rows) => {
            for row in rows.rows.as_slice() {
                tell_values(wanted, row.cells.as_slice());
                wanted.tell(b"\n");
            }
        }
        Err(RefNo::Loop(members)) => wanted.tell_line("loop", members.as_slice()),
        Err(RefNo::Memory) => wanted.tell(b"no memory"),
    }
}

/// Tells what a netlist comes to under these rows.
fn tell_under(alloc: Global, wanted: &mut Wanted<'_>, net: &Netlist, timing: &Timing, rows: &str)
    requires valid { IsValid net.now }
    requires timing { IsValidTiming timing.now }
{
    if rows.len() > 1_000_000 {
        return;
    }
    if let Ok(stimulus) = read_stim(alloc, rows.as_bytes(), net.inputs()) {
        let run = refer(alloc, net, timing, &stimulus);
        tell_run(wanted, &run);
        drop(run);
        drop(stimulus);
    }
}

/// Whether a case comes to this.
fn is_simulated(alloc: Global, case: &str) -> bool {
    let (word, text, rest) = parts_of(case);
    let (rows, told) = rest.split_once("=> ").unwrap_or((rest, "a case"));
    let mut wanted = Wanted::new(told);
    if let Some(net) = netlist_of(alloc, text) {
        if let Some(timing) = timing_of(alloc, word, &net) {
            tell_under(alloc, &mut wanted, &net, &timing, rows);
            drop(timing);
        }
        drop(net);
    }
    wanted.is_told()
}

#[test]
fn reference_has_these_rows(rt: HostRuntime) {
    for case in cases().split('|') {
        assert!(rt; is_simulated(rt.alloc(), case));
    }
}
