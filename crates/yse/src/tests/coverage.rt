//! Coverage. The values were worked out by hand, or by a second program from the cells that `refer` prints with every
//! signal printed.

use super::{BUS, C17, Case, Given, LATCH, PLAIN, RAM, S27, all_end};

const NOT: &str = "INPUT(a)\nOUTPUT(z)\nz = NOT(a)\n";

const COVERED: Case = Case {
    calls: "cover",
    ..PLAIN
};

const CASES: &[Case] = &[
    // In the third row no change is seen through X.
    Case {
        netlist: NOT,
        rows: "\
0\n1\n=> a 01r-\nz 01-f\ncovered 0 of 2\n\
|0\n1\n0\n=> a 01rf\nz 01rf\ncovered 2 of 2\n\
|0\nx\n1 * 3\n=> a 01--\nz 01--\ncovered 0 of 2\n\
|1 * 1000000\n=> a -1--\nz 0---\ncovered 0 of 2\n",
        ..COVERED
    },
    // No cycle, and no signal.
    Case {
        netlist: C17,
        rows: "\
=> 1 ----\n2 ----\n3 ----\n6 ----\n7 ----\n10 ----\n11 ----\n16 ----\n19 ----\n22 ----\n23 ----\ncovered 0 of 11\n\
|1\n=> stimulus: line 1: 1 values, 5 wanted\n",
        ..COVERED
    },
    Case {
        rows: "=> covered 0 of 0\n",
        ..COVERED
    },
    Case {
        words: "net.bench net.stim --init 0",
        netlist: S27,
        rows: "0000\n0001\n0000\n1000\n0001\n=> G0 01rf\nG1 0---\nG2 0---\nG3 01rf\nG5 01r-\nG6 01rf\nG7 0---\nG14 01rf\nG17 01rf\nG8 01rf\nG15 -1--\nG16 01rf\nG9 01rf\nG10 01rf\nG11 01rf\nG12 -1--\nG13 0---\ncovered 10 of 17\n",
        ..COVERED
    },
    Case {
        netlist: RAM,
        rows: "1101\n0100\n0100\n1100\n0100\n0100\n=> we 01rf\na0 -1--\na1 0---\nd 01-f\nq 01-f\ncovered 1 of 5\n",
        ..COVERED
    },
    // A bus of two drivers: X and Z are no marks.
    Case {
        netlist: BUS,
        rows: "1000\n1001\n1010\n1110\n1011\n0000\nx000\n1100\n=> e 01-f\na 01rf\nf 01rf\nb 01rf\nt 01rf\nu 01r-\ny 01--\ncovered 4 of 7\n",
        ..COVERED
    },
    // Within a cycle nothing is looked at.
    Case {
        netlist: LATCH,
        stimulus: "01\n11\n10\n",
        more: "q\n",
        given: Given::Words,
        rows: "\
--mode unit --units 4=> s 01r-\nr 01-f\nq 01-f\np 01r-\ncovered 0 of 4\n\
|--mode mixed --last net.more --units 2=> s 01r-\nr 01-f\nq 01-f\np 01r-\ncovered 0 of 4\n",
        ..COVERED
    },
    // The loop comes before the stimulus.
    Case {
        netlist: LATCH,
        rows: "1\n=> loop: q p\n",
        ..COVERED
    },
    // A line a piece.
    Case {
        netlist: NOT,
        stimulus: "0\n1\n",
        given: Given::FailingWrite,
        rows: "2=> a 01r-\n=> write fault\n",
        ..COVERED
    },
];

#[test]
fn signals_are_covered_as_worked_out(rt: HostRuntime) {
    assert!(rt; all_end(&rt, rt.alloc(), CASES));
}
