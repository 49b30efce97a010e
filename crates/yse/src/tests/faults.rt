//! Lists of stuck faults. Where a fault is seen was found by one run of `refer` for each fault, on a netlist in which
//! the stuck signal's gate or register is replaced by an input of a constant value. A memory's outputs can't be
//! replaced so; their lines are those of a second program.

use super::{BUS, C17, Case, Given, LATCH, PLAIN, RAM, S27, all_end};

const FAULTS: Case = Case {
    calls: "fault --workers 1|fault --workers 2|fault --workers 7",
    ..PLAIN
};

/// Cases over a list of faults.
const LISTED: Case = Case {
    words: "net.bench net.stim --faults net.more",
    ..FAULTS
};

/// All faults. In the last row of c17 no input is known.
const CASES: &[Case] = &[
    Case {
        netlist: C17,
        rows: "\
11111\n00000\n01010\n=> 1 0 1 22\n1 1 -\n2 0 3 22\n2 1 2 22\n3 0 1 23\n3 1 3 22\n6 0 1 23\n6 1 -\n7 0 -\n7 1 2 23\n10 0 2 22\n10 1 1 22\n11 0 3 22\n11 1 1 23\n16 0 1 23\n16 1 3 22\n19 0 1 23\n19 1 -\n22 0 1 22\n22 1 2 22\n23 0 3 23\n23 1 1 23\ndetected 18 of 22\n\
|xxxxx\n=> 1 0 -\n1 1 -\n2 0 -\n2 1 -\n3 0 -\n3 1 -\n6 0 -\n6 1 -\n7 0 -\n7 1 -\n10 0 -\n10 1 -\n11 0 -\n11 1 -\n16 0 -\n16 1 -\n19 0 -\n19 1 -\n22 0 -\n22 1 -\n23 0 -\n23 1 -\ndetected 0 of 22\n",
        ..FAULTS
    },
    Case {
        netlist: S27,
        stimulus: "0000\n0001\n0000\n1000\n0001\n",
        given: Given::Words,
        rows: "\
--init 0=> G0 0 4 G17\nG0 1 2 G17\nG1 0 -\nG1 1 2 G17\nG2 0 -\nG2 1 -\nG3 0 2 G17\nG3 1 1 G17\nG5 0 5 G17\nG5 1 2 G17\nG6 0 3 G17\nG6 1 1 G17\nG7 0 -\nG7 1 2 G17\nG14 0 2 G17\nG14 1 4 G17\nG17 0 1 G17\nG17 1 2 G17\nG8 0 3 G17\nG8 1 1 G17\nG15 0 2 G17\nG15 1 -\nG16 0 2 G17\nG16 1 1 G17\nG9 0 1 G17\nG9 1 2 G17\nG10 0 5 G17\nG10 1 2 G17\nG11 0 2 G17\nG11 1 1 G17\nG12 0 2 G17\nG12 1 -\nG13 0 -\nG13 1 2 G17\ndetected 27 of 34\n\
|=> G0 0 -\nG0 1 -\nG1 0 -\nG1 1 -\nG2 0 -\nG2 1 -\nG3 0 -\nG3 1 -\nG5 0 -\nG5 1 -\nG6 0 -\nG6 1 -\nG7 0 -\nG7 1 -\nG14 0 -\nG14 1 -\nG17 0 4 G17\nG17 1 -\nG8 0 -\nG8 1 4 G17\nG15 0 -\nG15 1 -\nG16 0 -\nG16 1 -\nG9 0 4 G17\nG9 1 -\nG10 0 -\nG10 1 -\nG11 0 -\nG11 1 4 G17\nG12 0 -\nG12 1 -\nG13 0 -\nG13 1 -\ndetected 4 of 34\n",
        ..FAULTS
    },
    Case {
        netlist: RAM,
        rows: "1101\n0100\n0100\n1100\n0100\n0100\n=> we 0 -\nwe 1 4 q\na0 0 -\na0 1 -\na1 0 -\na1 1 -\nd 0 3 q\nd 1 6 q\nq 0 3 q\nq 1 6 q\ndetected 5 of 10\n",
        ..FAULTS
    },
    Case {
        netlist: BUS,
        rows: "1000\n1001\n1010\n1110\n1011\n0000\nx000\n1100\n=> e 0 -\ne 1 -\na 0 8 y\na 1 1 y\nf 0 -\nf 1 -\nb 0 -\nb 1 -\nt 0 8 y\nt 1 1 y\nu 0 -\nu 1 -\ny 0 8 y\ny 1 1 y\ndetected 6 of 14\n",
        ..FAULTS
    },
    // A loop in unit delay, and cut by one listed gate.
    Case {
        netlist: LATCH,
        stimulus: "01\n11\n10\n",
        more: "q\n",
        given: Given::Words,
        rows: "\
--mode unit --units 4=> s 0 3 q\ns 1 -\nr 0 1 p\nr 1 3 q\nq 0 1 q\nq 1 3 q\np 0 3 q\np 1 1 p\ndetected 7 of 8\n\
|--mode mixed --last net.more --units 2=> s 0 3 q\ns 1 -\nr 0 1 p\nr 1 3 q\nq 0 1 q\nq 1 3 q\np 0 3 q\np 1 1 p\ndetected 7 of 8\n",
        ..FAULTS
    },
    Case {
        words: "net.bench net.stim --mode unit --units 2",
        netlist: C17,
        rows: "11111 * 2\n00000 * 2\n=> 1 0 2 22\n1 1 -\n2 0 -\n2 1 4 22\n3 0 2 23\n3 1 -\n6 0 2 23\n6 1 -\n7 0 -\n7 1 4 23\n10 0 4 22\n10 1 2 22\n11 0 -\n11 1 2 23\n16 0 2 23\n16 1 -\n19 0 2 23\n19 1 -\n22 0 2 22\n22 1 4 22\n23 0 -\n23 1 2 23\ndetected 13 of 22\n",
        ..FAULTS
    },
];

#[test]
fn faults_are_seen_as_in_edited_netlists(rt: HostRuntime) {
    assert!(rt; all_end(&rt, rt.alloc(), CASES));
}

/// Lists of faults.
const LISTS: &[Case] = &[
    // Faults of a list, in its order: those lines are the ones that all faults give. No fault, and no line. Comments,
    // blanks, a line end of two bytes, and a last line without one. Both faults of a signal. Then lists that are
    // refused: told is the first line with a fault, and of its faults the first.
    Case {
        netlist: C17,
        stimulus: "11111\n",
        given: Given::More,
        rows: "\
22 0\n1 1\n1 0 -\n=> 22 0 1 22\n1 1 -\n1 0 1 22\ndetected 2 of 3\n\
|=> detected 0 of 0\n\
|# left over\n\n \t10  1\t-  # seen\r\n22 1=> 10 1 1 22\n22 1 -\ndetected 1 of 2\n\
|22 1\n22 0\n=> 22 1 -\n22 0 1 22\ndetected 1 of 2\n\
|1 2\n=> fault list: line 1: syntax\n\
|1\n=> fault list: line 1: syntax\n\
|\n1 0 - -\n=> fault list: line 2: syntax\n\
|1 0 +\n=> fault list: line 1: syntax\n\
|1 0 1 22\n=> fault list: line 1: syntax\n\
|a=b 0\n=> fault list: line 1: syntax\n\
|q 0\n=> fault list: line 1: no such signal\n\
|1 0\n1 0 -\n=> fault list: line 2: given twice\n\
|1 0\n1 0\nq 0\n1 2\n=> fault list: line 2: given twice\n\
|q 2\n=> fault list: line 1: syntax\n",
        ..LISTED
    },
    // The list comes after the loop, and before the stimulus.
    Case {
        netlist: "OUTPUT(a)\na = NOT(a)\n",
        more: "1 2\n",
        rows: "-\n=> loop: a\n",
        ..LISTED
    },
    Case {
        netlist: C17,
        more: "q 0\n",
        rows: "1\n=> fault list: line 1: no such signal\n",
        ..LISTED
    },
    // A list that is not there.
    Case {
        words: "net.bench net.stim --faults other",
        netlist: C17,
        rows: "1\n=> read fault: other\n",
        ..LISTED
    },
    // A line a piece.
    Case {
        netlist: C17,
        stimulus: "11111\n",
        more: "22 0\n1 1\n",
        given: Given::FailingWrite,
        rows: "2=> 22 0 1 22\n=> write fault\n",
        ..LISTED
    },
];

#[test]
fn lists_of_faults_end_as_stated(rt: HostRuntime) {
    assert!(rt; all_end(&rt, rt.alloc(), LISTS));
}
