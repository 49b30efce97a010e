//! Calls in mixed mode: lists of gates that are read and lists that are refused, and what a listed
//! gate and the others read.

use super::{C17, Case, Given, LATCH, PLAIN, RAM, S27, WIDE, all_end};

/// Cases of the commands that print a trace, with numbers of workers and of banks.
const ONE_UNIT: Case = Case {
    calls: "refer|run --workers 1|run --workers 7|run --banks 3|order|order --banks 3",
    words: "net.bench net.stim --mode mixed --last net.more",
    given: Given::More,
    ..PLAIN
};

const TWO_UNITS: Case = Case {
    words: "net.bench net.stim --mode mixed --last net.more --units 2",
    ..ONE_UNIT
};

const LATCH_ROWS: &str = "01\n11\n10\n";

/// The latch, and a loop beside one that is cut.
const LOOPS: &[Case] = &[
    // The latch, whose loop one listed gate cuts: in two turns it is stable, in one it is not yet. Where neither is
    // listed the loop is refused. So is a loop beside one that is cut.
    Case {
        netlist: LATCH,
        stimulus: LATCH_ROWS,
        rows: "\
q\n=> cycle q p\n1 10\n2 10\n3 01\n\
|=> loop: q p\n",
        ..TWO_UNITS
    },
    Case {
        netlist: LATCH,
        stimulus: LATCH_ROWS,
        rows: "\
q\n=> cycle q p\n1 xx\n2 10\n3 11\n\
|p\n=> cycle q p\n1 1x\n2 10\n3 10\n",
        ..ONE_UNIT
    },
    Case {
        netlist: "OUTPUT(a)\na = NOT(a)\nb = NOT(b)\n",
        stimulus: "-\n",
        rows: "a\n=> loop: b\n",
        ..ONE_UNIT
    },
    // Both gates: as in unit delay. The list has a comment, a line end of two bytes and blanks.
    Case {
        words: "net.bench net.stim --mode mixed --last net.more --units 4",
        netlist: LATCH,
        stimulus: LATCH_ROWS,
        rows: "\tp # and\r\n\r\n q=> cycle q p\n1 10\n2 10\n3 01\n",
        ..ONE_UNIT
    },
];

#[test]
fn loops_end_as_stated(rt: HostRuntime) {
    assert!(rt; all_end(&rt, rt.alloc(), LOOPS));
}

/// Lists that are refused, a list that is missing, and a netlist that is refused before its list is read.
const REFUSED: &[Case] = &[
    // Lists that are refused, before the loop and before the stimulus.
    Case {
        netlist: LATCH,
        stimulus: LATCH_ROWS,
        rows: "\
s\n=> last list: line 1: no such gate\n\
|q p\n=> last list: line 1: syntax\n",
        ..TWO_UNITS
    },
    Case {
        netlist: LATCH,
        stimulus: "2\n",
        rows: "q\nq\n=> last list: line 2: given twice\n",
        ..TWO_UNITS
    },
    // A name that is too long. A mark ends no name here, and the case of letters is kept.
    Case {
        netlist: C17,
        stimulus: "11111\n",
        rows: "\
22 # 23\nnnnnnnnnnnnnnnnnnnnnnnnnnnnnnnnnnnnnnnnnnnnnnnnnnnnnnnnnnnnnnnnnnnnnnnnnnnnnnnnnnnnnnnnnnnnnnnnnnnnnnnnnnnnnnnnnnnnnnnnnnnnnnnnnnnnnnnnnnnnnnnnnnnnnnnnnnnnnnnnnnnnnnnnnnnnnnnnnnnnnnnnnnnnnnnnnnnnnnnnnnnnnnnnnnnnnnnnnnnnnnnnnnnnnnnnnnnnnnnnnnnnnnnnnnnnnnnnn\n=> last list: line 2: syntax\n\
|22\n23,\n=> last list: line 2: syntax\n",
        ..ONE_UNIT
    },
    // A register and the output of a memory are no gates.
    Case {
        netlist: S27,
        stimulus: "0000\n",
        rows: "\
G17\ng17\n=> last list: line 2: no such gate\n\
|G17\nG5\n=> last list: line 2: no such gate\n",
        ..ONE_UNIT
    },
    Case {
        netlist: RAM,
        stimulus: "0000\n",
        rows: "q\n=> last list: line 1: no such gate\n",
        ..ONE_UNIT
    },
    // The list is read behind the netlist, and a file that is missing is told.
    Case {
        netlist: "INPUT(a\n",
        stimulus: "0\n",
        rows: "(\n=> netlist: line 1: syntax\n",
        ..ONE_UNIT
    },
    Case {
        words: "net.bench net.stim --mode mixed --last other",
        netlist: LATCH,
        stimulus: LATCH_ROWS,
        rows: "=> read fault: other\n",
        ..ONE_UNIT
    },
];

#[test]
fn refused_lists_end_as_stated(rt: HostRuntime) {
    assert!(rt; all_end(&rt, rt.alloc(), REFUSED));
}

/// Listed gates in time.
const TURNS: &[Case] = &[
    // A gate of 17 operands that is listed is one unit, and one that is not takes no time.
    Case {
        netlist: WIDE,
        stimulus: "11111111111111111\n11111111111111110\n",
        rows: "\
z\n=> cycle z\n1 x\n2 1\n\
|=> cycle z\n1 1\n2 0\n",
        ..ONE_UNIT
    },
    Case {
        netlist: WIDE,
        stimulus: "11111111111111111\n11111111111111110\n",
        rows: "z\n=> cycle z\n1 1\n2 0\n",
        ..TWO_UNITS
    },
    // Every gate: as in unit delay. No gate: as in rank order, however many turns a cycle has.
    Case {
        words: "net.bench net.stim --mode mixed --last net.more --units 3",
        netlist: C17,
        stimulus: "11111 * 2\n",
        rows: "10\n11\n16\n19\n22\n23\n=> cycle 22 23\n1 1x\n2 10\n",
        ..ONE_UNIT
    },
    Case {
        words: "net.bench net.stim --mode mixed --last net.more --units 3 --init 0",
        netlist: S27,
        stimulus: "0000\n0001\n0000\n1000\n0001\n",
        rows: "=> cycle G17\n1 1\n2 0\n3 0\n4 1\n5 1\n",
        ..ONE_UNIT
    },
    Case {
        netlist: RAM,
        stimulus: "1101\n0100\n0100\n1100\n0100\n0100\n",
        rows: "# none\n=> cycle q\n1 x\n2 x\n3 1\n4 1\n5 1\n6 0\n",
        ..TWO_UNITS
    },
];

const PLANNED: Case = Case {
    calls: "plan",
    words: "net.bench --mode mixed --last net.more",
    given: Given::More,
    ..PLAIN
};

const PLANS: &[Case] = &[
    // What a listed gate reads is sent in any slot.
    Case {
        netlist: LATCH,
        rows: "\
q\n=> slots 3\nl0 items 1 tables 1 takes 2\nl1 items 1 tables 1 takes 2\nl2 items 0 tables 0 takes 0\nl3 items 0 tables 0 takes 0\na0 items 0 bits 0 takes 0\nh items 2 takes 2\ns h 0 l0\nr h 1 l1\nq l0 0 l1 h\np l1 2 l0 h\n\
|r\n=> last list: line 1: no such gate\n\
|=> loop: q p\n",
        ..PLANNED
    },
    // A gate of five operands that is listed has helpers of the same turn, and the gate that reads it comes after it.
    Case {
        netlist: "INPUT(a)\nINPUT(b)\nOUTPUT(y)\nz = NAND(a, b, a, b, a)\ny = NOT(z)\n",
        rows: "z\n=> slots 4\nl0 items 1 tables 1 takes 2\nl1 items 1 tables 1 takes 1\nl2 items 1 tables 1 takes 2\nl3 items 1 tables 1 takes 1\na0 items 0 bits 0 takes 0\nh items 2 takes 1\na h 0 l0 l1\nb h 1 l0\nz/0 l0 0 l2\nz/1 l1 1 l2\nz l2 2 l3\ny l3 3 h\n",
        ..PLANNED
    },
];

#[test]
fn listed_gates_end_as_stated(rt: HostRuntime) {
    assert!(rt; all_end(&rt, rt.alloc(), TURNS));
    assert!(rt; all_end(&rt, rt.alloc(), PLANS));
}
