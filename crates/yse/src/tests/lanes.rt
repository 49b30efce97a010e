//! Runs of lanes and lists of stuck faults: what the calls end with.

use super::{C17, Case, Given, PLAIN, RAM, all_end};

const NOT: &str = "INPUT(a)\nOUTPUT(z)\nz = NOT(a)\n";

const PACKED: Case = Case {
    calls: "pack|pack --workers 1|pack --workers 7",
    ..PLAIN
};

const LANES: &[Case] = &[
    // Two lanes, no lanes, a lane without rows, and comments and blanks around.
    Case {
        netlist: C17,
        rows: "\
lane\n11111\n00000\nlane\nxxxxx\n=> lane 1\ncycle 22 23\n1 10\n2 00\nlane 2\ncycle 22 23\n1 xx\n\
|=> \
|# none\n\n lane\t# one\n\nlane\n11111 * 2 # two\n=> lane 1\ncycle 22 23\nlane 2\ncycle 22 23\n1 10\n2 10\n",
        ..PACKED
    },
    Case {
        netlist: NOT,
        rows: "lane\n0\nlane\n1 * 20\n0\nlane\nz\n=> lane 1\ncycle z\n1 1\nlane 2\ncycle z\n1 0\n2 0\n3 0\n4 0\n5 0\n6 0\n7 0\n8 0\n9 0\n10 0\n11 0\n12 0\n13 0\n14 0\n15 0\n16 0\n17 0\n18 0\n19 0\n20 0\n21 1\nlane 3\ncycle z\n1 x\n",
        ..PACKED
    },
    // Each lane has its own content of a memory.
    Case {
        netlist: RAM,
        rows: "lane\n1001\n0000\n0000\nlane\n1000\n0000\n0000\n=> lane 1\ncycle q\n1 x\n2 x\n3 1\nlane 2\ncycle q\n1 x\n2 x\n3 0\n",
        ..PACKED
    },
    // The cells are those of 30 lanes, however many there are.
    Case {
        netlist: "INPUT(a)\nOUTPUT(a)\nOUTPUT(a)\nOUTPUT(a)\nOUTPUT(a)\nOUTPUT(a)\nOUTPUT(a)\nOUTPUT(a)\nOUTPUT(a)\n",
        rows: "lane\n1 * 1000000\nlane\n1\n=> limit: 270000000 cells, at most 268435456\n",
        ..PACKED
    },
    // A line a piece: one whole line is written before a second write that fails.
    Case {
        netlist: C17,
        stimulus: "lane\n11111\nlane\nxxxxx\n",
        given: Given::FailingWrite,
        rows: "\
2=> lane 1\n=> write fault\n\
|5=> lane 1\ncycle 22 23\n1 10\nlane 2\n=> write fault\n",
        ..PACKED
    },
];

const FAULTS: Case = Case {
    calls: "fault|fault --workers 1|fault --workers 2|fault --workers 7",
    ..PLAIN
};

const STUCK: &[Case] = &[
    Case {
        netlist: C17,
        rows: "11111\n=> 1 0 1 22\n1 1 -\n2 0 -\n2 1 -\n3 0 1 23\n3 1 -\n6 0 1 23\n6 1 -\n7 0 -\n7 1 -\n10 0 -\n10 1 1 22\n11 0 -\n11 1 1 23\n16 0 1 23\n16 1 -\n19 0 1 23\n19 1 -\n22 0 1 22\n22 1 -\n23 0 -\n23 1 1 23\ndetected 9 of 22\n",
        ..FAULTS
    },
    Case {
        netlist: NOT,
        rows: "\
0\n1\n=> a 0 2 z\na 1 1 z\nz 0 1 z\nz 1 2 z\ndetected 4 of 4\n\
|=> a 0 -\na 1 -\nz 0 -\nz 1 -\ndetected 0 of 4\n",
        ..FAULTS
    },
    Case {
        stimulus: "-\n",
        given: Given::Netlist,
        rows: "\
=> detected 0 of 0\n\
|OUTPUT(a)\na = NOT(a)\n=> loop: a\n",
        ..FAULTS
    },
    Case {
        netlist: NOT,
        stimulus: "0\n1\n",
        given: Given::FailingWrite,
        rows: "\
2=> a 0 2 z\n=> write fault\n\
|5=> a 0 2 z\na 1 1 z\nz 0 1 z\nz 1 2 z\n=> write fault\n",
        ..FAULTS
    },
];

#[test]
fn lanes_and_faults_end_as_stated(rt: HostRuntime) {
    assert!(rt; all_end(&rt, rt.alloc(), LANES));
    assert!(rt; all_end(&rt, rt.alloc(), STUCK));
}
