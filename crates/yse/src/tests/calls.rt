//! Whole calls: what the commands end with, each over the same files.

use super::{BUS, C17, Case, Given, LATCH, PLAIN, RAM, S27, WIDE, all_end};

const REGISTER: &str = "INPUT(a)\nOUTPUT(q)\nq = DFF(a)\n";

/// Cases of the commands that print a trace.
const TRACED: Case = Case {
    calls: "run|refer|order",
    ..PLAIN
};

/// Netlists that people have, and stimuli that are refused.
const PUBLISHED: &[Case] = &[
    // C17, in rank order, and in three units, with a repeat.
    Case {
        netlist: C17,
        rows: "\
11111\n00000\nxxxxx\n=> cycle 22 23\n1 10\n2 00\n3 xx\n\
|=> cycle 22 23\n\
|1111\n=> stimulus: line 1: 4 values, 5 wanted\n\
|11112\n=> stimulus: line 1: bad character\n\
|11111 * 0\n=> stimulus: line 1: bad repeat\n\
|11111 * 1000000\n00000\n=> stimulus: too many cycles\n",
        ..TRACED
    },
    Case {
        words: "net.bench net.stim --mode unit --units 3",
        netlist: C17,
        rows: "11111 * 2\n=> cycle 22 23\n1 1x\n2 10\n",
        ..TRACED
    },
    // S27, with the initial values 0 and x.
    Case {
        words: "net.bench net.stim --init 0",
        netlist: S27,
        rows: "0000 * 3\n=> cycle G17\n1 1\n2 1\n3 1\n",
        ..TRACED
    },
    Case {
        netlist: S27,
        stimulus: "0000\n0001\n0000\n1000\n0001\n",
        given: Given::Words,
        rows: "\
--init 0=> cycle G17\n1 1\n2 0\n3 0\n4 1\n5 1\n\
|=> cycle G17\n1 x\n2 x\n3 x\n4 1\n5 1\n",
        ..TRACED
    },
];

#[test]
fn published_netlists_end_as_stated(rt: HostRuntime) {
    assert!(rt; all_end(&rt, rt.alloc(), PUBLISHED));
}

/// Small netlists, each for one thing.
const SMALL: &[Case] = &[
    // The latch: a loop in rank order, and none in unit delay.
    Case {
        netlist: LATCH,
        stimulus: "01\n11\n10\n",
        given: Given::Words,
        rows: "\
=> loop: q p\n\
|--mode unit --units 4=> cycle q p\n1 10\n2 10\n3 01\n",
        ..TRACED
    },
    // A gate of 17 operands is one unit.
    Case {
        words: "net.bench net.stim --mode unit --units 2",
        netlist: WIDE,
        rows: "11111111111111111\n11111111111111110\n=> cycle z\n1 1\n2 0\n",
        ..TRACED
    },
    // A buffer in unit delay.
    Case {
        words: "net.bench net.stim --mode unit",
        netlist: "INPUT(a)\nOUTPUT(z)\nz = BUFF(a)\n",
        rows: "0\n1\n1\n=> cycle z\n1 x\n2 0\n3 1\n",
        ..TRACED
    },
    // A bus of two tri-state drivers.
    Case {
        netlist: BUS,
        rows: "0100\n1100\n1110\n1111\n1z00\n=> cycle y\n1 z\n2 1\n3 x\n4 1\n5 x\n",
        ..TRACED
    },
    // A memory: the read before the write.
    Case {
        netlist: RAM,
        rows: "1101\n0100\n0100\n1100\n0100\n0100\n=> cycle q\n1 x\n2 x\n3 1\n4 1\n5 1\n6 0\n",
        ..TRACED
    },
    // An undefined address, an undefined enable, enables and data of high impedance, and a write to an undefined
    // address, after which no word is known.
    Case {
        words: "net.bench net.stim --init 0",
        netlist: RAM,
        rows: "\
0000\n1x01\n0000\n0000\n=> cycle q\n1 0\n2 0\n3 x\n4 x\n\
|0000\n0x01\n0000\n0000\n=> cycle q\n1 0\n2 0\n3 x\n4 0\n\
|0000\n0x01\n0000\nz111\n101z\n0110\n0010\n1x01\n0000\n1000\n0000\n0000\n=> cycle q\n1 0\n2 0\n3 x\n4 0\n5 0\n6 0\n7 x\n8 x\n9 x\n10 x\n11 x\n12 0\n",
        ..TRACED
    },
    // A netlist of no bytes.
    Case {
        rows: "- * 2\n=> cycle\n1 \n2 \n",
        ..TRACED
    },
    // An input printed twice.
    Case {
        netlist: "INPUT(a)\nOUTPUT(a)\nOUTPUT(a)\n",
        rows: "1\nz\n=> cycle a a\n1 11\n2 zz\n",
        ..TRACED
    },
    // A register that breaks a loop.
    Case {
        words: "net.bench net.stim --init 0",
        netlist: "OUTPUT(q)\nn = NOT(q)\nq = DFF(n)\n",
        rows: "- * 4\n=> cycle q\n1 0\n2 1\n3 0\n4 1\n",
        ..TRACED
    },
    // A register: undefined at first, and after high impedance.
    Case {
        netlist: REGISTER,
        rows: "1\n0\nz\n0\n=> cycle q\n1 x\n2 1\n3 0\n4 x\n",
        ..TRACED
    },
    Case {
        words: "net.bench net.stim --mode unit --units 3 --init 0",
        netlist: REGISTER,
        rows: "1\n0\n=> cycle q\n1 0\n2 1\n",
        ..TRACED
    },
    // A file that isn't there.
    Case {
        words: "net.bench other",
        netlist: C17,
        rows: "=> read fault: other\n",
        ..TRACED
    },
    // Options before the files and behind them, and what stands behind `--`.
    Case {
        words: "--units=3 net.bench --mode unit -- net.stim",
        netlist: C17,
        rows: "11111 * 2\n=> cycle 22 23\n1 1x\n2 10\n",
        ..TRACED
    },
];

#[test]
fn small_netlists_end_as_stated(rt: HostRuntime) {
    assert!(rt; all_end(&rt, rt.alloc(), SMALL));
}

/// Cases in which one write fails.
const WRITTEN: Case = Case {
    words: "net.bench",
    given: Given::FailingWrite,
    ..PLAIN
};

/// A text is one piece: there is no second write that could fail.
const TEXTS: &[Case] = &[
    Case {
        calls: "show",
        netlist: RAM,
        rows: "2=> INPUT(we)\nINPUT(a0)\nINPUT(a1)\nINPUT(d)\nOUTPUT(q)\n[q] = RAM(we; a0, a1; d)\n",
        ..WRITTEN
    },
    Case {
        calls: "plan",
        rows: "2=> slots 0\nl0 items 0 tables 0 takes 0\nl1 items 0 tables 0 takes 0\nl2 items 0 tables 0 takes 0\nl3 items 0 tables 0 takes 0\na0 items 0 bits 0 takes 0\nh items 0 takes 0\n",
        ..WRITTEN
    },
    Case {
        calls: "large",
        words: "2 2",
        rows: "2=> gates 2 nodes 2 slots 9 crossings 5\nzeros 2 ones 2 xs 0 zs 0\n",
        ..WRITTEN
    },
];

#[test]
fn texts_end_as_stated(rt: HostRuntime) {
    assert!(rt; all_end(&rt, rt.alloc(), TEXTS));
}
