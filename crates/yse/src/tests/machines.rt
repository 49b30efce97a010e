//! Runs on the machine of a text: machines that hold the design, designs that are overfull, and
//! machine texts that are refused. And plans on such a machine.

use super::{C17, Case, Given, LATCH, PLAIN, RAM, all_end};

const TWO_GATES: &str = "INPUT(a)\nINPUT(b)\nOUTPUT(y)\ny = AND(a, b)\nz = OR(a, b)\n";

/// A memory of 65,536 words of two bits.
const LARGE: &str =
    "INPUT(a)\n[q0, q1] = RAM(a; a, a, a, a, a, a, a, a, a, a, a, a, a, a, a, a; a, a)\n";

const ON_MACHINE: Case = Case {
    calls: "run",
    words: "net.bench net.stim --machine net.machine",
    ..PLAIN
};

const CASES: &[Case] = &[
    // C17 on machines that hold it, first eleven items in nine slots; on one where it does not fit; and texts that are
    // refused.
    Case {
        netlist: C17,
        stimulus: "11111\n00000\nxxxxx\n",
        given: Given::Machine,
        rows: "\
logic 1\nslots 9\n=> cycle 22 23\n1 10\n2 00\n3 xx\n\
|logic 1\narray 0\n=> cycle 22 23\n1 10\n2 00\n3 xx\n\
|logic 2\narray 0\n=> cycle 22 23\n1 10\n2 00\n3 xx\n\
|logic 4\narray 0\n=> cycle 22 23\n1 10\n2 00\n3 xx\n\
|logic 254\narray 0\n=> cycle 22 23\n1 10\n2 00\n3 xx\n\
|logic 2\nslots 7\n=> overfull: slots: 8 needed, limit is 7\n\
|logic 0\n=> machine: line 1: out of range\n\
|logic 254\narray 2\n=> machine: 257 ports, limit is 256\n\
|slots 5\nslots 5\n=> machine: line 2: given twice\n\
|wheels 4\n=> machine: line 1: syntax\n",
        ..ON_MACHINE
    },
    // Two different tables, one for each of two processors, and one too many for one.
    Case {
        netlist: TWO_GATES,
        machine: "logic 2\nfunctions 1\n",
        rows: "11\n01\n=> cycle y\n1 1\n2 0\n",
        ..ON_MACHINE
    },
    Case {
        netlist: TWO_GATES,
        machine: "logic 1\nfunctions 1\n",
        rows: "11\n=> overfull: functions of logic port 0: 2 needed, limit is 1\n",
        ..ON_MACHINE
    },
    Case {
        netlist: LARGE,
        stimulus: "1\n",
        given: Given::Machine,
        rows: "\
# the default\n=> overfull: bits of memory q0: 131072 needed, 65536 left\n\
|array 0\n=> overfull: bits of memory q0: 131072 needed, 0 left\n",
        ..ON_MACHINE
    },
    // A loop is refused before the room is.
    Case {
        netlist: LATCH,
        machine: "logic 1\nslots 1\n",
        rows: "01\n=> loop: q p\n",
        ..ON_MACHINE
    },
];

/// A gate of five operands and a memory of four words of two bits.
const CUT: &str =
    "INPUT(a1)\nINPUT(a2)\nINPUT(a3)\nINPUT(a4)\nINPUT(a5)\nOUTPUT(z)\nOUTPUT(q)\nz = NAND(a1, a2, a3, a4, a5)\n[q, r] = RAM(a1; a2, z; a3, z)\n";

const PLANNED: Case = Case {
    calls: "plan",
    words: "net.bench --machine net.machine",
    ..PLAIN
};

/// Plans and their reports.
const LAYOUTS: &[Case] = &[
    // The second row has eleven items in nine slots.
    Case {
        netlist: C17,
        given: Given::Machine,
        rows: "\
logic 2\n=> slots 8\nl0 items 3 tables 1 takes 4\nl1 items 3 tables 1 takes 4\na0 items 0 bits 0 takes 0\nh items 5 takes 2\n1 h 0 l0\n2 h 1 l0\n3 h 2 l0 l1\n6 h 3 l1\n7 h 4 l1\n10 l0 3\n11 l1 4 l0\n16 l0 5 l1\n19 l1 5\n22 l0 6 h\n23 l1 7 h\n\
|logic 1\nslots 9\n=> slots 9\nl0 items 6 tables 1 takes 5\na0 items 0 bits 0 takes 0\nh items 5 takes 2\n1 h 0 l0\n2 h 1 l0\n3 h 2 l0\n6 h 3 l0\n7 h 4 l0\n10 l0 3\n11 l0 4\n16 l0 5\n19 l0 6\n22 l0 7 h\n23 l0 8 h\n",
        ..PLANNED
    },
    // In rank order and in unit delay.
    Case {
        netlist: CUT,
        machine: "logic 2\n",
        given: Given::Words,
        rows: "\
=> slots 7\nl0 items 2 tables 2 takes 5\nl1 items 1 tables 1 takes 1\na0 items 2 bits 8 takes 4\nh items 5 takes 2\na1 h 0 l0 a0\na2 h 1 l0 a0\na3 h 2 l0 a0\na4 h 3 l0\na5 h 4 l1\nq a0 0 h\nr a0 1\nz/0 l0 4\nz/1 l1 5 l0\nz l0 6 a0 h\n\
|--mode unit=> slots 6\nl0 items 2 tables 2 takes 5\nl1 items 1 tables 1 takes 1\na0 items 2 bits 8 takes 4\nh items 5 takes 2\na1 h 0 l0 a0\na2 h 1 l0 a0\na3 h 2 l0 a0\na4 h 3 l0\na5 h 4 l1\nq a0 0 h\nr a0 1\nz/0 l0 0\nz/1 l1 4 l0\nz l0 5 a0 h\n",
        ..PLANNED
    },
    // A memory, and a second array processor that has nothing to do.
    Case {
        netlist: RAM,
        machine: "logic 1\narray 2\n",
        rows: "=> slots 4\nl0 items 0 tables 0 takes 0\na0 items 1 bits 4 takes 4\na1 items 0 bits 0 takes 0\nh items 4 takes 1\nwe h 0 a0\na0 h 1 a0\na1 h 2 a0\nd h 3 a0\nq a0 0 h\n",
        ..PLANNED
    },
    // A gate that is cut into two helpers and its own node. An input that is printed, which is at the host already,
    // however often it is printed. And no item.
    Case {
        machine: "logic 1\narray 0\n",
        given: Given::Netlist,
        rows: "\
INPUT(a)\nINPUT(b)\nOUTPUT(z)\nz = NAND(a, b, a, b, a)\n=> slots 4\nl0 items 3 tables 3 takes 2\nh items 2 takes 1\na h 0 l0\nb h 1 l0\nz/0 l0 2\nz/1 l0 1\nz l0 3 h\n\
|INPUT(a)\nOUTPUT(a)\nOUTPUT(a)\n=> slots 1\nl0 items 0 tables 0 takes 0\nh items 1 takes 0\na h 0\n\
|=> slots 0\nl0 items 0 tables 0 takes 0\nh items 0 takes 0\n",
        ..PLANNED
    },
];

/// Memories of two and of four bits.
const TWO_MEMORIES: &str = "INPUT(a)\n[q] = RAM(a; a; a)\n[r, s] = RAM(a; a; a, a)\n";

/// Two nodes, and a memory of 65,536 words of two bits.
const LARGE_AND_NODES: &str =
    "INPUT(a)\n[q0, q1] = RAM(a; a, a, a, a, a, a, a, a, a, a, a, a, a, a, a, a; a, a)\nz = AND(a, a)\ny = OR(a, a)\n";

/// A register, and a gate of five operands, which has two helpers.
const REGISTER_AND_HELPERS: &str = "INPUT(a)\nr = DFF(z)\nz = NAND(a, r, a, r, a)\n";

/// Plans on machines whose ports have limits of their own: texts of such machines, designs that they hold, and designs
/// that they don't.
const OWN_LIMITS: &[Case] = &[
    // Nodes go past a port that is full. Too many nodes, which is told before the slots. A limit of a port that is not
    // there, after every fault of a line and the number of the ports. And what no text of the first version sets.
    Case {
        netlist: C17,
        given: Given::Machine,
        rows: "\
version 2\nlogic 2\nnodes 0 1\n=> slots 9\nl0 items 1 tables 1 takes 2\nl1 items 5 tables 1 takes 5\na0 items 0 bits 0 takes 0\nh items 5 takes 2\n1 h 0 l0\n2 h 1 l1\n3 h 2 l0 l1\n6 h 3 l1\n7 h 4 l1\n10 l0 5 l1\n11 l1 4\n16 l1 5\n19 l1 6\n22 l1 7 h\n23 l1 8 h\n\
|# limits\n\tVersion 002 # the second\r\nlogic 3\nNODES 2\nnodes 1 1\nnodes 00002 4\n=> slots 9\nl0 items 2 tables 1 takes 4\nl1 items 1 tables 1 takes 2\nl2 items 3 tables 1 takes 4\na0 items 0 bits 0 takes 0\nh items 5 takes 2\n1 h 0 l0\n2 h 1 l2\n3 h 2 l0 l1\n6 h 3 l1\n7 h 4 l0\n10 l0 3 l2\n11 l1 5 l0 l2\n16 l2 6\n19 l0 6 l2\n22 l2 7 h\n23 l2 8 h\n\
|version 2\nlogic 2\nnodes 2\n=> overfull: nodes: 6 needed, limit is 4\n\
|version 2\nlogic 2\nnodes 2\nslots 1\n=> overfull: nodes: 6 needed, limit is 4\n\
|version 2\nlogic 2\nnodes 2 5\n=> machine: line 3: no such port\n\
|version 2\narray 0\nbits 0 5\n=> machine: line 3: no such port\n\
|version 2\nnodes 9 1\nslots 0\n=> machine: line 3: out of range\n\
|version 2\nnodes 255 1\nlogic 254\narray 2\n=> machine: 257 ports, limit is 256\n\
|nodes 5\n=> machine: line 1: syntax\n",
        ..PLANNED
    },
    // The second memory finds no room at the first array processor.
    Case {
        netlist: TWO_MEMORIES,
        machine: "version 2\nlogic 1\narray 2\nbits 0 3\n",
        rows: "=> slots 2\nl0 items 0 tables 0 takes 0\na0 items 1 bits 2 takes 1\na1 items 2 bits 4 takes 1\nh items 1 takes 0\na h 0 a0 a1\nq a0 0\nr a1 0\ns a1 1\n",
        ..PLANNED
    },
    // Functions by the limit of the port itself.
    Case {
        netlist: TWO_GATES,
        given: Given::Machine,
        rows: "\
version 2\nlogic 1\nfunctions 1\nfunctions 0 2\n=> slots 4\nl0 items 2 tables 2 takes 2\na0 items 0 bits 0 takes 0\nh items 2 takes 1\na h 0 l0\nb h 1 l0\ny l0 2 h\nz l0 3\n\
|version 2\nlogic 1\nfunctions 0 1\n=> overfull: functions of logic port 0: 2 needed, limit is 1\n",
        ..PLANNED
    },
    // The bits are told before the nodes.
    Case {
        netlist: LARGE_AND_NODES,
        machine: "version 2\nlogic 1\nnodes 1\n",
        rows: "=> overfull: bits of memory q0: 131072 needed, 65536 left\n",
        ..PLANNED
    },
    // A register and two helpers are nodes too.
    Case {
        netlist: REGISTER_AND_HELPERS,
        given: Given::Machine,
        rows: "\
version 2\nlogic 1\narray 0\nnodes 4\n=> slots 4\nl0 items 4 tables 3 takes 1\nh items 1 takes 0\na h 0 l0\nr l0 0\nz/1 l0 1\nz/0 l0 2\nz l0 3\n\
|version 2\nlogic 1\narray 0\nnodes 3\n=> overfull: nodes: 4 needed, limit is 3\n",
        ..PLANNED
    },
    // The most bits that are left are those of the second of three array processors.
    Case {
        netlist: "INPUT(a)\n[q] = RAM(a; a; a)\n[r, s, t] = RAM(a; a, a; a, a, a)\n",
        machine: "version 2\nlogic 1\narray 3\nbits 0 3\nbits 1 11\nbits 2 5\n",
        rows: "=> overfull: bits of memory r: 12 needed, 11 left\n",
        ..PLANNED
    },
    // The first processor has one function, and the second one more than it may have.
    Case {
        netlist: "INPUT(a)\nINPUT(b)\nw = AND(a, b)\nx = OR(a, b)\ny = AND(b, a)\nz = XOR(a, b)\n",
        machine: "version 2\nlogic 2\nfunctions 1\n",
        rows: "=> overfull: functions of logic port 1: 2 needed, limit is 1\n",
        ..PLANNED
    },
];

#[test]
fn runs_and_plans_end_as_stated(rt: HostRuntime) {
    assert!(rt; all_end(&rt, rt.alloc(), CASES));
    assert!(rt; all_end(&rt, rt.alloc(), LAYOUTS));
    assert!(rt; all_end(&rt, rt.alloc(), OWN_LIMITS));
}
