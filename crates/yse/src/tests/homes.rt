//! Plans with better homes. Runs with them are rows of `threads`.

use super::{C17, Case, Given, PLAIN, all_end};

const BETTER: Case = Case {
    calls: "plan --homes better",
    words: "net.bench --machine net.machine",
    ..PLAIN
};

const CASES: &[Case] = &[
    // Gate 11 is at the first processor, with what it reads and what reads it, and a turn takes a slot more. Better
    // homes want a slot too many. Plain homes do too, and it is their plan that is told of.
    Case {
        netlist: C17,
        given: Given::Machine,
        rows: "\
logic 2\n=> slots 9\nl0 items 4 tables 1 takes 4\nl1 items 2 tables 1 takes 3\na0 items 0 bits 0 takes 0\nh items 5 takes 2\n1 h 0 l0\n2 h 1 l0\n3 h 2 l0\n6 h 3 l0\n7 h 4 l1\n10 l0 3\n11 l0 5 l1\n16 l0 6 l1\n19 l1 6\n22 l0 7 h\n23 l1 8 h\ncrossings 10 better 9 used better\n\
|logic 2\nslots 8\n=> slots 8\nl0 items 3 tables 1 takes 4\nl1 items 3 tables 1 takes 4\na0 items 0 bits 0 takes 0\nh items 5 takes 2\n1 h 0 l0\n2 h 1 l0\n3 h 2 l0 l1\n6 h 3 l1\n7 h 4 l1\n10 l0 3\n11 l1 4 l0\n16 l0 5 l1\n19 l1 5\n22 l0 6 h\n23 l1 7 h\ncrossings 10 better 9 used plain\n\
|logic 2\nslots 7\n=> overfull: slots: 8 needed, limit is 7\n",
        ..BETTER
    },
    Case {
        calls: "plan --homes plain",
        netlist: C17,
        machine: "logic 2\n",
        rows: "=> slots 8\nl0 items 3 tables 1 takes 4\nl1 items 3 tables 1 takes 4\na0 items 0 bits 0 takes 0\nh items 5 takes 2\n1 h 0 l0\n2 h 1 l0\n3 h 2 l0 l1\n6 h 3 l1\n7 h 4 l1\n10 l0 3\n11 l1 4 l0\n16 l0 5 l1\n19 l1 5\n22 l0 6 h\n23 l1 7 h\n",
        ..BETTER
    },
    // Nineteen nodes on two processors: a sixteenth of them more than an even share, and one, is what a port may
    // have. A move meets what the second processor may have of its own.
    Case {
        netlist: "INPUT(a)\nINPUT(b)\nOUTPUT(g17)\nOUTPUT(g10)\ng0 = AND(b, b)\ng1 = AND(b, a)\ng2 = OR(a, g1)\ng3 = OR(g1, g1)\ng4 = AND(g3, g2)\ng5 = NAND(a, g0)\ng6 = NAND(b, g2)\ng7 = AND(g5, a)\ng8 = NAND(g5, g2)\ng9 = NAND(g7, b)\ng10 = NAND(b, g8)\ng11 = OR(g6, g8)\ng12 = NAND(g10, g11)\ng13 = AND(g7, g12)\ng14 = XOR(a, g10)\ng15 = OR(g10, g12)\ng16 = NOR(g13, b)\ng17 = NOR(g14, g11)\ng18 = XOR(b, a)\n",
        machine: "version 2\nlogic 2\narray 0\nnodes 1 9\n",
        rows: "=> slots 13\nl0 items 10 tables 5 takes 6\nl1 items 9 tables 5 takes 3\nh items 2 takes 2\na h 0 l0 l1\nb h 1 l0 l1\ng0 l0 2\ng1 l1 2 l0\ng18 l0 3\ng2 l1 3 l0\ng3 l0 4\ng5 l0 5 l1\ng4 l0 6\ng6 l1 4\ng7 l0 7\ng8 l1 6\ng9 l0 8\ng10 l1 7 l0 h\ng11 l1 8\ng12 l1 9 l0\ng14 l1 10\ng13 l0 10\ng15 l0 11\ng17 l1 11 h\ng16 l0 12\ncrossings 18 better 11 used better\n",
        ..BETTER
    },
    // A memory, registers and three processors, one with a limit of its own.
    Case {
        netlist: "INPUT(a)\nINPUT(b)\nOUTPUT(g5)\nOUTPUT(g2)\nr0 = DFF(g1)\nr1 = DFF(g0)\nr2 = DFF(g2)\n[q, p] = RAM(g6; a; g5, g4)\ng0 = NAND(q, b)\ng1 = NOR(a, g0)\ng2 = AND(p, a)\ng3 = OR(r1, a)\ng4 = XOR(g1, r1)\ng5 = NOR(g3, g4)\ng6 = AND(r2, g3)\ng7 = AND(r0, q)\ng8 = XOR(b, g7)\n",
        machine: "version 2\nlogic 3\narray 1\nnodes 7\nnodes 1 4\n",
        rows: "=> slots 8\nl0 items 4 tables 2 takes 3\nl1 items 3 tables 3 takes 3\nl2 items 5 tables 2 takes 3\na0 items 2 bits 4 takes 4\nh items 2 takes 2\na h 0 l0 l2 a0\nb h 1 l1\nq a0 0 l1\np a0 1 l0\nr0 l2 2 l1\nr1 l2 3 l0\nr2 l0 0\ng0 l1 2 l2\ng2 l0 2 h\ng1 l2 4\ng3 l0 4 l2\ng7 l1 3\ng4 l2 5 a0\ng6 l0 6 a0\ng8 l1 4\ng5 l2 7 a0 h\ncrossings 23 better 15 used better\n",
        ..BETTER
    },
    // At the start the first processor has more than its share, which stays the most that a port may have.
    Case {
        netlist: "INPUT(a)\nINPUT(b)\nINPUT(c)\nOUTPUT(g0)\nOUTPUT(g9)\nOUTPUT(g1)\nr0 = DFF(g7)\nr1 = DFF(g8)\nr2 = DFF(g7)\n[q, p] = RAM(g6; g1; g5, c)\ng0 = OR(c, p)\ng1 = XOR(r0, r1)\ng2 = NAND(a, g0)\ng3 = NAND(a, g1)\ng4 = OR(r2, a)\ng5 = OR(r1, c)\ng6 = AND(b, b)\ng7 = OR(g5, p)\ng8 = NAND(c, r1)\ng9 = OR(g4, q)\ng10 = XOR(g5, g9)\ng11 = OR(p, b)\n",
        machine: "version 2\nlogic 3\narray 1\nnodes 2 2\n",
        rows: "=> slots 11\nl0 items 7 tables 3 takes 5\nl1 items 8 tables 3 takes 6\nl2 items 0 tables 0 takes 0\na0 items 2 bits 4 takes 4\nh items 3 takes 3\na h 0 l0 l1\nb h 1 l1\nc h 2 l0 l1 a0\nq a0 3 l1\np a0 4 l0 l1\nr0 l0 0\nr1 l1 1 l0\nr2 l0 5 l1\ng0 l1 5 h\ng6 l1 3 a0\ng11 l1 6\ng1 l0 4 a0 h\ng2 l1 7\ng4 l1 8\ng5 l0 6 a0\ng8 l1 4\ng3 l0 7\ng7 l0 8\ng9 l1 9 l0 h\ng10 l0 10\ncrossings 22 better 18 used better\n",
        ..BETTER
    },
];

#[test]
fn better_homes_end_as_stated(rt: HostRuntime) {
    assert!(rt; all_end(&rt, rt.alloc(), CASES));
}
