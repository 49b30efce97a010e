//! What is read of texts: of netlists as `show` prints them, of stimuli and lanes as inputs that are printed, and of
//! orders for a run of no cycles; or the refusal. Images that are refused. And images of netlists, whose settings of
//! the switch were worked out by hand.

use super::{Case, Given, PLAIN, all_end};

/// Inputs that are printed.
const FIVE: &str =
    "INPUT(a)\nINPUT(b)\nINPUT(c)\nINPUT(d)\nINPUT(e)\nOUTPUT(a)\nOUTPUT(b)\nOUTPUT(c)\nOUTPUT(d)\nOUTPUT(e)\n";

const ONE: &str = "INPUT(a)\nOUTPUT(a)\n";

const CASES: &[Case] = &[
    // First stand netlists: words as names, any letter case, forward references, CRLF, comments with any byte, blanks
    // anywhere, a last line without its LF, and a name of 255 bytes. A CR is a bad byte unless LF or the end of the
    // text comes next. Of a bad byte and a name of 256 bytes the first is told.
    Case {
        calls: "show",
        words: "net.bench",
        given: Given::Netlist,
        rows: "\
=> \
|output(z)\nz=buf(a)\ninput(a)\n=> INPUT(a)\nOUTPUT(z)\nz = BUFF(a)\n\
|INPUT(INPUT)\r\nAND = OR(INPUT, b) # \u{ff}\r\n\r\nb=nand\t( INPUT ,INPUT)\r\n#\r=> INPUT(INPUT)\nAND = OR(INPUT, b)\nb = NAND(INPUT, INPUT)\n\
|INPUT(a)\nz = NOT(y)\ny = BUFF(a)\nOUTPUT(z)\nOUTPUT(a)\nOUTPUT(z)=> INPUT(a)\nOUTPUT(z)\nOUTPUT(a)\nOUTPUT(z)\nz = NOT(y)\ny = BUFF(a)\n\
|[q0, q1] = ram(we; a0, a1; d0, d1)\nINPUT(we)\nq=Dff(q1)\nINPUT(a0)\nINPUT(a1)\nINPUT(d0)\nINPUT(d1)\n[ r ]=RAM(q;q;q0)=> INPUT(we)\nINPUT(a0)\nINPUT(a1)\nINPUT(d0)\nINPUT(d1)\n[q0, q1] = RAM(we; a0, a1; d0, d1)\nq = DFF(q1)\n[r] = RAM(q; q; q0)\n\
|INPUT(e)\nINPUT(a)\nt = TRI(e, a)\ny = BUS(t)\nx = xor(a, e)\nw = XNOR(a, x)\nv = NOR(a)\n=> INPUT(e)\nINPUT(a)\nt = TRI(e, a)\ny = BUS(t)\nx = XOR(a, e)\nw = XNOR(a, x)\nv = NOR(a)\n\
|INPUT(nnnnnnnnnnnnnnnnnnnnnnnnnnnnnnnnnnnnnnnnnnnnnnnnnnnnnnnnnnnnnnnnnnnnnnnnnnnnnnnnnnnnnnnnnnnnnnnnnnnnnnnnnnnnnnnnnnnnnnnnnnnnnnnnnnnnnnnnnnnnnnnnnnnnnnnnnnnnnnnnnnnnnnnnnnnnnnnnnnnnnnnnnnnnnnnnnnnnnnnnnnnnnnnnnnnnnnnnnnnnnnnnnnnnnnnnnnnnnnnnnnnnnnnnnnnnnnn)=> INPUT(nnnnnnnnnnnnnnnnnnnnnnnnnnnnnnnnnnnnnnnnnnnnnnnnnnnnnnnnnnnnnnnnnnnnnnnnnnnnnnnnnnnnnnnnnnnnnnnnnnnnnnnnnnnnnnnnnnnnnnnnnnnnnnnnnnnnnnnnnnnnnnnnnnnnnnnnnnnnnnnnnnnnnnnnnnnnnnnnnnnnnnnnnnnnnnnnnnnnnnnnnnnnnnnnnnnnnnnnnnnnnnnnnnnnnnnnnnnnnnnnnnnnnnnnnnnnnnn)\n\
|INPUT(a)\nz = NOT a\n=> netlist: line 2: syntax\n\
|z = RAM(a)\n=> netlist: line 1: unknown kind\n\
|[q] = AND(a; b; c)\n=> netlist: line 1: unknown kind\n\
|INPUT(a)\n[q, r] = RAM(a; a; a, a, a)\n=> netlist: line 2: wrong number of operands\n\
|INPUT(a)\n\n[q, q] = RAM(a; a; a, a)\n=> netlist: line 3: q driven twice, first at line 3\n\
|x = NOT(u)\ny = NOT(v)\nx = BUFF(w)\n=> netlist: line 3: x driven twice, first at line 1\n\
|x = AND(x, v)\ny = NOT(u)\n=> netlist: line 1: v has no driver\n\
|OUTPUT(z)\n=> netlist: line 1: z has no driver\n\
|INPUT(1=> netlist: line 1: syntax\n\
|INPUT(1)\nINPUT(2)\nINPUT(3)\nINPUT(6)\nINPUT(7)\nOUTPUT(22)\n=> netlist: line 6: 22 has no driver\n\
|FOO(z)\n=> netlist: line 1: syntax\n\
|[q] = RAM(a; b, ; c)\n=> netlist: line 1: syntax\n\
|[q] = RAM(a, b; b; c)\n=> netlist: line 1: syntax\n\
|z = AND()\n=> netlist: line 1: syntax\n\
|z = AND(a,)\n=> netlist: line 1: syntax\n\
|z = TRI(a)\n=> netlist: line 1: wrong number of operands\n\
|z = DFF(a, a)\n=> netlist: line 1: wrong number of operands\n\
|INPUT(a)\nOUTPUT(z)\nz = AND(a, b)\n=> netlist: line 3: b has no driver\n\
|INPUT(a)\na = NOT(a)\n=> netlist: line 2: a driven twice, first at line 1\n\
|INPUT(a)\nz = MAJ(a, a, a)\ny = NOT(a, a)\n=> netlist: line 2: unknown kind\n\
|INPUT(a)\nz = NOT(a, a)\n=> netlist: line 2: wrong number of operands\n\
|INPUT(a\nz = MAJ(a)\n=> netlist: line 1: syntax\n\
|aaaaa(aaaaaaaaaaaaaaaaaaaaaaaaaaaaaaaaaaaaaaaaaaaaaaaaaaaaaaaaaaaaaaaaaaaaaaaaaaaaaaaaaaaaaaaaaaaaaaaaaaaaaaaaaaaaaaaaaaaaaaaaaaaaaaaaaaaaaaaaaaaaaaaaaaaaaaaaaaaaaaaaaaaaaaaaaaaaaaaaaaaaaaaaaaaaaaaaaaaaaaaaaaaaaaaaaaaaaaaaaaaaaaaaaaaaaaaaaaaaaaaaaaaaaaaaaaaaaaaa)=> netlist: line 1: name too long\n\
|aaaa\0(aaaaaaaaaaaaaaaaaaaaaaaaaaaaaaaaaaaaaaaaaaaaaaaaaaaaaaaaaaaaaaaaaaaaaaaaaaaaaaaaaaaaaaaaaaaaaaaaaaaaaaaaaaaaaaaaaaaaaaaaaaaaaaaaaaaaaaaaaaaaaaaaaaaaaaaaaaaaaaaaaaaaaaaaaaaaaaaaaaaaaaaaaaaaaaaaaaaaaaaaaaaaaaaaaaaaaaaaaaaaaaaaaaaaaaaaaaaaaaaaaaaaaaaaaaaaaaaa)=> netlist: line 1, column 5: bad byte\n\
|aaaa\n(aaaaaaaaaaaaaaaaaaaaaaaaaaaaaaaaaaaaaaaaaaaaaaaaaaaaaaaaaaaaaaaaaaaaaaaaaaaaaaaaaaaaaaaaaaaaaaaaaaaaaaaaaaaaaaaaaaaaaaaaaaaaaaaaaaaaaaaaaaaaaaaaaaaaaaaaaaaaaaaaaaaaaaaaaaaaaaaaaaaaaaaaaaaaaaaaaaaaaaaaaaaaaaaaaaaaaaaaaaaaaaaaaaaaaaaaaaaaaaaaaaaaaaaaaaaaaaaa\x7f=> netlist: line 2: name too long\n\
|INPUT(a)\nz = NOT(a\x01)\n=> netlist: line 2, column 10: bad byte\n\
|a\rb=> netlist: line 1, column 2: bad byte\n\
|a\r\r\n=> netlist: line 1, column 2: bad byte\n\
|# \u{ff}\r\n\u{e9}=> netlist: line 2, column 1: bad byte\n\
|\n\n \x7f=> netlist: line 3, column 2: bad byte\n",
        ..PLAIN
    },
    // Rows of five values, and of none.
    Case {
        calls: "refer",
        netlist: FIVE,
        rows: "\
11111\n00000\nxxxxx\n=> cycle a b c d e\n1 11111\n2 00000\n3 xxxxx\n\
|=> cycle a b c d e\n\
| 1 x\tX zZ*\t000000000000000000000003 # \u{ff}\r\n\n \t# 9\n0 0000\r=> cycle a b c d e\n1 1xxzz\n2 1xxzz\n3 1xxzz\n4 00000\n\
|111 * 0=> stimulus: line 1: bad repeat\n\
|112 * 0=> stimulus: line 1: bad character\n\
|11111 * 1000001=> stimulus: line 1: bad repeat\n\
|11111 * 18446744073709551617=> stimulus: line 1: bad repeat\n\
|\n# 9\n11111 * 3 * 4=> stimulus: line 3: bad repeat\n\
|11111 * 3 4=> stimulus: line 1: bad repeat\n\
|11111 *=> stimulus: line 1: bad repeat\n\
|11111\n1\n2=> stimulus: line 2: 1 values, 5 wanted\n\
|* 3=> stimulus: line 1: 0 values, 5 wanted\n\
|-=> stimulus: line 1: bad character\n",
        ..PLAIN
    },
    Case {
        calls: "refer",
        rows: "\
- * 2=> cycle\n1 \n2 \n\
|0=> stimulus: line 1: bad character\n\
|* 3=> stimulus: line 1: 0 values, 1 wanted\n\
|- -=> stimulus: line 1: 2 values, 1 wanted\n",
        ..PLAIN
    },
    // Lanes of rows of five values, of one, and of none.
    Case {
        calls: "pack",
        netlist: FIVE,
        rows: "\
lane\n11111\n00000\nlane\nxxxxx\n=> lane 1\ncycle a b c d e\n1 11111\n2 00000\nlane 2\ncycle a b c d e\n1 xxxxx\n\
|=> \
|# none\n\n \t\r\n=> \
|11111=> stimulus: line 1: no lane\n\
|# 1\n\n112\nlane\n=> stimulus: line 3: no lane\n\
|lane\n11111\nlane\n1\n2=> stimulus: line 4: 1 values, 5 wanted\n",
        ..PLAIN
    },
    Case {
        calls: "pack",
        netlist: ONE,
        rows: "\
lane\n1 * 2\nlane\n0 * 2=> lane 1\ncycle a\n1 1\n2 1\nlane 2\ncycle a\n1 0\n2 0\n\
|lane * 2\n=> stimulus: line 1: no lane\n\
|Lane\n=> stimulus: line 1: no lane\n\
|lanes\n=> stimulus: line 1: no lane\n\
|lane\n1\nLANE\n=> stimulus: line 3: bad character\n\
|lane\n1\nlane * 2\n=> stimulus: line 3: bad character\n\
|lane\n1\nlane\n# 1\n1 * 0\n=> stimulus: line 5: bad repeat\n\
|lane\n1\nlane\n1 * 1000000\n1\n=> stimulus: too many cycles\n\
|lane\nlane\nlane\nlane\nlane\nlane\nlane\nlane\nlane\nlane\nlane\nlane\nlane\nlane\nlane\nlane\nlane\nlane\nlane\nlane\nlane\nlane\nlane\nlane\nlane\nlane\nlane\nlane\nlane\nlane\n\nlane\n2\n=> stimulus: line 32: more than 30 lanes\n\
|lane\nlane\n1\n0 0\nlane\n=> stimulus: line 4: 2 values, 1 wanted\n\
|lane\n0 * 1000000\n1 * 1000000\n=> stimulus: too many cycles\n",
        ..PLAIN
    },
    Case {
        calls: "pack",
        rows: "\
# two\n \tlane # one\r\n\nlane\n- * 2\n# lane\n=> lane 1\ncycle\nlane 2\ncycle\n1 \n2 \n",
        ..PLAIN
    },
    // Orders of four ports, and of two.
    Case {
        calls: "order",
        words: "net.bench net.stim --machine net.machine --order net.more",
        machine: "logic 2\n",
        given: Given::More,
        rows: "\
=> cycle\n\
|2*1000\n3 * 1000=> cycle\n\
| 00000000000000000000003\t* 000000000000000000001000000 # \u{ff}\r\n\n \t# 9\n\t1\r=> cycle\n\
|4=> order: line 1: no such port\n\
|0\n\n18446744073709551617=> order: line 3: no such port\n\
|0 * 0=> order: line 1: syntax\n\
|0 * 1000001=> order: line 1: syntax\n\
|4 * 0=> order: line 1: syntax\n\
|0\n0 1=> order: line 2: syntax\n\
|* 3=> order: line 1: syntax\n\
|1 *=> order: line 1: syntax\n\
|1 * 2 * 3=> order: line 1: syntax\n\
|1 * 2 3=> order: line 1: syntax\n\
|-1=> order: line 1: syntax\n\
|4\nx=> order: line 1: no such port\n\
|x\n4=> order: line 1: syntax\n",
        ..PLAIN
    },
    Case {
        calls: "order",
        words: "net.bench net.stim --machine net.machine --order net.more",
        machine: "logic 1\narray 0\n",
        given: Given::More,
        rows: "\
1 * 100\n0 * 100\n=> cycle\n",
        ..PLAIN
    },
    // Machines that are refused: texts of the first version, then those of the second. A port is there if a later line
    // says so.
    Case {
        calls: "plan",
        words: "net.bench --machine net.machine",
        given: Given::Machine,
        rows: "\
logic 0\n=> machine: line 1: out of range\n\
|logic 254\narray 2\n=> machine: 257 ports, limit is 256\n\
|slots 5\nslots 5\n=> machine: line 2: given twice\n\
|slots 5\nslots 0\n=> machine: line 2: given twice\n\
|wheels 4\n=> machine: line 1: syntax\n\
|\n\nslots 5 6=> machine: line 3: syntax\n\
|logic 99999999999999999999\n=> machine: line 1: out of range\n\
|slots 65537\nwheels 4\n=> machine: line 1: out of range\n\
|logic 255\narray 0\n=> machine: line 1: out of range\n\
|array 65\n=> machine: line 1: out of range\n\
|functions 4097\n=> machine: line 1: out of range\n\
|bits 16777217\n=> machine: line 1: out of range\n\
|nodes 5\n=> machine: line 1: syntax\n\
|functions 0 5\n=> machine: line 1: syntax\n\
|logic 4\nversion 2\n=> machine: line 2: syntax\n\
|version 3\n=> machine: line 1: syntax\n\
|version 1\n=> machine: line 1: syntax\n\
|version 2 2\n=> machine: line 1: syntax\n\
|version 2\nversion 2\n=> machine: line 2: syntax\n\
|version 2\nlogic 0 5\n=> machine: line 2: syntax\n\
|version 2\nnodes 0 1 5\n=> machine: line 2: syntax\n\
|version 2\nnodes -1 5\n=> machine: line 2: syntax\n\
|version 2\nnodes 0\n=> machine: line 2: out of range\n\
|version 2\nnodes 4194305\n=> machine: line 2: out of range\n\
|version 2\nnodes 0 0\n=> machine: line 2: out of range\n\
|version 2\nnodes 0 4194305\n=> machine: line 2: out of range\n\
|version 2\nfunctions 0 4097\n=> machine: line 2: out of range\n\
|version 2\nbits 0 16777217\n=> machine: line 2: out of range\n\
|version 2\nnodes 5\nnodes 0 5\nnodes 6\n=> machine: line 4: given twice\n\
|version 2\nnodes 0 5\nnodes 00 6\n=> machine: line 3: given twice\n\
|version 2\nnodes 1 5\nnodes 1 0\n=> machine: line 3: given twice\n\
|version 2\nbits 18446744073709551616 5\nbits 018446744073709551616 5\n=> machine: line 3: given twice\n\
|version 2\nbits 18446744073709551616 5\nbits 18446744073709551617 5\nlogic 0\n=> machine: line 4: out of range\n\
|version 2\nlogic 2\nnodes 2 5=> machine: line 3: no such port\n\
|version 2\nbits 0 5\nbits 1 5\nfunctions 4 5\n=> machine: line 3: no such port\n\
|version 2\nbits 18446744073709551616 5\n=> machine: line 2: no such port\n\
|version 2\nlogic 2\nfunctions 2 5\n=> machine: line 3: no such port\n\
|version 2\nnodes 4 5\nwheels 4\n=> machine: line 3: syntax\n\
|version 2\nnodes 254 5\nlogic 254\narray 2\n=> machine: 257 ports, limit is 256\n",
        ..PLAIN
    },
    // Images at their limits, each with its line; what is within them ends before its `end`.
    Case {
        calls: "exec",
        words: "net.bench net.more net.stim",
        netlist: ONE,
        given: Given::More,
        rows: "\
yse-image 1\nslots 65536 units 1 init x columns 1 ports 3\n=> image: line 3: syntax\n\
|yse-image 1\nslots 65537 units 1 init x columns 1 ports 3\n=> image: line 2: out of range\n\
|yse-image 1\nslots 2 units 0 init x columns 1 ports 3\n=> image: line 2: out of range\n\
|yse-image 1\nslots 2 units 4096 init x columns 1 ports 3\n=> image: line 3: syntax\n\
|yse-image 1\nslots 2 units 4097 init x columns 1 ports 3\n=> image: line 2: out of range\n\
|yse-image 1\nslots 2 units 1 init x columns 1048576 ports 3\n=> image: line 3: syntax\n\
|yse-image 1\nslots 2 units 1 init x columns 1048577 ports 3\n=> image: line 2: out of range\n\
|yse-image 1\nslots 2 units 1 init x columns 1 ports 0\n=> image: line 2: out of range\n\
|yse-image 1\nslots 2 units 1 init x columns 1 ports 256\n=> image: line 3: syntax\n\
|yse-image 1\nslots 2 units 1 init x columns 1 ports 257\n=> image: line 2: out of range\n\
|yse-image 1\nslots 2 units 1 init x columns 1 ports 3\nport logic\ntable a4a4a4a4a4a4a4a4 a4a4a4a4a4a4a4a4 a4a4a4a4a4a4a4a4 a4a4a4a4a4a4a4a4 a4a4a4a4a4a4a4a4 a4a4a4a4a4a4a4a4 a4a4a4a4a4a4a4a4 a4a4a4a4a4a4a4a4\neval 1 0 g0 c0 c0 c0 4294967295\n=> image: line 6: syntax\n\
|yse-image 1\nslots 2 units 1 init x columns 1 ports 3\nport logic\ntable a4a4a4a4a4a4a4a4 a4a4a4a4a4a4a4a4 a4a4a4a4a4a4a4a4 a4a4a4a4a4a4a4a4 a4a4a4a4a4a4a4a4 a4a4a4a4a4a4a4a4 a4a4a4a4a4a4a4a4 a4a4a4a4a4a4a4a4\neval 1 0 g0 c0 c0 c0 4294967296\n=> image: line 5: out of range\n\
|yse-image 1\nslots 2 units 1 init x columns 1 ports 3\nport array\nblock 0 1 g0 g0\n=> image: line 4: out of range\n\
|yse-image 1\nslots 2 units 1 init x columns 1 ports 3\nport array\nblock 16 1 g0 g0 g0 g0 g0 g0 g0 g0 g0 g0 g0 g0 g0 g0 g0 g0 g0 g0\n=> image: line 5: syntax\n\
|yse-image 1\nslots 2 units 1 init x columns 1 ports 3\nport array\nblock 17 1 g0 g0 g0 g0 g0 g0 g0 g0 g0 g0 g0 g0 g0 g0 g0 g0 g0 g0 g0\n=> image: line 4: out of range\n\
|yse-image 1\nslots 2 units 1 init x columns 1 ports 3\nport array\nblock 1 0 g0 g0\n=> image: line 4: out of range\n\
|yse-image 1\nslots 2 units 1 init x columns 1 ports 3\nport array\nblock 1 64 g0 g0 g0 g0 g0 g0 g0 g0 g0 g0 g0 g0 g0 g0 g0 g0 g0 g0 g0 g0 g0 g0 g0 g0 g0 g0 g0 g0 g0 g0 g0 g0 g0 g0 g0 g0 g0 g0 g0 g0 g0 g0 g0 g0 g0 g0 g0 g0 g0 g0 g0 g0 g0 g0 g0 g0 g0 g0 g0 g0 g0 g0 g0 g0 g0 g0\n=> image: line 5: syntax\n\
|yse-image 1\nslots 2 units 1 init x columns 1 ports 3\nport array\nblock 1 65 g0 g0 g0 g0 g0 g0 g0 g0 g0 g0 g0 g0 g0 g0 g0 g0 g0 g0 g0 g0 g0 g0 g0 g0 g0 g0 g0 g0 g0 g0 g0 g0 g0 g0 g0 g0 g0 g0 g0 g0 g0 g0 g0 g0 g0 g0 g0 g0 g0 g0 g0 g0 g0 g0 g0 g0 g0 g0 g0 g0 g0 g0 g0 g0 g0 g0 g0\n=> image: line 4: out of range\n\
|yse-image 1\nslots 2 units 1 init x columns 1 ports 3\nport array\nblock 16 64 g0 g0 g0 g0 g0 g0 g0 g0 g0 g0 g0 g0 g0 g0 g0 g0 g0 g0 g0 g0 g0 g0 g0 g0 g0 g0 g0 g0 g0 g0 g0 g0 g0 g0 g0 g0 g0 g0 g0 g0 g0 g0 g0 g0 g0 g0 g0 g0 g0 g0 g0 g0 g0 g0 g0 g0 g0 g0 g0 g0 g0 g0 g0 g0 g0 g0 g0 g0 g0 g0 g0 g0 g0 g0 g0 g0 g0 g0 g0 g0 g0\nblock 16 64 g0 g0 g0 g0 g0 g0 g0 g0 g0 g0 g0 g0 g0 g0 g0 g0 g0 g0 g0 g0 g0 g0 g0 g0 g0 g0 g0 g0 g0 g0 g0 g0 g0 g0 g0 g0 g0 g0 g0 g0 g0 g0 g0 g0 g0 g0 g0 g0 g0 g0 g0 g0 g0 g0 g0 g0 g0 g0 g0 g0 g0 g0 g0 g0 g0 g0 g0 g0 g0 g0 g0 g0 g0 g0 g0 g0 g0 g0 g0 g0 g0\nblock 16 64 g0 g0 g0 g0 g0 g0 g0 g0 g0 g0 g0 g0 g0 g0 g0 g0 g0 g0 g0 g0 g0 g0 g0 g0 g0 g0 g0 g0 g0 g0 g0 g0 g0 g0 g0 g0 g0 g0 g0 g0 g0 g0 g0 g0 g0 g0 g0 g0 g0 g0 g0 g0 g0 g0 g0 g0 g0 g0 g0 g0 g0 g0 g0 g0 g0 g0 g0 g0 g0 g0 g0 g0 g0 g0 g0 g0 g0 g0 g0 g0 g0\nblock 16 64 g0 g0 g0 g0 g0 g0 g0 g0 g0 g0 g0 g0 g0 g0 g0 g0 g0 g0 g0 g0 g0 g0 g0 g0 g0 g0 g0 g0 g0 g0 g0 g0 g0 g0 g0 g0 g0 g0 g0 g0 g0 g0 g0 g0 g0 g0 g0 g0 g0 g0 g0 g0 g0 g0 g0 g0 g0 g0 g0 g0 g0 g0 g0 g0 g0 g0 g0 g0 g0 g0 g0 g0 g0 g0 g0 g0 g0 g0 g0 g0 g0\n=> image: line 8: syntax\n\
|yse-image 1\nslots 2 units 1 init x columns 1 ports 3\nport array\nblock 16 64 g0 g0 g0 g0 g0 g0 g0 g0 g0 g0 g0 g0 g0 g0 g0 g0 g0 g0 g0 g0 g0 g0 g0 g0 g0 g0 g0 g0 g0 g0 g0 g0 g0 g0 g0 g0 g0 g0 g0 g0 g0 g0 g0 g0 g0 g0 g0 g0 g0 g0 g0 g0 g0 g0 g0 g0 g0 g0 g0 g0 g0 g0 g0 g0 g0 g0 g0 g0 g0 g0 g0 g0 g0 g0 g0 g0 g0 g0 g0 g0 g0\nblock 16 64 g0 g0 g0 g0 g0 g0 g0 g0 g0 g0 g0 g0 g0 g0 g0 g0 g0 g0 g0 g0 g0 g0 g0 g0 g0 g0 g0 g0 g0 g0 g0 g0 g0 g0 g0 g0 g0 g0 g0 g0 g0 g0 g0 g0 g0 g0 g0 g0 g0 g0 g0 g0 g0 g0 g0 g0 g0 g0 g0 g0 g0 g0 g0 g0 g0 g0 g0 g0 g0 g0 g0 g0 g0 g0 g0 g0 g0 g0 g0 g0 g0\nblock 16 64 g0 g0 g0 g0 g0 g0 g0 g0 g0 g0 g0 g0 g0 g0 g0 g0 g0 g0 g0 g0 g0 g0 g0 g0 g0 g0 g0 g0 g0 g0 g0 g0 g0 g0 g0 g0 g0 g0 g0 g0 g0 g0 g0 g0 g0 g0 g0 g0 g0 g0 g0 g0 g0 g0 g0 g0 g0 g0 g0 g0 g0 g0 g0 g0 g0 g0 g0 g0 g0 g0 g0 g0 g0 g0 g0 g0 g0 g0 g0 g0 g0\nblock 16 64 g0 g0 g0 g0 g0 g0 g0 g0 g0 g0 g0 g0 g0 g0 g0 g0 g0 g0 g0 g0 g0 g0 g0 g0 g0 g0 g0 g0 g0 g0 g0 g0 g0 g0 g0 g0 g0 g0 g0 g0 g0 g0 g0 g0 g0 g0 g0 g0 g0 g0 g0 g0 g0 g0 g0 g0 g0 g0 g0 g0 g0 g0 g0 g0 g0 g0 g0 g0 g0 g0 g0 g0 g0 g0 g0 g0 g0 g0 g0 g0 g0\nblock 16 64 g0 g0 g0 g0 g0 g0 g0 g0 g0 g0 g0 g0 g0 g0 g0 g0 g0 g0 g0 g0 g0 g0 g0 g0 g0 g0 g0 g0 g0 g0 g0 g0 g0 g0 g0 g0 g0 g0 g0 g0 g0 g0 g0 g0 g0 g0 g0 g0 g0 g0 g0 g0 g0 g0 g0 g0 g0 g0 g0 g0 g0 g0 g0 g0 g0 g0 g0 g0 g0 g0 g0 g0 g0 g0 g0 g0 g0 g0 g0 g0 g0\n=> image: line 8: out of range\n\
|yse-image 1\nslots 2 units 1 init x columns 1 ports 65\nport array\nport array\nport array\nport array\nport array\nport array\nport array\nport array\nport array\nport array\nport array\nport array\nport array\nport array\nport array\nport array\nport array\nport array\nport array\nport array\nport array\nport array\nport array\nport array\nport array\nport array\nport array\nport array\nport array\nport array\nport array\nport array\nport array\nport array\nport array\nport array\nport array\nport array\nport array\nport array\nport array\nport array\nport array\nport array\nport array\nport array\nport array\nport array\nport array\nport array\nport array\nport array\nport array\nport array\nport array\nport array\nport array\nport array\nport array\nport array\nport array\nport array\nport array\nport array\n=> image: line 67: syntax\n\
|yse-image 1\nslots 2 units 1 init x columns 1 ports 66\nport array\nport array\nport array\nport array\nport array\nport array\nport array\nport array\nport array\nport array\nport array\nport array\nport array\nport array\nport array\nport array\nport array\nport array\nport array\nport array\nport array\nport array\nport array\nport array\nport array\nport array\nport array\nport array\nport array\nport array\nport array\nport array\nport array\nport array\nport array\nport array\nport array\nport array\nport array\nport array\nport array\nport array\nport array\nport array\nport array\nport array\nport array\nport array\nport array\nport array\nport array\nport array\nport array\nport array\nport array\nport array\nport array\nport array\nport array\nport array\nport array\nport array\nport array\nport array\nport array\n=> image: line 67: out of range\n\
|yse-image 1\nslots 2 units 1 init x columns 1 ports 1\nport logic\nport logic\n=> image: line 4: syntax\n",
        ..PLAIN
    },
    // C17 on two logic processors and an array processor: the host is port 3, and has the inputs in slots 0 to 4. The
    // gates `11`, `16`, `22` and `23`, in slots 4 to 7, are read at other ports too.
    Case {
        calls: "compile",
        words: "net.bench --machine net.machine",
        machine: "logic 2\narray 1\n",
        given: Given::Netlist,
        rows: "\
INPUT(1)\nINPUT(2)\nINPUT(3)\nINPUT(6)\nINPUT(7)\nOUTPUT(22)\nOUTPUT(23)\n10 = NAND(1, 3)\n11 = NAND(3, 6)\n16 = NAND(2, 11)\n19 = NAND(11, 7)\n22 = NAND(10, 16)\n23 = NAND(16, 19)\n\
=> yse-image 1\n\
slots 8 units 1 init x columns 5 ports 4\n\
port logic\n\
table a9a9a155a9a9a155 a9a9a155a9a9a155 a9a9a155a9a9a155 a9a9a155a9a9a155 a9a9a155a9a9a155 a9a9a155a9a9a155 a9a9a155a9a9a155 a9a9a155a9a9a155\n\
eval 3 0 g0 g2 c0 c0 5\n\
eval 5 0 g1 g4 c0 c0 7\n\
eval 6 0 o3 o5 c0 c0 9\n\
send 5 1\n\
send 6 3\n\
take 0 3\n\
take 1 3\n\
take 2 3\n\
take 4 1\n\
port logic\n\
table a9a9a155a9a9a155 a9a9a155a9a9a155 a9a9a155a9a9a155 a9a9a155a9a9a155 a9a9a155a9a9a155 a9a9a155a9a9a155 a9a9a155a9a9a155 a9a9a155a9a9a155\n\
eval 4 0 g2 g3 c0 c0 6\n\
eval 5 0 o4 g4 c0 c0 8\n\
eval 7 0 g5 o5 c0 c0 10\n\
send 4 0\n\
send 7 3\n\
take 2 3\n\
take 3 3\n\
take 4 3\n\
take 5 0\n\
port array\n\
port host\n\
in 0 0 0\n\
in 1 1 1\n\
in 2 2 2\n\
in 3 3 3\n\
in 4 4 4\n\
print g6\n\
print g7\n\
send 0 0\n\
send 1 0\n\
send 2 0 1\n\
send 3 1\n\
send 4 1\n\
take 6 0\n\
take 7 1\n\
end\n",
        ..PLAIN
    },
    // S27 on two logic processors: registers that read this turn's value of a node of their own port, or the last
    // turn's of another one, and tables that differ.
    Case {
        calls: "compile",
        words: "net.bench --machine net.machine --init 0",
        machine: "logic 2\narray 0\n",
        given: Given::Netlist,
        rows: "\
INPUT(G0)\nINPUT(G1)\nINPUT(G2)\nINPUT(G3)\nOUTPUT(G17)\nG5 = DFF(G10)\nG6 = DFF(G11)\nG7 = DFF(G13)\nG14 = NOT(G0)\nG17 = NOT(G11)\nG8 = AND(G14, G6)\nG15 = OR(G12, G8)\nG16 = OR(G3, G8)\nG9 = NAND(G16, G15)\nG10 = NOR(G14, G11)\nG11 = NOR(G5, G9)\nG12 = NOR(G1, G7)\nG13 = NOR(G2, G12)\n\
=> yse-image 1\n\
slots 9 units 1 init 0 columns 4 ports 3\n\
port logic\n\
table a8a8a400a8a8a400 a8a8a400a8a8a400 a8a8a400a8a8a400 a8a8a400a8a8a400 a8a8a400a8a8a400 a8a8a400a8a8a400 a8a8a400a8a8a400 a8a8a400a8a8a400\n\
table a6a655a4a6a655a4 a6a655a4a6a655a4 a6a655a4a6a655a4 a6a655a4a6a655a4 a6a655a4a6a655a4 a6a655a4a6a655a4 a6a655a4a6a655a4 a6a655a4a6a655a4\n\
table a2a200a1a2a200a1 a2a200a1a2a200a1 a2a200a1a2a200a1 a2a200a1a2a200a1 a2a200a1a2a200a1 a2a200a1a2a200a1 a2a200a1a2a200a1 a2a200a1a2a200a1\n\
hold 0 O8 4\n\
hold 2 O6 6\n\
eval 4 0 g1 g0 c0 c0 8\n\
eval 5 1 g3 o4 c0 c0 10\n\
eval 6 2 g2 g3 c0 c0 12\n\
eval 7 2 o0 g6 c0 c0 14\n\
eval 8 2 g1 o7 c0 c0 16\n\
send 2 1\n\
send 4 1\n\
send 5 1\n\
send 7 1\n\
take 0 1\n\
take 1 1\n\
take 2 2\n\
take 3 1\n\
take 6 1\n\
port logic\n\
table a1a1a1a1a1a1a1a1 a1a1a1a1a1a1a1a1 a1a1a1a1a1a1a1a1 a1a1a1a1a1a1a1a1 a1a1a1a1a1a1a1a1 a1a1a1a1a1a1a1a1 a1a1a1a1a1a1a1a1 a1a1a1a1a1a1a1a1\n\
table a2a200a1a2a200a1 a2a200a1a2a200a1 a2a200a1a2a200a1 a2a200a1a2a200a1 a2a200a1a2a200a1 a2a200a1a2a200a1 a2a200a1a2a200a1 a2a200a1a2a200a1\n\
table a6a655a4a6a655a4 a6a655a4a6a655a4 a6a655a4a6a655a4 a6a655a4a6a655a4 a6a655a4a6a655a4 a6a655a4a6a655a4 a6a655a4a6a655a4 a6a655a4a6a655a4\n\
table a9a9a155a9a9a155 a9a9a155a9a9a155 a9a9a155a9a9a155 a9a9a155a9a9a155 a9a9a155a9a9a155 a9a9a155a9a9a155 a9a9a155a9a9a155 a9a9a155a9a9a155\n\
hold 0 G7 5\n\
eval 1 0 g0 c0 c0 c0 7\n\
eval 3 1 g1 g2 c0 c0 9\n\
eval 5 2 g3 g4 c0 c0 11\n\
eval 6 3 o5 g5 c0 c0 13\n\
eval 8 0 g7 c0 c0 c0 15\n\
send 0 0\n\
send 1 0\n\
send 3 0\n\
send 6 0\n\
send 8 2\n\
take 0 2\n\
take 1 2\n\
take 2 0\n\
take 3 2\n\
take 4 0\n\
take 5 0\n\
take 7 0\n\
port host\n\
in 0 0 0\n\
in 1 1 1\n\
in 2 2 2\n\
in 3 3 3\n\
print g8\n\
send 0 1\n\
send 1 1\n\
send 2 0\n\
send 3 1\n\
take 8 1\n\
end\n",
        ..PLAIN
    },
    // A memory, at port 1, sends its output in slot 0, while it receives the first input.
    Case {
        calls: "compile",
        words: "net.bench --machine net.machine",
        machine: "logic 1\narray 1\n",
        given: Given::Netlist,
        rows: "\
INPUT(w)\nINPUT(a)\nINPUT(d)\nOUTPUT(q)\n[q] = RAM(w; a; d)\n\
=> yse-image 1\n\
slots 3 units 1 init x columns 3 ports 3\n\
port logic\n\
port array\n\
block 1 1 G0 G1 G2\n\
out 0 0 0 3\n\
send 0 2\n\
take 0 2\n\
take 1 2\n\
take 2 2\n\
port host\n\
in 0 0 0\n\
in 1 1 1\n\
in 2 2 2\n\
print g0\n\
send 0 1\n\
send 1 1\n\
send 2 1\n\
take 0 1\n\
end\n",
        ..PLAIN
    },
];

#[test]
fn texts_are_read_as_stated(rt: HostRuntime) {
    assert!(rt; all_end(&rt, rt.alloc(), CASES));
}
