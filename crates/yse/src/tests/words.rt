//! Words: those that are of no form, and those that are, by the first file that they name. None is there.

use super::{Case, Given, PLAIN, all_end};

/// No command or an unknown one, too few or too many files, options that a command does not have, names of options that
/// are shortened or of another case, options that are given twice or without a value, values that begin with `-`, and
/// values out of range.
const REFUSED: &str = "\
|run|run c17.bench|run a b c|Run a b|'' a b|--help|-h|run --help|run a b -h|refer a b --machine m\
|run a b --order o|refer a b --banks 1|order a b --workers 2|large 2 2 --banks 1|plan a b\
|compile a b|compile a --workers 2|exec a b|exec a i b c|exec a i b --machine m\
|exec a i b --homes plain|pack a|pack a b --banks 1|pack a b --homes plain|pack a b --order o\
|fault a|fault a b --machine m|fault a b --banks 1|fault a b --faults|refer a b --faults f\
|cover a|cover a b --workers 1\
|run a b --faults f|fault a b --faults f --faults f|refer a b --homes plain|order a b --homes plain\
|run a b --homes best|plan a --units 1|plan a --mode|plan a --mode ''|show a --mode rank|show a b\
|run a b --mac m|run a b --Machine m|run a b ---machine m|run a b -machine m|run a b --=m\
|run a b --workers 1 --workers 1|run a b --machine m --machine m|run a b --machine m --machine=n\
|run a b --machine|run a b --machine --init 0|run a b --machine=|run a b --machine ''\
|run a b --machine -m|run a b --machine -|run a -- b --init|run a b --machine -- m\
|run a b --machine --|run a ''|run a -- ''|run a -|show ''|run a b --units 2\
|run a b --units 2 --mode rank|run a b --mode unit --units 00000000007|run a b --mode unit --units 0\
|refer a b --mode mixed|order a b --mode unit --last l|run a b --last l|show a --mode mixed --last l\
|run a b --mode unit --units 4097|run a b --mode unit --units +7|run a b --mode Unit\
|run a b --init 1|order a b --banks 0|order a b --banks 9|order a b --banks|run a b --workers 0\
|run a b --workers=65|large 2|large 2 2 2|large 0 1|large 30001 1|large 1 10001\
|help Run|help c17.bench|help run run|help ''|help --mode rank|help --help";

/// Calls that read the netlist `a` first: options before, between and behind the files, as two words and as one, and
/// `--`, of which a second one is a file.
const NETLIST_FIRST: &str = "\
run a b|refer --mode=unit a --units=4096 b --init=x|plan a|show a\
|compile a --homes better --units 3 --mode unit --init 0|exec a i b|run a b --homes plain\
|plan a --homes=better|run a b --workers 64 --banks 8|pack a b|fault a b|fault a b --faults f|cover a b\
|fault --mode mixed a --last l b --units 3|run a b --|run -- a b|run a -- --machine\
|run a b --units 1|run a b --units 2 --mode unit|run a b --mode unit --units 0000000007\
|run a b --mode mixed --last l --units 2|plan a --last l --mode mixed";

/// Calls that read the machine `m` first.
const MACHINE_FIRST: &str = "\
run --machine m a b|run a --machine=m b|run a b --init 0 --machine m\
|order a b --banks=8 --order o --machine m|plan --mode unit a --machine=m\
|pack a b --workers 7 --machine m --init 0";

/// Calls with no other words.
const WORDS: Case = Case { words: "", ..PLAIN };

const CASES: &[Case] = &[
    Case {
        calls: REFUSED,
        rows: "=> usage: yse (run/refer/order) NETLIST STIMULUS [options], yse plan NETLIST [options], yse show NETLIST, yse large GATES CYCLES [options]\n",
        ..WORDS
    },
    Case {
        calls: NETLIST_FIRST,
        rows: "=> read fault: a\n",
        ..WORDS
    },
    Case {
        calls: MACHINE_FIRST,
        rows: "=> read fault: m\n",
        ..WORDS
    },
    Case {
        calls: "large 2 2|large --workers 1 2 2|large -- 2 2",
        rows: "=> gates 2 nodes 2 slots 9 crossings 5\nzeros 2 ones 2 xs 0 zs 0\n",
        ..WORDS
    },
    Case {
        calls: "help show|help -- show",
        rows: "=> yse show NETLIST\n\nPrints a line for each input, printed name, gate, register and memory.\n\nExample: yse show s27.bench\n",
        ..WORDS
    },
    Case {
        calls: "help show",
        given: Given::FailingWrite,
        rows: "1=> write fault\n",
        ..WORDS
    },
    // Values that begin with `-`, and one with an `=` in it.
    Case {
        calls: "run",
        given: Given::Words,
        rows: "\
a b --machine=-m=> read fault: -m\n\
|a b --machine=--=> read fault: --\n\
|-- -- -=> read fault: --\n\
|a b --machine=m=n=> read fault: m=n\n",
        ..WORDS
    },
];

#[test]
fn words_are_read_as_stated(rt: HostRuntime) {
    assert!(rt; all_end(&rt, rt.alloc(), CASES));
}
