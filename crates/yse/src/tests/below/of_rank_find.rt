//! `rank` with ample memory, against orders, ranks and loops worked out by hand.

use super::items::{netlist_of, timing_of};
use super::wanted::{Wanted, parts_of};
use net_defs::Ranks;
use rank_find::{RankNo, rank};
use std::alloc::Global;

/// Netlists, each in the timing that its word names, with `|` between them; then the order and the ranks, or the loop, by
/// the numbers of the signals. They are a latch, and in mixed mode one of whose gates is listed: the other one reads it,
/// and comes after it. And a chain in which each gate stands before its operand, a toggle, a gate
/// that is its own operand, behind a gate of no loop, and a loop of three, which begins with signal 3.
const CASES: &str = "\
rank: INPUT(s)\nINPUT(r)\nq = NAND(s, p)\np = NAND(r, q)\n\
=> loop 2 3\n\
|unit: INPUT(s)\nINPUT(r)\nq = NAND(s, p)\np = NAND(r, q)\n\
=> order 2 3\nranks 0 0 0 0\n\
|q: INPUT(s)\nINPUT(r)\nq = NAND(s, p)\np = NAND(r, q)\nz = NOT(p)\n\
=> order 2 3 4\nranks 0 0 0 1 2\n\
|rank: INPUT(a)\nINPUT(b)\nc = NOT(d)\nd = NOT(e)\ne = AND(a, b)\nf = OR(c, e)\n\
=> order 4 3 2 5\nranks 0 0 2 1 0 3\n\
|rank: INPUT(a)\nINPUT(b)\nn = NOT(q)\nq = DFF(n)\n\
=> order 2\nranks 0 0 0 0\n\
|rank: INPUT(a)\nINPUT(b)\nc = AND(d, a)\nd = OR(a, d)\n\
=> loop 3\n\
|rank: INPUT(a)\nINPUT(b)\nc = BUFF(f)\nd = BUFF(e)\ne = BUFF(f)\nf = BUFF(d)\n\
=> loop 3 5 4\n\
|unit: INPUT(a)\nINPUT(b)\nc = BUFF(f)\nd = BUFF(e)\ne = BUFF(f)\nf = BUFF(d)\n\
=> order 2 3 4 5\nranks 0 0 0 0 0 0\n";

fn cases() -> &'static str {
    CASES
}

fn tell_found(wanted: &mut Wanted<'_>, found: &Result<Ranks, RankNo>) {
    match found {
        Ok(ranks) => {
            wanted.tell_line("order", ranks.order.as_slice());
            wanted.tell_line("ranks", ranks.rank.as_slice());
        }
        Err(RankNo::Loop(members)) => wanted.tell_line("loop", members.as_slice()),
        Err(RankNo::Memory) => wanted.tell(b"no memory"),
    }
}

/// Whether this is found of the netlist of a case.
fn is_found(alloc: Global, case: &str) -> bool {
    let (mode, text, wanted) = parts_of(case);
    let mut wanted = Wanted::new(wanted);
    if let Some(net) = netlist_of(alloc, text) {
        if let Some(timing) = timing_of(alloc, mode, &net) {
            let found = rank(alloc, &net, &timing);
            tell_found(&mut wanted, &found);
            drop(found);
            drop(timing);
        }
        drop(net);
    }
    wanted.is_told()
}

#[test]
fn ranks_and_loops(rt: HostRuntime) {
    for case in cases().split('|') {
        assert!(rt; is_found(rt.alloc(), case));
    }
}
