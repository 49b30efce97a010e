//! Runs in given orders: those that suffice, those that end before the run does, and the banks by which ports may run
//! ahead.

use super::{C17, Case, Given, PLAIN, RAM, S27, Texts, all_end, all_print_reference};
use seen_list::{Memory, Text};
use std::alloc::Global;
use std::marker::Sync;
use std::sync::Wait;
use std::thread::Threads;

/// Over an order, which rows give.
const ORDERED: Case = Case {
    calls: "order",
    words: "net.bench net.stim --machine net.machine --order net.more",
    given: Given::More,
    ..PLAIN
};

/// Ports 0 and 1 are logic, 2 is the array, 3 the host.
const TWO_LOGIC: &str = "logic 2\n";

const BUFFER: &str = "INPUT(a)\nOUTPUT(a)\nz = BUFF(a)\n";

const ONE_LOGIC: &str = "logic 1\narray 0\n";

const CASES: &[Case] = &[
    // C17: an order that suffices, and the same without its last line.
    Case {
        calls: "order --banks 1",
        netlist: C17,
        stimulus: "11111\n00000\nxxxxx\n",
        machine: TWO_LOGIC,
        rows: "\
2 * 1000\n3 * 1000\n1 * 1000\n0 * 1000\n1 * 1000\n3 * 1000\n1 * 1000\n0 * 1000\n1 * 1000\n3 * 1000\n1 * 1000\n0 * 1000\n1 * 1000\n3 * 1000\n=> cycle 22 23\n1 10\n2 00\n3 xx\n\
|2 * 1000\n3 * 1000\n1 * 1000\n0 * 1000\n1 * 1000\n3 * 1000\n1 * 1000\n0 * 1000\n1 * 1000\n3 * 1000\n1 * 1000\n0 * 1000\n1 * 1000\n=> cycle 22 23\n1 10\n2 00\n=> order: ended with 2 of 3 rows done\n",
        ..ORDERED
    },
    // The host alone: it runs ahead of its reader by as many turns as there are banks.
    Case {
        netlist: BUFFER,
        stimulus: "0\n1\n0\n",
        machine: ONE_LOGIC,
        more: "1 * 100\n",
        given: Given::Words,
        rows: "\
--banks 1=> cycle a\n1 0\n=> order: ended with 1 of 3 rows done\n\
|--banks 2=> cycle a\n1 0\n2 1\n=> order: ended with 2 of 3 rows done\n\
|--banks 3=> cycle a\n1 0\n2 1\n3 0\n=> order: ended with 3 of 3 rows done\n",
        ..ORDERED
    },
    Case {
        calls: "order --banks 3",
        netlist: BUFFER,
        stimulus: "0\n1\n0\n",
        machine: ONE_LOGIC,
        rows: "1 * 100\n0 * 100\n=> cycle a\n1 0\n2 1\n3 0\n",
        ..ORDERED
    },
];

#[test]
fn orders_end_as_stated(rt: HostRuntime) {
    assert!(rt; all_end(&rt, rt.alloc(), CASES));
}

fn step_of(state: u32) -> &'static [u8] {
    match state / 268_435_456 % 4 {
        0 => b"0\n",
        1 => b"1\n",
        2 => b"2\n",
        _ => b"3\n",
    }
}

/// An order text of so many steps of four ports, drawn by a small generator.
fn drawn(alloc: Global, seed: u32, steps: u32) -> Result<Text, Memory> {
    let mut order = Text::new(alloc);
    let mut state = seed;
    for _ in 0..steps {
        state = state.wrapping_mul(1_664_525).wrapping_add(1_013_904_223);
        order.push_bytes(step_of(state))?;
    }
    Ok(order)
}

/// The netlists, each with a stimulus, that are run in drawn orders.
const DESIGNS: &[(&str, &str)] = &[
    (C17, "11111\n0x0z0\n10101 * 2\n"),
    (S27, "0000\n0001\n0000\n1000\n0001\n"),
    (RAM, "1101\n0100\n0100\n1100\n0100\n0100\n"),
];

fn designs() -> &'static [(&'static str, &'static str)] {
    DESIGNS
}

/// Runs with so many banks.
const BANKS: &str = "order --init=0 --banks 1|order --init=0 --banks 2|order --init=0 --banks 8";

/// Whether runs in a drawn order, with so many banks each, print what the reference simulation does.
fn print_in_drawn_order<R: Threads + Wait + Sync>(
    rt: &R,
    alloc: Global,
    design: &(&str, &str),
) -> Result<bool, Memory> {
    let order = drawn(alloc, 11, 4000)?;
    let texts: Texts<'_> = [
        design.0.as_bytes(),
        design.1.as_bytes(),
        TWO_LOGIC.as_bytes(),
        order.as_bytes(),
    ];
    let refer = "refer net.bench net.stim --init 0";
    all_print_reference(rt, alloc, refer, BANKS, ORDERED.words, &texts)
}

#[test]
fn drawn_orders_print_the_reference(rt: HostRuntime) {
    for design in designs() {
        assert!(rt; print_in_drawn_order(&rt, rt.alloc(), design) == Ok(true));
    }
}
