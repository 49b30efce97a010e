//! Runs of lanes against the reference: each lane prints what `refer` prints of its own stimulus.

use super::{BUS, C17, EASY, FILES, LATCH, RAM, S27, Texts, all_print, end_of, four};
use seen_list::{Memory, Text};
use std::alloc::Global;
use std::marker::Sync;
use std::sync::Wait;
use std::thread::Threads;

/// A memory of two words of 64 bits.
const WORDS: &str =
    "INPUT(w)\nINPUT(a)\nINPUT(d)\nOUTPUT(q0)\nOUTPUT(q62)\nOUTPUT(q63)\ne = NOT(d)\n[q0, q1, q2, q3, q4, q5, q6, q7, q8, q9, q10, q11, q12, q13, q14, q15, q16, q17, q18, q19, q20, q21, q22, q23, q24, q25, q26, q27, q28, q29, q30, q31, q32, q33, q34, q35, q36, q37, q38, q39, q40, q41, q42, q43, q44, q45, q46, q47, q48, q49, q50, q51, q52, q53, q54, q55, q56, q57, q58, q59, q60, q61, q62, q63] = RAM(w; a; d, e, d, e, d, e, d, e, d, e, d, e, d, e, d, e, d, e, d, e, d, e, d, e, d, e, d, e, d, e, d, e, d, e, d, e, d, e, d, e, d, e, d, e, d, e, d, e, d, e, d, e, d, e, d, e, d, e, d, e, d, e, d, e)\n";

/// Thirty lanes for c17 of 0 to 40 cycles, so that the longest pass the end of the stamps twice.
const THIRTY: &[&str] = &[
    "",
    "00000\n",
    "xxxxx * 39\nzzzzz\n",
    "01010 * 1\n0z1x1\n",
    "10x01 * 16\n11111\n",
    "",
    "0z1x1 * 32\nxxxxx\n",
    "11111 * 2\n01010\n",
    "00000 * 15\n10x01\n",
    "xxxxx * 14\nzzzzz\n",
    "",
    "10x01\n",
    "zzzzz * 39\n00000\n",
    "0z1x1 * 1\nxxxxx\n",
    "11111 * 16\n01010\n",
    "",
    "xxxxx * 32\nzzzzz\n",
    "01010 * 2\n0z1x1\n",
    "10x01 * 15\n11111\n",
    "zzzzz * 14\n00000\n",
    "",
    "11111\n",
    "00000 * 39\n10x01\n",
    "xxxxx * 1\nzzzzz\n",
    "01010 * 16\n0z1x1\n",
    "",
    "zzzzz * 32\n00000\n",
    "0z1x1 * 2\nxxxxx\n",
    "11111 * 15\n01010\n",
    "00000 * 14\n10x01\n",
];

/// The stimuli of the lanes of a design, a list of gates, and the words behind a call.
#[derive(Clone, Copy)]
struct PackCase {
    netlist: &'static str,
    lanes: &'static [&'static str],
    list: &'static str,
    words: &'static str,
}

const NO_LANES: PackCase = PackCase {
    netlist: "",
    lanes: &[],
    list: "",
    words: FILES,
};

const CASES: &[PackCase] = &[
    PackCase {
        netlist: C17,
        lanes: THIRTY,
        ..NO_LANES
    },
    PackCase {
        netlist: C17,
        lanes: &["11111 * 40\n"],
        words: "net.bench net.stim --mode unit --units 3",
        ..NO_LANES
    },
    PackCase {
        netlist: S27,
        lanes: &[
            "0000\n0001\n0000\n1000\n0001\n",
            "",
            "1111 * 20\n0x01\n",
            "0010\n",
        ],
        words: "net.bench net.stim --init 0",
        ..NO_LANES
    },
    PackCase {
        netlist: BUS,
        lanes: &["1000\n1001\n1010\n1110\n", "1011\n0000\nx000\n1100\nz1zz\n"],
        ..NO_LANES
    },
    // Each lane has its own words of a memory, of one bit and of 64.
    PackCase {
        netlist: RAM,
        lanes: &[
            "1101\n0100\n0100\n1100\n0100\n0100\n",
            "0000\n1x01\n0000\n0000\n",
            "0000\n0x01\n0000\n0000\n",
        ],
        ..NO_LANES
    },
    PackCase {
        netlist: WORDS,
        lanes: &[
            "101\n110\n000\n010\n000\n",
            "000\n100\n000\n",
            "1x1\n000\n000\n",
        ],
        words: "net.bench net.stim --init 0",
        ..NO_LANES
    },
    // A loop in unit delay, and cut by one listed gate.
    PackCase {
        netlist: LATCH,
        lanes: &["01\n11\n10\n", "10\n11 * 18\n"],
        words: "net.bench net.stim --mode unit --units 4",
        ..NO_LANES
    },
    PackCase {
        netlist: LATCH,
        lanes: &["01\n11\n10\n", "10\n11 * 18\n"],
        list: "q\n",
        words: "net.bench net.stim --mode mixed --last net.more --units 2",
        ..NO_LANES
    },
];

fn cases() -> &'static [PackCase] {
    CASES
}

/// The texts of a case, with this stimulus.
fn texts_with<'a>(case: &PackCase, stimulus: &'a [u8]) -> Texts<'a> {
    let (netlist, list) = (case.netlist.as_bytes(), case.list.as_bytes());
    four(netlist, stimulus, b"logic 3\n", list)
}

/// The text of the lanes.
fn lanes_text(alloc: Global, lanes: &[&str]) -> Result<Text, Memory> {
    let mut text = Text::new(alloc);
    for lane in lanes {
        text.push_bytes(b"lane\n")?;
        text.push_bytes(lane.as_bytes())?;
    }
    Ok(text)
}

/// Adds what `refer` prints of a stimulus.
fn push_trace<R: Threads + Wait + Sync>(
    rt: &R,
    alloc: Global,
    text: &mut Text,
    case: &PackCase,
    stimulus: &str,
) -> Result<(), Memory> {
    let texts = texts_with(case, stimulus.as_bytes());
    let ended = end_of(rt, alloc, &["refer", case.words], &texts, &EASY)?;
    text.push_bytes(ended.out.taken())
}

/// Adds the line that begins a lane, with its number.
fn push_mark(alloc: Global, text: &mut Text, lane: usize) -> Result<(), Memory> {
    let mark = format!(in alloc; "lane {lane}\n")?;
    text.push_bytes(mark.as_bytes())
}

/// What the lanes are to print: of each its number, and what `refer` prints of its stimulus.
fn references<R: Threads + Wait + Sync>(
    rt: &R,
    alloc: Global,
    case: &PackCase,
) -> Result<Text, Memory> {
    let mut text = Text::new(alloc);
    for n in 0..case.lanes.len() {
        push_mark(alloc, &mut text, n + 1)?;
        push_trace(rt, alloc, &mut text, case, case.lanes[n])?;
    }
    Ok(text)
}

const CALLS: &str = "pack --workers 1|pack --workers 7|pack --workers 2 --machine net.machine";

/// Whether each call prints this of the lanes of a case.
fn print_lanes<R: Threads + Wait + Sync>(
    rt: &R,
    alloc: Global,
    case: &PackCase,
    wanted: &[u8],
) -> Result<bool, Memory> {
    let lanes = lanes_text(alloc, case.lanes)?;
    let texts = texts_with(case, lanes.as_bytes());
    Ok(all_print(rt, alloc, CALLS, case.words, &texts, wanted))
}

/// Whether each call prints the references of a case.
fn print_references<R: Threads + Wait + Sync>(
    rt: &R,
    alloc: Global,
    case: &PackCase,
) -> Result<bool, Memory> {
    let wanted = references(rt, alloc, case)?;
    print_lanes(rt, alloc, case, wanted.as_bytes())
}

#[test]
fn lanes_print_their_references(rt: HostRuntime) {
    for case in cases() {
        assert!(rt; print_references(&rt, rt.alloc(), case) == Ok(true));
    }
}
