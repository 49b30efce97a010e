//! Whole calls over texts on both sides of the limits that only long texts meet. What they print is not looked at.

use super::{EASY, Edges, end_of, has_told, status_of};
use seen_list::{Memory, Text};
use std::alloc::Global;
use std::marker::Sync;
use std::sync::Wait;
use std::thread::Threads;

/// What a text has, so many times.
#[derive(Clone, Copy)]
enum Much {
    /// Inputs, a line each.
    Inputs(u32),
    /// An input, gates that have it as 1,024 operands each, and a gate with so many.
    Gates(u32, u32),
    /// Two inputs, memories of 16 address bits and 64 data bits, and memories of one bit of each.
    Memories(u32, u32),
    /// What it begins with, a piece that stands there so many times, and its end.
    Pieces(&'static str, &'static str, u32, &'static str),
}

/// A call, what the text of `net.bench` has, the stimulus, and the line that is told. The file `net.machine` has room
/// for the memories, and `net.more` is empty.
type Limit = (&'static str, Much, &'static str, &'static str);

const REFER: &str = "refer net.bench net.stim";

const FAULT: &str = "fault net.bench net.stim";

const PACK: &str = "pack net.bench net.stim --machine net.machine";

const RUN: &str = "run net.bench net.stim --machine net.machine --workers 1";

const ORDER: &str = "order net.more net.more --order net.bench";

const EXEC: &str = "exec net.more net.bench net.stim";

const MACHINE: &[u8] = b"bits 16777216\narray 2\n";

/// A stimulus that is refused: what is within a limit is told so.
const BAD: &str = "2\n";

const BAD_LINE: &str = "stimulus: line 1: bad character\n";

const SHOW: &str = "show net.bench";

const OPERANDS: &str = "netlist: line 2: wrong number of operands\n";

/// An input, and a memory of one data bit up to where further address bits begin.
const MEMORY: &str = "INPUT(a)\n[q] = RAM(a; a";

const IMAGE: &str = "yse-image 1\nslots 2 units 1 init x columns 1 ports 2\nport logic\n";

const TABLE: &str =
    "table a4a4a4a4a4a4a4a4 a4a4a4a4a4a4a4a4 a4a4a4a4a4a4a4a4 a4a4a4a4a4a4a4a4 a4a4a4a4a4a4a4a4 a4a4a4a4a4a4a4a4 a4a4a4a4a4a4a4a4 a4a4a4a4a4a4a4a4\n";

/// 64 bytes of a comment.
const COMMENT: &str = "################################################################";

const LIMITS: &[Limit] = &[
    (REFER, Much::Inputs(1_048_576), BAD, BAD_LINE),
    (
        REFER,
        Much::Inputs(1_048_577),
        BAD,
        "netlist: line 1048577: too many signals\n",
    ),
    (REFER, Much::Gates(4095, 1024), BAD, BAD_LINE),
    (
        REFER,
        Much::Gates(4096, 1),
        BAD,
        "netlist: line 4098: too many operands\n",
    ),
    (FAULT, Much::Inputs(65_536), BAD, BAD_LINE),
    (
        FAULT,
        Much::Inputs(65_537),
        BAD,
        "limit: 65537 signals, at most 65536\n",
    ),
    (
        PACK,
        Much::Memories(4, 0),
        BAD,
        "stimulus: line 1: no lane\n",
    ),
    (
        PACK,
        Much::Memories(4, 1),
        BAD,
        "limit: 16777218 memory bits, at most 16777216\n",
    ),
    ("large 30000 1 --workers 1", Much::Inputs(0), "", ""),
    ("large 1 10000 --workers 1", Much::Inputs(0), "", ""),
    // Each cycle writes at an address that is undefined.
    (RUN, Much::Memories(1, 0), "1x * 100000\n", ""),
    (
        ORDER,
        Much::Pieces("", "0 * 1000000\n", 1000, "0\n"),
        "",
        "order: line 1001: too long\n",
    ),
    // All steps of 1,000 lines are few enough.
    (
        ORDER,
        Much::Pieces("", "0 * 1000000\n", 1000, "x\n"),
        "",
        "order: line 1001: syntax\n",
    ),
    (
        EXEC,
        Much::Pieces(IMAGE, TABLE, 4096, ""),
        "",
        "image: line 4100: syntax\n",
    ),
    (
        EXEC,
        Much::Pieces(IMAGE, TABLE, 4097, ""),
        "",
        "image: line 4100: out of range\n",
    ),
    // A text of 67,108,864 bytes is read, and one of a byte more is refused.
    (REFER, Much::Pieces("", COMMENT, 1_048_576, ""), "", ""),
    (
        REFER,
        Much::Pieces("", COMMENT, 1_048_576, "#"),
        "",
        "limit: net.bench has more than 67108864 bytes\n",
    ),
    // Gates of more than 1,024 operands, and memories of 16 address bits and of one more.
    (REFER, Much::Gates(0, 1025), BAD, OPERANDS),
    (SHOW, Much::Pieces(MEMORY, ", a", 15, "; a)\n"), "", ""),
    (
        SHOW,
        Much::Pieces(MEMORY, ", a", 16, "; a)\n"),
        "",
        OPERANDS,
    ),
];

fn limits() -> &'static [Limit] {
    LIMITS
}

fn push_times(text: &mut Text, piece: &str, times: u32) -> Result<(), Memory> {
    for _ in 0..times {
        text.push_bytes(piece.as_bytes())?;
    }
    Ok(())
}

/// A gate that has the input as an operand so many times, at least once.
fn push_gate(alloc: Global, text: &mut Text, name: u32, operands: u32) -> Result<(), Memory> {
    text.push_bytes(format!(in alloc; "g{name} = AND(a")?.as_bytes())?;
    push_times(text, ", a", operands.saturating_sub(1))?;
    text.push_bytes(b")\n")
}

/// A memory that has the second input as each address and data bit.
fn push_memory(
    alloc: Global,
    text: &mut Text,
    name: u32,
    address: u32,
    word: u32,
) -> Result<(), Memory> {
    text.push_bytes(format!(in alloc; "[m{name}b0")?.as_bytes())?;
    for bit in 1..word {
        text.push_bytes(format!(in alloc; ", m{name}b{bit}")?.as_bytes())?;
    }
    text.push_bytes(b"] = RAM(w; a")?;
    push_times(text, ", a", address.saturating_sub(1))?;
    text.push_bytes(b"; a")?;
    push_times(text, ", a", word.saturating_sub(1))?;
    text.push_bytes(b")\n")
}

/// Inputs whose names are their numbers.
pub(crate) fn push_inputs(alloc: Global, text: &mut Text, count: u32) -> Result<(), Memory> {
    for i in 0..count {
        text.push_bytes(format!(in alloc; "INPUT({i})\n")?.as_bytes())?;
    }
    Ok(())
}

fn push_gates(alloc: Global, text: &mut Text, wide: u32, last: u32) -> Result<(), Memory> {
    text.push_bytes(b"INPUT(a)\n")?;
    for gate in 0..wide {
        push_gate(alloc, text, gate, 1024)?;
    }
    push_gate(alloc, text, wide, last)
}

fn push_memories(alloc: Global, text: &mut Text, large: u32, small: u32) -> Result<(), Memory> {
    text.push_bytes(b"INPUT(w)\nINPUT(a)\n")?;
    for memory in 0..large {
        push_memory(alloc, text, memory, 16, 64)?;
    }
    for memory in 0..small {
        push_memory(alloc, text, large.saturating_add(memory), 1, 1)?;
    }
    Ok(())
}

fn push_much(alloc: Global, text: &mut Text, much: Much) -> Result<(), Memory> {
    match much {
        Much::Inputs(count) => push_inputs(alloc, text, count),
        Much::Gates(wide, last) => push_gates(alloc, text, wide, last),
        Much::Memories(large, small) => push_memories(alloc, text, large, small),
        Much::Pieces(front, piece, times, end) => {
            push_times(text, front, 1)?;
            push_times(text, piece, times)?;
            push_times(text, end, 1)
        }
    }
}

/// Whether a call over such a text ends with this status and this line.
fn ends_at<R: Threads + Wait + Sync>(rt: &R, alloc: Global, limit: &Limit) -> Result<bool, Memory> {
    let mut text = Text::new(alloc);
    push_much(alloc, &mut text, limit.1)?;
    let edges = Edges {
        room: 1_048_576,
        ..EASY
    };
    let texts = [text.as_bytes(), limit.2.as_bytes(), MACHINE, b""];
    let ended = end_of(rt, alloc, &[limit.0], &texts, &edges);
    Ok(has_told(ended, status_of(limit.3), limit.3.as_bytes()))
}

#[test]
fn long_texts_end_as_stated(rt: HostRuntime) {
    for limit in limits() {
        assert!(rt; ends_at(&rt, rt.alloc(), limit) == Ok(true));
    }
}
