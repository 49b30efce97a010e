//! Whole calls at edges that fail, or that give or take little at a time, and over texts that are cut off or as
//! large as a text may be.

use super::{
    C17, Case, EASY, Edges, FILES, Given, PLAIN, S27, Texts, all_end, end_of, ends, has_status,
    has_told, texts_of,
};
use seen_list::{Memory, Text};
use std::alloc::Global;
use std::marker::Sync;
use std::sync::Wait;
use std::thread::Threads;

const COMMANDS: &str = "run|refer|order";

const C17_TRACE: &str = "cycle 22 23\n1 10\n2 00\n3 xx\n";

const THREE_CYCLES: Case = Case {
    calls: COMMANDS,
    words: "net.bench net.stim --init 0",
    netlist: S27,
    stimulus: "0000 * 3\n",
    ..PLAIN
};

const CASES: &[Case] = &[
    // Each file is begun, read, and read again up to its end.
    Case {
        given: Given::FailingRead,
        rows: "\
1=> read fault: net.bench\n\
|2=> read fault: net.bench\n\
|3=> read fault: net.bench\n\
|4=> read fault: net.stim\n\
|5=> read fault: net.stim\n\
|6=> read fault: net.stim\n\
|7=> cycle G17\n1 1\n2 1\n3 1\n",
        ..THREE_CYCLES
    },
    // Whole lines are written before a write that fails.
    Case {
        given: Given::FailingWrite,
        rows: "\
1=> write fault\n\
|2=> cycle G17\n=> write fault\n\
|3=> cycle G17\n1 1\n=> write fault\n\
|4=> cycle G17\n1 1\n2 1\n=> write fault\n\
|5=> cycle G17\n1 1\n2 1\n3 1\n",
        ..THREE_CYCLES
    },
    // Files come in small pieces.
    Case {
        given: Given::MostRead,
        rows: "\
1=> cycle G17\n1 1\n2 1\n3 1\n\
|2=> cycle G17\n1 1\n2 1\n3 1\n\
|7=> cycle G17\n1 1\n2 1\n3 1\n",
        ..THREE_CYCLES
    },
];

#[test]
fn files_and_writes_end_as_stated(rt: HostRuntime) {
    assert!(rt; all_end(&rt, rt.alloc(), CASES));
}

/// Whether a sink of so much room, which takes a byte a call, has as much of the trace as there is room for.
fn is_filled<R: Threads + Wait + Sync>(
    rt: &R,
    alloc: Global,
    command: &'static str,
    room: usize,
) -> bool {
    let trace = C17_TRACE.as_bytes();
    let edges = Edges {
        room,
        most_written: 1,
        ..EASY
    };
    let (output, rest) = trace.split_at_checked(room).unwrap_or((trace, b""));
    let (status, line) = if rest.is_empty() {
        (0, "")
    } else {
        (4, "write fault\n")
    };
    let texts = texts_of(C17, "11111\n00000\nxxxxx\n");
    let wanted = (status, output, line.as_bytes());
    ends(rt, alloc, &[command, FILES], &texts, &edges, wanted)
}

#[test]
fn any_room_is_filled(rt: HostRuntime) {
    for command in COMMANDS.split('|') {
        for room in 0..C17_TRACE.len() + 1 {
            assert!(rt; is_filled(&rt, rt.alloc(), command, room));
        }
    }
}

/// A line that can't be told leaves the status of a refused netlist.
#[test]
fn lines_may_fail(rt: HostRuntime) {
    let texts = texts_of("INPUT(a)\nOUTPUT(z)\nz = AND(a, b)\n", "");
    let edges = Edges {
        failing_line: 1,
        ..EASY
    };
    let wanted: (u8, &[u8], &[u8]) = (5, b"", b"");
    assert!(rt; ends(&rt, rt.alloc(), &["show net.bench"], &texts, &edges, wanted));
}

/// Line ends of two bytes are read, and a byte in a comment that has no place elsewhere.
#[test]
fn comments_have_any_byte(rt: HostRuntime) {
    let netlist = b"input(a)\r\noutput(z)\r\nz = not(y) # \xff\r\ny = buff(a)\r\n";
    let canonical = b"INPUT(a)\nOUTPUT(z)\nz = NOT(y)\ny = BUFF(a)\n";
    let texts: Texts<'_> = [netlist, b"", b"", b""];
    let wanted: (u8, &[u8], &[u8]) = (0, canonical, b"");
    assert!(rt; ends(&rt, rt.alloc(), &["show net.bench"], &texts, &EASY, wanted));
}

/// Whether a text that begins with lines of inputs, of so many bytes, is a netlist where it is cut off behind
/// `front`: at a line's end or just before it, and among those lines or behind the last line.
fn is_netlist(inputs: usize, front: &[u8], rest: &[u8]) -> bool {
    let ends_line = front.is_empty() || front.ends_with(b"\n") || rest.starts_with(b"\n");
    rest.is_empty() || (ends_line && (front.len() <= inputs || rest.len() == 1))
}

/// Whether a text that begins with inputs of so many bytes, cut off behind so many, is shown if it is a netlist, and
/// else refused.
fn is_judged<R: Threads + Wait + Sync>(
    rt: &R,
    alloc: Global,
    text: &[u8],
    inputs: usize,
    bytes: usize,
) -> bool {
    let (front, rest) = text.split_at_checked(bytes).unwrap_or((text, b""));
    let wanted = if is_netlist(inputs, front, rest) {
        0
    } else {
        5
    };
    let texts: Texts<'_> = [front, b"", b"", b""];
    let ended = end_of(rt, alloc, &["show net.bench"], &texts, &EASY);
    has_status(ended, wanted)
}

/// Whether it is refused wherever it is cut off inside.
fn is_refused_in_part<R: Threads + Wait + Sync>(
    rt: &R,
    alloc: Global,
    text: &[u8],
    inputs: usize,
) -> bool {
    for bytes in 0..text.len() {
        if !is_judged(rt, alloc, text, inputs, bytes) {
            return false;
        }
    }
    is_judged(rt, alloc, text, inputs, text.len())
}

#[test]
fn texts_are_cut_off(rt: HostRuntime) {
    assert!(rt; is_refused_in_part(&rt, rt.alloc(), C17.as_bytes(), 45));
    assert!(rt; is_refused_in_part(&rt, rt.alloc(), S27.as_bytes(), 40));
}

/// Adds a gate to a netlist, and its name to a line.
fn push_inverter(
    alloc: Global,
    netlist: &mut Text,
    line: &mut Text,
    gate: u32,
    before: u32,
) -> Result<(), Memory> {
    netlist.push_bytes(format!(in alloc; "g{gate} = NOT(g{before})\n")?.as_bytes())?;
    line.push_bytes(format!(in alloc; " g{gate}")?.as_bytes())
}

/// Adds so many gates in a ring, each a NOT of the one before it, and the line that tells the loop.
fn push_ring(alloc: Global, netlist: &mut Text, line: &mut Text, size: u32) -> Result<(), Memory> {
    line.push_bytes(b"loop:")?;
    let mut before = size.saturating_sub(1);
    for gate in 0..size {
        push_inverter(alloc, netlist, line, gate, before)?;
        before = gate;
    }
    line.push_bytes(b"\n")
}

/// Whether a loop of so many gates is told name by name.
fn ring_is_told<R: Threads + Wait + Sync>(
    rt: &R,
    alloc: Global,
    size: u32,
) -> Result<bool, Memory> {
    let mut netlist = Text::new(alloc);
    let mut line = Text::new(alloc);
    push_ring(alloc, &mut netlist, &mut line, size)?;
    let edges = Edges {
        line_room: 16_777_216,
        ..EASY
    };
    let texts: Texts<'_> = [netlist.as_bytes(), b"", b"", b""];
    let ended = end_of(rt, alloc, &["refer", FILES], &texts, &edges);
    Ok(has_told(ended, 7, line.as_bytes()))
}

/// A loop of all gates that a netlist may have is told name by name.
#[test]
fn ring_of_a_million_is_told(rt: HostRuntime) {
    assert!(rt; ring_is_told(&rt, rt.alloc(), 1_048_576) == Ok(true));
}
