//! Images that `compile` writes, and what `exec` makes of them and of others.

use super::{
    C17, Case, EASY, Edges, Ended, Given, LATCH, PLAIN, RAM, S27, Texts, WIDE, all_end, all_print,
    end_of, ends, four, parts_of, status_of,
};
use seen_list::{Memory, Text};
use std::alloc::Global;
use std::marker::Sync;
use std::sync::Wait;
use std::thread::Threads;

/// A buffer, its stimulus, and its trace.
const NETLIST: &str = "INPUT(a)\nOUTPUT(z)\nz = BUFF(a)\n";

const ROWS: &str = "0\n1\n";

/// The image of the buffer.
const IMAGE: &str = "\
yse-image 1\n\
slots 2 units 1 init x columns 1 ports 2\n\
port logic\n\
table a4a4a4a4a4a4a4a4 a4a4a4a4a4a4a4a4 a4a4a4a4a4a4a4a4 a4a4a4a4a4a4a4a4 a4a4a4a4a4a4a4a4 a4a4a4a4a4a4a4a4 a4a4a4a4a4a4a4a4 a4a4a4a4a4a4a4a4\n\
eval 1 0 g0 c0 c0 c0 1\n\
send 1 1\n\
take 0 1\n\
port host\n\
in 0 0 0\n\
print g1\n\
send 0 0\n\
take 1 0\n\
end\n";

/// Two gates of one port, and an image of theirs whose first gate uses the second table.
const PAIR: &str = "INPUT(a)\nINPUT(b)\nOUTPUT(y)\nOUTPUT(z)\ny = AND(a, b)\nz = OR(a, b)\n";

const TURNED: &str = "\
yse-image 1\n\
slots 4 units 1 init x columns 2 ports 2\n\
port logic\n\
table a6a655a4a6a655a4 a6a655a4a6a655a4 a6a655a4a6a655a4 a6a655a4a6a655a4 a6a655a4a6a655a4 a6a655a4a6a655a4 a6a655a4a6a655a4 a6a655a4a6a655a4\n\
table a8a8a400a8a8a400 a8a8a400a8a8a400 a8a8a400a8a8a400 a8a8a400a8a8a400 a8a8a400a8a8a400 a8a8a400a8a8a400 a8a8a400a8a8a400 a8a8a400a8a8a400\n\
eval 2 1 g0 g1 c0 c0 2\n\
eval 3 0 g0 g1 c0 c0 3\n\
send 2 1\n\
send 3 1\n\
take 0 1\n\
take 1 1\n\
port host\n\
in 0 0 0\n\
in 1 1 1\n\
print g2\n\
print g3\n\
send 0 0\n\
send 1 0\n\
take 2 0\n\
take 3 0\n\
end\n";

/// Cases over the image of the buffer.
const EXECUTED: Case = Case {
    calls: "exec",
    words: "net.bench net.more net.stim",
    netlist: NETLIST,
    stimulus: ROWS,
    more: IMAGE,
    given: Given::Words,
    ..PLAIN
};

const CASES: &[Case] = &[
    Case {
        rows: "\
=> cycle z\n1 0\n2 1\n\
|--init 0=> image: timing differs\n",
        ..EXECUTED
    },
    // A file that is missing is told.
    Case {
        calls: "exec net.bench net.more other|exec net.bench other net.stim",
        words: "",
        rows: "=> read fault: other\n",
        ..EXECUTED
    },
    // An image from elsewhere is taken, whichever numbers its tables have, and prints what `refer` does.
    Case {
        calls: "exec net.bench net.more net.stim|refer net.bench net.stim",
        words: "",
        netlist: PAIR,
        stimulus: "00\n01\n10\n11\nx1\n",
        more: TURNED,
        rows: "=> cycle y z\n1 00\n2 01\n3 01\n4 11\n5 x1\n",
        ..EXECUTED
    },
    // An image is one piece: nothing is written where the first write fails.
    Case {
        calls: "compile",
        words: "net.bench --machine net.machine",
        machine: "logic 1\narray 0\n",
        given: Given::FailingWrite,
        rows: "1=> write fault\n",
        ..EXECUTED
    },
];

/// Lines of the image of the buffer, with `|` between them, what stands there in their place, and the line that
/// `exec` tells. The gate reads the input of the last turn, or has another constant where it has no operand. The
/// input is not received, or printed in place of the gate. There is no last line. A number begins with a 0, or is too
/// large, where there is no last line either.
const EDITS: &str = "\
eval 1 0 g0 c0=> eval 1 0 G0 c0=> image: port 0 slot 1 does not match\n\
|eval 1 0 g0 c0=> eval 1 0 g0 c1=> image: port 0 slot 1 does not match\n\
|eval 1 0 g0 c0=> eval 1 0 g0 cx=> image: port 0 slot 1 does not match\n\
|eval 1 0 g0 c0=> eval 1 0 g0 cz=> image: port 0 slot 1 does not match\n\
|take 0 1\n=> => image: not well formed\n\
|print g1\n=> print o0\n=> image: column 0 does not match\n\
|end\n=> => image: line 13: syntax\n\
|c0 1\n=> c0 01\n=> image: line 5: syntax\n\
|g0 c0 c0 c0 1\nsend 1 1\ntake 0 1\nport host\nin 0 0 0\nprint g1\nsend 0 0\ntake 1 0\nend\n=> g4294967296 c0 c0 c0 1\nsend 1 1\ntake 0 1\nport host\nin 0 0 0\nprint g1\nsend 0 0\ntake 1 0\n=> image: line 5: out of range\n";

fn edits() -> &'static str {
    EDITS
}

/// A text of these parts.
fn joined(alloc: Global, parts: &[&[u8]]) -> Result<Text, Memory> {
    let mut text = Text::new(alloc);
    for part in parts {
        text.push_bytes(part)?;
    }
    Ok(text)
}

/// Whether a call over the image of the buffer, changed as a row says, tells the row's line.
fn tells_edited<R: Threads + Wait + Sync>(
    rt: &R,
    alloc: Global,
    call: &str,
    row: &'static str,
) -> Result<bool, Memory> {
    let (old, new, line) = parts_of(row);
    let (front, rest) = IMAGE.split_once(old).unwrap_or((IMAGE, ""));
    let parts = [front.as_bytes(), new.as_bytes(), rest.as_bytes()];
    let image = joined(alloc, &parts)?;
    let texts = four(NETLIST.as_bytes(), ROWS.as_bytes(), b"", image.as_bytes());
    let wanted: (u8, &[u8], &[u8]) = (status_of(line), b"", line.as_bytes());
    Ok(ends(rt, alloc, &[call], &texts, &EASY, wanted))
}

#[test]
fn images_of_a_buffer_end_as_stated(rt: HostRuntime) {
    assert!(rt; all_end(&rt, rt.alloc(), CASES));
    for row in edits().split('|') {
        let call = "exec net.bench net.more net.stim";
        assert!(rt; tells_edited(&rt, rt.alloc(), call, row) == Ok(true));
    }
}

/// An image that is not well formed is told before the stimulus is read.
#[test]
fn images_are_checked_before_the_stimulus(rt: HostRuntime) {
    let (call, row) = (
        "exec net.bench net.more other",
        "take 0 1\n=> => image: not well formed\n",
    );
    assert!(rt; tells_edited(&rt, rt.alloc(), call, row) == Ok(true));
}

/// The image is written word for word, and is one piece: there is no second write that could fail.
#[test]
fn image_of_a_buffer(rt: HostRuntime) {
    let call = "compile net.bench --machine net.machine";
    let texts = four(NETLIST.as_bytes(), b"", b"logic 1\narray 0\n", b"");
    let edges = Edges {
        failing_write: 2,
        ..EASY
    };
    let wanted: (u8, &[u8], &[u8]) = (0, IMAGE.as_bytes(), b"");
    assert!(rt; ends(&rt, rt.alloc(), &[call], &texts, &edges, wanted));
}

/// A design: its texts, the call that compiles it, the options of its timing, and the trace of its execution. The
/// machine is `net.more` where it is compiled, where its image is when it is executed, and the list of its gates is
/// `net.machine`.
#[derive(Clone, Copy)]
struct Design {
    netlist: &'static str,
    machine: &'static str,
    list: &'static str,
    stimulus: &'static str,
    compile: &'static str,
    options: &'static str,
    trace: &'static str,
}

const BUFFER: Design = Design {
    netlist: NETLIST,
    machine: "logic 1\narray 0\n",
    list: "",
    stimulus: ROWS,
    compile: "compile net.bench --machine net.more",
    options: "",
    trace: "cycle z\n1 0\n2 1\n",
};

const GATES_ALONE: Design = Design {
    netlist: C17,
    machine: "logic 2\n",
    stimulus: "11111\n00000\nxxxxx\n",
    trace: "cycle 22 23\n1 10\n2 00\n3 xx\n",
    ..BUFFER
};

const REGISTERS: Design = Design {
    netlist: S27,
    machine: "logic 2\n",
    stimulus: "0000\n0001\n0000\n1000\n0001\n",
    options: "--init 0",
    trace: "cycle G17\n1 1\n2 0\n3 0\n4 1\n5 1\n",
    ..BUFFER
};

const TOGGLE: Design = Design {
    netlist: "OUTPUT(q)\nn = NOT(q)\nq = DFF(n)\n",
    stimulus: "- * 4\n",
    trace: "cycle q\n1 0\n2 1\n3 0\n4 1\n",
    ..REGISTERS
};

const MEMORY: Design = Design {
    netlist: RAM,
    machine: "",
    stimulus: "1101\n0100\n0100\n1100\n0100\n0100\n",
    trace: "cycle q\n1 x\n2 x\n3 1\n4 1\n5 1\n6 0\n",
    ..BUFFER
};

const WIDE_GATE: Design = Design {
    netlist: WIDE,
    machine: "",
    stimulus: "11111111111111111\n11111111111111110\n",
    options: "--mode unit --units 2",
    trace: "cycle z\n1 1\n2 0\n",
    ..BUFFER
};

const LOOP: Design = Design {
    netlist: LATCH,
    machine: "",
    stimulus: "01\n11\n10\n",
    options: "--mode unit --units 4",
    trace: "cycle q p\n1 10\n2 10\n3 01\n",
    ..BUFFER
};

const LISTED: Design = Design {
    machine: "version 2\nlogic 2\nnodes 0 1\n",
    list: "q\n",
    options: "--mode mixed --last net.machine --units 2",
    ..LOOP
};

const BETTER: Design = Design {
    machine: "version 2\nlogic 2\nnodes 1 3\n",
    compile: "compile net.bench --machine net.more --homes better",
    ..GATES_ALONE
};

/// The texts of a call over a design, whose file `net.more` has these bytes.
fn texts_over<'a>(design: &Design, more: &'a [u8]) -> Texts<'a> {
    let (netlist, stimulus) = (design.netlist.as_bytes(), design.stimulus.as_bytes());
    four(netlist, stimulus, design.list.as_bytes(), more)
}

/// The call that compiles a design.
fn compile_of<R: Threads + Wait + Sync>(
    rt: &R,
    alloc: Global,
    design: &Design,
) -> Result<Ended, Memory> {
    let texts = texts_over(design, design.machine.as_bytes());
    end_of(rt, alloc, &[design.compile, design.options], &texts, &EASY)
}

/// Executions with so many workers and banks.
const EXECS: &str =
    "exec net.bench net.more net.stim --workers 1 --banks 1|exec net.bench net.more net.stim --workers 1 --banks 2|exec net.bench net.more net.stim --workers 1 --banks 8|exec net.bench net.more net.stim --workers 2 --banks 1|exec net.bench net.more net.stim --workers 2 --banks 2|exec net.bench net.more net.stim --workers 2 --banks 8|exec net.bench net.more net.stim --workers 7 --banks 1|exec net.bench net.more net.stim --workers 7 --banks 2|exec net.bench net.more net.stim --workers 7 --banks 8|exec net.bench net.more net.stim --workers 64 --banks 1|exec net.bench net.more net.stim --workers 64 --banks 2|exec net.bench net.more net.stim --workers 64 --banks 8";

/// Whether what is compiled of a design is run by any number of workers, and with any number of banks.
fn is_run_by_all<R: Threads + Wait + Sync>(
    rt: &R,
    alloc: Global,
    design: &Design,
) -> Result<bool, Memory> {
    let compiled = compile_of(rt, alloc, design)?;
    let texts = texts_over(design, compiled.out.taken());
    let trace = design.trace.as_bytes();
    Ok(all_print(rt, alloc, EXECS, design.options, &texts, trace))
}

const DESIGNS: &[Design] = &[
    BUFFER,
    GATES_ALONE,
    REGISTERS,
    MEMORY,
    WIDE_GATE,
    LOOP,
    LISTED,
    BETTER,
];

fn designs() -> &'static [Design] {
    DESIGNS
}

#[test]
fn images_print_the_trace(rt: HostRuntime) {
    for design in designs() {
        assert!(rt; is_run_by_all(&rt, rt.alloc(), design) == Ok(true));
    }
}

/// Whether an image of these parts, whatever they are, makes a call print the design's trace, or nothing and end with
/// 14 or 15.
fn is_harmless<R: Threads + Wait + Sync>(
    rt: &R,
    alloc: Global,
    design: &Design,
    parts: &[&[u8]],
) -> Result<bool, Memory> {
    let image = joined(alloc, parts)?;
    let lines = [
        "exec net.bench net.more net.stim --workers 1",
        design.options,
    ];
    let texts = texts_over(design, image.as_bytes());
    let ended = end_of(rt, alloc, &lines, &texts, &EASY)?;
    Ok(match ended.status {
        0 => ended.out.taken() == design.trace.as_bytes(),
        14 | 15 => ended.out.taken().is_empty(),
        _ => false,
    })
}

fn value_of(digits: &[u8]) -> u64 {
    let mut value = 0u64;
    for digit in digits {
        let units = u64::from(digit.wrapping_sub(b'0'));
        value = value.saturating_mul(10).saturating_add(units);
    }
    value
}

/// A text, cut at two places.
fn cut(text: &[u8], places: (usize, usize)) -> (&[u8], &[u8], &[u8]) {
    let (front, rest) = text.split_at_checked(places.1).unwrap_or((text, b""));
    let (front, middle) = front.split_at_checked(places.0).unwrap_or((front, b""));
    (front, middle, rest)
}

/// Whether an image is harmless with its line at these places deleted, doubled, or swapped with the one before it,
/// which begins at `before`.
fn is_harmless_at_line<R: Threads + Wait + Sync>(
    rt: &R,
    alloc: Global,
    design: &Design,
    image: &[u8],
    before: usize,
    places: (usize, usize),
) -> bool {
    let (front, line, rest) = cut(image, places);
    let (head, last, _) = cut(front, (before, places.0));
    is_harmless(rt, alloc, design, &[front, rest]) == Ok(true)
        && is_harmless(rt, alloc, design, &[front, line, line, rest]) == Ok(true)
        && is_harmless(rt, alloc, design, &[head, line, last, rest]) == Ok(true)
}

/// Whether it is, however any of its lines is changed.
fn is_harmless_by_line<R: Threads + Wait + Sync>(
    rt: &R,
    alloc: Global,
    design: &Design,
    image: &[u8],
) -> bool {
    let (mut before, mut from) = (0usize, 0usize);
    for (place, byte) in image.iter().enumerate() {
        if *byte == b'\n' {
            let end = place.saturating_add(1);
            if !is_harmless_at_line(rt, alloc, design, image, before, (from, end)) {
                return false;
            }
            (before, from) = (from, end);
        }
    }
    true
}

/// Whether an image is harmless with this number between these parts.
fn is_harmless_with<R: Threads + Wait + Sync>(
    rt: &R,
    alloc: Global,
    design: &Design,
    front: &[u8],
    value: u64,
    rest: &[u8],
) -> Result<bool, Memory> {
    let digits = format!(in alloc; "{value}")?;
    is_harmless(rt, alloc, design, &[front, digits.as_bytes(), rest])
}

/// Whether an image is harmless with its number at these places one more, or one less.
fn is_harmless_at_number<R: Threads + Wait + Sync>(
    rt: &R,
    alloc: Global,
    design: &Design,
    image: &[u8],
    places: (usize, usize),
) -> bool {
    let (front, digits, rest) = cut(image, places);
    let value = value_of(digits);
    is_harmless_with(rt, alloc, design, front, value.saturating_add(1), rest) == Ok(true)
        && is_harmless_with(rt, alloc, design, front, value.saturating_sub(1), rest) == Ok(true)
}

/// Whether it is, however any of its numbers is changed.
fn is_harmless_by_number<R: Threads + Wait + Sync>(
    rt: &R,
    alloc: Global,
    design: &Design,
    image: &[u8],
) -> bool {
    let mut begin = None;
    for (place, byte) in image.iter().enumerate() {
        match (begin, byte.is_ascii_digit()) {
            (None, true) => begin = Some(place),
            (Some(from), false) => {
                if !is_harmless_at_number(rt, alloc, design, image, (from, place)) {
                    return false;
                }
                begin = None;
            }
            _ => {}
        }
    }
    true
}

/// What an image is changed at.
#[derive(Clone, Copy)]
enum Change {
    Lines,
    Numbers,
}

/// Whether what is compiled of a design is harmless however it is changed so.
fn withstands<R: Threads + Wait + Sync>(
    rt: &R,
    alloc: Global,
    design: &Design,
    change: Change,
) -> Result<bool, Memory> {
    let compiled = compile_of(rt, alloc, design)?;
    let image = compiled.out.taken();
    let harmless = match change {
        Change::Lines => is_harmless_by_line(rt, alloc, design, image),
        Change::Numbers => is_harmless_by_number(rt, alloc, design, image),
    };
    Ok(compiled.status == 0 && harmless)
}

const CHANGES: &[(Design, Change)] = &[
    (GATES_ALONE, Change::Lines),
    (REGISTERS, Change::Lines),
    (MEMORY, Change::Lines),
    (GATES_ALONE, Change::Numbers),
    (TOGGLE, Change::Numbers),
    (MEMORY, Change::Numbers),
];

fn changes() -> &'static [(Design, Change)] {
    CHANGES
}

/// No line that is deleted, doubled or swapped with the next one makes `exec` print anything but the trace, and no
/// number that is moved by one.
#[test]
fn changed_images_print_no_other_trace(rt: HostRuntime) {
    for (design, change) in changes() {
        assert!(rt; withstands(&rt, rt.alloc(), design, *change) == Ok(true));
    }
}
