//! Whole calls over files and sinks in memory, with statuses, lines and output from outside. A call is
//! made in one way by all of them, and most are rows of one kind of table: each function here is proved too.

ghost use Rattle.std.specs.Prelude.{length, ◌≤◌};
ghost use Rattle.limits.specs.declared.TheConstants.{MAX_WORKERS};
ghost use Rattle.yse_commands.specs.Visited.{AllCanTell};

mod at_limits;
mod below;
mod blocks;
mod calls;
mod coverage;
mod faults;
mod homes;
mod hostile;
mod images;
mod lanes;
mod machines;
mod mixed;
mod orders;
mod packs;
mod readings;
mod threads;
mod watch;
mod words;

use crew_run::Gate;
use edge_io::{MemFiles, MemSink, NamedBytes, NullSink, PlainFiles};
use machine_run::count_gates;
use seen_list::{List, Memory, Text};
use std::alloc::{AllocError, Global};
use std::marker::{Send, Sync};
use std::sync::Wait;
use std::thread::Threads;
use yse_top::yse;

const C17: &str =
    "INPUT(1)\nINPUT(2)\nINPUT(3)\nINPUT(6)\nINPUT(7)\nOUTPUT(22)\nOUTPUT(23)\n10 = NAND(1, 3)\n11 = NAND(3, 6)\n16 = NAND(2, 11)\n19 = NAND(11, 7)\n22 = NAND(10, 16)\n23 = NAND(16, 19)\n";

const S27: &str =
    "INPUT(G0)\nINPUT(G1)\nINPUT(G2)\nINPUT(G3)\nOUTPUT(G17)\nG5 = DFF(G10)\nG6 = DFF(G11)\nG7 = DFF(G13)\nG14 = NOT(G0)\nG17 = NOT(G11)\nG8 = AND(G14, G6)\nG15 = OR(G12, G8)\nG16 = OR(G3, G8)\nG9 = NAND(G16, G15)\nG10 = NOR(G14, G11)\nG11 = NOR(G5, G9)\nG12 = NOR(G1, G7)\nG13 = NOR(G2, G12)\n";

const LATCH: &str = "INPUT(s)\nINPUT(r)\nOUTPUT(q)\nOUTPUT(p)\nq = NAND(s, p)\np = NAND(r, q)\n";

const RAM: &str =
    "INPUT(we)\nINPUT(a0)\nINPUT(a1)\nINPUT(d)\nOUTPUT(q)\n[q] = RAM(we; a0, a1; d)\n";

/// A bus of two drivers.
const BUS: &str =
    "INPUT(e)\nINPUT(a)\nINPUT(f)\nINPUT(b)\nOUTPUT(y)\nt = TRI(e, a)\nu = TRI(f, b)\ny = BUS(t, u)\n";

const WIDE: &str =
    "INPUT(a1)\nINPUT(a2)\nINPUT(a3)\nINPUT(a4)\nINPUT(a5)\nINPUT(a6)\nINPUT(a7)\nINPUT(a8)\nINPUT(a9)\nINPUT(a10)\nINPUT(a11)\nINPUT(a12)\nINPUT(a13)\nINPUT(a14)\nINPUT(a15)\nINPUT(a16)\nINPUT(a17)\nOUTPUT(z)\nz = AND(a1, a2, a3, a4, a5, a6, a7, a8, a9, a10, a11, a12, a13, a14, a15, a16, a17)\n";

/// The gates of a call.
const GATES: usize = 64;

const FILES: &str = "net.bench net.stim";

/// Runs with so many workers and banks, with `|` between them.
const RUNS: &str =
    "run --workers 1 --banks 1|run --workers 1 --banks 2|run --workers 1 --banks 8|run --workers 2 --banks 1|run --workers 2 --banks 2|run --workers 2 --banks 8|run --workers 7 --banks 1|run --workers 7 --banks 2|run --workers 7 --banks 8|run --workers 64 --banks 1|run --workers 64 --banks 2|run --workers 64 --banks 8";

/// Adds a word; `''` is the empty word.
fn push_word(alloc: Global, words: &mut Vec<String>, word: &str) -> Result<(), AllocError> {
    let word = if word == "''" { "" } else { word };
    words.push(String::from_str(alloc, word)?)?;
    Ok(())
}

fn push_words(alloc: Global, words: &mut Vec<String>, line: &str) -> Result<(), AllocError> {
    for word in line.split(' ') {
        if !word.is_empty() {
            push_word(alloc, words, word)?;
        }
    }
    Ok(())
}

/// The words of these lines.
fn words_of(alloc: Global, lines: &[&str]) -> Result<Vec<String>, AllocError> {
    let mut words = Vec::new(alloc);
    for line in lines {
        push_words(alloc, &mut words, line)?;
    }
    Ok(words)
}

/// The bytes of the files `net.bench`, `net.stim`, `net.machine` and `net.more`.
type Texts<'a> = [&'a [u8]; 4];

/// Four texts, which may live differently long.
fn four<'a>(netlist: &'a [u8], stimulus: &'a [u8], machine: &'a [u8], more: &'a [u8]) -> Texts<'a> {
    [netlist, stimulus, machine, more]
}

/// A netlist and a stimulus.
fn texts_of<'a>(netlist: &'a str, stimulus: &'a str) -> Texts<'a> {
    [netlist.as_bytes(), stimulus.as_bytes(), b"", b""]
}

/// The most bytes that one read gives; the call of the store that fails (0: none); the room of the output and the
/// most bytes that one write takes of it; the room of the line; and the writes of the output and of the line that
/// fail.
#[derive(Clone, Copy)]
struct Edges {
    most_read: usize,
    failing_read: u64,
    room: usize,
    most_written: usize,
    line_room: usize,
    failing_write: u64,
    failing_line: u64,
}

/// Nothing fails.
const EASY: Edges = Edges {
    most_read: 131_072,
    failing_read: 0,
    room: 131_072,
    most_written: 4096,
    line_room: 4096,
    failing_write: 0,
    failing_line: 0,
};

fn named(alloc: Global, name: &str, bytes: List<u8>) -> Result<NamedBytes, Memory> {
    Ok(NamedBytes {
        name: Text::from_bytes(alloc, name.as_bytes())?,
        bytes,
    })
}

fn push_file(
    alloc: Global,
    files: &mut List<NamedBytes>,
    name: &str,
    bytes: &[u8],
) -> Result<(), Memory> {
    files.push(named(alloc, name, List::from_slice(alloc, bytes)?)?)
}

fn push_files(
    alloc: Global,
    files: &mut List<NamedBytes>,
    texts: &Texts<'_>,
) -> Result<(), Memory> {
    push_file(alloc, files, "net.bench", texts[0])?;
    push_file(alloc, files, "net.stim", texts[1])?;
    push_file(alloc, files, "net.machine", texts[2])?;
    push_file(alloc, files, "net.more", texts[3])
}

fn store(alloc: Global, texts: &Texts<'_>, edges: &Edges) -> Result<MemFiles, Memory> {
    let mut files = List::new(alloc);
    push_files(alloc, &mut files, texts)?;
    let fails = List::from_slice(alloc, &[edges.failing_read])?;
    Ok(MemFiles::with_most(files, fails, edges.most_read.max(1)))
}

fn sink(alloc: Global, room: usize, most: usize, failing: u64) -> Result<MemSink, Memory> {
    let fails = List::from_slice(alloc, &[failing])?;
    MemSink::new(alloc, room, most.max(1), fails)
}

/// What came of a call: the number of its status, and what its sinks took.
#[derive(Drop)]
struct Ended {
    status: u8,
    out: MemSink,
    err: MemSink,
}

/// What comes of a call with the words of these lines over these files, with gates that are handed in.
fn end_with<R: Threads + Wait + Sync, G: Gate + Send>(
    rt: &R,
    alloc: Global,
    lines: &[&str],
    texts: &Texts<'_>,
    edges: &Edges,
    gates: &mut [Option<G>],
) -> Result<Ended, Memory>
    requires gates { MAX_WORKERS ≤ length gates.old }
    requires tell { AllCanTell G.Gate.own gates.old }
{
    let words = words_of(alloc, lines)?;
    let mut files = store(alloc, texts, edges)?;
    let mut out = sink(alloc, edges.room, edges.most_written, edges.failing_write)?;
    let mut err = sink(alloc, edges.line_room, 4096, edges.failing_line)?;
    let status = yse(
        rt,
        alloc,
        words.as_slice(),
        &mut files,
        &mut out,
        &mut err,
        gates,
    );
    Ok(Ended {
        status: status.number(),
        out,
        err,
    })
}

/// The same with gates that only count.
fn end_of<R: Threads + Wait + Sync>(
    rt: &R,
    alloc: Global,
    lines: &[&str],
    texts: &Texts<'_>,
    edges: &Edges,
) -> Result<Ended, Memory> {
    let mut gates = count_gates(alloc, GATES)?;
    end_with(rt, alloc, lines, texts, edges, gates.as_mut_slice())
}

fn has_ended(ended: &Ended, status: u8, output: &[u8], line: &[u8]) -> bool {
    ended.status == status && ended.out.taken() == output && ended.err.taken() == line
}

/// Whether a call ended with this status, this output and this line.
fn is_end(ended: Result<Ended, Memory>, wanted: (u8, &[u8], &[u8])) -> bool {
    match ended {
        Ok(ended) => has_ended(&ended, wanted.0, wanted.1, wanted.2),
        Err(_) => false,
    }
}

/// Whether a call ended with this status and this line, whatever it printed.
fn has_told(ended: Result<Ended, Memory>, status: u8, line: &[u8]) -> bool {
    match ended {
        Ok(ended) => ended.status == status && ended.err.taken() == line,
        Err(_) => false,
    }
}

/// Whether a call ended with this status.
fn has_status(ended: Result<Ended, Memory>, status: u8) -> bool {
    match ended {
        Ok(ended) => ended.status == status,
        Err(_) => false,
    }
}

/// Whether a call ends so.
fn ends<R: Threads + Wait + Sync>(
    rt: &R,
    alloc: Global,
    lines: &[&str],
    texts: &Texts<'_>,
    edges: &Edges,
    wanted: (u8, &[u8], &[u8]),
) -> bool {
    is_end(end_of(rt, alloc, lines, texts, edges), wanted)
}

/// What each row of a case gives: one of the texts, words behind the others, the call of the store or the write of the
/// output that fails, or the most bytes that one read gives.
#[derive(Clone, Copy)]
enum Given {
    Netlist,
    Stimulus,
    Machine,
    More,
    Words,
    FailingRead,
    FailingWrite,
    MostRead,
}

/// Calls, with `|` between them, with the same words behind each, over the texts of a netlist, a stimulus, a machine
/// and what else a call reads. Then rows, with `|` between them: what is given in place of one of these, and behind
/// `=>` what each call comes to: its output, its line, or its output and behind one more `=>` its line.
#[derive(Clone, Copy)]
struct Case {
    calls: &'static str,
    words: &'static str,
    netlist: &'static str,
    stimulus: &'static str,
    machine: &'static str,
    more: &'static str,
    given: Given,
    rows: &'static str,
}

/// Names no call and has no row: over the files of a netlist and of a stimulus, each empty, where rows give the
/// stimulus.
const PLAIN: Case = Case {
    calls: "",
    words: FILES,
    netlist: "",
    stimulus: "",
    machine: "",
    more: "",
    given: Given::Stimulus,
    rows: "",
};

/// How the lines begin that are told, each with the number of its status. The first one that fits counts.
const LINES: &[(&str, u8)] = &[
    ("usage: ", 2),
    ("read fault: ", 3),
    ("write fault\n", 4),
    ("netlist: ", 5),
    ("machine: ", 6),
    ("loop: ", 7),
    ("overfull: ", 8),
    ("stimulus: ", 9),
    ("limit: ", 10),
    ("order: ended ", 11),
    ("order: line ", 12),
    ("last list: ", 13),
    ("image: line ", 14),
    ("image: ", 15),
    ("fault list: ", 16),
];

fn lines() -> &'static [(&'static str, u8)] {
    LINES
}

/// The number of the status with which a call ends that tells this line; 0 where it is none.
fn status_of(line: &str) -> u8 {
    for (begin, status) in lines() {
        if line.starts_with(begin) {
            return *status;
        }
    }
    0
}

/// What a row gives, and the output and the line that it wants. A row of another form wants what no call ends with.
fn parts_of(row: &'static str) -> (&'static str, &'static str, &'static str) {
    let (given, told) = row.split_once("=> ").unwrap_or((row, "a row"));
    match told.split_once("=> ") {
        Some((output, line)) => (given, output, line),
        None if status_of(told) == 0 => (given, told, ""),
        None => (given, "", told),
    }
}

/// The texts of a case with what a row gives.
fn texts_with(case: &Case, given: &'static str) -> Texts<'static> {
    let (netlist, stimulus) = (case.netlist.as_bytes(), case.stimulus.as_bytes());
    let (machine, more) = (case.machine.as_bytes(), case.more.as_bytes());
    match case.given {
        Given::Netlist => [given.as_bytes(), stimulus, machine, more],
        Given::Stimulus => [netlist, given.as_bytes(), machine, more],
        Given::Machine => [netlist, stimulus, given.as_bytes(), more],
        Given::More => [netlist, stimulus, machine, given.as_bytes()],
        _ => [netlist, stimulus, machine, more],
    }
}

fn edges_with(case: &Case, given: &'static str) -> Edges {
    let number = given.parse::<u32>().unwrap_or(0);
    match case.given {
        Given::FailingRead => Edges {
            failing_read: u64::from(number),
            ..EASY
        },
        Given::FailingWrite => Edges {
            failing_write: u64::from(number),
            ..EASY
        },
        Given::MostRead => Edges {
            most_read: number as usize,
            ..EASY
        },
        _ => EASY,
    }
}

fn words_with(case: &Case, given: &'static str) -> &'static str {
    match case.given {
        Given::Words => given,
        _ => "",
    }
}

/// Whether a call of a case ends as a row says.
fn is_row<R: Threads + Wait + Sync>(
    rt: &R,
    alloc: Global,
    call: &'static str,
    case: &Case,
    row: &'static str,
) -> bool {
    let (given, output, line) = parts_of(row);
    let words = [call, case.words, words_with(case, given)];
    let (texts, edges) = (texts_with(case, given), edges_with(case, given));
    let wanted = (status_of(line), output.as_bytes(), line.as_bytes());
    ends(rt, alloc, &words, &texts, &edges, wanted)
}

/// Whether a call ends so with each row of a case.
fn are_rows<R: Threads + Wait + Sync>(
    rt: &R,
    alloc: Global,
    call: &'static str,
    case: &Case,
) -> bool {
    for row in case.rows.split('|') {
        if !is_row(rt, alloc, call, case, row) {
            return false;
        }
    }
    true
}

/// Whether all calls of these cases do.
fn all_end<R: Threads + Wait + Sync>(rt: &R, alloc: Global, cases: &'static [Case]) -> bool {
    for case in cases {
        for call in case.calls.split('|') {
            if !are_rows(rt, alloc, call, case) {
                return false;
            }
        }
    }
    true
}

/// Whether these calls, each with the same words behind it, print this and end with status 0.
fn all_print<R: Threads + Wait + Sync>(
    rt: &R,
    alloc: Global,
    calls: &'static str,
    words: &'static str,
    texts: &Texts<'_>,
    output: &[u8],
) -> bool {
    for call in calls.split('|') {
        if !ends(rt, alloc, &[call, words], texts, &EASY, (0, output, b"")) {
            return false;
        }
    }
    true
}

/// Whether these calls, each with the same words behind it, print what the reference simulation does by this call.
fn all_print_reference<R: Threads + Wait + Sync>(
    rt: &R,
    alloc: Global,
    reference: &str,
    calls: &'static str,
    words: &'static str,
    texts: &Texts<'_>,
) -> Result<bool, Memory> {
    let reference = end_of(rt, alloc, &[reference], texts, &EASY)?;
    let printed = all_print(rt, alloc, calls, words, texts, reference.out.taken());
    Ok(reference.status == 0 && printed)
}

/// Whether a call with the words of a line ends with status 0 over a store in which each name is there, of which the
/// netlist has this text, and with sinks that take all. None of them can fail.
fn is_plainly_done<R: Threads + Wait + Sync>(
    rt: &R,
    alloc: Global,
    line: &str,
    netlist: &str,
) -> Result<bool, Memory> {
    let words = words_of(alloc, &[line])?;
    let mut gates = count_gates(alloc, GATES)?;
    let mut list = List::new(alloc);
    push_file(alloc, &mut list, "net.bench", netlist.as_bytes())?;
    let mut files = PlainFiles::new(list);
    let (mut out, mut err) = (NullSink::new(), NullSink::new());
    let status = yse(
        rt,
        alloc,
        words.as_slice(),
        &mut files,
        &mut out,
        &mut err,
        gates.as_mut_slice(),
    );
    Ok(status.number() == 0)
}

/// The stimulus, which isn't in the list, is an empty file.
#[test]
fn plain_files_and_sinks_serve(rt: HostRuntime) {
    assert!(rt; is_plainly_done(&rt, rt.alloc(), "run net.bench net.stim", C17) == Ok(true));
}
