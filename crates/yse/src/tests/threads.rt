//! Runs on threads: so many workers and banks, workers that meet, a worker that waits for the crossbar, and the
//! turns that are made before a row is written.

ghost use Rattle.crew_run.specs.Crews.{CanTell};
ghost use Rattle.std.specs.Prelude.{IfOk, Option, Some, length, slice_get, ℕ, ◌≡◌};

use super::watch::{Shared, Watch, WatchGate, watch_gate};
use super::{
    C17, Case, EASY, Edges, FILES, GATES, Given, PLAIN, RUNS, S27, Texts, all_end, end_of,
    end_with, four, is_end, texts_of,
};
use crew_run::Gate;
use seen_list::{List, Memory};
use std::alloc::Global;
use std::marker::Sync;
use std::sync::Wait;
use std::sync::atomic::Ordering;
use std::test::Fail;
use std::thread::Threads;

const S27_ROWS: &str = "0000\n0001\n0000\n1000\n0001\n";

/// The same bytes at each run and with so many workers and banks: the trace of s27, also with better homes, and what
/// generated designs come to.
const CASES: &[Case] = &[
    Case {
        calls: RUNS,
        netlist: S27,
        stimulus: S27_ROWS,
        given: Given::Words,
        rows: "\
--init 0=> cycle G17\n1 1\n2 0\n3 0\n4 1\n5 1\n\
|--init 0 --homes better=> cycle G17\n1 1\n2 0\n3 0\n4 1\n5 1\n",
        ..PLAIN
    },
    Case {
        calls: "large --workers 1|large --workers 4|large --workers 64",
        words: "2000 20",
        rows: "=> gates 2000 nodes 2000 slots 292 crossings 3775\nzeros 87 ones 73 xs 0 zs 0\n",
        ..PLAIN
    },
    Case {
        calls: "large --workers 1|large --workers 1",
        words: "20000 200",
        rows: "=> gates 20000 nodes 20000 slots 2464 crossings 36674\nzeros 1231 ones 369 xs 0 zs 0\n",
        ..PLAIN
    },
];

#[test]
fn workers_print_the_same(rt: HostRuntime) {
    assert!(rt; all_end(&rt, rt.alloc(), CASES));
}

/// The gates of a call: the first worker's, and those of the others.
fn watch_gates<'a>(
    alloc: Global,
    watch: Watch,
    shared: &'a Shared,
) -> Result<List<Option<WatchGate<'a>>>, Memory>
    ensures count { IfOk result (λ gates. length gates ≡ 64) }
    ensures tell { IfOk result (λ gates. (i : ℕ) (gate : Option WatchGate) → slice_get gates i ≡ Some gate → CanTell ⟦<WatchGate<'a> as Gate>⟧ gate) }
{
    let mut gates = List::new(alloc);
    'gates: for w in 0..GATES {
        gates.push(Some(watch_gate(watch, w == 0, shared)))?;
    }
    Ok(gates)
}

/// Whether the gate held its worker, and found something.
fn held(gate: Option<&Option<WatchGate<'_>>>) -> (bool, bool) {
    match gate {
        Some(Some(gate)) => (gate.held, gate.found),
        _ => (false, false),
    }
}

/// How many gates held their workers.
fn held_in_all(gates: &[Option<WatchGate<'_>>]) -> usize {
    let mut count = 0usize;
    for gate in gates {
        if held(Some(gate)).0 {
            count = count.saturating_add(1);
        }
    }
    count
}

/// Whether a call prints what it should, whether the gates of the first two workers held them, and found something, and
/// how many gates held their workers.
type Finding = (bool, (bool, bool), (bool, bool), usize);

/// Both workers are held, and each finds the other.
const MEET: Finding = (true, (true, true), (true, true), 2);

/// The first worker alone is held, and finds the second.
const FOUND: Finding = (true, (true, true), (false, false), 1);

/// It finds nothing.
const MISSED: Finding = (true, (true, false), (false, false), 1);

/// What is watched, a netlist, its stimulus or lanes, and its machine, the words behind a call, calls and what their
/// gates find, and the trace. The file `net.more` has the image of the netlist for its machine.
#[derive(Clone, Copy)]
struct Watching {
    watch: Watch,
    texts: [&'static str; 3],
    words: &'static str,
    calls: &'static [(&'static str, Finding)],
    trace: &'static str,
}

/// A machine of two logic processors and no array processor, where the second of two workers has the second of
/// them alone.
const TWO_LOGIC: &str = "logic 2\narray 0\n";

/// While the host is held at its third turn, the port that takes values from it does not get past that turn.
const HOLD: Watching = Watching {
    watch: Watch::Hold,
    texts: [C17, "11111 * 10\n", TWO_LOGIC],
    words: "net.bench net.stim --machine net.machine --workers 2",
    calls: &[("run", MISSED)],
    trace: "cycle 22 23\n1 10\n2 10\n3 10\n4 10\n5 10\n6 10\n7 10\n8 10\n9 10\n10 10\n",
};

/// The host, which takes no value of a buffer whose input alone is printed, is told of its third turn while the
/// worker of the only logic processor is held before its first, with two banks and with eight, and not with one,
/// which is the number where none is given.
const AHEAD: Watching = Watching {
    watch: Watch::Ahead,
    texts: [
        "INPUT(a)\nOUTPUT(a)\nz = BUFF(a)\n",
        "1 * 10\n",
        "logic 1\narray 0\n",
    ],
    words: "net.bench net.stim --machine net.machine --workers 2",
    calls: &[
        ("run --banks 8", FOUND),
        ("run --banks 1", MISSED),
        ("run --banks 2", FOUND),
        ("run", MISSED),
    ],
    trace: "cycle a\n1 1\n2 1\n3 1\n4 1\n5 1\n6 1\n7 1\n8 1\n9 1\n10 1\n",
};

const WATCHED: &[Watching] = &[
    // Each of two workers is held at its first call until the other was called too: the two run beside one another.
    // Where no workers are given, four are told of turns.
    Watching {
        watch: Watch::Pair,
        texts: [S27, S27_ROWS, ""],
        words: "net.bench net.stim --init 0",
        calls: &[
            ("run --workers 2", MEET),
            ("run", (true, (true, true), (true, true), 4)),
        ],
        trace: "cycle G17\n1 1\n2 0\n3 0\n4 1\n5 1\n",
    },
    Watching {
        watch: Watch::Pair,
        texts: [S27, "lane\n0000\n0001\n0000\n1000\n0001\n", ""],
        words: "net.bench net.stim --init 0",
        calls: &[("pack --workers 2", MEET)],
        trace: "lane 1\ncycle G17\n1 1\n2 0\n3 0\n4 1\n5 1\n",
    },
    HOLD,
    Watching {
        texts: [C17, "lane\n11111 * 10\n", TWO_LOGIC],
        calls: &[("pack", MISSED)],
        trace: "lane 1\ncycle 22 23\n1 10\n2 10\n3 10\n4 10\n5 10\n6 10\n7 10\n8 10\n9 10\n10 10\n",
        ..HOLD
    },
    AHEAD,
    // Workers that run an image from a file wait as those that run what was compiled.
    Watching {
        words: "net.bench net.more net.stim --workers 2",
        calls: &[("exec", MISSED)],
        ..HOLD
    },
    Watching {
        words: "net.bench net.more net.stim --workers 2",
        calls: &[("exec --banks 8", FOUND), ("exec", MISSED)],
        ..AHEAD
    },
];

fn all_watched() -> &'static [Watching] {
    WATCHED
}

/// What the gates of a call find over these texts.
fn found<R: Threads + Wait + Sync>(
    rt: &R,
    alloc: Global,
    row: &Watching,
    call: &'static str,
    texts: &Texts<'_>,
) -> Result<Finding, Memory> {
    let shared = Shared::new();
    let mut gates = watch_gates(alloc, row.watch, &shared)?;
    let ended = end_with(
        rt,
        alloc,
        &[call, row.words],
        texts,
        &EASY,
        gates.as_mut_slice(),
    );
    let one = held(gates.as_slice().first());
    let two = held(gates.as_slice().get(1));
    let all = held_in_all(gates.as_slice());
    Ok((is_end(ended, (0, row.trace.as_bytes(), b"")), one, two, all))
}

/// Whether the gates of all calls of a row find what it says.
fn are_found<R: Threads + Wait + Sync>(
    rt: &R,
    alloc: Global,
    row: &Watching,
) -> Result<bool, Memory> {
    let compile = ["compile net.bench --machine net.machine"];
    let [netlist, stimulus, machine] = row.texts;
    let (netlist, stimulus, machine) = (
        netlist.as_bytes(),
        stimulus.as_bytes(),
        machine.as_bytes(),
    );
    let compiled = end_of(
        rt,
        alloc,
        &compile,
        &four(netlist, b"", machine, b""),
        &EASY,
    )?;
    let texts = four(netlist, stimulus, machine, compiled.out.taken());
    let mut all = true;
    for (call, finding) in row.calls {
        all = all && found(rt, alloc, row, call, &texts) == Ok(*finding);
    }
    Ok(all)
}

#[test]
fn workers_wait_for_one_another(rt: HostRuntime) {
    for row in all_watched() {
        assert!(rt; are_found(&rt, rt.alloc(), row) == Ok(true));
    }
}

/// How many turns the gates are told of in a run of three blocks, where this write fails (0: none).
fn turns_told<R: Threads + Wait + Sync>(
    rt: &R,
    alloc: Global,
    failing_write: u64,
) -> Result<u64, Memory> {
    let edges = Edges {
        failing_write,
        ..EASY
    };
    let texts = texts_of(C17, "11111 * 8193\n");
    let shared = Shared::new();
    let mut gates = watch_gates(alloc, Watch::Nothing, &shared)?;
    let ended = end_with(
        rt,
        alloc,
        &["run", FILES],
        &texts,
        &edges,
        gates.as_mut_slice(),
    );
    match ended {
        Ok(_) => Ok(shared.told.load(Ordering::SeqCst)),
        Err(no) => Err(no),
    }
}

/// A run whose header is not written makes no turn, and one whose first row is not written makes those of one block,
/// and not those of the last one. Ports of 8,193 cycles are in three blocks.
#[test]
fn rows_come_before_the_last_block(rt: HostRuntime) -> Result<(), Fail> {
    let last = turns_told(&rt, rt.alloc(), 0)?;
    assert!(rt; last > 0);
    assert!(rt; turns_told(&rt, rt.alloc(), 1) == Ok(0));
    assert!(rt; turns_told(&rt, rt.alloc(), 2) == Ok(last / 8193 * 4096));
    Ok(())
}
