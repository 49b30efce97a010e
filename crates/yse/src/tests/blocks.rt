//! Runs in blocks of cycles.

use super::at_limits::push_inputs;
use super::{C17, EASY, Edges, FILES, all_print_reference, end_of, ends, four, texts_of};
use seen_list::{Memory, Text};
use std::alloc::Global;
use std::marker::Sync;
use std::sync::Wait;
use std::thread::Threads;

/// Rows of 4,095 to 4,097 cycles, of 8,192 and 8,193, and of 10,000. A block has 4,096.
const ROWS: &[&str] = &[
    "0x1z0 * 4000\n11111 * 95\n",
    "0x1z0 * 4000\n11111 * 95\n10101\n",
    "0x1z0 * 4000\n11111 * 96\n10101\n",
    "0x1z0 * 4000\n11111 * 97\n10101 * 4095\n",
    "0x1z0 * 4000\n11111 * 97\n10101 * 4095\n00110\n",
    "10101 * 3000\n0x1z0 * 2000\n11111\n00110 * 4999\n",
];

fn all_rows() -> &'static [&'static str] {
    ROWS
}

const REFER: &str = "refer net.bench net.stim";

/// Runs with 1, 2 and 7 workers and so many banks, with `|` between them.
const FEW_RUNS: &str =
    "run --workers 1 --banks 1|run --workers 1 --banks 2|run --workers 1 --banks 8|run --workers 2 --banks 1|run --workers 2 --banks 2|run --workers 2 --banks 8|run --workers 7 --banks 1|run --workers 7 --banks 2|run --workers 7 --banks 8";

#[test]
fn blocks_print_the_reference(rt: HostRuntime) {
    for rows in all_rows() {
        let texts = texts_of(C17, rows);
        let agree = all_print_reference(&rt, rt.alloc(), REFER, FEW_RUNS, FILES, &texts);
        assert!(rt; agree == Ok(true));
    }
}

/// Whether the run of more than a block, with a sink that fails at the first row of the second one, writes this.
fn is_cut_off<R: Threads + Wait + Sync>(rt: &R, alloc: Global, output: &[u8]) -> bool {
    let texts = texts_of(C17, "11111 * 5000\n");
    let edges = Edges {
        failing_write: 4098,
        ..EASY
    };
    ends(
        rt,
        alloc,
        &["run", FILES],
        &texts,
        &edges,
        (4, output, b"write fault\n"),
    )
}

/// Whether it writes what the run of one block does.
fn has_one_block<R: Threads + Wait + Sync>(rt: &R, alloc: Global) -> Result<bool, Memory> {
    let texts = texts_of(C17, "11111 * 4096\n");
    let whole = end_of(rt, alloc, &["run", FILES], &texts, &EASY)?;
    Ok(whole.status == 0 && is_cut_off(rt, alloc, whole.out.taken()))
}

/// A sink that fails at the first row of the second block has the header and the rows of the first one.
#[test]
fn fault_in_the_second_block(rt: HostRuntime) {
    assert!(rt; has_one_block(&rt, rt.alloc()) == Ok(true));
}

/// 1,000,000 cycles of zeros.
const ZEROS: &str =
    "0000000000000000000000000000000000000000000000000000000000000000000000000000000000000000000000000000000000000000000000000000000000000000000000000000000000000000000000000000000000000000000000000000000000000000000000000000000000000000000000000000000000000000000000000000 * 1000000\n";

/// 268 inputs, of which the first is printed.
fn many(alloc: Global) -> Result<Text, Memory> {
    let mut netlist = Text::new(alloc);
    push_inputs(alloc, &mut netlist, 268)?;
    netlist.push_bytes(b"OUTPUT(0)\n")?;
    Ok(netlist)
}

/// Whether all of a run over many inputs is written, and the reference refuses it.
fn many_are_run<R: Threads + Wait + Sync>(rt: &R, alloc: Global) -> Result<bool, Memory> {
    let netlist = many(alloc)?;
    let texts = four(netlist.as_bytes(), ZEROS.as_bytes(), b"", b"");
    let edges = Edges {
        room: 16_777_216,
        ..EASY
    };
    let ended = end_of(rt, alloc, &["run --workers 1", FILES], &texts, &edges)?;
    let taken = ended.out.taken();
    let run = ended.status == 0 && taken.len() == 8_888_904 && taken.ends_with(b"\n1000000 0\n");
    let line = b"limit: 269000000 cells, at most 268435456\n";
    Ok(run && ends(rt, alloc, &[REFER], &texts, &EASY, (10, b"", line)))
}

/// A run has no limit on cells, and the reference has one.
#[test]
fn many_cells(rt: HostRuntime) {
    assert!(rt; many_are_run(&rt, rt.alloc()) == Ok(true));
}
