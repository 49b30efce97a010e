//! Calls of `machine_text`.

use super::wanted::{Wanted, parts_of};
use machine_text::{Limited, Machine, read_machine};
use std::alloc::Global;

/// Texts, with `|` between them, and behind `=>` what is read of each: the numbers of logic and array processors, of
/// slots, functions, bits and nodes, the limits of nodes at ports 0 and 4, and then the limits of single ports in file
/// order. First stand texts of the first version, then those of the second.
const CASES: &str = "\
=> machine 4 1 65536 256 65536 4194304\nat ports 4194304 4194304\n\
|logic 254\nfunctions 4096\n=> machine 254 1 65536 4096 65536 4194304\nat ports 4194304 4194304\n\
|array 64\nbits 16777216\n=> machine 4 64 65536 256 16777216 4194304\nat ports 4194304 4194304\n\
|LOGIC 1 # \u{ff}\r\n\tArray\t000\r\nslots 1\nfunctions 01\nbits 1\r=> machine 1 0 1 1 1 4194304\nat ports 4194304 4194304\n\
|bits 65536\nfunctions 256\nslots 65536\nARRAY 1\nlogic 00000000000000000000004=> machine 4 1 65536 256 65536 4194304\nat ports 4194304 4194304\n\
|version 2\n=> machine 4 1 65536 256 65536 4194304\nat ports 4194304 4194304\n\
|\n# version 3\n\tVERSION 0002 # \u{ff}\r\nNODES 4194304\n=> machine 4 1 65536 256 65536 4194304\nat ports 4194304 4194304\n\
|version 2\nnodes 1\n=> machine 4 1 65536 256 65536 1\nat ports 1 1\n\
|version 2\nnodes 1 4194304\nFunctions 0 01\nbits 000 16777216\nnodes 4 1\nlogic 5\nnodes 9\n=> machine 5 1 65536 256 65536 9\nat ports 9 1\n\
nodes 1 4194304\nfunctions 0 1\nbits 0 16777216\nnodes 4 1\n";

fn cases() -> &'static str {
    CASES
}

fn limited_word(what: Limited) -> &'static str {
    match what {
        Limited::Functions => "functions",
        Limited::Nodes => "nodes",
        Limited::Bits => "bits",
    }
}

fn tell_machine(wanted: &mut Wanted<'_>, machine: &Machine) {
    let Machine {
        logic,
        array,
        slots,
        functions,
        bits,
        nodes,
        own,
    } = machine;
    wanted.tell_line(
        "machine",
        &[*logic, *array, *slots, *functions, *bits, *nodes],
    );
    let first = machine.limit_at(Limited::Nodes, 0);
    wanted.tell_line("at ports", &[first, machine.limit_at(Limited::Nodes, 4)]);
    for own in own.as_slice() {
        wanted.tell_line(limited_word(own.what), &[own.port, own.limit]);
    }
}

/// Whether a text of at most a million bytes is read as its case says.
fn is_read(alloc: Global, case: &str) -> bool {
    let (_, text, wanted) = parts_of(case);
    let mut wanted = Wanted::new(wanted);
    if text.len() > 1_000_000 {
        return false;
    }
    if let Ok(machine) = read_machine(alloc, text.as_bytes()) {
        tell_machine(&mut wanted, &machine);
        drop(machine);
    }
    wanted.is_told()
}

/// Whether the default machine is that of a text that sets nothing.
fn is_default(alloc: Global) -> bool {
    let mut wanted = Wanted::new("machine 4 1 65536 256 65536 4194304\nat ports 4194304 4194304\n");
    tell_machine(&mut wanted, &Machine::default_size(alloc));
    wanted.is_told()
}

#[test]
fn reads_texts(rt: HostRuntime) {
    for case in cases().split('|') {
        assert!(rt; is_read(rt.alloc(), case));
    }
    assert!(rt; is_default(rt.alloc()));
}
