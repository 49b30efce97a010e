//! The first steps over the crossbar of c17.

ghost use Rattle.std.specs.Prelude.{◌≡◌, ◌<◌, length};
ghost use Rattle.net_defs.specs.Valid.{IsValid, IsValidStimulus};
ghost use Rattle.machine_text.specs.Machines as machines;
ghost use Rattle.image_defs.specs.WellFormed.{IsWellFormed};
ghost use Rattle.slot_words.specs.plain.Passes.{AreFirstPasses, IsFirstPass};

use super::items::{netlist_of, rank_order};
use crate::tests::C17;
use crew_run::{Step, Stepper};
use image_defs::Image;
use machine_text::{Machine, read_machine};
use net_defs::{Netlist, Stimulus};
use port_run::{Running, Seated};
use port_walk::AnyPort;
use seen_list::{List, Memory};
use slot_words::{Crossbar, Pass};
use std::alloc::Global;
use std::sync::Wait;
use stim_text::read_stim;
use yse_compile::compile;

/// Adds the port of a pass, before its first event, in blocks of one cycle.
fn push_port<'a>(
    ports: &mut List<Seated<'a>>,
    alloc: Global,
    bar: &'a Crossbar,
    image: &'a Image,
    stim: &'a Stimulus,
    pass: Pass,
) -> Result<(), Memory>
    requires fits { IsWellFormed image.now }
    requires valid { IsValidStimulus stim.now }
    requires columns { stim.now.columns ≡ image.now.columns }
    requires image { bar.now.image ≡ image.now }
    requires stimulus { bar.now.feed ≡ stim.now }
    requires first { IsFirstPass bar.now pass.port pass }
    requires there { pass.port < length image.now.ports }
{
    match AnyPort::new(alloc, image, stim, pass.port(), 1) {
        Ok(port) => {
            let run = Running::new(pass, port);
            ports.push(Seated { bar, run })
        }
        Err(no) => {
            drop(pass);
            Err(no)
        }
    }
}

/// All ports, the last one first.
fn all_ports<'a>(
    alloc: Global,
    bar: &'a Crossbar,
    image: &'a Image,
    stim: &'a Stimulus,
    passes: List<Pass>,
) -> Result<List<Seated<'a>>, Memory>
    requires fits { IsWellFormed image.now }
    requires valid { IsValidStimulus stim.now }
    requires columns { stim.now.columns ≡ image.now.columns }
    requires image { bar.now.image ≡ image.now }
    requires stimulus { bar.now.feed ≡ stim.now }
    requires passes { AreFirstPasses bar.now (length image.now.ports) passes }
{
    let mut passes = passes;
    let mut ports = List::new(alloc);
    let mut ended = Ok(());
    'passes: while let Some(pass) = passes.pop() {
        let pushed = push_port(&mut ports, alloc, bar, image, stim, pass);
        ended = ended.and(pushed);
    }
    drop(passes);
    match ended {
        Ok(()) => Ok(ports),
        Err(no) => {
            drop(ports);
            Err(no)
        }
    }
}

/// Whether the last of three ports, which is port 0, takes nothing before the first of them, the host, puts an input,
/// and takes it then.
fn are_first_steps(ports: &mut [Seated<'_>]) -> bool {
    if ports.len() != 3 {
        return false;
    }
    let waits = ports[2].step();
    let puts = ports[0].step();
    let takes = ports[2].step();
    matches!(
        (waits, puts, takes),
        (Step::NotYet, Step::Moved, Step::Moved)
    )
}

/// Whether the ports of an image begin so over these rows.
fn begin_so<R: Wait>(rt: &R, alloc: Global, image: &Image, stim: &Stimulus) -> Result<bool, Memory>
    requires fits { IsWellFormed image.now }
    requires valid { IsValidStimulus stim.now }
    requires columns { stim.now.columns ≡ image.now.columns }
{
    let (bar, passes) = Crossbar::make(rt, alloc, image, stim, 2)?;
    let mut ports = all_ports(alloc, &bar, image, stim, passes)?;
    Ok(are_first_steps(ports.as_mut_slice()))
}

/// Whether they do over one row.
fn image_begins_so<R: Wait>(rt: &R, alloc: Global, image: &Image) -> bool
    requires { IsWellFormed image.now }
{
    match read_stim(alloc, b"11111\n", image.columns) {
        Ok(stim) => {
            let begun = begin_so(rt, alloc, image, &stim);
            drop(stim);
            begun == Ok(true)
        }
        Err(_) => false,
    }
}

/// Whether those of a netlist, compiled for a machine, do.
fn begins_on<R: Wait>(rt: &R, alloc: Global, net: &Netlist, machine: &Machine) -> bool
    requires net { IsValid net.now }
    requires machine { machines.IsValid machine.now }
{
    match compile(alloc, net, machine, &rank_order(alloc)) {
        Ok(compiled) => {
            let begun = image_begins_so(rt, alloc, &compiled.image);
            drop(compiled);
            begun
        }
        Err(no) => {
            drop(no);
            false
        }
    }
}

/// Whether those of a netlist on two logic processors do.
fn net_begins_so<R: Wait>(rt: &R, alloc: Global, net: &Netlist) -> bool
    requires { IsValid net.now }
{
    match read_machine(alloc, b"logic 2\narray 0\n") {
        Ok(machine) => {
            let begun = begins_on(rt, alloc, net, &machine);
            drop(machine);
            begun
        }
        Err(_) => false,
    }
}

fn c17_begins_so<R: Wait>(rt: &R, alloc: Global) -> bool {
    match netlist_of(alloc, C17) {
        Some(net) => {
            let begun = net_begins_so(rt, alloc, &net);
            drop(net);
            begun
        }
        None => false,
    }
}

/// In turn 1 port 0 takes nothing before the host's Put, and its value after it.
#[test]
fn crossbar_of_c17(rt: HostRuntime) {
    assert!(rt; c17_begins_so(&rt, rt.alloc()));
}
