//! The files that a request names: each is begun, read and checked, one step of a call for each.

ghost use Rattle.std.specs.Prelude.{◌≡◌, ◌≤◌, length, All, IfOk, IfSome, Some};
ghost use Rattle.cmd_words.specs.Forms.{IsRunInRange};
ghost use Rattle.image_defs.specs.Claimed.{HasClaims};
ghost use Rattle.limits.specs.declared.TheConstants.{MAX_TEXT_BYTES};
ghost use Rattle.machine_text.specs.Machines.{IsValid as IsValidMachine, ports_of};
ghost use Rattle.net_defs.specs.Valid.{IsFault, IsValid, IsValidStimulus, IsValidTiming, input_count};
ghost use Rattle.stim_text.specs.{Lanes.AreLanes, Orders.IsValidOrder};
ghost use Rattle.call_steps.specs.FileSteps.{DesignOf, FaultsFrom, ImageFileIn, LanesIn, MachineFrom, NetlistIn, OrderIn, StimulusIn, TimingFrom};
ghost use Rattle.call_steps.specs.{Refused.answer, Steps.FilesPass, Steps.TextIn};

use bench_read::law::reads_as_valid;
use bench_read::{read_bench, read_faults, read_last};
use cmd_words::RunWords;
use edge_io::{Files, ReadNo, read_file};
use image_defs::ImageFile;
use image_file::read_image;
use limits::MAX_TEXT_BYTES;
use machine_text::{Machine, read_machine};
use net_defs::{Fault, Netlist, Stimulus, Timing};
use refusals::Refusal;
use seen_list::{List, Text};
use std::alloc::Global;
use stim_text::{Lanes, Order, read_lanes, read_order, read_stim};

/// A netlist, and the timing that it is run in.
#[derive(Drop)]
pub struct Timed {
    pub net: Netlist,
    pub timing: Timing,
}

/// The bytes of a file, and else why they can't be had.
pub fn read_text<'a, F: Files>(
    alloc: Global,
    files: &mut F,
    file: &'a [u8],
) -> Result<List<u8>, Refusal<'a>>
    ensures step { FilesPass F.Files.own files.old files.new (TextIn file.now) (answer result) }
    ensures short { IfOk result (λ text. length text ≤ MAX_TEXT_BYTES) }
{
    match read_file(alloc, files, file, MAX_TEXT_BYTES) {
        Ok(text) => Ok(text),
        Err(ReadNo::Failed) => Err(Refusal::ReadFault(file)),
        Err(ReadNo::TooLong) => Err(Refusal::TooLong(file)),
        Err(ReadNo::Memory) => Err(Refusal::Memory),
    }
}

/// The machine of the named file, and else the default machine.
pub fn machine_from<'a, F: Files>(
    alloc: Global,
    files: &mut F,
    file: &'a Option<Text>,
) -> Result<Machine, Refusal<'a>>
    ensures step { FilesPass F.Files.own files.old files.new (MachineFrom file.now) (answer result) }
    ensures valid { IfOk result IsValidMachine }
{
    match file {
        None => Ok(Machine::default_size(alloc)),
        Some(file) => {
            let text = read_text(alloc, files, file.as_bytes())?;
            let machine = read_machine(alloc, text.as_slice())?;
            Ok(machine)
        }
    }
}

/// The netlist of the words, and their timing with the gates listed that the file of a list names.
pub fn design_from<'a, F: Files>(
    alloc: Global,
    files: &mut F,
    words: &'a RunWords,
) -> Result<Timed, Refusal<'a>>
    requires range { IsRunInRange words.now }
    ensures step { FilesPass F.Files.own files.old files.new (DesignOf words.now) (answer result) }
    ensures valid { IfOk result (λ timed. IsValid timed.net) }
    ensures timing { IfOk result (λ timed. IsValidTiming timed.timing) }
{
    let net = netlist_in(alloc, files, words.netlist.as_bytes())?;
    let timing = timing_from(alloc, files, words, &net)?;
    Ok(Timed { net, timing })
}

/// The netlist of this file.
pub fn netlist_in<'a, F: Files>(
    alloc: Global,
    files: &mut F,
    file: &'a [u8],
) -> Result<Netlist, Refusal<'a>>
    ensures step { FilesPass F.Files.own files.old files.new (NetlistIn file.now) (answer result) }
    ensures valid { IfOk result IsValid }
{
    let text = read_text(alloc, files, file)?;
    let bytes = text.as_slice();
    let net = read_bench(alloc, bytes)?;
    reads_as_valid(bytes, &net);
    Ok(net)
}

/// The timing of the words, with the gates listed that the file of a list names.
fn timing_from<'a, F: Files>(
    alloc: Global,
    files: &mut F,
    words: &'a RunWords,
    net: &Netlist,
) -> Result<Timing, Refusal<'a>>
    requires range { IsRunInRange words.now }
    requires valid { IsValid net.now }
    ensures step { FilesPass F.Files.own files.old files.new (TimingFrom words.now.last net.now words.now.timing) (answer result) }
    ensures timing { IfOk result IsValidTiming }
{
    match &words.last {
        // The timing of words lists no gate, so this is a copy of it.
        None => Ok(words.timing.listing(List::new(alloc))),
        Some(file) => {
            let text = read_text(alloc, files, file.as_bytes())?;
            let listed = read_last(alloc, text.as_slice(), net)?;
            Ok(words.timing.listing(listed))
        }
    }
}

/// The stuck faults that the file of a list names, where there is such a file.
pub fn faults_from<'a, F: Files>(
    alloc: Global,
    files: &mut F,
    file: &'a Option<Text>,
    net: &Netlist,
) -> Result<Option<List<Fault>>, Refusal<'a>>
    requires { IsValid net.now }
    ensures step { FilesPass F.Files.own files.old files.new (FaultsFrom file.now net.now) (answer result) }
    ensures faults { IfOk result (λ listed. IfSome listed (All (IsFault net.now))) }
{
    match file {
        None => Ok(None),
        Some(file) => {
            let text = read_text(alloc, files, file.as_bytes())?;
            let faults = read_faults(alloc, text.as_slice(), net)?;
            Ok(Some(faults))
        }
    }
}

/// The stimulus of this file, for the inputs of a netlist.
pub fn stimulus_in<'a, F: Files>(
    alloc: Global,
    files: &mut F,
    file: &'a [u8],
    net: &Netlist,
) -> Result<Stimulus, Refusal<'a>>
    requires { IsValid net.now }
    ensures step { FilesPass F.Files.own files.old files.new (StimulusIn file.now net.now) (answer result) }
    ensures valid { IfOk result IsValidStimulus }
    ensures columns { IfOk result (λ stimulus. stimulus.columns ≡ input_count net.now) }
{
    let text = read_text(alloc, files, file)?;
    let stimulus = read_stim(alloc, text.as_slice(), net.inputs())?;
    Ok(stimulus)
}

/// The lanes of this file, for the inputs of a netlist.
pub fn lanes_in<'a, F: Files>(
    alloc: Global,
    files: &mut F,
    file: &'a [u8],
    net: &Netlist,
) -> Result<Lanes, Refusal<'a>>
    requires { IsValid net.now }
    ensures step { FilesPass F.Files.own files.old files.new (LanesIn file.now net.now) (answer result) }
    ensures lanes { IfOk result (AreLanes (input_count net.now)) }
{
    let text = read_text(alloc, files, file)?;
    let lanes = read_lanes(alloc, text.as_slice(), net.inputs())?;
    Ok(lanes)
}

/// The order of this file, for the ports of a machine.
pub fn order_in<'a, F: Files>(
    alloc: Global,
    files: &mut F,
    file: &'a [u8],
    machine: &Machine,
) -> Result<Order, Refusal<'a>>
    requires { IsValidMachine machine.now }
    ensures step { FilesPass F.Files.own files.old files.new (OrderIn file.now machine.now) (answer result) }
    ensures valid { IfOk result (IsValidOrder (ports_of machine.now)) }
{
    let text = read_text(alloc, files, file)?;
    let order = read_order(alloc, text.as_slice(), machine.logic + machine.array + 1)?;
    Ok(order)
}

/// The image of this file, with its claims.
pub fn image_in<'a, F: Files>(
    alloc: Global,
    files: &mut F,
    file: &'a [u8],
) -> Result<ImageFile, Refusal<'a>>
    ensures step { FilesPass F.Files.own files.old files.new (ImageFileIn file.now) (answer result) }
    ensures claims { IfOk result HasClaims }
{
    let text = read_text(alloc, files, file)?;
    let image = read_image(alloc, text.as_slice())?;
    Ok(image)
}
