//! Designs that are ready to run: a netlist in its timing with an image of it, on a machine or from elsewhere.

ghost use Rattle.std.specs.Prelude.{◌≡◌, IfOk};
ghost use Rattle.cmd_words.specs.Forms.{IsRunInRange};
ghost use Rattle.machine_text.specs.Machines.{ports_of};
ghost use Rattle.net_defs.specs.Valid.{IsValid, IsValidTiming, input_count};
ghost use Rattle.stim_text.specs.{Lanes.AreLanes, Orders.IsValidOrder};
ghost use Rattle.call_steps.specs.FileSteps.{BuiltIn, LanesIn, OrderIn, PlacedOnMachine, ReadyOnMachine, RunnableIn};
ghost use Rattle.call_steps.specs.{Checks.HasFewCells, Designs.IsRunnable, Images.IsImageOf, Refused.Satisfies, Refused.answer, Steps.FilesPass};

use crate::checks::{Built, few_cells, of_design};
use crate::images::{accepted, items_of};
use crate::reading::{Timed, design_from, image_in, lanes_in, machine_from, order_in, stimulus_in};
use cmd_words::RunWords;
use edge_io::Files;
use image_defs::Image;
use machine_text::Machine;
use net_defs::{HomeChoice, Netlist, Stimulus, Timing};
use refusals::Refusal;
use std::alloc::Global;
use std::marker::Model;
use stim_text::{Lanes, Order};
use yse_compile::inputs::same_inputs;
use yse_compile::{Chosen, Compiled, compile_with};

/// A design as it is laid out on a machine, at homes of a choice. Contracts see of it the netlist and the machine.
#[derive(Drop)]
pub struct Planned {
    pub homes: HomeChoice,
    pub machine: Machine,
    pub timing: Timing,
    pub net: Netlist,
    pub chosen: Chosen,
}

impl Model for Planned {
    ghost use Rattle.call_steps.specs.Designs.{IsPlanned, Placed};

    ghost Value = { Placed };

    ghost view = { λ p. record { homes = p.homes; machine = p.machine; timing = p.timing; net = p.net } };

    ghost invariant = { λ p. IsPlanned p.homes p.machine p.timing p.net p.chosen };
}

/// A netlist in its timing, and an image of it.
#[derive(Drop)]
pub struct Runnable {
    pub timing: Timing,
    pub net: Netlist,
    pub image: Image,
}

/// A design on a machine, at homes of a choice. Contracts see all of it but the image.
#[derive(Drop)]
pub struct OnMachine {
    pub homes: HomeChoice,
    pub machine: Machine,
    pub run: Runnable,
}

impl Model for OnMachine {
    ghost use Rattle.call_steps.specs.Designs.{IsPlaced, Placed};

    ghost Value = { Placed };

    ghost view = { λ o. record {
      homes = o.homes;
      machine = o.machine;
      timing = o.run.timing;
      net = o.run.net;
    } };

    ghost invariant = { λ o. IsPlaced o.homes o.machine o.run };
}

/// A design on a machine, with its stimulus.
#[derive(Drop)]
pub struct Ready {
    pub design: OnMachine,
    pub stimulus: Stimulus,
}

impl Model for Ready {
    ghost use Rattle.call_steps.specs.Designs.{Feeds, Prepared};

    ghost Value = { Prepared };

    ghost view = { λ r. record { placed = r.design; stimulus = r.stimulus } };

    ghost invariant = { λ r. Feeds r.design.net r.stimulus };
}

/// The design of the words, laid out on their machine.
pub fn planned_on_machine<'a, F: Files>(
    alloc: Global,
    files: &mut F,
    words: &'a RunWords,
) -> Result<Planned, Refusal<'a>>
    requires { IsRunInRange words.now }
    ensures { FilesPass F.Files.own files.old files.new (PlacedOnMachine words.now) (answer result) }
{
    let machine = machine_from(alloc, files, &words.machine)?;
    let Timed { net, timing } = design_from(alloc, files, words)?;
    match compile_with(alloc, &net, &machine, &timing, words.homes) {
        Ok(chosen) => Ok(Planned {
            homes: words.homes,
            machine,
            timing,
            net,
            chosen,
        }),
        Err(no) => Err(of_design(net, no)),
    }
}

/// The image of a design. What it was made from is given up.
pub fn on_machine(planned: Planned) -> OnMachine
    ensures { result ≡ planned }
{
    same_inputs();
    let Planned {
        homes,
        machine,
        timing,
        net,
        chosen,
    } = planned;
    let Compiled { image, .. } = chosen.compiled;
    OnMachine {
        homes,
        machine,
        run: Runnable { timing, net, image },
    }
}

/// The design of the words on their machine, with their stimulus.
pub fn ready_on_machine<'a, F: Files>(
    alloc: Global,
    files: &mut F,
    words: &'a RunWords,
) -> Result<Ready, Refusal<'a>>
    requires { IsRunInRange words.now }
    ensures { FilesPass F.Files.own files.old files.new (ReadyOnMachine words.now) (answer result) }
{
    let planned = planned_on_machine(alloc, files, words)?;
    let design = on_machine(planned);
    let stimulus = stimulus_in(alloc, files, words.stimulus.as_bytes(), &design.run.net)?;
    Ok(Ready { design, stimulus })
}

/// The image of this file, in the netlist and the timing of the words.
pub fn runnable_in<'a, F: Files>(
    alloc: Global,
    files: &mut F,
    words: &'a RunWords,
    file: &'a [u8],
) -> Result<Runnable, Refusal<'a>>
    requires { IsRunInRange words.now }
    ensures step { FilesPass F.Files.own files.old files.new (RunnableIn words.now file.now) (answer result) }
    ensures runnable { IfOk result IsRunnable }
{
    let Timed { net, timing } = design_from(alloc, files, words)?;
    let Built { net, image } = built_in(alloc, files, net, &timing, file)?;
    Ok(Runnable { timing, net, image })
}

/// The netlist with the image of this file, which it accepts.
fn built_in<'a, F: Files>(
    alloc: Global,
    files: &mut F,
    net: Netlist,
    timing: &Timing,
    file: &'a [u8],
) -> Result<Built, Refusal<'a>>
    requires valid { IsValid net }
    requires timing { IsValidTiming timing.now }
    ensures step { FilesPass F.Files.own files.old files.new (BuiltIn file.now net timing.now) (answer result) }
    ensures same { IfOk result (λ built. built.net ≡ net) }
    ensures image { IfOk result (λ built. IsImageOf net timing.now built.image) }
{
    let mapped = items_of(alloc, net, timing)?;
    let image = image_in(alloc, files, file)?;
    accepted(alloc, mapped, timing, image)
}

/// The lanes of the words' stimulus file, for a design.
pub fn lanes_for<'a, F: Files>(
    alloc: Global,
    files: &mut F,
    words: &'a RunWords,
    design: &OnMachine,
) -> Result<Lanes, Refusal<'a>>
    ensures step { FilesPass F.Files.own files.old files.new (LanesIn words.now.stimulus design.now.net) (answer result) }
    ensures lanes { IfOk result (AreLanes (input_count design.now.net)) }
{
    lanes_in(alloc, files, words.stimulus.as_bytes(), &design.run.net)
}

/// The order of this file, for the ports of the design's machine.
pub fn order_for<'a, F: Files>(
    alloc: Global,
    files: &mut F,
    file: &'a [u8],
    ready: &Ready,
) -> Result<Order, Refusal<'a>>
    ensures step { FilesPass F.Files.own files.old files.new (OrderIn file.now ready.now.placed.machine) (answer result) }
    ensures valid { IfOk result (IsValidOrder (ports_of ready.now.placed.machine)) }
{
    let design = &ready.design;
    order_in(alloc, files, file, &design.machine)
}

/// Whether a design has not too many cells under its stimulus.
pub fn few_ready_cells<'a>(ready: &Ready) -> Result<(), Refusal<'a>>
    ensures { Satisfies result (HasFewCells ready.now.placed.net ready.now.stimulus) }
{
    let design = &ready.design;
    few_cells(&design.run.net, &ready.stimulus)
}
