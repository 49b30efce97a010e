//! Laws of images that match the items of a netlist, and of the images of designs with their claims: functions that
//! do nothing.

ghost use Rattle.std.specs.Prelude.{ℕ, List as Items, Ok};
ghost use Rattle.machine_text.specs.{declared.machine.Machine.Machine, Machines.IsValid as IsValidMachine};
ghost use Rattle.net_defs.specs.{declared.netlist.Netlist.Netlist, declared.timing.Timing.Timing, declared.stimulus.Stimulus.Stimulus, Valid.IsValid};
ghost use Rattle.node_defs.specs.{declared.items.NodeNet.NodeNet, Order.AreItems};
ghost use Rattle.image_defs.specs.{declared.image.Image.Image, WellFormed.IsWellFormed, Matches.Matches, declared.file.Claims.Claims};
ghost use Rattle.yse_compile.specs.{declared.compiler.Compiled.Compiled, Chosen.IsDesign, Compiled.ShowsReference, Claims.IsPlaced, Claims.AreClaimsOf};
ghost use Rattle.image_check.specs.Check.{Says};
ghost use Rattle.image_file.specs.Ranges.{IsInRanges};

use crate::inputs::same_inputs;
use image_defs::law::matched_values;
use node_defs::law::{one_run, values_are_reference};
use plan_defs::law::items_are_well_formed;

/// A law: a well-formed image that matches the items of a valid netlist shows, for every stimulus, the
/// cells of the netlist's reference simulation, whoever made it. It does nothing.
pub fn matching_images_show()
    ensures { (net : Netlist) (timing : Timing) (nodes : NodeNet) (image : Image) (claims : Items (Items ℕ))
        → IsValid net → AreItems net timing nodes → IsWellFormed image → Matches image claims nodes timing
        → (stimulus : Stimulus) → ShowsReference net timing stimulus image }
{
    matched_values();
    one_run();
    values_are_reference();
}

/// A law: the items of a design stand at their homes in their plan, and its image is built for them. It does
/// nothing.
pub fn designs_are_placed()
    ensures { (net : Netlist) (machine : Machine) (timing : Timing) (compiled : Compiled) → IsValid net
        → IsDesign net machine timing compiled → IsPlaced compiled }
{
    items_are_well_formed();
}

/// A law: the image of a design with its claims is within the ranges of image texts. It does nothing.
pub fn designs_are_in_range()
    ensures { (net : Netlist) (machine : Machine) (timing : Timing) (compiled : Compiled) (claims : Claims)
        → IsValid net → IsValidMachine machine → IsDesign net machine timing compiled
        → AreClaimsOf compiled claims → IsInRanges (record { image = compiled.image; claims = claims }) }
{
    items_are_well_formed();
    same_inputs();
}

/// A law: the image of a design with its claims is accepted by the netlist's items. It does nothing.
pub fn designs_are_accepted()
    ensures { (net : Netlist) (machine : Machine) (timing : Timing) (compiled : Compiled) (claims : Claims)
        → IsDesign net machine timing compiled → AreClaimsOf compiled claims
        → Says (record { image = compiled.image; claims = claims }) compiled.nodes timing (Ok tt) }
{}
