//! The check of an image that comes from elsewhere.

ghost use Rattle.std.specs.Prelude.{ℕ};
ghost use Rattle.image_defs.specs.Claimed.{lists_of, HasClaims, HasTiming, PlaceMatches};
ghost use Rattle.image_defs.specs.{WellFormed.IsWellFormed, Matches.Matches};
ghost use Rattle.image_check.specs.{Check.Says, Check.IsOkOrMemory, code.Shapes.AreShapesOf};

use crate::places::{first_column, first_place};
use crate::ports::is_well_formed;
use crate::shapes::{Shape, shapes};
use crate::timing::has_timing;
use image_defs::ImageFile;
use net_defs::Timing;
use node_defs::NodeNet;
use std::alloc::Global;

/// Why an image isn't accepted. Of several causes the first in this order is answered, but that want of memory
/// may come in place of any answer.
#[derive(Clone, Copy)]
pub enum CheckNo {
    /// The image isn't well formed.
    Form,
    /// The turns of a cycle, what registers hold at first, the number of inputs or that of printed
    /// sources differ.
    Timing,
    /// What stands in this slot of this port isn't as the item that it claims: the first such port, and
    /// then the first such slot of it.
    Place { port: u32, slot: u32 },
    /// This column, counted from 0, doesn't show the printed item: the first such one.
    Column { column: usize },
    /// There was not enough memory to check.
    Memory,
}

/// Checks an image against the items of a netlist in a timing, through its claims: each of its places
/// is to be as the item that it claims, whoever made it. The steps are as many as the image has parts,
/// but for a search among a port's slots for each source. A memory of an array processor, which has at most
/// 81 sources, is looked through again where output bits of several memories stand in turn.
pub fn check_image(
    alloc: Global,
    file: &ImageFile,
    nodes: &NodeNet,
    timing: &Timing,
) -> Result<(), CheckNo>
    requires { HasClaims file.now }
    ensures says { Says file.now nodes.now timing.now result }
    ensures only { IsWellFormed file.now.image → Matches file.now.image (lists_of file.now.claims) nodes.now timing.now
        → IsOkOrMemory result }
{
    match shapes(alloc, file.image.ports.as_slice()) {
        Ok(laid) => check_laid(file, laid.as_slice(), nodes, timing),
        Err(_) => Err(CheckNo::Memory),
    }
}

fn check_laid(
    file: &ImageFile,
    shapes: &[Shape],
    nodes: &NodeNet,
    timing: &Timing,
) -> Result<(), CheckNo>
    requires claims { HasClaims file.now }
    requires shapes { AreShapesOf file.now.image.ports shapes.now }
    ensures { Says file.now nodes.now timing.now result }
{
    if !is_well_formed(&file.image, shapes) {
        return Err(CheckNo::Form);
    }
    if !has_timing(&file.image, nodes, timing) {
        return Err(CheckNo::Timing);
    }
    if let Some(place) = first_place(file, shapes, nodes) {
        return Err(CheckNo::Place {
            port: place.port,
            slot: place.slot,
        });
    }
    if let Some(column) = first_column(file, shapes, nodes) {
        return Err(CheckNo::Column { column });
    }
    Ok(())
}
