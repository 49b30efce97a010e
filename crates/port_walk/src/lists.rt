//! The lists that a port is made with.

ghost use Rattle.std.specs.Prelude.{◌≡◌, ℕ, length, IfOk};
ghost use Rattle.image_defs.specs.Places.{IsPort, item_slots, in_slots, out_slots};
ghost use Rattle.image_defs.specs.WellFormed.{IsWellFormed};
ghost use Rattle.port_walk.specs.{Rows.AreReaders, Stops.AreStops};

use crate::readers::{Readers, readers_of};
use crate::stops::{Stop, stops_of};
use image_defs::{Image, PortImage, slots_of};
use seen_list::{List, Memory};
use std::alloc::Global;

/// The slots of the items of a port, in their order, its stops, and the readers of its sends: what a port of any kind
/// keeps of its image beside its kind. It takes memory for all three, and is refused for want of it alone.
pub fn lists_of(
    alloc: Global,
    image: &Image,
    port_image: &PortImage,
) -> Result<(List<u32>, List<Stop>, Readers), Memory>
    requires image { IsWellFormed image.now }
    requires port_image { (p : ℕ) × IsPort image.now p port_image.now }
    ensures { IfOk result (λ lists. (lists.0 ≡ item_slots port_image.now.work)
        × AreStops (out_slots port_image.now.outs) (in_slots port_image.now.ins) image.now.slots lists.0 lists.1
        × AreReaders (length port_image.now.outs) port_image.now.outs lists.2) }
{
    let slots = slots_of(alloc, &port_image.work)?;
    let stops = stops_of(
        alloc,
        image.slots,
        slots.as_slice(),
        port_image.outs.as_slice(),
        port_image.ins.as_slice(),
    )?;
    let readers = readers_of(alloc, port_image.outs.as_slice())?;
    Ok((slots, stops, readers))
}
