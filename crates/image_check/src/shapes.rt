//! The slots of each port.

ghost use Rattle.std.specs.Prelude.{◌≡◌, IfOk};
ghost use Rattle.image_defs.specs.Places.{in_slots, out_slots};
ghost use Rattle.image_check.specs.code.Shapes.{IsShapeOf, AreShapesOf};

use image_defs::{LinkIn, LinkOut, PortImage, slots_of};
use seen_list::{List, Memory};
use std::alloc::Global;

/// The slots of a port's items, of its sends and of its receipts, each in the order of the port's lists.
#[derive(Drop)]
pub(crate) struct Shape {
    pub(crate) items: List<u32>,
    pub(crate) outs: List<u32>,
    pub(crate) ins: List<u32>,
}

/// The slots of each port.
pub(crate) fn shapes(alloc: Global, ports: &[PortImage]) -> Result<List<Shape>, Memory>
    ensures { IfOk result (AreShapesOf ports.now) }
{
    let mut shapes = List::new(alloc);
    'ports: for p in 0..ports.len() {
        shapes.push(port_shape(alloc, &ports[p])?)?;
    }
    Ok(shapes)
}

fn port_shape(alloc: Global, port: &PortImage) -> Result<Shape, Memory>
    ensures { IfOk result (IsShapeOf port.now) }
{
    let items = slots_of(alloc, &port.work)?;
    let outs = send_slots(alloc, port.outs.as_slice())?;
    let ins = receipt_slots(alloc, port.ins.as_slice())?;
    Ok(Shape { items, outs, ins })
}

fn send_slots(alloc: Global, sends: &[LinkOut]) -> Result<List<u32>, Memory>
    ensures { IfOk result (λ slots. slots ≡ out_slots sends.now) }
{
    let mut slots = List::new(alloc);
    'sends: for k in 0..sends.len() {
        slots.push(sends[k].slot)?;
    }
    Ok(slots)
}

fn receipt_slots(alloc: Global, receipts: &[LinkIn]) -> Result<List<u32>, Memory>
    ensures { IfOk result (λ slots. slots ≡ in_slots receipts.now) }
{
    let mut slots = List::new(alloc);
    'receipts: for k in 0..receipts.len() {
        slots.push(receipts[k].slot)?;
    }
    Ok(slots)
}
