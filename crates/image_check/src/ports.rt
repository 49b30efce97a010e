//! Whether an image is well formed.

ghost use Rattle.std.specs.Prelude.{◌≡◌, ◌↔◌, ◌≤◌, ℕ, IsTrue, length};
ghost use Rattle.limits.specs.declared.TheConstants.{MAX_PORTS};
ghost use Rattle.image_defs.specs.{declared.image.PortImage.PortImage, Places.IsPort, WellFormed.IsPortImage, WellFormed.IsWellFormed};
ghost use Rattle.image_check.specs.code.Shapes.{IsShapeOf, AreShapesOf, IsRising, AreRising};

use crate::form::{all_below, all_rise, has_numbers, is_host_last};
use crate::links::{are_links_in, are_links_out};
use crate::shapes::Shape;
use crate::works::is_work;
use image_defs::{Image, PortImage};

/// Whether an image, whose ports have these slots, is well formed.
pub(crate) fn is_well_formed(image: &Image, shapes: &[Shape]) -> bool
    requires { AreShapesOf image.now.ports shapes.now }
    ensures { IsTrue result ↔ IsWellFormed image.now }
{
    let ports = image.ports.as_slice();
    if !has_numbers(image) {
        return false;
    }
    if !is_host_last(ports) {
        return false;
    }
    if !all_rise(ports, shapes) {
        return false;
    }
    are_ports(image, ports, shapes)
}

fn are_ports(image: &Image, ports: &[PortImage], shapes: &[Shape]) -> bool
    requires ports { ports.now ≡ image.now.ports }
    requires few { length ports.now ≤ MAX_PORTS }
    requires shapes { AreShapesOf image.now.ports shapes.now }
    requires rising { AreRising image.now.ports }
    ensures { IsTrue result ↔ ((p : ℕ) (port : PortImage) → IsPort image.now p port → IsPortImage image.now p port) }
{
    'ports: for p in 0..ports.len() {
        if !is_port(image, shapes, p as u32, &ports[p], &shapes[p]) {
            return false;
        }
    }
    true
}

fn is_port(image: &Image, shapes: &[Shape], p: u32, port: &PortImage, shape: &Shape) -> bool
    requires shapes { AreShapesOf image.now.ports shapes.now }
    requires rising { AreRising image.now.ports }
    requires shape { IsShapeOf port.now shape.now }
    requires port { IsRising port.now }
    ensures { IsTrue result ↔ IsPortImage image.now p port.now }
{
    if !all_below(shape.items.as_slice(), image.slots) {
        return false;
    }
    if !all_below(shape.ins.as_slice(), image.slots) {
        return false;
    }
    if !is_work(image.columns, port, shape) {
        return false;
    }
    if !are_links_out(image, shapes, p, port, shape, port.outs.as_slice()) {
        return false;
    }
    are_links_in(image, shapes, p, port.ins.as_slice())
}
