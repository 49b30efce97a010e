//! The numbers of an image, its host, and the order of its slots.

ghost use Rattle.std.specs.{Prelude.◌↔◌, Prelude.◌<◌, Prelude.IsTrue, List.Sorted.IsStrictlyIncreasing};
ghost use Rattle.image_defs.specs.{Places.Each, WellFormed.IsHost};
ghost use Rattle.image_check.specs.code.Shapes.{IsShapeOf, AreShapesOf, IsRising, AreRising};
ghost use Rattle.image_check.specs.code.Forms.{HasNumbers, IsHostLast};

use crate::search::rises;
use crate::shapes::Shape;
use image_defs::{Image, LinkOut, PortImage, Work};
use limits::{MAX_PORTS, MAX_SLOTS, MAX_UNITS};

/// Whether the numbers of the image are within the limits.
pub(crate) fn has_numbers(image: &Image) -> bool
    ensures { IsTrue result ↔ HasNumbers image.now }
{
    if image.slots > MAX_SLOTS {
        return false;
    }
    if image.units < 1 || image.units > MAX_UNITS {
        return false;
    }
    !image.ports.is_empty() && image.ports.len() <= MAX_PORTS as usize
}

/// Whether the last port, and no other, is the host.
pub(crate) fn is_host_last(ports: &[PortImage]) -> bool
    ensures { IsTrue result ↔ IsHostLast ports.now }
{
    'ports: for p in 0..ports.len() {
        if is_host(&ports[p].work) != (p + 1 == ports.len()) {
            return false;
        }
    }
    true
}

fn is_host(work: &Work) -> bool
    ensures { IsTrue result ↔ IsHost work.now }
{
    match work {
        Work::Logic { .. } => false,
        Work::Array { .. } => false,
        Work::Host { .. } => true,
    }
}

/// Whether the slots of each port rise, and the readers of each send.
pub(crate) fn all_rise(ports: &[PortImage], shapes: &[Shape]) -> bool
    requires { AreShapesOf ports.now shapes.now }
    ensures { IsTrue result ↔ AreRising ports.now }
{
    'ports: for p in 0..ports.len() {
        if !port_rises(&ports[p], &shapes[p]) {
            return false;
        }
    }
    true
}

fn port_rises(port: &PortImage, shape: &Shape) -> bool
    requires { IsShapeOf port.now shape.now }
    ensures { IsTrue result ↔ IsRising port.now }
{
    if !rises(shape.items.as_slice()) {
        return false;
    }
    if !rises(shape.outs.as_slice()) {
        return false;
    }
    if !rises(shape.ins.as_slice()) {
        return false;
    }
    readers_rise(port.outs.as_slice())
}

fn readers_rise(sends: &[LinkOut]) -> bool
    ensures { IsTrue result ↔ Each (λ link. IsStrictlyIncreasing link.readers) sends.now }
{
    'sends: for k in 0..sends.len() {
        if !rises(sends[k].readers.as_slice()) {
            return false;
        }
    }
    true
}

/// Whether all of the numbers are less than the limit.
pub(crate) fn all_below(numbers: &[u32], limit: u32) -> bool
    ensures { IsTrue result ↔ Each (λ n. n < limit) numbers.now }
{
    'numbers: for k in 0..numbers.len() {
        if numbers[k] >= limit {
            return false;
        }
    }
    true
}
