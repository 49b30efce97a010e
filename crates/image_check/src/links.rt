//! Links: what one port sends, the ports that it names receive, and the other way round.

ghost use Rattle.std.specs.Prelude.{◌≡◌, ◌↔◌, ◌<◌, IsTrue, Some, length, slice_get};
ghost use Rattle.std.specs.List.Sorted.{IsStrictlyIncreasing};
ghost use Rattle.image_defs.specs.{declared.image.LinkOut.LinkOut, Places.Each, Places.Stands, WellFormed.IsLinkIn, WellFormed.IsLinkOut};
ghost use Rattle.image_check.specs.code.Shapes.{IsShapeOf, AreShapesOf, IsRising, AreRising};
ghost use Rattle.image_check.specs.code.Links.{SendsTo, IsReader, link_in};

use crate::search::{place_of, stands};
use crate::shapes::Shape;
use image_defs::{Image, LinkIn, LinkOut, PortImage};

/// Whether the senders of all links send to port `p` what the links say.
pub(crate) fn are_links_in(image: &Image, shapes: &[Shape], p: u32, links: &[LinkIn]) -> bool
    requires shapes { AreShapesOf image.now.ports shapes.now }
    requires rising { AreRising image.now.ports }
    ensures { IsTrue result ↔ Each (IsLinkIn image.now p) links.now }
{
    'links: for k in 0..links.len() {
        if !is_link_in(image, shapes, p, &links[k]) {
            return false;
        }
    }
    true
}

fn is_link_in(image: &Image, shapes: &[Shape], p: u32, link: &LinkIn) -> bool
    requires shapes { AreShapesOf image.now.ports shapes.now }
    requires rising { AreRising image.now.ports }
    ensures { IsTrue result ↔ IsLinkIn image.now p link.now }
{
    match image.ports.get(link.sender as usize) {
        Some(sender) => sends_to(sender, &shapes[link.sender as usize], link.slot, p),
        None => false,
    }
}

/// Whether a port sends to this reader in this slot.
fn sends_to(port: &PortImage, shape: &Shape, slot: u32, reader: u32) -> bool
    requires shape { IsShapeOf port.now shape.now }
    requires rising { IsRising port.now }
    ensures { IsTrue result ↔ SendsTo port.now slot reader }
{
    match place_of(shape.outs.as_slice(), slot) {
        Some(place) => is_read(port.outs.as_slice(), place, reader),
        None => false,
    }
}

fn is_read(sends: &[LinkOut], place: usize, reader: u32) -> bool
    requires within { place < length sends.now }
    requires rising { Each (λ link. IsStrictlyIncreasing link.readers) sends.now }
    ensures { (link : LinkOut) → slice_get sends.now place ≡ Some link
        → IsTrue result ↔ Stands link.readers reader }
{
    stands(sends[place].readers.as_slice(), reader)
}

/// Whether all links out of port `p` are of items of it, to other ports that receive them.
pub(crate) fn are_links_out(
    image: &Image,
    shapes: &[Shape],
    p: u32,
    port: &PortImage,
    shape: &Shape,
    links: &[LinkOut],
) -> bool
    requires shapes { AreShapesOf image.now.ports shapes.now }
    requires rising { AreRising image.now.ports }
    requires shape { IsShapeOf port.now shape.now }
    requires port { IsRising port.now }
    requires readers { Each (λ link. IsStrictlyIncreasing link.readers) links.now }
    ensures { IsTrue result ↔ Each (IsLinkOut image.now p port.now) links.now }
{
    'links: for k in 0..links.len() {
        if !is_link_out(image, shapes, p, port, shape, &links[k]) {
            return false;
        }
    }
    true
}

fn is_link_out(
    image: &Image,
    shapes: &[Shape],
    p: u32,
    port: &PortImage,
    shape: &Shape,
    link: &LinkOut,
) -> bool
    requires shapes { AreShapesOf image.now.ports shapes.now }
    requires rising { AreRising image.now.ports }
    requires shape { IsShapeOf port.now shape.now }
    requires port { IsRising port.now }
    requires readers { IsStrictlyIncreasing link.now.readers }
    ensures { IsTrue result ↔ IsLinkOut image.now p port.now link.now }
{
    if link.readers.is_empty() {
        return false;
    }
    if !stands(shape.items.as_slice(), link.slot) {
        return false;
    }
    are_readers(image, shapes, p, link.slot, link.readers.as_slice())
}

fn are_readers(image: &Image, shapes: &[Shape], p: u32, slot: u32, readers: &[u32]) -> bool
    requires shapes { AreShapesOf image.now.ports shapes.now }
    requires rising { AreRising image.now.ports }
    ensures { IsTrue result ↔ Each (IsReader image.now p slot) readers.now }
{
    'readers: for k in 0..readers.len() {
        if !is_reader(image, shapes, p, slot, readers[k]) {
            return false;
        }
    }
    true
}

fn is_reader(image: &Image, shapes: &[Shape], p: u32, slot: u32, reader: u32) -> bool
    requires shapes { AreShapesOf image.now.ports shapes.now }
    requires rising { AreRising image.now.ports }
    ensures { IsTrue result ↔ IsReader image.now p slot reader }
{
    if reader == p {
        return false;
    }
    match image.ports.get(reader as usize) {
        Some(port) => receives(port, &shapes[reader as usize], slot, p),
        None => false,
    }
}

/// Whether a port receives from this sender in this slot.
fn receives(port: &PortImage, shape: &Shape, slot: u32, sender: u32) -> bool
    requires shape { IsShapeOf port.now shape.now }
    requires rising { IsRising port.now }
    ensures { IsTrue result ↔ Stands port.now.ins (link_in slot sender) }
{
    match place_of(shape.ins.as_slice(), slot) {
        Some(place) => port.ins.as_slice()[place].sender == sender,
        None => false,
    }
}
