//! What the places of an image claim, and what sources carry.

ghost use Rattle.std.specs.Prelude.{◌≡◌, ◌↔◌, IsTrue, Some, length, slice_get};
ghost use Rattle.std.specs.List.Sorted.{IsStrictlyIncreasing};
ghost use Rattle.node_defs.specs.declared.items.{Feed.TheVariants.From, Feed.TheVariants.Fixed, Tag.TheVariants.Last};
ghost use Rattle.image_defs.specs.{Places.sender_in, Matches.IsClaim, Matches.CarryAll, Matches.is_last as is_of_last, Claimed.lists_of};
ghost use Rattle.image_check.specs.code.OnePorts.{IsOnePort, ClaimedIn, ClaimsAt, CarriesAt};

use crate::search::{place_of, sender_of};
use crate::shapes::Shape;
use image_defs::{Claims, ImageFile, PortImage, Source};
use logic_four::V4;
use node_defs::{Feed, Tag};

/// One port of an image, by its number, with the slots of all ports.
#[derive(Clone, Copy)]
pub(crate) struct OnePort<'a> {
    pub(crate) file: &'a ImageFile,
    pub(crate) shapes: &'a [Shape],
    pub(crate) number: u32,
    pub(crate) port: &'a PortImage,
}

/// Whether these sources carry these items of the last turn, one for one.
pub(crate) fn carry_all(one: &OnePort, sources: &[Source], items: &[u32]) -> bool
    requires { IsOnePort one.now }
    ensures { IsTrue result ↔ CarryAll one.now.file.now.image (lists_of one.now.file.now.claims)
        one.now.number one.now.port.now.ins sources.now items.now }
{
    if sources.len() != items.len() {
        return false;
    }
    'sources: for k in 0..sources.len() {
        if !carries_item(one, &sources[k], items[k], Tag::Last) {
            return false;
        }
    }
    true
}

/// Whether a source carries an operand of a node.
pub(crate) fn carries(one: &OnePort, source: &Source, feed: &Feed) -> bool
    requires { IsOnePort one.now }
    ensures { IsTrue result ↔ CarriesAt one.now source.now feed.now }
{
    match feed {
        Feed::From { item, tag } => carries_item(one, source, *item, *tag),
        Feed::Fixed(value) => is_constant(one, source, *value),
    }
}

/// Whether a source carries an item, of this turn or of the last one.
pub(crate) fn carries_item(one: &OnePort, source: &Source, item: u32, tag: Tag) -> bool
    requires { IsOnePort one.now }
    ensures { IsTrue result ↔ CarriesAt one.now source.now (From item tag) }
{
    match source {
        Source::Own { slot, last } => claims_tagged(one, one.number, *slot, *last, item, tag),
        Source::Got { slot, last } => {
            claims_tagged(one, sender_at(one, *slot), *slot, *last, item, tag)
        }
        Source::Const(_) => false,
    }
}

fn is_constant(one: &OnePort, source: &Source, value: V4) -> bool
    ensures { IsTrue result ↔ CarriesAt one.now source.now (Fixed value) }
{
    match source {
        Source::Own { .. } => false,
        Source::Got { .. } => false,
        Source::Const(constant) => *constant == value,
    }
}

fn claims_tagged(one: &OnePort, p: u32, slot: u32, last: bool, item: u32, tag: Tag) -> bool
    requires { IsOnePort one.now }
    ensures { IsTrue result ↔ (ClaimsAt one.now p slot item × (last ≡ is_of_last tag)) }
{
    if last != is_last(tag) {
        return false;
    }
    claims_item(one, p, slot, item)
}

fn is_last(tag: Tag) -> bool
    ensures { result ≡ is_of_last tag }
{
    match tag {
        Tag::This => false,
        Tag::Last => true,
    }
}

/// The port from which the port receives in a slot.
fn sender_at(one: &OnePort, slot: u32) -> u32
    requires { IsOnePort one.now }
    ensures { result ≡ sender_in one.now.port.now.ins slot }
{
    let shape = &one.shapes[one.number as usize];
    sender_of(one.port.ins.as_slice(), shape.ins.as_slice(), slot)
}

/// Whether the item of port `p` in this slot claims this item.
fn claims_item(one: &OnePort, p: u32, slot: u32, item: u32) -> bool
    requires { IsOnePort one.now }
    ensures { IsTrue result ↔ ClaimsAt one.now p slot item }
{
    match one.shapes.get(p as usize) {
        Some(shape) => claims_in(&one.file.claims, shape, p, slot, item),
        None => false,
    }
}

fn claims_in(claims: &Claims, shape: &Shape, p: u32, slot: u32, item: u32) -> bool
    requires { IsStrictlyIncreasing shape.now.items }
    ensures { IsTrue result ↔ ClaimedIn (lists_of claims.now) shape.now.items p slot item }
{
    match place_of(shape.items.as_slice(), slot) {
        Some(place) => is_claim(claims, p, place, item),
        None => false,
    }
}

fn is_claim(claims: &Claims, p: u32, place: usize, item: u32) -> bool
    ensures { IsTrue result ↔ IsClaim (lists_of claims.now) p place item }
{
    match claims.ports.get(p as usize) {
        Some(port) => is_at(port.items.as_slice(), place, item),
        None => false,
    }
}

fn is_at(items: &[u32], place: usize, item: u32) -> bool
    ensures { IsTrue result ↔ (slice_get items.now place ≡ Some item) }
{
    place < items.len() && items[place] == item
}
