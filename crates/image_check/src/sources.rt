//! Sources of a port: what they name is there, and of the turn that it has to be.

ghost use Rattle.std.specs.Prelude.{◌≡◌, ◌↔◌, IsTrue};
ghost use Rattle.image_defs.specs.WellFormed.{IsThere, IsBefore, IsOfLast, IsOperand, IsPast, IsPresent};
ghost use Rattle.image_defs.specs.Places.{Each};
ghost use Rattle.image_check.specs.code.Shapes.{IsShapeOf, IsRising};

use crate::search::stands;
use crate::shapes::Shape;
use image_defs::{PortImage, Source};

fn is_there(port: &PortImage, shape: &Shape, source: &Source) -> bool
    requires shape { IsShapeOf port.now shape.now }
    requires rising { IsRising port.now }
    ensures { IsTrue result ↔ IsThere port.now source.now }
{
    match source {
        Source::Own { slot, .. } => stands(shape.items.as_slice(), *slot),
        Source::Got { slot, .. } => stands(shape.ins.as_slice(), *slot),
        Source::Const(_) => true,
    }
}

fn is_before(slot: u32, source: &Source) -> bool
    ensures { IsTrue result ↔ IsBefore slot source.now }
{
    match source {
        Source::Own { slot: named, last } => *last || *named < slot,
        Source::Got { slot: named, last } => *last || *named < slot,
        Source::Const(_) => true,
    }
}

fn is_of_last(said: bool, source: &Source) -> bool
    ensures { IsTrue result ↔ IsOfLast said source.now }
{
    match source {
        Source::Own { last, .. } => *last == said,
        Source::Got { last, .. } => *last == said,
        Source::Const(_) => true,
    }
}

/// Whether it may be an operand of a task in this slot.
pub(crate) fn is_operand(port: &PortImage, shape: &Shape, slot: u32, source: &Source) -> bool
    requires shape { IsShapeOf port.now shape.now }
    requires rising { IsRising port.now }
    ensures { IsTrue result ↔ IsOperand port.now slot source.now }
{
    is_before(slot, source) && is_there(port, shape, source)
}

/// Whether it is one of the last turn.
pub(crate) fn is_past(port: &PortImage, shape: &Shape, source: &Source) -> bool
    requires shape { IsShapeOf port.now shape.now }
    requires rising { IsRising port.now }
    ensures { IsTrue result ↔ IsPast port.now source.now }
{
    is_of_last(true, source) && is_there(port, shape, source)
}

fn is_present(port: &PortImage, shape: &Shape, source: &Source) -> bool
    requires shape { IsShapeOf port.now shape.now }
    requires rising { IsRising port.now }
    ensures { IsTrue result ↔ IsPresent port.now source.now }
{
    is_of_last(false, source) && is_there(port, shape, source)
}

/// Whether all of them are of the last turn.
pub(crate) fn are_past(port: &PortImage, shape: &Shape, sources: &[Source]) -> bool
    requires shape { IsShapeOf port.now shape.now }
    requires rising { IsRising port.now }
    ensures { IsTrue result ↔ Each (IsPast port.now) sources.now }
{
    'sources: for k in 0..sources.len() {
        if !is_past(port, shape, &sources[k]) {
            return false;
        }
    }
    true
}

/// Whether all of them are of this turn.
pub(crate) fn are_present(port: &PortImage, shape: &Shape, sources: &[Source]) -> bool
    requires shape { IsShapeOf port.now shape.now }
    requires rising { IsRising port.now }
    ensures { IsTrue result ↔ Each (IsPresent port.now) sources.now }
{
    'sources: for k in 0..sources.len() {
        if !is_present(port, shape, &sources[k]) {
            return false;
        }
    }
    true
}
