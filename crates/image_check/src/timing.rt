//! Whether an image is of the timing and prints as much as is asked.

ghost use Rattle.std.specs.Prelude.{◌≡◌, ◌↔◌, ◌≤◌, IsTrue, count_by, length};
ghost use Rattle.image_defs.specs.{Places.printed_of, Claimed.HasTiming};
ghost use Rattle.node_defs.specs.WellFormed.{is_input, column_count as columns_of};
ghost use Rattle.image_check.specs.code.Differences.{PrintsAsMany};

use image_defs::{Image, Source, Work};
use net_defs::Timing;
use node_defs::{Item, NodeNet};

/// Whether the image has the turns, the initial value and the inputs, and prints as much.
pub(crate) fn has_timing(image: &Image, nodes: &NodeNet, timing: &Timing) -> bool
    requires { 1 ≤ length image.now.ports }
    ensures { IsTrue result ↔ HasTiming image.now nodes.now timing.now }
{
    if !has_turns(image, timing) {
        return false;
    }
    if !has_columns(image, nodes) {
        return false;
    }
    prints_as_many(image, nodes.printed.len())
}

fn has_turns(image: &Image, timing: &Timing) -> bool
    ensures { IsTrue result ↔ ((image.now.units ≡ timing.now.units) × (image.now.init ≡ timing.now.init)) }
{
    image.units == timing.units && image.init == timing.init
}

fn has_columns(image: &Image, nodes: &NodeNet) -> bool
    ensures { IsTrue result ↔ (image.now.columns ≡ columns_of nodes.now) }
{
    image.columns as usize == input_count(nodes.items.as_slice())
}

fn input_count(items: &[Item]) -> usize
    ensures { result ≡ count_by is_input items.now }
{
    items
        .iter()
        .filter(|item| matches!(item, Item::Input { .. }))
        .count()
}

fn prints_as_many(image: &Image, count: usize) -> bool
    requires { 1 ≤ length image.now.ports }
    ensures { IsTrue result ↔ PrintsAsMany image.now count }
{
    let ports = image.ports.as_slice();
    printed_sources(&ports[ports.len() - 1].work).len() == count
}

/// What a port prints.
pub(crate) fn printed_sources(work: &Work) -> &[Source]
    ensures { result.now ≡ printed_of work.now }
{
    match work {
        Work::Logic { .. } => &[],
        Work::Array { .. } => &[],
        Work::Host { printed, .. } => printed.as_slice(),
    }
}
