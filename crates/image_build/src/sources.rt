//! Where a port takes values from.

ghost use Rattle.std.specs.Prelude.{◌≡◌, ◌<◌, ℕ, Contains, IfOk, length, map};
ghost use Rattle.image_build.specs.code.Layouts.{source_of as taken_from, feed_source as fed_from};
ghost use Rattle.node_defs.specs.Takes.{FeedTakes};
ghost use Rattle.image_defs.specs.Matches.{is_last as is_of_last};

use image_defs::Source;
use node_defs::{Feed, Tag};
use plan_defs::{Homes, Plan};
use seen_list::{List, Memory};
use std::alloc::Global;

/// Where port `port` takes item `item` from, in the last turn or in this one.
pub(crate) fn source_of(homes: &Homes, plan: &Plan, port: u32, item: u32, last: bool) -> Source
    requires as_long { length homes.now.items ≡ length plan.now.slots }
    requires item { item < length plan.now.slots }
    ensures { result ≡ taken_from homes.now plan.now.slots port item last }
{
    let slot = plan.slots.as_slice()[item as usize];
    if homes.items.as_slice()[item as usize] == port {
        Source::Own { slot, last }
    } else {
        Source::Got { slot, last }
    }
}

/// Where port `port` takes an operand of a node from.
pub(crate) fn feed_source(homes: &Homes, plan: &Plan, port: u32, feed: Feed) -> Source
    requires as_long { length homes.now.items ≡ length plan.now.slots }
    requires taken { (o : ℕ) → FeedTakes feed o → o < length plan.now.slots }
    ensures { result ≡ fed_from homes.now plan.now.slots port feed }
{
    match feed {
        Feed::From { item, tag } => source_of(homes, plan, port, item, is_last(tag)),
        Feed::Fixed(value) => Source::Const(value),
    }
}

/// Whether the operand is of the last turn.
fn is_last(tag: Tag) -> bool
    ensures { result ≡ is_of_last tag }
{
    match tag {
        Tag::This => false,
        Tag::Last => true,
    }
}

/// Where port `port` takes each of these items from, all of them in the last turn or in this one.
pub(crate) fn sources_of(
    alloc: Global,
    homes: &Homes,
    plan: &Plan,
    port: u32,
    items: &[u32],
    last: bool,
) -> Result<List<Source>, Memory>
    requires as_long { length homes.now.items ≡ length plan.now.slots }
    requires items { (o : ℕ) → Contains items.now o → o < length plan.now.slots }
    ensures { IfOk result (λ sources. sources ≡ map (λ o. taken_from homes.now plan.now.slots port o last) items.now) }
{
    let mut sources = List::new(alloc);
    'items: for k in 0..items.len() {
        sources.push(source_of(homes, plan, port, items[k], last))?;
    }
    Ok(sources)
}
