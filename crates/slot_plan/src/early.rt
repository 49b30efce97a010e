//! The first slot that comes after the operands of this turn.

ghost use Rattle.std.specs.Prelude.{◌⊎◌, ◌↔◌, ◌<◌, ◌≤◌, ℕ, length};
ghost use Rattle.node_defs.specs.{declared.items.Feed.TheVariants.From, Takes.FeedAwaits, Takes.IsOneOf, Takes.Awaits};
ghost use Rattle.slot_plan.specs.code.Early.{IsFrom};

use node_defs::{Feed, Feeds, Item, Tag};

/// The first slot that is past the slots of all that the item awaits.
pub(crate) fn first_slot(item: &Item, slots: &[u32]) -> usize
    requires { (o : ℕ) → Awaits item.now o → o < length slots.now }
    ensures { IsFrom (Awaits item.now) slots.now result }
{
    match item {
        Item::Input { .. } => 0,
        Item::BlockBit { .. } => 0,
        Item::Node { feeds, .. } => after_all(feeds, slots),
        Item::Latch { .. } => 0,
    }
}

/// The first slot that is past the slots of all that the operands await.
fn after_all(feeds: &Feeds, slots: &[u32]) -> usize
    requires { (o : ℕ) → IsOneOf (λ feed. FeedAwaits feed o) feeds.now → o < length slots.now }
    ensures { IsFrom (λ o. IsOneOf (λ feed. FeedAwaits feed o) feeds.now) slots.now result }
{
    let a = after(feeds.a, slots);
    let b = after(feeds.b, slots);
    let c = after(feeds.c, slots);
    let d = after(feeds.d, slots);
    let cd = later(c, d);
    let bcd = later(b, cd);
    later(a, bcd)
}

fn later(a: usize, b: usize) -> usize
    ensures { (s : ℕ) → (s < result) ↔ ((s < a) ⊎ (s < b)) }
{
    if a < b { b } else { a }
}

/// The first slot that is past the slot of what the operand awaits.
fn after(feed: Feed, slots: &[u32]) -> usize
    requires { (o : ℕ) → FeedAwaits feed o → o < length slots.now }
    ensures { IsFrom (FeedAwaits feed) slots.now result }
{
    match feed {
        Feed::From { item, tag } => after_tagged(item, tag, slots),
        Feed::Fixed(_) => 0,
    }
}

/// The first slot that is past the slot of an operand with this tag.
fn after_tagged(item: u32, tag: Tag, slots: &[u32]) -> usize
    requires { (o : ℕ) → FeedAwaits (From item tag) o → o < length slots.now }
    ensures { IsFrom (FeedAwaits (From item tag)) slots.now result }
{
    match tag {
        Tag::This => slots[item as usize] as usize + 1,
        Tag::Last => 0,
    }
}
