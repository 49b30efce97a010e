//! Items in slot order.

ghost use Rattle.std.specs.Prelude.{◌≡◌, ◌<◌, ◌≤◌, ◌^◌, IfOk, length, map};
ghost use Rattle.std.specs.List.{range_with_len};
ghost use Rattle.switch_set.specs.{Order.IsSlotOrder, code.Order.placed_at};

use seen_list::Memory;
use std::alloc::Global;

/// An item and its slot.
#[derive(Clone, Copy)]
pub struct Placed {
    pub slot: u32,
    pub item: u32,
}

/// The items in slot order, given the slot of each. Items of one slot stand in any order among themselves.
pub fn slot_order(alloc: Global, slots: &[u32]) -> Result<Vec<Placed>, Memory>
    requires { length slots.now < 2 ^ 32 }
    ensures { IfOk result (λ order. IsSlotOrder slots.now order.items) }
{
    let mut order = item_order(alloc, slots)?;
    order.sort_by_key(|placed| placed.slot)?;
    Ok(order)
}

/// The items in item order, given the slot of each.
fn item_order(alloc: Global, slots: &[u32]) -> Result<Vec<Placed>, Memory>
    requires { length slots.now < 2 ^ 32 }
    ensures { IfOk result (λ order. order.items
        ≡ map (placed_at slots.now) (range_with_len 0 (length slots.now))) }
{
    let mut order = Vec::with_capacity(alloc, slots.len())?;
    'items: for item in 0..slots.len() {
        order.push(Placed {
            slot: slots[item],
            item: item as u32,
        })?;
    }
    Ok(order)
}
