//! The items of each port.

ghost use Rattle.std.specs.Prelude.{◌≡◌, ◌<◌, ◌∷◌, ◌++◌, [], IfOk, OnOk, length, replicate, slice_set};
ghost use Rattle.image_defs.specs.Matches.{claims_of};
ghost use Rattle.image_build.specs.{PortItems.ArePlanClaims, Plans.IsPlanned};

use node_defs::NodeNet;
use plan_defs::{Homes, Plan};
use seen_list::{List, Memory};
use std::alloc::Global;
use switch_set::order::slot_order;

/// The items of each port in slot order: a list for each port, in port order.
pub fn port_items(
    alloc: Global,
    _nodes: &NodeNet,
    homes: &Homes,
    plan: &Plan,
) -> Result<List<List<u32>>, Memory>
    requires { IsPlanned _nodes.now homes.now plan.now }
    ensures { IfOk result (ArePlanClaims _nodes.now homes.now plan.now.slots) }
{
    let order = slot_order(alloc, plan.slots.as_slice())?;
    let mut lists = empty_lists(alloc, (homes.logic + homes.array + 1) as usize)?;
    let ports = homes.items.as_slice();
    'items: for k in 0..order.len() {
        let item = order[k].item;
        push_to(&mut lists, ports[item as usize] as usize, item)?;
    }
    Ok(lists)
}

/// So many empty lists.
pub(crate) fn empty_lists(alloc: Global, count: usize) -> Result<List<List<u32>>, Memory>
    ensures { IfOk result (λ lists. lists ≡ replicate count []) }
{
    let mut lists = List::new(alloc);
    'lists: for _list in 0..count {
        lists.push(List::new(alloc))?;
    }
    Ok(lists)
}

/// Adds a number to the list of this place.
pub(crate) fn push_to(lists: &mut List<List<u32>>, place: usize, number: u32) -> Result<(), Memory>
    requires { place < length lists.old }
    ensures { OnOk result (lists.new ≡ slice_set lists.old place (claims_of lists.old place ++ number ∷ [])) }
{
    let list = lists.as_mut_slice();
    list[place].push(number)?;
    Ok(())
}
