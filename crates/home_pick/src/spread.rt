//! Items that are used at each logic port: what takes one of them is pulled equally to all ports.

ghost use Rattle.std.specs.Prelude.{◌≡◌, ◌≢◌, ◌<◌, ℕ, IsTrue, length};
ghost use Rattle.home_pick.specs.code.{Bags.counted, Bags.times, Bags.IsBag, Spread.AreSpread, Spread.Unmarks, Uses.bag_at, Uses.AreBags, Uses.AreUses};

use crate::bags::{Entry, bag_of, times_of};
use node_defs::NodeNet;
use plan_defs::Homes;
use seen_list::List;

/// Marks the items that are used at each logic port, where their bags show it at once.
pub(crate) fn mark_all(
    spread: &mut List<bool>,
    _nodes: &NodeNet,
    homes: &Homes,
    uses: &List<List<Entry>>,
)
    requires size { length spread.old ≡ length _nodes.now.items }
    requires uses { AreUses _nodes.now homes.now uses.now }
    ensures { AreSpread _nodes.now homes.now spread.new }
{
    'items: for i in 0..spread.len() {
        let marked = covers(bag_of(uses, i), homes.logic);
        spread.set(i, marked);
    }
}

/// Whether each of so many numbers is seen to stand in the bag.
fn covers(bag: &[Entry], numbers: u32) -> bool
    requires { IsBag bag.now }
    ensures { IsTrue result → (q : ℕ) → q < numbers → times bag.now q ≢ 0 }
{
    'numbers: for q in 0..numbers {
        if !is_in_place(bag, q) {
            return false;
        }
    }
    true
}

/// Whether the number has the entry at the place of its name, and stands at all.
fn is_in_place(bag: &[Entry], q: u32) -> bool
    requires { IsBag bag.now }
    ensures { IsTrue result → times bag.now q ≢ 0 }
{
    let place = q as usize;
    place < bag.len() && bag[place].key == q && bag[place].count > 0
}

/// Takes the mark from each item that an entry counts and that no longer is used at the port.
pub(crate) fn unmark_all(
    spread: &mut List<bool>,
    uses: &List<List<Entry>>,
    taken: &[Entry],
    port: u32,
)
    requires size { length uses.now ≡ length spread.old }
    requires within { (i : ℕ) → times taken.now i ≢ 0 → i < length spread.old }
    requires bags { AreBags uses.now }
    ensures { Unmarks spread.old spread.new (λ i. times taken.now i ≢ 0 → times (bag_at uses.now i) port ≢ 0) }
{
    'taken: for k in 0..taken.len() {
        unmark(spread, uses, taken[k], port);
    }
}

/// The same of one entry.
fn unmark(spread: &mut List<bool>, uses: &List<List<Entry>>, taken: Entry, port: u32)
    requires size { length uses.now ≡ length spread.old }
    requires within { taken.count ≢ 0 → taken.key < length spread.old }
    requires bags { AreBags uses.now }
    ensures { Unmarks spread.old spread.new (λ i. counted i taken ≢ 0 → times (bag_at uses.now i) port ≢ 0) }
{
    let item = taken.key as usize;
    if taken.count > 0 && spread.as_slice()[item] {
        let stays = times_of(bag_of(uses, item), port) > 0;
        spread.set(item, stays);
    }
}
