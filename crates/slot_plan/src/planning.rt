//! Slots, one item after another.

ghost use Rattle.std.specs.Prelude.{◌≡◌, ◌+◌, ◌<◌, ◌≤◌, IfOk, OnOk, Some, length, slice_get};
ghost use Rattle.node_defs.specs.WellFormed.{IsWellFormed};
ghost use Rattle.plan_defs.specs.{Homes.AreHomes, Homes.home_of, Readers.IsReaderList, Slots.IsFirstFitPlan};

use crate::board::Board;
use crate::early::first_slot;
use node_defs::{Item, NodeNet};
use plan_defs::{Homes, Plan, Readers};
use seen_list::{List, Memory};
use std::alloc::Global;

/// The slots of the items so far, what is needed for them, and what they take.
#[derive(Drop)]
pub(crate) struct Planning {
    pub(crate) board: Board,
    pub(crate) slots: List<u32>,
    pub(crate) needed: u32,
}

impl Planning {
    ghost use Rattle.plan_defs.specs.ReaderLists.{AreReaders};
    ghost use Rattle.slot_plan.specs.code.Plannings.{IsPlannedTo};

    /// No item has a slot.
    fn new(alloc: Global, nodes: &NodeNet, homes: &Homes) -> Result<Planning, Memory>
        requires nodes { IsWellFormed nodes.now }
        requires homes { AreHomes nodes.now homes.now }
        ensures { IfOk result (IsPlannedTo nodes.now homes.now 0) }
    {
        let ports = (homes.logic + homes.array + 1) as usize;
        let board = Board::new(alloc, ports, nodes.items.len())?;
        Ok(Planning {
            board,
            slots: List::new(alloc),
            needed: 0,
        })
    }

    /// Gives each item its slot.
    fn place_all(&mut self, nodes: &NodeNet, homes: &Homes, readers: &Readers) -> Result<(), Memory>
        requires nodes { IsWellFormed nodes.now }
        requires homes { AreHomes nodes.now homes.now }
        requires readers { AreReaders nodes.now homes.now readers.now }
        requires before { IsPlannedTo nodes.now homes.now 0 self.old }
        ensures { OnOk result (IsPlannedTo nodes.now homes.now (length nodes.now.items) self.new) }
    {
        'items: for item in 0..nodes.items.len() {
            self.place(nodes, homes, readers, item)?;
        }
        Ok(())
    }

    /// Gives the next item its slot.
    fn place(
        &mut self,
        nodes: &NodeNet,
        homes: &Homes,
        readers: &Readers,
        item: usize,
    ) -> Result<(), Memory>
        requires nodes { IsWellFormed nodes.now }
        requires homes { AreHomes nodes.now homes.now }
        requires readers { AreReaders nodes.now homes.now readers.now }
        requires item { item < length nodes.now.items }
        requires before { IsPlannedTo nodes.now homes.now item self.old }
        ensures { OnOk result (IsPlannedTo nodes.now homes.now (item + 1) self.new) }
    {
        let home = homes.items.as_slice()[item] as usize;
        let found = &nodes.items.as_slice()[item];
        self.put(nodes, homes, item, found, home, readers.of(item))
    }

    /// Gives the next item, at this home and with these readers, its slot.
    fn put(
        &mut self,
        nodes: &NodeNet,
        homes: &Homes,
        item: usize,
        found: &Item,
        home: usize,
        heard: &[u32],
    ) -> Result<(), Memory>
        requires nodes { IsWellFormed nodes.now }
        requires homes { AreHomes nodes.now homes.now }
        requires item { item < length nodes.now.items }
        requires found { slice_get nodes.now.items item ≡ Some found.now }
        requires home { home ≡ home_of homes.now item }
        requires heard { IsReaderList nodes.now homes.now item heard.now }
        requires before { IsPlannedTo nodes.now homes.now item self.old }
        ensures { OnOk result (IsPlannedTo nodes.now homes.now (item + 1) self.new) }
    {
        let from = first_slot(found, self.slots.as_slice());
        let slot = self.board.first_free(home, heard, from);
        self.board.take(home, heard, slot);
        self.slots.push(slot as u32)?;
        self.needed = self.needed.max(slot as u32 + 1);
        Ok(())
    }
}

/// The first-fit plan, however many slots a turn then needs.
pub(crate) fn slots(alloc: Global, nodes: &NodeNet, homes: &Homes) -> Result<Plan, Memory>
    requires nodes { IsWellFormed nodes.now }
    requires homes { AreHomes nodes.now homes.now }
    ensures plan { IfOk result (IsFirstFitPlan nodes.now homes.now) }
    ensures needed { IfOk result (λ plan. plan.needed ≤ length nodes.now.items) }
{
    let readers = Readers::new(alloc, nodes, homes)?;
    let mut planning = Planning::new(alloc, nodes, homes)?;
    planning.place_all(nodes, homes, &readers)?;
    Ok(Plan {
        slots: planning.slots,
        needed: planning.needed,
    })
}
