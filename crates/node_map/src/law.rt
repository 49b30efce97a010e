//! A law of items: a function that does nothing, whose clause holds of all netlists.

ghost use Rattle.std.specs.Prelude.{ℕ, All, List as Items};
ghost use Rattle.net_defs.specs.{declared.netlist.Netlist.Netlist, declared.timing.Timing.Timing, Valid.IsValid, Loops.IsOrder};
ghost use Rattle.func_table.specs.Entries.{HasWords};
ghost use Rattle.node_defs.specs.{declared.items.NodeNet.NodeNet, Order.IsMapped};

/// A law: a valid netlist whose gates have an order has items, with tables of eight words each. It does nothing.
pub fn items_exist()
    ensures { (net : Netlist) (timing : Timing) (order : Items ℕ) → IsValid net
        → IsOrder net timing order → (nodes : NodeNet) × IsMapped net timing nodes × All HasWords nodes.tables }
{}
