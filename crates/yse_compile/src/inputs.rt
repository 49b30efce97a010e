//! A law of a netlist's inputs and those of its items: a function that does nothing.

ghost use Rattle.std.specs.Prelude.{◌≡◌};
ghost use Rattle.net_defs.specs.{declared.netlist.Netlist.Netlist, declared.timing.Timing.Timing, Valid.IsValid, Valid.input_count};
ghost use Rattle.node_defs.specs.{declared.items.NodeNet.NodeNet, Order.AreItems, WellFormed.column_count};

/// A law: the items of a valid netlist have as many inputs as the netlist, in each timing. It does
/// nothing.
pub fn same_inputs()
    ensures { (net : Netlist) (timing : Timing) (nodes : NodeNet) → IsValid net
        → AreItems net timing nodes → column_count nodes ≡ input_count net }
{}
