//! Laws of items: functions that do nothing, whose clauses hold of all netlists.

ghost use Rattle.std.specs.Prelude.{◌≡◌, ◌<◌, ℕ, List as Items, length, Some, slice_get};
ghost use Rattle.net_defs.specs.{declared.netlist.Netlist.Netlist, declared.timing.Timing.Timing, declared.stimulus.Stimulus.Stimulus, Steps.State};
ghost use Rattle.net_defs.specs.Valid.{IsValid};
ghost use Rattle.node_defs.specs.declared.items.{Tag.TheVariants.This, Feed.TheVariants.From, Feeds.Feeds, Item.TheVariants.Node, NodeNet.NodeNet};
ghost use Rattle.node_defs.specs.{Items.feed_at, Order.AreItems, Order.IsMapped, Values.AreItemValues, Values.AreReferenceValues, Values.HaveOneRun};

/// A law: an operand that is taken at this turn stands before the node that takes it. It does nothing.
pub fn operands_are_earlier()
    ensures { (net : Netlist) (timing : Timing) (nodes : NodeNet) → AreItems net timing nodes
        → (x table : ℕ) (feeds : Feeds) (place y : ℕ) → slice_get nodes.items x ≡ Some (Node table feeds)
        → feed_at feeds place ≡ From y This → y < x }
{}

/// A law: the items of a netlist have values for each stimulus, and no others. It does nothing.
pub fn one_run()
    ensures { (net : Netlist) (timing : Timing) (nodes : NodeNet) → AreItems net timing nodes
        → (stimulus : Stimulus) → HaveOneRun nodes timing stimulus }
{}

/// A law: the values of the items of a valid netlist are those of a reference simulation of it: each
/// item that stands for a signal has the signal's value at every turn. It does nothing.
pub fn values_are_reference()
    ensures { (net : Netlist) (timing : Timing) (nodes : NodeNet) → IsValid net → AreItems net timing nodes
        → (stimulus : Stimulus) (values : Items State) → AreItemValues nodes timing stimulus values
        → AreReferenceValues net timing stimulus nodes values }
{}

/// A law: a netlist and a timing are mapped to one list of items; and whichever numbers the tables have, the items
/// have the same names, and the same are printed and read by memories. It does nothing.
pub fn one_list()
    ensures alike { (net : Netlist) (timing : Timing) (one other : NodeNet) → AreItems net timing one
        → AreItems net timing other → (one.names ≡ other.names) × (length one.items ≡ length other.items)
        × (one.printed ≡ other.printed) × (one.blocks ≡ other.blocks) × (one.first_node ≡ other.first_node) }
    ensures one { (net : Netlist) (timing : Timing) (one other : NodeNet) → IsMapped net timing one
        → IsMapped net timing other → one ≡ other }
{}
