//! Laws of picked and of better homes: functions that do nothing, whose clauses hold of all items, homes and
//! machines.

ghost use Rattle.std.specs.Prelude.{◌≡◌, ◌<◌, ◌≤◌, List as Items, ℕ, length, ◌≢◌, ◌+◌, ◌%◌, All, slice_index};
ghost use Rattle.std.specs.List.{sum_by, range_with_len};
ghost use Rattle.home_pick.specs.{Better.IsBetter, Better.load_at, Crossings.crossings};
ghost use Rattle.limits.specs.declared.TheConstants.{MAX_NODES};
ghost use Rattle.machine_text.specs.{Machines.IsValid as IsValidMachine, declared.machine.Limited.TheVariants.Nodes, declared.machine.Machine.Machine};
ghost use Rattle.net_defs.specs.{Valid.IsValid, declared.netlist.Netlist.Netlist, declared.timing.Timing.Timing};
ghost use Rattle.node_defs.specs.{Order.AreItems, WellFormed.IsWellFormed, declared.items.NodeNet.NodeNet};
ghost use Rattle.plan_defs.specs.Picks.{ArePicked, node_limit, node_count, AreHoused, FindsNoPort, HasTooManyNodes};
ghost use Rattle.plan_defs.specs.{Homes.AreHomes, Readers.IsReaderList, declared.plan.Homes.Homes};

/// A law: memories have one list of ports. It does nothing.
pub fn one_housing()
    ensures { (nodes : NodeNet) (machine : Machine) (ports others : Items ℕ) (n : ℕ)
        → AreHoused nodes machine ports n → AreHoused nodes machine others n → ports ≡ others }
{}

/// A law: where all memories have ports, none is refused. It does nothing.
pub fn housed_or_refused()
    ensures { (nodes : NodeNet) (machine : Machine) (ports : Items ℕ) (block needed left : ℕ)
        → AreHoused nodes machine ports (length nodes.blocks) → FindsNoPort nodes machine block needed left → ⊥ }
{}

/// A law: items have one list of homes that is picked on a machine. It does nothing.
pub fn one_picking()
    ensures { (nodes : NodeNet) (machine : Machine) (homes others : Homes) → IsWellFormed nodes
        → ArePicked nodes machine homes → ArePicked nodes machine others → homes ≡ others }
{}

/// A law: where homes are picked, the nodes are not too many. It does nothing.
pub fn picked_or_too_many()
    ensures { (nodes : NodeNet) (machine : Machine) (homes : Homes) (needed limit : ℕ)
        → ArePicked nodes machine homes → HasTooManyNodes nodes machine needed limit → ⊥ }
{}

/// A law: where each logic port may have all nodes, the limits of nodes change nothing. Node number n is
/// at port n modulo their number, and the nodes are not too many. It does nothing.
pub fn wide_limits()
    ensures turn { (nodes : NodeNet) (machine : Machine) (homes : Homes) (n : ℕ) → IsWellFormed nodes → IsValidMachine machine
        → ((p : ℕ) → p < machine.logic → node_count nodes ≤ node_limit machine p)
        → ArePicked nodes machine homes → n < node_count nodes
        → slice_index homes.items (nodes.first_node + n) ≡ n % machine.logic }
    ensures room { (nodes : NodeNet) (machine : Machine) (needed limit : ℕ) → IsValidMachine machine
        → ((p : ℕ) → p < machine.logic → node_count nodes ≤ node_limit machine p)
        → HasTooManyNodes nodes machine needed limit → ⊥ }
{}

/// A law: at the default of `nodes`, and without limits of nodes of single ports, each logic port may have
/// all nodes of a valid netlist (`plan_defs::law::few_nodes`). So each home is as without limits of nodes,
/// and none is refused for them (`wide_limits`). It does nothing.
pub fn default_nodes()
    ensures { (net : Netlist) (timing : Timing) (nodes : NodeNet) (machine : Machine) (p : ℕ) → IsValid net
        → AreItems net timing nodes → machine.nodes ≡ MAX_NODES → All (λ own. own.what ≢ Nodes) machine.own
        → node_count nodes ≤ node_limit machine p }
{}

/// A law: from any homes, passes reach homes where a pass moves nothing. It does nothing.
pub fn some_better()
    ensures { (nodes : NodeNet) (machine : Machine) (start : Homes) → (better : Homes) × IsBetter nodes machine start better }
{}

/// A law: they reach one such homes alone. It does nothing.
pub fn one_better()
    ensures { (nodes : NodeNet) (machine : Machine) (start one other : Homes)
        → IsBetter nodes machine start one → IsBetter nodes machine start other → one ≡ other }
{}

/// A law: from homes that are picked on the machine, better ones keep what each port may have of its own: none
/// gets more nodes than its limit. It does nothing.
pub fn limits_are_kept()
    ensures { (nodes : NodeNet) (machine : Machine) (start better : Homes) → IsWellFormed nodes → AreHomes nodes start
        → ArePicked nodes machine start → IsBetter nodes machine start better
        → (port : ℕ) → port < machine.logic → load_at nodes better port ≤ node_limit machine port }
{}

/// A law: the crossings are counted by the readers of all items, each of them once. It does nothing.
pub fn crossings_are_readers()
    ensures { (nodes : NodeNet) (homes : Homes) (readers : ℕ → Items ℕ) → IsWellFormed nodes → AreHomes nodes homes
        → ((i : ℕ) → i < length nodes.items → IsReaderList nodes homes i (readers i))
        → crossings nodes homes ≡ sum_by (λ i. length (readers i)) (range_with_len 0 (length nodes.items)) }
{}
