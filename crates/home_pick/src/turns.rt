//! The logic ports of nodes, in turn.

ghost use Rattle.std.specs.Prelude.{◌≡◌, ◌+◌, ◌-◌, ◌<◌, ◌≤◌, ◌++◌, ◌∷◌, [], ℕ, IfOk, length};
ghost use Rattle.std.specs.List.{sum};
ghost use Rattle.limits.specs.declared.TheConstants.{MAX_LOGIC};
ghost use Rattle.machine_text.specs.{Machines.IsValid, declared.machine.Limited.TheVariants.Nodes};
ghost use Rattle.plan_defs.specs.{Lists.IsLeastFree, Picks.IsInTurn, Picks.node_room};
ghost use Rattle.home_pick.specs.code.Rooms.{AreTurned, IsSpent, limits_of};

use machine_text::Machine;
use node_defs::NodeNet;
use seen_list::{List, Memory};
use std::alloc::Global;

/// The ports of the items so far, and what is known of the logic ports.
#[derive(Drop)]
pub(crate) struct Turns {
    pub(crate) ports: List<u32>,
    /// How many nodes more each logic port holds.
    pub(crate) left: List<u32>,
    /// How many logic ports from each on, modulo their number, are known to be full. It only grows,
    /// so that all searches from one port together pass each port once.
    pub(crate) skips: List<usize>,
}

/// No item has a port.
pub(crate) fn begin(
    alloc: Global,
    nodes: &NodeNet,
    machine: &Machine,
    limits: List<u32>,
) -> Result<Turns, Memory>
    requires machine { IsValid machine.now }
    requires limits { limits ≡ limits_of machine.now Nodes machine.now.logic }
    ensures ports { IfOk result (λ turns. turns.ports ≡ []) }
    ensures turned { IfOk result (λ turns. AreTurned nodes.now machine.now [] 0 turns.left turns.skips) }
{
    let skips = List::filled(alloc, 0, machine.logic as usize)?;
    Ok(Turns {
        ports: List::new(alloc),
        left: limits,
        skips,
    })
}

/// How many ports from `start` on, modulo their number, are full before the first that isn't. So many
/// as `skip` are known to be.
fn first_past(left: &[u32], start: usize, skip: usize) -> usize
    requires few { length left.now ≤ MAX_LOGIC }
    requires start { start < length left.now }
    requires skip { skip < length left.now }
    requires full { (e : ℕ) → e < skip → IsSpent left.now start e }
    requires some { 1 ≤ sum left.now }
    ensures within { result < length left.now }
    ensures first { IsLeastFree (IsSpent left.now start) result }
{
    let last = left.len() - 1;
    'ports: for past in skip..last {
        if 0 < left[(start + past) % left.len()] {
            return past;
        }
    }
    last
}

impl Turns {
    /// The port of the node or latch that is the next item.
    pub(crate) fn turn_port(&mut self, nodes: &NodeNet, machine: &Machine, n: u32) -> u32
        requires machine { IsValid machine.now }
        requires next { length self.old.ports ≡ nodes.now.first_node + n }
        requires before { AreTurned nodes.now machine.now self.old.ports n self.old.left self.old.skips }
        requires room { n < node_room machine.now }
        ensures ports { self.new.ports ≡ self.old.ports }
        ensures home { IsInTurn nodes.now machine.now (self.old.ports ++ result ∷ []) n }
        ensures turned { AreTurned nodes.now machine.now (self.old.ports ++ result ∷ []) (n + 1) self.new.left self.new.skips }
    {
        let start = (n % machine.logic) as usize;
        let skip = self.skips.as_slice()[start];
        let past = first_past(self.left.as_slice(), start, skip);
        self.skips.set(start, past);
        let port = (start + past) % machine.logic as usize;
        let left = self.left.as_slice()[port] - 1;
        self.left.set(port, left);
        port as u32
    }
}
