//! What is made of netlists in the tests of what comes after reading.

ghost use Rattle.std.specs.Prelude.{IfSome};
ghost use Rattle.net_defs.specs.Valid.{IsValid, IsValidTiming};
ghost use Rattle.node_defs.specs.WellFormed.{IsWellFormed};

use bench_read::law::reads_as_valid;
use bench_read::{read_bench, read_last};
use net_defs::{Init, Mode, Netlist, Timing};
use node_defs::NodeNet;
use node_map::map_nodes;
use plan_defs::law::items_are_well_formed;
use rank_find::rank;
use std::alloc::Global;

/// Rank order, where registers hold 0 at first.
pub(crate) fn rank_order(alloc: Global) -> Timing
    ensures { IsValidTiming result }
{
    Timing::unlisted(alloc, Mode::Rank, 1, Init::Zero)
}

/// The timing of a word: `rank` order, `unit` delay with 9 turns a cycle, or mixed mode with 2, in which the gate of this
/// name is listed. None where there is no such gate or no memory.
pub(crate) fn timing_of(alloc: Global, word: &str, net: &Netlist) -> Option<Timing>
    requires { IsValid net.now }
    ensures { IfSome result IsValidTiming }
{
    if word == "rank" {
        return Some(rank_order(alloc));
    }
    if word == "unit" {
        return Some(Timing::unlisted(alloc, Mode::Unit, 9, Init::Undef));
    }
    if word.len() > 1_000_000 {
        return None;
    }
    let Ok(listed) = read_last(alloc, word.as_bytes(), net) else {
        return None;
    };
    Some(Timing::unlisted(alloc, Mode::Mixed, 2, Init::Undef).listing(listed))
}

/// None where a text is no netlist, or where there is no memory.
pub(crate) fn netlist_of(alloc: Global, text: &str) -> Option<Netlist>
    ensures { IfSome result IsValid }
{
    if text.len() > 1_000_000 {
        return None;
    }
    match read_bench(alloc, text.as_bytes()) {
        Ok(net) => {
            reads_as_valid(text.as_bytes(), &net);
            Some(net)
        }
        Err(_) => None,
    }
}

/// None where there is no order or no memory.
pub(crate) fn items_of(alloc: Global, net: &Netlist, timing: &Timing) -> Option<NodeNet>
    requires net { IsValid net.now }
    requires timing { IsValidTiming timing.now }
    ensures { IfSome result IsWellFormed }
{
    let Ok(ranks) = rank(alloc, net, timing) else {
        return None;
    };
    items_are_well_formed();
    let Ok(nodes) = map_nodes(alloc, net, &ranks, timing) else {
        return None;
    };
    Some(nodes)
}
