//! `fault_group` with ample memory, against the list that `fault` prints of the same rows.

ghost use Rattle.std.specs.Prelude.{All, IfOk, length, ◌+◌, ◌/◌, ◌<◌, ◌≡◌, ◌≤◌, ◌⊎◌};
ghost use Rattle.limits.specs.declared.TheConstants.{LANES};
ghost use Rattle.logic_four.specs.declared.V4.TheVariants.{One, Zero};
ghost use Rattle.net_defs.specs.Valid.{IsValid};
ghost use Rattle.fault_sim.specs.Faults.{IsFault};

use super::items::{netlist_of, rank_order};
use super::wanted::Wanted;
use crate::tests::C17;
use fault_sim::{Fault, Verdict, fault_group};
use logic_four::V4;
use net_defs::{Netlist, Ranks, Stimulus};
use rank_find::rank;
use seen_list::{List, Memory};
use std::alloc::Global;
use stim_text::read_stim;

/// As many faults as have a lane beside that of the good design.
const MOST: usize = limits::LANES - 1;

/// Rows of c17.
const ROWS: &[u8] = b"11111\n00000\n01010\n";

/// Where the faults of `mixed_faults` are first seen: the cycle and the column, or nowhere.
const SEEN: &str =
    "1.0 3.0 2.0 3.0 3.1 2.0 - 1.1 1.0 - 1.1 1.0 1.1 1.1 1.1 2.1 1.1 2.0 3.0 - 3.0 - 1.0 3.0 2.0 3.0 3.1 2.0 -";

/// A fault of c17 by its number among the 22, that of a signal stuck at 0 before that of the same signal stuck at 1.
fn fault_of(number: u32) -> Fault
    ensures signal { result.signal ≡ number / 2 }
    ensures value { (result.value ≡ Zero) ⊎ (result.value ≡ One) }
{
    Fault {
        signal: number / 2,
        value: if number % 2 == 0 { V4::Zero } else { V4::One },
    }
}

/// So many faults of c17 in mixed order: each is the fifth after the one before it, and past the 22 some come twice.
fn mixed_faults(alloc: Global, net: &Netlist, count: usize) -> Result<List<Fault>, Memory>
    requires enough { 11 ≤ length net.now.signals }
    requires few { count < LANES }
    ensures few { IfOk result (λ faults. length faults < LANES) }
    ensures faults { IfOk result (All (IsFault net.now)) }
{
    let mut faults = List::new(alloc);
    'faults: for k in 0..count {
        faults.push(fault_of(5 * k as u32 % 22))?;
    }
    Ok(faults)
}

/// Tells the verdicts, with a blank before each but the first.
fn tell_verdicts(wanted: &mut Wanted<'_>, verdicts: &[Verdict]) {
    let mut blank: &[u8] = b"";
    for verdict in verdicts {
        wanted.tell(blank);
        match verdict {
            Verdict::Seen { cycle, column } => {
                wanted.tell_number(*cycle);
                wanted.tell(b".");
                wanted.tell_number(*column);
            }
            Verdict::Unseen => wanted.tell(b"-"),
        }
        blank = b" ";
    }
}

/// The verdicts on so many faults.
fn verdicts(alloc: Global, net: &Netlist, count: usize) -> Option<List<Verdict>>
    requires valid { IsValid net.now }
    requires few { count < LANES }
{
    if net.signals.len() < 11 {
        return None;
    }
    let timing = rank_order(alloc);
    let Ok(ranks) = rank(alloc, net, &timing) else {
        return None;
    };
    let Ok(stimulus) = read_stim(alloc, ROWS, net.inputs()) else {
        return None;
    };
    let Ok(faults) = mixed_faults(alloc, net, count) else {
        return None;
    };
    fault_group(alloc, net, &ranks, &timing, &stimulus, faults.as_slice()).ok()
}

/// Whether so many faults of c17 are seen there.
fn are_seen(alloc: Global, count: usize, seen: &str) -> bool
    requires { count < LANES }
{
    let mut wanted = Wanted::new(seen);
    let Some(net) = netlist_of(alloc, C17) else {
        return false;
    };
    let found = verdicts(alloc, &net, count);
    drop(net);
    match found {
        Some(list) => {
            tell_verdicts(&mut wanted, list.as_slice());
            drop(list);
            wanted.is_told()
        }
        None => false,
    }
}

#[test]
fn groups_have_these_verdicts(rt: HostRuntime) {
    assert!(rt; are_seen(rt.alloc(), MOST, SEEN));
    assert!(rt; are_seen(rt.alloc(), 0, ""));
}
