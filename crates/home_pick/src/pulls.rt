//! What pulls a node to each logic port.

ghost use Rattle.std.specs.Prelude.{◌≡◌, ◌≢◌, ◌+◌, ◌++◌, ◌∷◌, ◌≤◌, ◌<◌, ◌==◌, if◌then◌else◌, [], ℕ, OnOk, length, slice_index, slice_set};
ghost use Rattle.std.specs.List.{filter, range_with_len};
ghost use Rattle.node_defs.specs.WellFormed.{IsWellFormed};
ghost use Rattle.plan_defs.specs.Homes.{AreHomes, home_of};
ghost use Rattle.home_pick.specs.code.Moves.{pull_at, pull_by, AreLowered, AreUsesWithout, first_most};
ghost use Rattle.home_pick.specs.code.Work.{hit, beside, room_in, Adds, AddsEvenly};
ghost use Rattle.home_pick.specs.{Bags.flag, code.Bags.times, code.Bags.IsBag, Crossings.uses_by, code.Spread.AreSpreadWithout, code.Uses.AreTakes};
ghost use Rattle.home_pick.specs.code.Touched.{is_better, AreTouched};

use crate::bags::{Entry, bag_of};
use node_defs::NodeNet;
use plan_defs::Homes;
use seen_list::{List, Memory};

/// What pulls a node to each logic port, but for what pulls it equally to all of them.
#[derive(Drop)]
pub(crate) struct Pulls {
    pub(crate) at: List<u32>,
    /// The ports to which anything does, and perhaps some more.
    pub(crate) touched: List<u32>,
}

/// Nothing pulls. Only ports that were touched are visited.
fn clear(pulls: &mut Pulls)
    requires { AreTouched pulls.old }
    ensures size { length pulls.new.at ≡ length pulls.old.at }
    ensures none { (port : ℕ) → port < length pulls.old.at → slice_index pulls.new.at port ≡ 0 }
    ensures touched { AreTouched pulls.new }
{
    'touched: while let Some(port) = pulls.touched.pop() {
        pulls.at.set(port as usize, 0);
    }
}

/// Puts a port among those that were touched, if nothing pulled to it.
fn note(touched: &mut List<u32>, port: u32, had: u32) -> Result<(), Memory>
    ensures { OnOk result (touched.new ≡ (if had == 0 then touched.old ++ port ∷ [] else touched.old)) }
{
    if had == 0 { touched.push(port) } else { Ok(()) }
}

/// Sets what pulls to a port to one more than it had.
fn touch(pulls: &mut Pulls, port: u32, had: u32) -> Result<(), Memory>
    requires touched { AreTouched pulls.old }
    requires within { port < length pulls.old.at }
    requires had { had ≤ slice_index pulls.old.at port }
    requires small { had < 4294967295 }
    ensures at { OnOk result (pulls.new.at ≡ slice_set pulls.old.at port (had + 1)) }
    ensures touched { OnOk result (AreTouched pulls.new) }
{
    note(&mut pulls.touched, port, had)?;
    pulls.at.set(port as usize, had + 1);
    Ok(())
}

/// Adds 1 at each port that an entry of the bag counts.
fn add_hits(pulls: &mut Pulls, bag: &[Entry]) -> Result<(), Memory>
    requires bag { IsBag bag.now }
    requires touched { AreTouched pulls.old }
    requires small { (port : ℕ) → port < length pulls.old.at → slice_index pulls.old.at port < 4294967295 }
    ensures adds { OnOk result (Adds pulls.old.at pulls.new.at (λ port. flag (times bag.now port))) }
    ensures touched { OnOk result (AreTouched pulls.new) }
{
    'entries: for k in 0..bag.len() {
        add_hit(pulls, bag[k])?;
    }
    Ok(())
}

/// Adds 1 at the port of an entry that counts at all.
fn add_hit(pulls: &mut Pulls, entry: Entry) -> Result<(), Memory>
    requires touched { AreTouched pulls.old }
    requires small { entry.count ≢ 0 → entry.key < length pulls.old.at → slice_index pulls.old.at entry.key < 4294967295 }
    ensures adds { OnOk result (Adds pulls.old.at pulls.new.at (λ port. hit port entry)) }
    ensures touched { OnOk result (AreTouched pulls.new) }
{
    let port = entry.key as usize;
    if entry.count > 0 && port < pulls.at.len() {
        let had = pulls.at.as_slice()[port];
        touch(pulls, entry.key, had)?;
    }
    Ok(())
}

/// Adds 1 at the home of an item, and at each port of the bag.
fn add_neighbour(pulls: &mut Pulls, bag: &[Entry], home: u32) -> Result<(), Memory>
    requires bag { IsBag bag.now }
    requires touched { AreTouched pulls.old }
    requires small { (port : ℕ) → port < length pulls.old.at → slice_index pulls.old.at port < 4294967295 }
    ensures adds { OnOk result (Adds pulls.old.at pulls.new.at (λ port. if home == port then 1 else flag (times bag.now port))) }
    ensures touched { OnOk result (AreTouched pulls.new) }
{
    let port = home as usize;
    if port < pulls.at.len() {
        let had = pulls.at.as_slice()[port];
        add_hits(pulls, bag)?;
        touch(pulls, home, had)?;
    } else {
        add_hits(pulls, bag)?;
    }
    Ok(())
}

/// Adds what an item that node v takes pulls it to each port. One that is used everywhere pulls equally
/// everywhere, and is passed over.
fn add_entry(
    pulls: &mut Pulls,
    nodes: &NodeNet,
    homes: &Homes,
    uses: &List<List<Entry>>,
    spread: &[bool],
    v: usize,
    entry: Entry,
) -> Result<(), Memory>
    requires nodes { IsWellFormed nodes.now }
    requires homes { AreHomes nodes.now homes.now }
    requires uses { AreUsesWithout nodes.now homes.now v uses.now }
    requires spread { AreSpreadWithout nodes.now homes.now v spread.now }
    requires count { uses_by nodes.now v entry.key ≡ entry.count }
    requires size { length pulls.old.at ≡ homes.now.logic }
    requires touched { AreTouched pulls.old }
    requires small { (port : ℕ) → port < length pulls.old.at → slice_index pulls.old.at port < 4294967295 }
    ensures adds { OnOk result (AddsEvenly pulls.old.at pulls.new.at (λ port. beside (pull_by nodes.now homes.now v port) v entry)) }
    ensures touched { OnOk result (AreTouched pulls.new) }
{
    let item = entry.key as usize;
    if entry.count > 0 && item != v && !spread[item] {
        add_neighbour(pulls, bag_of(uses, item), homes.items.as_slice()[item])?;
    }
    Ok(())
}

/// What pulls node v to each logic port.
pub(crate) fn weigh(
    pulls: &mut Pulls,
    nodes: &NodeNet,
    homes: &Homes,
    takes: &List<List<Entry>>,
    uses: &List<List<Entry>>,
    spread: &[bool],
    v: usize,
) -> Result<(), Memory>
    requires nodes { IsWellFormed nodes.now }
    requires homes { AreHomes nodes.now homes.now }
    requires takes { AreTakes nodes.now takes.now }
    requires uses { AreUsesWithout nodes.now homes.now v uses.now }
    requires spread { AreSpreadWithout nodes.now homes.now v spread.now }
    requires node { v < length nodes.now.items }
    requires size { length pulls.old.at ≡ homes.now.logic }
    requires touched { AreTouched pulls.old }
    ensures size { OnOk result (length pulls.new.at ≡ length pulls.old.at) }
    ensures weighed { OnOk result (AreLowered pulls.new.at (pull_at nodes.now homes.now v)) }
    ensures touched { OnOk result (AreTouched pulls.new) }
{
    clear(pulls);
    add_hits(pulls, bag_of(uses, v))?;
    let taken = bag_of(takes, v);
    'taken: for k in 0..taken.len() {
        add_entry(pulls, nodes, homes, uses, spread, v, taken[k])?;
    }
    Ok(())
}

/// The first port with the greatest pull, of its own and those with room. No other port than those that
/// were touched has more than its own.
pub(crate) fn strongest(pulls: &Pulls, loads: &[u32], most: &[u32], own: usize) -> usize
    requires touched { AreTouched pulls.now }
    requires loads { length loads.now ≡ length pulls.now.at }
    requires most { length most.now ≡ length pulls.now.at }
    requires own { own < length pulls.now.at }
    ensures first { result ≡ first_most (slice_index pulls.now.at) own
        (filter (room_in loads.now most.now) (range_with_len 0 (length pulls.now.at))) }
    ensures within { result < length pulls.now.at }
{
    let at = pulls.at.as_slice();
    let touched = pulls.touched.as_slice();
    let mut best = own;
    'touched: for k in 0..touched.len() {
        let port = touched[k] as usize;
        best = stronger(at, own, best, port, loads[port] < most[port]);
    }
    best
}

/// The third port, if it has room and is better than the second, and else the second.
fn stronger(at: &[u32], own: usize, best: usize, other: usize, room: bool) -> usize
    requires best { best < length at.now }
    requires other { other < length at.now }
    ensures first { result ≡ (if room then (if is_better at.now own best other then other else best) else best) }
    ensures within { result < length at.now }
{
    if room && beats(at, own, best, other) {
        other
    } else {
        best
    }
}

/// Whether a port has more than the best so far, or as much and is less, where the best isn't its own.
fn beats(at: &[u32], own: usize, best: usize, other: usize) -> bool
    requires best { best < length at.now }
    requires other { other < length at.now }
    ensures { result ≡ is_better at.now own best other }
{
    if at[best] == at[other] {
        best != own && other < best
    } else {
        at[best] < at[other]
    }
}
