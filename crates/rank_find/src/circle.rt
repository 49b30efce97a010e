//! The loop at the end of a path.

ghost use Rattle.std.specs.Prelude.{◌≡◌, ◌+◌, ◌^◌, ◌<◌, ◌≤◌, length, slice_index, Contains, IfOk};
ghost use Rattle.rank_find.specs.code.Circle.{place_of_member, IsCircleOn, IsCircleAt, IsLeastPlace};

use seen_list::{List, Memory};
use std::alloc::Global;

/// The members of a path from the place of this gate on, against the path, begun with the least.
pub(crate) fn circle_at(alloc: Global, path: &[u32], gate: u32) -> Result<List<u32>, Memory>
    requires { Contains path.now gate }
    ensures { IfOk result (IsCircleAt path.now gate) }
{
    let from = place_on(path, gate);
    let least = least_place(path, from);
    circle(alloc, path, from, least)
}

fn place_on(path: &[u32], gate: u32) -> usize
    requires { Contains path.now gate }
    ensures within { result < length path.now }
    ensures found { slice_index path.now result ≡ gate }
{
    for (place, member) in path.iter().enumerate() {
        if *member == gate {
            return place;
        }
    }
    unreachable!()
}

fn least_place(path: &[u32], from: usize) -> usize
    requires { from < length path.now }
    ensures { IsLeastPlace path.now from result }
{
    let mut least = from;
    for place in from..path.len() {
        if path[place] < path[least] {
            least = place;
        }
    }
    least
}

fn circle(alloc: Global, path: &[u32], from: usize, least: usize) -> Result<List<u32>, Memory>
    requires { IsLeastPlace path.now from least }
    ensures { IfOk result (IsCircleOn path.now from least) }
{
    let mut members = List::new(alloc);
    for member in 0..path.len() - from {
        members.push(path[place_of(from, least, path.len(), member)])?;
    }
    Ok(members)
}

fn place_of(from: usize, least: usize, to: usize, member: usize) -> usize
    requires least { (from ≤ least) × (least < to) }
    requires member { from + member < to }
    requires short { to < 2 ^ 63 }
    ensures place { result ≡ place_of_member from least to member }
    ensures within { result < to }
{
    if from + member <= least {
        least - member
    } else {
        least + (to - from - member)
    }
}
