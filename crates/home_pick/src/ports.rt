//! The limits of a machine's ports.

ghost use Rattle.std.specs.Prelude.{◌≡◌, ℕ, ◌<◌, ◌≤◌, IfOk, length, slice_index};
ghost use Rattle.std.specs.List.{sum};
ghost use Rattle.limits.specs.declared.TheConstants.{MAX_LOGIC, MAX_NODES};
ghost use Rattle.home_pick.specs.code.Rooms.{limits_of as limits_at};

use machine_text::{Limited, Machine};
use seen_list::{List, Memory};
use std::alloc::Global;

/// The limits that hold at so many ports, from port 0 on.
pub(crate) fn limits_of(
    alloc: Global,
    machine: &Machine,
    what: Limited,
    count: u32,
) -> Result<List<u32>, Memory>
    ensures { IfOk result (λ limits. limits ≡ limits_at machine.now what count) }
{
    let mut limits = List::new(alloc);
    'ports: for port in 0..count {
        limits.push(machine.limit_at(what, port))?;
    }
    Ok(limits)
}

/// The sum of the node limits of all logic ports.
pub(crate) fn total(limits: &[u32]) -> u32
    requires ports { length limits.now ≤ MAX_LOGIC }
    requires most { (p : ℕ) → p < length limits.now → slice_index limits.now p ≤ MAX_NODES }
    ensures { result ≡ sum limits.now }
{
    let mut total: u32 = 0;
    'ports: for p in 0..limits.len() {
        total += limits[p];
    }
    total
}
