//! The rows that the host has done.

ghost use Rattle.std.specs.Prelude.{length, ◌<◌, ◌≡◌, ◌≤◌};
ghost use Rattle.order_run.specs.code.CorePorts.{AtCorePort, IsHostCorePort, IsRowOf, host_rows};

use crate::core_ports::CorePort;
use logic_four::V4;

/// The number of rows that the host at this core_port has done.
pub(crate) fn rows_done(core_ports: &[CorePort], p: usize) -> u32
    requires there { p < length core_ports.now }
    requires host { AtCorePort core_ports.now p IsHostCorePort }
    ensures { AtCorePort core_ports.now p (λ core_port. result ≡ host_rows core_port) }
{
    match core_ports[p].port.host() {
        Some(host) => host.rows_done(),
        None => unreachable!(),
    }
}

/// The row of a cycle that the host at this core_port has done. It has given up none.
pub(crate) fn cells<'b>(core_ports: &'b [CorePort], p: usize, cycle: u32) -> &'b [V4]
    requires there { p < length core_ports.now }
    requires host { AtCorePort core_ports.now p IsHostCorePort }
    requires all { AtCorePort core_ports.now p (λ core_port. core_port.port.first_row ≡ 0) }
    requires some { 1 ≤ cycle }
    requires done { AtCorePort core_ports.now p (λ core_port. cycle ≤ host_rows core_port) }
    ensures { AtCorePort core_ports.now p (λ core_port. IsRowOf core_port cycle result.now) }
{
    match core_ports[p].port.host() {
        Some(host) => host.cells(cycle),
        None => unreachable!(),
    }
}
