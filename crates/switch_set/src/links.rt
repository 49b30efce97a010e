//! What the ports send and receive, one item after another.

ghost use Rattle.std.specs.Prelude.{◌≡◌, ℕ, ◌<◌, IfOk, OnOk, Contains, length, slice_set};
ghost use Rattle.std.specs.List.Sorted.{IsStrictlyIncreasing};
ghost use Rattle.switch_set.specs.code.Links.{links_at, with_sending, with_receipt, AreUnlinked, Receives, Links};

use plan_defs::{PortLinks, Receipt, Sending};
use seen_list::{List, Memory};
use std::alloc::Global;

/// So many ports, which send and receive nothing.
pub(crate) fn unlinked(alloc: Global, count: usize) -> Result<List<PortLinks>, Memory>
    ensures { IfOk result (AreUnlinked count) }
{
    let mut ports = List::new(alloc);
    'ports: for _port in 0..count {
        ports.push(PortLinks {
            sends: List::new(alloc),
            receipts: List::new(alloc),
        })?;
    }
    Ok(ports)
}

/// In this slot the home sends its item to the readers. Without readers it sends nothing.
pub(crate) fn link(
    alloc: Global,
    ports: &mut List<PortLinks>,
    slot: u32,
    home: u32,
    readers: &[u32],
) -> Result<(), Memory>
    requires home { home < length ports.old }
    requires readers { (port : ℕ) → Contains readers.now port → port < length ports.old }
    requires once { IsStrictlyIncreasing readers.now }
    ensures { OnOk result (Links ports.old ports.new slot home readers.now) }
{
    if readers.is_empty() {
        return Ok(());
    }
    let sending = Sending {
        slot,
        readers: List::from_slice(alloc, readers)?,
    };
    push_sending(ports, home as usize, sending)?;
    push_receipts(ports, readers, Receipt { slot, sender: home })?;
    Ok(())
}

/// The port sends this too.
fn push_sending(ports: &mut List<PortLinks>, port: usize, sending: Sending) -> Result<(), Memory>
    requires { port < length ports.old }
    ensures { OnOk result (ports.new
        ≡ slice_set ports.old port (with_sending (links_at ports.old port) sending)) }
{
    let links = ports.as_mut_slice();
    links[port].sends.push(sending)?;
    Ok(())
}

/// Each of the readers receives this too.
fn push_receipts(
    ports: &mut List<PortLinks>,
    readers: &[u32],
    receipt: Receipt,
) -> Result<(), Memory>
    requires readers { (port : ℕ) → Contains readers.now port → port < length ports.old }
    requires once { IsStrictlyIncreasing readers.now }
    ensures { OnOk result (Receives ports.old ports.new (Contains readers.now) receipt) }
{
    'readers: for k in 0..readers.len() {
        push_receipt(ports, readers[k] as usize, receipt)?;
    }
    Ok(())
}

/// The port receives this too.
fn push_receipt(ports: &mut List<PortLinks>, port: usize, receipt: Receipt) -> Result<(), Memory>
    requires { port < length ports.old }
    ensures { OnOk result (ports.new
        ≡ slice_set ports.old port (with_receipt (links_at ports.old port) receipt)) }
{
    let links = ports.as_mut_slice();
    links[port].receipts.push(receipt)?;
    Ok(())
}
