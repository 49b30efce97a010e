//! The numbers of sends: each port's first among all sends, and for each receipt that of its sender's.

ghost use Rattle.std.specs.Prelude.{IfOk, length, ℕ, ◌+◌, ◌<◌};
ghost use Rattle.std.specs.List.Sorted.{IsStrictlyIncreasing};
ghost use Rattle.image_defs.specs.{Places.IsPort, Places.out_slots, WellFormed.IsLinkIn, WellFormed.IsWellFormed, declared.image.PortImage.PortImage};
ghost use Rattle.event_defs.specs.{Sources.AreFirsts, Sources.AreSources, Sources.IsSource, code.Sources.IsLinkAt};

use image_defs::{Image, LinkIn, LinkOut};
use seen_list::{List, Memory};
use std::alloc::Global;

/// How many sends come before each port, and last how many there are.
pub fn first_sends(alloc: Global, image: &Image) -> Result<List<u32>, Memory>
    requires { IsWellFormed image.now }
    ensures { IfOk result (AreFirsts image.now (length image.now.ports + 1)) }
{
    let ports = image.ports.as_slice();
    let mut firsts = List::new(alloc);
    let mut sends = 0;
    firsts.push(sends)?;
    'ports: for p in 0..ports.len() {
        sends += ports[p].outs.len() as u32;
        firsts.push(sends)?;
    }
    Ok(firsts)
}

/// The number of the link that stands in a slot.
fn link_at(outs: &[LinkOut], slot: u32) -> usize
    requires rising { IsStrictlyIncreasing (out_slots outs.now) }
    requires there { (i : ℕ) × IsLinkAt outs.now slot i }
    ensures { IsLinkAt outs.now slot result }
{
    let mut low = 0;
    let mut high = outs.len();
    'halves: while low + 1 < high {
        let middle = low + (high - low) / 2;
        if outs[middle].slot <= slot {
            low = middle;
        } else {
            high = middle;
        }
    }
    low
}

/// The number of the send that a receipt comes from.
pub fn source_of(image: &Image, firsts: &[u32], link: LinkIn) -> u32
    requires image { IsWellFormed image.now }
    requires firsts { AreFirsts image.now (length image.now.ports + 1) firsts.now }
    requires there { (p : ℕ) × IsLinkIn image.now p link }
    ensures { IsSource image.now link result }
{
    let sender = link.sender as usize;
    let send = link_at(image.ports.as_slice()[sender].outs.as_slice(), link.slot);
    firsts[sender] + send as u32
}

/// For each receipt of a port the number of the send that it comes from.
pub fn sources_of(
    alloc: Global,
    image: &Image,
    firsts: &[u32],
    p: usize,
) -> Result<List<u32>, Memory>
    requires image { IsWellFormed image.now }
    requires firsts { AreFirsts image.now (length image.now.ports + 1) firsts.now }
    requires there { p < length image.now.ports }
    ensures { IfOk result (λ sources. (port : PortImage) → IsPort image.now p port
        → AreSources image.now port.ins (length port.ins) sources) }
{
    let ins = image.ports.as_slice()[p].ins.as_slice();
    let mut sources = List::new(alloc);
    'ins: for j in 0..ins.len() {
        sources.push(source_of(image, firsts, ins[j]))?;
    }
    Ok(sources)
}
