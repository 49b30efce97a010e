//! Where the words of a port's sends and receipts stand.

ghost use Rattle.std.specs.Prelude.{IfOk, length, ℕ, ◌%◌, ◌*◌, ◌+◌, ◌<◌, ◌^◌, ◌≡◌, ◌≤◌};
ghost use Rattle.limits.specs.declared.TheConstants.{MAX_BANKS, MAX_PORTS};
ghost use Rattle.image_defs.specs.WellFormed.{IsWellFormed};
ghost use Rattle.event_defs.specs.Sources.{AreFirsts};
ghost use Rattle.slot_words.specs.Links.{AreReceiptLinksOf, AreSendLinksOf, HasSlot};

use event_defs::source_of;
use image_defs::Image;
use seen_list::{List, Memory};
use std::alloc::Global;

/// A slot in which a port sends or receives, and the word of bank 0 of what is sent there.
#[derive(Clone, Copy)]
pub struct Link {
    pub slot: u32,
    pub word: u32,
}

/// The number of the link of a slot. Slots come mostly in their order, so the link of the hint is tried
/// before the others. A hint may be any number.
#[inline]
pub fn find(links: &[Link], hint: usize, slot: u32) -> usize
    requires { (k : ℕ) × HasSlot links.now slot k }
    ensures { HasSlot links.now slot result }
{
    if hint < links.len() && links[hint].slot == slot {
        hint
    } else {
        search(links, slot)
    }
}

/// The hint for the next receipt after one that passed, or has to be tried again.
#[inline]
pub fn next_hint(k: usize, passed: bool) -> usize {
    if passed { k.saturating_add(1) } else { k }
}

/// The number of the link of a slot, by a search from the first.
fn search(links: &[Link], slot: u32) -> usize
    requires { (k : ℕ) × HasSlot links.now slot k }
    ensures { HasSlot links.now slot result }
{
    'links: for k in 0..links.len() {
        if links[k].slot == slot {
            return k;
        }
    }
    unreachable!()
}

/// The word of a turn's bank, by the word of bank 0.
#[inline]
pub fn word_in_turn(word: u32, turn: u64, banks: u32) -> usize
    requires some { 1 ≤ banks }
    ensures { result ≡ word + turn % banks }
{
    if banks == 1 {
        word as usize
    } else {
        word as usize + (turn % banks as u64) as usize
    }
}

/// The word of bank 0 of a send, by its number among all sends.
fn word_of(ports: usize, send: u32, banks: u32) -> u32
    requires ports { ports ≤ MAX_PORTS }
    requires send { send < 2 ^ 25 }
    requires banks { banks ≤ MAX_BANKS }
    ensures { result ≡ ports + send * banks }
{
    ports as u32 + send * banks
}

/// For each send of a port its slot and word.
pub fn send_links(
    alloc: Global,
    image: &Image,
    firsts: &[u32],
    banks: u32,
    p: usize,
) -> Result<List<Link>, Memory>
    requires image { IsWellFormed image.now }
    requires firsts { AreFirsts image.now (length image.now.ports + 1) firsts.now }
    requires banks { banks ≤ MAX_BANKS }
    requires there { p < length image.now.ports }
    ensures { IfOk result (AreSendLinksOf image.now banks p) }
{
    let ports = image.ports.as_slice();
    let outs = ports[p].outs.as_slice();
    let first = firsts[p];
    let mut links = List::new(alloc);
    'outs: for i in 0..outs.len() {
        links.push(Link {
            slot: outs[i].slot,
            word: word_of(ports.len(), first + i as u32, banks),
        })?;
    }
    Ok(links)
}

/// For each receipt of a port its slot, and the word of the send that it comes from.
pub fn receipt_links(
    alloc: Global,
    image: &Image,
    firsts: &[u32],
    banks: u32,
    p: usize,
) -> Result<List<Link>, Memory>
    requires image { IsWellFormed image.now }
    requires firsts { AreFirsts image.now (length image.now.ports + 1) firsts.now }
    requires banks { banks ≤ MAX_BANKS }
    requires there { p < length image.now.ports }
    ensures { IfOk result (AreReceiptLinksOf image.now banks p) }
{
    let ports = image.ports.as_slice();
    let ins = ports[p].ins.as_slice();
    let mut links = List::new(alloc);
    'ins: for j in 0..ins.len() {
        links.push(Link {
            slot: ins[j].slot,
            word: word_of(ports.len(), source_of(image, firsts, ins[j]), banks),
        })?;
    }
    Ok(links)
}
