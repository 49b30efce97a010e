//! The stops of a turn: where a port that runs through its slots sends, receives and ends.

ghost use Rattle.std.specs.Prelude.{◌≡◌, ◌+◌, ◌≤◌, map, length, slice_get, IfOk};
ghost use Rattle.std.specs.List.Sorted.{IsStrictlyIncreasing};
ghost use Rattle.limits.specs.declared.TheConstants.{MAX_SLOTS};
ghost use Rattle.image_defs.specs.Places.{in_slots, out_slots};
ghost use Rattle.port_walk.specs.Stops.{kind_at, slot_at, kind_of, slot_of, IsFront, AreStops};
ghost use Rattle.port_walk.specs.code.Stops.{AreAllBefore, ArePlaces};

use image_defs::{LinkIn, LinkOut};
use seen_list::{List, Memory};
use std::alloc::Global;

/// What a port does at a stop.
#[derive(Clone, Copy)]
pub enum StopKind {
    Send,
    Receive,
    End,
}

/// A stop: what the port does there, in which slot, and how many of its items stand in the slots up
/// to that one. The end of a turn has the number of slots for its slot.
#[derive(Clone, Copy)]
pub struct Stop {
    pub kind: StopKind,
    pub slot: u32,
    pub items: u32,
}

/// What comes first, where the port sends next in one slot and receives next in the other.
fn kind_of(out: Option<u32>, receipt: Option<u32>) -> StopKind
    ensures { result ≡ kind_of out receipt }
{
    match (out, receipt) {
        (Some(out), Some(receipt)) => {
            if out <= receipt {
                StopKind::Send
            } else {
                StopKind::Receive
            }
        }
        (Some(_), None) => StopKind::Send,
        (None, Some(_)) => StopKind::Receive,
        (None, None) => StopKind::End,
    }
}

/// The slot of what comes first. It is the number of slots where nothing comes.
fn slot_of(slots: u32, out: Option<u32>, receipt: Option<u32>) -> u32
    ensures { result ≡ slot_of slots out receipt }
{
    match (out, receipt) {
        (Some(out), Some(receipt)) => { if out <= receipt { out } else { receipt } }
        (Some(out), None) => out,
        (None, Some(receipt)) => receipt,
        (None, None) => slots,
    }
}

/// The slot of a send.
fn out_at(outs: &[LinkOut], sent: usize) -> Option<u32>
    ensures { result ≡ slice_get (out_slots outs.now) sent }
{
    match outs.get(sent) {
        Some(link) => Some(link.slot),
        None => None,
    }
}

/// The slot of a receipt.
fn in_at(ins: &[LinkIn], took: usize) -> Option<u32>
    ensures { result ≡ slice_get (in_slots ins.now) took }
{
    match ins.get(took) {
        Some(link) => Some(link.slot),
        None => None,
    }
}

/// The number of slots up to this one, of which the first `from` are such.
fn count_through(slots: &[u32], from: u32, slot: u32) -> usize
    requires rising { IsStrictlyIncreasing slots.now }
    requires from { AreAllBefore slots.now (slot + 1) from }
    ensures { IsFront slots.now (slot + 1) result }
{
    'rest: for i in from as usize..slots.len() {
        if slot < slots[i] {
            return i;
        }
    }
    slots.len()
}

/// The stop at which the port has sent and received so often, where the first `from` items stand
/// in the slots up to it.
fn stop_at(slots: u32, items: &[u32], from: u32, out: Option<u32>, receipt: Option<u32>) -> Stop
    requires few { slots ≤ MAX_SLOTS }
    requires items { ArePlaces slots items.now }
    requires from { AreAllBefore items.now (slot_of slots out receipt + 1) from }
    ensures kind { result.kind ≡ kind_of out receipt }
    ensures slot { result.slot ≡ slot_of slots out receipt }
    ensures front { IsFront items.now (result.slot + 1) result.items }
{
    let slot = slot_of(slots, out, receipt);
    Stop {
        kind: kind_of(out, receipt),
        slot,
        items: count_through(items, from, slot) as u32,
    }
}

/// The stops of a turn, where the port's items stand in these slots.
pub fn stops_of(
    alloc: Global,
    slots: u32,
    items: &[u32],
    outs: &[LinkOut],
    ins: &[LinkIn],
) -> Result<List<Stop>, Memory>
    requires few { slots ≤ MAX_SLOTS }
    requires items { ArePlaces slots items.now }
    requires outs { ArePlaces slots (out_slots outs.now) }
    requires ins { ArePlaces slots (in_slots ins.now) }
    ensures { IfOk result (AreStops (out_slots outs.now) (in_slots ins.now) slots items.now) }
{
    let mut stops = List::new(alloc);
    let mut sent = 0;
    let mut took = 0;
    let mut from = 0;
    'stops: loop {
        let stop = stop_at(slots, items, from, out_at(outs, sent), in_at(ins, took));
        stops.push(stop)?;
        from = stop.items;
        match stop.kind {
            StopKind::Send => sent += 1,
            StopKind::Receive => took += 1,
            StopKind::End => break,
        }
    }
    Ok(stops)
}
