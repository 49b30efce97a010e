//! The first place and the first column that don't match.

ghost use Rattle.std.specs.Prelude.{◌≡◌, ◌<◌, ◌≤◌, ℕ, MatchOption, length};
ghost use Rattle.limits.specs.declared.TheConstants.{MAX_PORTS};
ghost use Rattle.image_defs.specs.Claimed.{lists_of, HasClaims, PlaceMatches, ColumnMatches, IsFirstPlace, IsFirstColumn};
ghost use Rattle.image_defs.specs.{Places.IsPort, Places.item_slots, Matches.claims_of};
ghost use Rattle.image_check.specs.code.Differences.{AllAsClaimed, IsFirstOther, IsFirstSlot, PrintsAt, IsFirstUnprinted, PrintsAsMany};
ghost use Rattle.image_check.specs.code.OnePorts.{IsOnePort, AreLaidOut};

use crate::claims::{OnePort, carries_item};
use crate::memories::pair_at;
use crate::nodes::is_as_claimed;
use crate::shapes::Shape;
use crate::timing::printed_sources;
use image_defs::{ImageFile, Source};
use node_defs::{NodeNet, Tag};

/// A place of an image: an item of a port, by its slot.
#[derive(Clone, Copy)]
pub(crate) struct Place {
    pub(crate) port: u32,
    pub(crate) slot: u32,
}

/// The first place that doesn't match, by ports and then by slots.
pub(crate) fn first_place(file: &ImageFile, shapes: &[Shape], nodes: &NodeNet) -> Option<Place>
    requires laid { AreLaidOut file.now.image shapes.now }
    requires claims { HasClaims file.now }
    requires few { length file.now.image.ports ≤ MAX_PORTS }
    ensures { MatchOption result ((p slot : ℕ) → PlaceMatches file.now.image (lists_of file.now.claims) nodes.now p slot)
        (λ place. IsFirstPlace file.now.image (lists_of file.now.claims) nodes.now place.port place.slot) }
{
    'ports: for p in 0..shapes.len() {
        let found = first_in_port(file, shapes, nodes, p as u32);
        if let Some(slot) = found {
            return Some(Place {
                port: p as u32,
                slot,
            });
        }
    }
    None
}

fn first_in_port(file: &ImageFile, shapes: &[Shape], nodes: &NodeNet, p: u32) -> Option<u32>
    requires laid { AreLaidOut file.now.image shapes.now }
    requires claims { HasClaims file.now }
    requires within { p < length shapes.now }
    ensures { MatchOption result ((slot : ℕ) → PlaceMatches file.now.image (lists_of file.now.claims) nodes.now p slot)
        (IsFirstSlot file.now.image (lists_of file.now.claims) nodes.now p) }
{
    let port = &file.image.ports.as_slice()[p as usize];
    let one = OnePort {
        file,
        shapes,
        number: p,
        port,
    };
    let claims = &file.claims.ports.as_slice()[p as usize];
    let shape = &shapes[p as usize];
    first_slot(&one, nodes, claims.items.as_slice(), shape.items.as_slice())
}

fn first_slot(one: &OnePort, nodes: &NodeNet, claims: &[u32], slots: &[u32]) -> Option<u32>
    requires one { IsOnePort one.now }
    requires claims { claims.now ≡ claims_of (lists_of one.now.file.now.claims) one.now.number }
    requires slots { slots.now ≡ item_slots one.now.port.now.work }
    requires as_many { length claims.now ≡ length slots.now }
    ensures { MatchOption result
        ((slot : ℕ) → PlaceMatches one.now.file.now.image (lists_of one.now.file.now.claims) nodes.now one.now.number slot)
        (IsFirstSlot one.now.file.now.image (lists_of one.now.file.now.claims) nodes.now one.now.number) }
{
    match first_other(one, nodes, claims) {
        Some(place) => Some(slots[place]),
        None => None,
    }
}

/// The first item of the port that isn't as it claims.
fn first_other(one: &OnePort, nodes: &NodeNet, claims: &[u32]) -> Option<usize>
    requires { IsOnePort one.now }
    ensures { MatchOption result (AllAsClaimed one.now nodes.now claims.now) (IsFirstOther one.now nodes.now claims.now) }
{
    let mut known = None;
    'places: for k in 0..claims.len() {
        if !is_as_claimed(one, nodes, k, claims[k], known) {
            return Some(k);
        }
        known = pair_at(one, nodes, k, claims[k]);
    }
    None
}

/// The first column that doesn't match.
pub(crate) fn first_column(file: &ImageFile, shapes: &[Shape], nodes: &NodeNet) -> Option<usize>
    requires laid { AreLaidOut file.now.image shapes.now }
    requires some { 1 ≤ length file.now.image.ports }
    requires few { length file.now.image.ports ≤ MAX_PORTS }
    requires printed { PrintsAsMany file.now.image (length nodes.now.printed) }
    ensures { MatchOption result ((j : ℕ) → ColumnMatches file.now.image (lists_of file.now.claims) nodes.now j)
        (IsFirstColumn file.now.image (lists_of file.now.claims) nodes.now) }
{
    let ports = file.image.ports.as_slice();
    let port = &ports[ports.len() - 1];
    let one = OnePort {
        file,
        shapes,
        number: (ports.len() - 1) as u32,
        port,
    };
    let printed = printed_sources(&port.work);
    first_unprinted(&one, printed, nodes.printed.as_slice())
}

/// The first of the printed sources that doesn't carry the item.
fn first_unprinted(one: &OnePort, printed: &[Source], items: &[u32]) -> Option<usize>
    requires one { IsOnePort one.now }
    requires as_many { length printed.now ≡ length items.now }
    ensures { MatchOption result ((j : ℕ) → PrintsAt one.now printed.now items.now j) (IsFirstUnprinted one.now printed.now items.now) }
{
    'columns: for j in 0..items.len() {
        if !carries_item(one, &printed[j], items[j], Tag::This) {
            return Some(j);
        }
    }
    None
}
