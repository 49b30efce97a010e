//! Numbers in lists that rise.

ghost use Rattle.std.specs.Prelude.{◌≡◌, ◌↔◌, IsTrue, MatchOption, Some, slice_get};
ghost use Rattle.std.specs.List.Sorted.{IsStrictlyIncreasing};
ghost use Rattle.image_defs.specs.Places.{Stands, in_slots, sender_in};

use image_defs::LinkIn;

/// Whether each number is greater than the one before it.
pub(crate) fn rises(numbers: &[u32]) -> bool
    ensures { IsTrue result ↔ IsStrictlyIncreasing numbers.now }
{
    'numbers: for k in 1..numbers.len() {
        if numbers[k] <= numbers[k - 1] {
            return false;
        }
    }
    true
}

/// The place of a number in a list that rises.
pub(crate) fn place_of(numbers: &[u32], number: u32) -> Option<usize>
    requires { IsStrictlyIncreasing numbers.now }
    ensures { MatchOption result (Stands numbers.now number → ⊥) (λ i. slice_get numbers.now i ≡ Some number) }
{
    match numbers.binary_search(&number) {
        Ok(place) => Some(place),
        Err(_) => None,
    }
}

/// Whether a number stands in a list that rises.
pub(crate) fn stands(numbers: &[u32], number: u32) -> bool
    requires { IsStrictlyIncreasing numbers.now }
    ensures { IsTrue result ↔ Stands numbers.now number }
{
    place_of(numbers, number).is_some()
}

/// The sender of what a port receives in a slot, by the port's links and their slots, which rise; 0
/// where it receives nothing.
pub(crate) fn sender_of(links: &[LinkIn], slots: &[u32], slot: u32) -> u32
    requires slots { slots.now ≡ in_slots links.now }
    requires rising { IsStrictlyIncreasing slots.now }
    ensures { result ≡ sender_in links.now slot }
{
    match place_of(slots, slot) {
        Some(place) => links[place].sender,
        None => 0,
    }
}
