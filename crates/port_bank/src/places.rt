//! Places of two values each.

ghost use Rattle.std.specs.Prelude.{◌≡◌, ◌*◌, ◌^◌, ◌<◌, ◌≤◌, ℕ, set, IfOk, OnOk};
ghost use Rattle.limits.specs.declared.TheConstants.{MAX_SLOTS};
ghost use Rattle.logic_four.specs.Values.{value_at};
ghost use Rattle.port_bank.specs.{Places.number_of, Places.count, Places.in_lane, code.Places.numbered, code.Places.AddsTwice, code.Places.AreBlank};

use crate::word::Word;
use logic_four::V4;
use seen_list::{List, Memory};
use std::alloc::Global;
use std::marker::Model;

/// For each place a word of the turn and one of the turn before, side by side, so that both come into the
/// cache together and one look at the length serves both. A contract sees two lists a lane.
#[derive(Drop)]
pub(crate) struct Places<W> {
    /// The words of place `p` are at `2 * p` and after it.
    flat: List<W>,
    /// Whether those of the turn are the second ones.
    second: bool,
}

impl<W> Model for Places<W> {
    ghost use Rattle.port_bank.specs.{Places.Turns, code.Places.IsEven};

    ghost Value = { Turns W };

    ghost view = { λ a. record { flat = a.flat; second = a.second } };

    ghost invariant = { λ a. IsEven a.flat };
}

/// 1 for the second one of two words, and 0 for the first.
#[inline]
pub(crate) fn number_of(second: bool) -> u32
    ensures { result ≡ number_of second }
{
    second as u32
}

/// Adds a value twice.
fn add_twice<W: Word>(flat: &mut List<W>, v: V4) -> Result<(), Memory>
    ensures { OnOk result (AddsTwice W.lanes W.lane v flat.old flat.new) }
{
    let word = W::of(v);
    flat.push(word)?;
    flat.push(word)?;
    Ok(())
}

impl<W: Word> Places<W> {
    /// The places for so many slots: undefined values, and the constants at the end.
    pub(crate) fn new(alloc: Global, slots: u32) -> Result<Places<W>, Memory>
        requires { slots ≤ MAX_SLOTS }
        ensures { IfOk result (AreBlank W.lanes W.lane slots) }
    {
        let mut flat = List::filled(alloc, W::of(V4::Undef), 4 * slots as usize)?;
        add_twice(&mut flat, V4::Zero)?;
        add_twice(&mut flat, V4::One)?;
        add_twice(&mut flat, V4::Undef)?;
        add_twice(&mut flat, V4::HighZ)?;
        Ok(Places {
            flat,
            second: false,
        })
    }

    /// The word of this number, which is twice that of a place, and one more for the turn before.
    #[inline]
    pub(crate) fn value(&self, number: u32) -> W
        requires { number < 2 * count self.now }
        ensures { (l : ℕ) → l < W.lanes → W.lane result l ≡ numbered (in_lane W.lane l self.now) number }
    {
        self.flat.as_slice()[(number ^ number_of(self.second)) as usize]
    }

    /// The word of a place in the turn before.
    #[inline]
    pub(crate) fn past(&self, place: u32) -> W
        requires few { place < 2 ^ 31 }
        requires there { place < count self.now }
        ensures { (l : ℕ) → l < W.lanes → W.lane result l ≡ value_at (in_lane W.lane l self.now).past place }
    {
        self.value(2 * place + 1)
    }

    /// Gives a place its word of the turn.
    #[inline]
    pub(crate) fn set(&mut self, place: u32, v: W)
        requires { place < count self.old }
        ensures count { count self.new ≡ count self.old }
        ensures lanes { (l : ℕ) → l < W.lanes → in_lane W.lane l self.new
            ≡ record (in_lane W.lane l self.old) { this = set (in_lane W.lane l self.old).this place (W.lane v l) } }
    {
        self.flat
            .set(2 * place as usize + number_of(self.second) as usize, v);
    }

    /// Ends the turn: its words are those of the turn before, which are to be overwritten.
    #[inline]
    pub(crate) fn swap(&mut self)
        ensures count { count self.new ≡ count self.old }
        ensures lanes { (l : ℕ) → l < W.lanes → in_lane W.lane l self.new
            ≡ record { this = (in_lane W.lane l self.old).past; past = (in_lane W.lane l self.old).this } }
    {
        self.second = !self.second;
    }
}
