//! Words: the turn and the code of a value, and where a word stands.

ghost use Rattle.std.specs.Prelude.{IsTrue, ℕ, ◌%◌, ◌*◌, ◌+◌, ◌-◌, ◌<◌, ◌^◌, ◌↔◌, ◌≡◌, ◌≤◌};
ghost use Rattle.logic_four.specs.Values.{code_of};
ghost use Rattle.event_defs.specs.{Row.word_place, Steps.stamp_of};

use logic_four::{V4, code};

/// The word of a value at a turn.
pub(crate) fn word_of(turn: u64, value: V4) -> u64
    requires { turn < 2 ^ 60 }
    ensures { result ≡ 4 * turn + code_of value }
{
    4 * turn + code(value)
}

/// Whether a word is of this turn.
pub(crate) fn is_of(word: u64, turn: u64) -> bool
    ensures { IsTrue result ↔ (stamp_of word ≡ turn) }
{
    word / 4 == turn
}

/// The place of a bank's word, by the number of its send among all sends.
pub(crate) fn place_of(send: usize, bank: u32, banks: u32) -> usize
    requires { word_place banks send bank < 2 ^ 64 }
    ensures { result ≡ word_place banks send bank }
{
    send * banks as usize + bank as usize
}

/// The bank after this one.
pub(crate) fn next_bank(bank: u32, banks: u32) -> u32
    requires { bank < banks }
    ensures { (turn : ℕ) → bank ≡ turn % banks → result ≡ (turn + 1) % banks }
{
    let next = bank + 1;
    if next == banks { 0 } else { next }
}

/// The bank of turn 1.
pub(crate) fn first_bank(banks: u32) -> u32
    requires { 1 ≤ banks }
    ensures { result ≡ 1 % banks }
{
    next_bank(0, banks)
}

/// Whether a reader that has finished so many turns is too far behind for a Put at this turn.
pub(crate) fn lags(finished: u64, turn: u64, banks: u32) -> bool
    ensures { IsTrue result ↔ (finished < turn - banks) }
{
    finished < turn.saturating_sub(banks as u64)
}
