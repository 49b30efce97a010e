//! What stands in a place of a row.

ghost use Rattle.std.specs.Prelude.{◌≡◌, ◌≢◌, ◌∷◌, [], ℕ, ◌<◌, Option, None};
ghost use Rattle.logic_four.specs.{declared.V4.V4, Values.settled, Gates.gate_value, Kinds.AllowsOperands};
ghost use Rattle.net_ops.specs.{Lanes.forced, Tables.table_value};

use crate::tables::{pair_table, table_value};
use logic_four::{Kind, V4, lone_kind, settle};

/// What stands in a place of a row, with a value in each of its lanes: a single `V4` is the value of its one lane.
pub trait Wire: Copy {
    /// The code of a gate of two operands.
    type Form: Copy;

    /// What the signals are stuck at, lane by lane.
    type Forces;

    // the number of lanes
    ghost lanes: { ℕ };

    // the value of a lane, counted from 0
    ghost lane: { Self → ℕ → V4 };

    // what the gate of this form answers for two values
    ghost answer: { Self.Form → V4 → V4 → V4 };

    // it is the form of a gate
    ghost is_form: { Self.Form → Type 0 };

    // they cover a signal
    ghost tells: { Self.Forces → ℕ → Type 0 };

    // what a lane's signal is stuck at, if it is
    ghost held: { Self.Forces → ℕ → ℕ → Option V4 };

    /// The value in each lane.
    fn of(v: V4) -> Self
        ensures { (l : ℕ) → l < lanes → lane result l ≡ v };

    /// Each lane settled.
    fn settled(self) -> Self
        ensures { (l : ℕ) → l < lanes → lane result l ≡ settled (lane self l) };

    /// The form of a gate of this kind.
    fn form(kind: Kind) -> Self::Form
        ensures made { is_form result }
        ensures answers { (a b : V4) → answer result a b ≡ gate_value kind (a ∷ b ∷ []) };

    /// The form of a gate of this kind that has one operand, which then stands twice.
    fn lone(kind: Kind) -> Self::Form
        requires { AllowsOperands kind 1 }
        ensures made { is_form result }
        ensures answers { (a : V4) → answer result a a ≡ gate_value kind (a ∷ []) };

    /// What the gate of this form answers in each lane.
    fn pair(form: Self::Form, a: Self, b: Self) -> Self
        requires { is_form form }
        ensures { (l : ℕ) → l < lanes → lane result l ≡ answer form (lane a l) (lane b l) };

    /// The value in each lane, or what the signal is stuck at there.
    fn forced(self, forces: &Self::Forces, signal: u32) -> Self
        requires { tells forces.now signal }
        ensures { (l : ℕ) → l < lanes → lane result l ≡ forced (held forces.now l signal) (lane self l) };

    /// The value of a lane.
    fn at(self, l: usize) -> V4
        requires { l < lanes }
        ensures { result ≡ lane self l };

    /// The same with another value in one lane.
    fn with(self, l: usize, v: V4) -> Self
        requires { l < lanes }
        ensures here { lane result l ≡ v }
        ensures others { (k : ℕ) → k < lanes → k ≢ l → lane result k ≡ lane self k };
}

impl Wire for V4 {
    /// The table of all sixteen answers.
    type Form = u32;

    /// Nothing is stuck.
    type Forces = ();

    ghost lanes = { 1 };

    ghost lane = { λ v l. v };

    ghost answer = { table_value };

    ghost is_form = { λ table. Unit {0} };

    ghost tells = { λ forces s. Unit {0} };

    ghost held = { λ forces l s. None };

    #[inline]
    fn of(v: V4) -> V4 {
        v
    }

    #[inline]
    fn settled(self) -> V4 {
        settle(self)
    }

    #[inline]
    fn form(kind: Kind) -> u32 {
        pair_table(kind)
    }

    #[inline]
    fn lone(kind: Kind) -> u32 {
        pair_table(lone_kind(kind))
    }

    #[inline]
    fn pair(table: u32, a: V4, b: V4) -> V4 {
        table_value(table, a, b)
    }

    #[inline]
    fn forced(self, _forces: &(), _signal: u32) -> V4 {
        self
    }

    #[inline]
    fn at(self, _l: usize) -> V4 {
        self
    }

    #[inline]
    fn with(self, _l: usize, v: V4) -> V4 {
        v
    }
}
