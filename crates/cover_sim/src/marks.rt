//! Marks, and what a cycle adds to them.

ghost use Rattle.std.specs.Prelude.{◌≡◌};
ghost use Rattle.cover_sim.specs.code.Watching.{is_one, is_zero, marks_after};

use logic_four::V4;

/// What a signal did at the ends of the cycles of a simulation.
#[derive(Clone, Copy)]
pub struct Marks {
    /// It was 0 at the end of some cycle.
    pub zero: bool,
    /// It was 1 at the end of some cycle.
    pub one: bool,
    /// It went from 0 at the end of some cycle to 1 at the end of the next.
    pub rise: bool,
    /// It went from 1 at the end of some cycle to 0 at the end of the next.
    pub fall: bool,
}

/// The marks after a cycle more, by the value at the end of the last cycle and that at its own end.
pub(crate) fn marks_after(marks: Marks, last: V4, now: V4) -> Marks
    ensures { result ≡ marks_after marks last now }
{
    Marks {
        zero: marks.zero | is_zero(now),
        one: marks.one | is_one(now),
        rise: marks.rise | (is_zero(last) & is_one(now)),
        fall: marks.fall | (is_one(last) & is_zero(now)),
    }
}

fn is_zero(value: V4) -> bool
    ensures { result ≡ is_zero value }
{
    matches!(value, V4::Zero)
}

fn is_one(value: V4) -> bool
    ensures { result ≡ is_one value }
{
    matches!(value, V4::One)
}
