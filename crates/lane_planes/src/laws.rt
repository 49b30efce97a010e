//! Laws of planes. None of these functions does anything.

ghost use Rattle.std.specs.Prelude.{◌≡◌};
ghost use Rattle.lane_planes.specs.{Lanes.AreAlike, Joins.JoinsOneByOne};

use crate::Planes;

/// A law: a gate's operands may be joined one after the other.
pub fn join_laws()
    ensures { JoinsOneByOne }
{}

/// A law: planes are their thirty values.
pub fn lanes_decide(p: Planes, q: Planes)
    ensures { AreAlike p q → p ≡ q }
{}
