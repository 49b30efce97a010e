//! Single lanes, and planes made lane by lane.

ghost use Rattle.std.specs.Prelude.{◌≡◌, ◌≢◌, ◌<◌, ◌^◌, ℕ};
ghost use Rattle.std.specs.Int.{bit_at};
ghost use Rattle.limits.specs.declared.TheConstants.{LANES};
ghost use Rattle.lane_planes.specs.Lanes.{lane_of};

use crate::{ALL, Planes};
use limits::LANES;
use logic_four::{V4, code, decoded};

/// The value of a lane.
#[inline]
pub fn lane(p: Planes, k: u32) -> V4
    requires { k < LANES }
    ensures { result ≡ lane_of p k }
{
    decoded(((p.low >> k) & 1) as u64 + 2 * ((p.high >> k) & 1) as u64)
}

/// The word with another bit in a lane.
#[inline]
fn with_bit(word: u32, k: u32, bit: u32) -> u32
    requires lane { k < LANES }
    requires word { word < 2 ^ LANES }
    requires bit { bit < 2 }
    ensures small { result < 2 ^ LANES }
    ensures here { bit_at result k ≡ bit }
    ensures others { (j : ℕ) → j < LANES → j ≢ k → bit_at result j ≡ bit_at word j }
{
    (word & !(1 << k)) | (bit << k)
}

/// The planes with another value in a lane.
#[inline]
pub fn with_lane(p: Planes, k: u32, v: V4) -> Planes
    requires { k < LANES }
    ensures here { lane_of result k ≡ v }
    ensures others { (j : ℕ) → j < LANES → j ≢ k → lane_of result j ≡ lane_of p j }
{
    let code = code(v) as u32;
    Planes {
        low: with_bit(p.low, k, code % 2),
        high: with_bit(p.high, k, code / 2),
    }
}

/// The word whose every lane has this bit.
#[inline]
fn in_all(bit: u32) -> u32
    requires { bit < 2 }
    ensures small { result < 2 ^ LANES }
    ensures each { (k : ℕ) → k < LANES → bit_at result k ≡ bit }
{
    bit * ALL
}

/// The planes with this value in every lane.
#[inline]
pub fn in_all_lanes(v: V4) -> Planes
    ensures { (k : ℕ) → k < LANES → lane_of result k ≡ v }
{
    let code = code(v) as u32;
    Planes {
        low: in_all(code % 2),
        high: in_all(code / 2),
    }
}

/// The planes whose every lane `k` has the value that `f` gives for `k`.
pub fn in_each_lane<F: Fn(u32) -> V4 + Drop>(f: F) -> Planes
    requires { (k : ℕ) → k < LANES → F.pre f k }
    ensures { (k : ℕ) → k < LANES → F.post f k (lane_of result k) }
{
    let mut low = 0;
    let mut high = 0;
    'lanes: for k in 0..LANES as u32 {
        let code = code(f(k)) as u32;
        low = with_bit(low, k, code % 2);
        high = with_bit(high, k, code / 2);
    }
    Planes { low, high }
}
