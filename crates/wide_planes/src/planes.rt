//! The values of all lanes side by side.

ghost use Rattle.std.specs.Prelude.{◌≡◌, length};

use std::simd::u32x8;

/// A bit for each of the 256 lanes: that of lane `k` is bit `k % 32` of word `k / 32`.
#[derive(Clone, Copy)]
pub struct Words {
    pub words: u32x8,
    pub ghost long: { length words ≡ 8 },
}

/// Values side by side, one a lane. Lane `k` of the 256 lanes, counted from 0, has the code whose lower bit is bit `k`
/// of `low`, and whose upper bit is bit `k` of `high`.
#[derive(Clone, Copy)]
pub struct Wide {
    pub low: Words,
    pub high: Words,
}
