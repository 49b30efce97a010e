//! Words whose lanes are looked at and filled one by one.

ghost use Rattle.std.specs.Prelude.{◌≡◌, ◌≢◌, ◌<◌, ℕ, length, set};
ghost use Rattle.limits.specs.declared.TheConstants.{LANES};
ghost use Rattle.port_array.specs.code.Rows.{lane_row};
ghost use Rattle.port_bank.specs.Places.{lane_values};

use lane_planes::{Planes, lane, with_lane};
use limits::LANES;
use logic_four::V4;
use port_bank::Word;
use seen_list::List;

/// A word of which a memory takes and gives the lanes one by one.
pub trait Laned: Word {
    /// The number of lanes.
    fn count() -> u32
        ensures { result ≡ Self.lanes };

    /// The value of a lane.
    fn at(self, k: u32) -> V4
        requires { k < Self.lanes }
        ensures { result ≡ Self.lane self k };

    /// Gives a lane of a row of words these values, one a word. They may be other values afterwards.
    fn put_row(row: &mut List<Self>, k: u32, values: &mut List<V4>)
        requires lane { k < Self.lanes }
        requires long { length row.old ≡ length values.old }
        ensures here { lane_values Self.lane k row.new ≡ values.old }
        ensures others { (l : ℕ) → l < Self.lanes → l ≢ k → lane_values Self.lane l row.new ≡ lane_values Self.lane l row.old }
        ensures long { length row.new ≡ length row.old }
        ensures room { length values.new ≡ length values.old };
}

impl Laned for V4 {
    #[inline]
    fn count() -> u32 {
        1
    }

    #[inline]
    fn at(self, _k: u32) -> V4 {
        self
    }

    /// The values become the row, and no value is copied.
    #[inline]
    fn put_row(row: &mut List<V4>, _k: u32, values: &mut List<V4>) {
        std::mem::swap(row, values);
    }
}

impl Laned for Planes {
    #[inline]
    fn count() -> u32 {
        LANES as u32
    }

    #[inline]
    fn at(self, k: u32) -> V4 {
        lane(self, k)
    }

    #[inline]
    fn put_row(row: &mut List<Planes>, k: u32, values: &mut List<V4>) {
        put_values(row, k, values.as_slice());
    }
}

/// Puts a value into a lane of the planes in a place.
fn put_value(planes: &mut List<Planes>, i: usize, k: u32, v: V4)
    requires lane { k < LANES }
    requires within { i < length planes.old }
    ensures here { lane_row k planes.new ≡ set (lane_row k planes.old) i v }
    ensures others { (l : ℕ) → l < LANES → l ≢ k → lane_row l planes.new ≡ lane_row l planes.old }
    ensures long { length planes.new ≡ length planes.old }
{
    let changed = with_lane(planes.as_slice()[i], k, v);
    planes.set(i, changed);
}

/// Puts values into a lane, one into the planes of each place.
fn put_values(planes: &mut List<Planes>, k: u32, values: &[V4])
    requires lane { k < LANES }
    requires long { length planes.old ≡ length values.now }
    ensures here { lane_row k planes.new ≡ values.now }
    ensures others { (l : ℕ) → l < LANES → l ≢ k → lane_row l planes.new ≡ lane_row l planes.old }
    ensures long { length planes.new ≡ length planes.old }
{
    'places: for i in 0..values.len() {
        put_value(planes, i, k, values[i]);
    }
}
