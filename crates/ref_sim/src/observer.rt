//! What looks at a simulation while it runs.

ghost use Rattle.std.specs.Prelude.{◌≡◌, ◌+◌, ◌++◌, ◌∷◌, [], length};
ghost use Rattle.net_defs.specs.Valid.{IsValid};

use net_defs::Netlist;

/// It looks at the values of all signals at the end of each cycle, one cycle after the other: single values, or those
/// of many lanes.
pub trait Observer<W> {
    ghost use Rattle.std.specs.Prelude.{Bool, List as Items, ℕ};
    ghost use Rattle.net_defs.specs.declared.netlist.Netlist.{Netlist};

    // in a run of the netlist it has looked at these rows, and it is ready for so many more
    ghost has_seen: { Self → Netlist → Items (Items W) → ℕ → Type 0 };

    // it wants to look at more
    ghost goes_on: { Self → Bool };

    // a number of it that no look changes
    ghost size: { Self → ℕ };

    /// Looks at the values at the end of a cycle, in signal order, and answers whether to go on.
    fn look(&mut self, net: &Netlist, row: &[W]) -> bool
        requires valid { IsValid net.now }
        requires row { length row.now ≡ length net.now.signals }
        requires ready { (seen : Items (Items W)) × (more : ℕ) × has_seen self.old net.now seen (more + 1) }
        ensures seen { (seen : Items (Items W)) (more : ℕ) → has_seen self.old net.now seen (more + 1)
            → has_seen self.new net.now (seen ++ row.now ∷ []) more }
        ensures goes_on { result ≡ goes_on self.new }
        ensures size { size self.new ≡ size self.old };
}
