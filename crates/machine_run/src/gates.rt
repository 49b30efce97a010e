//! Gates for a run.

ghost use Rattle.std.specs.Prelude.{IfOk, Option, Some, length, slice_get, ℕ, ◌≡◌};
ghost use Rattle.crew_run.specs.{Crews.CanTell, declared.count_gate.CountGate.CountGate};
ghost use Rattle.machine_run.specs.Gates.{IsNew};

use crew_run::{CountGate, Gate};
use seen_list::{List, Memory};
use std::alloc::Global;

/// So many gates that only count, each told nothing so far.
pub fn count_gates(alloc: Global, count: usize) -> Result<List<Option<CountGate>>, Memory>
    ensures count { IfOk result (λ gates. length gates ≡ count) }
    ensures new { IfOk result (λ gates. (i : ℕ) (gate : Option CountGate) → slice_get gates i ≡ Some gate → IsNew gate) }
    ensures tell { IfOk result (λ gates. (i : ℕ) (gate : Option CountGate) → slice_get gates i ≡ Some gate → CanTell ⟦<CountGate as Gate>⟧ gate) }
{
    let mut gates = List::new(alloc);
    'gates: for _ in 0..count {
        gates.push(Some(CountGate::new()))?;
    }
    Ok(gates)
}
