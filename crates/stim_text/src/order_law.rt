//! What holds of each order that a text reads as. The functions do nothing: their clauses are the
//! laws.

ghost use Rattle.std.specs.Prelude.{◌≡◌, ◌⊎◌, List as Items, ℕ, Some, None, length};
ghost use Rattle.text_lines.specs.Answers.{IsReader};
ghost use Rattle.stim_text.specs.Orders.{Reads, IsValidOrder, first_fault, steps_of, step_count};
ghost use Rattle.stim_text.specs.declared.{order.Order.Order, refusal.OrderNo.OrderNo};

/// Each text reads as one order at most for so many ports, and has no fault beside it.
pub fn reads_as_one()
    ensures one { (ports : ℕ) (text : Items ℕ) (order other : Order)
        → Reads ports text order → Reads ports text other → order ≡ other }
    ensures no_fault { (ports : ℕ) (text : Items ℕ) (order : Order)
        → Reads ports text order → first_fault ports text ≡ None }
{}

/// What a text reads as is a valid order, and it has as many steps as its repeats sum to.
pub fn reads_as_valid()
    ensures valid { (ports : ℕ) (text : Items ℕ) (order : Order) → Reads ports text order → IsValidOrder ports order }
    ensures steps { (order : Order) → length (steps_of order) ≡ step_count order.lines }
{}

/// Each text, of any length, reads as an order for so many ports or has a first fault. With the law
/// above, the texts have a reader.
pub fn reads_or_faults()
    ensures some { (ports : ℕ) (text : Items ℕ)
        → ((order : Order) × Reads ports text order) ⊎ ((why : OrderNo) × (first_fault ports text ≡ Some why)) }
    ensures reader { (ports : ℕ) → IsReader (Reads ports) (first_fault ports) }
{}
