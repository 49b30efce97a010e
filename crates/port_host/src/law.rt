//! A law of the host: a function that does nothing, whose clause holds of all views.

ghost use Rattle.std.specs.Prelude.{ℕ, ◌≡◌, ◌*◌, ◌≤◌};
ghost use Rattle.image_defs.specs.Ports.{PortView, after_end};
ghost use Rattle.port_host.specs.Rows.{rows_done};

/// A law: once the host has ended the last turn of a cycle, so many rows are done. It does nothing.
pub fn cycle_is_done()
    ensures { (view : PortView) (cycle : ℕ) → 1 ≤ view.image.units
        → view.turn ≡ cycle * view.image.units → rows_done (after_end view) ≡ cycle }
{}
