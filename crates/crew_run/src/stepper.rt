//! What a crew steps.

ghost use Rattle.std.specs.Prelude.{Bool, ℕ, if◌then◌else◌, ◌+◌, ◌↔◌, ◌≡◌};
ghost use Rattle.crew_run.specs.Steps.{Done, Moved, NotYet, steps_of};

/// What a step came to.
#[derive(Clone, Copy)]
pub enum Step {
    /// One event was taken.
    Moved,
    /// One atomic step was made, and what it waits for isn't there yet.
    NotYet,
    /// Nothing is left to do, and no atomic step was made.
    Done,
}

/// A port of a machine that goes through its turns by single steps.
///
/// Turns are counted from 1, as `run_all` asks of its members. What an event is, and which events end a turn, is the type's own to say, by
/// `takes`.
pub trait Stepper: Drop {
    // the second may stand where the first stood
    ghost same: { Self → Self → Type 0 };

    // the number of the port
    ghost port: { Self → ℕ };

    // the turn that it is in, and the last one that it makes
    ghost turn: { Self → ℕ };

    ghost last_turn: { Self → ℕ };

    // the atomic steps so far
    ghost steps: { Self → ℕ };

    // the last atomic step found that what it waits for isn't there yet
    ghost short: { Self → Type 0 };

    // one event leads from the first to the second, and it ends a turn where the truth is true
    ghost takes: { Self → Bool → Self → Type 0 };

    /// How many members a worker may have that gains nothing by a thread of its own, as they wait for those of others
    /// at nearly every step.
    fn few_members() -> usize {
        0
    }

    /// The number of the port.
    fn port(&self) -> u32
        ensures { result ≡ port self.now };

    /// The turn that it is in.
    fn turn(&self) -> u64
        ensures { result ≡ turn self.now };

    /// The last turn that it makes.
    fn last_turn(&self) -> u64
        ensures { result ≡ last_turn self.now };

    /// Makes one atomic step, or none where all turns are made.
    fn step(&mut self) -> Step
        ensures same { same self.old self.new }
        ensures port { port self.new ≡ port self.old }
        ensures last_turn { last_turn self.new ≡ last_turn self.old }
        ensures moved { Moved result ↔ ((tells : Bool) × takes self.old tells self.new) }
        ensures tells { (tells : Bool) → takes self.old tells self.new → turn self.new ≡ turn self.old + (if tells then 1 else 0) }
        ensures stays { ¬ Moved result → turn self.new ≡ turn self.old }
        ensures steps { steps self.new ≡ steps self.old + steps_of result }
        ensures done { Done result ↔ (turn self.old ≡ last_turn self.old + 1) }
        ensures not_yet { NotYet result ↔ (¬ Done result × short self.new) };

    ghost reflexive: { (a : Self) → same a a };

    ghost transitive: { (a b c : Self) → same a b → same b c → same a c };
}
