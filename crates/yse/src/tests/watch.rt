//! Gates that watch how workers run beside one another.

ghost use Rattle.std.specs.Prelude.{All, ◌^◌, ◌≤◌};

use crew_run::{CountGate, Gate};
use std::hint;
use std::sync::atomic::{AtomicBool, AtomicU64, Ordering};

/// How often a hold tries at most.
const TRIES: u32 = 50_000_000;

/// What a gate does beside counting the turns that it is told of.
#[derive(Clone, Copy)]
pub(crate) enum Watch {
    /// Nothing.
    Nothing,
    /// It holds its first call until the other worker was told of a turn.
    Pair,
    /// The first worker's holds the host's turn 3, until the second worker was told of a later turn.
    Hold,
    /// The first worker's holds its first call until the second worker was told of a turn past the second.
    Ahead,
}

/// What the gates of a call share: a flag of the first worker and one of the others, and how many turns all gates
/// were told of.
#[derive(Drop)]
pub(crate) struct Shared {
    one: AtomicBool,
    two: AtomicBool,
    pub(crate) told: AtomicU64,
}

impl Shared {
    pub(crate) fn new() -> Shared {
        Shared {
            one: AtomicBool::new(false),
            two: AtomicBool::new(false),
            told: AtomicU64::new(0),
        }
    }
}

/// Counts the turns for itself and for all gates, and holds its worker in one call at most. It says whether a try of the
/// hold found what it looked for.
#[derive(Drop)]
pub(crate) struct WatchGate<'a> {
    counts: CountGate,
    watch: Watch,
    first: bool,
    mine: &'a AtomicBool,
    other: &'a AtomicBool,
    told: &'a AtomicU64,
    pub(crate) held: bool,
    pub(crate) found: bool,
}

/// Whether the flag was found set before the tries ran out.
fn is_met(flag: &AtomicBool) -> bool {
    for _ in 0..TRIES {
        if flag.load(Ordering::SeqCst) {
            return true;
        }
        hint::spin_loop();
    }
    false
}

impl Watch {
    /// Whether the flag of the worker is to be set in a turn.
    fn marks(self, turn: u64) -> bool {
        match self {
            Watch::Nothing => false,
            Watch::Pair => true,
            Watch::Hold => turn > 3,
            Watch::Ahead => turn > 2,
        }
    }

    /// Whether a call is to be held, of the first worker or not, where one was held before or not. The host is
    /// port 2.
    fn holds(self, first: bool, held: bool, port: u32, turn: u64) -> bool {
        match self {
            Watch::Nothing => false,
            Watch::Pair => !held,
            Watch::Hold => first && port == 2 && turn == 3,
            Watch::Ahead => first && !held,
        }
    }
}

impl<'a> Gate for WatchGate<'a> {
    ghost times = { λ g. ⟦<CountGate as Gate>⟧.times g.counts };

    ghost latest = { λ g. ⟦<CountGate as Gate>⟧.latest g.counts };

    fn at(&mut self, port: u32, turn: u64) {
        self.counts.at(port, turn);
        self.told.fetch_add(1, Ordering::SeqCst);
        if self.watch.marks(turn) {
            self.mine.store(true, Ordering::SeqCst);
        }
        if self.watch.holds(self.first, self.held, port, turn) {
            self.held = true;
            self.found = is_met(self.other);
        }
    }
}

/// A gate that was told nothing.
pub(crate) fn watch_gate<'a>(watch: Watch, first: bool, shared: &'a Shared) -> WatchGate<'a>
    ensures { All (λ n. n ≤ 2 ^ 62) (⟦<WatchGate<'a> as Gate>⟧.times result) }
{
    let (mine, other) = if first {
        (&shared.one, &shared.two)
    } else {
        (&shared.two, &shared.one)
    };
    WatchGate {
        counts: CountGate::new(),
        watch,
        first,
        mine,
        other,
        told: &shared.told,
        held: false,
        found: false,
    }
}
