//! What the workers of a phase in threads know of one another: whether any of them gets on.

use crate::phase::Progress;
use crossbeam_utils::Backoff;
use std::sync::atomic::{AtomicBool, AtomicU64, Ordering};

/// The rounds in a row without a move after which a worker asks whether any other one moves.
const ROUNDS_TO_ASK: u32 = 32;

/// The rounds in a row without a move, and without an answer, after which a worker ends the phase. At first
/// they leave time for the threads of the others to start.
const FIRST_IDLE_ROUNDS: u32 = 1000;

/// The same for a worker that knows from this phase that others run beside it.
const IDLE_ROUNDS: u32 = 400;

/// What the workers of a phase share. A worker that has waited for long asks, and whoever makes the next move
/// answers. So moves cost no more than a look as long as nobody asks, and a slow move isn't taken for none.
#[derive(Drop)]
pub struct Pulse {
    asked: AtomicBool,
    answers: AtomicU64,
    over: AtomicBool,
    steps: AtomicU64,
    most_steps: u64,
}

impl Pulse {
    /// That of a phase which a worker ends that has made so many steps.
    pub fn new(most_steps: u64) -> Pulse {
        Pulse {
            asked: AtomicBool::new(false),
            answers: AtomicU64::new(0),
            over: AtomicBool::new(false),
            steps: AtomicU64::new(0),
            most_steps,
        }
    }

    /// Asks for an answer of whoever moves.
    fn ask(&self) {
        self.asked.store(true, Ordering::SeqCst);
    }

    /// A member has moved: answers where somebody has asked.
    pub fn answer(&self) {
        if self.asked.load(Ordering::SeqCst) {
            self.asked.store(false, Ordering::SeqCst);
            self.answers.fetch_add(1, Ordering::SeqCst);
        }
    }

    /// How many answers there were.
    fn answers(&self) -> u64 {
        self.answers.load(Ordering::SeqCst)
    }

    /// Ends the phase for all workers that have to wait.
    fn end(&self) {
        self.over.store(true, Ordering::SeqCst);
    }

    fn is_over(&self) -> bool {
        self.over.load(Ordering::SeqCst)
    }

    fn add_steps(&self, steps: u64) {
        self.steps.fetch_add(steps, Ordering::SeqCst);
    }

    /// The steps by which members moved, of the workers that have left the phase.
    pub fn steps(&self) -> u64 {
        self.steps.load(Ordering::SeqCst)
    }
}

/// A worker's watch over its phase.
#[derive(Drop)]
pub struct Watch {
    idle: u32,
    most_idle: u32,
    answers: u64,
    steps: u64,
    backoff: Backoff,
}

impl Watch {
    pub fn new() -> Watch {
        Watch {
            idle: 0,
            most_idle: FIRST_IDLE_ROUNDS,
            answers: 0,
            steps: 0,
            backoff: Backoff::new(),
        }
    }

    /// A round came. Answers whether the worker leaves the phase by it: its members are done, or the phase is
    /// over for those that wait.
    pub fn leaves(&mut self, progress: Progress, pulse: &Pulse) -> bool {
        self.steps = self.steps.saturating_add(progress.moved);
        let is_long = self.steps >= pulse.most_steps;
        if is_long {
            pulse.end();
        }
        let leaves = progress.arrived || is_long || (progress.moved == 0 && self.waits(pulse));
        if progress.moved > 0 {
            self.moved();
        }
        if leaves {
            pulse.add_steps(self.steps);
        }
        leaves
    }

    /// A round came with a move.
    fn moved(&mut self) {
        if self.idle > 0 {
            // what it waited for came, and from nobody but another worker
            self.idle = 0;
            self.most_idle = IDLE_ROUNDS;
            self.backoff.reset();
        }
    }

    /// A round came without a move. Waits for a moment, or answers that the phase is over: another worker has
    /// ended it, or no worker at all has moved for so long that this one does.
    fn waits(&mut self, pulse: &Pulse) -> bool {
        self.idle = self.idle.saturating_add(1);
        if self.idle == ROUNDS_TO_ASK {
            pulse.ask();
        }
        if self.idle > ROUNDS_TO_ASK && self.is_over(pulse) {
            return true;
        }
        self.backoff.spin();
        false
    }

    /// Whether the phase is over, after a long wait.
    fn is_over(&mut self, pulse: &Pulse) -> bool {
        let answers = pulse.answers();
        if answers != self.answers {
            self.answers = answers;
            self.most_idle = IDLE_ROUNDS;
            self.idle = 0;
        }
        if self.idle >= self.most_idle {
            pulse.end();
        }
        pulse.is_over()
    }
}
