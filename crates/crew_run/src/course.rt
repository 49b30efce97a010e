//! How the calling thread goes through turns: each worker's members come to the same turn before any of them
//! goes on, and once a turn was gone through, the visits of it are a hint for the turns after it.

use crate::phase::Progress;

/// The most visits of a turn that are written down. What comes after them is found by rounds.
const MOST_VISITS: usize = 65_536;

/// The most members of all workers together that the calling thread goes round.
const MOST_MEMBERS: usize = 256;

/// Which lap is written down. In the ones before it members may make steps that they need only once.
const WRITTEN_LAP: u32 = 3;

/// The turn to which members go that need not come to one.
const NO_TURN: u64 = u64::MAX;

/// Some steps of one member, by its worker's place and its own.
#[derive(Clone, Copy)]
pub struct Visit {
    worker: u16,
    member: u8,
    steps: u8,
}

impl Visit {
    pub fn worker(self) -> usize {
        self.worker as usize
    }

    pub fn member(self) -> usize {
        self.member as usize
    }

    pub fn steps(self) -> u32 {
        self.steps as u32
    }
}

/// The members in the order of a round, the turn to which they go, and the visits by which they once went through a
/// turn. A visit is a hint: whether its member is there, and how many of its steps it can make, is seen when they are
/// made.
#[derive(Drop)]
pub struct Course {
    members: [Visit; MOST_MEMBERS],
    member_count: usize,
    is_short: bool,
    goal: u64,
    laps: u32,
    done: bool,
    made: u64,
    due: usize,
    visits: [Visit; MOST_VISITS],
    len: usize,
    lap_steps: u64,
}

impl Course {
    pub fn new() -> Course {
        let none = Visit {
            worker: 0,
            member: 0,
            steps: 0,
        };
        Course {
            members: [none; MOST_MEMBERS],
            member_count: 0,
            is_short: false,
            goal: 0,
            laps: 0,
            done: false,
            made: 0,
            due: 0,
            visits: [none; MOST_VISITS],
            len: 0,
            lap_steps: 0,
        }
    }

    /// The turn to which the members go; at first none, so that a round finds where they are.
    pub fn goal(&self) -> u64 {
        self.goal
    }

    /// Puts a member at the end of the round, given by its worker's place and its own.
    pub fn join(&mut self, worker: usize, member: usize) {
        if self.member_count >= MOST_MEMBERS {
            self.is_short = true;
            return;
        }
        self.members[self.member_count] = Visit {
            worker: (worker % 0x1_0000) as u16,
            member: (member % 0x100) as u8,
            steps: 0,
        };
        self.member_count += 1;
    }

    /// Whether there are more members than it has room for.
    pub fn is_short(&self) -> bool {
        self.is_short
    }

    /// How many members a round has.
    pub fn member_count(&self) -> usize {
        self.member_count
    }

    /// Member number `v` of a round.
    pub fn member_at(&self, v: usize) -> Visit {
        self.members[v % MOST_MEMBERS]
    }

    /// How many of the visits are to be made before the next round.
    pub fn due(&self) -> usize {
        self.due
    }

    /// Visit number `v`, or one of no steps.
    pub fn visit(&self, v: usize) -> Visit {
        if v < MOST_VISITS {
            self.visits[v]
        } else {
            Visit {
                worker: 0,
                member: 0,
                steps: 0,
            }
        }
    }

    /// Writes a visit of up to 64 steps of a member down, where it belongs to the lap that is written down.
    pub fn add(&mut self, member: Visit, steps: u64) {
        if self.laps == WRITTEN_LAP && steps > 0 && self.len < MOST_VISITS {
            self.visits[self.len] = Visit {
                steps: (steps % 0x100) as u8,
                ..member
            };
            self.len += 1;
            self.lap_steps = self.lap_steps.saturating_add(steps);
        }
    }

    /// A round came. Where all members have come to their turn by it, they go to the next one, by the visits if
    /// there are any.
    pub fn after(&mut self, round: Progress) {
        self.made = self.made.saturating_add(round.moved.max(1));
        self.due = 0;
        if round.arrived {
            self.done = round.latest < self.goal;
            self.begin_lap(round.earliest);
        } else if round.moved == 0 {
            // one of them waits for a later turn of another
            self.goal = NO_TURN;
        }
    }

    /// The first lap goes to the turn after that of the member furthest behind: one far ahead holds nobody up.
    fn begin_lap(&mut self, earliest: u64) {
        let reached = if self.laps == 0 { earliest } else { self.goal };
        self.goal = reached.saturating_add(1);
        self.laps = self.laps.saturating_add(1);
        if self.laps > WRITTEN_LAP {
            self.due = self.len;
            self.made = self.made.saturating_add(self.lap_steps);
        }
    }

    /// Whether all members were found done, or have made so many steps together. A round without a step
    /// counts as one.
    pub fn is_over(&self, steps: u64) -> bool {
        self.done || self.made >= steps
    }
}
