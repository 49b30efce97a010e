//! A crew of members that wait for one another, run by threads.

ghost use Rattle.std.specs.Prelude.{IfOk, OnOk, [], length, ◌∷◌, ◌+◌, ◌<◌, ◌^◌, ◌≡◌, ◌≤◌};
ghost use Rattle.crew_run.specs.{Crews.AreReady, Lending.AllAreReady};

use crew_run::{Gate, Step, Stepper, Worker, add, run_with};
use machine_run::count_gates;
use seen_list::{List, Memory};
use std::alloc::Global;
use std::marker::Sync;
use std::sync::Wait;
use std::sync::atomic::{AtomicU64, Ordering};
use std::thread::Threads;

/// A port that makes a turn once another has made the one before. It has so much patience in all, after
/// which it waits no more. It writes down each turn that it has made.
#[derive(Drop)]
struct Pacer<'a> {
    port: u32,
    turn: u64,
    last_turn: u64,
    waited: u64,
    patience: u64,
    short: bool,
    made: &'a AtomicU64,
    other: &'a AtomicU64,
    ghost begun: { 1 ≤ turn },
    ghost within: { turn ≤ last_turn + 1 },
    ghost small: { last_turn ≤ 2 ^ 62 },
}

impl<'a> Stepper for Pacer<'a> {
    ghost use Rattle.std.specs.Prelude.{refl, true, ◌+◌, ◌≡◌};
    ghost use Rattle.std.proofs.Common.{◌∙◌};

    ghost same = { λ a b. (b.port ≡ a.port) × (b.last_turn ≡ a.last_turn) };

    ghost port = { λ a. a.port };

    ghost turn = { λ a. a.turn };

    ghost last_turn = { λ a. a.last_turn };

    ghost steps = { λ a. a.turn + a.waited };

    ghost short = { λ a. a.short ≡ true };

    ghost takes = { λ a tells b. (tells ≡ true) × (b.turn ≡ a.turn + 1) };

    fn port(&self) -> u32 {
        self.port
    }

    fn turn(&self) -> u64 {
        self.turn
    }

    fn last_turn(&self) -> u64 {
        self.last_turn
    }

    fn step(&mut self) -> Step {
        if self.turn > self.last_turn {
            return Step::Done;
        }
        let made = self.other.load(Ordering::SeqCst);
        self.short = made < self.turn - 1 && self.waited < self.patience;
        if self.short {
            self.waited += 1;
            return Step::NotYet;
        }
        self.made.store(self.turn, Ordering::SeqCst);
        self.turn += 1;
        Step::Moved
    }

    ghost reflexive = { λ a. (refl, refl) };

    ghost transitive = { λ a b c x y. (y.0 ∙ x.0, y.1 ∙ x.1) };
}

/// A pacer of some turns from a first one on.
fn paced<'a>(
    port: u32,
    turns: (u64, u64),
    patience: u64,
    made: &'a AtomicU64,
    other: &'a AtomicU64,
) -> Pacer<'a>
    requires begun { 1 ≤ turns.0 }
    requires within { turns.0 ≤ turns.1 + 1 }
    requires small { turns.1 ≤ 2 ^ 62 }
    requires port { port < 256 }
    ensures ready { AreReady ⟦<Pacer<'a> as Stepper>⟧ (result ∷ []) }
    ensures port { result.port ≡ port }
    ensures turn { result.turn ≡ turns.0 }
    ensures last_turn { result.last_turn ≡ turns.1 }
{
    Pacer {
        port,
        turn: turns.0,
        last_turn: turns.1,
        waited: 0,
        patience,
        short: false,
        made,
        other,
    }
}

/// Adds a worker that has no gate of its own.
fn hire<S: Stepper, G: Gate>(
    workers: &mut List<Worker<S, G>>,
    members: List<S>,
) -> Result<(), Memory>
    requires others { AllAreReady S.Stepper.own workers.old }
    requires one { AreReady S.Stepper.own members }
    ensures ready { OnOk result (AllAreReady S.Stepper.own workers.new) }
    ensures count { OnOk result (length workers.new ≡ length workers.old + 1) }
{
    add(
        workers,
        Worker {
            members,
            gate: None,
        },
    )
}

/// Four workers, of which the third has two members and the second and the last have none.
fn four_workers<S: Stepper, G: Gate>(
    alloc: Global,
    one: S,
    two: S,
    three: S,
) -> Result<List<Worker<S, G>>, Memory>
    requires one { AreReady S.Stepper.own (one ∷ []) }
    requires two { AreReady S.Stepper.own (two ∷ three ∷ []) }
    ensures ready { IfOk result (λ ws. AllAreReady S.Stepper.own ws) }
    ensures count { IfOk result (λ ws. length ws ≡ 4) }
{
    let mut first = List::new(alloc);
    first.push(one)?;
    let mut third = List::new(alloc);
    third.push(two)?;
    third.push(three)?;
    let mut workers = List::new(alloc);
    hire(&mut workers, first)?;
    hire(&mut workers, List::new(alloc))?;
    hire(&mut workers, third)?;
    hire(&mut workers, List::new(alloc))?;
    Ok(workers)
}

/// Two members wait for one another, and a third one for turns that the second never makes, until its tries
/// run out, over some phases. The gates are new, so that they have room for the turns.
fn rounds<'a, R: Threads + Wait + Sync>(
    rt: &R,
    alloc: Global,
    shared: &'a [AtomicU64; 3],
    tries: u64,
) -> Result<(), Memory> {
    let one = paced(0, (1, 5), u64::MAX, &shared[0], &shared[1]);
    let two = paced(1, (1, 5), u64::MAX, &shared[1], &shared[0]);
    let three = paced(7, (8, 9), tries, &shared[2], &shared[1]);
    let mut workers = four_workers(alloc, one, two, three)?;
    let mut gates = count_gates(alloc, 5)?;
    run_with(rt, workers.as_mut_slice(), gates.as_mut_slice());
    Ok(())
}

/// The tries of the third member. They end in the second phase in the calling thread. This rests on constants of
/// `crew_run`: with three workers up to the last that has a member the first such phase has three times `SOLO_STEPS`
/// steps, 3,000,000, the second one twice as many, and a round without a move is one step. A phase in threads ends
/// after `FIRST_IDLE_ROUNDS` rounds without a move, and `MOST_SOLO_STEPS` is not met.
const TRIES: u64 = 4_000_000;

/// The run ends, though the third member finds nothing for so long that the workers go through two phases in threads
/// and two in the calling thread. What the gates were told is said by a clause.
#[test]
fn both_kinds_of_phase_end(rt: HostRuntime) {
    let shared = [AtomicU64::new(0), AtomicU64::new(0), AtomicU64::new(0)];
    assert!(rt; rounds(&rt, rt.alloc(), &shared, TRIES) == Ok(()));
}
