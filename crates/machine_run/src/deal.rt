//! Members that are dealt to workers, by their ports.

ghost use Rattle.std.specs.Prelude.{IfOk, OnOk, [], length, ◌%◌, ◌++◌, ◌-◌, ◌<◌, ◌∷◌, ◌≡◌, ◌≤◌, ℕ};
ghost use Rattle.machine_run.specs.{Dealt.AreDealtFrom, Dealt.ArePasses, code.Dealt.AreIdle, code.Dealt.HasGained};

use crew_run::{Stepper, Worker};
use seen_list::{List, Memory};
use std::alloc::Global;

/// What makes the members of a crew, each of a pass.
pub trait Seats {
    /// What a member is made of.
    type Pass: Drop;

    /// A member.
    type Seat: Stepper;

    // the port of a pass
    ghost pass_port: { Self.Pass → ℕ };

    // the number of ports
    ghost ports: { Self → ℕ };

    // a member can be made of the pass
    ghost may: { Self → Self.Pass → Type 0 };

    // such a member `seat` may answer
    ghost fits: { Self → Self.Seat → Type 0 };

    /// The member of a pass.
    fn seat(&self, alloc: Global, pass: Self::Pass) -> Result<Self::Seat, Memory>
        requires { may self.now pass }
        ensures fits { IfOk result (fits self.now) }
        ensures port { IfOk result (λ seat. Self.Seat.port seat ≡ pass_port pass) };
}

/// So many workers without members, that have no gates of their own.
fn idle_crew<S: Drop, G: Drop>(alloc: Global, workers: u32) -> Result<List<Worker<S, G>>, Memory>
    ensures { IfOk result (AreIdle workers) }
{
    let mut crew = List::new(alloc);
    'workers: for _ in 0..workers {
        crew.push(Worker {
            members: List::new(alloc),
            gate: None,
        })?;
    }
    Ok(crew)
}

/// Gives the worker at a place one member more.
fn give_to<S: Drop, G>(crew: &mut [Worker<S, G>], place: usize, member: S) -> Result<(), Memory>
    requires { place < length crew.old }
    ensures { OnOk result (HasGained crew.old place member crew.new) }
{
    crew[place].members.push(member)
}

/// Which of so many workers a port is dealt to.
pub fn worker_of(port: usize, workers: usize) -> usize
    requires { 1 ≤ workers }
    ensures is { result ≡ port % workers }
    ensures within { result < workers }
{
    port % workers
}

/// So many workers, to which a member for each pass is dealt, that of the last pass first.
pub fn workers_of<T: Seats, G: Drop>(
    alloc: Global,
    seats: &T,
    passes: List<T::Pass>,
    workers: u32,
) -> Result<List<Worker<T::Seat, G>>, Memory>
    requires passes { ArePasses T.pass_port (T.may seats.now) (T.ports seats.now) passes }
    requires some_ports { 1 ≤ T.ports seats.now }
    requires some { 1 ≤ workers }
    ensures { IfOk result (AreDealtFrom T.Seat.port (T.fits seats.now) workers (T.ports seats.now) (T.ports seats.now - 1) 0) }
{
    let mut passes = passes;
    let mut crew = idle_crew(alloc, workers)?;
    'passes: while let Some(pass) = passes.pop() {
        let member = seats.seat(alloc, pass)?;
        let worker = worker_of(member.port() as usize, crew.len());
        give_to(crew.as_mut_slice(), worker, member)?;
    }
    Ok(crew)
}
