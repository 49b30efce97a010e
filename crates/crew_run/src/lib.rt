//! A crew: workers that step their members until all are done, in threads of their own or all in the calling
//! thread.
//!
//! A member is a `Stepper`, a port of a machine that goes through its turns by single atomic steps. Of each
//! step it says whether it took an event, found that what it waits for isn't there yet, or had nothing left
//! to do. A worker owns its members and a `Gate`, which it tells of each turn of a member before the first
//! step of that turn. Neither a member nor a gate is ever in two threads at once.
//!
//! Work goes in phases, of two kinds that take turns, until all members of all workers are done. In a phase
//! in threads, which the first one is, each worker has a thread of its own where one can be made. It goes
//! round its members, and leaves when all of them are done or the phase is over. A round without a move is
//! followed by a short wait; no processor is offered to other threads. After 32 such rounds in a row the
//! worker asks whether any other one moves, and whoever makes the next move answers. Where no answer comes
//! within 400 rounds in a row, the worker ends the phase, and the others leave it as soon as they have to
//! wait for long: where no worker at all gets on, they wait for processors and not for one another. A worker
//! that doesn't know yet that another one runs beside it allows 1,000 rounds, since threads take a while to
//! start.
//!
//! In the phase after it the calling thread goes round the members of all workers by itself, and tells the
//! gate of each worker of its own members' turns. So a crew gets on at the speed of one worker where there
//! are too few processors, or where no second thread can be made. Such a phase ends after 1,000,000 steps for
//! each worker. The next one is twice as long, up to 64,000,000 steps, but as short as the first again if the
//! phase in threads between them made more than four times its steps. A crew of one worker makes all its steps
//! in such a phase, which then has no bound. Where no worker has more than few members, by `Stepper::few_members`,
//! the first phase ends once a worker has made 1,000 steps in it, and the next one has no bound either: such workers
//! would wait for one another at nearly every step.
//!
//! One thread goes by turns: all members come to the same turn before any of them goes on. What visits the third turn
//! took, which member made how many steps, it writes down and repeats in the turns after it, so that no step
//! is made only to find that nothing is there yet. The visits are a hint, and what they leave undone is found
//! by rounds. They take room of fixed size on the stack, for 65,536 of them; a turn that takes more goes on by rounds.
//! Where no member moves on the way to a turn, the thread goes on by rounds alone.
//!
//! To run members of your own, implement `Stepper` for them, give the members of one worker ports of their
//! own below 256, and call `run_all`, or `run_with` where the gates belong to the caller. Nothing here takes
//! memory but `add`. What a step does to what members share is no matter of this crate: of a member that has
//! run the contracts say that it is done, and that it is `same` as the one that stood in its place.
//!
//! That a gate is told of a turn just before the first step of that turn, and not earlier, no contract says;
//! how often it was told of which ports, and of which turn last, they do.
//!
//! No contract says that a member ever moves, that two threads ran at once, or how long anything takes: where
//! members wait for what never comes, `run_all` doesn't return.
//!
//! ```
//! let worker = Worker { members, gate: Some(CountGate::new()) }; // `members` is a list of steppers
//! let mut workers = List::new(alloc);
//! add(&mut workers, worker)?;
//! run_all(&rt, workers.as_mut_slice()); // now each member is done, and each gate was told of its worker's turns
//! ```
#![tactic(auto)]

mod count_gate;
mod course;
mod crew;
mod gate;
mod lend;
mod pace;
mod phase;
mod pulse;
mod solo;
mod stepper;
mod turns;
mod worker;

pub use count_gate::CountGate;
pub use crew::run_all;
pub use gate::Gate;
pub use lend::{add, run_with};
pub use stepper::{Step, Stepper};
pub use worker::Worker;
