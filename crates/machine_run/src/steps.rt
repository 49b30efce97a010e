//! The ports of a crew on their way to the next block.

ghost use Rattle.std.specs.Prelude.{Some, slice_get, ℕ, ◌≡◌};
ghost use Rattle.crew_run.specs.declared.worker.Worker.{Worker as Of};
ghost use Rattle.machine_run.specs.code.Moves.{AreMoved, HasGoneOn, HaveGoneOn};
ghost use Rattle.port_run.specs.{Pairs.placed, declared.seated.Seated.Seated as Seat};
ghost use Rattle.port_walk.specs.Placed.{CanGoOn};

use crew_run::Worker;
use port_run::Seated;

/// The port goes on with its next block.
fn go_on(member: &mut Seated<'_>)
    requires { CanGoOn (placed member.old.run) }
    ensures { HasGoneOn member.old member.new }
{
    member.run.go_on();
}

/// The members of a worker go on.
fn go_on_members(members: &mut [Seated<'_>])
    requires { (k : ℕ) (seat : Seat) → slice_get members.old k ≡ Some seat → CanGoOn (placed seat.run) }
    ensures { HaveGoneOn members.old members.new }
{
    'members: for k in 0..members.len() {
        go_on(&mut members[k]);
    }
}

/// A worker goes on with all its members.
fn go_on_worker<'a, G>(worker: &mut Worker<Seated<'a>, G>)
    requires { (k : ℕ) (seat : Seat) → slice_get worker.old.members k ≡ Some seat → CanGoOn (placed seat.run) }
    ensures { HaveGoneOn worker.old.members worker.new.members }
{
    go_on_members(worker.members.as_mut_slice());
}

/// All members of all workers go on.
pub(crate) fn go_on_all<'a, G>(workers: &mut [Worker<Seated<'a>, G>])
    requires { (w k : ℕ) (worker : Of Seat G) (seat : Seat) → slice_get workers.old w ≡ Some worker
        → slice_get worker.members k ≡ Some seat → CanGoOn (placed seat.run) }
    ensures { AreMoved HasGoneOn workers.old workers.new }
{
    'workers: for w in 0..workers.len() {
        go_on_worker(&mut workers[w]);
    }
}
