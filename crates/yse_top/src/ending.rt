//! The end of a call whose output is had.

ghost use Rattle.std.specs.Prelude.{◌≡◌, OnErr};
ghost use Rattle.yse_commands.specs.{code.Endings.ending_in, code.Endings.status_after, code.Endings.IsTold, Ends.EndsAs, Ends.MayWrite};
ghost use Rattle.yse_commands.specs.{Outputs.CanEnd, Outputs.HasTaken, Outputs.wrote_in, Refusals.ended_with};
ghost use Rattle.edge_io.specs.Writing.{TakesLine};

use edge_io::Sink;
use refusals::{Status, tell_write_fault, write_unfinished_line};
use yse_commands::output::{Ending, Output, write_output};

/// Writes an output to `out`, as far as it is not written, and then a line to `err` where its run was not
/// finished, and answers the status. A fault of `err` changes nothing.
pub fn end<O: Sink, E: Sink>(out: &mut O, err: &mut E, output: Output) -> Status
    requires { CanEnd output }
    ensures ends { (before : O) → HasTaken O.taken O.faults before out.old output
        → EndsAs result (ended_with output) (O.taken before) (O.taken out.new) (O.faults before) (O.faults out.new)
        (TakesLine (E.taken err.old) (E.taken err.new) (E.faults err.old) (E.faults err.new)) }
    ensures failed { OnErr (wrote_in output) (result ≡ Status.WriteFault) }
    ensures silent { result ≡ Status.Done → err.new ≡ err.old }
    ensures may_write { MayWrite result }
{
    let mut output = output;
    let ending = ending_of(&output);
    let wrote = write_output(out, &mut output);
    // A drop by hand saves 20 s of proof.
    drop(output);
    match wrote {
        Ok(()) => tell_ending(err, ending),
        Err(_) => tell_write_fault(err),
    }
}

/// Where the run of an output ended, if it was not finished.
fn ending_of(output: &Output) -> Option<Ending>
    ensures { result ≡ ending_in output.now }
{
    match output {
        Output::Unfinished(_, ending) => Some(*ending),
        Output::Text(_)
        | Output::Trace(_)
        | Output::Written(_)
        | Output::Lanes(_)
        | Output::Lines(_) => None,
    }
}

/// Writes the line of a run that was not finished to `err`, and answers the status; without one it
/// writes nothing. A fault of `err` changes nothing.
fn tell_ending<E: Sink>(err: &mut E, ending: Option<Ending>) -> Status
    ensures status { result ≡ status_after ending }
    ensures told { IsTold err.old err.new (E.taken err.old) (E.taken err.new) (E.faults err.old) (E.faults err.new) ending }
{
    match ending {
        None => Status::Done,
        Some(ending) => {
            let _ = write_unfinished_line(err, ending.rows, ending.cycles);
            Status::Unfinished
        }
    }
}
