//! `order`: what is done of the trace of the reference simulation by the end of an order of the ports' steps.

ghost use Rattle.std.specs.Prelude.{◌≡◌, IfOk, None};
ghost use Rattle.cmd_words.specs.Forms.{IsRunInRange};
ghost use Rattle.yse_commands.specs.{Outputs.CanWrite, Refusals.FilesFollow, Refusals.outcome_of, commands.Run.Orders, code.Ends.EndsInOrderOf};

use crate::output::Output;
use crate::steps::{by_order, by_rounds};
use call_steps::{Ready, few_ready_cells, order_for, ready_on_machine};
use cmd_words::RunWords;
use edge_io::Files;
use refusals::Refusal;
use seen_list::Memory;
use std::alloc::Global;

/// The trace of a run in the order of the named file, as far as it is done, and without one of a whole run. The machine
/// is that of the named file, or the default machine.
#[tactic(auto, unfolding(crate::specs::commands::Run::EndsByOrder))]
pub fn order<'a, F: Files>(
    alloc: Global,
    files: &mut F,
    words: &'a RunWords,
) -> Result<Output, Refusal<'a>>
    requires { IsRunInRange words.now }
    ensures expected { FilesFollow F.Files.own files.old files.new (outcome_of None result) (Orders words.now) }
    ensures writable { IfOk result CanWrite }
{
    let ready = ready_on_machine(alloc, files, words)?;
    few_ready_cells(&ready)?;
    match &words.order {
        Some(file) => in_order(alloc, files, words, file.as_bytes(), ready),
        None => match by_rounds(alloc, words, ready) {
            Ok(trace) => Ok(Output::Trace(trace)),
            Err(Memory) => Err(Refusal::Memory),
        },
    }
}

/// What is done of the trace of a design by the end of the order of the named file.
fn in_order<'a, F: Files>(
    alloc: Global,
    files: &mut F,
    words: &'a RunWords,
    file: &'a [u8],
    ready: Ready,
) -> Result<Output, Refusal<'a>>
    requires { IsRunInRange words.now }
    ensures expected { FilesFollow F.Files.own files.old files.new (outcome_of None result) (EndsInOrderOf file.now words.now ready) }
    ensures writable { IfOk result CanWrite }
{
    let order = order_for(alloc, files, file, &ready)?;
    match by_order(alloc, words, ready, &order) {
        Ok(output) => Ok(output),
        Err(Memory) => Err(Refusal::Memory),
    }
}
