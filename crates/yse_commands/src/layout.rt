//! `plan` and `compile`: what a netlist is laid out as on the machine, after the same checks.

ghost use Rattle.std.specs.Prelude.{◌≡◌, IfOk, None};
ghost use Rattle.cmd_words.specs.Forms.{IsRunInRange};
ghost use Rattle.yse_commands.specs.{Outputs.CanWrite, Refusals.FilesFollow, Refusals.outcome_of, commands.Layout.LaysOut, commands.Layout.IsSheetOf};

use crate::compile::image_text_of;
use crate::output::Output;
use crate::plan::report_of;
use call_steps::{Planned, planned_on_machine};
use cmd_words::RunWords;
use edge_io::Files;
use refusals::Refusal;
use seen_list::{Memory, Text};
use std::alloc::Global;

/// What is asked of a design.
#[derive(Clone, Copy)]
pub enum Sheet {
    /// The report of its plan.
    Report,
    /// The text of its image.
    Image,
}

/// What is asked of the design of a netlist on the machine of the named file, or on the default machine.
pub fn lay_out<'a, F: Files>(
    alloc: Global,
    files: &mut F,
    words: &'a RunWords,
    sheet: Sheet,
) -> Result<Output, Refusal<'a>>
    requires { IsRunInRange words.now }
    ensures expected { FilesFollow F.Files.own files.old files.new (outcome_of None result) (LaysOut sheet words.now) }
    ensures writable { IfOk result CanWrite }
{
    let planned = planned_on_machine(alloc, files, words)?;
    let text = sheet_of(alloc, planned, sheet)?;
    Ok(Output::Text(text))
}

/// What is asked of a design.
fn sheet_of(alloc: Global, planned: Planned, sheet: Sheet) -> Result<Text, Memory>
    ensures { IfOk result (IsSheetOf sheet planned.homes planned.net planned.machine planned.timing) }
{
    match sheet {
        Sheet::Report => report_of(alloc, &planned),
        Sheet::Image => image_text_of(alloc, planned),
    }
}
