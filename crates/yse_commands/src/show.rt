//! `show`: the canonical text of a netlist.

ghost use Rattle.std.specs.Prelude.{◌≡◌, IfOk, None};
ghost use Rattle.yse_commands.specs.{Outputs.CanWrite, Refusals.FilesFollow, Refusals.outcome_of, commands.Show.Shows};

use crate::output::Output;
use call_steps::netlist_in;
use edge_io::Files;
use net_defs::show as canonical_text;
use refusals::Refusal;
use std::alloc::Global;

/// The canonical text of the netlist of a file.
pub fn show<'a, F: Files>(
    alloc: Global,
    files: &mut F,
    file: &'a [u8],
) -> Result<Output, Refusal<'a>>
    ensures expected { FilesFollow F.Files.own files.old files.new (outcome_of None result) (Shows file.now) }
    ensures writable { IfOk result CanWrite }
{
    let net = netlist_in(alloc, files, file)?;
    let text = canonical_text(alloc, &net)?;
    Ok(Output::Text(text))
}
