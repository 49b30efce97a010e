//! The reader of netlist texts.

ghost use Rattle.std.specs.Prelude.{◌≡◌, ◌≢◌, ◌≤◌, None, Some, MatchResult, IfErr, length};
ghost use Rattle.std.specs.Option.{option_map};
ghost use Rattle.limits.specs.declared.TheConstants.{MAX_TEXT_BYTES};
ghost use Rattle.text_lines.specs.Answers.{Answers};
ghost use Rattle.net_defs.specs.declared.netlist.Netlist.{Netlist};
ghost use Rattle.bench_text.specs.declared.token.TextNo.TheVariants as text_no;
ghost use Rattle.bench_text.specs.{Tokens.first_fault as byte_fault, Rows.rows_of};
ghost use Rattle.bench_read.specs.declared.refusal.BenchNo.TheVariants.{Memory as NoMemory, Text};
ghost use Rattle.bench_read.specs.{Faults.of_text, Faults.first_fault, Placed.placed_of, code.Placed.lines_at, Netlists.netlist_of, Reads.Reads};

use crate::netlist::make_netlist;
use crate::refusal::{BenchNo, of_text};
use crate::rows::read_rows;
use bench_text::scan::check;
use net_defs::Netlist;
use std::alloc::Global;

/// The netlist that the text describes, or the text's first fault: first a byte that no text has or
/// a name that is too long, then the first line with a fault, and then the first use of a name that
/// no line drives. The faults of one line come in the order of the variants of `BenchNo`, but for
/// `Undriven`.
pub fn read_bench(alloc: Global, bytes: &[u8]) -> Result<Netlist, BenchNo>
    requires { length bytes.now ≤ MAX_TEXT_BYTES }

    // What is read is what the text reads as, a refusal is the first fault, or memory ran out.
    ensures answers { Answers NoMemory result (first_fault bytes.now) (Reads bytes.now) }

    // What the text reads as is read, unless memory ran out, and has no fault.
    ensures only { (net : Netlist) → Reads bytes.now net
        → (first_fault bytes.now ≡ None) × MatchResult result (λ read. read ≡ net) (λ no. no ≡ NoMemory) }

    // Want of memory is never told as a fault of the text.
    ensures plain { IfErr result (λ no. no ≢ Text text_no.Memory) }
{
    read_text(alloc, bytes)
}

/// The netlist of the text's lines, or the first fault.
fn read_text(alloc: Global, bytes: &[u8]) -> Result<Netlist, BenchNo>
    requires { length bytes.now ≤ MAX_TEXT_BYTES }
    ensures { Answers NoMemory result (first_fault bytes.now) (λ net. net ≡ netlist_of (lines_at (placed_of (rows_of bytes.now)))) }
{
    check_bytes(bytes)?;
    let draft = read_rows(alloc, bytes)?;
    make_netlist(alloc, &draft)
}

/// Refuses the first fault of the bytes.
fn check_bytes(bytes: &[u8]) -> Result<(), BenchNo>
    requires { length bytes.now ≤ MAX_TEXT_BYTES }
    ensures { MatchResult result (λ _. byte_fault bytes.now ≡ None) (λ no. option_map of_text (byte_fault bytes.now) ≡ Some no) }
{
    check(bytes).map_err(of_text)
}
