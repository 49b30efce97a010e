//! The lines of an image text, written one by one.

ghost use Rattle.std.specs.Prelude.{◌≡◌, ◌∷◌, ◌++◌, ℕ, [], codes, decimal, map, OnOk, ◌<◌};
ghost use Rattle.std.specs.List.{flat_map};
ghost use Rattle.image_lines.specs.Words.{hex_digit, hex_digits, source_word, init_word, kind_word, line_text, line_bytes, line_words};
ghost use Rattle.image_lines.specs.code.Words.{spaced};
ghost use Rattle.image_lines.specs.declared.line.Line.TheVariants as line;

use crate::line::PortKind;
use func_table::Table;
use image_defs::{BlockWork, InColumn, LinkIn, LinkOut, OutBit, Source, Task};
use logic_four::to_char;
use net_defs::Init;
use seen_list::{Memory, Text};

/// Adds a space and a number.
#[tactic(auto, unfolding(crate::specs::code::Words::spaced))]
fn push_number(text: &mut Text, n: u64) -> Result<(), Memory>
    ensures { OnOk result (text.new ≡ text.old ++ spaced (decimal n)) }
{
    text.push_bytes(b" ")?;
    text.push_decimal(n)
}

/// Adds a space and a source.
#[tactic(auto, unfolding(crate::specs::code::Words::spaced, crate::specs::Words::source_word))]
fn push_source(text: &mut Text, source: &Source) -> Result<(), Memory>
    ensures { OnOk result (text.new ≡ text.old ++ spaced (source_word source.now)) }
{
    match source {
        Source::Own { slot, last } => push_place(text, if *last { b'O' } else { b'o' }, *slot),
        Source::Got { slot, last } => push_place(text, if *last { b'G' } else { b'g' }, *slot),
        Source::Const(value) => text.push_bytes(&[b' ', b'c', to_char(*value)]),
    }
}

/// Adds a space, a mark and a slot.
#[tactic(auto, unfolding(crate::specs::code::Words::spaced))]
fn push_place(text: &mut Text, mark: u8, slot: u32) -> Result<(), Memory>
    ensures { OnOk result (text.new ≡ text.old ++ spaced (mark ∷ decimal slot)) }
{
    text.push_bytes(&[b' ', mark])?;
    text.push_decimal(slot as u64)
}

/// Adds a space and a word of a table.
#[tactic(auto, unfolding(crate::specs::code::Words::spaced))]
fn push_hex(text: &mut Text, word: u64) -> Result<(), Memory>
    ensures { OnOk result (text.new ≡ text.old ++ spaced (hex_digits 16 word)) }
{
    text.push_bytes(b" ")?;
    text.push_bytes(&hex_word(word))
}

/// The sixteen digits of a word.
#[tactic(auto, using(crate::proofs::WritingLemmas::one_more, crate::proofs::HexLemmas::digits_zero))]
fn hex_word(word: u64) -> [u8; 16]
    ensures { result ≡ hex_digits 16 word }
{
    let mut digits = [b'0'; 16];
    let mut rest = word;
    'digits: for k in 0..16usize {
        digits[15 - k] = hex_digit((rest % 16) as u8);
        rest /= 16;
    }
    digits
}

fn hex_digit(digit: u8) -> u8
    requires { digit < 16 }
    ensures { result ≡ hex_digit digit }
{
    if digit < 10 {
        b'0' + digit
    } else {
        b'a' + (digit - 10)
    }
}

/// Adds the first line of a text.
#[tactic(auto, unfolding(crate::specs::Words::line_bytes, crate::specs::Words::line_words))]
pub fn push_version(text: &mut Text) -> Result<(), Memory>
    ensures { OnOk result (text.new ≡ text.old ++ line_text line.Version) }
{
    text.push_bytes(b"yse-image 1\n")
}

/// Adds the second line of a text, which says of the whole image its slots, the turns of a cycle, what
/// registers and memories hold at first, its columns and the number of its ports.
#[tactic(auto, using(crate::proofs::WritingLemmas::head_text))]
pub fn push_head(
    text: &mut Text,
    slots: u32,
    units: u32,
    init: Init,
    columns: u32,
    ports: usize,
) -> Result<(), Memory>
    ensures { OnOk result (text.new ≡ text.old ++ line_text (line.Head
        (record { slots = slots; units = units; init = init; columns = columns; ports = ports }))) }
{
    push_times(text, slots, units, init)?;
    push_named(text, b" columns", columns)?;
    text.push_bytes(b" ports")?;
    push_number(text, ports as u64)?;
    text.push_bytes(b"\n")
}

fn push_times(text: &mut Text, slots: u32, units: u32, init: Init) -> Result<(), Memory>
    ensures { OnOk result (text.new ≡ text.old ++ codes "slots" ++ spaced (decimal slots) ++ codes " units"
        ++ spaced (decimal units) ++ codes " init" ++ spaced (init_word init)) }
{
    push_named(text, b"slots", slots)?;
    push_named(text, b" units", units)?;
    text.push_bytes(b" init")?;
    push_init(text, init)
}

/// Adds a word, a space and a number.
fn push_named(text: &mut Text, word: &[u8], n: u32) -> Result<(), Memory>
    ensures { OnOk result (text.new ≡ text.old ++ word.now ++ spaced (decimal n)) }
{
    text.push_bytes(word)?;
    push_number(text, n as u64)
}

#[tactic(auto, unfolding(crate::specs::Words::init_word, crate::specs::code::Words::spaced))]
fn push_init(text: &mut Text, init: Init) -> Result<(), Memory>
    ensures { OnOk result (text.new ≡ text.old ++ spaced (init_word init)) }
{
    match init {
        Init::Undef => text.push_bytes(b" x"),
        Init::Zero => text.push_bytes(b" 0"),
    }
}

/// Adds the head of a port.
#[tactic(auto, unfolding(crate::specs::Words::line_bytes, crate::specs::Words::line_words, crate::specs::Words::kind_word))]
pub fn push_port(text: &mut Text, kind: PortKind) -> Result<(), Memory>
    ensures { OnOk result (text.new ≡ text.old ++ line_text (line.Port kind)) }
{
    match kind {
        PortKind::Logic => text.push_bytes(b"port logic\n"),
        PortKind::Array => text.push_bytes(b"port array\n"),
        PortKind::Host => text.push_bytes(b"port host\n"),
    }
}

/// Adds the line of a table.
#[tactic(auto, using(crate::proofs::WritingLemmas::table_text))]
pub fn push_table(text: &mut Text, table: &Table) -> Result<(), Memory>
    ensures { OnOk result (text.new ≡ text.old ++ line_text (line.Table table.now)) }
{
    text.push_bytes(b"table")?;
    push_words(text, &table.words)?;
    text.push_bytes(b"\n")
}

fn push_words(text: &mut Text, words: &[u64]) -> Result<(), Memory>
    ensures { OnOk result (text.new ≡ text.old ++ flat_map (λ word. spaced (hex_digits 16 word)) words.now) }
{
    for word in words {
        push_hex(text, *word)?;
    }
    Ok(())
}

/// Adds the line of a task, and of the item that it claims.
#[tactic(auto, using(crate::proofs::WritingLemmas::eval_text, crate::proofs::WritingLemmas::hold_text))]
pub fn push_task(text: &mut Text, task: &Task, item: u32) -> Result<(), Memory>
    ensures { OnOk result (text.new ≡ text.old ++ line_text (line.Work task.now item)) }
{
    match task {
        Task::Eval {
            slot,
            table,
            a,
            b,
            c,
            d,
        } => push_eval(text, &[*slot, *table], &[*a, *b, *c, *d], item),
        Task::Hold { slot, from } => push_hold(text, *slot, from, item),
    }
}

/// Adds the line of an evaluation.
fn push_eval(text: &mut Text, numbers: &[u32], sources: &[Source], item: u32) -> Result<(), Memory>
    ensures { OnOk result (text.new ≡ text.old ++ codes "eval" ++ flat_map (λ n. spaced (decimal n)) numbers.now
        ++ flat_map (λ source. spaced (source_word source)) sources.now ++ spaced (decimal item) ++ codes "\n") }
{
    text.push_bytes(b"eval")?;
    push_numbers(text, numbers)?;
    push_sources(text, sources)?;
    push_item(text, item)
}

/// Adds the line of a holding task.
fn push_hold(text: &mut Text, slot: u32, from: &Source, item: u32) -> Result<(), Memory>
    ensures { OnOk result (text.new ≡ text.old ++ codes "hold" ++ spaced (decimal slot) ++ spaced (source_word from.now)
        ++ spaced (decimal item) ++ codes "\n") }
{
    push_named(text, b"hold", slot)?;
    push_source(text, from)?;
    push_item(text, item)
}

/// Adds a space, the number of an item and the end of the line.
fn push_item(text: &mut Text, item: u32) -> Result<(), Memory>
    ensures { OnOk result (text.new ≡ text.old ++ spaced (decimal item) ++ codes "\n") }
{
    push_number(text, item as u64)?;
    text.push_bytes(b"\n")
}

/// Adds a line of a word and numbers.
fn push_row(text: &mut Text, word: &[u8], numbers: &[u32]) -> Result<(), Memory>
    ensures { OnOk result (text.new ≡ text.old ++ word.now ++ flat_map (λ n. spaced (decimal n)) numbers.now ++ codes "\n") }
{
    text.push_bytes(word)?;
    push_numbers(text, numbers)?;
    text.push_bytes(b"\n")
}

/// Adds the line of an output bit, and of the item that it claims.
#[tactic(auto, unfolding(crate::specs::Words::line_bytes, crate::specs::Words::line_words, crate::specs::code::Words::spaced))]
pub fn push_bit(text: &mut Text, bit: &OutBit, item: u32) -> Result<(), Memory>
    ensures { OnOk result (text.new ≡ text.old ++ line_text (line.Bit bit.now item)) }
{
    push_row(text, b"out", &[bit.slot, bit.block, bit.bit, item])
}

/// Adds the line of an input, and of the item that it claims.
#[tactic(auto, unfolding(crate::specs::Words::line_bytes, crate::specs::Words::line_words, crate::specs::code::Words::spaced))]
pub fn push_input(text: &mut Text, input: &InColumn, item: u32) -> Result<(), Memory>
    ensures { OnOk result (text.new ≡ text.old ++ line_text (line.Input input.now item)) }
{
    push_row(text, b"in", &[input.slot, input.column, item])
}

/// Adds the line of a printed source.
#[tactic(auto, unfolding(crate::specs::Words::line_bytes, crate::specs::Words::line_words, crate::specs::code::Words::spaced))]
pub fn push_print(text: &mut Text, source: &Source) -> Result<(), Memory>
    ensures { OnOk result (text.new ≡ text.old ++ line_text (line.Print source.now)) }
{
    text.push_bytes(b"print")?;
    push_source(text, source)?;
    text.push_bytes(b"\n")
}

/// Adds the line of a memory.
#[tactic(auto, using(crate::proofs::WritingLemmas::block_text))]
pub fn push_block(text: &mut Text, block: &BlockWork) -> Result<(), Memory>
    ensures { OnOk result (text.new ≡ text.old ++ line_text (line.Block block.now)) }
{
    text.push_bytes(b"block")?;
    push_number(text, block.address.len() as u64)?;
    push_number(text, block.word.len() as u64)?;
    push_source(text, &block.we)?;
    push_sources(text, block.address.as_slice())?;
    push_sources(text, block.word.as_slice())?;
    text.push_bytes(b"\n")
}

fn push_sources(text: &mut Text, sources: &[Source]) -> Result<(), Memory>
    ensures { OnOk result (text.new ≡ text.old ++ flat_map (λ source. spaced (source_word source)) sources.now) }
{
    for source in sources {
        push_source(text, source)?;
    }
    Ok(())
}

/// Adds the line of a link out.
#[tactic(auto, using(crate::proofs::WritingLemmas::send_text))]
pub fn push_send(text: &mut Text, link: &LinkOut) -> Result<(), Memory>
    ensures { OnOk result (text.new ≡ text.old ++ line_text (line.Send link.now)) }
{
    push_named(text, b"send", link.slot)?;
    push_numbers(text, link.readers.as_slice())?;
    text.push_bytes(b"\n")
}

fn push_numbers(text: &mut Text, numbers: &[u32]) -> Result<(), Memory>
    ensures { OnOk result (text.new ≡ text.old ++ flat_map (λ n. spaced (decimal n)) numbers.now) }
{
    for number in numbers {
        push_number(text, *number as u64)?;
    }
    Ok(())
}

/// Adds the line of a link in.
#[tactic(auto, unfolding(crate::specs::Words::line_bytes, crate::specs::Words::line_words, crate::specs::code::Words::spaced))]
pub fn push_take(text: &mut Text, link: &LinkIn) -> Result<(), Memory>
    ensures { OnOk result (text.new ≡ text.old ++ line_text (line.Take link.now)) }
{
    push_row(text, b"take", &[link.slot, link.sender])
}

/// Adds the last line of a text.
#[tactic(auto, unfolding(crate::specs::Words::line_bytes, crate::specs::Words::line_words))]
pub fn push_end(text: &mut Text) -> Result<(), Memory>
    ensures { OnOk result (text.new ≡ text.old ++ line_text line.End) }
{
    text.push_bytes(b"end\n")
}
