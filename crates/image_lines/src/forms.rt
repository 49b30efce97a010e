//! The forms of lines.

ghost use Rattle.std.specs.Prelude.{◌≡◌, IfOk, true, false};
ghost use Rattle.text_lines.specs.Answers.{AnswersAs};
ghost use Rattle.image_lines.specs.Forms.{line_read, line_in, form, eval, hold, bit, input, print, receipt, port, version, head, finished_by, is_within, is_from};
ghost use Rattle.image_lines.specs.{declared.line.LineNo.TheVariants.Memory as NoMemory, code.Tokens.Gives, code.Forms.IsShort};
ghost use Rattle.image_lines.specs.declared.line.Line.TheVariants as line;

use crate::fields::Fields;
use crate::line::{Line, LineNo, PortKind, Sizes};
use crate::lists::{block, send, table};
use crate::word::{Word, is_word, named};
use image_defs::{BlockWork, InColumn, LinkIn, OutBit, Source, Task};
use limits::{MAX_ADDRESS_BITS, MAX_PORTS, MAX_SIGNALS, MAX_SLOTS, MAX_UNITS, MAX_WORD_BITS};
use seen_list::Memory;
use std::alloc::Global;

/// What a line says, the LF that ends it not counted, and whether each number in it is in its range. One
/// that is too large is read as the greatest one. `Syntax`: the line has none of the forms.
#[tactic(auto, unfolding(crate::specs::Forms::line_read))]
pub fn read_line(alloc: Global, bytes: &[u8]) -> Result<(Line, bool), LineNo>
    ensures read { AnswersAs NoMemory result (line_read bytes.now) }
    ensures within { IfOk result (λ read. read.1 ≡ true → is_within read.0 ≡ true) }
{
    let mut fields = Fields::new(bytes);
    match any_form(alloc, &mut fields) {
        Ok(Some(line)) => finished(line, fields),
        Ok(None) => Err(LineNo::Syntax),
        Err(_memory) => Err(LineNo::Memory),
    }
}

/// The line, unless there are more fields, and whether its numbers are in their ranges.
fn finished(line: Line, mut fields: Fields) -> Result<(Line, bool), LineNo>
    ensures read { result ≡ finished_by line fields.entry.0 fields.entry.1 }
    ensures within { IfOk result (λ read. read.1 ≡ true → is_within read.0 ≡ true) }
{
    let large = fields.is_large();
    if fields.next().is_some() {
        return Err(LineNo::Syntax);
    }
    let within = !large && is_within(&line);
    Ok((line, within))
}

/// Whether the numbers of a head, and the lengths of a memory, are in their ranges.
fn is_within(line: &Line) -> bool
    ensures { result ≡ is_within line.now }
{
    match line {
        Line::Head(sizes) => is_head_within(sizes),
        Line::Block(block) => is_block_within(block),
        _ => true,
    }
}

fn is_head_within(sizes: &Sizes) -> bool
    ensures { result ≡ is_within (line.Head sizes.now) }
{
    sizes.slots <= MAX_SLOTS
        && is_from(1, MAX_UNITS, sizes.units)
        && sizes.columns as usize <= MAX_SIGNALS
        && is_from(1, MAX_PORTS, sizes.ports)
}

fn is_block_within(block: &BlockWork) -> bool
    ensures { result ≡ is_within (line.Block block.now) }
{
    is_length(MAX_ADDRESS_BITS, block.address.len()) && is_length(MAX_WORD_BITS, block.word.len())
}

fn is_from(least: u32, most: u32, n: u32) -> bool
    ensures { result ≡ is_from least most n }
{
    least <= n && n <= most
}

fn is_length(most: usize, n: usize) -> bool
    ensures { result ≡ is_from 1 most n }
{
    1 <= n && n <= most
}

/// What the fields of a line say, as far as they say anything.
#[tactic(auto, unfolding(crate::specs::Forms::line_in))]
fn any_form(alloc: Global, fields: &mut Fields) -> Result<Option<Line>, Memory>
    requires { fields.old.1 ≡ false }
    ensures { IfOk result (λ read. Gives (line_in fields.old.0) read fields.new) }
{
    let Some(first) = fields.next() else {
        return Ok(None);
    };
    match named(first) {
        Some(word) => form(alloc, word, fields),
        None => Ok(None),
    }
}

/// What the fields behind the first one say.
fn form(alloc: Global, word: Word, fields: &mut Fields) -> Result<Option<Line>, Memory>
    ensures { IfOk result (λ read. Gives (form word fields.old) read fields.new) }
{
    match word {
        Word::Table => table(alloc, fields),
        Word::Block => block(alloc, fields),
        Word::Send => send(alloc, fields),
        _ => Ok(short_form(word, fields)),
    }
}

/// What the fields behind the first one say, in a form with so many fields and no more.
fn short_form(word: Word, fields: &mut Fields) -> Option<Line>
    requires { IsShort word }
    ensures { Gives (form word fields.old) result fields.new }
{
    match word {
        Word::Version => version(fields),
        Word::Slots => head(fields),
        Word::Port => port(fields),
        Word::Eval => eval(fields),
        Word::Hold => hold(fields),
        Word::Out => bit(fields),
        Word::In => input(fields),
        Word::Print => print(fields),
        Word::Take => receipt(fields),
        Word::End => Some(Line::End),
        Word::Table | Word::Block | Word::Send => unreachable!(),
    }
}

#[tactic(auto, unfolding(crate::specs::Forms::version, crate::specs::Tokens::behind))]
fn version(fields: &mut Fields) -> Option<Line>
    ensures { Gives (version fields.old) result fields.new }
{
    let Some(token) = fields.next() else {
        return None;
    };
    if is_word(token, b"1") {
        Some(Line::Version)
    } else {
        None
    }
}

#[tactic(auto, unfolding(crate::specs::Forms::head, crate::specs::Tokens::both))]
fn head(fields: &mut Fields) -> Option<Line>
    ensures { Gives (head fields.old) result fields.new }
{
    let Some((slots, units)) = fields.times() else {
        return None;
    };
    let Some(init) = fields.init() else {
        return None;
    };
    let Some((columns, ports)) = fields.counts() else {
        return None;
    };
    Some(Line::Head(Sizes {
        slots,
        units,
        init,
        columns,
        ports,
    }))
}

#[tactic(auto, unfolding(crate::specs::Forms::port))]
fn port(fields: &mut Fields) -> Option<Line>
    ensures { Gives (port fields.old) result fields.new }
{
    let Some(kind) = fields.field::<PortKind>() else {
        return None;
    };
    Some(Line::Port(kind))
}

#[tactic(auto, unfolding(crate::specs::Forms::eval, crate::specs::Tokens::both))]
fn eval(fields: &mut Fields) -> Option<Line>
    ensures { Gives (eval fields.old) result fields.new }
{
    let Some((slot, table)) = fields.numbers() else {
        return None;
    };
    let Some(((a, b), (c, d))) = fields.feeds() else {
        return None;
    };
    let Some(item) = fields.field::<u32>() else {
        return None;
    };
    let task = Task::Eval {
        slot,
        table,
        a,
        b,
        c,
        d,
    };
    Some(Line::Work { task, item })
}

#[tactic(auto, unfolding(crate::specs::Forms::hold, crate::specs::Tokens::both))]
fn hold(fields: &mut Fields) -> Option<Line>
    ensures { Gives (hold fields.old) result fields.new }
{
    let Some(slot) = fields.field::<u32>() else {
        return None;
    };
    let Some(from) = fields.field::<Source>() else {
        return None;
    };
    let Some(item) = fields.field::<u32>() else {
        return None;
    };
    let task = Task::Hold { slot, from };
    Some(Line::Work { task, item })
}

#[tactic(auto, unfolding(crate::specs::Forms::bit, crate::specs::Tokens::both))]
fn bit(fields: &mut Fields) -> Option<Line>
    ensures { Gives (bit fields.old) result fields.new }
{
    let Some((slot, block)) = fields.numbers() else {
        return None;
    };
    let Some((bit, item)) = fields.numbers() else {
        return None;
    };
    let bit = OutBit { slot, block, bit };
    Some(Line::Bit { bit, item })
}

#[tactic(auto, unfolding(crate::specs::Forms::input, crate::specs::Tokens::both))]
fn input(fields: &mut Fields) -> Option<Line>
    ensures { Gives (input fields.old) result fields.new }
{
    let Some(slot) = fields.field::<u32>() else {
        return None;
    };
    let Some((column, item)) = fields.numbers() else {
        return None;
    };
    let input = InColumn { slot, column };
    Some(Line::Input { input, item })
}

#[tactic(auto, unfolding(crate::specs::Forms::print))]
fn print(fields: &mut Fields) -> Option<Line>
    ensures { Gives (print fields.old) result fields.new }
{
    let Some(source) = fields.field::<Source>() else {
        return None;
    };
    Some(Line::Print(source))
}

#[tactic(auto, unfolding(crate::specs::Forms::receipt))]
fn receipt(fields: &mut Fields) -> Option<Line>
    ensures { Gives (receipt fields.old) result fields.new }
{
    let Some((slot, sender)) = fields.numbers() else {
        return None;
    };
    Some(Line::Take(LinkIn { slot, sender }))
}
