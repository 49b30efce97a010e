//! All tokens that are left of a line.

ghost use Rattle.std.specs.Prelude.{◌≡◌, Some, None, IfOk};
ghost use Rattle.image_lines.specs.Forms.{send, send_of, table, table_of, block, block_of};
ghost use Rattle.image_lines.specs.{Tokens.all_of, code.Tokens.AllGiven, code.Tokens.Gives};

use crate::fields::Fields;
use crate::line::Line;
use crate::tokens::Token;
use func_table::Table;
use image_defs::{BlockWork, LinkOut, Source};
use seen_list::{List, Memory};
use std::alloc::Global;

/// The tokens that are left, all read as values of one type.
fn all_tokens<T: Token>(alloc: Global, fields: &mut Fields) -> Result<Option<List<T>>, Memory>
    ensures { IfOk result (λ read. AllGiven (all_of T.read fields.old.0 fields.old.1) read fields.new) }
{
    let mut values = List::new(alloc);
    'tokens: while let Some(token) = fields.next() {
        let Some((value, large)) = T::read(token) else {
            return Ok(None);
        };
        fields.note(large);
        values.push(value)?;
    }
    Ok(Some(values))
}

/// A link out: a slot and at least one reader.
#[tactic(auto, unfolding(crate::specs::Forms::send))]
pub(crate) fn send(alloc: Global, fields: &mut Fields) -> Result<Option<Line>, Memory>
    ensures { IfOk result (λ read. Gives (send fields.old) read fields.new) }
{
    let Some(slot) = fields.field::<u32>() else {
        return Ok(None);
    };
    let Some(readers) = all_tokens::<u32>(alloc, fields)? else {
        return Ok(None);
    };
    Ok(send_of(slot, readers))
}

/// The link out, unless it has no reader.
fn send_of(slot: u32, readers: List<u32>) -> Option<Line>
    ensures { result ≡ send_of slot readers }
{
    if readers.is_empty() {
        None
    } else {
        Some(Line::Send(LinkOut { slot, readers }))
    }
}

/// A table: eight words.
#[tactic(auto, unfolding(crate::specs::Forms::table))]
pub(crate) fn table(alloc: Global, fields: &mut Fields) -> Result<Option<Line>, Memory>
    ensures { IfOk result (λ read. Gives (table fields.old) read fields.new) }
{
    let Some(words) = all_tokens::<u64>(alloc, fields)? else {
        return Ok(None);
    };
    Ok(table_of(words.as_slice()))
}

/// The table of words, if they are eight.
#[tactic(auto, using(crate::proofs::FieldLemmas::eight))]
fn table_of(words: &[u64]) -> Option<Line>
    ensures { result ≡ table_of words.now }
{
    if words.len() != 8 {
        return None;
    }
    let words = [
        words[0], words[1], words[2], words[3], words[4], words[5], words[6], words[7],
    ];
    Some(Line::Table(Table { words }))
}

/// A memory: its numbers of address and data bits, and its sources.
#[tactic(auto, unfolding(crate::specs::Forms::block))]
pub(crate) fn block(alloc: Global, fields: &mut Fields) -> Result<Option<Line>, Memory>
    ensures { IfOk result (λ read. Gives (block fields.old) read fields.new) }
{
    let Some((address, word)) = fields.numbers() else {
        return Ok(None);
    };
    let Some(sources) = all_tokens::<Source>(alloc, fields)? else {
        return Ok(None);
    };
    block_of(alloc, address, word, sources.as_slice())
}

/// The memory, if it has as many sources as its numbers say.
fn block_of(
    alloc: Global,
    address: u32,
    word: u32,
    sources: &[Source],
) -> Result<Option<Line>, Memory>
    ensures { IfOk result (λ read. read ≡ block_of address word sources.now) }
{
    let [we, others @ ..] = sources else {
        return Ok(None);
    };
    if address as usize + word as usize != others.len() {
        return Ok(None);
    }
    let (address, word) = others.split_at(address as usize);
    let address = List::from_slice(alloc, address)?;
    let word = List::from_slice(alloc, word)?;
    let we = *we;
    Ok(Some(Line::Block(BlockWork { we, address, word })))
}
