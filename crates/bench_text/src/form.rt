//! The form of a line, by its marks and names.

ghost use Rattle.std.specs.Prelude.{◌≡◌, ℕ, List as Items, map, IfOk};
ghost use Rattle.std.specs.Option.{option_map};
ghost use Rattle.bench_text.specs.{Rows.pieces_of, Heads.FoundForm};
ghost use Rattle.bench_text.specs.Decoding as steps;

use crate::Mark;
use crate::piece::{no_more, take_sign, take_word};
use crate::taking::take_names;
use seen_list::{List, Memory};

/// What stands in a line that has a form, but for the names of its lists, and how many those are.
#[derive(Clone, Copy)]
pub enum Head<'a> {
    /// `WORD(name)`
    Port {
        word: &'a [u8],
        name: &'a [u8],
    },
    /// `name = WORD(name, ..)`
    Gate {
        name: &'a [u8],
        word: &'a [u8],
        uses: usize,
    },
    /// `[name, ..] = WORD(name; name, ..; name, ..)`
    Memory {
        word: &'a [u8],
        outs: usize,
        address: usize,
        words: usize,
    },
}

/// The form of a part of a line, whose driven names in square brackets are added to one list and whose used
/// names in round brackets to the other; `None` where its marks and names spell no form. What the two lists
/// then hold is said where there is a form and none of its lists has more than 1,024 names.
pub fn read_form<'a>(
    part: &'a [u8],
    outs: &mut List<&'a [u8]>,
    uses: &mut List<&'a [u8]>,
) -> Result<Option<Head<'a>>, Memory>
    ensures { IfOk result (λ found. FoundForm (map (λ name. name.now) outs.old) (map (λ name. name.now) outs.new)
        (map (λ name. name.now) uses.old) (map (λ name. name.now) uses.new) found (steps.form_of (pieces_of part.now))) }
{
    if let Some(rest) = take_sign(Mark::Left, part) {
        return memory_behind(rest, outs, uses);
    }
    let Some((first, rest)) = take_word(part) else {
        return Ok(None);
    };
    if let Some(rest) = take_sign(Mark::Open, rest) {
        return Ok(port_behind(first, rest));
    }
    let Some(rest) = take_sign(Mark::Equals, rest) else {
        return Ok(None);
    };
    gate_behind(first, rest, uses)
}

/// Behind `WORD (`: a port line.
fn port_behind<'a>(word: &'a [u8], part: &'a [u8]) -> Option<Head<'a>>
    ensures { (outs uses : Items (Items ℕ)) → FoundForm outs outs uses uses result (steps.port_behind word.now (pieces_of part.now)) }
{
    let (name, rest) = take_word(part)?;
    if is_closed(rest) {
        Some(Head::Port { word, name })
    } else {
        None
    }
}

/// Behind `name =`: a gate line, whose used names are added to the list.
fn gate_behind<'a>(
    name: &'a [u8],
    part: &'a [u8],
    uses: &mut List<&'a [u8]>,
) -> Result<Option<Head<'a>>, Memory>
    ensures { IfOk result (λ found. (outs : Items (Items ℕ)) → FoundForm outs outs (map (λ name. name.now) uses.old)
        (map (λ name. name.now) uses.new) found (steps.gate_behind name.now (pieces_of part.now))) }
{
    let Some((word, rest)) = take_word(part) else {
        return Ok(None);
    };
    let Some(rest) = take_sign(Mark::Open, rest) else {
        return Ok(None);
    };
    let Some((rest, count)) = take_names(rest, uses)? else {
        return Ok(None);
    };
    if is_closed(rest) {
        Ok(Some(Head::Gate {
            name,
            word,
            uses: count,
        }))
    } else {
        Ok(None)
    }
}

/// Behind `[`: a memory line. Its outputs are added to one list, and its write enable, its address and its
/// data to the other.
fn memory_behind<'a>(
    part: &'a [u8],
    outs: &mut List<&'a [u8]>,
    uses: &mut List<&'a [u8]>,
) -> Result<Option<Head<'a>>, Memory>
    ensures { IfOk result (λ found. FoundForm (map (λ name. name.now) outs.old) (map (λ name. name.now) outs.new)
        (map (λ name. name.now) uses.old) (map (λ name. name.now) uses.new) found (steps.memory_behind (pieces_of part.now))) }
{
    let Some((rest, out_count)) = take_names(part, outs)? else {
        return Ok(None);
    };
    let Some((word, enable, rest)) = take_head(rest) else {
        return Ok(None);
    };
    uses.push(enable)?;
    let Some((rest, address)) = take_names(rest, uses)? else {
        return Ok(None);
    };
    let Some(rest) = take_sign(Mark::Semi, rest) else {
        return Ok(None);
    };
    let Some((rest, words)) = take_names(rest, uses)? else {
        return Ok(None);
    };
    if is_closed(rest) {
        Ok(Some(Head::Memory {
            word,
            outs: out_count,
            address,
            words,
        }))
    } else {
        Ok(None)
    }
}

/// `] = WORD ( name ;`: the word and the name, and the part behind them.
fn take_head(part: &[u8]) -> Option<(&[u8], &[u8], &[u8])>
    ensures { option_map (λ head. ((head.0.now, head.1.now), pieces_of head.2.now)) result ≡ steps.take_head (pieces_of part.now) }
{
    let rest = take_sign(Mark::Right, part)?;
    let rest = take_sign(Mark::Equals, rest)?;
    let (word, rest) = take_word(rest)?;
    let rest = take_sign(Mark::Open, rest)?;
    let (enable, rest) = take_word(rest)?;
    let rest = take_sign(Mark::Semi, rest)?;
    Some((word, enable, rest))
}

/// Whether the last bracket comes next and is the last piece.
fn is_closed(part: &[u8]) -> bool
    ensures { result ≡ steps.is_closed (pieces_of part.now) }
{
    match take_sign(Mark::Close, part) {
        Some(rest) => no_more(rest),
        None => false,
    }
}
