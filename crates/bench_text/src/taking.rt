//! The names of a list, taken off the front of a part.

ghost use Rattle.std.specs.Prelude.{◌≡◌, ◌<◌, ◌∷◌, [], ◌++◌, map, IfOk, OnOk};
ghost use Rattle.std.specs.Option.{option_map};
ghost use Rattle.limits.specs.declared.TheConstants.{MAX_GATE_OPERANDS as MOST_NAMES};
ghost use Rattle.bench_text.specs.{Rows.pieces_of, code.Taking.TookNames};
ghost use Rattle.bench_text.specs.Decoding as steps;

use crate::Mark;
use crate::piece::{take_sign, take_word};
use limits::MAX_GATE_OPERANDS;
use seen_list::{List, Memory};

/// Takes the names at the front, one or more with a comma between each two, and answers the part behind
/// them and how many they are. No more of them are added to the list than the widest gate may have.
pub fn take_names<'a>(
    part: &'a [u8],
    names: &mut List<&'a [u8]>,
) -> Result<Option<(&'a [u8], usize)>, Memory>
    ensures { IfOk result (λ found. TookNames (map (λ name. name.now) names.old) (map (λ name. name.now) names.new)
        (option_map (λ left. (pieces_of left.0.now, left.1)) found) (steps.take_names (pieces_of part.now))) }
{
    let Some((first, behind_first)) = take_word(part) else {
        return Ok(None);
    };
    names.push(first)?;
    let mut rest = behind_first;
    let mut count = 1;
    'commas: while let Some(behind) = take_sign(Mark::Comma, rest) {
        let Some((name, after)) = take_word(behind) else {
            return Ok(None);
        };
        add_name(names, count, name)?;
        count += 1;
        rest = after;
    }
    Ok(Some((rest, count)))
}

/// Adds a name to the list, where so many names before it leave room in the widest gate.
fn add_name<'a>(names: &mut List<&'a [u8]>, before: usize, name: &'a [u8]) -> Result<(), Memory>
    ensures { OnOk result (before < MOST_NAMES → map (λ name. name.now) names.new ≡ map (λ name. name.now) names.old ++ name.now ∷ []) }
{
    if before < MAX_GATE_OPERANDS {
        names.push(name)?;
    }
    Ok(())
}
