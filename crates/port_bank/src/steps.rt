//! Sources laid flat: each operand is a number of a bank.

ghost use Rattle.std.specs.Prelude.{◌≡◌, ◌+◌, ◌<◌, ◌≤◌};
ghost use Rattle.limits.specs.declared.TheConstants.{MAX_SLOTS};
ghost use Rattle.port_bank.specs.Flat.{operand_of, IsWithin};

use crate::places::number_of;
use image_defs::Source;
use logic_four::code;

/// A value of a bank: twice the number of its place, and one more for its value of the turn before.
///
/// Of S slots, place `s` has what the port's own item in slot `s` has, place `S + s` what the port
/// receives in slot `s`, and place `2 * S + c` the value whose code is `c`.
#[derive(Clone, Copy)]
pub struct Operand {
    pub number: u32,
}

/// The place of what is received in a slot, where a turn has so many slots.
pub(crate) fn got_place(slots: u32, slot: u32) -> u32
    requires few { slots ≤ MAX_SLOTS }
    requires within { slot < slots }
    ensures { result ≡ slots + slot }
{
    slots + slot
}

/// The operand of a source, where a turn has so many slots.
pub fn operand_of(slots: u32, source: Source) -> Operand
    requires few { slots ≤ MAX_SLOTS }
    requires within { IsWithin slots source }
    ensures { result ≡ operand_of slots source }
{
    match source {
        Source::Own { slot, last } => Operand {
            number: 2 * slot + number_of(last),
        },
        Source::Got { slot, last } => Operand {
            number: 2 * got_place(slots, slot) + number_of(last),
        },
        Source::Const(v) => Operand {
            number: 2 * (2 * slots + code(v) as u32),
        },
    }
}
