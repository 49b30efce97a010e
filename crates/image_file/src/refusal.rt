//! Why an image text is refused.

use seen_list::Memory;

/// Why an image text is refused. Lines are counted from 1.
#[derive(Clone, Copy)]
pub enum ImageNo {
    /// The line isn't of a form that may stand there, or has no LF, or stands behind the line `end`.
    /// Where the text ends before its line `end`, it is the line that would follow.
    Syntax { line: u32 },
    /// A number in the line is out of its range, or there are more array ports, more tables of a port
    /// or more bits of its memories than are allowed.
    Range { line: u32 },
    /// There was not enough memory to read the text.
    Memory,
}

impl From<Memory> for ImageNo {
    ghost use Rattle.std.specs.Prelude.{◌≡◌};
    ghost use Rattle.image_file.specs.declared.refusal.ImageNo.TheVariants.{Memory as NoMemory};

    ghost from_gives = { λ _ e. e ≡ NoMemory };

    fn from(_refused: Memory) -> ImageNo {
        ImageNo::Memory
    }
}
