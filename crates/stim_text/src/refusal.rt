//! Why a stimulus text, a text of lanes or an order text is refused.

use seen_list::Memory;

/// Why a stimulus text is refused. Lines are counted from 1.
#[derive(Clone, Copy, PartialEq, Eq)]
pub enum StimNo {
    /// A byte among the values of the line is neither a blank nor a value, which without inputs is
    /// the byte `-`.
    BadChar { line: u32 },
    /// The line has `got` values where there are `want` inputs, or so many bytes `-`, of which one is
    /// wanted, where there is no input.
    Width { line: u32, got: u32, want: u32 },
    /// What stands after the first `*` of the line is no number of 1 to 1,000,000.
    Repeat { line: u32 },
    /// The rows up to some line stand for more than 1,000,000 cycles.
    TooManyCycles,
    /// There was not enough memory to read the text.
    Memory,
}

impl From<Memory> for StimNo {
    ghost use Rattle.std.specs.Prelude.{◌≡◌};
    ghost use Rattle.stim_text.specs.declared.refusal.StimNo.TheVariants.{Memory as NoMemory};

    ghost from_gives = { λ _ e. e ≡ NoMemory };

    fn from(_refused: Memory) -> StimNo {
        StimNo::Memory
    }
}

/// Why a text of lanes is refused. Lines are counted from 1, in the whole text.
#[derive(Clone, Copy, PartialEq, Eq)]
pub enum LaneNo {
    /// The line is not blank, and no lane has begun.
    NoLane { line: u32 },
    /// The line begins a lane where `LANES` have begun.
    TooMany { line: u32 },
    /// A line of a lane has this fault, which is never that of the memory. The cycles are those of
    /// the lane.
    Stim(StimNo),
    /// There was not enough memory to read the text.
    Memory,
}

impl From<Memory> for LaneNo {
    ghost use Rattle.std.specs.Prelude.{◌≡◌};
    ghost use Rattle.stim_text.specs.declared.refusal.LaneNo.TheVariants.{Memory as NoMemory};

    ghost from_gives = { λ _ e. e ≡ NoMemory };

    fn from(_refused: Memory) -> LaneNo {
        LaneNo::Memory
    }
}

/// Why an order text is refused. Lines are counted from 1.
#[derive(Clone, Copy, PartialEq, Eq)]
pub enum OrderNo {
    /// The line is neither blank, nor a number, nor a number, `*` and a number of 1 to 1,000,000.
    Syntax { line: u32 },
    /// The line's number is that of no port.
    Port { line: u32 },
    /// The lines up to this one stand for more than 1,000,000,000 steps.
    TooLong { line: u32 },
    /// There was not enough memory to read the text.
    Memory,
}

impl From<Memory> for OrderNo {
    ghost use Rattle.std.specs.Prelude.{◌≡◌};
    ghost use Rattle.stim_text.specs.declared.refusal.OrderNo.TheVariants.{Memory as NoMemory};

    ghost from_gives = { λ _ e. e ≡ NoMemory };

    fn from(_refused: Memory) -> OrderNo {
        OrderNo::Memory
    }
}
