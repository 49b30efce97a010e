//! How a call ends.

ghost use Rattle.std.specs.Prelude.{◌≡◌};
ghost use Rattle.refusals.specs.Statuses.{status_number};

/// How a call ends. The program's exit status is its number.
#[derive(Clone, Copy, PartialEq, Eq)]
pub enum Status {
    /// The whole output was taken.
    Done,
    /// The words are not of the stated form.
    Words,
    /// A file could not be read.
    ReadFault,
    /// The output could not be written.
    WriteFault,
    /// A netlist is refused.
    Netlist,
    /// A machine text is refused.
    Machine,
    /// A loop of gates, none of them late.
    Loop,
    /// The design does not fit the machine.
    Overfull,
    /// A stimulus is refused.
    Stimulus,
    /// A size is past its limit.
    Limit,
    /// An order ended before every port was done.
    Unfinished,
    /// An order text is refused.
    OrderText,
    /// Want of memory.
    Memory,
    /// The text of a list of gates is refused.
    LastList,
    /// An image text is refused.
    ImageText,
    /// An image does not match the netlist.
    ImageMatch,
    /// The text of a list of stuck faults is refused.
    FaultList,
}

impl Status {
    /// The exit status: 0, 2 to 16, or 70.
    pub fn number(&self) -> u8
        ensures { result ≡ status_number self.now }
    {
        match self {
            Status::Done => 0,
            Status::Words => 2,
            Status::ReadFault => 3,
            Status::WriteFault => 4,
            Status::Netlist => 5,
            Status::Machine => 6,
            Status::Loop => 7,
            Status::Overfull => 8,
            Status::Stimulus => 9,
            Status::Limit => 10,
            Status::Unfinished => 11,
            Status::OrderText => 12,
            Status::Memory => 70,
            Status::LastList => 13,
            Status::ImageText => 14,
            Status::ImageMatch => 15,
            Status::FaultList => 16,
        }
    }
}
