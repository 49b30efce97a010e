//! Why a call ends before its output. A fault of writing is no refusal.

use bench_read::{BenchNo, FaultNo, LastNo};
use image_check::CheckNo;
use image_file::ImageNo;
use machine_text::MachNo;
use net_defs::Netlist;
use seen_list::{List, Memory};
use stim_text::{LaneNo, OrderNo, StimNo};
use yse_compile::CompNo;

/// A refusal, with what its line names.
#[derive(Drop)]
pub enum Refusal<'a> {
    /// The words are not of the form.
    Words,
    /// The file could not be read.
    ReadFault(&'a [u8]),
    /// The file has too many bytes.
    TooLong(&'a [u8]),
    /// The text is no machine.
    Machine(MachNo),
    /// The text is no netlist.
    Netlist(BenchNo),
    /// Gates of the netlist wait for one another.
    Loop(Netlist, List<u32>),
    /// The netlist does not fit the machine.
    Overfull(Netlist, CompNo),
    /// The text is no stimulus for the netlist.
    Stimulus(StimNo),
    /// There are too many cells.
    Cells(u64),
    /// The text is no order of the machine's ports.
    OrderText(OrderNo),
    /// The text is no list of the netlist's gates.
    LastList(LastNo),
    /// The text is no list of the netlist's stuck faults.
    FaultList(FaultNo),
    /// The text is no image.
    ImageText(ImageNo),
    /// The image does not match the netlist.
    ImageMatch(CheckNo),
    /// The text is none of lanes for the netlist.
    Lanes(LaneNo),
    /// There are too many bits of memories.
    MemoryBits(u64),
    /// There are too many signals.
    Signals(u64),
    /// Want of memory.
    Memory,
}

impl<'a> From<Memory> for Refusal<'a> {
    ghost use Rattle.std.specs.Prelude.{◌≡◌};
    ghost use Rattle.refusals.specs.declared.refusal.Refusal.TheVariants.{Memory as NoMemory};

    ghost from_gives = { λ _ e. e ≡ NoMemory };

    fn from(_refused: Memory) -> Refusal<'a> {
        Refusal::Memory
    }
}

impl<'a> From<MachNo> for Refusal<'a> {
    ghost use Rattle.std.specs.Prelude.{◌≡◌};
    ghost use Rattle.refusals.specs.Refusals.{of_machine};

    ghost from_gives = { λ no e. e ≡ of_machine no };

    fn from(no: MachNo) -> Refusal<'a> {
        match no {
            MachNo::Memory => Refusal::Memory,
            other => Refusal::Machine(other),
        }
    }
}

impl<'a> From<BenchNo> for Refusal<'a> {
    ghost use Rattle.std.specs.Prelude.{◌≡◌};
    ghost use Rattle.refusals.specs.Refusals.{of_netlist};

    ghost from_gives = { λ no e. e ≡ of_netlist no };

    fn from(no: BenchNo) -> Refusal<'a> {
        match no {
            BenchNo::Memory => Refusal::Memory,
            other => Refusal::Netlist(other),
        }
    }
}

impl<'a> From<StimNo> for Refusal<'a> {
    ghost use Rattle.std.specs.Prelude.{◌≡◌};
    ghost use Rattle.refusals.specs.Refusals.{of_stimulus};

    ghost from_gives = { λ no e. e ≡ of_stimulus no };

    fn from(no: StimNo) -> Refusal<'a> {
        match no {
            StimNo::Memory => Refusal::Memory,
            other => Refusal::Stimulus(other),
        }
    }
}

impl<'a> From<LaneNo> for Refusal<'a> {
    ghost use Rattle.std.specs.Prelude.{◌≡◌};
    ghost use Rattle.refusals.specs.Refusals.{of_lanes};

    ghost from_gives = { λ no e. e ≡ of_lanes no };

    fn from(no: LaneNo) -> Refusal<'a> {
        match no {
            LaneNo::Memory => Refusal::Memory,
            other => Refusal::Lanes(other),
        }
    }
}

impl<'a> From<OrderNo> for Refusal<'a> {
    ghost use Rattle.std.specs.Prelude.{◌≡◌};
    ghost use Rattle.refusals.specs.Refusals.{of_order};

    ghost from_gives = { λ no e. e ≡ of_order no };

    fn from(no: OrderNo) -> Refusal<'a> {
        match no {
            OrderNo::Memory => Refusal::Memory,
            other => Refusal::OrderText(other),
        }
    }
}

impl<'a> From<LastNo> for Refusal<'a> {
    ghost use Rattle.std.specs.Prelude.{◌≡◌};
    ghost use Rattle.refusals.specs.Refusals.{of_list};

    ghost from_gives = { λ no e. e ≡ of_list no };

    fn from(no: LastNo) -> Refusal<'a> {
        match no {
            LastNo::Memory => Refusal::Memory,
            other => Refusal::LastList(other),
        }
    }
}

impl<'a> From<FaultNo> for Refusal<'a> {
    ghost use Rattle.std.specs.Prelude.{◌≡◌};
    ghost use Rattle.refusals.specs.Refusals.{of_faults};

    ghost from_gives = { λ no e. e ≡ of_faults no };

    fn from(no: FaultNo) -> Refusal<'a> {
        match no {
            FaultNo::Memory => Refusal::Memory,
            other => Refusal::FaultList(other),
        }
    }
}

impl<'a> From<ImageNo> for Refusal<'a> {
    ghost use Rattle.std.specs.Prelude.{◌≡◌};
    ghost use Rattle.refusals.specs.Refusals.{of_image};

    ghost from_gives = { λ no e. e ≡ of_image no };

    fn from(no: ImageNo) -> Refusal<'a> {
        match no {
            ImageNo::Memory => Refusal::Memory,
            other => Refusal::ImageText(other),
        }
    }
}

impl<'a> From<CheckNo> for Refusal<'a> {
    ghost use Rattle.std.specs.Prelude.{◌≡◌};
    ghost use Rattle.refusals.specs.Refusals.{of_match};

    ghost from_gives = { λ no e. e ≡ of_match no };

    fn from(no: CheckNo) -> Refusal<'a> {
        match no {
            CheckNo::Memory => Refusal::Memory,
            other => Refusal::ImageMatch(other),
        }
    }
}
