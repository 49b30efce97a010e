//! Commands, and why words are no command.

use crate::topic::Topic;
use net_defs::{HomeChoice, Timing};
use seen_list::{Memory, Text};

/// What a simulation is asked for: its files, and its options, each with its default where it is not
/// given.
#[derive(Drop)]
pub struct RunWords {
    /// The file of the netlist.
    pub netlist: Text,
    /// The file of the stimulus; empty for a plan and for an image.
    pub stimulus: Text,
    /// The file of the machine. `None` stands for the default machine.
    pub machine: Option<Text>,
    /// The file of the order of the ports, of `order` alone, where `None` stands for rounds.
    pub order: Option<Text>,
    /// The file of the list of gates that read the last turn: exactly in mixed mode there is one.
    pub last: Option<Text>,
    /// How the netlist is run in time. It is valid: `IsInRange`. It lists no gate: the file of the list
    /// is not read here.
    pub timing: Timing,
    /// The words that the crossbar has for each send, 1 to 8.
    pub banks: u32,
    /// The workers that step the machine's ports, 1 to 64.
    pub workers: u32,
    /// The homes that the nodes get.
    pub homes: HomeChoice,
    /// The file of the list of stuck faults, of `fault` alone, where `None` stands for all of the netlist.
    pub faults: Option<Text>,
}

/// What words ask for.
#[derive(Drop)]
pub enum Command {
    /// The trace of the simulation, by the compiled machine.
    Run(RunWords),
    /// The same trace, by the reference simulation.
    Refer(RunWords),
    /// The same trace, by the compiled machine under an order of its ports.
    Order(RunWords),
    /// How a netlist is laid out on the machine. There is no file of a stimulus.
    Plan(RunWords),
    /// The canonical text of a netlist.
    Show {
        /// The file of the netlist.
        netlist: Text,
    },
    /// The summary of a run of a generated design. There are no files.
    Large {
        /// The gates of the design, 1 to 30,000.
        gates: u32,
        /// The cycles of the run, 1 to 10,000.
        cycles: u32,
        /// The workers that step the machine's ports, 1 to 64.
        workers: u32,
    },
    /// The text of a netlist's compiled image. There is no file of a stimulus.
    Compile(RunWords),
    /// The same trace as `Run`, by an image that was compiled before.
    Exec {
        /// The simulation. There is no file of a machine.
        words: RunWords,
        /// The file of the image.
        image: Text,
    },
    /// The traces of up to 30 simulations at once, by the compiled machine. The file of the stimulus is one of lanes.
    Pack(RunWords),
    /// Where stuck faults of a netlist are first seen.
    Fault(RunWords),
    /// Which values each signal had, and which changes it made, in the reference simulation.
    Cover(RunWords),
    /// What a command is called with and what it prints, or the same of all in brief. There are no files.
    Help(Option<Topic>),
}

/// Why words are refused.
#[derive(Clone, Copy)]
pub enum WordNo {
    /// The words are of the form of no command.
    Usage,
    /// There was not enough memory to read the words.
    Memory,
}

impl From<Memory> for WordNo {
    ghost use Rattle.std.specs.Prelude.{◌≡◌};
    ghost use Rattle.cmd_words.specs.declared.command.WordNo.TheVariants.{Memory as NoMemory};

    ghost from_gives = { λ _ e. e ≡ NoMemory };

    fn from(_refused: Memory) -> WordNo {
        WordNo::Memory
    }
}
