//! What the lines of a machine text give, each quantity once.

ghost use Rattle.std.specs.Prelude.{◌≡◌, [], not, nat_eq, if◌then◌else◌, IfOk};
ghost use Rattle.std.specs.List.{list_any};
ghost use Rattle.text_lines.specs.Answers.{Answers};
ghost use Rattle.machine_text.specs.code.Given.{fault_in, given_after, if_in_range, ports_in, with_port};
ghost use Rattle.machine_text.specs.declared.{machine.MachNo.TheVariants.Memory as NoMemory, saying.Says.TheVariants.Sets, saying.Says.TheVariants.Limits};
ghost use Rattle.machine_text.specs.Settings.{sets};

use crate::digits::{Digits, Numbers};
use crate::machine::{Limited, MachNo};
use crate::quantity::{Quantity, is_same, quantity_of};
use crate::saying::{Says, Setting};
use seen_list::{List, Memory};
use std::alloc::Global;

/// What the lines so far give.
#[derive(Drop)]
pub struct Given<'a> {
    /// For all ports, in file order.
    pub settings: List<Setting>,
    /// The logic processors that have their own limit of functions.
    pub functions: Numbers<'a>,
    /// The logic processors that have their own limit of nodes.
    pub nodes: Numbers<'a>,
    /// The array processors that have their own limit of bits.
    pub bits: Numbers<'a>,
}

impl<'a> Given<'a> {
    /// Nothing so far.
    pub fn new(alloc: Global) -> Given<'a>
        ensures { result ≡ record { settings = []; functions = []; nodes = []; bits = [] } }
    {
        Given {
            settings: List::new(alloc),
            functions: Numbers::new(alloc),
            nodes: Numbers::new(alloc),
            bits: Numbers::new(alloc),
        }
    }

    /// The numbers for all ports.
    pub fn into_settings(self) -> List<Setting>
        ensures { result ≡ self.entry.settings }
    {
        let Given {
            settings,
            functions,
            nodes,
            bits,
        } = self;
        // Drops by hand save 5 s of proof.
        drop(functions);
        drop(nodes);
        drop(bits);
        settings
    }

    /// Adds a port that has its own limit, if it is new, and answers whether it was.
    fn add_port(&mut self, what: Limited, port: &Digits<'a>) -> Result<bool, Memory>
        ensures is_new { IfOk result (λ is_new. is_new ≡ not (list_any (nat_eq port.now) (ports_in self.old what))) }
        ensures added { IfOk result (λ is_new. self.new ≡ (if is_new then with_port self.old what port.now else self.old)) }
    {
        match what {
            Limited::Functions => self.functions.add(port),
            Limited::Nodes => self.nodes.add(port),
            Limited::Bits => self.bits.add(port),
        }
    }
}

/// Takes one more line, or answers its fault.
pub fn take_line<'a>(given: &mut Given<'a>, line: u32, said: &Says<'a>) -> Result<(), MachNo>
    ensures { Answers NoMemory result (fault_in given.old line said.now) (λ _. given.new ≡ given_after given.old said.now) }
{
    match said {
        Says::Nothing => Ok(()),
        Says::Other => Err(MachNo::Syntax { line }),
        Says::Sets { quantity, number } => take_setting(given, line, *quantity, number),
        Says::Limits { what, port, number } => take_limit(given, line, *what, port, number),
    }
}

/// Takes a number for all ports.
fn take_setting(
    given: &mut Given,
    line: u32,
    quantity: Quantity,
    number: &Digits,
) -> Result<(), MachNo>
    ensures { Answers NoMemory result (fault_in given.old line (Sets quantity number.now)) (λ _. given.new ≡ given_after given.old (Sets quantity number.now)) }
{
    if is_set(given.settings.as_slice(), quantity) {
        return Err(MachNo::Twice { line });
    }
    match in_range(quantity, number) {
        Some(value) => {
            given.settings.push(Setting { quantity, value })?;
            Ok(())
        }
        None => Err(MachNo::Range { line }),
    }
}

/// Takes a number for one port.
fn take_limit<'a>(
    given: &mut Given<'a>,
    line: u32,
    what: Limited,
    port: &Digits<'a>,
    number: &Digits,
) -> Result<(), MachNo>
    ensures { Answers NoMemory result (fault_in given.old line (Limits what port.now number.now))
        (λ _. given.new ≡ given_after given.old (Limits what port.now number.now)) }
{
    if !given.add_port(what, port)? {
        return Err(MachNo::Twice { line });
    }
    match in_range(quantity_of(what), number) {
        Some(_) => Ok(()),
        None => Err(MachNo::Range { line }),
    }
}

/// Whether one of the settings is of the quantity.
fn is_set(settings: &[Setting], quantity: Quantity) -> bool
    ensures { result ≡ list_any (sets quantity) settings.now }
{
    settings
        .iter()
        .any(|setting| is_same(quantity, setting.quantity))
}

/// The number, where it is in the quantity's range.
pub fn in_range(quantity: Quantity, number: &Digits) -> Option<u32>
    ensures { result ≡ if_in_range quantity number.now }
{
    let value = number.capped();
    if value < u64::from(quantity.least()) || u64::from(quantity.most()) < value {
        None
    } else {
        Some(value as u32)
    }
}
