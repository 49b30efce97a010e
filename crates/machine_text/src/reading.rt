//! The reader of machine texts.

ghost use Rattle.std.specs.Prelude.{◌≡◌, ◌≤◌, true, None, MatchResult, IfOk, All, length};
ghost use Rattle.limits.specs.declared.TheConstants.{MAX_TEXT_BYTES};
ghost use Rattle.text_lines.specs.{Answers.Answers, Answers.first, code.Answers.fault_or};
ghost use Rattle.machine_text.specs.Settings.{is_allowed, limit_of, limits_of, lines_say, settings_of};
ghost use Rattle.machine_text.specs.Machines.{IsValid, Reads, absent_fault, first_fault, line_fault, machine_of, number_in, port_fault, processors};
ghost use Rattle.machine_text.specs.declared.machine.{Machine.Machine, MachNo.TheVariants.Memory as NoMemory};
ghost use Rattle.machine_text.specs.code.Given.{given_none, if_below};

use crate::digits::Digits;
use crate::given::{Given, in_range, take_line};
use crate::machine::{Limited, MachNo, Machine, PortLimit};
use crate::quantity::{Quantity, is_same, quantity_of};
use crate::saying::{Sayings, Says, Setting};
use limits::MAX_PORTS;
use seen_list::List;
use std::alloc::Global;

/// The machine that the text describes, or the text's first fault. A fault of a line is a wrong
/// form, what an earlier line gives too, or else a number out of its range. Where no line has one
/// there may be too many ports, or else a line may limit a port that is not there.
pub fn read_machine(alloc: Global, bytes: &[u8]) -> Result<Machine, MachNo>
    requires { length bytes.now ≤ MAX_TEXT_BYTES }

    // What is read is what the text reads as, a refusal is the first fault, or memory ran out.
    ensures answers { Answers NoMemory result (first_fault bytes.now) (Reads bytes.now) }

    // What is read is a valid machine.
    ensures valid { IfOk result IsValid }

    // What the text reads as is read, unless memory ran out, and has no fault.
    ensures only { (machine : Machine) → Reads bytes.now machine
        → (first_fault bytes.now ≡ None) × MatchResult result (λ read. read ≡ machine) (λ e. e ≡ NoMemory) }
{
    let read = read_lines(alloc, bytes)?;
    let settings = read.as_slice();
    let logic = number_in(settings, Quantity::Logic);
    let array = number_in(settings, Quantity::Array);
    let sum = logic + array + 1;
    if sum > MAX_PORTS {
        return Err(MachNo::Ports { sum });
    }
    let own = read_limits(alloc, bytes, logic, array)?;
    Ok(machine_of(settings, own))
}

/// The settings of the lines of the text, or the fault of the first line that has one.
fn read_lines(alloc: Global, bytes: &[u8]) -> Result<List<Setting>, MachNo>
    requires { length bytes.now ≤ MAX_TEXT_BYTES }
    ensures { Answers NoMemory result (first (line_fault (lines_say bytes.now)) (length (lines_say bytes.now)))
        (λ read. read ≡ settings_of (lines_say bytes.now)) }
{
    let mut given = Given::new(alloc);
    take_lines(&mut given, bytes)?;
    Ok(given.into_settings())
}

/// Takes the lines of the text, or answers the fault of the first line that has one.
fn take_lines<'a>(given: &mut Given<'a>, bytes: &'a [u8]) -> Result<(), MachNo>
    requires short { length bytes.now ≤ MAX_TEXT_BYTES }
    requires begun { given.old ≡ given_none }
    ensures { Answers NoMemory result (first (line_fault (lines_say bytes.now)) (length (lines_say bytes.now)))
        (λ _. given.new.settings ≡ settings_of (lines_say bytes.now)) }
{
    for (line, said) in Sayings::new(bytes) {
        take_line(given, line, &said)?;
    }
    Ok(())
}

/// The limits of single ports that the lines of the text give, or the first line that limits a port
/// which is not there.
fn read_limits(
    alloc: Global,
    bytes: &[u8],
    logic: u32,
    array: u32,
) -> Result<List<PortLimit>, MachNo>
    requires short { length bytes.now ≤ MAX_TEXT_BYTES }
    requires allowed { All (λ said. is_allowed said ≡ true) (lines_say bytes.now) }
    ensures { Answers NoMemory result (first (port_fault logic array (lines_say bytes.now)) (length (lines_say bytes.now)))
        (λ own. own ≡ limits_of (lines_say bytes.now)) }
{
    let mut own = List::new(alloc);
    for (line, said) in Sayings::new(bytes) {
        if let Some(limit) = limit_said(logic, array, line, &said)? {
            own.push(limit)?;
        }
    }
    Ok(own)
}

/// The limit of a single port that a line gives, if it gives one, unless the port is not there.
fn limit_said(logic: u32, array: u32, line: u32, said: &Says) -> Result<Option<PortLimit>, MachNo>
    requires { is_allowed said.now ≡ true }
    ensures { result ≡ fault_or (absent_fault logic array line said.now) (limit_of said.now) }
{
    let Says::Limits { what, port, number } = said else {
        return Ok(None);
    };
    let what = *what;
    let Some(port) = below(processors(logic, array, what), port) else {
        return Err(MachNo::NoPort { line });
    };
    match in_range(quantity_of(what), number) {
        Some(limit) => Ok(Some(PortLimit { what, port, limit })),
        None => unreachable!(),
    }
}

/// How many ports there are of those that have such a limit.
fn processors(logic: u32, array: u32, what: Limited) -> u32
    ensures { result ≡ processors logic array what }
{
    match what {
        Limited::Functions | Limited::Nodes => logic,
        Limited::Bits => array,
    }
}

/// The number, where it is below a count.
fn below(count: u32, number: &Digits) -> Option<u32>
    ensures { result ≡ if_below count number.now }
{
    let value = number.capped();
    if value < u64::from(count) {
        Some(value as u32)
    } else {
        None
    }
}

/// The machine that the settings and the limits of single ports make.
fn machine_of(settings: &[Setting], own: List<PortLimit>) -> Machine
    ensures { result ≡ machine_of settings.now own }
{
    Machine {
        logic: number_in(settings, Quantity::Logic),
        array: number_in(settings, Quantity::Array),
        slots: number_in(settings, Quantity::Slots),
        functions: number_in(settings, Quantity::Functions),
        bits: number_in(settings, Quantity::Bits),
        nodes: number_in(settings, Quantity::Nodes),
        own,
    }
}

/// The number that the settings give the quantity, or its default.
fn number_in(settings: &[Setting], quantity: Quantity) -> u32
    ensures { result ≡ number_in settings.now quantity }
{
    match settings
        .iter()
        .find(|setting| is_same(quantity, setting.quantity))
    {
        Some(setting) => setting.value,
        None => quantity.default_number(),
    }
}
