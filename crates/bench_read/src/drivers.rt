//! The names that the lines of a text drive, each with its line.

ghost use Rattle.std.specs.Prelude.{◌≡◌, ◌⊎◌, ◌++◌, [], ◌∷◌, true, Some, map, bytes_eq};
ghost use Rattle.std.specs.List.{list_any};
ghost use Rattle.text_lines.specs.Answers.{Answers};
ghost use Rattle.bench_read.specs.declared.refusal.BenchNo.TheVariants.{Memory as NoMemory, DrivenTwice};
ghost use Rattle.bench_read.specs.{Placed.each_named, Faults.repeat_fault, Faults.twice_fault, code.Storing.named_by, code.Storing.names_by};

use crate::draft::DrivenName;
use crate::names::Names;
use crate::refusal::BenchNo;
use seen_list::{List, Text};
use std::alloc::Global;

/// Adds the names that line `at` drives to those that are driven, unless one of them is driven already.
pub fn drive<'a>(
    alloc: Global,
    at: u32,
    driven: &[&'a [u8]],
    names: &mut Names<'a>,
    drivers: &mut List<DrivenName<'a>>,
) -> Result<(), BenchNo>
    requires { names.old ≡ names_by drivers.old }
    ensures answers { Answers NoMemory result (twice_fault (map named_by drivers.old) (each_named at (map (λ name. name.now) driven.now)))
        (λ _. (names.new ≡ names_by drivers.new)
        × (map named_by drivers.new ≡ map named_by drivers.old ++ each_named at (map (λ name. name.now) driven.now))) }
{
    for name in driven {
        drive_one(alloc, at, *name, names, drivers)?;
    }
    Ok(())
}

/// Adds one name, unless it is driven already.
fn drive_one<'a>(
    alloc: Global,
    at: u32,
    name: &'a [u8],
    names: &mut Names<'a>,
    drivers: &mut List<DrivenName<'a>>,
) -> Result<(), BenchNo>
    requires { names.old ≡ names_by drivers.old }
    ensures answers { Answers NoMemory result (repeat_fault (map named_by drivers.old) (record { at = at; name = name.now }))
        (λ _. (names.new ≡ names_by drivers.new)
        × (map named_by drivers.new ≡ map named_by drivers.old ++ record { at = at; name = name.now } ∷ [])) }
{
    let is_new = names.add(name)?;
    if !is_new {
        return Err(repeated(alloc, at, name, drivers.as_slice()));
    }
    drivers.push(DrivenName { name, at })?;
    Ok(())
}

/// The refusal of a name that one of the drivers has.
fn repeated(alloc: Global, at: u32, name: &[u8], drivers: &[DrivenName]) -> BenchNo
    requires { list_any (bytes_eq name.now) (names_by drivers.now) ≡ true }
    ensures { (result ≡ NoMemory) ⊎ (repeat_fault (map named_by drivers.now) (record { at = at; name = name.now }) ≡ Some result) }
{
    match drivers.iter().find(|driver| name == driver.name) {
        Some(first) => twice(alloc, first.at, at, name),
        None => unreachable!(),
    }
}

fn twice(alloc: Global, first: u32, line: u32, name: &[u8]) -> BenchNo
    ensures { (result ≡ NoMemory) ⊎ (result ≡ DrivenTwice name.now first line) }
{
    match Text::from_bytes(alloc, name) {
        Ok(name) => BenchNo::DrivenTwice { name, first, line },
        Err(_) => BenchNo::Memory,
    }
}
