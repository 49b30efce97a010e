//! Decimal numbers of any length, and sets of them.

ghost use Rattle.std.specs.Prelude.{◌≡◌, ◌++◌, [], ◌∷◌, min, not, if◌then◌else◌, nat_eq, IfOk};
ghost use Rattle.std.specs.{List.list_any, List.position, Option.is_some};
ghost use Rattle.text_lines.specs.Numbers.{number_of, digits_value};
ghost use Rattle.machine_text.specs.code.Digits.{IsSignificant, is_nonzero, without_zeros};

use indexmap::IndexSet;
use seen_list::Memory;
use std::alloc::Global;
use std::marker::Model;
use text_lines::numbers::number;

/// A decimal number of any length, with leading zeros allowed. A contract sees its value.
#[derive(Drop)]
pub struct Digits<'a> {
    bytes: &'a [u8],
}

impl<'a> Model for Digits<'a> {
    ghost use Rattle.std.specs.Prelude.{◌≡◌, ℕ, Some};
    ghost use Rattle.text_lines.specs.Numbers.{number_of, digits_value};

    ghost Value = { ℕ };

    ghost view = { λ d. digits_value d.bytes.now };

    ghost invariant = { λ d. number_of d.bytes.now ≡ Some (digits_value d.bytes.now) };
}

impl<'a> Digits<'a> {
    /// The number that the bytes are, if they are one.
    pub fn read(bytes: &'a [u8]) -> Option<Digits<'a>>
        ensures { result ≡ number_of bytes.now }
    {
        if is_number(bytes) {
            Some(Digits { bytes })
        } else {
            None
        }
    }

    /// The number, and where it is too large for a `u64` the greatest `u64`.
    pub fn capped(&self) -> u64
        ensures { result ≡ min self.now u64.MAX }
    {
        match number(self.bytes) {
            Some(value) => value,
            None => unreachable!(),
        }
    }

    /// The digits from the first one on that is not zero.
    fn significant(&self) -> &'a [u8]
        ensures value { digits_value result.now ≡ self.now }
        ensures significant { IsSignificant result.now }
    {
        without_zeros(self.bytes)
    }
}

/// Whether the bytes are a number.
fn is_number(bytes: &[u8]) -> bool
    ensures { result ≡ is_some (number_of bytes.now) }
{
    number(bytes).is_some()
}

/// The bytes from the first one on that is not the digit zero.
fn without_zeros(bytes: &[u8]) -> &[u8]
    ensures { result.now ≡ without_zeros bytes.now }
{
    match first_nonzero(bytes) {
        Some(first) => &bytes[first..],
        None => &[],
    }
}

/// The place of the first byte that is not the digit zero.
fn first_nonzero(bytes: &[u8]) -> Option<usize>
    ensures { result ≡ position is_nonzero bytes.now }
{
    bytes.iter().position(|byte| *byte != b'0')
}

/// Numbers, each once, in the order in which they came. A contract sees the list of their values.
#[derive(Drop)]
pub struct Numbers<'a> {
    set: IndexSet<&'a [u8]>,
}

impl<'a> Model for Numbers<'a> {
    ghost use Rattle.std.specs.Prelude.{ℕ, List, map, All};
    ghost use Rattle.text_lines.specs.Numbers.{digits_value};
    ghost use Rattle.machine_text.specs.code.Digits.{IsSignificant};

    ghost Value = { List ℕ };

    ghost view = { λ numbers. map (λ key. digits_value key.now) numbers.set.keys };

    ghost invariant = { λ numbers. All (λ key. IsSignificant key.now) numbers.set.keys };
}

impl<'a> Numbers<'a> {
    /// No numbers yet.
    pub fn new(alloc: Global) -> Numbers<'a>
        ensures { result ≡ [] }
    {
        Numbers {
            set: IndexSet::new(alloc),
        }
    }

    /// Adds a number if it is new, and answers whether it was.
    pub fn add(&mut self, number: &Digits<'a>) -> Result<bool, Memory>
        ensures is_new { IfOk result (λ is_new. is_new ≡ not (list_any (nat_eq number.now) self.old)) }
        ensures added { IfOk result (λ is_new. self.new ≡ (if is_new then self.old ++ number.now ∷ [] else self.old)) }
    {
        Ok(self.set.insert(number.significant())?)
    }
}
