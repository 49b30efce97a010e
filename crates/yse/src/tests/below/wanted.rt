//! Values against texts that tell what they are. A value is told piece by piece, and each piece compared with
//! what comes next in the text, so that telling takes no memory and leaves no function early.

use itoa::Buffer;
use logic_four::{V4, to_char};
use net_defs::{Netlist, StimRow, show};
use std::alloc::Global;

/// The parts of a case, `WORD: GIVEN=> WANTED`. Where it has another form, what is wanted is never told.
pub(crate) fn parts_of<'a>(case: &'a str) -> (&'a str, &'a str, &'a str) {
    let (before, wanted) = case.split_once("=> ").unwrap_or((case, "a case"));
    let (word, given) = before.split_once(": ").unwrap_or(("", before));
    (word, given, wanted)
}

/// What is still to be told of a wanted text.
#[derive(Drop)]
pub(crate) struct Wanted<'a> {
    rest: &'a [u8],
    is_right: bool,
}

impl<'a> Wanted<'a> {
    pub(crate) fn new(text: &'a str) -> Wanted<'a> {
        Wanted {
            rest: text.as_bytes(),
            is_right: true,
        }
    }

    pub(crate) fn tell(&mut self, told: &[u8]) {
        match self.rest.strip_prefix(told) {
            Some(rest) => self.rest = rest,
            None => self.is_right = false,
        }
    }

    pub(crate) fn tell_number(&mut self, number: u32) {
        let mut buffer = Buffer::new();
        self.tell(buffer.format(number).as_bytes());
    }

    /// Tells a word, then a blank and a number each, and a line end.
    pub(crate) fn tell_line(&mut self, word: &str, numbers: &[u32]) {
        self.tell(word.as_bytes());
        for number in numbers {
            self.tell(b" ");
            self.tell_number(*number);
        }
        self.tell(b"\n");
    }

    /// Whether all of the text was told, and nothing else.
    pub(crate) fn is_told(&self) -> bool {
        self.is_right && self.rest.is_empty()
    }
}

/// Tells the canonical text of a netlist.
pub(crate) fn tell_netlist(alloc: Global, wanted: &mut Wanted<'_>, net: &Netlist) {
    match show(alloc, net) {
        Ok(text) => wanted.tell(text.as_bytes()),
        Err(_) => wanted.tell(b"no memory"),
    }
}

pub(crate) fn tell_values(wanted: &mut Wanted<'_>, values: &[V4]) {
    for value in values {
        wanted.tell(&[to_char(*value)]);
    }
}

/// Tells `*`, a repeat, and a line end.
fn tell_times(wanted: &mut Wanted<'_>, times: u32) {
    wanted.tell(b"*");
    wanted.tell_number(times);
    wanted.tell(b"\n");
}

/// Tells of each row the values, `*`, the repeat, and a line end.
pub(crate) fn tell_rows(wanted: &mut Wanted<'_>, rows: &[StimRow]) {
    for row in rows {
        tell_values(wanted, row.values.as_slice());
        tell_times(wanted, row.times);
    }
}
