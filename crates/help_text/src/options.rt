//! What each option means. A new one gets a line in each of the two functions.

ghost use Rattle.std.specs.Prelude.{◌≡◌};
ghost use Rattle.help_text.specs.Notes.{says, value_word};

pub const MACHINE: &str = "the machine text; by default 4 logic processors and 1 array";

pub const MODE: &str = "gates with a delay: none, all, listed; default rank";

pub const LAST: &str = "the list of these gates, in mode mixed and only there; no default";

pub const UNITS: &str = "the turns of a cycle, 1 to 4096, and 1 in mode rank; default 1";

pub const INIT: &str = "what registers and memories begin with; default x";

pub const WORKERS: &str = "the threads that share the work, 1 to 64; default 4";

pub const BANKS: &str = "the turns that a processor may run ahead, 1 to 8; default 1";

pub const HOMES: &str = "how gates get their processors; default plain";

pub const ORDER: &str = "which processor steps when; by default each in turn";

pub const FAULTS: &str = "the list of faults that are tried; by default all";

/// What stands for the value of an option in a form, by the option's name.
#[tactic(auto, unfolding(crate::specs::Notes::value_word))]
pub fn value_word(name: &str) -> &'static str
    ensures { result.now ≡ value_word name.now }
{
    let name = name.as_bytes();
    if name == b"machine".as_slice() {
        "FILE"
    } else if name == b"mode".as_slice() {
        "rank|unit|mixed"
    } else if name == b"last".as_slice() {
        "FILE"
    } else if name == b"units".as_slice() {
        "K"
    } else if name == b"init".as_slice() {
        "x|0"
    } else if name == b"workers".as_slice() {
        "N"
    } else if name == b"banks".as_slice() {
        "B"
    } else if name == b"homes".as_slice() {
        "plain|better"
    } else if name == b"order".as_slice() {
        "FILE"
    } else if name == b"faults".as_slice() {
        "FILE"
    } else {
        "VALUE"
    }
}

/// What an option means, with its range and its default, by its name.
#[tactic(auto, unfolding(crate::specs::Notes::says))]
pub fn says(name: &str) -> &'static str
    ensures { result.now ≡ says name.now }
{
    let name = name.as_bytes();
    if name == b"machine".as_slice() {
        MACHINE
    } else if name == b"mode".as_slice() {
        MODE
    } else if name == b"last".as_slice() {
        LAST
    } else if name == b"units".as_slice() {
        UNITS
    } else if name == b"init".as_slice() {
        INIT
    } else if name == b"workers".as_slice() {
        WORKERS
    } else if name == b"banks".as_slice() {
        BANKS
    } else if name == b"homes".as_slice() {
        HOMES
    } else if name == b"order".as_slice() {
        ORDER
    } else if name == b"faults".as_slice() {
        FAULTS
    } else {
        ""
    }
}
