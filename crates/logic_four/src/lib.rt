//! The four values of a signal, the kinds of gates, and what each kind answers for a list of
//! operands. The memory act, which has no code here, is defined beside them for the crates above.
//!
//! ```
//! let value = gate(Kind::Nand, &[V4::Zero, V4::Undef]); // V4::One: a 0 decides
//! let settled = settle(V4::HighZ); // V4::Undef
//! ```
#![tactic(auto)]

mod folds;
mod gates;
mod kinds;
mod memory;
pub mod packed;
mod values;

pub use folds::{base_kind, fold_laws, lone_kind, takes_many};
pub use gates::{and_all, bus_all, gate, or_all, tri, xor_all};
pub use kinds::{allows, kind_of, kind_words, word_of};
pub use memory::memory_laws;
pub use values::{char_round_trip, code, decoded, not, of_char, settle, to_char};

/// The value of a signal.
#[derive(Clone, Copy, PartialEq, Eq)]
pub enum V4 {
    Zero,
    One,
    /// Undefined: it may be 0 or 1.
    Undef,
    /// High impedance: nothing drives the signal.
    HighZ,
}

/// The kind of a gate. `Bus` joins drivers of one wire; every other kind settles its operands.
#[derive(Clone, Copy, PartialEq, Eq)]
pub enum Kind {
    And,
    Nand,
    Or,
    Nor,
    Xor,
    Xnor,
    Not,
    Buf,
    /// A driver with an enable: the operands are the enable and then what is driven.
    Tri,
    Bus,
}
