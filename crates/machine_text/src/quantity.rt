//! The quantities that a machine text can set.

ghost use Rattle.std.specs.Prelude.{◌≡◌};
ghost use Rattle.machine_text.specs.Quantities.{named, least_of, most_of, default_of, same_quantity, per_port, quantity_of, is_word};

use crate::machine::Limited;

/// The versions of the machine text.
#[derive(Clone, Copy, PartialEq, Eq)]
pub enum Version {
    One,
    Two,
}

/// A quantity of the machine, which a text names by a word.
#[derive(Clone, Copy, PartialEq, Eq)]
pub enum Quantity {
    /// The number of logic processors.
    Logic,
    /// The number of array processors.
    Array,
    /// The slots of a turn.
    Slots,
    /// The functions of a logic processor.
    Functions,
    /// The bits of an array processor.
    Bits,
    /// The nodes of a logic processor.
    Nodes,
}

impl Quantity {
    /// The quantity whose name the word is, in any letter case.
    #[tactic(auto, unfolding(crate::specs::Quantities::named))]
    pub fn named(word: &[u8]) -> Option<Quantity>
        ensures { result ≡ named word.now }
    {
        if word.eq_ignore_ascii_case(b"logic") {
            Some(Quantity::Logic)
        } else if word.eq_ignore_ascii_case(b"array") {
            Some(Quantity::Array)
        } else if word.eq_ignore_ascii_case(b"slots") {
            Some(Quantity::Slots)
        } else if word.eq_ignore_ascii_case(b"functions") {
            Some(Quantity::Functions)
        } else if word.eq_ignore_ascii_case(b"bits") {
            Some(Quantity::Bits)
        } else if word.eq_ignore_ascii_case(b"nodes") {
            Some(Quantity::Nodes)
        } else {
            None
        }
    }

    /// Whether a text of the version can set the quantity.
    pub fn is_word(self, version: Version) -> bool
        ensures { result ≡ is_word version self }
    {
        version == Version::Two || self != Quantity::Nodes
    }

    /// What the quantity limits at each port, if it is such a limit.
    pub fn per_port(self) -> Option<Limited>
        ensures { result ≡ per_port self }
    {
        match self {
            Quantity::Functions => Some(Limited::Functions),
            Quantity::Nodes => Some(Limited::Nodes),
            Quantity::Bits => Some(Limited::Bits),
            _ => None,
        }
    }

    /// The least number that the quantity may be.
    pub fn least(self) -> u32
        ensures { result ≡ least_of self }
    {
        match self {
            Quantity::Array => 0,
            _ => 1,
        }
    }

    /// The greatest number that the quantity may be.
    pub fn most(self) -> u32
        ensures { result ≡ most_of self }
    {
        match self {
            Quantity::Logic => limits::MAX_LOGIC,
            Quantity::Array => limits::MAX_ARRAY,
            Quantity::Slots => limits::MAX_SLOTS,
            Quantity::Functions => limits::MAX_FUNCTIONS,
            Quantity::Bits => limits::MAX_ARRAY_BITS,
            Quantity::Nodes => limits::MAX_NODES,
        }
    }

    /// The number of the quantity in a text that does not set it.
    pub fn default_number(self) -> u32
        ensures { result ≡ default_of self }
    {
        match self {
            Quantity::Logic => limits::DEFAULT_LOGIC,
            Quantity::Array => limits::DEFAULT_ARRAY,
            Quantity::Slots | Quantity::Nodes => self.most(),
            Quantity::Functions => limits::DEFAULT_FUNCTIONS,
            Quantity::Bits => limits::DEFAULT_ARRAY_BITS,
        }
    }
}

/// The quantity that is limited at a port.
pub fn quantity_of(what: Limited) -> Quantity
    ensures { result ≡ quantity_of what }
{
    match what {
        Limited::Functions => Quantity::Functions,
        Limited::Nodes => Quantity::Nodes,
        Limited::Bits => Quantity::Bits,
    }
}

/// Whether both are one quantity.
pub fn is_same(a: Quantity, b: Quantity) -> bool
    ensures { result ≡ same_quantity a b }
{
    a == b
}
