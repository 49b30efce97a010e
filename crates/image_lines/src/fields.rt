//! The fields of a line, read one after another.

ghost use Rattle.std.specs.Prelude.{◌≡◌, ◌||◌, ◌∷◌, [], false, MatchOption};
ghost use Rattle.image_lines.specs.Forms.{number, numbers, sources, feeds, times, counts, init};
ghost use Rattle.image_lines.specs.{Tokens.behind, Tokens.field, Tokens.tokens_of, code.Tokens.left_tokens, code.Tokens.Gives};

use crate::tokens::Token;
use crate::word::is_word;
use image_defs::Source;
use net_defs::Init;
use std::marker::Model;
use text_lines::bytes::split_once;

/// The fields that are left of a line, and whether a number before them is too large. A contract
/// sees the list of the tokens that are left, and that.
#[derive(Drop)]
pub(crate) struct Fields<'a> {
    rest: Option<&'a [u8]>,
    large: bool,
}

impl<'a> Model for Fields<'a> {
    ghost use Rattle.std.specs.Prelude.{List as Items, ℕ, Bool};
    ghost use Rattle.image_lines.specs.{Tokens.Left, code.Tokens.left_tokens};

    ghost Value = { Left };

    ghost view = { λ f. (left_tokens f.rest, f.large) };
}

impl<'a> Fields<'a> {
    /// All fields of a line.
    pub(crate) fn new(line: &'a [u8]) -> Fields<'a>
        ensures { result ≡ (tokens_of line.now, false) }
    {
        Fields {
            rest: Some(line),
            large: false,
        }
    }

    /// Whether a number that was read is too large.
    pub(crate) fn is_large(&self) -> bool
        ensures { result ≡ self.now.1 }
    {
        self.large
    }

    /// The next token.
    pub(crate) fn next(&mut self) -> Option<&'a [u8]>
        ensures { MatchOption result ((self.old.0 ≡ []) × (self.new ≡ self.old)) (λ token. self.old ≡ (token.now ∷ self.new.0, self.new.1)) }
    {
        let Some(text) = self.rest else {
            return None;
        };
        let (token, rest) = cut(text);
        self.rest = rest;
        Some(token)
    }

    /// Keeps in mind whether a number is too large.
    pub(crate) fn note(&mut self, large: bool)
        ensures { self.new ≡ (self.old.0, self.old.1 || large) }
    {
        self.large = self.large || large;
    }

    /// The next token, read as a value of the type.
    #[tactic(auto, unfolding(crate::specs::Tokens::field))]
    pub(crate) fn field<T: Token>(&mut self) -> Option<T>
        ensures { Gives (field T.read self.old) result self.new }
    {
        let Some(token) = self.next() else {
            return None;
        };
        let Some((value, large)) = T::read(token) else {
            return None;
        };
        self.note(large);
        Some(value)
    }

    /// A number behind a word.
    #[tactic(auto, unfolding(crate::specs::Tokens::behind))]
    fn number_behind(&mut self, word: &[u8]) -> Option<u32>
        ensures { Gives (behind word.now number self.old) result self.new }
    {
        let Some(token) = self.next() else {
            return None;
        };
        if token == word {
            self.field::<u32>()
        } else {
            None
        }
    }

    /// Two numbers.
    #[tactic(auto, unfolding(crate::specs::Tokens::both))]
    pub(crate) fn numbers(&mut self) -> Option<(u32, u32)>
        ensures { Gives (numbers self.old) result self.new }
    {
        let Some(first) = self.field::<u32>() else {
            return None;
        };
        let Some(second) = self.field::<u32>() else {
            return None;
        };
        Some((first, second))
    }

    /// The slots, and the turns of a cycle.
    #[tactic(auto, unfolding(crate::specs::Tokens::both))]
    pub(crate) fn times(&mut self) -> Option<(u32, u32)>
        ensures { Gives (times self.old) result self.new }
    {
        let Some(slots) = self.field::<u32>() else {
            return None;
        };
        let Some(units) = self.number_behind(b"units") else {
            return None;
        };
        Some((slots, units))
    }

    /// The columns and the ports.
    #[tactic(auto, unfolding(crate::specs::Tokens::both))]
    pub(crate) fn counts(&mut self) -> Option<(u32, u32)>
        ensures { Gives (counts self.old) result self.new }
    {
        let Some(columns) = self.number_behind(b"columns") else {
            return None;
        };
        let Some(ports) = self.number_behind(b"ports") else {
            return None;
        };
        Some((columns, ports))
    }

    /// What registers and memories hold at first, behind its word.
    #[tactic(auto, unfolding(crate::specs::Tokens::behind))]
    pub(crate) fn init(&mut self) -> Option<Init>
        ensures { Gives (init self.old) result self.new }
    {
        let Some(token) = self.next() else {
            return None;
        };
        if is_word(token, b"init") {
            self.field::<Init>()
        } else {
            None
        }
    }

    /// Two sources.
    #[tactic(auto, unfolding(crate::specs::Tokens::both))]
    fn sources(&mut self) -> Option<(Source, Source)>
        ensures { Gives (sources self.old) result self.new }
    {
        let Some(first) = self.field::<Source>() else {
            return None;
        };
        let Some(second) = self.field::<Source>() else {
            return None;
        };
        Some((first, second))
    }

    /// The four operands of a gate.
    #[tactic(auto, unfolding(crate::specs::Tokens::both))]
    pub(crate) fn feeds(&mut self) -> Option<((Source, Source), (Source, Source))>
        ensures { Gives (feeds self.old) result self.new }
    {
        let Some(first) = self.sources() else {
            return None;
        };
        let Some(second) = self.sources() else {
            return None;
        };
        Some((first, second))
    }
}

/// The first token and what stands behind the space after it, if there is one.
fn cut(text: &[u8]) -> (&[u8], Option<&[u8]>)
    ensures { tokens_of text.now ≡ result.0.now ∷ left_tokens result.1 }
{
    match split_once(text, b' ') {
        Some((token, rest)) => (token, Some(rest)),
        None => (text, None),
    }
}
