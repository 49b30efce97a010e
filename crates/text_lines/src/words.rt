//! The words of a part of a line.

ghost use Rattle.std.specs.Prelude.{◌≡◌, [], ◌∷◌, MatchOption, List as Items, ℕ, length};
ghost use Rattle.std.specs.{List.before_first, List.after_first, List.position, Iterator.YieldsFirstRef, Iterator.item_count};
ghost use Rattle.text_lines.specs.{Bytes.is_blank as is_blank_byte, Words.words_of};

use crate::bytes::is_blank;
use std::marker::Model;

/// The words of a part of a line, in order: what stands between its blanks. A contract sees the
/// list of the words that are left.
#[derive(Drop)]
pub struct Words<'a> {
    rest: &'a [u8],
}

impl<'a> Model for Words<'a> {
    ghost use Rattle.std.specs.Prelude.{List as Items, ℕ};
    ghost use Rattle.text_lines.specs.Words.{words_of};

    ghost Value = { Items (Items ℕ) };

    ghost view = { λ w. words_of w.rest.now };
}

impl<'a> Words<'a> {
    /// All words of the part.
    pub fn new(part: &'a [u8]) -> Words<'a>
        ensures { result ≡ words_of part.now }
    {
        Words { rest: part }
    }
}

impl<'a> Iterator for Words<'a> {
    type Item = &'a [u8];

    ghost next_gives = { YieldsFirstRef (λ left. left) };

    ghost remaining = { item_count (λ left. left) };

    fn next(&mut self) -> Option<&'a [u8]> {
        let (word, rest) = next_word(self.rest)?;
        self.rest = rest;
        Some(word)
    }
}

/// The first word and what stands after it.
fn next_word(part: &[u8]) -> Option<(&[u8], &[u8])>
    ensures { MatchOption result (words_of part.now ≡ []) (λ found. words_of part.now ≡ found.0.now ∷ words_of found.1.now) }
{
    let mut rest = part;
    while !rest.is_empty() {
        let (word, after) = split_at_blank(rest);
        if !word.is_empty() {
            return Some((word, after));
        }
        rest = after;
    }
    None
}

/// What stands before the first blank, and what stands after it.
fn split_at_blank(part: &[u8]) -> (&[u8], &[u8])
    ensures before { result.0.now ≡ before_first is_blank_byte part.now }
    ensures after { result.1.now ≡ after_first is_blank_byte part.now }
{
    match first_blank(part) {
        Some(i) => (&part[..i], &part[i + 1..]),
        None => (part, &[]),
    }
}

fn first_blank(part: &[u8]) -> Option<usize>
    ensures { result ≡ position is_blank_byte part.now }
{
    part.iter().position(|byte| is_blank(*byte))
}
