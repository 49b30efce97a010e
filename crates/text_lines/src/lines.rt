//! The lines of a text.

ghost use Rattle.std.specs.Prelude.{◌≡◌, ◌^◌, ◌+◌, ◌<◌, [], ◌∷◌, length};
ghost use Rattle.std.specs.{List.before_first, List.after_first, List.enumerate_from, Iterator.YieldsFirstBy, Iterator.item_count};
ghost use Rattle.std.specs.Str.Lines.{strip_carriage_return};
ghost use Rattle.text_lines.specs.{Bytes.is_line_feed, Lines.lines_of, Lines.part_of, Lines.parts_of};

use crate::bytes::split_once;
use std::marker::Model;

/// The lines of a text in order, each as its number, counted from 1, and its part outside its
/// comment. A contract sees the list of the lines that are left.
#[derive(Drop)]
pub struct Lines<'a> {
    rest: &'a [u8],
    passed: u32,
}

impl<'a> Model for Lines<'a> {
    ghost use Rattle.std.specs.Prelude.{List as Items, ℕ, ◌+◌, ◌^◌, ◌<◌, length};
    ghost use Rattle.std.specs.List.{enumerate_from};
    ghost use Rattle.text_lines.specs.Lines.{parts_of};

    ghost Value = { Items (ℕ × Items ℕ) };

    ghost view = { λ l. enumerate_from (l.passed + 1) (parts_of l.rest.now) };

    ghost invariant = { λ l. l.passed + length l.rest.now < 2 ^ 32 };
}

impl<'a> Lines<'a> {
    /// All lines of the text.
    pub fn new(text: &'a [u8]) -> Lines<'a>
        requires { length text.now < 2 ^ 32 }
        ensures { result ≡ enumerate_from 1 (parts_of text.now) }
    {
        Lines {
            rest: text,
            passed: 0,
        }
    }
}

impl<'a> Iterator for Lines<'a> {
    type Item = (u32, &'a [u8]);

    ghost next_gives = { YieldsFirstBy (λ line. (line.0, line.1.now)) (λ left. left) };

    ghost remaining = { item_count (λ left. left) };

    fn next(&mut self) -> Option<(u32, &'a [u8])> {
        if self.rest.is_empty() {
            return None;
        }
        let (line, rest) = split_line(self.rest);
        self.rest = rest;
        self.passed += 1;
        Some((self.passed, before_comment(line)))
    }
}

/// The first line, without its LF, and the text after it.
#[tactic(auto, using(crate::proofs::lemmas::LineLemmas::lines_of_first, crate::proofs::lemmas::LineLemmas::lines_of_one))]
fn split_line(text: &[u8]) -> (&[u8], &[u8])
    requires { 0 < length text.now }
    ensures lines { lines_of text.now ≡ result.0.now ∷ lines_of result.1.now }
    ensures shorter { length result.1.now < length text.now }
{
    match split_once(text, b'\n') {
        Some(parts) => parts,
        None => (text, &[]),
    }
}

/// The part of a line outside its comment, without the CR that ends it.
#[tactic(auto, unfolding(crate::specs::Lines::part_of))]
fn before_comment(line: &[u8]) -> &[u8]
    ensures { result.now ≡ part_of line.now }
{
    let line = without_return(line);
    match split_once(line, b'#') {
        Some((part, _comment)) => part,
        None => line,
    }
}

fn without_return(line: &[u8]) -> &[u8]
    ensures { result.now ≡ strip_carriage_return line.now }
{
    match line {
        [front @ .., b'\r'] => front,
        _ => line,
    }
}
