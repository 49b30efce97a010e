//! The lines of a draft, one after another.

ghost use Rattle.std.specs.Prelude.{◌≡◌, map, length, take, drop, slice_index_or, []};
ghost use Rattle.std.specs.Iterator.{YieldsFirstBy, item_count};
ghost use Rattle.bench_read.specs.code.Drafts.{driven_count, used_count, line_by, first_name};
ghost use Rattle.bench_read.specs.code.{Drafting.placed_in, Making.seen, Making.seen_at};

use crate::draft::{Act, Draft, DrivenName, Statement};
use logic_four::Kind;
use std::marker::Model;

/// What a line says, by the names of its draft.
#[derive(Clone, Copy)]
pub enum DraftLine<'b, 'a> {
    Input {
        name: &'a [u8],
    },
    Output {
        name: &'a [u8],
    },
    Gate {
        name: &'a [u8],
        kind: Kind,
        uses: &'b [&'a [u8]],
    },
    Register {
        name: &'a [u8],
        use_: &'a [u8],
    },
    Memory {
        outs: &'b [DrivenName<'a>],
        enable: &'a [u8],
        address: &'b [&'a [u8]],
        words: &'b [&'a [u8]],
    },
}

/// The lines of a draft in order, each with its number. A contract sees the list of the lines that
/// are left.
#[derive(Drop)]
pub struct DraftLines<'b, 'a> {
    statements: &'b [Statement],
    drivers: &'b [DrivenName<'a>],
    uses: &'b [&'a [u8]],
}

impl<'b, 'a> Model for DraftLines<'b, 'a> {
    ghost use Rattle.std.specs.Prelude.{List as Items, map};
    ghost use Rattle.bench_read.specs.{code.Drafts.lines_by, Placed.Placed};

    ghost Value = { Items Placed };

    ghost view = { λ l. lines_by l.statements.now (map (λ driver. driver.name.now) l.drivers.now) (map (λ name. name.now) l.uses.now) };
}

impl<'b, 'a> DraftLines<'b, 'a> {
    /// All lines of the draft.
    pub fn new(draft: &'b Draft<'a>) -> DraftLines<'b, 'a>
        ensures { result ≡ placed_in draft.now }
    {
        DraftLines {
            statements: draft.statements.as_slice(),
            drivers: draft.drivers.as_slice(),
            uses: draft.uses.as_slice(),
        }
    }
}

impl<'b, 'a> Iterator for DraftLines<'b, 'a> {
    type Item = (u32, DraftLine<'b, 'a>);

    ghost next_gives = { YieldsFirstBy seen_at (λ left. left) };

    ghost remaining = { item_count (λ left. left) };

    #[tactic(auto, unfolding(crate::specs::code::Drafts::lines_by))]
    fn next(&mut self) -> Option<(u32, DraftLine<'b, 'a>)> {
        let (statement, statements) = self.statements.split_first()?;
        let drivers = self.drivers;
        let uses = self.uses;
        self.statements = statements;
        self.drivers = after_driven(drivers, driven_count(statement.act));
        self.uses = after_used(uses, used_count(statement.act));
        Some((statement.at, line_by(statement.act, drivers, uses)))
    }
}

/// How many names the line drives.
fn driven_count(act: Act) -> usize
    ensures { result ≡ driven_count act }
{
    match act {
        Act::Input | Act::Gate { .. } | Act::Register => 1,
        Act::Output => 0,
        Act::Memory { outs, .. } => outs as usize,
    }
}

/// How many names the line uses.
fn used_count(act: Act) -> usize
    ensures { result ≡ used_count act }
{
    match act {
        Act::Input => 0,
        Act::Output | Act::Register => 1,
        Act::Gate { uses, .. } => uses as usize,
        Act::Memory { address, words, .. } => 1 + (address as usize + words as usize),
    }
}

/// The line, with names that begin with those that it drives, and names that begin with those that it uses.
fn line_by<'b, 'a>(
    act: Act,
    drivers: &'b [DrivenName<'a>],
    uses: &'b [&'a [u8]],
) -> DraftLine<'b, 'a>
    ensures { seen result
        ≡ line_by act (map (λ driver. driver.name.now) drivers.now) (map (λ name. name.now) uses.now) }
{
    match act {
        Act::Input => DraftLine::Input {
            name: first_driven(drivers),
        },
        Act::Output => DraftLine::Output {
            name: first_used(uses),
        },
        Act::Gate { kind, uses: count } => DraftLine::Gate {
            name: first_driven(drivers),
            kind,
            uses: split(uses, count as usize).0,
        },
        Act::Register => DraftLine::Register {
            name: first_driven(drivers),
            use_: first_used(uses),
        },
        Act::Memory {
            outs,
            address,
            words,
        } => {
            let (address, others) = split(split(uses, 1).1, address as usize);
            DraftLine::Memory {
                outs: split(drivers, outs as usize).0,
                enable: first_used(uses),
                address,
                words: split(others, words as usize).0,
            }
        }
    }
}

/// The first so many items, as far as there are any, and the others.
fn split<T>(items: &[T], count: usize) -> (&[T], &[T])
    ensures front { result.0.now ≡ take count items.now }
    ensures others { result.1.now ≡ drop count items.now }
{
    items.split_at(count.min(items.len()))
}

/// The names after the first so many.
fn after_driven<'b, 'a>(drivers: &'b [DrivenName<'a>], count: usize) -> &'b [DrivenName<'a>]
    ensures { result.now ≡ drop count drivers.now }
{
    split(drivers, count).1
}

/// The names after the first so many.
fn after_used<'b, 'a>(uses: &'b [&'a [u8]], count: usize) -> &'b [&'a [u8]]
    ensures { result.now ≡ drop count uses.now }
{
    split(uses, count).1
}

/// The first of the names, and no name of none.
fn first_driven<'a>(drivers: &[DrivenName<'a>]) -> &'a [u8]
    ensures { result.now ≡ first_name (map (λ driver. driver.name.now) drivers.now) }
{
    match drivers {
        [first, ..] => first.name,
        [] => &[],
    }
}

/// The first of the names, and no name of none.
fn first_used<'a>(uses: &[&'a [u8]]) -> &'a [u8]
    ensures { result.now ≡ first_name (map (λ name. name.now) uses.now) }
{
    match uses {
        [first, ..] => *first,
        [] => &[],
    }
}
