//! A gate that is drawn.

ghost use Rattle.std.specs.Prelude.{◌≡◌, ◌+◌, ◌%◌, ◌<◌, ◌≤◌, nat_le, if◌then◌else◌, IfOk, OnOk, length};
ghost use Rattle.limits.specs.declared.TheConstants.{MAX_LARGE_GATES};
ghost use Rattle.large_run.specs.Large.{kind_at, gate_draws, driver_by, operands as operands_of, gate_driver as driver_of};
ghost use Rattle.large_run.specs.Draws.{draw as draw_of};

use crate::draws::Draws;
use logic_four::Kind;
use net_defs::Driver;
use seen_list::{List, Memory};
use std::alloc::Global;

/// What drives gate number `j`.
pub(crate) fn gate_driver(alloc: Global, draws: &mut Draws, j: u32) -> Result<Driver, Memory>
    requires below { draws.old.state < 30269 }
    requires few { j < MAX_LARGE_GATES }
    ensures driver { IfOk result (λ driver. driver ≡ driver_of draws.old.state j) }
    ensures state { OnOk result (draws.new.state ≡ draw_of draws.old.state (gate_draws draws.old.state)) }
    ensures below { OnOk result (draws.new.state < 30269) }
{
    let number = draws.draw() % 8;
    let count = count_drawn(draws, number);
    let ops = operands(alloc, draws, j, count)?;
    Ok(driver(number, ops))
}

/// How many operands a gate of this kind has, by a draw where the kind has several.
#[tactic(auto, unfolding(crate::specs::Draws::draw))]
fn count_drawn(draws: &mut Draws, number: u32) -> u32
    requires { draws.old.state < 30269 }
    ensures count { result ≡ (if nat_le number 4 then 2 + draw_of draws.old.state 1 % 3 else 1) }
    ensures state { draws.new.state ≡ (if nat_le number 4 then draw_of draws.old.state 1 else draws.old.state) }
    ensures below { draws.new.state < 30269 }
    ensures few { (1 ≤ result) × (result ≤ 4) }
{
    if number <= 4 { 2 + draws.draw() % 3 } else { 1 }
}

/// So many operands of gate number `j`: numbers of signals, of inputs and the gates before.
fn operands(alloc: Global, draws: &mut Draws, j: u32, count: u32) -> Result<List<u32>, Memory>
    requires below { draws.old.state < 30269 }
    requires few { j < MAX_LARGE_GATES }
    ensures operands { IfOk result (λ ops. ops ≡ operands_of draws.old.state j count) }
    ensures state { OnOk result (draws.new.state ≡ draw_of draws.old.state count) }
    ensures below { OnOk result (draws.new.state < 30269) }
{
    let mut ops = List::new(alloc);
    'places: for _i in 0..count {
        ops.push(operand(draws, j))?;
    }
    Ok(ops)
}

/// An operand of gate number `j`.
#[tactic(auto, unfolding(crate::specs::Draws::draw))]
fn operand(draws: &mut Draws, j: u32) -> u32
    requires below { draws.old.state < 30269 }
    requires few { j < MAX_LARGE_GATES }
    ensures operand { result ≡ draw_of draws.old.state 1 % (8 + j) }
    ensures state { draws.new.state ≡ draw_of draws.old.state 1 }
    ensures below { draws.new.state < 30269 }
{
    draws.draw() % (8 + j)
}

/// The driver of a kind, given by its number.
fn driver(number: u32, ops: List<u32>) -> Driver
    requires { 1 ≤ length ops }
    ensures { result ≡ driver_by (kind_at number) ops }
{
    match kind(number) {
        Some(kind) => Driver::Gate { kind, ops },
        None => Driver::Dff {
            op: ops.as_slice()[0],
        },
    }
}

/// The kind of this number; none for a register.
fn kind(number: u32) -> Option<Kind>
    ensures { result ≡ kind_at number }
{
    match number {
        0 => Some(Kind::And),
        1 => Some(Kind::Nand),
        2 => Some(Kind::Or),
        3 => Some(Kind::Nor),
        4 => Some(Kind::Xor),
        5 => Some(Kind::Not),
        6 => Some(Kind::Buf),
        _ => None,
    }
}
