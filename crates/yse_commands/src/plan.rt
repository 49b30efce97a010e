//! The report of a plan, and what is told of better homes.

ghost use Rattle.std.specs.Prelude.{◌≡◌, ◌++◌, IfOk, OnOk};
ghost use Rattle.yse_commands.specs.commands.Plan.{IsReportOf, crossings_line, homes_word, told_of_homes};

use call_steps::Planned;
use net_defs::HomeChoice;
use plan_defs::law::items_are_well_formed;
use plan_text::report;
use seen_list::{Memory, Text};
use std::alloc::Global;
use yse_compile::Chosen;

/// The report of a design, with a line on the crossings where better homes were asked for.
pub fn report_of(alloc: Global, planned: &Planned) -> Result<Text, Memory>
    ensures { IfOk result (IsReportOf planned.now.homes planned.now.net planned.now.machine planned.now.timing) }
{
    items_are_well_formed();
    let compiled = &planned.chosen.compiled;
    let mut text = report(
        alloc,
        &planned.net,
        &compiled.nodes,
        &compiled.homes,
        &compiled.plan,
        &compiled.switch,
    )?;
    push_homes(&mut text, planned.homes, &planned.chosen)?;
    Ok(text)
}

/// Adds what is told of the homes.
fn push_homes(text: &mut Text, choice: HomeChoice, chosen: &Chosen) -> Result<(), Memory>
    ensures { OnOk result (text.new ≡ text.old ++ told_of_homes choice chosen.now) }
{
    match choice {
        HomeChoice::Plain => Ok(()),
        HomeChoice::Better => push_crossings(text, chosen.before, chosen.after, chosen.better),
    }
}

/// Adds the line of the crossings.
#[tactic(auto, unfolding(crate::specs::commands::Plan::crossings_line))]
fn push_crossings(text: &mut Text, before: u64, after: u64, better: bool) -> Result<(), Memory>
    ensures { OnOk result (text.new ≡ text.old ++ crossings_line before after better) }
{
    text.push_bytes(b"crossings ")?;
    text.push_decimal(before)?;
    text.push_bytes(b" better ")?;
    text.push_decimal(after)?;
    text.push_bytes(b" used ")?;
    text.push_bytes(homes_word(better))?;
    text.push_bytes(b"\n")?;
    Ok(())
}

fn homes_word(better: bool) -> &'static [u8]
    ensures { result.now ≡ homes_word better }
{
    if better { b"better" } else { b"plain" }
}
