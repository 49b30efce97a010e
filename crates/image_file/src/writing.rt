//! The writer of image texts.

ghost use Rattle.std.specs.Prelude.{◌≡◌, ◌++◌, IfOk, OnOk};
ghost use Rattle.std.specs.List.{flat_map, zip};
ghost use Rattle.image_lines.specs.Words.{line_text};
ghost use Rattle.image_lines.specs.declared.line.Line.TheVariants as line;
ghost use Rattle.image_defs.specs.Claimed.{HasClaims};
ghost use Rattle.image_file.specs.Files.{image_text, work_lines, port_lines, kind_of};

use func_table::Table;
use image_defs::{
    BlockWork, ImageFile, InColumn, LinkIn, LinkOut, OutBit, PortClaims, PortImage, Source, Task,
    Work,
};
use image_lines::{
    PortKind, push_bit, push_block, push_end, push_head, push_input, push_port, push_print,
    push_send, push_table, push_take, push_task, push_version,
};
use seen_list::{Memory, Text};
use std::alloc::Global;

/// The text of a file.
pub fn write_image(alloc: Global, file: &ImageFile) -> Result<Text, Memory>
    requires { HasClaims file.now }
    ensures { IfOk result (λ text. text ≡ image_text file.now) }
{
    let image = &file.image;
    let mut text = Text::new(alloc);
    push_version(&mut text)?;
    push_head(
        &mut text,
        image.slots,
        image.units,
        image.init,
        image.columns,
        image.ports.len(),
    )?;
    push_ports(
        &mut text,
        image.ports.as_slice(),
        file.claims.ports.as_slice(),
    )?;
    push_end(&mut text)?;
    Ok(text)
}

fn push_ports(text: &mut Text, ports: &[PortImage], claims: &[PortClaims]) -> Result<(), Memory>
    ensures { OnOk result (text.new ≡ text.old ++ flat_map (λ x. flat_map line_text (port_lines x.0 x.1.items)) (zip ports.now claims.now)) }
{
    for (port, own) in ports.iter().zip(claims) {
        push_whole_port(text, port, own.items.as_slice())?;
    }
    Ok(())
}

#[tactic(auto, using(crate::proofs::WritingLemmas::port_text))]
fn push_whole_port(text: &mut Text, port: &PortImage, items: &[u32]) -> Result<(), Memory>
    ensures { OnOk result (text.new ≡ text.old ++ flat_map line_text (port_lines port.now items.now)) }
{
    push_port(text, kind_of(&port.work))?;
    push_work(text, &port.work, items)?;
    push_sends(text, port.outs.as_slice())?;
    push_takes(text, port.ins.as_slice())
}

fn kind_of(work: &Work) -> PortKind
    ensures { result ≡ kind_of work.now }
{
    match work {
        Work::Logic { .. } => PortKind::Logic,
        Work::Array { .. } => PortKind::Array,
        Work::Host { .. } => PortKind::Host,
    }
}

#[tactic(auto, using(crate::proofs::WritingLemmas::logic_text, crate::proofs::WritingLemmas::array_text))]
fn push_work(text: &mut Text, work: &Work, items: &[u32]) -> Result<(), Memory>
    ensures { OnOk result (text.new ≡ text.old ++ flat_map line_text (work_lines work.now items.now)) }
{
    match work {
        Work::Logic { tables, tasks } => {
            push_tables(text, tables.as_slice())?;
            push_tasks(text, tasks.as_slice(), items)
        }
        Work::Array { blocks, outs } => {
            push_blocks(text, blocks.as_slice())?;
            push_bits(text, outs.as_slice(), items)
        }
        Work::Host { inputs, printed } => {
            push_inputs(text, inputs.as_slice(), items)?;
            push_prints(text, printed.as_slice())
        }
    }
}

fn push_tables(text: &mut Text, tables: &[Table]) -> Result<(), Memory>
    ensures { OnOk result (text.new ≡ text.old ++ flat_map (λ table. line_text (line.Table table)) tables.now) }
{
    for table in tables {
        push_table(text, table)?;
    }
    Ok(())
}

fn push_tasks(text: &mut Text, tasks: &[Task], items: &[u32]) -> Result<(), Memory>
    ensures { OnOk result (text.new ≡ text.old ++ flat_map (λ x. line_text (line.Work x.0 x.1)) (zip tasks.now items.now)) }
{
    for (task, item) in tasks.iter().zip(items) {
        push_task(text, task, *item)?;
    }
    Ok(())
}

fn push_blocks(text: &mut Text, blocks: &[BlockWork]) -> Result<(), Memory>
    ensures { OnOk result (text.new ≡ text.old ++ flat_map (λ block. line_text (line.Block block)) blocks.now) }
{
    for block in blocks {
        push_block(text, block)?;
    }
    Ok(())
}

fn push_bits(text: &mut Text, outs: &[OutBit], items: &[u32]) -> Result<(), Memory>
    ensures { OnOk result (text.new ≡ text.old ++ flat_map (λ x. line_text (line.Bit x.0 x.1)) (zip outs.now items.now)) }
{
    for (bit, item) in outs.iter().zip(items) {
        push_bit(text, bit, *item)?;
    }
    Ok(())
}

fn push_inputs(text: &mut Text, inputs: &[InColumn], items: &[u32]) -> Result<(), Memory>
    ensures { OnOk result (text.new ≡ text.old ++ flat_map (λ x. line_text (line.Input x.0 x.1)) (zip inputs.now items.now)) }
{
    for (input, item) in inputs.iter().zip(items) {
        push_input(text, input, *item)?;
    }
    Ok(())
}

fn push_prints(text: &mut Text, printed: &[Source]) -> Result<(), Memory>
    ensures { OnOk result (text.new ≡ text.old ++ flat_map (λ source. line_text (line.Print source)) printed.now) }
{
    for source in printed {
        push_print(text, source)?;
    }
    Ok(())
}

fn push_sends(text: &mut Text, outs: &[LinkOut]) -> Result<(), Memory>
    ensures { OnOk result (text.new ≡ text.old ++ flat_map (λ link. line_text (line.Send link)) outs.now) }
{
    for link in outs {
        push_send(text, link)?;
    }
    Ok(())
}

fn push_takes(text: &mut Text, ins: &[LinkIn]) -> Result<(), Memory>
    ensures { OnOk result (text.new ≡ text.old ++ flat_map (λ link. line_text (line.Take link)) ins.now) }
{
    for link in ins {
        push_take(text, link)?;
    }
    Ok(())
}
