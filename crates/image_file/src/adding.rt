//! What a line adds to a text as far as it has been read.

ghost use Rattle.std.specs.Prelude.{◌≡◌, ◌<◌, ◌^◌, [], ◌∷◌, ◌++◌, true, IfOk, OnOk};
ghost use Rattle.image_lines.specs.Forms.{is_within};
ghost use Rattle.image_defs.specs.declared.image.Work.TheVariants as work;
ghost use Rattle.image_lines.specs.declared.line.Line.TheVariants as line;
ghost use Rattle.image_file.specs.declared.draft.Draft.TheVariants as draft;
ghost use Rattle.image_file.specs.Drafts as drafts;
ghost use Rattle.image_file.specs.code.Around.{around};

use crate::draft::{Body, Draft, OpenPort};
use crate::room::block_bits;
use func_table::Table;
use image_defs::{
    BlockWork, Claims, Image, ImageFile, InColumn, OutBit, PortClaims, PortImage, Source, Task,
    Work,
};
use image_lines::{Line, PortKind, Sizes};
use seen_list::{List, Memory};
use std::alloc::Global;

/// The text so far with a line more.
pub(crate) fn draft_with(alloc: Global, so_far: Draft, said: Line) -> Result<Draft, Memory>
    requires within { is_within said ≡ true }
    requires room { drafts.has_room so_far said ≡ true }
    ensures { IfOk result (λ after. after ≡ drafts.draft_with so_far said) }
{
    match so_far {
        Draft::Within(body) => body_with(alloc, body, said),
        other => Ok(around(alloc, other, &said)),
    }
}

/// The text so far with a line more, where no port's lines are being read.
fn around(alloc: Global, so_far: Draft, said: &Line) -> Draft
    ensures { result ≡ around so_far said.now }
{
    match so_far {
        Draft::Blank => titled(said),
        Draft::Titled => sized(said),
        Draft::Sized(sizes) => first_port(alloc, sizes, said),
        other => other,
    }
}

fn titled(said: &Line) -> Draft
    ensures { result ≡ drafts.draft_with draft.Blank said.now }
{
    match said {
        Line::Version => Draft::Titled,
        _ => Draft::Blank,
    }
}

fn sized(said: &Line) -> Draft
    ensures { result ≡ drafts.draft_with draft.Titled said.now }
{
    match said {
        Line::Head(sizes) => Draft::Sized(*sizes),
        _ => Draft::Titled,
    }
}

fn first_port(alloc: Global, sizes: Sizes, said: &Line) -> Draft
    ensures { result ≡ drafts.draft_with (draft.Sized sizes) said.now }
{
    match said {
        Line::Port(kind) => {
            Draft::Within(Body {
                sizes,
                ports: List::new(alloc),
                claims: List::new(alloc),
                current: opened(alloc, *kind),
            })
        }
        _ => Draft::Sized(sizes),
    }
}

/// A port of which only the head has been read.
fn opened(alloc: Global, kind: PortKind) -> OpenPort
    ensures { result ≡ drafts.opened kind }
{
    let port = PortImage {
        work: work_begun(alloc, kind),
        outs: List::new(alloc),
        ins: List::new(alloc),
    };
    OpenPort {
        port,
        items: List::new(alloc),
        bits: 0,
    }
}

fn work_begun(alloc: Global, kind: PortKind) -> Work
    ensures { result ≡ drafts.work_begun kind }
{
    match kind {
        PortKind::Logic => {
            Work::Logic {
                tables: List::new(alloc),
                tasks: List::new(alloc),
            }
        }
        PortKind::Array => {
            Work::Array {
                blocks: List::new(alloc),
                outs: List::new(alloc),
            }
        }
        PortKind::Host => {
            Work::Host {
                inputs: List::new(alloc),
                printed: List::new(alloc),
            }
        }
    }
}

fn body_with(alloc: Global, body: Body, said: Line) -> Result<Draft, Memory>
    requires within { is_within said ≡ true }
    requires room { drafts.body_holds body said ≡ true }
    ensures { IfOk result (λ after. after ≡ drafts.body_with body said) }
{
    match said {
        Line::Port(kind) => next_port(alloc, body, kind),
        Line::End => ended(body),
        other => same_port(body, other),
    }
}

fn next_port(alloc: Global, body: Body, kind: PortKind) -> Result<Draft, Memory>
    ensures { IfOk result (λ after. after ≡ drafts.body_with body (line.Port kind)) }
{
    let Body {
        sizes,
        mut ports,
        mut claims,
        current,
    } = body;
    push_port(&mut ports, &mut claims, current)?;
    Ok(Draft::Within(Body {
        sizes,
        ports,
        claims,
        current: opened(alloc, kind),
    }))
}

fn ended(body: Body) -> Result<Draft, Memory>
    ensures { IfOk result (λ after. after ≡ drafts.body_with body line.End) }
{
    let Body {
        sizes,
        mut ports,
        mut claims,
        current,
    } = body;
    push_port(&mut ports, &mut claims, current)?;
    Ok(Draft::Ended(ImageFile {
        image: Image {
            slots: sizes.slots,
            units: sizes.units,
            init: sizes.init,
            columns: sizes.columns,
            ports,
        },
        claims: Claims { ports: claims },
    }))
}

/// Adds a port that has been read, and its claims.
fn push_port(
    ports: &mut List<PortImage>,
    claims: &mut List<PortClaims>,
    read: OpenPort,
) -> Result<(), Memory>
    ensures ports { OnOk result (ports.new ≡ ports.old ++ read.port ∷ []) }
    ensures claims { OnOk result (claims.new ≡ claims.old ++ record { items = read.items } ∷ []) }
{
    let OpenPort { port, items, .. } = read;
    ports.push(port)?;
    claims.push(PortClaims { items })
}

fn same_port(mut body: Body, said: Line) -> Result<Draft, Memory>
    requires within { is_within said ≡ true }
    requires small { drafts.bits_with body.current.bits said < 2 ^ 64 }
    ensures { IfOk result (λ after. after ≡ draft.Within (record body { current = drafts.open_with body.current said })) }
{
    match add_line(&mut body, said) {
        Ok(()) => Ok(Draft::Within(body)),
        Err(no) => {
            drop(body);
            Err(no)
        }
    }
}

/// Adds a line to the port that is being read.
fn add_line(body: &mut Body, said: Line) -> Result<(), Memory>
    requires within { is_within said ≡ true }
    requires small { drafts.bits_with body.old.current.bits said < 2 ^ 64 }
    ensures { OnOk result (body.new ≡ record body.old { current = drafts.open_with body.old.current said }) }
{
    open_with(&mut body.current, said)
}

fn open_with(so_far: &mut OpenPort, said: Line) -> Result<(), Memory>
    requires within { is_within said ≡ true }
    requires small { drafts.bits_with so_far.old.bits said < 2 ^ 64 }
    ensures { OnOk result (so_far.new ≡ drafts.open_with so_far.old said) }
{
    so_far.bits = bits_with(so_far.bits, &said);
    match push_item(&mut so_far.items, &said) {
        Ok(()) => port_with(&mut so_far.port, said),
        Err(no) => {
            drop(said);
            Err(no)
        }
    }
}

fn bits_with(bits: u64, said: &Line) -> u64
    requires within { is_within said.now ≡ true }
    requires small { drafts.bits_with bits said.now < 2 ^ 64 }
    ensures { result ≡ drafts.bits_with bits said.now }
{
    match said {
        Line::Block(block) => bits + block_bits(block),
        _ => bits,
    }
}

/// The claim of an item.
fn push_item(items: &mut List<u32>, said: &Line) -> Result<(), Memory>
    ensures { OnOk result (items.new ≡ drafts.items_with items.old said.now) }
{
    match said {
        Line::Work { item, .. } | Line::Bit { item, .. } | Line::Input { item, .. } => {
            items.push(*item)
        }
        _ => Ok(()),
    }
}

fn port_with(port: &mut PortImage, said: Line) -> Result<(), Memory>
    ensures { OnOk result (port.new ≡ drafts.port_with port.old said) }
{
    match said {
        Line::Send(link) => port.outs.push(link),
        Line::Take(link) => port.ins.push(link),
        other => work_with(&mut port.work, other),
    }
}

fn work_with(work: &mut Work, said: Line) -> Result<(), Memory>
    ensures { OnOk result (work.new ≡ drafts.work_with work.old said) }
{
    match work {
        Work::Logic { tables, tasks } => logic_with(tables, tasks, said),
        Work::Array { blocks, outs } => array_with(blocks, outs, said),
        Work::Host { inputs, printed } => host_with(inputs, printed, said),
    }
}

fn logic_with(tables: &mut List<Table>, tasks: &mut List<Task>, said: Line) -> Result<(), Memory>
    ensures { OnOk result (work.Logic tables.new tasks.new ≡ drafts.work_with (work.Logic tables.old tasks.old) said) }
{
    match said {
        Line::Table(table) => tables.push(table),
        Line::Work { task, .. } => tasks.push(task),
        _ => Ok(()),
    }
}

fn array_with(
    blocks: &mut List<BlockWork>,
    outs: &mut List<OutBit>,
    said: Line,
) -> Result<(), Memory>
    ensures { OnOk result (work.Array blocks.new outs.new ≡ drafts.work_with (work.Array blocks.old outs.old) said) }
{
    match said {
        Line::Block(block) => blocks.push(block),
        Line::Bit { bit, .. } => outs.push(bit),
        _ => Ok(()),
    }
}

fn host_with(
    inputs: &mut List<InColumn>,
    printed: &mut List<Source>,
    said: Line,
) -> Result<(), Memory>
    ensures { OnOk result (work.Host inputs.new printed.new ≡ drafts.work_with (work.Host inputs.old printed.old) said) }
{
    match said {
        Line::Input { input, .. } => inputs.push(input),
        Line::Print(source) => printed.push(source),
        _ => Ok(()),
    }
}
