//! The links of a port.

ghost use Rattle.std.specs.Prelude.{IfOk, ◌≡◌, map};
ghost use Rattle.image_build.specs.Built.{link_out, link_in};

use image_defs::{LinkIn, LinkOut};
use plan_defs::{Receipt, Sending};
use seen_list::{List, Memory};
use std::alloc::Global;

/// What a port sends.
pub(crate) fn links_out(alloc: Global, sends: &[Sending]) -> Result<List<LinkOut>, Memory>
    ensures { IfOk result (λ outs. outs ≡ map link_out sends.now) }
{
    let mut outs = List::new(alloc);
    'sends: for k in 0..sends.len() {
        outs.push(out_of(&sends[k])?)?;
    }
    Ok(outs)
}

/// What a port receives.
pub(crate) fn links_in(alloc: Global, receipts: &[Receipt]) -> Result<List<LinkIn>, Memory>
    ensures { IfOk result (λ ins. ins ≡ map link_in receipts.now) }
{
    let mut ins = List::new(alloc);
    'receipts: for k in 0..receipts.len() {
        ins.push(in_of(&receipts[k]))?;
    }
    Ok(ins)
}

fn out_of(sending: &Sending) -> Result<LinkOut, Memory>
    ensures { IfOk result (λ out. out ≡ link_out sending.now) }
{
    let readers = sending.readers.copy()?;
    Ok(LinkOut {
        slot: sending.slot,
        readers,
    })
}

fn in_of(receipt: &Receipt) -> LinkIn
    ensures { result ≡ link_in receipt.now }
{
    LinkIn {
        slot: receipt.slot,
        sender: receipt.sender,
    }
}
