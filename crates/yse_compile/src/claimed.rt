//! The claims of a compiled design.

ghost use Rattle.std.specs.Prelude.{◌≡◌, IfOk};
ghost use Rattle.image_defs.specs.Claimed.{lists_of};
ghost use Rattle.yse_compile.specs.Claims.{IsPlaced, AreClaimsOf};

use crate::compiler::Compiled;
use crate::words::read_words;
use image_build::port_items::port_items;
use image_defs::{Claims, PortClaims};
use seen_list::{List, Memory};
use std::alloc::Global;

/// Which item of the netlist stands at each place of a compiled image, in the order of the image's lists.
/// The steps are n log n in the number of items.
pub fn claims(alloc: Global, compiled: &Compiled) -> Result<Claims, Memory>
    requires { IsPlaced compiled.now }
    ensures { IfOk result (AreClaimsOf compiled.now) }
{
    read_words(&compiled.image);
    let lists = port_items(alloc, &compiled.nodes, &compiled.homes, &compiled.plan)?;
    claims_by_port(alloc, lists.as_slice())
}

/// The claims of ports that claim these items.
fn claims_by_port(alloc: Global, lists: &[List<u32>]) -> Result<Claims, Memory>
    ensures { IfOk result (λ claims. lists_of claims ≡ lists.now) }
{
    let mut ports = List::new(alloc);
    'ports: for p in 0..lists.len() {
        ports.push(claims_of(&lists[p])?)?;
    }
    Ok(Claims { ports })
}

/// The claims of a port that claims these items.
fn claims_of(items: &List<u32>) -> Result<PortClaims, Memory>
    ensures { IfOk result (λ claims. claims.items ≡ items.now) }
{
    let items = items.copy()?;
    Ok(PortClaims { items })
}
