//! The check of an image that comes from elsewhere: whether the netlist accepts it.

ghost use Rattle.std.specs.Prelude.{◌≡◌, Ok, IfOk, IfErr, OnOk};
ghost use Rattle.image_defs.specs.Claimed.{HasClaims};
ghost use Rattle.net_defs.specs.Valid.{IsValid, IsValidTiming};
ghost use Rattle.node_defs.specs.Order.{IsMapped};
ghost use Rattle.call_steps.specs.{Checks.HasNoLoop, Checks.Refuses, Images.IsImageOf, Images.IsAccepted, Refused.refused_of};

use crate::checks::Built;
use image_check::check_image;
use image_defs::ImageFile;
use net_defs::{Netlist, Timing};
use node_defs::NodeNet;
use node_map::map_nodes;
use rank_find::{RankNo, rank};
use refusals::Refusal;
use seen_list::Memory;
use std::alloc::Global;
use yse_compile::inputs::same_inputs;
use yse_compile::matching::matching_images_show;

/// A netlist, and its items.
#[derive(Drop)]
pub struct Mapped {
    pub net: Netlist,
    pub nodes: NodeNet,
}

/// The netlist with its items, and else a loop.
pub fn items_of<'a>(alloc: Global, net: Netlist, timing: &Timing) -> Result<Mapped, Refusal<'a>>
    requires net { IsValid net }
    requires timing { IsValidTiming timing.now }
    ensures same { IfOk result (λ mapped. mapped.net ≡ net) }
    ensures items { IfOk result (λ mapped. IsMapped net timing.now mapped.nodes) }
    ensures acyclic { OnOk result (HasNoLoop net timing.now (Ok tt)) }
    ensures looped { IfErr result (λ no. Refuses (HasNoLoop net timing.now) (refused_of no)) }
{
    match rank(alloc, &net, timing) {
        Ok(ranks) => match map_nodes(alloc, &net, &ranks, timing) {
            Ok(nodes) => Ok(Mapped { net, nodes }),
            Err(Memory) => Err(Refusal::Memory),
        },
        Err(RankNo::Loop(members)) => Err(Refusal::Loop(net, members)),
        Err(RankNo::Memory) => Err(Refusal::Memory),
    }
}

/// The netlist with the image, where the image matches the netlist's items, whoever made it. Its claims and the
/// items are given up then.
pub fn accepted<'a>(
    alloc: Global,
    mapped: Mapped,
    timing: &Timing,
    file: ImageFile,
) -> Result<Built, Refusal<'a>>
    requires net { IsValid mapped.net }
    requires items { IsMapped mapped.net timing.now mapped.nodes }
    requires claims { HasClaims file }
    ensures same { IfOk result (λ built. (built.net ≡ mapped.net) × (built.image ≡ file.image)) }
    ensures image { IfOk result (λ built. IsImageOf mapped.net timing.now built.image) }
    ensures matches { OnOk result (IsAccepted mapped.net timing.now file (Ok tt)) }
    ensures refused { IfErr result (λ no. Refuses (IsAccepted mapped.net timing.now file) (refused_of no)) }
{
    same_inputs();
    matching_images_show();
    // The drops by hand save 3 s of proof.
    let checked = check_image(alloc, &file, &mapped.nodes, timing);
    let Mapped { net, nodes } = mapped;
    drop(nodes);
    let ImageFile { image, claims } = file;
    drop(claims);
    match checked {
        Ok(()) => Ok(Built { net, image }),
        Err(no) => {
            drop(image);
            drop(net);
            Err(Refusal::from(no))
        }
    }
}
