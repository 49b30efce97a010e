//! The law of the check: a function that does nothing, whose clauses hold of all images and items.

ghost use Rattle.net_defs.specs.declared.timing.Timing.{Timing};
ghost use Rattle.node_defs.specs.declared.items.NodeNet.{NodeNet};
ghost use Rattle.image_defs.specs.{declared.file.ImageFile.ImageFile, Claimed.HasClaims};
ghost use Rattle.image_check.specs.Check.{HasAnswer, HasOneAnswer};

/// A law: each image with a claim for each of its places is well formed and matches the items, or the check
/// has a refusal of it that is no want of memory; and of these answers it has exactly one. It does nothing.
pub fn matches_or_not()
    ensures some { (file : ImageFile) (nodes : NodeNet) (timing : Timing) → HasClaims file → HasAnswer file nodes timing }
    ensures one { (file : ImageFile) (nodes : NodeNet) (timing : Timing) → HasOneAnswer file nodes timing }
{}
