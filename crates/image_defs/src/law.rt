//! Laws of images: functions that do nothing, whose clauses hold of all images and items.

ghost use Rattle.image_defs.specs.{Frames.frame, Matches.Matches, Shows.ShowsItems, Steps.AreImageValues, WellFormed.IsWellFormed, declared.image.Image.Image};
ghost use Rattle.net_defs.specs.{Steps.State, declared.stimulus.Stimulus.Stimulus, declared.timing.Timing.Timing};
ghost use Rattle.node_defs.specs.{Values.AreItemValues, declared.items.NodeNet.NodeNet};
ghost use Rattle.std.specs.Prelude.{ℕ, List as Items};

/// A law: the value of a well-formed image meets the equations of its items and memories at every
/// turn. It does nothing.
pub fn value_meets_equations()
    ensures { (image : Image) (stimulus : Stimulus) → IsWellFormed image
        → AreImageValues image stimulus (frame image stimulus) }
{}

/// A law: a well-formed image that matches items shows them: at every turn, each place has the value
/// of the item that it claims, and what is shown of a cycle are the values of the printed items. It
/// does nothing.
pub fn matched_values()
    ensures { (image : Image) (claims : Items (Items ℕ)) (nodes : NodeNet) (timing : Timing)
        → IsWellFormed image → Matches image claims nodes timing
        → (stimulus : Stimulus) (values : Items State) → AreItemValues nodes timing stimulus values
        → ShowsItems image claims nodes stimulus values }
{}
