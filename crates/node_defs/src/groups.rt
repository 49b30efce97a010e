//! How a gate of more than four operands is cut into nodes.

ghost use Rattle.std.specs.Prelude.{◌≡◌, ◌<◌, ◌≤◌, length};
ghost use Rattle.limits.specs.declared.TheConstants.{MAX_GATE_OPERANDS};
ghost use Rattle.node_defs.specs.Groups.{groups, group_at as group_in, helper_count as helpers_in};

/// Up to four wires of a gate that stand next to one another: from wire `first` on, `size` of them.
/// The wires of a gate of n operands are its operands, 0 to n - 1 from the left, and then its helpers,
/// n and up.
#[derive(Clone, Copy)]
pub struct Group {
    pub first: u32,
    pub size: u32,
}

/// The number of helpers of a gate of so many operands: 0 for at most four.
pub fn helper_count(operands: u32) -> u32
    requires { operands ≤ MAX_GATE_OPERANDS }
    ensures { result ≡ helpers_in operands }
{
    let mut count = operands;
    let mut helpers = 0;
    'levels: while count > 4 {
        count = (count + 3) / 4;
        helpers += count;
    }
    helpers
}

/// The group of a helper, by its number, or, at the place after the last helper, that of the gate's own
/// node.
pub fn group_at(operands: u32, place: u32) -> Group
    requires few { operands ≤ MAX_GATE_OPERANDS }
    requires within { place < length (groups operands) }
    ensures { result ≡ group_in operands place }
{
    let mut first = 0;
    let mut count = operands;
    let mut left = place;
    'levels: while count > 4 {
        let groups = (count + 3) / 4;
        if left < groups {
            return Group {
                first: first + 4 * left,
                size: (count - 4 * left).min(4),
            };
        }
        left -= groups;
        first += count;
        count = groups;
    }
    Group { first, size: count }
}
