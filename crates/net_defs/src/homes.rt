//! Which homes a design gets.

/// How a compiler chooses the home of a node, which is the logic port that works it out (this
/// project's profile).
#[derive(Clone, Copy, PartialEq, Eq)]
pub enum HomeChoice {
    /// The nodes are dealt to the logic ports in turn.
    Plain,
    /// The nodes are moved from there while that lowers the crossings.
    Better,
}
