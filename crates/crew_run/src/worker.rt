//! A worker of a crew.

use seen_list::List;

/// A worker with the members that it steps, and what it tells of their turns.
#[derive(Drop)]
pub struct Worker<S, G> {
    pub members: List<S>,
    pub gate: Option<G>,
}
