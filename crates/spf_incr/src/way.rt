//! How the costs from a root follow a change of one edge.

/// An edge by the places of its ends among names.
#[derive(Clone, Copy, Debug)]
pub struct Hop {
    pub from: usize,
    pub to: usize,
    pub cost: u32,
}

/// How rows of costs follow a change: each is searched anew, or changes only by an edge that was removed, or that was added,
/// where the row of the costs from its end is given too.
#[derive(Debug, Drop)]
pub enum Way {
    Anew,
    Removed(Hop),
    Added(Hop, Vec<Option<u32>>),
}
