//! A link that nobody has used yet.
ghost use Rattle.outside.specs.Links.{IsFresh};

use outside::Link;

/// A link as the net hands it out: it has given and taken nothing, isn't closed, and its three counts are 0.
#[derive(Drop)]
pub struct FreshLink<L: Link> {
    link: L,
    ghost fresh: { IsFresh (L.faults link) (L.ends link) (L.empties link) (L.given link) (L.taken link) (L.closed link) },
}

impl<L: Link> FreshLink<L> {
    /// A link that the net has just handed out.
    pub(crate) fn new(link: L) -> FreshLink<L>
        requires { IsFresh (L.faults link) (L.ends link) (L.empties link) (L.given link) (L.taken link) (L.closed link) }
    {
        FreshLink { link }
    }

    /// The link, which is as the net handed it out.
    pub fn into_link(self) -> L
        ensures { IsFresh (L.faults result) (L.ends result) (L.empties result) (L.given result) (L.taken result) (L.closed result) }
    {
        self.link
    }
}
