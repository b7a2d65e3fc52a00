//! What contracts see of a link.

use outside::Link;

/// Gives each link one value for contracts: the record of what its trait says of it.
pub trait Wired {
    ghost use Rattle.outbox.specs.Wires.{WireOf};

    /// The octets that the link gave and took, and its counts.
    ghost wire: { Self → WireOf };
}

impl<L: Link> Wired for L {
    ghost wire = { λ link. record { given = L.given link; taken = L.taken link; closed = L.closed link; faults = L.faults link; ends = L.ends link; empties = L.empties link } };
}
