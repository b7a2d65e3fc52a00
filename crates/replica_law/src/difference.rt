//! Differences between two replicas.

use rcp_base::{Addr, Prefix, RouterId};
use rcp_model::Octets;

/// What two replicas have otherwise at a partition. `first` and `second` are what the one and the other have, and differ.
///
/// Differences are ordered as these variants are, then by router, then by the other end or the prefix.
#[derive(Debug, Drop)]
pub enum Difference {
    /// The local AS.
    As {
        first: u32,
        second: u32,
    },
    /// Whether the router is in the partition of the least one.
    Member {
        router: RouterId,
        first: bool,
        second: bool,
    },
    /// The router's BGP Identifier (RFC 4271 section 4.2), if it is in the roster.
    Identity {
        router: RouterId,
        first: Option<Addr>,
        second: Option<Addr>,
    },
    /// The least cost of an edge from one router to another (RFC 2328 section 16.1), if there is one.
    LinkCost {
        from: RouterId,
        to: RouterId,
        first: Option<u32>,
        second: Option<u32>,
    },
    /// The octets of the path attributes that the router announced for the prefix, if it did.
    RouteOf {
        router: RouterId,
        prefix: Prefix,
        first: Option<Octets>,
        second: Option<Octets>,
    },
}

/// What two replicas have at one partition of the first.
#[derive(Debug, Drop)]
pub struct PartitionAnswer {
    /// The least router of the partition by ID, in the roster or not.
    pub least: RouterId,
    /// The first difference, `None` exactly where both have the same there.
    pub difference: Option<Difference>,
}
