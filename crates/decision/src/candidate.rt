//! Candidates: what is compared of a route.

use rcp_base::{Addr, Slot};
use rcp_model::Route;
use std::marker::Model;

/// A route that takes part: who announced it, and what is compared of it. Contracts see the record of these fields.
#[derive(Clone, Copy, Debug, PartialEq, Eq)]
pub struct Candidate {
    /// The router that announced it.
    pub slot: Slot,
    /// That router's BGP Identifier.
    pub id: Addr,
    /// The degree of preference, LOCAL_PREF (RFC 4271 section 5.1.5): the highest one goes first.
    pub pref: u32,
    /// How many ASes AS_PATH counts, each AS_SET as one (section 9.1.2.2 a).
    pub hops: u32,
    /// ORIGIN: 0 IGP, 1 EGP, 2 INCOMPLETE (section 5.1.1).
    pub origin: u8,
    /// The AS that the route was learned from, among whose routes alone `med` is compared.
    pub neighbour: u32,
    /// MULTI_EXIT_DISC, 0 where it is absent (section 5.1.4): the lowest one goes first.
    pub med: u32,
}

impl Model for Candidate {
    ghost use Rattle.rcp_model.specs.Decision.{Contender};

    ghost Value = { Contender };

    ghost view = { λ c. record {
      slot = c.slot;
      id = c.id;
      pref = c.pref;
      hops = c.hops;
      origin = c.origin;
      neighbour = c.neighbour;
      med = c.med;
    } };

    ghost inverse = { λ c. record {
      slot = c.slot;
      id = c.id;
      pref = c.pref;
      hops = c.hops;
      origin = c.origin;
      neighbour = c.neighbour;
      med = c.med;
    } };
}

impl Candidate {
    ghost use Rattle.std.specs.Prelude.{◌≡◌};
    ghost use Rattle.rcp_model.specs.Decision.{contender};

    /// The candidate that a router's route is, of which it has the five fields that are compared.
    pub fn of(slot: Slot, id: Addr, route: &Route) -> Candidate
        ensures { result ≡ contender slot id route.now }
    {
        Candidate {
            slot,
            id,
            pref: route.pref,
            hops: route.hops,
            origin: route.origin,
            neighbour: route.neighbour,
            med: route.med,
        }
    }
}
