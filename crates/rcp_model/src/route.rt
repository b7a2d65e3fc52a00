ghost use Rattle.std.specs.Prelude.{◌≡◌};
ghost use Rattle.rcp_model.specs.Routes.{IsRoute};

use crate::octets::Octets;
use rcp_base::Addr;
use std::alloc::AllocError;
use std::marker::Model;
use std::sync::Arc;

/// A route to a prefix (RFC 4271 section 1.1): what the decision process reads of its path
/// attributes, and their octets as they are sent on. Each route keeps that the octets are the canonical
/// ones of attributes with ORIGIN, AS_PATH and NEXT_HOP, and that `long` says what they are. Contracts
/// see the record of the fields.
#[derive(Debug, Drop)]
pub struct Route {
    /// LOCAL_PREF (section 5.1.5), 100 where it was absent.
    pub pref: u32,
    /// The length of AS_PATH (section 9.1.2.2): each number of an AS_SEQUENCE counts one, each AS_SET one.
    pub hops: u32,
    /// ORIGIN (section 5.1.1): 0 IGP, 1 EGP, 2 INCOMPLETE.
    pub origin: u8,
    /// The AS that the route was learned from: the first of AS_PATH where it begins with an AS_SEQUENCE, else the local AS.
    pub neighbour: u32,
    /// MULTI_EXIT_DISC (section 5.1.4), 0 where it was absent.
    pub med: u32,
    /// Whether the local AS stands in AS_PATH (section 9.1.2).
    pub looped: bool,
    /// Whether `attrs` have more than 4,068 octets, and so leave no room for a prefix of more than 24 bits
    /// in a message of 4,096 octets.
    pub long: bool,
    /// NEXT_HOP (section 5.1.3).
    pub next_hop: Addr,
    /// The octets of the path attributes as they are sent on.
    pub attrs: Arc<Octets>,
}

impl Model for Route {
    ghost use Rattle.rcp_model.specs.Routes.{RouteFields, IsRoute};

    ghost Value = { RouteFields };

    ghost view = { λ r. record {
      pref = r.pref;
      hops = r.hops;
      origin = r.origin;
      neighbour = r.neighbour;
      med = r.med;
      looped = r.looped;
      long = r.long;
      next_hop = r.next_hop;
      attrs = r.attrs.value;
    } };

    ghost invariant = { λ r. IsRoute (record {
      pref = r.pref;
      hops = r.hops;
      origin = r.origin;
      neighbour = r.neighbour;
      med = r.med;
      looped = r.looped;
      long = r.long;
      next_hop = r.next_hop;
      attrs = r.attrs.value;
    }) };
}

impl Route {
    /// The octets of the path attributes as they are sent on.
    pub fn octets(&self) -> &[u8]
        ensures octets { result.now ≡ self.now.attrs }
        ensures in_form { IsRoute self.now }
    {
        self.attrs.as_slice()
    }
}

impl Clone for Route {
    ghost is_clone = { λ route copy. copy ≡ route };

    /// Takes memory only for the count of those that share the octets.
    fn clone(&self) -> Result<Route, AllocError> {
        let attrs = self.attrs.clone()?;
        Ok(Route {
            pref: self.pref,
            hops: self.hops,
            origin: self.origin,
            neighbour: self.neighbour,
            med: self.med,
            looped: self.looped,
            long: self.long,
            next_hop: self.next_hop,
            attrs,
        })
    }
}
