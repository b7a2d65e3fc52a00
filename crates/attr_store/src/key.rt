//! A route as the key by which its number is found.

ghost use Rattle.std.specs.Prelude.{[], ◌∷◌};
ghost use Rattle.std.proofs.Common.{rules};
ghost use Rattle.std.specs.Cmp.{decided, partial_equiv_from_equiv};
ghost use Rattle.std.specs.Cmp.Rules.{hashing};
ghost use Rattle.attr_store.specs.SameRoutes.{same_route, same_route_decides};

use rcp_model::Route;
use std::hash::{Hash, Hasher};
use std::marker::Model;

/// A route that is compared by all of its fields and hashed by the octets of its path attributes alone.
#[derive(Debug, Drop)]
pub struct RouteKey {
    pub route: Route,
}

impl Model for RouteKey {
    ghost use Rattle.rcp_model.specs.Routes.{RouteFields};

    ghost Value = { RouteFields };

    ghost view = { λ k. k.route };
}

impl PartialEq for RouteKey {
    ghost eq = { same_route };

    ghost laws = { partial_equiv_from_equiv (decided same_route same_route_decides) };

    fn eq(&self, other: &RouteKey) -> bool {
        let a = &self.route;
        let b = &other.route;
        a.octets() == b.octets()
            && a.pref == b.pref
            && a.hops == b.hops
            && a.origin == b.origin
            && a.neighbour == b.neighbour
            && a.med == b.med
            && a.looped == b.looped
            && a.long == b.long
            && a.next_hop == b.next_hop
    }
}

impl Eq for RouteKey {
    ghost laws = { decided same_route same_route_decides };
}

impl Hash for RouteKey {
    ghost hash_input = { λ k. k.attrs ∷ [] };

    ghost respects_eq = { Prim.search (hashing, rules) };

    /// The octets are hashed by one write.
    fn hash<H: Hasher>(&self, state: &mut H) {
        state.write(self.route.octets());
    }
}
