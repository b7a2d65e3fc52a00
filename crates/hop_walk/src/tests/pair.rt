//! Paths between two routers with a link, of which the first announces a route that the second was given.

ghost use Rattle.std.specs.Prelude.{◌≡◌, ◌≤◌, true, length, IfOk};
ghost use Rattle.rcp_model.specs.Attributes.{number_width};
ghost use Rattle.rcp_model.specs.Routes.{route_in, is_usable};

use crate::walk;
use rcp_base::{Addr, NoMemory, Prefix, RouterId, Slot};
use rcp_model::{Assigned, Costs, Edge, Octets, Route};
use std::alloc::Global;
use std::marker::Model;
use std::sync::Arc;
use std::test::Fail;

/// ORIGIN IGP, AS_PATH 65001, NEXT_HOP 10.0.0.1 and LOCAL_PREF 100 (RFC 4271 section 4.3).
const ATTRIBUTES: [u8; 25] = [
    64, 1, 1, 0, 64, 2, 4, 2, 1, 253, 233, 64, 3, 4, 10, 0, 0, 1, 64, 5, 4, 0, 0, 0, 100,
];

/// No prefix is pending. Contracts see the prefix and its route.
#[derive(Drop)]
struct Pair {
    prefix: Prefix,
    route: Route,
}

impl Model for Pair {
    ghost use Rattle.std.specs.Prelude.{◌≡◌, true};
    ghost use Rattle.rcp_base.specs.IpPrefix.{IpPrefix};
    ghost use Rattle.rcp_model.specs.Attributes.{number_width};
    ghost use Rattle.rcp_model.specs.Routes.{RouteFields, route_in, is_usable};

    ghost Value = { IpPrefix × RouteFields };

    ghost view = { λ pair. (pair.prefix, pair.route) };

    ghost invariant = { λ pair. (pair.route ≡ route_in number_width 65000 pair.route.attrs) × (is_usable pair.route ≡ true) };
}

impl Costs for Pair {
    ghost use Rattle.std.specs.Prelude.{[], ◌∷◌};

    ghost edges = { λ _. record { from = 1; to = 2; cost = 10 } ∷ record { from = 2; to = 1; cost = 10 } ∷ [] };

    ghost members = { λ _. record { router = 1; bgp_id = 1 } ∷ record { router = 2; bgp_id = 2 } ∷ [] };

    fn cost(&self, from: Slot, to: Slot) -> Option<u32> {
        if from.0 > 1 || to.0 > 1 {
            return None;
        }
        if from.0 == to.0 {
            return Some(0);
        }
        Some(10)
    }
}

impl Assigned for Pair {
    ghost use Rattle.std.specs.Prelude.{Some, None, false, ◌&&◌, ◌==◌, nat_lt, if◌then◌else◌};
    ghost use Rattle.rcp_base.specs.Maps.{same_prefix};

    ghost as_number = { λ _. 65000 };

    ghost connected = { λ _ slot. nat_lt slot 2 };

    ghost announced = { λ pair p slot. if same_prefix p pair.0 && slot == 0 then Some pair.1.attrs else None };

    ghost given = { λ pair p slot. if same_prefix p pair.0 && slot == 1 then Some pair.1.attrs else None };

    ghost pending = { λ _ _. false };

    fn as_number(&self) -> u32 {
        65000
    }

    fn members(&self) -> u16 {
        let _route = &self.route;
        2
    }

    fn router(&self, slot: Slot) -> RouterId {
        RouterId(1 + slot.0 as u32)
    }

    fn bgp_id(&self, slot: Slot) -> Addr {
        Addr(1 + slot.0 as u32)
    }

    fn connected(&self, slot: Slot) -> bool {
        slot.0 < 2
    }

    fn announcement(&self, slot: Slot, p: Prefix) -> Option<&Route> {
        if p != self.prefix || slot.0 != 0 {
            return None;
        }
        Some(&self.route)
    }

    fn next_prefix(&self, after: Option<Prefix>) -> Option<Prefix> {
        match after {
            Some(after) if after >= self.prefix => None,
            _ => Some(self.prefix),
        }
    }

    fn is_pending(&self, _p: Prefix) -> bool {
        false
    }

    fn table(&self, slot: Slot, p: Prefix) -> Option<&Route> {
        if p != self.prefix || slot.0 != 1 {
            return None;
        }
        Some(&self.route)
    }

    fn edge(&self, place: u64) -> Option<Edge> {
        match place {
            0 => Some(Edge {
                from: RouterId(1),
                to: RouterId(2),
                cost: 10,
            }),
            1 => Some(Edge {
                from: RouterId(2),
                to: RouterId(1),
                cost: 10,
            }),
            _ => None,
        }
    }
}

fn route(alloc: Global) -> Result<Route, NoMemory>
    ensures fields { IfOk result (λ route. route ≡ route_in number_width 65000 route.attrs) }
    ensures usable { IfOk result (λ route. is_usable route ≡ true) }
{
    let octets = Octets::from_slice(alloc, &ATTRIBUTES)?;
    Ok(Route {
        pref: 100,
        hops: 1,
        origin: 0,
        neighbour: 65001,
        med: 0,
        looped: false,
        long: false,
        next_hop: Addr(0x0a000001),
        attrs: Arc::new(alloc, octets)?,
    })
}

fn make_pair(alloc: Global, prefix: Prefix) -> Result<Pair, NoMemory> {
    let route = route(alloc)?;
    Ok(Pair { prefix, route })
}

/// The path from a router to the one that announces the prefix.
fn path(alloc: Global, router: RouterId, prefix: Prefix) -> Option<Vec<RouterId>> {
    let pair = make_pair(alloc, prefix).ok()?;
    walk(alloc, &pair, router, prefix).ok()
}

/// Whether that path is this one.
fn is_path(alloc: Global, prefix: Prefix, want: &[RouterId]) -> bool
    requires { 1 ≤ length want.now }
{
    match path(alloc, want[0], prefix) {
        Some(path) => path.as_slice() == want,
        None => false,
    }
}

#[test]
fn path_ends_at_the_router_that_announces(rt: HostRuntime) -> Result<(), Fail> {
    let prefix = Prefix::new(0xcb00_7100, 24).ok_or("length")?;
    let alloc = rt.alloc();
    assert!(rt; is_path(alloc, prefix, &[RouterId(2), RouterId(1)]));
    assert!(rt; is_path(alloc, prefix, &[RouterId(1)]));
    Ok(())
}
