//! A platform that is written down: four routers 10.0.0.1 to 10.0.0.4, two links, and the first router's route or none.

ghost use Rattle.std.specs.Prelude.{◌≡◌, ◌+◌, ◌≤◌, IfOk, IfSome};
ghost use Rattle.rcp_model.specs.Attributes.{number_width};
ghost use Rattle.rcp_model.specs.Costs.{IsTwoWay};
ghost use Rattle.rcp_model.specs.Graphs.{AreMembers};
ghost use Rattle.rcp_model.specs.Routes.{route_in};

use cost_rows::{Graph, View};
use rcp_base::{Addr, Member, NoMemory, Prefix, RouterId, Slot};
use rcp_model::{Assigned, Costs, Edge, Octets, Route};
use std::alloc::Global;
use std::marker::Model;
use std::sync::Arc;

/// ORIGIN IGP, AS_PATH 65001, NEXT_HOP 10.0.0.1 and LOCAL_PREF 100 (RFC 4271 section 4.3).
const ATTRIBUTES: [u8; 25] = [
    64, 1, 1, 0, 64, 2, 4, 2, 1, 253, 233, 64, 3, 4, 10, 0, 0, 1, 64, 5, 4, 0, 0, 0, 100,
];

/// A link between two routers, each by the last octet of its ID, with the cost in both directions.
pub type Link = (u8, u8, u16);

/// Each prefix is pending, so that it doesn't matter what was given. Contracts see the network, the prefix and its route.
#[derive(Drop)]
pub struct Recorded {
    view: Arc<View>,
    prefix: Prefix,
    route: Option<Route>,
}

impl Model for Recorded {
    ghost use Rattle.std.specs.Prelude.{◌≡◌, Option, IfSome};
    ghost use Rattle.rcp_base.specs.IpPrefix.{IpPrefix};
    ghost use Rattle.rcp_model.specs.Attributes.{number_width};
    ghost use Rattle.rcp_model.specs.Costs.{IsTwoWay};
    ghost use Rattle.rcp_model.specs.Routes.{RouteFields, route_in};
    ghost use Rattle.cost_rows.specs.Views.{ViewOf};

    ghost Value = { ViewOf × IpPrefix × Option RouteFields };

    ghost view = { λ r. (r.view.value, r.prefix, r.route) };

    ghost invariant = { λ r. IsTwoWay r.view.value.edges × IfSome r.route (λ route. route ≡ route_in number_width 65000 route.attrs) };
}

impl Costs for Recorded {
    ghost edges = { λ r. r.0.edges };

    ghost members = { λ r. r.0.members };

    fn cost(&self, from: Slot, to: Slot) -> Option<u32> {
        self.view.cost(from, to)
    }
}

impl Assigned for Recorded {
    ghost use Rattle.std.specs.Prelude.{true, None, ◌&&◌, ◌==◌, option_map, if◌then◌else◌};
    ghost use Rattle.rcp_base.specs.Maps.{same_prefix};

    ghost as_number = { λ _. 65000 };

    ghost connected = { λ _ _. true };

    ghost announced = { λ r p slot. if same_prefix p r.1 && slot == 0 then option_map (λ route. route.attrs) r.2 else None };

    ghost given = { λ _ _ _. None };

    ghost pending = { λ _ _. true };

    fn as_number(&self) -> u32 {
        65000
    }

    fn members(&self) -> u16 {
        let _edges = self.view.graph().edges();
        self.view.members().len() as u16
    }

    fn router(&self, slot: Slot) -> RouterId {
        self.view.members()[slot.0 as usize].router
    }

    fn bgp_id(&self, slot: Slot) -> Addr {
        self.view.members()[slot.0 as usize].bgp_id
    }

    fn connected(&self, _slot: Slot) -> bool {
        true
    }

    fn announcement(&self, slot: Slot, p: Prefix) -> Option<&Route> {
        if p != self.prefix || slot != Slot(0) {
            return None;
        }
        self.route.as_ref()
    }

    fn next_prefix(&self, after: Option<Prefix>) -> Option<Prefix> {
        let _route = self.route.as_ref()?;
        match after {
            Some(after) if after >= self.prefix => None,
            _ => Some(self.prefix),
        }
    }

    fn is_pending(&self, _p: Prefix) -> bool {
        true
    }

    fn table(&self, _slot: Slot, _p: Prefix) -> Option<&Route> {
        None
    }

    fn edge(&self, place: u64) -> Option<Edge> {
        self.view.graph().edges().get(place as usize).copied()
    }
}

fn edge(from: u8, to: u8, cost: u16) -> Edge
    ensures ends { (result.from ≡ 167772160 + from) × (result.to ≡ 167772160 + to) }
    ensures cheap { result.cost ≤ 65535 }
{
    Edge {
        from: RouterId(0x0a000000 + from as u32),
        to: RouterId(0x0a000000 + to as u32),
        cost: cost as u32,
    }
}

fn graph_of(alloc: Global, links: &[Link; 2]) -> Result<Graph, NoMemory>
    ensures { IfOk result (λ graph. IsTwoWay graph) }
{
    let mut graph = Graph::new(alloc)?;
    for (from, to, cost) in links {
        graph.add(edge(*from, *to, *cost))?;
        graph.add(edge(*to, *from, *cost))?;
    }
    Ok(graph)
}

fn member(number: u8) -> Member
    ensures { (result.router ≡ 167772160 + number) × (result.bgp_id ≡ 167772160 + number) }
{
    Member {
        router: RouterId(0x0a000000 + number as u32),
        bgp_id: Addr(0x0a000000 + number as u32),
    }
}

fn members() -> [Member; 4]
    ensures { AreMembers result }
{
    [member(1), member(2), member(3), member(4)]
}

fn route(alloc: Global) -> Result<Route, NoMemory>
    ensures { IfOk result (λ route. route ≡ route_in number_width 65000 route.attrs) }
{
    let octets = Octets::from_slice(alloc, &ATTRIBUTES)?;
    Ok(Route {
        pref: 100,
        hops: 1,
        origin: 0,
        neighbour: 65001,
        med: 0,
        looped: false,
        long: false,
        next_hop: Addr(0x0a000001),
        attrs: Arc::new(alloc, octets)?,
    })
}

fn route_if(alloc: Global, announced: bool) -> Result<Option<Route>, NoMemory>
    ensures { IfOk result (λ route. IfSome route (λ route. route ≡ route_in number_width 65000 route.attrs)) }
{
    if !announced {
        return Ok(None);
    }
    Ok(Some(route(alloc)?))
}

/// The platform with these links, whose first router announces the route of the prefix, or nothing.
pub fn make_recorded(
    alloc: Global,
    links: &[Link; 2],
    prefix: Prefix,
    announced: bool,
) -> Result<Recorded, NoMemory> {
    let graph = graph_of(alloc, links)?;
    let view = View::build(alloc, &members(), graph)?;
    let route = route_if(alloc, announced)?;
    Ok(Recorded {
        view,
        prefix,
        route,
    })
}
