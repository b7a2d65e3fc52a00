//! What the members of a view reach: made over a graph, and renewed where rows of costs changed.

ghost use Rattle.std.specs.Prelude.{◌≡◌, ℕ, ◌<◌, ◌-◌, ◌^◌, List, length, map, slice_index_or, All, Contains, Some, None, IfOk, IfSome};
ghost use Rattle.std.specs.List.Sorted.{IsStrictlyIncreasing};
ghost use Rattle.rcp_base.specs.declared.names.Edge.{Edge};
ghost use Rattle.rcp_model.specs.RouteServer.{router_at};
ghost use Rattle.rcp_model.specs.Graphs.{AreMembers, IsGraph};
ghost use Rattle.rcp_base.specs.Maps.{get_at};
ghost use Rattle.rcp_model.specs.LinkState.{same_number};
ghost use Rattle.cost_rows.specs.Engines.{cost_from};
ghost use Rattle.cost_rows.specs.Search.{AreIndexed, ArePlaces};
ghost use Rattle.cost_rows.specs.Views.{IsReach, IsView, AreRenewals};

use crate::graph::Graph;
use crate::names::{names_of, place_of};
use crate::packed::PackedCost;
use crate::places::{Places, places_in};
use crate::reach::Reach;
use crate::row::Row;
use crate::search::least_costs_by;
use rcp_base::{Member, NoMemory, RouterId, Slot};
use std::alloc::Global;
use std::sync::Arc;

/// The routers of members.
fn routers_of(alloc: Global, members: &[Member]) -> Result<Vec<RouterId>, NoMemory>
    ensures { IfOk result (λ routers. routers.items ≡ map (λ member. member.router) members.now) }
{
    Ok(members.iter().map(|member| member.router).collect(alloc)?)
}

/// The places of routers among names.
fn places_of(
    alloc: Global,
    names: &[RouterId],
    routers: &[RouterId],
) -> Result<Vec<usize>, NoMemory>
    requires rising { IsStrictlyIncreasing names.now }
    requires named { All (Contains names.now) routers.now }
    ensures { IfOk result (λ places. ArePlaces names.now routers.now places.items) }
{
    let mut places = Vec::new(alloc);
    for router in routers {
        places.push(place_of(names, *router))?;
    }
    Ok(places)
}

/// The costs at places.
fn costs_at(
    alloc: Global,
    least: &[Option<u32>],
    places: &[usize],
) -> Result<Vec<PackedCost>, NoMemory>
    requires places { All (λ place. place < length least.now) places.now }
    requires low { All (λ cost. IfSome cost (λ n. n < 2 ^ 32 - 1)) least.now }
    ensures { IfOk result (λ costs. costs.items ≡ map (λ place. slice_index_or least.now place None) places.now) }
{
    let mut costs = Vec::new(alloc);
    for place in places {
        costs.push(PackedCost::new(least[*place]))?;
    }
    Ok(costs)
}

/// What the member with this router reaches over a graph. The members' routers are at these seats among the names of the
/// graph's places.
fn reach_over(
    alloc: Global,
    members: &[Member],
    graph: &Graph,
    index: &Places,
    seats: &[usize],
    root: RouterId,
) -> Result<Reach, NoMemory>
    requires members { AreMembers members.now }
    requires graph { IsGraph graph.now }
    requires indexed { AreIndexed graph.now index.now.names.items index.now.ends.items index.now.runs.items }
    requires seats { ArePlaces index.now.names.items (map (λ member. member.router) members.now) seats.now }
    requires root { Contains index.now.names.items root }
    ensures { IfOk result (λ reach. (slot : ℕ) → router_at members.now slot ≡ Some root → IsReach graph.now members.now slot reach) }
{
    let least = least_costs_by(alloc, graph, index, root)?;
    let costs = costs_at(alloc, least.as_slice(), seats)?;
    Reach::new(alloc, members, costs)
}

/// What each member reaches over a graph.
pub fn reaches_over(
    alloc: Global,
    members: &[Member],
    graph: &Graph,
) -> Result<Vec<Arc<Reach>>, NoMemory>
    requires { AreMembers members.now }
    ensures { IfOk result (λ reaches. IsView graph.now members.now (map (λ reach. reach.value) reaches.items)) }
{
    let routers = routers_of(alloc, members)?;
    let names = names_of(alloc, graph, routers.as_slice())?;
    let seats = places_of(alloc, names.as_slice(), routers.as_slice())?;
    let index = places_in(alloc, graph, names.as_slice())?;
    each_reach(alloc, members, graph, &index, seats.as_slice())
}

/// What each member reaches over a graph with these places, where the members' routers are at these seats.
fn each_reach(
    alloc: Global,
    members: &[Member],
    graph: &Graph,
    index: &Places,
    seats: &[usize],
) -> Result<Vec<Arc<Reach>>, NoMemory>
    requires members { AreMembers members.now }
    requires graph { IsGraph graph.now }
    requires indexed { AreIndexed graph.now index.now.names.items index.now.ends.items index.now.runs.items }
    requires seats { ArePlaces index.now.names.items (map (λ member. member.router) members.now) seats.now }
    ensures { IfOk result (λ reaches. IsView graph.now members.now (map (λ reach. reach.value) reaches.items)) }
{
    let mut reaches = Vec::new(alloc);
    for member in members {
        let reach = reach_over(alloc, members, graph, index, seats, member.router)?;
        reaches.push(Arc::new(alloc, reach)?)?;
    }
    Ok(reaches)
}

/// The costs to members by a row.
fn costs_in(alloc: Global, members: &[Member], row: &Row) -> Result<Vec<PackedCost>, NoMemory>
    requires { (router : ℕ) → IfSome (get_at same_number router row.now) (λ n. n < 2 ^ 32 - 1) }
    ensures { IfOk result (λ costs. costs.items ≡ map (λ member. get_at same_number member.router row.now) members.now) }
{
    let costs = members
        .iter()
        .map(|member| PackedCost::new(row.cost(member.router)));
    Ok(costs.collect(alloc)?)
}

/// What the member at a slot reaches, by a row of the costs from it.
fn reach_by(
    alloc: Global,
    members: &[Member],
    graph: &Graph,
    slot: Slot,
    row: &Row,
) -> Result<Arc<Reach>, NoMemory>
    requires members { AreMembers members.now }
    requires row { (router : ℕ) → get_at same_number router row.now ≡ cost_from graph.now members.now slot router }
    ensures { IfOk result (λ reach. IsReach graph.now members.now slot reach.value) }
{
    // Costs are low because the edges are those of a graph.
    let _edges = graph.edges();
    let costs = costs_in(alloc, members, row)?;
    Ok(Arc::new(alloc, Reach::new(alloc, members, costs)?)?)
}

/// What members reach, shared.
fn shared(alloc: Global, reaches: &[Arc<Reach>]) -> Result<Vec<Arc<Reach>>, NoMemory>
    ensures { IfOk result (λ shared. map (λ reach. reach.value) shared.items ≡ map (λ reach. reach.value) reaches.now) }
{
    let mut copies = Vec::new(alloc);
    for reach in reaches {
        copies.push(reach.clone()?)?;
    }
    Ok(copies)
}

/// What each member reaches over another graph, by rows of the costs over it: the members of which there is none reach the same
/// at the same costs.
pub fn renewed(
    alloc: Global,
    members: &[Member],
    old: &[Arc<Reach>],
    graph: &Graph,
    rows: &[(Slot, Row)],
) -> Result<Vec<Arc<Reach>>, NoMemory>
    requires { (before : List Edge) × IsView before members.now (map (λ reach. reach.value) old.now)
        × AreRenewals before graph.now members.now rows.now }
    ensures { IfOk result (λ reaches. IsView graph.now members.now (map (λ reach. reach.value) reaches.items)) }
{
    let mut reaches = shared(alloc, old)?;
    for (slot, row) in rows {
        reaches[slot.0 as usize] = reach_by(alloc, members, graph, *slot, row)?;
    }
    Ok(reaches)
}
