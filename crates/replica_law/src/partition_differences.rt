//! The first difference of two networks at a partition: of routers, of BGP Identifiers, of edges.

ghost use Rattle.std.specs.Prelude.{◌≡◌, ℕ, not, ◌<◌, map, find, Contains, AllPairs, IsTrue, MatchOption};
ghost use Rattle.std.specs.List.Sorted.{IsStrictlyIncreasing};
ghost use Rattle.rcp_base.specs.declared.names.Edge.{Edge};
ghost use Rattle.rcp_model.specs.Costs.{edge_cost, is_reached};
ghost use Rattle.rcp_model.specs.Edges.{is_edge_before};
ghost use Rattle.rcp_model.specs.RouteServer.{same_cost};
ghost use Rattle.replica_law.specs.Replicas.{identifier_of};
ghost use Rattle.replica_law.specs.Steps.{IsLeastIn, ArePartition, IsFirstApart, IsFirstLink, lower, unlike};

use crate::partitions::Partitions;
use crate::seats::Seats;
use cost_rows::Graph;
use rcp_base::RouterId;
use rcp_model::Edge;

/// Whether a router is in the partition of another one.
pub fn is_with(partitions: &Partitions, least: RouterId, router: RouterId) -> bool
    ensures { result ≡ is_reached partitions.now least router }
{
    partitions.least(router) == partitions.least(least)
}

/// Whether a router is in the partition of another one in one network alone.
fn is_moved(first: &Partitions, second: &Partitions, least: RouterId, router: RouterId) -> bool
    ensures { result ≡ unlike (is_reached first.now least router) (is_reached second.now least router) }
{
    is_with(first, least, router) != is_with(second, least, router)
}

/// The first router at the end of some edges that is in the partition of another one in one network alone.
fn first_moved(
    edges: &[Edge],
    first: &Partitions,
    second: &Partitions,
    least: RouterId,
) -> Option<RouterId>
    ensures { result ≡ find (λ router. unlike (is_reached first.now least router) (is_reached second.now least router)) (map (λ edge. edge.to) edges.now) }
{
    edges
        .iter()
        .map(|edge| edge.to)
        .find(|router| is_moved(first, second, least, *router))
}

/// The lower one of two routers.
fn lower(a: Option<RouterId>, b: Option<RouterId>) -> Option<RouterId>
    ensures { result ≡ lower a b }
{
    match (a, b) {
        (Some(a), Some(b)) => Some(a.min(b)),
        (Some(a), None) => Some(a),
        (None, b) => b,
    }
}

/// The least router that is in the partition of another one in one network alone. The other one is the least of its partition in
/// the first. It takes about as many steps as the partition has routers in the first, each with a look-up.
pub fn first_member(first: &Partitions, second: &Partitions, least: RouterId) -> Option<RouterId>
    requires { IsLeastIn first.now least least }
    ensures { MatchOption result ((u : ℕ) → is_reached first.now least u ≡ is_reached second.now least u)
        (IsFirstApart (λ u. Unit {0}) (is_reached first.now least) (is_reached second.now least)) }
{
    let lost = first_moved(first.spokes(least), first, second, least);
    let other = second.least(least);
    let gained = first_moved(second.spokes(other), first, second, least);
    lower(lost, gained)
}

/// Whether the BGP Identifier of a router differs.
fn is_renamed(first: &Seats, second: &Seats, router: RouterId) -> bool
    ensures { result ≡ not (same_cost (identifier_of first.now router) (identifier_of second.now router)) }
{
    first.identifier(router) != second.identifier(router)
}

/// The first of a list whose BGP Identifier differs.
fn first_renamed(first: &Seats, second: &Seats, routers: &[RouterId]) -> Option<RouterId>
    ensures { result ≡ find (λ router. not (same_cost (identifier_of first.now router) (identifier_of second.now router))) routers.now }
{
    routers
        .iter()
        .copied()
        .find(|router| is_renamed(first, second, *router))
}

/// The first of some routers, which rise, whose BGP Identifier differs.
pub fn first_identity(first: &Seats, second: &Seats, routers: &[RouterId]) -> Option<RouterId>
    requires { IsStrictlyIncreasing routers.now }
    ensures { MatchOption result ((u : ℕ) → Contains routers.now u → identifier_of first.now u ≡ identifier_of second.now u)
        (IsFirstApart (Contains routers.now) (identifier_of first.now) (identifier_of second.now)) }
{
    first_renamed(first, second, routers)
}

/// The least cost of an edge from one router to another, found by halving.
pub fn least_link(graph: &Graph, from: RouterId, to: RouterId) -> Option<u32>
    ensures { result ≡ edge_cost graph.now from to }
{
    let edges = graph.edges_from(from);
    let place = edges.partition_point(|edge| edge.to < to);
    let edge = edges.get(place)?;
    if edge.to == to { Some(edge.cost) } else { None }
}

/// Whether the least cost of an edge differs.
fn is_recosted(first: &Graph, second: &Graph, from: RouterId, to: RouterId) -> bool
    ensures { result ≡ not (same_cost (edge_cost first.now from to) (edge_cost second.now from to)) }
{
    least_link(first, from, to) != least_link(second, from, to)
}

/// The first end of some edges to which the least cost from a router differs.
fn first_end(edges: &[Edge], first: &Graph, second: &Graph, from: RouterId) -> Option<RouterId>
    ensures { result ≡ find (λ to. not (same_cost (edge_cost first.now from to) (edge_cost second.now from to))) (map (λ edge. edge.to) edges.now) }
{
    edges
        .iter()
        .map(|edge| edge.to)
        .find(|to| is_recosted(first, second, from, *to))
}

/// The least router to which the least cost of an edge from this one differs.
fn first_link_from(first: &Graph, second: &Graph, from: RouterId) -> Option<RouterId>
    ensures { MatchOption result ((v : ℕ) → edge_cost first.now from v ≡ edge_cost second.now from v)
        (IsFirstApart (λ v. Unit {0}) (edge_cost first.now from) (edge_cost second.now from)) }
{
    let here = first_end(first.edges_from(from), first, second, from);
    let there = first_end(second.edges_from(from), first, second, from);
    lower(here, there)
}

/// The first edge from some routers whose least cost differs: by its beginning, then by its end. Each edge that begins at one of
/// them is gone over once, with a look-up.
pub fn first_link(
    first: &Graph,
    second: &Graph,
    routers: &[RouterId],
) -> Option<(RouterId, RouterId)>
    requires { IsStrictlyIncreasing routers.now }
    ensures { MatchOption result ((u v : ℕ) → Contains routers.now u → edge_cost first.now u v ≡ edge_cost second.now u v)
        (λ link. IsFirstLink first.now second.now routers.now link.0 link.1) }
{
    for from in routers {
        if let Some(to) = first_link_from(first, second, *from) {
            return Some((*from, to));
        }
    }
    None
}
