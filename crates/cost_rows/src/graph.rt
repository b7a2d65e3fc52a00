//! Graphs: the edges of an interior network, in order.

ghost use Rattle.std.specs.Prelude.{◌≡◌, ◌+◌, ◌≤◌, ◌↔◌, [], length, take, drop, insert, slice_get, AllPairs, Contains, IsTrue, Some, IfOk, IfErr, OnOk, OnErr};
ghost use Rattle.rcp_model.specs.Edges.{include_edge, is_edge_before};
ghost use Rattle.rcp_model.specs.Graphs.{edges_from, exclude_edge};

use rcp_base::{NoMemory, RouterId};
use rcp_model::Edge;
use std::alloc::Global;
use std::marker::Model;

/// The edges of an interior network (RFC 2328 section 16.1), over at most 2,560 routers, each of a cost of at most
/// 65,535. Contracts see the list of the edges.
#[derive(Debug, Drop)]
pub struct Graph {
    edges: Vec<Edge>,
}

impl Model for Graph {
    ghost use Rattle.std.specs.Prelude.{List};
    ghost use Rattle.rcp_base.specs.declared.names.Edge.{Edge};
    ghost use Rattle.rcp_model.specs.Graphs.{IsGraph};

    ghost Value = { List Edge };

    ghost view = { λ graph. graph.edges.items };

    ghost invariant = { λ graph. IsGraph graph.edges.items };
}

impl Graph {
    ghost use Rattle.rcp_model.specs.Graphs.{IsGraph, routers_in, most_graph_routers, highest_cost};

    /// A graph without edges. `NoMemory` comes where there was no room for it.
    pub fn new(alloc: Global) -> Result<Graph, NoMemory>
        ensures { IfOk result (λ graph. graph ≡ []) }
    {
        Ok(Graph {
            edges: Vec::new(alloc),
        })
    }

    /// The graph of these edges: by `from`, `to` and `cost`, each once, over at most 2,560 routers, each of a cost of at most
    /// 65,535.
    pub fn from_edges(edges: Vec<Edge>) -> Graph
        requires { IsGraph edges.items }
        ensures { result ≡ edges.items }
    {
        Graph { edges }
    }

    /// A graph with the same edges. `NoMemory` comes where there was no room for them.
    pub fn try_clone(&self) -> Result<Graph, NoMemory>
        ensures { IfOk result (λ copy. copy ≡ self.now) }
    {
        let edges = self.edges.clone()?;
        Ok(Graph { edges })
    }

    /// Puts an edge in, unless it is there already. The edge costs at most 65,535, and the graph has at most 2,560
    /// routers afterwards.
    ///
    /// `NoMemory` comes only where the edge wasn't there and there was no room for it, and the graph stays as it was. The edges
    /// after it are moved.
    pub fn add(&mut self, edge: Edge) -> Result<(), NoMemory>
        requires few { length (routers_in (include_edge edge self.old)) ≤ most_graph_routers }
        requires cheap { edge.cost ≤ highest_cost }
        ensures ok { OnOk result (self.new ≡ include_edge edge self.old) }
        ensures err { OnErr result (self.new ≡ self.old) }
        ensures absent { OnErr result (¬ (Contains self.old edge)) }
    {
        include(&mut self.edges, edge)
    }

    /// Takes an edge out. False exactly where it isn't there, and the graph then stays as it was. The edges after it are
    /// moved.
    pub fn remove(&mut self, edge: Edge) -> bool
        ensures found { IsTrue result ↔ Contains self.old edge }
        ensures after { self.new ≡ exclude_edge edge self.old }
    {
        exclude(&mut self.edges, &edge)
    }

    /// The edges by `from`, `to` and `cost`, each once.
    pub fn edges(&self) -> &[Edge]
        ensures edges { result.now ≡ self.now }
        ensures kept { IsGraph self.now }
    {
        self.edges.as_slice()
    }

    /// The edges that begin at a router, by `to` and `cost`, found by halving.
    pub fn edges_from(&self, router: RouterId) -> &[Edge]
        ensures edges { result.now ≡ edges_from router self.now }
        ensures kept { IsGraph self.now }
    {
        beginning_at(self.edges.as_slice(), router)
    }
}

/// Where an edge stands in a rising list, or else where it would stand.
fn find(edges: &[Edge], edge: &Edge) -> Result<usize, usize>
    requires { AllPairs (λ a b. IsTrue (is_edge_before a b)) edges.now }
    ensures found { IfOk result (λ place. slice_get edges.now place ≡ Some edge.now) }
    ensures absent { OnErr result (¬ (Contains edges.now edge.now)) }
    ensures place { IfErr result (λ place. (place ≤ length edges.now)
        × (include_edge edge.now edges.now ≡ insert edges.now place edge.now)) }
{
    let place = edges.partition_point(|other| other < edge);
    if place < edges.len() && edges[place] == *edge {
        return Ok(place);
    }
    Err(place)
}

/// Puts an edge into a rising list, unless it is there already.
fn include(edges: &mut Vec<Edge>, edge: Edge) -> Result<(), NoMemory>
    requires { AllPairs (λ a b. IsTrue (is_edge_before a b)) edges.old.items }
    ensures ok { OnOk result (edges.new.items ≡ include_edge edge edges.old.items) }
    ensures err { OnErr result (edges.new.items ≡ edges.old.items) }
    ensures absent { OnErr result (¬ (Contains edges.old.items edge)) }
{
    let Err(place) = find(edges.as_slice(), &edge) else {
        return Ok(());
    };
    edges.insert(place, edge)?;
    Ok(())
}

/// Takes an edge out of a rising list.
fn exclude(edges: &mut Vec<Edge>, edge: &Edge) -> bool
    requires { AllPairs (λ a b. IsTrue (is_edge_before a b)) edges.old.items }
    ensures found { IsTrue result ↔ Contains edges.old.items edge.now }
    ensures after { edges.new.items ≡ exclude_edge edge.now edges.old.items }
{
    let Ok(place) = find(edges.as_slice(), edge) else {
        return false;
    };
    edges.remove(place);
    true
}

/// Where the edges of a rising list that begin at a router stand, and how many they are.
pub fn run_of(edges: &[Edge], router: RouterId) -> (usize, usize)
    requires { AllPairs (λ a b. IsTrue (is_edge_before a b)) edges.now }
    ensures within { result.0 + result.1 ≤ length edges.now }
    ensures run { take result.1 (drop result.0 edges.now) ≡ edges_from router edges.now }
{
    let start = edges.partition_point(|edge| edge.from < router);
    let (_, rest) = edges.split_at(start);
    let count = rest.partition_point(|edge| edge.from == router);
    (start, count)
}

/// The edges of a rising list that begin at a router.
fn beginning_at(edges: &[Edge], router: RouterId) -> &[Edge]
    requires { AllPairs (λ a b. IsTrue (is_edge_before a b)) edges.now }
    ensures { result.now ≡ edges_from router edges.now }
{
    let (start, count) = run_of(edges, router);
    let (_, rest) = edges.split_at(start);
    let (found, _) = rest.split_at(count);
    found
}
