//! Shortest paths to one router.

ghost use Rattle.std.specs.Prelude.{◌≡◌, ◌+◌, ◌↔◌, ℕ, map, Contains, Some, IfOk, IsSome, MatchOption, AllPairs, IsTrue};
ghost use Rattle.rcp_model.specs.Costs.{cost};
ghost use Rattle.rcp_model.specs.Edges.{is_edge_before};
ghost use Rattle.rcp_base.specs.declared.names.Edge.{Edge};
ghost use Rattle.hop_walk.specs.Hops.{IsNext, IsLeastNext, IsPath};
ghost use Rattle.hop_walk.specs.Ways.{turned, AreTurned, IsFreeTo, IsLeastFreeTo};

use cost_rows::{Graph, Row, costs};
use rcp_base::{NoMemory, RouterId};
use rcp_model::{Assigned, Edge};
use std::alloc::Global;
use std::marker::Model;

#[cfg(test)]
mod tests;

/// The edges of the interior network, in order.
fn edges_of<X: Assigned>(alloc: Global, platform: &X) -> Result<Vec<Edge>, NoMemory>
    ensures { IfOk result (λ edges. edges.items ≡ X.edges platform.now) }
{
    let mut edges = Vec::new(alloc);
    while let Some(edge) = platform.edge(edges.len() as u64) {
        edges.push(edge)?;
    }
    Ok(edges)
}

/// The graph of the interior network.
pub fn graph_of<X: Assigned>(alloc: Global, platform: &X) -> Result<Graph, NoMemory>
    ensures { IfOk result (λ graph. graph ≡ X.edges platform.now) }
{
    let _law = platform.members();
    let edges = edges_of(alloc, platform)?;
    Ok(Graph::from_edges(edges))
}

/// An edge from its end to its beginning.
fn turned(edge: &Edge) -> Edge
    ensures { result ≡ turned edge.now }
{
    Edge {
        from: edge.to,
        to: edge.from,
        cost: edge.cost,
    }
}

/// The edges, each from its end to its beginning.
fn turned_edges(alloc: Global, edges: &[Edge]) -> Result<Vec<Edge>, NoMemory>
    ensures { IfOk result (λ back. back.items ≡ map turned edges.now) }
{
    Ok(edges.iter().map(turned).collect(alloc)?)
}

/// Sorts edges, and leaves each once.
fn sort(edges: &mut Vec<Edge>)
    ensures rising { AllPairs (λ a b. IsTrue (is_edge_before a b)) edges.new.items }
    ensures kept { (edge : Edge) → Contains edges.old.items edge → Contains edges.new.items edge }
    ensures no_other { (edge : Edge) → Contains edges.new.items edge → Contains edges.old.items edge }
{
    edges.sort_unstable();
    edges.dedup();
}

/// The graph whose edges go the other way.
fn turned_graph(alloc: Global, graph: &Graph) -> Result<Graph, NoMemory>
    ensures { IfOk result (λ back. AreTurned graph.now back) }
{
    let mut edges = turned_edges(alloc, graph.edges())?;
    sort(&mut edges);
    Ok(Graph::from_edges(edges))
}

/// A graph with the cost from each of its routers to one of them. Contracts see the record of the edges and that router.
#[derive(Debug, Drop)]
pub struct Ways {
    graph: Graph,
    end: RouterId,
    row: Row,
}

impl Model for Ways {
    ghost use Rattle.hop_walk.specs.Ways.{WaysOf, AreCostsTo};

    ghost Value = { WaysOf };

    ghost view = { λ w. record { edges = w.graph; end = w.end } };

    ghost invariant = { λ w. AreCostsTo w.graph w.end w.row };
}

impl Ways {
    /// The ways to a router over a graph. It takes one search for the costs.
    pub fn to(alloc: Global, graph: Graph, end: RouterId) -> Result<Ways, NoMemory>
        ensures { IfOk result (λ ways. ways ≡ record { edges = graph; end = end }) }
    {
        let back = turned_graph(alloc, &graph)?;
        let pairs = costs(alloc, &back, end)?;
        let row = Row::from_pairs(pairs);
        Ok(Ways { graph, end, row })
    }

    /// The least edge of cost 0, by `from` and then by `to`, that begins at a router from which the end is reached.
    pub fn least_free(&self) -> Option<Edge>
        ensures { MatchOption result ((edge : Edge) → IsFreeTo self.now.edges self.now.end edge → ⊥)
            (IsLeastFreeTo self.now.edges self.now.end) }
    {
        for edge in self.graph.edges() {
            if edge.cost == 0 && self.row.cost(edge.from).is_some() {
                return Some(*edge);
            }
        }
        None
    }

    /// Whether an edge and the way on from its end cost so much together.
    fn leads_on(&self, edge: &Edge, total: u32) -> bool
        ensures { IsTrue result ↔ ((onward : ℕ) × (cost self.now.edges edge.now.to self.now.end ≡ Some onward)
            × (edge.now.cost + onward ≡ total)) }
    {
        match self.row.cost(edge.to) {
            Some(onward) => onward <= total && total - onward == edge.cost,
            None => false,
        }
    }

    /// The least router by ID that stands next on a shortest path from this one to the end.
    fn next_hop(&self, at: RouterId) -> Option<RouterId>
        ensures { MatchOption result ((w : ℕ) → IsNext self.now.edges at w self.now.end → ⊥)
            (λ w. IsLeastNext self.now.edges at w self.now.end) }
    {
        let total = self.row.cost(at)?;
        for edge in self.graph.edges_from(at) {
            if self.leads_on(edge, total) {
                return Some(edge.to);
            }
        }
        None
    }

    /// The path from a router to the end. The end is reached from there, and each edge that begins at a router from which it is
    /// reached has a positive cost.
    pub fn path_from(&self, alloc: Global, router: RouterId) -> Result<Vec<RouterId>, NoMemory>
        requires positive { (edge : Edge) → IsFreeTo self.now.edges self.now.end edge → ⊥ }
        requires reached { IsSome (cost self.now.edges router self.now.end) }
        ensures { IfOk result (λ path. IsPath self.now.edges self.now.end router path.items) }
    {
        let mut path = Vec::new(alloc);
        path.push(router)?;
        let mut at = router;
        while let Some(next) = self.next_hop(at) {
            path.push(next)?;
            at = next;
        }
        Ok(path)
    }
}
