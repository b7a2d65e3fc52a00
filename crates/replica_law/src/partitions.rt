//! The partitions of an interior network: which routers reach each other.

ghost use Rattle.std.specs.Prelude.{◌≡◌, ℕ, ◌<◌, ◌↔◌, length, map, Contains, AllPairs, IsTrue, IfOk};
ghost use Rattle.std.specs.List.Sorted.{IsStrictlyIncreasing};
ghost use Rattle.rcp_base.specs.declared.names.Edge.{Edge};
ghost use Rattle.rcp_model.specs.Costs.{IsTwoWay};
ghost use Rattle.rcp_model.specs.Edges.{is_edge_before};
ghost use Rattle.rcp_model.specs.Graphs.{IsGraph};
ghost use Rattle.replica_law.specs.Steps.{IsBeginning, IsLeastIn, ArePartition, AreSpokes};
ghost use Rattle.replica_law.specs.Ranks.{free, AreRanked, AreRanks};

use cost_rows::{Graph, Row, costs};
use rcp_base::{NoMemory, RouterId};
use rcp_model::Edge;
use std::alloc::Global;
use std::marker::Model;

/// A network whose edges go both ways, with its partitions. Contracts see its edges.
#[derive(Debug, Drop)]
pub struct Partitions {
    graph: Graph,
    /// The routers at which an edge begins, by rising ID.
    names: Vec<RouterId>,
    /// For each of them the place of the least router of its partition among them.
    ranks: Row,
    /// An edge from the least router of each partition to each router of it.
    spokes: Graph,
}

impl Model for Partitions {
    ghost use Rattle.std.specs.Prelude.{ℕ, ◌<◌, List, AllPairs};
    ghost use Rattle.rcp_base.specs.declared.names.Edge.{Edge};
    ghost use Rattle.rcp_model.specs.Costs.{IsTwoWay};
    ghost use Rattle.replica_law.specs.Steps.{AreSpokes};
    ghost use Rattle.replica_law.specs.Ranks.{AreRanks};

    ghost Value = { List Edge };

    ghost view = { λ p. p.graph };

    ghost invariant = { λ p. IsTwoWay p.graph × AllPairs (λ (a b : ℕ × ℕ). a.0 < b.0) p.ranks × AreRanks p.graph p.names.items p.ranks × AreSpokes p.graph p.spokes };
}

impl Partitions {
    ghost use Rattle.replica_law.specs.Steps.{AreSpokesOf};

    /// Finds the partitions of a network whose edges go both ways, by one search over it.
    pub fn of(alloc: Global, graph: Graph) -> Result<Partitions, NoMemory>
        requires { IsTwoWay graph }
        ensures { IfOk result (λ partitions. partitions ≡ graph) }
    {
        let names = beginnings(alloc, &graph)?;
        let pairs = ranks(alloc, &graph, names.as_slice())?;
        let spokes = spokes(alloc, &graph, names.as_slice(), pairs.as_slice())?;
        let ranks = Row::from_pairs(pairs);
        Ok(Partitions {
            graph,
            names,
            ranks,
            spokes,
        })
    }

    /// The network.
    pub fn graph(&self) -> &Graph
        ensures { result.now ≡ self.now }
    {
        &self.graph
    }

    /// The least router of a router's partition by ID, found by halving.
    pub fn least(&self, router: RouterId) -> RouterId
        ensures least { IsLeastIn self.now router result }
        ensures two_way { IsTwoWay self.now }
    {
        match self.ranks.cost(router) {
            Some(rank) => self.names[rank as usize],
            None => router,
        }
    }

    /// An edge to each router of a partition by rising ID, of which this is the least one. None where no edge begins there.
    pub fn spokes(&self, least: RouterId) -> &[Edge]
        requires { IsLeastIn self.now least least }
        ensures { AreSpokesOf self.now least result.now }
    {
        self.spokes.edges_from(least)
    }

    /// The routers of a partition by rising ID, of which this is the least one.
    pub fn routers(&self, alloc: Global, least: RouterId) -> Result<Vec<RouterId>, NoMemory>
        requires { IsLeastIn self.now least least }
        ensures { IfOk result (λ routers. ArePartition self.now least routers.items) }
    {
        let spokes = self.spokes(least);
        if spokes.is_empty() {
            return Ok(Vec::from_slice(alloc, &[least])?);
        }
        let ends = ends_of(alloc, spokes)?;
        Ok(ends)
    }
}

/// Where the edges end.
fn ends_of(alloc: Global, edges: &[Edge]) -> Result<Vec<RouterId>, NoMemory>
    ensures { IfOk result (λ ends. ends.items ≡ map (λ edge. edge.to) edges.now) }
{
    Ok(edges.iter().map(|edge| edge.to).collect(alloc)?)
}

/// Where the edges begin.
fn starts_of(alloc: Global, edges: &[Edge]) -> Result<Vec<RouterId>, NoMemory>
    ensures { IfOk result (λ starts. starts.items ≡ map (λ edge. edge.from) edges.now) }
{
    Ok(edges.iter().map(|edge| edge.from).collect(alloc)?)
}

/// The routers at which an edge begins, by rising ID.
fn beginnings(alloc: Global, graph: &Graph) -> Result<Vec<RouterId>, NoMemory>
    ensures rising { IfOk result (λ names. IsStrictlyIncreasing names.items) }
    ensures exact { IfOk result (λ names. (u : ℕ) → Contains names.items u ↔ IsBeginning graph.now u) }
    ensures kept { IfOk result (λ names. IsGraph graph.now) }
{
    let mut names = starts_of(alloc, graph.edges())?;
    names.dedup();
    Ok(names)
}

/// Sorts edges, and leaves each once.
fn sort(edges: &mut Vec<Edge>)
    ensures rising { AllPairs (λ a b. IsTrue (is_edge_before a b)) edges.new.items }
    ensures kept { (edge : Edge) → Contains edges.old.items edge → Contains edges.new.items edge }
    ensures no_other { (edge : Edge) → Contains edges.new.items edge → Contains edges.old.items edge }
{
    edges.sort_unstable();
    edges.dedup();
}

/// The edge at no cost.
fn free(edge: &Edge) -> Edge
    ensures { result ≡ free edge.now }
{
    Edge {
        from: edge.from,
        to: edge.to,
        cost: 0,
    }
}

/// The edges at no cost.
fn freed(alloc: Global, edges: &[Edge]) -> Result<Vec<Edge>, NoMemory>
    ensures { IfOk result (λ freed. freed.items ≡ map free edges.now) }
{
    Ok(edges.iter().map(free).collect(alloc)?)
}

/// The edges at no cost, and a shortcut from the root to each name, which costs as much as its place. So the least cost from the
/// root to a router is the place of the least router that reaches it.
fn ranked(
    alloc: Global,
    graph: &Graph,
    names: &[RouterId],
    root: RouterId,
) -> Result<Vec<Edge>, NoMemory>
    requires { length names.now < 65536 }
    ensures { IfOk result (λ edges. AreRanked graph.now names.now root edges.items) }
{
    let mut edges = freed(alloc, graph.edges())?;
    for (rank, name) in names.iter().enumerate() {
        edges.push(Edge {
            from: root,
            to: *name,
            cost: rank as u32,
        })?;
    }
    Ok(edges)
}

/// For each router at which an edge begins the place among them of the least one of its partition, by rising ID.
fn ranks(alloc: Global, graph: &Graph, names: &[RouterId]) -> Result<Vec<(RouterId, u32)>, NoMemory>
    requires graph { IsGraph graph.now }
    requires two_way { IsTwoWay graph.now }
    requires rising { IsStrictlyIncreasing names.now }
    requires exact { (u : ℕ) → Contains names.now u ↔ IsBeginning graph.now u }
    ensures rising { IfOk result (λ ranks. AllPairs (λ (a b : ℕ × ℕ). a.0 < b.0) ranks.items) }
    ensures ranks { IfOk result (λ ranks. AreRanks graph.now names.now ranks.items) }
{
    let Some(root) = names.first() else {
        return Ok(Vec::new(alloc));
    };
    let mut edges = ranked(alloc, graph, names, *root)?;
    sort(&mut edges);
    let row = costs(alloc, &Graph::from_edges(edges), *root)?;
    Ok(row)
}

/// An edge from the least router of each partition to each router of it.
fn spokes(
    alloc: Global,
    graph: &Graph,
    names: &[RouterId],
    ranks: &[(RouterId, u32)],
) -> Result<Graph, NoMemory>
    requires ranks { AreRanks graph.now names.now ranks.now }
    requires graph { IsGraph graph.now }
    requires two_way { IsTwoWay graph.now }
    ensures { IfOk result (λ spokes. AreSpokes graph.now spokes) }
{
    let mut edges = Vec::new(alloc);
    for (router, rank) in ranks {
        edges.push(Edge {
            from: names[*rank as usize],
            to: *router,
            cost: 0,
        })?;
    }
    sort(&mut edges);
    Ok(Graph::from_edges(edges))
}
