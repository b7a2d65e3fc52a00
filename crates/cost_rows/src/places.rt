//! The places of a graph's edges among its names, so that searches from many roots look them up once.

ghost use Rattle.std.specs.Prelude.{◌≡◌, length, AllPairs, Contains, IsTrue, All, IfOk};
ghost use Rattle.std.specs.List.{AllZip};
ghost use Rattle.std.specs.List.Sorted.{IsStrictlyIncreasing};
ghost use Rattle.rcp_model.specs.Edges.{is_edge_before};
ghost use Rattle.cost_rows.specs.Search.{AreNames, AreEnds, IsRunOf, AreIndexed};

use crate::graph::{Graph, run_of};
use crate::names::place_of;
use rcp_base::{NoMemory, RouterId};
use rcp_model::Edge;
use std::alloc::Global;

/// The names of a graph's routers, by rising ID; for each edge the place of the router at its end; for each name where the edges
/// from it begin, and how many they are.
#[derive(Debug, Drop)]
pub struct Places {
    pub names: Vec<RouterId>,
    pub ends: Vec<usize>,
    pub runs: Vec<(usize, usize)>,
}

/// The places of a graph's edges among these names. `NoMemory` comes where there was no room for them.
///
/// For V names and E edges it takes about (V + E) log (V + E) steps.
pub fn places_in(alloc: Global, graph: &Graph, names: &[RouterId]) -> Result<Places, NoMemory>
    requires { AreNames graph.now names.now }
    ensures names { IfOk result (λ places. places.names.items ≡ names.now) }
    ensures indexed { IfOk result (λ places. AreIndexed graph.now places.names.items places.ends.items places.runs.items) }
{
    let edges = graph.edges();
    let ends = ends_in(alloc, edges, names)?;
    let runs = runs_in(alloc, edges, names)?;
    let names = Vec::from_slice(alloc, names)?;
    Ok(Places { names, ends, runs })
}

/// The places of the routers at which edges end.
fn ends_in(alloc: Global, edges: &[Edge], names: &[RouterId]) -> Result<Vec<usize>, NoMemory>
    requires { AreNames edges.now names.now }
    ensures { IfOk result (λ ends. AreEnds names.now edges.now ends.items) }
{
    let mut ends = Vec::new(alloc);
    for edge in edges {
        ends.push(place_of(names, edge.to))?;
    }
    Ok(ends)
}

/// The runs of edges from each name.
fn runs_in(
    alloc: Global,
    edges: &[Edge],
    names: &[RouterId],
) -> Result<Vec<(usize, usize)>, NoMemory>
    requires { AllPairs (λ a b. IsTrue (is_edge_before a b)) edges.now }
    ensures { IfOk result (λ runs. AllZip (IsRunOf edges.now) names.now runs.items) }
{
    let mut runs = Vec::new(alloc);
    for name in names {
        runs.push(run_of(edges, *name))?;
    }
    Ok(runs)
}
