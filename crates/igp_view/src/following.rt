//! A view and its engine brought over another graph, by the edges in which the graphs differ.

ghost use Rattle.std.specs.Prelude.{◌≡◌, ℕ, ◌≤◌, ◌↔◌, ◌⊎◌, true, false, List, length, Contains, IsTrue, IfSome, IfOk, OnOk};
ghost use Rattle.std.specs.Bool.{OnTrue};
ghost use Rattle.rcp_base.specs.declared.names.Edge.{Edge};
ghost use Rattle.rcp_model.specs.Edges.{include_edge};
ghost use Rattle.rcp_model.specs.Graphs.{exclude_edge, routers_in, most_graph_routers, highest_cost};
ghost use Rattle.cost_rows.specs.Engines.{graph_before};
ghost use Rattle.spf_incr.specs.Tables.{engine_costs};
ghost use Rattle.igp_view.specs.Following.{IsEngineOf, AreRowsOf, AreAllRows, IsBeside};

use cost_rows::{CostEngine, Graph, Row, View};
use rcp_base::{NoMemory, RouterId, Slot};
use rcp_model::Edge;
use spf_incr::TreeEngine;
use std::alloc::Global;
use std::sync::Arc;

/// As many edges are followed one by one. With more, it takes less time to search all costs anew: about 25 changes take as long as that over
/// 400 routers and 900 links.
const MOST_FOLLOWED: usize = 16;

/// Whether an edge is in a graph.
fn has(graph: &Graph, edge: &Edge) -> bool
    ensures { IsTrue result ↔ Contains graph.now edge.now }
{
    graph.edges_from(edge.from).contains(edge)
}

/// The edges that a graph hasn't.
fn missing(alloc: Global, edges: &[Edge], graph: &Graph) -> Result<Vec<Edge>, NoMemory>
    ensures { IfOk result (λ missing. (edge : Edge) → Contains edges.now edge → Contains graph.now edge ⊎ Contains missing.items edge) }
{
    let mut missing = Vec::new(alloc);
    for edge in edges {
        if !has(graph, edge) {
            missing.push(*edge)?;
        }
    }
    Ok(missing)
}

/// Whether so many edges change that all costs are rather searched anew: as many go as this, and the graph has these many before and
/// after.
fn are_many(removed: usize, before: usize, after: usize) -> bool {
    let kept = before.saturating_sub(removed);
    let added = after.saturating_sub(kept);
    removed.saturating_add(added) > MOST_FOLLOWED
}

/// Whether the last of some rows is of a slot.
fn is_last(rows: &[(Slot, Row)], slot: Slot) -> bool
    ensures { OnTrue result ((row : List (ℕ × ℕ)) × Contains rows.now (slot, row)) }
{
    match rows.last() {
        Some((last, _)) => *last == slot,
        None => false,
    }
}

/// An engine's row of each slot among pairs that are in order.
fn rows_of(
    alloc: Global,
    engine: &TreeEngine,
    pairs: &[(Slot, RouterId)],
) -> Result<Vec<(Slot, Row)>, NoMemory>
    ensures { IfOk result (λ rows. AreRowsOf (engine_costs engine.now) pairs.now rows.items) }
{
    let mut rows = Vec::new(alloc);
    for (slot, _) in pairs {
        if !is_last(rows.as_slice(), *slot) {
            let row = engine.row(alloc, *slot)?;
            rows.push((*slot, row))?;
        }
    }
    Ok(rows)
}

/// Brings a view and its engine over a graph, which differs from the view's by one edge.
fn follow(
    alloc: Global,
    view: &mut Arc<View>,
    engine: &mut TreeEngine,
    graph: Graph,
    edge: Edge,
    added: bool,
) -> Result<(), NoMemory>
    requires engine { IsEngineOf engine.old view.old.value }
    requires before { graph_before edge added graph ≡ view.old.value.edges }
    requires changed { (added ≡ true) ↔ Contains graph edge }
    ensures edges { OnOk result (view.new.value.edges ≡ graph) }
    ensures members { view.new.value.members ≡ view.old.value.members }
    ensures engine { OnOk result (IsEngineOf engine.new view.new.value) }
{
    // The edges before are those of a graph.
    let _edges = view.graph().edges();
    let pairs = engine.change(&graph, edge, added)?;
    let rows = rows_of(alloc, engine, pairs.as_slice())?;
    *view = View::renew(alloc, view, graph, rows)?;
    Ok(())
}

/// A graph without one of its edges.
fn graph_without(graph: &Graph, edge: Edge) -> Result<Graph, NoMemory>
    requires { Contains graph.now edge }
    ensures edges { IfOk result (λ other. other ≡ exclude_edge edge graph.now) }
    ensures before { IfOk result (λ other. graph_before edge false other ≡ graph.now) }
    ensures changed { IfOk result (λ other. ¬ (Contains other edge)) }
{
    // The edges of a graph are in order, each once.
    let _edges = graph.edges();
    let mut other = graph.try_clone()?;
    let _there = other.remove(edge);
    Ok(other)
}

/// A graph with one edge more.
fn graph_with(graph: &Graph, edge: Edge) -> Result<Graph, NoMemory>
    requires absent { ¬ (Contains graph.now edge) }
    requires few { length (routers_in (include_edge edge graph.now)) ≤ most_graph_routers }
    requires cheap { edge.cost ≤ highest_cost }
    ensures edges { IfOk result (λ other. other ≡ include_edge edge graph.now) }
    ensures before { IfOk result (λ other. graph_before edge true other ≡ graph.now) }
    ensures changed { IfOk result (λ other. Contains other edge) }
{
    // The edges of a graph are in order, each once.
    let _edges = graph.edges();
    let mut other = graph.try_clone()?;
    other.add(edge)?;
    Ok(other)
}

/// Takes an edge out of the graph of a view and its engine, if it is there.
fn take_out(
    alloc: Global,
    view: &mut Arc<View>,
    engine: &mut TreeEngine,
    edge: Edge,
) -> Result<(), NoMemory>
    requires { IsEngineOf engine.old view.old.value }
    ensures edges { OnOk result (view.new.value.edges ≡ exclude_edge edge view.old.value.edges) }
    ensures members { view.new.value.members ≡ view.old.value.members }
    ensures engine { OnOk result (IsEngineOf engine.new view.new.value) }
{
    let before = view.graph();
    if !has(before, &edge) {
        return Ok(());
    }
    let graph = graph_without(before, edge)?;
    follow(alloc, view, engine, graph, edge, false)
}

/// Puts an edge into the graph of a view and its engine, if it isn't there.
fn put_in(
    alloc: Global,
    view: &mut Arc<View>,
    engine: &mut TreeEngine,
    edge: Edge,
) -> Result<(), NoMemory>
    requires engine { IsEngineOf engine.old view.old.value }
    requires few { length (routers_in (include_edge edge view.old.value.edges)) ≤ most_graph_routers }
    requires cheap { edge.cost ≤ highest_cost }
    ensures there { OnOk result (Contains view.new.value.edges edge) }
    ensures edges { OnOk result ((other : Edge) → Contains view.new.value.edges other → (edge ≡ other) ⊎ Contains view.old.value.edges other) }
    ensures kept { OnOk result ((other : Edge) → Contains view.old.value.edges other → Contains view.new.value.edges other) }
    ensures members { view.new.value.members ≡ view.old.value.members }
    ensures engine { OnOk result (IsEngineOf engine.new view.new.value) }
{
    let before = view.graph();
    if has(before, &edge) {
        return Ok(());
    }
    let graph = graph_with(before, edge)?;
    follow(alloc, view, engine, graph, edge, true)
}

/// The edge of a graph between the same routers and in the same direction as another, if there is one: of several the cheapest.
fn beside(graph: &Graph, edge: &Edge) -> Option<Edge>
    ensures { IfSome result (λ other. IsBeside graph.now edge.now other) }
{
    let edges = graph.edges_from(edge.from);
    for other in edges {
        if other.to == edge.to {
            return Some(*other);
        }
    }
    None
}

/// Puts that edge of another graph in that is between the same routers as an edge of the graph of a view and its engine, if there is one.
fn put_beside(
    alloc: Global,
    view: &mut Arc<View>,
    engine: &mut TreeEngine,
    edge: &Edge,
    graph: &Graph,
) -> Result<(), NoMemory>
    requires engine { IsEngineOf engine.old view.old.value }
    requires there { Contains view.old.value.edges edge.now }
    ensures edges { OnOk result ((other : Edge) → Contains view.new.value.edges other → Contains graph.now other ⊎ Contains view.old.value.edges other) }
    ensures members { view.new.value.members ≡ view.old.value.members }
    ensures engine { OnOk result (IsEngineOf engine.new view.new.value) }
{
    // The edges before are those of a graph.
    let _edges = view.graph().edges();
    match beside(graph, edge) {
        Some(other) => put_in(alloc, view, engine, other),
        None => Ok(()),
    }
}

/// Takes an edge out of the graph of a view and its engine, if it is there, once the edge beside it in another graph is in. So where a cost falls, the edge
/// that goes is on no shortest path any more, and no row is searched anew.
fn replace(
    alloc: Global,
    view: &mut Arc<View>,
    engine: &mut TreeEngine,
    edge: Edge,
    graph: &Graph,
) -> Result<(), NoMemory>
    requires { IsEngineOf engine.old view.old.value }
    ensures edges { OnOk result ((other : Edge) → Contains view.new.value.edges other → Contains graph.now other ⊎ (Contains view.old.value.edges other × ((edge ≡ other) → ⊥))) }
    ensures members { view.new.value.members ≡ view.old.value.members }
    ensures engine { OnOk result (IsEngineOf engine.new view.new.value) }
{
    let before = view.graph();
    if !has(before, &edge) {
        return Ok(());
    }
    put_beside(alloc, view, engine, &edge, graph)?;
    take_out(alloc, view, engine, edge)
}

/// Takes edges out of the graph of a view and its engine. What is put in is of another graph.
fn take_all_out(
    alloc: Global,
    view: &mut Arc<View>,
    engine: &mut TreeEngine,
    edges: &[Edge],
    graph: &Graph,
) -> Result<(), NoMemory>
    requires { IsEngineOf engine.old view.old.value }
    ensures edges { OnOk result ((edge : Edge) → Contains view.new.value.edges edge → Contains graph.now edge ⊎ (Contains view.old.value.edges edge × ¬ (Contains edges.now edge))) }
    ensures members { view.new.value.members ≡ view.old.value.members }
    ensures engine { OnOk result (IsEngineOf engine.new view.new.value) }
{
    for edge in edges {
        replace(alloc, view, engine, *edge, graph)?;
    }
    Ok(())
}

/// Puts those edges of a graph in that the graph of a view and its engine hasn't. It has no others.
fn put_all_in(
    alloc: Global,
    view: &mut Arc<View>,
    engine: &mut TreeEngine,
    graph: &Graph,
) -> Result<(), NoMemory>
    requires engine { IsEngineOf engine.old view.old.value }
    requires within { (edge : Edge) → Contains view.old.value.edges edge → Contains graph.now edge }
    ensures edges { OnOk result (view.new.value.edges ≡ graph.now) }
    ensures members { view.new.value.members ≡ view.old.value.members }
    ensures engine { OnOk result (IsEngineOf engine.new view.new.value) }
{
    let edges = graph.edges();
    for edge in edges {
        put_in(alloc, view, engine, *edge)?;
    }
    // Edges of graphs are in order, each once.
    let _after = view.graph().edges();
    Ok(())
}

/// An engine's row of each of the first slots, at most 512.
fn all_rows(alloc: Global, engine: &TreeEngine, count: usize) -> Result<Vec<(Slot, Row)>, NoMemory>
    requires { count ≤ 512 }
    ensures { IfOk result (λ rows. AreAllRows (engine_costs engine.now) count rows.items) }
{
    let mut rows = Vec::new(alloc);
    for place in 0..count {
        let slot = Slot(place as u16);
        let row = engine.row(alloc, slot)?;
        rows.push((slot, row))?;
    }
    Ok(rows)
}

/// Makes the engine of another graph, and the view of that graph from the engine's rows.
fn build_anew(
    alloc: Global,
    view: &mut Arc<View>,
    engine: &mut TreeEngine,
    graph: Graph,
) -> Result<(), NoMemory>
    ensures edges { OnOk result (view.new.value.edges ≡ graph) }
    ensures members { view.new.value.members ≡ view.old.value.members }
    ensures engine { OnOk result (IsEngineOf engine.new view.new.value) }
{
    let members = view.members();
    *engine = TreeEngine::new(alloc, members, &graph)?;
    let rows = all_rows(alloc, engine, members.len())?;
    *view = View::renew(alloc, view, graph, rows)?;
    Ok(())
}

/// Brings a view and its engine over another graph: edge by edge, or anew where many edges differ.
pub fn bring_over(
    alloc: Global,
    view: &mut Arc<View>,
    engine: &mut TreeEngine,
    graph: Graph,
) -> Result<(), NoMemory>
    requires { IsEngineOf engine.old view.old.value }
    ensures edges { OnOk result (view.new.value.edges ≡ graph) }
    ensures members { view.new.value.members ≡ view.old.value.members }
    ensures engine { OnOk result (IsEngineOf engine.new view.new.value) }
{
    let before = view.graph().edges();
    let removed = missing(alloc, before, &graph)?;
    if are_many(removed.len(), before.len(), graph.edges().len()) {
        return build_anew(alloc, view, engine, graph);
    }
    take_all_out(alloc, view, engine, removed.as_slice(), &graph)?;
    put_all_in(alloc, view, engine, &graph)
}
