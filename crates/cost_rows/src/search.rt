//! The search for the least costs from one router (RFC 2328 section 16.1).

ghost use Rattle.std.specs.Prelude.{◌≡◌, ℕ, ◌≤◌, ◌<◌, ◌+◌, ◌^◌, ◌↔◌, [], length, slice_get, slice_index, Contains, IsTrue, Some, IfOk, OnOk, IsSomeAnd};
ghost use Rattle.std.specs.Bool.{OnTrue, OnFalse};
ghost use Rattle.std.specs.BinaryHeap.{heap_items};
ghost use Rattle.std.specs.List.Sorted.{IsStrictlyIncreasing};
ghost use Rattle.rcp_model.specs.Graphs.{IsCostRow, edges_from};
ghost use Rattle.cost_rows.specs.Search.{AreNames, AreIndexed, IsSearch, IsRelaxed, IsFound, left, reached, found_at, nothing_found};

use crate::graph::Graph;
use crate::names::{names_of, place_of};
use crate::places::{Places, places_in};
use rcp_base::{NoMemory, RouterId};
use rcp_model::Edge;
use std::alloc::Global;
use std::cmp::Reverse;
use std::collections::BinaryHeap;

/// The least costs from a router to those that it reaches: a pair for each, by rising ID, its own of cost 0 among them.
/// The router needn't stand in the graph. `NoMemory` comes where there was no room for the search or the pairs.
///
/// For a graph of V routers and E edges it takes about (V + E) log (V + E) steps: each router's edges are gone over once,
/// from the nearest router on.
pub fn costs(alloc: Global, graph: &Graph, root: RouterId) -> Result<Vec<(RouterId, u32)>, NoMemory>
    ensures { IfOk result (λ row. IsCostRow graph.now root row.items) }
{
    let names = names_of(alloc, graph, &[root])?;
    row(alloc, graph, names.as_slice(), root)
}

/// The routers that wait until the edges from them are gone over, the one with the least cost first.
type Waiting = BinaryHeap<(Reverse<u32>, RouterId)>;

/// Whether a cost is lower than the one found before.
fn is_lower(cost: u32, found: Option<u32>) -> bool
    ensures lower { OnTrue result (¬ (IsSomeAnd found (λ n. n ≤ cost))) }
    ensures as_low { OnFalse result (IsSomeAnd found (λ n. n ≤ cost)) }
{
    match found {
        Some(found) => cost < found,
        None => true,
    }
}

/// Goes over the edge at a place of the graph, which begins at a router of this cost: where it leads to a lower cost than was found
/// before, the router at its end gets that one, and waits.
fn relax(
    places: &Places,
    at: usize,
    edge: &Edge,
    cost: u32,
    least: &mut [Option<u32>],
    waiting: &mut Waiting,
) -> Result<(), NoMemory>
    requires rising { IsStrictlyIncreasing places.now.names.items }
    requires within { at < length places.now.ends.items }
    requires end { slice_get places.now.names.items (slice_index places.now.ends.items at) ≡ Some edge.now.to }
    requires places { length least.old ≡ length places.now.names.items }
    requires fits { cost + edge.now.cost < 2 ^ 32 }
    ensures { OnOk result (IsRelaxed places.now.names.items edge.now cost least.old (heap_items waiting.old) least.new (heap_items waiting.new)) }
{
    let ends = places.ends.as_slice();
    let place = ends[at];
    let through = cost + edge.cost;
    if is_lower(through, least[place]) {
        waiting.push((Reverse(through), edge.to))?;
        least[place] = Some(through);
    }
    Ok(())
}

/// Goes over the edges from the router at a place, which was found at this cost.
fn spread(
    graph: &Graph,
    places: &Places,
    place: usize,
    cost: u32,
    least: &mut [Option<u32>],
    waiting: &mut Waiting,
) -> Result<(), NoMemory>
    requires indexed { AreIndexed graph.now places.now.names.items places.now.ends.items places.now.runs.items }
    requires within { place < length places.now.names.items }
    requires found { found_at places.now.names.items least.old (slice_index places.now.names.items place) ≡ Some cost }
    requires search { (root : ℕ) × IsSearch graph.now places.now.names.items root least.old (heap_items waiting.old) (edges_from (slice_index places.now.names.items place) graph.now) }
    ensures kept { OnOk result ((root : ℕ)
        → IsSearch graph.now places.now.names.items root least.old (heap_items waiting.old) (edges_from (slice_index places.now.names.items place) graph.now)
        → IsSearch graph.now places.now.names.items root least.new (heap_items waiting.new) []) }
    ensures falls { OnOk result (left least.new (heap_items waiting.new) ≤ left least.old (heap_items waiting.old)) }
{
    let runs = places.runs.as_slice();
    let (start, count) = runs[place];
    let (_, rest) = graph.edges().split_at(start);
    let (run, _) = rest.split_at(count);
    for (k, edge) in run.iter().enumerate() {
        relax(places, start + k, edge, cost, least, waiting)?;
    }
    Ok(())
}

/// Goes on until no router waits.
///
/// The router with the least cost found so far comes next, so that the edges of each router are gone over once.
fn finish(
    graph: &Graph,
    places: &Places,
    least: &mut [Option<u32>],
    waiting: &mut Waiting,
) -> Result<(), NoMemory>
    requires indexed { AreIndexed graph.now places.now.names.items places.now.ends.items places.now.runs.items }
    requires search { (root : ℕ) × IsSearch graph.now places.now.names.items root least.old (heap_items waiting.old) [] }
    ensures { OnOk result ((root : ℕ) → IsSearch graph.now places.now.names.items root least.old (heap_items waiting.old) []
        → IsFound graph.now places.now.names.items root least.new) }
{
    while let Some(next) = waiting.pop() {
        let Reverse(cost) = next.0;
        let place = place_of(places.names.as_slice(), next.1);
        // A router whose cost was lowered since then waits with that one too.
        if least[place] != Some(cost) {
            continue;
        }
        spread(graph, places, place, cost, least, waiting)?;
    }
    Ok(())
}

/// No cost at the place of any name.
fn nothing_found(alloc: Global, names: &[RouterId]) -> Result<Vec<Option<u32>>, NoMemory>
    ensures { IfOk result (λ least. least.items ≡ nothing_found names.now) }
{
    Ok(names.iter().map(|_| None).collect(alloc)?)
}

/// The least costs from a root, each at the place of its router among the names of the graph's places.
pub fn least_costs_by(
    alloc: Global,
    graph: &Graph,
    places: &Places,
    root: RouterId,
) -> Result<Vec<Option<u32>>, NoMemory>
    requires indexed { AreIndexed graph.now places.now.names.items places.now.ends.items places.now.runs.items }
    requires root { Contains places.now.names.items root }
    ensures { IfOk result (λ least. IsFound graph.now places.now.names.items root least.items) }
{
    let names = places.names.as_slice();
    let mut least = nothing_found(alloc, names)?;
    let mut waiting = BinaryHeap::new(alloc);
    waiting.push((Reverse(0), root))?;
    let place = place_of(names, root);
    least[place] = Some(0);
    finish(graph, places, &mut least, &mut waiting)?;
    Ok(least)
}

/// The least costs from a root, each at the place of its router. For searches from many roots the places are found once, and
/// `least_costs_by` takes them.
pub fn least_costs(
    alloc: Global,
    graph: &Graph,
    names: &[RouterId],
    root: RouterId,
) -> Result<Vec<Option<u32>>, NoMemory>
    requires names { AreNames graph.now names.now }
    requires root { Contains names.now root }
    ensures { IfOk result (λ least. IsFound graph.now names.now root least.items) }
{
    let places = places_in(alloc, graph, names)?;
    least_costs_by(alloc, graph, &places, root)
}

/// The costs from a root, which is one of the names: a pair for each router that is reached, by rising ID.
pub fn row(
    alloc: Global,
    graph: &Graph,
    names: &[RouterId],
    root: RouterId,
) -> Result<Vec<(RouterId, u32)>, NoMemory>
    requires names { AreNames graph.now names.now }
    requires root { Contains names.now root }
    ensures { IfOk result (λ row. IsCostRow graph.now root row.items) }
{
    let least = least_costs(alloc, graph, names, root)?;
    pairs(alloc, names, least.as_slice())
}

/// The pairs of the routers that are reached, by names and the costs beside them, in the order of the names.
pub fn pairs(
    alloc: Global,
    names: &[RouterId],
    least: &[Option<u32>],
) -> Result<Vec<(RouterId, u32)>, NoMemory>
    ensures { IfOk result (λ pairs. pairs.items ≡ reached names.now least.now) }
{
    let pairs = names
        .iter()
        .zip(least)
        .filter_map(|(name, cost)| cost.map(|cost| (*name, cost)));
    Ok(pairs.collect(alloc)?)
}
