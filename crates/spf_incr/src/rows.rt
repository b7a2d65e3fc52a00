//! Rows: the least costs from one router, each at the place of the router that it leads to, as one edge comes or goes.

ghost use Rattle.std.specs.Prelude.{◌≡◌, ℕ, ◌<◌, ◌≤◌, ◌++◌, length, Contains, List, Some, IfOk, OnOk};
ghost use Rattle.std.specs.List.Sorted.{IsStrictlyIncreasing};
ghost use Rattle.std.specs.Bool.{OnFalse};
ghost use Rattle.rcp_base.specs.declared.names.Edge.{Edge};
ghost use Rattle.rcp_base.specs.Maps.{get_at};
ghost use Rattle.rcp_model.specs.LinkState.{same_number};
ghost use Rattle.rcp_model.specs.Graphs.{IsGraph};
ghost use Rattle.rcp_model.specs.Costs.{lesser};
ghost use Rattle.rcp_model.specs.RouteServer.{same_cost};
ghost use Rattle.cost_rows.specs.Search.{AreIndexed, IsFound, found_at};
ghost use Rattle.spf_incr.specs.Changes.{IsTight, IsNotLower, IsStill, IsUntouched, IsWay, IsHopWithin, at_place, sum_over, lowered, changed_pair, changed_pairs};

use crate::way::{Hop, Way};
use cost_rows::{Graph, Places, Row, least_costs_by, pairs};
use rcp_base::{NoMemory, RouterId, Slot};
use std::alloc::Global;

/// The cost of a router by a row, `None` where it isn't one of the names.
pub fn cost_in(names: &[RouterId], row: &[Option<u32>], router: RouterId) -> Option<u32>
    requires rising { IsStrictlyIncreasing names.now }
    requires places { length row.now ≡ length names.now }
    ensures { result ≡ found_at names.now row.now router }
{
    match names.binary_search(&router) {
        Ok(place) => row[place],
        Err(_) => None,
    }
}

/// The row of the names that have a cost beside them.
pub fn row_of(alloc: Global, names: &[RouterId], costs: &[Option<u32>]) -> Result<Row, NoMemory>
    requires { IsStrictlyIncreasing names.now }
    ensures { IfOk result (λ row. (router : ℕ) → get_at same_number router row ≡ found_at names.now costs.now router) }
{
    let pairs = pairs(alloc, names, costs)?;
    Ok(Row::from_pairs(pairs))
}

/// Whether an edge leads to its end at the least cost of all.
fn is_tight(row: &[Option<u32>], hop: &Hop) -> bool
    requires begins { hop.now.from < length row.now }
    requires ends { hop.now.to < length row.now }
    ensures { OnFalse result (¬ (IsTight row.now hop.now)) }
{
    match (row[hop.from], row[hop.to]) {
        (Some(near), Some(far)) => far.checked_sub(near) == Some(hop.cost),
        _ => false,
    }
}

/// Whether an edge leads to its end at a lower cost than was found.
fn is_lower(row: &[Option<u32>], hop: &Hop) -> bool
    requires begins { hop.now.from < length row.now }
    requires ends { hop.now.to < length row.now }
    ensures { OnFalse result (IsNotLower row.now hop.now) }
{
    match (row[hop.from], row[hop.to]) {
        (Some(near), Some(far)) => near.saturating_add(hop.cost) < far,
        (Some(_), None) => true,
        (None, _) => false,
    }
}

/// Whether an edge that came or went may change a row.
pub fn may_change(row: &[Option<u32>], hop: &Hop, added: bool) -> bool
    requires begins { hop.now.from < length row.now }
    requires ends { hop.now.to < length row.now }
    ensures { OnFalse result (IsStill hop.now added row.now) }
{
    if added {
        is_lower(row, hop)
    } else {
        is_tight(row, hop)
    }
}

/// Whether a change may change a row.
fn is_touched(way: &Way, row: &[Option<u32>]) -> bool
    requires { IsHopWithin way.now (length row.now) }
    ensures { OnFalse result (IsUntouched way.now row.now) }
{
    match way {
        Way::Anew => true,
        Way::Removed(hop) => is_tight(row, hop),
        Way::Added(hop, _) => is_lower(row, hop),
    }
}

/// The lower of two costs.
fn lower_of(found: Option<u32>, other: Option<u32>) -> Option<u32>
    ensures { result ≡ lesser found other }
{
    match (found, other) {
        (Some(found), Some(other)) => Some(found.min(other)),
        (None, other) => other,
        (found, None) => found,
    }
}

/// The cost of one way after another.
fn sum_of(through: Option<u32>, on: Option<u32>) -> Option<u32>
    ensures { result ≡ sum_over through on }
{
    Some(through?.saturating_add(on?))
}

/// The cost to the end of an edge over the edge.
fn end_cost(row: &[Option<u32>], hop: &Hop) -> Option<u32>
    requires { hop.now.from < length row.now }
    ensures { result ≡ sum_over (at_place row.now hop.now.from) (Some hop.now.cost) }
{
    sum_of(row[hop.from], Some(hop.cost))
}

/// The lower of the costs found and of those over an edge that was added, by the cost over the edge to its end and the costs
/// from there.
fn lower(
    alloc: Global,
    row: &[Option<u32>],
    through: Option<u32>,
    ends: &[Option<u32>],
) -> Result<Vec<Option<u32>>, NoMemory>
    ensures { IfOk result (λ new. new.items ≡ lowered through row.now ends.now) }
{
    let new = row
        .iter()
        .zip(ends)
        .map(|(found, on)| lower_of(*found, sum_of(through, *on)));
    Ok(new.collect(alloc)?)
}

/// The costs from a root after a change, by those before it.
fn new_row(
    alloc: Global,
    graph: &Graph,
    places: &Places,
    way: &Way,
    root: RouterId,
    row: &[Option<u32>],
) -> Result<Vec<Option<u32>>, NoMemory>
    requires indexed { AreIndexed graph.now places.now.names.items places.now.ends.items places.now.runs.items }
    requires root { Contains places.now.names.items root }
    requires way { (before : List Edge) × IsGraph before × IsGraph graph.now × IsWay before graph.now places.now.names.items way.now × IsFound before places.now.names.items root row.now }
    ensures { IfOk result (λ new. IsFound graph.now places.now.names.items root new.items) }
{
    match way {
        Way::Added(hop, ends) => {
            let through = end_cost(row, hop);
            lower(alloc, row, through, ends.as_slice())
        }
        _ => least_costs_by(alloc, graph, places, root),
    }
}

/// A slot and a router, where the cost between them isn't the same.
fn changed_at(
    slot: Slot,
    router: RouterId,
    old: Option<u32>,
    new: Option<u32>,
) -> Option<(Slot, RouterId)>
    ensures { result ≡ changed_pair slot router old new }
{
    if old == new {
        None
    } else {
        Some((slot, router))
    }
}

/// The pairs of a slot and each router whose cost isn't the same in two rows.
fn changed(
    alloc: Global,
    slot: Slot,
    names: &[RouterId],
    old: &[Option<u32>],
    new: &[Option<u32>],
) -> Result<Vec<(Slot, RouterId)>, NoMemory>
    ensures { IfOk result (λ pairs. pairs.items ≡ changed_pairs slot names.now old.now new.now) }
{
    let costs = old.iter().zip(new);
    let pairs = names
        .iter()
        .zip(costs)
        .filter_map(|(name, (old, new))| changed_at(slot, *name, *old, *new));
    Ok(pairs.collect(alloc)?)
}

/// Brings the row of a slot's router over the graph after a change, and puts the pairs after others whose cost changed.
pub fn follow(
    alloc: Global,
    graph: &Graph,
    places: &Places,
    way: &Way,
    slot: Slot,
    root: RouterId,
    row: &mut Vec<Option<u32>>,
    pairs: &mut Vec<(Slot, RouterId)>,
) -> Result<(), NoMemory>
    requires indexed { AreIndexed graph.now places.now.names.items places.now.ends.items places.now.runs.items }
    requires root { Contains places.now.names.items root }
    requires way { (before : List Edge) × IsGraph before × IsGraph graph.now × IsWay before graph.now places.now.names.items way.now × IsFound before places.now.names.items root row.old.items }
    ensures row { OnOk result (IsFound graph.now places.now.names.items root row.new.items) }
    ensures pairs { OnOk result (pairs.new.items ≡ pairs.old.items ++ changed_pairs slot places.now.names.items row.old.items row.new.items) }
{
    if !is_touched(way, row.as_slice()) {
        return Ok(());
    }
    let new = new_row(alloc, graph, places, way, root, row.as_slice())?;
    let more = changed(
        alloc,
        slot,
        places.names.as_slice(),
        row.as_slice(),
        new.as_slice(),
    )?;
    pairs.extend_from_slice(more.as_slice())?;
    *row = new;
    Ok(())
}
