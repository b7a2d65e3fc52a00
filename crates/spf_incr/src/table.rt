//! Tables: the least costs from each member to each router, as one edge after another comes or goes.

ghost use Rattle.std.specs.Prelude.{◌≡◌, ℕ, ◌<◌, ◌≤◌, ◌↔◌, true, false, List, length, map, Contains, Some, IfOk, OnOk, OnErr};
ghost use Rattle.std.specs.List.Sorted.{IsStrictlyIncreasing};
ghost use Rattle.std.specs.Bool.{OnTrue, OnFalse};
ghost use Rattle.rcp_base.specs.declared.names.Member.{Member};
ghost use Rattle.rcp_base.specs.declared.names.Edge.{Edge};
ghost use Rattle.rcp_base.specs.Maps.{get_at};
ghost use Rattle.rcp_model.specs.LinkState.{same_number};
ghost use Rattle.rcp_model.specs.RouteServer.{router_at};
ghost use Rattle.rcp_model.specs.Graphs.{AreMembers, IsGraph};
ghost use Rattle.cost_rows.specs.Search.{AreNames, AreIndexed, IsFound, found_at};
ghost use Rattle.cost_rows.specs.Engines.{graph_before, AreChanges};
ghost use Rattle.spf_incr.specs.declared.way.Hop.{Hop};
ghost use Rattle.spf_incr.specs.Changes.{IsHop, IsStill, IsWay};
ghost use Rattle.spf_incr.specs.Tables.{AreRows, row_at, costs_by};

use crate::rows::{cost_in, follow, may_change, row_of};
use crate::way::{Hop, Way};
use cost_rows::{Graph, Places, Row, least_costs_by, names_of, place_of, places_in};
use rcp_base::{Member, NoMemory, RouterId, Slot};
use rcp_model::Edge;
use std::alloc::Global;
use std::marker::Model;

/// The routers of members.
fn routers_of(alloc: Global, members: &[Member]) -> Result<Vec<RouterId>, NoMemory>
    ensures { IfOk result (λ routers. routers.items ≡ map (λ member. member.router) members.now) }
{
    Ok(members.iter().map(|member| member.router).collect(alloc)?)
}

/// The names of a graph's routers and of the members'.
fn names_with(alloc: Global, graph: &Graph, members: &[Member]) -> Result<Vec<RouterId>, NoMemory>
    requires { length members.now ≤ 512 }
    ensures names { IfOk result (λ names. AreNames graph.now names.items) }
    ensures named { IfOk result (λ names. (slot root : ℕ) → router_at members.now slot ≡ Some root → Contains names.items root) }
{
    let routers = routers_of(alloc, members)?;
    names_of(alloc, graph, routers.as_slice())
}

/// The row of each member's router.
fn rows_over(
    alloc: Global,
    graph: &Graph,
    places: &Places,
    members: &[Member],
) -> Result<Vec<Vec<Option<u32>>>, NoMemory>
    requires indexed { AreIndexed graph.now places.now.names.items places.now.ends.items places.now.runs.items }
    requires named { (slot root : ℕ) → router_at members.now slot ≡ Some root → Contains places.now.names.items root }
    ensures { IfOk result (λ rows. AreRows graph.now places.now.names.items members.now (map (λ row. row.items) rows.items)) }
{
    let mut rows = Vec::new(alloc);
    for member in members {
        rows.push(least_costs_by(alloc, graph, places, member.router)?)?;
    }
    Ok(rows)
}

/// A row at the places of other names.
fn carried(
    alloc: Global,
    old: &[RouterId],
    row: &[Option<u32>],
    names: &[RouterId],
) -> Result<Vec<Option<u32>>, NoMemory>
    requires rising { IsStrictlyIncreasing old.now }
    requires places { length row.now ≡ length old.now }
    ensures { IfOk result (λ new. new.items ≡ map (found_at old.now row.now) names.now) }
{
    Ok(
        names
            .iter()
            .map(|name| cost_in(old, row, *name))
            .collect(alloc)?,
    )
}

/// Rows at the places of other names, among which are all routers of the edges.
fn carried_rows(
    alloc: Global,
    old: &[RouterId],
    rows: &[Vec<Option<u32>>],
    names: &[RouterId],
) -> Result<Vec<Vec<Option<u32>>>, NoMemory>
    requires rows { (before : List Edge) × (members : List Member) × AreNames before old.now × AreRows before old.now members (map (λ row. row.items) rows.now)
        × AreNames before names.now × ((slot root : ℕ) → router_at members slot ≡ Some root → Contains names.now root) }
    ensures { IfOk result (λ new. (before : List Edge) (members : List Member) → AreNames before old.now → AreRows before old.now members (map (λ row. row.items) rows.now)
        → AreNames before names.now → ((slot root : ℕ) → router_at members slot ≡ Some root → Contains names.now root)
        → AreRows before names.now members (map (λ row. row.items) new.items)) }
{
    let mut new = Vec::new(alloc);
    for row in rows {
        new.push(carried(alloc, old, row.as_slice(), names)?)?;
    }
    Ok(new)
}

/// Whether both ends of an edge are among these names.
fn ends_are_named(names: &[RouterId], edge: &Edge) -> bool
    requires { IsStrictlyIncreasing names.now }
    ensures { OnTrue result (Contains names.now edge.now.from × Contains names.now edge.now.to) }
{
    names.binary_search(&edge.from).is_ok() && names.binary_search(&edge.to).is_ok()
}

/// Whether the ends of an edge are among these names where it was added.
fn ends_have_places(names: &[RouterId], edge: &Edge, added: bool) -> bool
    requires { IsStrictlyIncreasing names.now }
    ensures named { OnTrue result (added ≡ true → Contains names.now edge.now.from × Contains names.now edge.now.to) }
    ensures unnamed { OnFalse result (added ≡ true) }
{
    !added || ends_are_named(names, edge)
}

/// An edge by the places of its ends.
fn hop_of(names: &[RouterId], edge: &Edge) -> Hop
    requires rising { IsStrictlyIncreasing names.now }
    requires ends { Contains names.now edge.now.from × Contains names.now edge.now.to }
    ensures { IsHop names.now edge.now result }
{
    Hop {
        from: place_of(names, edge.from),
        to: place_of(names, edge.to),
        cost: edge.cost,
    }
}

/// Whether no row has to change for an edge that came or went, and none is to be searched anew.
fn changes_nothing(
    names: &[RouterId],
    rows: &[Vec<Option<u32>>],
    edge: &Edge,
    added: bool,
    anew: bool,
) -> bool
    requires rising { IsStrictlyIncreasing names.now }
    requires ends { Contains names.now edge.now.from × Contains names.now edge.now.to }
    requires places { (slot : ℕ) → slot < length rows.now → length (row_at (map (λ row. row.items) rows.now) slot) ≡ length names.now }
    ensures { OnTrue result ((hop : Hop) × IsHop names.now edge.now hop
        × ((slot : ℕ) → slot < length rows.now → IsStill hop added (row_at (map (λ row. row.items) rows.now) slot))) }
{
    if anew {
        return false;
    }
    let hop = hop_of(names, edge);
    for row in rows {
        if may_change(row.as_slice(), &hop, added) {
            return false;
        }
    }
    true
}

/// How rows follow a change to this graph: each searched anew, or by what the edge changes.
fn way_of(
    alloc: Global,
    graph: &Graph,
    places: &Places,
    edge: &Edge,
    added: bool,
    anew: bool,
) -> Result<Way, NoMemory>
    requires indexed { AreIndexed graph.now places.now.names.items places.now.ends.items places.now.runs.items }
    requires ends { Contains places.now.names.items edge.now.from × Contains places.now.names.items edge.now.to }
    requires changed { (added ≡ true) ↔ Contains graph.now edge.now }
    ensures { IfOk result (λ way. IsWay (graph_before edge.now added graph.now) graph.now places.now.names.items way) }
{
    if anew {
        return Ok(Way::Anew);
    }
    let names = places.names.as_slice();
    let hop = Hop {
        from: place_of(names, edge.from),
        to: place_of(names, edge.to),
        cost: edge.cost,
    };
    if !added {
        return Ok(Way::Removed(hop));
    }
    let ends = least_costs_by(alloc, graph, places, edge.to)?;
    Ok(Way::Added(hop, ends))
}

/// Brings the rows of all members over the graph after a change. The pairs are those whose cost changed.
fn follow_all(
    alloc: Global,
    graph: &Graph,
    places: &Places,
    way: &Way,
    members: &[Member],
    rows: &mut [Vec<Option<u32>>],
) -> Result<Vec<(Slot, RouterId)>, NoMemory>
    requires few { length members.now ≤ 512 }
    requires indexed { AreIndexed graph.now places.now.names.items places.now.ends.items places.now.runs.items }
    requires way { (before : List Edge) × IsGraph before × IsGraph graph.now × IsWay before graph.now places.now.names.items way.now
        × AreRows before places.now.names.items members.now (map (λ row. row.items) rows.old) }
    ensures rows { OnOk result (AreRows graph.now places.now.names.items members.now (map (λ row. row.items) rows.new)) }
    ensures changes { IfOk result (λ pairs. AreChanges (costs_by places.now.names.items (map (λ row. row.items) rows.old))
        (costs_by places.now.names.items (map (λ row. row.items) rows.new)) pairs.items) }
{
    let mut pairs = Vec::new(alloc);
    for (slot, member) in members.iter().enumerate() {
        follow(
            alloc,
            graph,
            places,
            way,
            Slot(slot as u16),
            member.router,
            &mut rows[slot],
            &mut pairs,
        )?;
    }
    Ok(pairs)
}

/// The least costs from the members of a roster, or a table that want of memory has spent.
#[derive(Debug, Drop)]
pub struct Table {
    alloc: Global,
    members: Vec<Member>,
    names: Vec<RouterId>,
    rows: Vec<Vec<Option<u32>>>,
    spent: bool,
}

impl Model for Table {
    ghost use Rattle.std.specs.Prelude.{map};
    ghost use Rattle.spf_incr.specs.Tables.{EngineOf, IsTable};

    ghost Value = { EngineOf };

    ghost view = { λ t. record { members = t.members.items; names = t.names.items; rows = map (λ row. row.items) t.rows.items; is_spent = t.spent } };

    ghost invariant = { λ t. IsTable t.members.items t.names.items (map (λ row. row.items) t.rows.items) t.spent };
}

impl Table {
    ghost use Rattle.spf_incr.specs.Tables.{EngineOf, IsEngineOver, engine_costs};

    /// The table of a graph.
    pub fn new(alloc: Global, members: &[Member], graph: &Graph) -> Result<Table, NoMemory>
        requires { AreMembers members.now }
        ensures members { IfOk result (λ table. table.members ≡ members.now) }
        ensures over { IfOk result (λ table. IsEngineOver table graph.now) }
    {
        let names = names_with(alloc, graph, members)?;
        let places = places_in(alloc, graph, names.as_slice())?;
        let rows = rows_over(alloc, graph, &places, members)?;
        let members = Vec::from_slice(alloc, members)?;
        Ok(Table {
            alloc,
            members,
            names,
            rows,
            spent: false,
        })
    }

    /// The cost from a slot to a router.
    pub fn cost(&self, from: Slot, to: RouterId) -> Option<u32>
        ensures { result ≡ engine_costs self.now from to }
    {
        if self.spent {
            return None;
        }
        let row = self.rows.get(from.0 as usize)?;
        cost_in(self.names.as_slice(), row.as_slice(), to)
    }

    /// The costs found from a slot, none where the table is spent and where the slot is past the last member's.
    fn costs_from(&self, from: Slot) -> &[Option<u32>]
        ensures { (router : ℕ) → found_at self.now.names result.now router ≡ engine_costs self.now from router }
    {
        if self.spent {
            return &[];
        }
        match self.rows.get(from.0 as usize) {
            Some(row) => row.as_slice(),
            None => &[],
        }
    }

    /// The costs from a slot as a row.
    pub fn row(&self, alloc: Global, from: Slot) -> Result<Row, NoMemory>
        ensures { IfOk result (λ row. (router : ℕ) → get_at same_number router row ≡ engine_costs self.now from router) }
    {
        row_of(alloc, self.names.as_slice(), self.costs_from(from))
    }

    /// Makes places for the ends of an edge, where it was added and they have none.
    fn name_ends(&mut self, graph: &Graph, edge: &Edge, added: bool) -> Result<(), NoMemory>
        requires over { IsEngineOver self.old (graph_before edge.now added graph.now) }
        requires changed { (added ≡ true) ↔ Contains graph.now edge.now }
        ensures names { OnOk result (AreNames graph.now self.new.names) }
        ensures over { OnOk result (IsEngineOver self.new (graph_before edge.now added graph.now)) }
        ensures members { self.new.members ≡ self.old.members }
    {
        if ends_have_places(self.names.as_slice(), edge, added) {
            return Ok(());
        }
        let names = names_with(self.alloc, graph, self.members.as_slice())?;
        let rows = carried_rows(
            self.alloc,
            self.names.as_slice(),
            self.rows.as_slice(),
            names.as_slice(),
        )?;
        self.names = names;
        self.rows = rows;
        Ok(())
    }

    /// Brings all rows over the graph after a change. The pairs are those whose cost changed.
    fn renew(
        &mut self,
        graph: &Graph,
        edge: &Edge,
        added: bool,
        anew: bool,
    ) -> Result<Vec<(Slot, RouterId)>, NoMemory>
        requires over { IsEngineOver self.old (graph_before edge.now added graph.now) }
        requires graph { IsGraph (graph_before edge.now added graph.now) }
        requires names { AreNames graph.now self.old.names }
        requires changed { (added ≡ true) ↔ Contains graph.now edge.now }
        ensures over { OnOk result (IsEngineOver self.new graph.now) }
        ensures changes { IfOk result (λ pairs. AreChanges (engine_costs self.old) (engine_costs self.new) pairs.items) }
        ensures members { self.new.members ≡ self.old.members }
        ensures spent { OnErr result (self.new.is_spent ≡ true) }
    {
        if changes_nothing(
            self.names.as_slice(),
            self.rows.as_slice(),
            edge,
            added,
            anew,
        ) {
            return Ok(Vec::new(self.alloc));
        }
        self.spent = true;
        // Costs are low because the edges are those of a graph.
        let _edges = graph.edges();
        let places = places_in(self.alloc, graph, self.names.as_slice())?;
        let way = way_of(self.alloc, graph, &places, edge, added, anew)?;
        let pairs = follow_all(
            self.alloc,
            graph,
            &places,
            &way,
            self.members.as_slice(),
            &mut self.rows,
        )?;
        self.spent = false;
        Ok(pairs)
    }

    /// Follows a change of an edge, after which the graph is this one. Each row is searched anew, or only those that the edge
    /// may change.
    pub fn change(
        &mut self,
        graph: &Graph,
        edge: &Edge,
        added: bool,
        anew: bool,
    ) -> Result<Vec<(Slot, RouterId)>, NoMemory>
        requires over { self.old.is_spent ≡ false → IsEngineOver self.old (graph_before edge.now added graph.now) }
        requires kept { self.old.is_spent ≡ false → IsGraph (graph_before edge.now added graph.now) }
        requires changed { self.old.is_spent ≡ false → ((added ≡ true) ↔ Contains graph.now edge.now) }
        ensures changes { IfOk result (λ pairs. AreChanges (engine_costs self.old) (engine_costs self.new) pairs.items) }
        ensures over { OnOk result (IsEngineOver self.new graph.now) }
        ensures members { self.new.members ≡ self.old.members }
        ensures unspent { OnOk result (self.old.is_spent ≡ false) }
        ensures spent { OnErr result (self.new.is_spent ≡ true) }
    {
        if self.spent {
            return Err(NoMemory);
        }
        match self.name_ends(graph, edge, added) {
            Ok(()) => self.renew(graph, edge, added, anew),
            Err(full) => {
                self.spent = true;
                Err(full)
            }
        }
    }
}
