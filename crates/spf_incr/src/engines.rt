//! The two engines.

ghost use Rattle.std.specs.Prelude.{◌≡◌, ℕ, IfOk};
ghost use Rattle.rcp_base.specs.Maps.{get_at};
ghost use Rattle.rcp_model.specs.LinkState.{same_number};
ghost use Rattle.rcp_model.specs.Graphs.{AreMembers};

use crate::table::Table;
use cost_rows::{CostEngine, Graph, Row};
use rcp_base::{Member, NoMemory, RouterId, Slot};
use rcp_model::Edge;
use std::alloc::Global;
use std::marker::Model;

/// An engine that searches from each member at each change. Contracts see what [`CostEngine`] says of it.
#[derive(Debug, Drop)]
pub struct PlainEngine {
    table: Table,
}

impl Model for PlainEngine {
    ghost use Rattle.spf_incr.specs.Tables.{EngineOf};

    ghost Value = { EngineOf };

    ghost view = { λ engine. engine.table };
}

impl PlainEngine {
    ghost use Rattle.spf_incr.specs.Tables.{IsEngineOver};

    /// The engine over a graph, for at most 512 members, whose routers and BGP Identifiers are distinct.
    ///
    /// `NoMemory` comes where there was no room for it. For M members, V routers and E edges it takes about M (V + E) log V
    /// steps, as each change does.
    pub fn new(alloc: Global, members: &[Member], graph: &Graph) -> Result<PlainEngine, NoMemory>
        requires { AreMembers members.now }
        ensures members { IfOk result (λ engine. engine.members ≡ members.now) }
        ensures over { IfOk result (λ engine. IsEngineOver engine graph.now) }
    {
        let table = Table::new(alloc, members, graph)?;
        Ok(PlainEngine { table })
    }
}

impl CostEngine for PlainEngine {
    ghost use Rattle.spf_incr.specs.Tables.{IsEngineOver, engine_costs};

    ghost members = { λ engine. engine.members };

    ghost costs = { engine_costs };

    ghost is_spent = { λ engine. engine.is_spent };

    ghost IsOver = { IsEngineOver };

    fn change(
        &mut self,
        graph: &Graph,
        edge: Edge,
        added: bool,
    ) -> Result<Vec<(Slot, RouterId)>, NoMemory> {
        self.table.change(graph, &edge, added, true)
    }

    fn cost(&self, from: Slot, to: RouterId) -> Option<u32> {
        self.table.cost(from, to)
    }

    ghost exact = { λ engine edges over. over.exact };
}

/// An engine that searches only where a change asks for it. Contracts see what [`CostEngine`] says of it.
///
/// An added edge takes one search, from its end, and a pass over the row of each member from which its end becomes nearer. A
/// removed edge takes a search from each member that it was on a shortest path from.
#[derive(Debug, Drop)]
pub struct TreeEngine {
    table: Table,
}

impl Model for TreeEngine {
    ghost use Rattle.spf_incr.specs.Tables.{EngineOf};

    ghost Value = { EngineOf };

    ghost view = { λ engine. engine.table };
}

impl TreeEngine {
    ghost use Rattle.spf_incr.specs.Tables.{IsEngineOver, engine_costs};

    /// The engine over a graph, for at most 512 members, whose routers and BGP Identifiers are distinct.
    ///
    /// `NoMemory` comes where there was no room for it. For M members, V routers and E edges it takes about M (V + E) log V
    /// steps.
    pub fn new(alloc: Global, members: &[Member], graph: &Graph) -> Result<TreeEngine, NoMemory>
        requires { AreMembers members.now }
        ensures members { IfOk result (λ engine. engine.members ≡ members.now) }
        ensures over { IfOk result (λ engine. IsEngineOver engine graph.now) }
    {
        let table = Table::new(alloc, members, graph)?;
        Ok(TreeEngine { table })
    }

    /// The costs from a slot as a row: empty where the engine is spent, and where the slot is past the last member's.
    ///
    /// `NoMemory` comes where there was no room for it. It takes a step for each router.
    pub fn row(&self, alloc: Global, from: Slot) -> Result<Row, NoMemory>
        ensures { IfOk result (λ row. (router : ℕ) → get_at same_number router row ≡ engine_costs self.now from router) }
    {
        self.table.row(alloc, from)
    }
}

impl CostEngine for TreeEngine {
    ghost use Rattle.spf_incr.specs.Tables.{IsEngineOver, engine_costs};

    ghost members = { λ engine. engine.members };

    ghost costs = { engine_costs };

    ghost is_spent = { λ engine. engine.is_spent };

    ghost IsOver = { IsEngineOver };

    fn change(
        &mut self,
        graph: &Graph,
        edge: Edge,
        added: bool,
    ) -> Result<Vec<(Slot, RouterId)>, NoMemory> {
        self.table.change(graph, &edge, added, false)
    }

    fn cost(&self, from: Slot, to: RouterId) -> Option<u32> {
        self.table.cost(from, to)
    }

    ghost exact = { λ engine edges over. over.exact };
}
