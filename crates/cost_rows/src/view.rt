//! Views: the costs between the members of a roster over one graph.

ghost use Rattle.std.specs.Prelude.{◌≡◌, ℕ, ◌<◌, ◌≤◌, length, map, slice_get, All, Contains, Some, IfOk};
ghost use Rattle.std.specs.List.{AllZip};
ghost use Rattle.rcp_model.specs.RouteServer.{slot_cost};
ghost use Rattle.rcp_model.specs.Graphs.{AreMembers};
ghost use Rattle.cost_rows.specs.Views.{IsRanking, AreRenewals};

use crate::graph::Graph;
use crate::reach::Reach;
use crate::reaches::{reaches_over, renewed};
use crate::row::Row;
use rcp_base::{Member, NoMemory, Slot};
use rcp_model::Costs;
use std::alloc::Global;
use std::marker::Model;
use std::sync::Arc;

/// A graph and the members of a roster, with the costs between them. Contracts see the record of edges and members.
///
/// Its type keeps that each cost is the least sum over all walks of its graph's edges, and that each ranking has exactly the
/// members that are reached, by cost and then by BGP Identifier. What a member reaches is shared with the view before where
/// it stayed.
#[derive(Debug, Drop)]
pub struct View {
    members: Vec<Member>,
    graph: Graph,
    reaches: Vec<Arc<Reach>>,
}

impl Model for View {
    ghost use Rattle.std.specs.Prelude.{map};
    ghost use Rattle.cost_rows.specs.Views.{ViewOf, IsView};

    ghost Value = { ViewOf };

    ghost view = { λ v. record { edges = v.graph; members = v.members.items } };

    ghost invariant = { λ v. IsView v.graph v.members.items (map (λ reach. reach.value) v.reaches.items) };
}

impl View {
    ghost use Rattle.rcp_model.specs.Graphs.{AreMembers};

    /// The view of a graph for at most 512 members, whose routers and BGP Identifiers are distinct.
    ///
    /// `NoMemory` comes where there was no room for it. For M members, V routers and E edges it takes about
    /// M (E log V + M log M) steps, and keeps six octets for each two members.
    pub fn build(alloc: Global, members: &[Member], graph: Graph) -> Result<Arc<View>, NoMemory>
        requires { AreMembers members.now }
        ensures { IfOk result (λ view. view.value ≡ record { edges = graph; members = members.now }) }
    {
        let reaches = reaches_over(alloc, members, &graph)?;
        let members = Vec::from_slice(alloc, members)?;
        Ok(Arc::new(
            alloc,
            View {
                members,
                graph,
                reaches,
            },
        )?)
    }

    /// The view of another graph for the members of an old one, by rows of costs over it. The rows are those of the members
    /// from which some cost to a member isn't the same over the old view's graph; others may be among them, each of a member.
    ///
    /// `NoMemory` comes where there was no room for it. Only the members of the given rows are ranked anew: what the others
    /// reach is shared with the old view.
    pub fn renew(
        alloc: Global,
        old: &Arc<View>,
        graph: Graph,
        rows: Vec<(Slot, Row)>,
    ) -> Result<Arc<View>, NoMemory>
        requires { AreRenewals old.now.value.edges graph old.now.value.members rows.items }
        ensures { IfOk result (λ view. view.value ≡ record { edges = graph; members = old.now.value.members }) }
    {
        let old: &View = old;
        let reaches = renewed(
            alloc,
            old.members.as_slice(),
            old.reaches.as_slice(),
            &graph,
            rows.as_slice(),
        )?;
        let members = Vec::from_slice(alloc, old.members.as_slice())?;
        Ok(Arc::new(
            alloc,
            View {
                members,
                graph,
                reaches,
            },
        )?)
    }

    /// The graph whose edges the costs go over.
    pub fn graph(&self) -> &Graph
        ensures { result.now ≡ self.now.edges }
    {
        &self.graph
    }

    /// The members by slot.
    pub fn members(&self) -> &[Member]
        ensures members { result.now ≡ self.now.members }
        ensures distinct { AreMembers self.now.members }
    {
        self.members.as_slice()
    }

    /// The members that a slot reaches, itself among them, by cost and then by BGP Identifier: the nearest first. None where
    /// the slot is past the last member's.
    pub fn ranked(&self, from: Slot) -> &[Slot]
        ensures { IsRanking self.now.members (slot_cost self.now.edges self.now.members from) result.now }
    {
        match self.reaches.get(from.0 as usize) {
            Some(reach) => reach.ranked(),
            None => &[],
        }
    }
}

impl Costs for View {
    ghost edges = { λ view. view.edges };

    ghost members = { λ view. view.members };

    fn cost(&self, from: Slot, to: Slot) -> Option<u32> {
        let reach = self.reaches.get(from.0 as usize)?;
        reach.cost(to)
    }
}
