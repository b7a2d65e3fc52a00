//! Views of the edges that a database gives.

ghost use Rattle.std.specs.Prelude.{◌≡◌, false, IfOk, OnOk};
ghost use Rattle.rcp_model.specs.Graphs.{AreMembers};
ghost use Rattle.igp_view.specs.Igp.{AreEdgesOf, AreRosterLinks, one_more};
ghost use Rattle.igp_view.specs.Following.{IsEngineOf};

use crate::following::bring_over;
use cost_rows::{Graph, View};
use lsdb::Lsdb;
use rcp_base::{Member, NoMemory, Slot};
use rcp_model::Edge;
use roster::Roster;
use spf_incr::TreeEngine;
use std::alloc::Global;
use std::sync::Arc;

/// The links of a roster.
pub fn links_of(alloc: Global, roster: &Roster) -> Result<Vec<Edge>, NoMemory>
    ensures links { IfOk result (λ links. links.items ≡ roster.now.links) }
    ensures form { IfOk result (λ links. AreRosterLinks links.items) }
{
    let _form = roster.len();
    Ok(Vec::from_slice(alloc, roster.links())?)
}

/// The members of a roster, in order.
pub fn members_of(alloc: Global, roster: &Roster) -> Result<Vec<Member>, NoMemory>
    ensures members { IfOk result (λ members. members.items ≡ roster.now.members) }
    ensures form { IfOk result (λ members. AreMembers members.items) }
{
    let mut members = Vec::new(alloc);
    for slot in 0..roster.len() {
        members.push(roster.member(Slot(slot)))?;
    }
    Ok(members)
}

/// The graph of the edges of a database and of a roster's links.
fn graph_of(lsdb: &Lsdb, links: &[Edge]) -> Result<Graph, NoMemory>
    requires { AreRosterLinks links.now }
    ensures { IfOk result (λ graph. AreEdgesOf lsdb.now.state links.now graph) }
{
    let edges = lsdb.edges(links)?;
    Ok(Graph::from_edges(edges))
}

/// The engine of a view.
pub fn first_engine(alloc: Global, view: &Arc<View>) -> Result<TreeEngine, NoMemory>
    ensures { IfOk result (λ engine. IsEngineOf engine view.now.value) }
{
    TreeEngine::new(alloc, view.members(), view.graph())
}

/// The view of these edges for members.
pub fn first_view(
    alloc: Global,
    members: &[Member],
    lsdb: &Lsdb,
    links: &[Edge],
) -> Result<Arc<View>, NoMemory>
    requires members { AreMembers members.now }
    requires links { AreRosterLinks links.now }
    ensures edges { IfOk result (λ view. AreEdgesOf lsdb.now.state links.now view.value.edges) }
    ensures members { IfOk result (λ view. view.value.members ≡ members.now) }
{
    let graph = graph_of(lsdb, links)?;
    View::build(alloc, members, graph)
}

/// Brings a view that may be stale, and its engine, over the edges of a database and a roster's links, where they are others, and counts
/// that. After `NoMemory` they are of no use.
pub fn renew(
    alloc: Global,
    is_stale: bool,
    view: &mut Arc<View>,
    engine: &mut TreeEngine,
    changes: &mut u64,
    lsdb: &Lsdb,
    links: &[Edge],
) -> Result<(), NoMemory>
    requires links { AreRosterLinks links.now }
    requires fresh { is_stale ≡ false → AreEdgesOf lsdb.now.state links.now view.old.value.edges }
    requires engine { IsEngineOf engine.old view.old.value }
    ensures edges { OnOk result (AreEdgesOf lsdb.now.state links.now view.new.value.edges) }
    ensures engine { OnOk result (IsEngineOf engine.new view.new.value) }
    ensures members { view.new.value.members ≡ view.old.value.members }
    ensures same { OnOk result (view.new.value.edges ≡ view.old.value.edges → changes.new ≡ changes.old) }
    ensures other { OnOk result ((view.new.value.edges ≡ view.old.value.edges → ⊥) → changes.new ≡ one_more changes.old) }
{
    if !is_stale {
        return Ok(());
    }
    let graph = graph_of(lsdb, links)?;
    if graph.edges() == view.graph().edges() {
        return Ok(());
    }
    bring_over(alloc, view, engine, graph)?;
    *changes = changes.saturating_add(1);
    Ok(())
}
