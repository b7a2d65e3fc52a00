ghost use Rattle.std.specs.Prelude.{◌≡◌, ◌↔◌, ◌≤◌, ◌+◌, true, length, Contains, IfOk, OnOk};
ghost use Rattle.rcp_model.specs.Graphs.{AreMembers, IsGraph};
ghost use Rattle.cost_rows.specs.Engines.{graph_before};
ghost use Rattle.spf_incr.specs.Tables.{IsEngineOver};

use crate::{CostEngine, PlainEngine, TreeEngine};
use cost_rows::Graph;
use rcp_base::{Addr, Member, RouterId, Slot};
use rcp_model::Edge;
use std::alloc::Global;
use std::test::Fail;

/// An edge from one router to another, with its cost.
type Link = (u32, u32, u16);

fn edge(link: &Link) -> Edge
    ensures { result.cost ≤ 65535 }
{
    Edge {
        from: RouterId(link.0),
        to: RouterId(link.1),
        cost: link.2 as u32,
    }
}

/// Three routers.
fn members() -> [Member; 3]
    ensures { AreMembers result }
{
    [
        Member {
            router: RouterId(1),
            bgp_id: Addr(30),
        },
        Member {
            router: RouterId(2),
            bgp_id: Addr(20),
        },
        Member {
            router: RouterId(3),
            bgp_id: Addr(10),
        },
    ]
}

/// A graph, and both engines over it.
#[derive(Drop)]
struct Engines {
    graph: Graph,
    plain: PlainEngine,
    tree: TreeEngine,
}

/// Engines over a graph without edges.
fn over_no_edge(alloc: Global) -> Result<Engines, Fail>
    ensures plain { IfOk result (λ both. IsEngineOver both.plain both.graph) }
    ensures tree { IfOk result (λ both. IsEngineOver both.tree both.graph) }
    ensures empty { IfOk result (λ both. length both.graph ≡ 0) }
{
    let graph = Graph::new(alloc)?;
    let plain = PlainEngine::new(alloc, &members(), &graph)?;
    let tree = TreeEngine::new(alloc, &members(), &graph)?;
    Ok(Engines { graph, plain, tree })
}

/// Takes an edge out, or else puts it in. Whether it was put in.
fn turn(graph: &mut Graph, edge: &Edge) -> Result<bool, Fail>
    requires few { length graph.old ≤ 1000 }
    requires cheap { edge.now.cost ≤ 65535 }
    ensures before { IfOk result (λ added. graph_before edge.now added graph.new ≡ graph.old) }
    ensures there { IfOk result (λ added. (added ≡ true) ↔ Contains graph.new edge.now) }
    ensures few { OnOk result (length graph.new ≤ length graph.old + 1) }
    ensures kept { OnOk result (IsGraph graph.old) }
{
    let _edges = graph.edges();
    if graph.remove(*edge) {
        return Ok(false);
    }
    graph.add(*edge)?;
    Ok(true)
}

/// The pairs of both engines for a link that is taken out, or else put in.
fn change(
    both: &mut Engines,
    link: &Link,
) -> Result<(Vec<(Slot, RouterId)>, Vec<(Slot, RouterId)>), Fail>
    requires few { length both.old.graph ≤ 1000 }
    requires plain { IsEngineOver both.old.plain both.old.graph }
    requires tree { IsEngineOver both.old.tree both.old.graph }
    ensures few { OnOk result (length both.new.graph ≤ length both.old.graph + 1) }
    ensures plain { OnOk result (IsEngineOver both.new.plain both.new.graph) }
    ensures tree { OnOk result (IsEngineOver both.new.tree both.new.graph) }
{
    let edge = &edge(link);
    let added = turn(&mut both.graph, edge)?;
    let plain = both.plain.change(&both.graph, *edge, added)?;
    let tree = both.tree.change(&both.graph, *edge, added)?;
    Ok((plain, tree))
}

#[test]
fn costs_rise_and_fall_with_a_link(rt: HostRuntime) -> Result<(), Fail> {
    let mut both = over_no_edge(rt.alloc())?;
    let rows: [(Link, &[(Slot, RouterId)]); 9] = [
        ((1, 2, 10), &[(Slot(0), RouterId(2))]),
        ((2, 1, 10), &[(Slot(1), RouterId(1))]),
        (
            (2, 3, 10),
            &[(Slot(0), RouterId(3)), (Slot(1), RouterId(3))],
        ),
        // router 3 had no edge, and cost 0 to itself alone
        (
            (3, 2, 10),
            &[(Slot(2), RouterId(1)), (Slot(2), RouterId(2))],
        ),
        // a dearer link comes beside one, and then the cheaper one goes: the cost rises
        ((1, 2, 11), &[]),
        (
            (1, 2, 10),
            &[(Slot(0), RouterId(2)), (Slot(0), RouterId(3))],
        ),
        // a link that no shortest path uses comes and goes
        ((1, 2, 12), &[]),
        ((1, 2, 12), &[]),
        // router 3 can't be reached any more
        (
            (2, 3, 10),
            &[(Slot(0), RouterId(3)), (Slot(1), RouterId(3))],
        ),
    ];
    for (link, want) in rows {
        let (plain, tree) = change(&mut both, &link)?;
        assert_eq!(rt; plain.as_slice(), tree.as_slice());
        assert_eq!(rt; tree.as_slice(), want);
    }
    assert_eq!(rt; both.tree.cost(Slot(0), RouterId(2)), Some(11));
    assert_eq!(rt; both.tree.cost(Slot(0), RouterId(3)), None);
    assert_eq!(rt; both.plain.cost(Slot(2), RouterId(1)), Some(20));
    assert_eq!(rt; both.plain.cost(Slot(3), RouterId(1)), None);
    Ok(())
}

#[test]
fn a_cycle_of_cost_zero_holds_no_cost(rt: HostRuntime) -> Result<(), Fail> {
    let mut both = over_no_edge(rt.alloc())?;
    for link in [(1, 2, 0), (2, 1, 0), (2, 3, 0), (3, 2, 0)] {
        change(&mut both, &link)?;
    }
    let want = [(Slot(0), RouterId(2)), (Slot(0), RouterId(3))];
    for link in [(1, 2, 0), (1, 2, 7)] {
        let (plain, tree) = change(&mut both, &link)?;
        assert_eq!(rt; plain.as_slice(), want.as_slice());
        assert_eq!(rt; tree.as_slice(), want.as_slice());
    }
    assert_eq!(rt; both.tree.cost(Slot(0), RouterId(2)), Some(7));
    assert_eq!(rt; both.tree.cost(Slot(0), RouterId(3)), Some(7));
    Ok(())
}

#[test]
fn engines_agree_on_random_changes(rt: HostRuntime) -> Result<(), Fail> {
    let mut both = over_no_edge(rt.alloc())?;
    let mut seed = 1u32;
    let mut changed = 0usize;
    for step in 0..400u32 {
        seed = seed.wrapping_mul(1_664_525).wrapping_add(1_013_904_223);
        // Eight routers in a ring, with links to the next two.
        let from = (seed >> 8) % 8;
        let to = (from + 1 + (seed >> 16) % 2) % 8;
        let link = (from + 1, to + 1, ((seed >> 20) % 3) as u16);
        let (plain, tree) = change(&mut both, &link)?;
        assert_eq!(rt; plain.as_slice(), tree.as_slice());
        changed = changed.saturating_add(plain.len());
    }
    assert_eq!(rt; changed, 670);
    Ok(())
}
