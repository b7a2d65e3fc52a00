ghost use Rattle.std.specs.Prelude.{◌≤◌, length};
ghost use Rattle.rcp_model.specs.Graphs.{AreMembers};

use crate::{Graph, View, costs};
use rcp_base::{Addr, Member, NoMemory, RouterId, Slot};
use rcp_model::{Costs, Edge};
use std::alloc::Global;
use std::test::Fail;

/// An edge from one router to another, with its cost.
type Link = (u32, u32, u16);

fn edge(link: Link) -> Edge
    ensures { result.cost ≤ 65535 }
{
    Edge {
        from: RouterId(link.0),
        to: RouterId(link.1),
        cost: link.2 as u32,
    }
}

/// A graph of a few links.
fn graph_of(alloc: Global, links: &[Link]) -> Result<Graph, NoMemory>
    requires { length links.now ≤ 100 }
{
    let mut graph = Graph::new(alloc)?;
    for link in links {
        graph.add(edge(*link))?;
    }
    Ok(graph)
}

/// Three routers, the identifiers of which fall.
fn members() -> [Member; 3]
    ensures { AreMembers result }
{
    [
        Member {
            router: RouterId(1),
            bgp_id: Addr(30),
        },
        Member {
            router: RouterId(3),
            bgp_id: Addr(20),
        },
        Member {
            router: RouterId(4),
            bgp_id: Addr(10),
        },
    ]
}

#[test]
fn costs_are_least_over_all_walks(rt: HostRuntime) -> Result<(), Fail> {
    let rows: [(&[Link], &[(u32, u32)]); 7] = [
        // no edge at all
        (&[], &[(1, 0)]),
        // three routers in a row
        (
            &[(1, 2, 10), (2, 1, 10), (2, 3, 10), (3, 2, 10)],
            &[(1, 0), (2, 10), (3, 20)],
        ),
        // the longer way is cheaper
        (
            &[(1, 3, 30), (1, 2, 10), (2, 3, 10)],
            &[(1, 0), (2, 10), (3, 20)],
        ),
        // parallel links, and a link to itself
        (&[(1, 1, 3), (1, 2, 7), (1, 2, 5)], &[(1, 0), (2, 5)]),
        // links of one direction, and another partition
        (
            &[(1, 2, 4), (3, 1, 1), (4, 5, 1), (5, 4, 1)],
            &[(1, 0), (2, 4)],
        ),
        // a cycle of cost 0
        (
            &[(1, 2, 0), (2, 3, 0), (3, 1, 0), (3, 4, 65535)],
            &[(1, 0), (2, 0), (3, 0), (4, 65535)],
        ),
        // a cost that is lowered after its edges were gone over
        (
            &[(1, 2, 9), (1, 3, 1), (3, 2, 1), (2, 4, 1)],
            &[(1, 0), (2, 2), (3, 1), (4, 3)],
        ),
    ];
    for (links, want) in rows {
        let graph = graph_of(rt.alloc(), links)?;
        let found = costs(rt.alloc(), &graph, RouterId(1))?;
        assert_eq!(rt; found.len(), want.len());
        for (pair, (router, cost)) in found.iter().zip(want) {
            assert_eq!(rt; *pair, (RouterId(*router), *cost));
        }
    }
    Ok(())
}

#[test]
fn edges_stand_in_order_each_once(rt: HostRuntime) -> Result<(), Fail> {
    let mut graph = graph_of(
        rt.alloc(),
        &[(2, 1, 5), (1, 3, 9), (1, 2, 7), (1, 2, 5), (1, 3, 9)],
    )?;
    let want = [
        edge((1, 2, 5)),
        edge((1, 2, 7)),
        edge((1, 3, 9)),
        edge((2, 1, 5)),
    ];
    assert_eq!(rt; graph.edges(), want.as_slice());
    assert_eq!(rt; graph.edges_from(RouterId(1)), &want[..3]);
    assert_eq!(rt; graph.edges_from(RouterId(3)).len(), 0);
    assert!(rt; graph.remove(edge((1, 2, 7))));
    assert!(rt; !graph.remove(edge((1, 2, 6))));
    let copy = graph.try_clone()?;
    assert_eq!(rt;
        copy.edges(),
        [edge((1, 2, 5)), edge((1, 3, 9)), edge((2, 1, 5))].as_slice()
    );
    Ok(())
}

#[test]
fn a_large_graph_takes_one_more(rt: HostRuntime) -> Result<(), Fail> {
    let mut graph = Graph::new(rt.alloc())?;
    for cost in 0..4097u32 {
        graph.add(Edge {
            from: RouterId(1),
            to: RouterId(2),
            cost,
        })?;
    }
    assert_eq!(rt; graph.edges().len(), 4097);
    Ok(())
}

#[test]
fn a_view_answers_the_costs_between_slots(rt: HostRuntime) -> Result<(), Fail> {
    let graph = graph_of(
        rt.alloc(),
        &[(1, 2, 10), (2, 1, 10), (2, 3, 5), (3, 2, 6), (4, 4, 1)],
    )?;
    let view = View::build(rt.alloc(), &members(), graph)?;
    assert_eq!(rt; view.members().len(), 3);
    assert_eq!(rt; view.graph().edges().len(), 5);
    let rows = [
        (0, 0, Some(0)),
        (0, 1, Some(15)),
        (1, 0, Some(16)),
        (0, 2, None),
        (2, 2, Some(0)),
        (0, 3, None),
        (3, 0, None),
    ];
    for (from, to, want) in rows {
        assert_eq!(rt; view.cost(Slot(from), Slot(to)), want);
    }
    Ok(())
}

#[test]
fn a_ranking_has_the_nearest_first(rt: HostRuntime) -> Result<(), Fail> {
    // Slots 1 and 2 are as far from slot 0, and slot 2 has the lower identifier. Slot 0 isn't reached from slot 2.
    let graph = graph_of(rt.alloc(), &[(1, 3, 5), (1, 4, 5), (3, 1, 5)])?;
    let same = graph.try_clone()?;
    let view = View::build(rt.alloc(), &members(), graph)?;
    let renewed = View::renew(rt.alloc(), &view, same, Vec::new(rt.alloc()))?;
    for view in [&view, &renewed] {
        assert_eq!(rt;
            view.ranked(Slot(0)),
            [Slot(0), Slot(2), Slot(1)].as_slice()
        );
        assert_eq!(rt;
            view.ranked(Slot(1)),
            [Slot(1), Slot(0), Slot(2)].as_slice()
        );
        assert_eq!(rt; view.ranked(Slot(2)), [Slot(2)].as_slice());
        assert_eq!(rt; view.ranked(Slot(3)).len(), 0);
    }
    Ok(())
}
