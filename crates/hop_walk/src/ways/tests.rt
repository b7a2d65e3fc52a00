ghost use Rattle.std.specs.Prelude.{◌≤◌, length};

use crate::ways::Ways;
use cost_rows::Graph;
use rcp_base::{NoMemory, RouterId};
use rcp_model::Edge;
use std::alloc::Global;
use std::test::Fail;

/// An edge from one router to another, with its cost.
type Link = (u32, u32, u16);

fn edge(link: Link) -> Edge
    ensures { result.cost ≤ 65535 }
{
    Edge {
        from: RouterId(link.0),
        to: RouterId(link.1),
        cost: link.2 as u32,
    }
}

/// A graph of a few links.
fn graph_of(alloc: Global, links: &[Link]) -> Result<Graph, NoMemory>
    requires { length links.now ≤ 100 }
{
    let mut graph = Graph::new(alloc)?;
    for link in links {
        graph.add(edge(*link))?;
    }
    Ok(graph)
}

/// The ways to router 9 over these links.
fn ways_over(alloc: Global, links: &[Link]) -> Result<Ways, NoMemory>
    requires { length links.now ≤ 100 }
{
    let graph = graph_of(alloc, links)?;
    Ways::to(alloc, graph, RouterId(9))
}

#[test]
fn next_router_is_the_least_on_a_shortest_path(rt: HostRuntime) -> Result<(), Fail> {
    let rows: [(&[Link], &[u32]); 4] = [
        // two ways of one cost
        (&[(1, 3, 10), (1, 2, 10), (2, 9, 5), (3, 9, 5)], &[1, 2, 9]),
        // the least router isn't on the least way
        (&[(1, 2, 10), (2, 9, 6), (1, 3, 10), (3, 9, 5)], &[1, 3, 9]),
        // the longer way is cheaper, and the way back isn't the way there
        (
            &[(1, 9, 30), (1, 4, 9), (4, 2, 9), (2, 9, 9), (9, 1, 1)],
            &[1, 4, 2, 9],
        ),
        // parallel links, the dearer one first by its end
        (&[(1, 2, 4), (2, 9, 3), (2, 9, 1), (1, 9, 6)], &[1, 2, 9]),
    ];
    for (links, want) in rows {
        let ways = ways_over(rt.alloc(), links)?;
        assert!(rt; ways.least_free().is_none() && ways.row.cost(RouterId(1)).is_some());
        let path = ways.path_from(rt.alloc(), RouterId(1))?;
        assert_eq!(rt; path.len(), want.len());
        for (router, id) in path.iter().zip(want) {
            assert_eq!(rt; *router, RouterId(*id));
        }
    }
    Ok(())
}

#[test]
fn least_edge_of_cost_zero_is_of_the_partition(rt: HostRuntime) -> Result<(), Fail> {
    let links: [Link; 6] = [
        (1, 2, 0),
        (2, 1, 4),
        (8, 9, 1),
        (7, 9, 0),
        (7, 8, 0),
        (9, 7, 3),
    ];
    let ways = ways_over(rt.alloc(), &links)?;
    assert!(rt; ways.least_free() == Some(edge((7, 8, 0))));
    let ways = ways_over(rt.alloc(), &links[..3])?;
    assert!(rt; ways.least_free().is_none());
    Ok(())
}
