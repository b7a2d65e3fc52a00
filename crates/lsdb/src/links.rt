// The edges that instances give (RFC 2328 section 16.1).
ghost use Rattle.std.specs.Prelude.{◌≡◌, ℕ, ◌++◌, filter, All, Contains, IfOk, OnOk};
ghost use Rattle.rcp_base.specs.declared.names.Edge.{Edge};
ghost use Rattle.lsdb.specs.Links.{links_from, least_between, is_two_way as two_way, IsInOrder, IsRising, IsCheap, AreEdges};

use lsa_reader::{LsaLink, POINT_TO_POINT};
use rcp_base::{NoMemory, RouterId};
use rcp_model::Edge;
use std::alloc::Global;

/// Puts the point-to-point links of a router after the links that are there.
pub fn add_links(edges: &mut Vec<Edge>, router: RouterId, links: &[LsaLink]) -> Result<(), NoMemory>
    ensures edges { OnOk result (edges.new.items ≡ edges.old.items ++ links_from router links.now) }
    ensures cheap { OnOk result (All IsCheap edges.old.items → All IsCheap edges.new.items) }
{
    for link in links {
        if link.kind == POINT_TO_POINT {
            edges.push(edge_along(router, link))?;
        }
    }
    Ok(())
}

/// A link of a router as an edge.
fn edge_along(router: RouterId, link: &LsaLink) -> Edge
    ensures edge { result ≡ record { from = router; to = link.now.id; cost = link.now.metric } }
    ensures cheap { IsCheap result }
{
    Edge {
        from: router,
        to: RouterId(link.id),
        cost: u32::from(link.metric),
    }
}

/// The least cost of the links from one router to another.
fn least_between(links: &[Edge], from: RouterId, to: RouterId) -> Option<u32>
    requires { IsInOrder links.now }
    ensures { result ≡ least_between from to links.now }
{
    let place = links.partition_point(|link| (link.from, link.to) < (from, to));
    match links.get(place) {
        Some(link) if link.from == from && link.to == to => Some(link.cost),
        _ => None,
    }
}

/// Whether a link is the least one between its routers, and there is one back.
fn is_two_way(links: &[Edge], link: &Edge) -> bool
    requires { IsInOrder links.now }
    ensures { result ≡ two_way links.now link.now }
{
    least_between(links, link.from, link.to) == Some(link.cost)
        && least_between(links, link.to, link.from).is_some()
}

/// The least of parallel links, where there is one back, and further edges.
fn two_way_links(alloc: Global, links: &[Edge], more: &[Edge]) -> Result<Vec<Edge>, NoMemory>
    requires { IsInOrder links.now }
    ensures { IfOk result (λ edges. edges.items ≡ filter (two_way links.now) links.now ++ more.now) }
{
    let kept = links.iter().filter(|link| is_two_way(links, link));
    Ok(kept.chain(more).copied().collect(alloc)?)
}

/// The least of parallel links, where there is one back, and the fixed edges: in order, each once.
pub fn edges_in(alloc: Global, links: &[Edge], fixed: &[Edge]) -> Result<Vec<Edge>, NoMemory>
    requires { IsInOrder links.now }
    ensures { IfOk result (λ edges. AreEdges links.now fixed.now edges.items) }
{
    let mut edges = two_way_links(alloc, links, fixed)?;
    sort(&mut edges);
    Ok(edges)
}

/// Sorts edges, and leaves each once.
fn sort(edges: &mut Vec<Edge>)
    ensures rising { IsRising edges.new.items }
    ensures kept { (edge : Edge) → Contains edges.old.items edge → Contains edges.new.items edge }
    ensures no_other { (edge : Edge) → Contains edges.new.items edge → Contains edges.old.items edge }
{
    edges.sort_unstable();
    edges.dedup();
}
