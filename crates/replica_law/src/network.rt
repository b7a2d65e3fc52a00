//! What is looked up of a platform: its interior network and its roster.

ghost use Rattle.std.specs.Prelude.{◌≡◌, ℕ, ◌↔◌, Contains, IfOk};
ghost use Rattle.std.specs.List.Sorted.{IsStrictlyIncreasing};
ghost use Rattle.replica_law.specs.Steps.{ArePrefixes, AreLeastOfRoster};

use crate::partitions::Partitions;
use crate::routes::prefixes_of;
use crate::seats::Seats;
use cost_rows::Graph;
use rcp_base::{NoMemory, Prefix, RouterId};
use rcp_model::{Assigned, Edge};
use std::alloc::Global;

/// The interior network of a platform and its roster, as they are looked up.
#[derive(Debug, Drop)]
pub struct Network {
    pub partitions: Partitions,
    pub seats: Seats,
}

/// What is looked up of two platforms, and the prefixes that are announced in either.
#[derive(Debug, Drop)]
pub struct Comparison {
    pub first: Network,
    pub second: Network,
    pub prefixes: Vec<Prefix>,
}

/// The edges of the interior network, in order.
fn edges_of<X: Assigned>(alloc: Global, platform: &X) -> Result<Vec<Edge>, NoMemory>
    ensures { IfOk result (λ edges. edges.items ≡ X.edges platform.now) }
{
    let mut edges = Vec::new(alloc);
    while let Some(edge) = platform.edge(edges.len() as u64) {
        edges.push(edge)?;
    }
    Ok(edges)
}

/// The interior network of a platform and its roster.
fn network_of<X: Assigned>(alloc: Global, platform: &X) -> Result<Network, NoMemory>
    ensures edges { IfOk result (λ network. network.partitions ≡ X.edges platform.now) }
    ensures members { IfOk result (λ network. network.seats ≡ X.members platform.now) }
{
    let _law = platform.members();
    let edges = edges_of(alloc, platform)?;
    let partitions = Partitions::of(alloc, Graph::from_edges(edges))?;
    let seats = Seats::of(alloc, platform)?;
    Ok(Network { partitions, seats })
}

/// What is looked up of two platforms.
pub fn comparison_of<X: Assigned, Y: Assigned>(
    alloc: Global,
    first: &X,
    second: &Y,
) -> Result<Comparison, NoMemory>
    ensures first_edges { IfOk result (λ found. found.first.partitions ≡ X.edges first.now) }
    ensures first_members { IfOk result (λ found. found.first.seats ≡ X.members first.now) }
    ensures second_edges { IfOk result (λ found. found.second.partitions ≡ Y.edges second.now) }
    ensures second_members { IfOk result (λ found. found.second.seats ≡ Y.members second.now) }
    ensures prefixes { IfOk result (λ found. ArePrefixes (X.announced first.now) (Y.announced second.now) found.prefixes.items) }
{
    let here = network_of(alloc, first)?;
    let there = network_of(alloc, second)?;
    let prefixes = prefixes_of(alloc, first, second)?;
    Ok(Comparison {
        first: here,
        second: there,
        prefixes,
    })
}

/// The least routers of the partitions that have a router of the roster, in order, each once.
pub fn leasts_of(alloc: Global, network: &Network) -> Result<Vec<RouterId>, NoMemory>
    ensures rising { IfOk result (λ leasts. IsStrictlyIncreasing leasts.items) }
    ensures exact { IfOk result (λ leasts. AreLeastOfRoster network.now.partitions network.now.seats leasts.items) }
{
    let mut leasts = least_of_each(alloc, network)?;
    sort(&mut leasts);
    Ok(leasts)
}

/// The least router of the partition of each router of the roster.
fn least_of_each(alloc: Global, network: &Network) -> Result<Vec<RouterId>, NoMemory>
    ensures { IfOk result (λ leasts. AreLeastOfRoster network.now.partitions network.now.seats leasts.items) }
{
    let mut leasts = Vec::new(alloc);
    for member in network.seats.members() {
        leasts.push(network.partitions.least(member.router))?;
    }
    Ok(leasts)
}

/// Sorts routers, and leaves each once.
fn sort(routers: &mut Vec<RouterId>)
    ensures rising { IsStrictlyIncreasing routers.new.items }
    ensures kept { (router : ℕ) → Contains routers.old.items router → Contains routers.new.items router }
    ensures no_other { (router : ℕ) → Contains routers.new.items router → Contains routers.old.items router }
{
    routers.sort_unstable();
    routers.dedup();
}
