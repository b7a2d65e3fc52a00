//! The comparison of two platforms, partition by partition.

ghost use Rattle.std.specs.Prelude.{◌≡◌, ℕ, Contains, IfOk, MatchOption, option_and_then};
ghost use Rattle.std.specs.List.Sorted.{IsStrictlyIncreasing};
ghost use Rattle.rcp_base.specs.IpPrefix.{IpPrefix};
ghost use Rattle.rcp_model.specs.Costs.{is_reached};
ghost use Rattle.replica_law.specs.Replicas.{replica_of, slot_of, AreAnswers, IsAlike, IsFirstDifference};
ghost use Rattle.replica_law.specs.Steps.{IsLeastIn, ArePrefixes, IsMemberDifference, IsNetworkDifference, IsRouteDifference, HaveSameIdentifiers, HaveSameLinks};

use crate::difference::{Difference, PartitionAnswer};
use crate::network::{Comparison, Network, comparison_of, leasts_of};
use crate::partition_differences::{first_identity, first_link, first_member, is_with, least_link};
use crate::partitions::Partitions;
use crate::routes::{copy_of, first_route, octets_of};
use rcp_base::{NoMemory, RouterId};
use rcp_model::Assigned;
use std::alloc::Global;

/// The first difference of two networks at some routers, which rise: of BGP Identifiers, or else of edges.
fn network_difference(first: &Network, second: &Network, routers: &[RouterId]) -> Option<Difference>
    requires { IsStrictlyIncreasing routers.now }
    ensures { MatchOption result
        (HaveSameIdentifiers first.now.seats second.now.seats routers.now × HaveSameLinks first.now.partitions second.now.partitions routers.now)
        (IsNetworkDifference first.now.seats second.now.seats first.now.partitions second.now.partitions routers.now) }
{
    if let Some(router) = first_identity(&first.seats, &second.seats, routers) {
        return Some(Difference::Identity {
            router,
            first: first.seats.identifier(router),
            second: second.seats.identifier(router),
        });
    }
    let (here, there) = (first.partitions.graph(), second.partitions.graph());
    let (from, to) = first_link(here, there, routers)?;
    Some(Difference::LinkCost {
        from,
        to,
        first: least_link(here, from, to),
        second: least_link(there, from, to),
    })
}

/// The first router that is in a partition in one network alone, of which this is the least router in the first.
fn member_difference(first: &Partitions, second: &Partitions, least: RouterId) -> Option<Difference>
    requires { IsLeastIn first.now least least }
    ensures { MatchOption result ((u : ℕ) → is_reached first.now least u ≡ is_reached second.now least u) (IsMemberDifference first.now second.now least) }
{
    let router = first_member(first, second, least)?;
    Some(Difference::Member {
        router,
        first: is_with(first, least, router),
        second: is_with(second, least, router),
    })
}

/// The first route that differs.
fn route_difference<X: Assigned, Y: Assigned>(
    alloc: Global,
    first: &X,
    second: &Y,
    found: &Comparison,
    routers: &[RouterId],
) -> Result<Option<Difference>, NoMemory>
    requires here { found.now.first.seats ≡ X.members first.now }
    requires there { found.now.second.seats ≡ Y.members second.now }
    requires prefixes { ArePrefixes (X.announced first.now) (Y.announced second.now) found.now.prefixes.items }
    requires rising { IsStrictlyIncreasing routers.now }
    ensures { IfOk result (λ difference. MatchOption difference
        ((u : ℕ) (p : IpPrefix) → Contains routers.now u → option_and_then (X.announced first.now p) (slot_of (X.members first.now) u) ≡ option_and_then (Y.announced second.now p) (slot_of (Y.members second.now) u))
        (IsRouteDifference (λ u p. option_and_then (X.announced first.now p) (slot_of (X.members first.now) u)) (λ u p. option_and_then (Y.announced second.now p) (slot_of (Y.members second.now) u)) routers.now)) }
{
    let Some((router, prefix)) = first_route(first, second, found, routers) else {
        return Ok(None);
    };
    let here = octets_of(first, &found.first.seats, router, prefix);
    let there = octets_of(second, &found.second.seats, router, prefix);
    Ok(Some(Difference::RouteOf {
        router,
        prefix,
        first: copy_of(alloc, here)?,
        second: copy_of(alloc, there)?,
    }))
}

/// The first difference at a partition of which this is the least router in the first platform.
fn difference_at<X: Assigned, Y: Assigned>(
    alloc: Global,
    first: &X,
    second: &Y,
    found: &Comparison,
    least: RouterId,
) -> Result<Option<Difference>, NoMemory>
    requires first_edges { found.now.first.partitions ≡ X.edges first.now }
    requires first_members { found.now.first.seats ≡ X.members first.now }
    requires second_edges { found.now.second.partitions ≡ Y.edges second.now }
    requires second_members { found.now.second.seats ≡ Y.members second.now }
    requires prefixes { ArePrefixes (X.announced first.now) (Y.announced second.now) found.now.prefixes.items }
    requires least { IsLeastIn (X.edges first.now) least least }
    ensures { IfOk result (λ difference. MatchOption difference
        (IsAlike (replica_of (X.as_number first.now) (X.members first.now) (X.edges first.now) (X.connected first.now) (X.announced first.now) (X.given first.now) (X.pending first.now))
        (replica_of (Y.as_number second.now) (Y.members second.now) (Y.edges second.now) (Y.connected second.now) (Y.announced second.now) (Y.given second.now) (Y.pending second.now)) least)
        (IsFirstDifference (replica_of (X.as_number first.now) (X.members first.now) (X.edges first.now) (X.connected first.now) (X.announced first.now) (X.given first.now) (X.pending first.now))
        (replica_of (Y.as_number second.now) (Y.members second.now) (Y.edges second.now) (Y.connected second.now) (Y.announced second.now) (Y.given second.now) (Y.pending second.now)) least)) }
{
    let (here, there) = (first.as_number(), second.as_number());
    if here != there {
        return Ok(Some(Difference::As {
            first: here,
            second: there,
        }));
    }
    let (here, there) = (&found.first, &found.second);
    if let Some(moved) = member_difference(&here.partitions, &there.partitions, least) {
        return Ok(Some(moved));
    }
    let routers = here.partitions.routers(alloc, least)?;
    if let Some(other) = network_difference(here, there, routers.as_slice()) {
        return Ok(Some(other));
    }
    let other = route_difference(alloc, first, second, found, routers.as_slice())?;
    Ok(other)
}

/// Where the replicas are alike, partition by partition: an answer for each partition of the first that has a router of its
/// roster, by rising least router. It names the first difference of the partition in the two: of AS, routers, BGP Identifiers, edges
/// or announced routes. A partition without one has the same inputs in both, and so each of its routers that is connected in
/// both was given the same octets, or none, for each prefix that is pending in neither.
///
/// `NoMemory` comes where there was no room for the networks, the prefixes or the answers. It takes one search over each
/// network, two look-ups for each edge of it, and two for each router and each prefix that is announced.
pub fn agree<X: Assigned, Y: Assigned>(
    alloc: Global,
    first: &X,
    second: &Y,
) -> Result<Vec<PartitionAnswer>, NoMemory>
    ensures { IfOk result (λ answers. AreAnswers
        (replica_of (X.as_number first.now) (X.members first.now) (X.edges first.now) (X.connected first.now) (X.announced first.now) (X.given first.now) (X.pending first.now))
        (replica_of (Y.as_number second.now) (Y.members second.now) (Y.edges second.now) (Y.connected second.now) (Y.announced second.now) (Y.given second.now) (Y.pending second.now))
        answers.items) }
{
    let _first_law = first.members();
    let _second_law = second.members();
    let found = comparison_of(alloc, first, second)?;
    let leasts = leasts_of(alloc, &found.first)?;
    let mut answers = Vec::new(alloc);
    for least in leasts.as_slice() {
        let difference = difference_at(alloc, first, second, &found, *least)?;
        answers.push(PartitionAnswer {
            least: *least,
            difference,
        })?;
    }
    Ok(answers)
}
