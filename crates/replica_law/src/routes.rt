//! The first difference of two platforms in what the routers of a partition announced.

ghost use Rattle.std.specs.Prelude.{◌≡◌, ℕ, not, Contains, IfOk, IfSome, MatchOption, option_map, option_and_then};
ghost use Rattle.std.specs.List.Sorted.{IsStrictlyIncreasing};
ghost use Rattle.rcp_base.specs.IpPrefix.{IpPrefix, IsPrefix};
ghost use Rattle.rcp_model.specs.Assigned.{IsLeast, IsAfter};
ghost use Rattle.rcp_model.specs.RouteServer.{same_octets};
ghost use Rattle.replica_law.specs.Replicas.{slot_of};
ghost use Rattle.replica_law.specs.Steps.{lower_prefix, IsAnnouncedIn, ArePrefixes, IsFirstPrefix, IsFirstRoute};

use crate::network::Comparison;
use crate::seats::Seats;
use rcp_base::{NoMemory, Prefix, RouterId};
use rcp_model::{Assigned, Octets};
use std::alloc::Global;

/// The lower one of two prefixes.
fn lower(a: Option<Prefix>, b: Option<Prefix>) -> Option<Prefix>
    ensures { result ≡ lower_prefix a b }
{
    match (a, b) {
        (Some(a), Some(b)) => Some(if b < a { b } else { a }),
        (Some(a), None) => Some(a),
        (None, b) => b,
    }
}

/// The least prefix after a given one that is announced in either platform.
fn next_of<X: Assigned, Y: Assigned>(
    first: &X,
    second: &Y,
    after: &Option<Prefix>,
) -> Option<Prefix>
    ensures least { IsLeast (λ p. IsAfter after.now p × IsAnnouncedIn (X.announced first.now) (Y.announced second.now) p) result }
    ensures in_form { IfSome result IsPrefix }
{
    let here = first.next_prefix(*after);
    let there = second.next_prefix(*after);
    let next = lower(here, there)?;
    let _in_form = next.len();
    Some(next)
}

/// The prefixes that are announced in either platform, in order, each once.
pub fn prefixes_of<X: Assigned, Y: Assigned>(
    alloc: Global,
    first: &X,
    second: &Y,
) -> Result<Vec<Prefix>, NoMemory>
    ensures { IfOk result (λ prefixes. ArePrefixes (X.announced first.now) (Y.announced second.now) prefixes.items) }
{
    let mut prefixes = Vec::new(alloc);
    let mut last = None;
    while let Some(next) = next_of(first, second, &last) {
        prefixes.push(next)?;
        last = Some(next);
    }
    Ok(prefixes)
}

/// The octets that a router announced for a prefix, if it is in the roster and did.
pub fn octets_of<'a, X: Assigned>(
    platform: &'a X,
    seats: &Seats,
    router: RouterId,
    prefix: Prefix,
) -> Option<&'a [u8]>
    requires { seats.now ≡ X.members platform.now }
    ensures { option_map (λ octets. octets.now) result ≡ option_and_then (X.announced platform.now prefix) (slot_of (X.members platform.now) router) }
{
    let slot = seats.slot(router)?;
    let route = platform.announcement(slot, prefix)?;
    Some(route.octets())
}

/// Whether there are octets in one alone, or others in both.
fn differ(a: Option<&[u8]>, b: Option<&[u8]>) -> bool
    ensures { result ≡ not (same_octets (option_map (λ octets. octets.now) a.entry) (option_map (λ octets. octets.now) b.entry)) }
{
    match (a, b) {
        (Some(a), Some(b)) => a != b,
        (None, None) => false,
        _ => true,
    }
}

/// Whether a router announced other octets for a prefix.
fn is_rerouted<X: Assigned, Y: Assigned>(
    first: &X,
    second: &Y,
    found: &Comparison,
    router: RouterId,
    prefix: Prefix,
) -> bool
    requires here { found.now.first.seats ≡ X.members first.now }
    requires there { found.now.second.seats ≡ Y.members second.now }
    ensures { result ≡ not (same_octets (option_and_then (X.announced first.now prefix) (slot_of (X.members first.now) router)) (option_and_then (Y.announced second.now prefix) (slot_of (Y.members second.now) router))) }
{
    let here = octets_of(first, &found.first.seats, router, prefix);
    let there = octets_of(second, &found.second.seats, router, prefix);
    differ(here, there)
}

/// The first prefix for which a router announced other octets.
fn first_prefix<X: Assigned, Y: Assigned>(
    first: &X,
    second: &Y,
    found: &Comparison,
    router: RouterId,
) -> Option<Prefix>
    requires here { found.now.first.seats ≡ X.members first.now }
    requires there { found.now.second.seats ≡ Y.members second.now }
    requires prefixes { ArePrefixes (X.announced first.now) (Y.announced second.now) found.now.prefixes.items }
    ensures { MatchOption result
        ((p : IpPrefix) → option_and_then (X.announced first.now p) (slot_of (X.members first.now) router) ≡ option_and_then (Y.announced second.now p) (slot_of (Y.members second.now) router))
        (IsFirstPrefix (λ p. option_and_then (X.announced first.now p) (slot_of (X.members first.now) router)) (λ p. option_and_then (Y.announced second.now p) (slot_of (Y.members second.now) router))) }
{
    for prefix in found.prefixes.as_slice() {
        if is_rerouted(first, second, found, router, *prefix) {
            return Some(*prefix);
        }
    }
    None
}

/// The first route of some routers that differs: by the router, then by the prefix. It takes two look-ups for each router and
/// prefix.
pub fn first_route<X: Assigned, Y: Assigned>(
    first: &X,
    second: &Y,
    found: &Comparison,
    routers: &[RouterId],
) -> Option<(RouterId, Prefix)>
    requires here { found.now.first.seats ≡ X.members first.now }
    requires there { found.now.second.seats ≡ Y.members second.now }
    requires prefixes { ArePrefixes (X.announced first.now) (Y.announced second.now) found.now.prefixes.items }
    requires rising { IsStrictlyIncreasing routers.now }
    ensures { MatchOption result
        ((u : ℕ) (p : IpPrefix) → Contains routers.now u → option_and_then (X.announced first.now p) (slot_of (X.members first.now) u) ≡ option_and_then (Y.announced second.now p) (slot_of (Y.members second.now) u))
        (λ route. IsFirstRoute (λ u p. option_and_then (X.announced first.now p) (slot_of (X.members first.now) u)) (λ u p. option_and_then (Y.announced second.now p) (slot_of (Y.members second.now) u)) routers.now route.0 route.1) }
{
    for router in routers {
        if let Some(prefix) = first_prefix(first, second, found, *router) {
            return Some((*router, prefix));
        }
    }
    None
}

/// A copy of octets, if there are some.
pub fn copy_of(alloc: Global, octets: Option<&[u8]>) -> Result<Option<Octets>, NoMemory>
    ensures { IfOk result (λ copied. copied ≡ option_map (λ found. found.now) octets.entry) }
{
    match octets {
        Some(octets) => Ok(Some(Octets::from_slice(alloc, octets)?)),
        None => Ok(None),
    }
}
