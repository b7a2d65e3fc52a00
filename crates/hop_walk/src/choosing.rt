//! The router that asks, and what it chooses among.

ghost use Rattle.std.specs.Prelude.{◌≡◌, ◌<◌, true, ℕ, length, slice_get, option_map, IfOk, IfSome, IsNone, Some};
ghost use Rattle.rcp_model.specs.Routes.{is_usable};
ghost use Rattle.rcp_model.specs.RouteServer.{router_at, slot_cost, announcement_contender, candidates};

use decision::Candidate;
use rcp_base::{NoMemory, Prefix, RouterId, Slot};
use rcp_model::{Assigned, Route};
use std::alloc::Global;

/// The slot of a router, if it is in the roster and connected.
pub fn connected_slot<X: Assigned>(platform: &X, router: RouterId) -> Option<Slot>
    ensures found { IfSome result (λ slot. (slot < length (X.members platform.now))
        × (router_at (X.members platform.now) slot ≡ Some router) × (X.connected platform.now slot ≡ true)) }
    ensures none { IsNone result → (slot : ℕ) → router_at (X.members platform.now) slot ≡ Some router
        → X.connected platform.now slot ≡ true → ⊥ }
{
    for place in 0..platform.members() {
        let slot = Slot(place);
        if platform.connected(slot) && platform.router(slot) == router {
            return Some(slot);
        }
    }
    None
}

/// Whether the route may be chosen: it has no loop (RFC 4271 section 9.1.2), and a message has room for it.
fn is_usable(route: &Route) -> bool
    ensures { result ≡ is_usable route.now }
{
    !route.looped && !route.long
}

/// The candidate that a member is to another one, if it announced a usable route for the prefix and is reached.
fn candidate_at<X: Assigned>(
    platform: &X,
    from: Slot,
    slot: Slot,
    prefix: Prefix,
) -> Option<Candidate>
    requires { slot < length (X.members platform.now) }
    ensures { (id : ℕ) → option_map (λ member. member.bgp_id) (slice_get (X.members platform.now) slot) ≡ Some id
        → result ≡ announcement_contender (record { as_number = X.as_number platform.now; members = X.members platform.now }) slot id
        (X.announced platform.now prefix slot) (slot_cost (X.edges platform.now) (X.members platform.now) from slot) }
{
    let route = platform.announcement(slot, prefix)?;
    let _cost = platform.cost(from, slot)?;
    if !is_usable(route) {
        return None;
    }
    Some(Candidate::of(slot, platform.bgp_id(slot), route))
}

/// The members that are reached and announced a usable route for the prefix, in roster order.
pub fn candidates<X: Assigned>(
    alloc: Global,
    platform: &X,
    from: Slot,
    prefix: Prefix,
) -> Result<Vec<Candidate>, NoMemory>
    ensures { IfOk result (λ list. list.items
        ≡ candidates (record { as_number = X.as_number platform.now; members = X.members platform.now })
        (X.announced platform.now prefix) (X.edges platform.now) from) }
{
    let mut list = Vec::new(alloc);
    for place in 0..platform.members() {
        if let Some(candidate) = candidate_at(platform, from, Slot(place), prefix) {
            list.push(candidate)?;
        }
    }
    Ok(list)
}
