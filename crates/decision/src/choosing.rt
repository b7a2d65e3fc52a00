//! The choice: what the filters leave, and the steps that break a tie.

ghost use Rattle.std.specs.Prelude.{◌≡◌, ◌<◌, ◌↔◌, length, slice_get, Contains, IsTrue, IsNone, IfNone, IfSome, IsSomeAnd, [], if◌then◌else◌};
ghost use Rattle.std.specs.List.{list_any};
ghost use Rattle.rcp_model.specs.RouteServer.{slot_cost};
ghost use Rattle.rcp_model.specs.Decision.{goes_before, is_lower_pair, is_of, tied, choice};

use crate::candidate::Candidate;
use crate::steps::goes_before;
use rcp_base::{Addr, Slot};
use rcp_model::Costs;

/// Whether some candidate of a list goes before this one by the filters.
fn is_beaten(list: &[Candidate], candidate: &Candidate) -> bool
    ensures { result ≡ list_any (λ other. goes_before other candidate.now) list.now }
{
    list.iter().any(|other| goes_before(other, candidate))
}

/// Whether the candidate at a place of the list is tied: one of those that the four filters leave of it (RFC 4271
/// sections 9.1.1 and 9.1.2.2 a to c). One pass over the list.
pub fn in_tied(list: &[Candidate], place: usize) -> bool
    requires { place < length list.now }
    ensures { IsSomeAnd (slice_get list.now place) (λ a. IsTrue result ↔ Contains (tied list.now) a) }
{
    !is_beaten(list, &list[place])
}

/// The router's own route, learned from outside, goes before those that it hears from inside (RFC 4271 section 9.1.2.2 d).
fn is_own(slot: Slot, candidate: &Candidate) -> bool
    ensures { result ≡ is_of slot candidate.now }
{
    candidate.slot == slot
}

/// A tied candidate's router, with what the last steps compare.
#[derive(Clone, Copy)]
struct Rival {
    slot: Slot,
    id: Addr,
    cost: Option<u32>,
}

impl Rival {
    /// The lowest interior cost (section 9.1.2.2 e), then the lowest BGP Identifier (f). A router that isn't
    /// reached comes last.
    fn is_nearer(&self, other: &Rival) -> bool
        ensures { result ≡ is_lower_pair self.now.cost self.now.id other.now.cost other.now.id }
    {
        match (self.cost, other.cost) {
            (Some(cost), Some(other_cost)) => {
                cost < other_cost || cost == other_cost && self.id < other.id
            }
            (Some(_), None) => true,
            (None, _) => false,
        }
    }
}

/// The nearer of the best so far and a further one, which has to be nearer to take its place.
fn nearer_of(best: Option<Rival>, rival: Rival) -> Rival
    ensures first { IfNone best (result ≡ rival) }
    ensures second { IfSome best (λ best. result
        ≡ (if is_lower_pair rival.cost rival.id best.cost best.id then rival else best)) }
{
    match best {
        Some(best) if !rival.is_nearer(&best) => best,
        _ => rival,
    }
}

/// The choice of the router at `slot` among candidates, by the interior costs from it (RFC 4271 section 9.1).
///
/// `None` exactly where the list is empty. Where identifiers are distinct and each candidate is reached, the answer
/// doesn't depend on the order of the list. For N candidates it takes N passes over the list, and asks for at most N
/// costs.
pub fn choose<V: Costs>(slot: Slot, list: &[Candidate], view: &V) -> Option<Slot>
    ensures chosen { result ≡ choice slot (slot_cost (V.edges view.now) (V.members view.now) slot) list.now }
    ensures none { IsNone result ↔ (list.now ≡ []) }
{
    let mut nearest: Option<Rival> = None;
    for candidate in list {
        if is_beaten(list, candidate) {
            continue;
        }
        if is_own(slot, candidate) {
            return Some(slot);
        }
        let rival = Rival {
            slot: candidate.slot,
            id: candidate.id,
            cost: view.cost(slot, candidate.slot),
        };
        nearest = Some(nearer_of(nearest, rival));
    }
    Some(nearest?.slot)
}
