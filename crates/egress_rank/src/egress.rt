//! The egress of a slot among tied ones.

ghost use Rattle.std.specs.Prelude.{◌≡◌, ◌<◌, ◌↔◌, length, Contains, IsTrue, MatchOption, if◌then◌else◌, ◌==◌, ◌||◌, ◌&&◌, nat_lt};
ghost use Rattle.rcp_model.specs.RouteServer.{slot_cost};
ghost use Rattle.egress_rank.specs.Egresses.{IsMarked, IsEgress, nearer_pair};

use cost_rows::View;
use rcp_base::{Addr, Slot};
use rcp_model::Costs;

/// The egress of a slot among the marked ones: the slot itself where it is marked, else the first marked one of its ranking
/// (RFC 4271 section 9.1.2.2 d to f). None where no marked slot is reached. There is one mark for each member.
///
/// It goes down the ranking to that slot.
pub fn first_in(view: &View, slot: Slot, tied: &[bool]) -> Option<Slot>
    requires { length tied.now ≡ length view.now.members }
    ensures { IsEgress view.now.members (slot_cost view.now.edges view.now.members slot) slot (IsMarked tied.now) result }
{
    if is_marked(tied, slot) {
        return Some(slot);
    }
    for egress in view.ranked(slot) {
        if is_marked(tied, *egress) {
            return Some(*egress);
        }
    }
    None
}

/// Whether a slot is marked.
fn is_marked(tied: &[bool], slot: Slot) -> bool
    ensures { IsTrue result ↔ IsMarked tied.now slot }
{
    match tied.get(slot.0 as usize) {
        Some(marked) => *marked,
        None => false,
    }
}

/// A tied slot that is reached, with what the last steps compare.
#[derive(Clone, Copy)]
struct Reached {
    slot: Slot,
    cost: u32,
    id: Addr,
}

impl Reached {
    /// The lowest interior cost (RFC 4271 section 9.1.2.2 e), then the lowest BGP Identifier (f).
    fn is_nearer(&self, other: &Reached) -> bool
        ensures { result ≡ nearer_pair self.now.cost self.now.id other.now.cost other.now.id }
    {
        self.cost < other.cost || self.cost == other.cost && self.id < other.id
    }
}

/// The nearer of the best so far and a further one.
fn nearer_of(best: Option<Reached>, further: Reached) -> Reached
    ensures { MatchOption best (result ≡ further) (λ best. result
        ≡ (if nearer_pair further.cost further.id best.cost best.id then further else best)) }
{
    match best {
        Some(best) if !further.is_nearer(&best) => best,
        _ => further,
    }
}

/// The egress of a slot among those of a list: the slot itself where it is one of them, else the nearest by cost and then by BGP
/// Identifier (RFC 4271 section 9.1.2.2 d to f). None where none of them is reached.
///
/// It asks for the cost of each.
pub fn nearest_in(view: &View, slot: Slot, tied: &[Slot]) -> Option<Slot>
    ensures { IsEgress view.now.members (slot_cost view.now.edges view.now.members slot) slot (Contains tied.now) result }
{
    let members = view.members();
    let mut nearest: Option<Reached> = None;
    for egress in tied {
        if *egress == slot {
            return Some(slot);
        }
        let Some(cost) = view.cost(slot, *egress) else {
            continue;
        };
        let id = members[egress.0 as usize].bgp_id;
        let further = Reached {
            slot: *egress,
            cost,
            id,
        };
        nearest = Some(nearer_of(nearest, further));
    }
    Some(nearest?.slot)
}
