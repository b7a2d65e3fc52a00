//! The candidates for a prefix, and those of them that are tied.

ghost use Rattle.std.specs.Prelude.{◌≡◌, ◌≢◌, ℕ, ◌<◌, ◌≤◌, ◌↔◌, ◌&&◌, length, take, All, AllPairs, Contains, IsTrue, is_some};
ghost use Rattle.rcp_model.specs.Routes.{is_usable};
ghost use Rattle.rcp_model.specs.RouteServer.{slot_cost};
ghost use Rattle.rcp_model.specs.Decision.{Contender, tied};
ghost use Rattle.cost_rows.specs.Views.{identifier_at};
ghost use Rattle.egress_rank.specs.Egresses.{IsMarked};
ghost use Rattle.rcs_shard.specs.Settling.{candidates_at, AreSeated, IsKept};

use adj_ribs::{AdjRibs, Announcer};
use cost_rows::View;
use decision::Candidate;
use egress_rank::Marks;
use rcp_base::{Addr, Prefix, Slot};
use rcp_model::{Costs, Route};

/// Lists the candidates of a slot for a prefix, keeps the announcer of each by its slot, and answers how many there are. There
/// is room for each member.
pub fn list_candidates(
    ribs: &AdjRibs,
    view: &View,
    p: Prefix,
    slot: Slot,
    list: &mut [Candidate],
    from: &mut [Option<Announcer>],
) -> usize
    requires seated { AreSeated ribs.now (length view.now.members) }
    requires room { length list.old ≡ length view.now.members }
    requires places { length from.old ≡ length view.now.members }
    ensures count { result ≤ length list.new }
    ensures listed { (a : Contender) → Contains (take result list.new) a ↔ Contains (candidates_at ribs.now view.now p slot) a }
    ensures kept { (a : Contender) → Contains (take result list.new) a → IsKept ribs.now p from.new a.slot }
    ensures distinct { AllPairs (λ a b. a.slot ≢ b.slot) (take result list.new) }
    ensures members { All (λ a. a.slot < length view.now.members) (take result list.new) }
{
    let mut count = 0;
    for announcer in ribs.announcers(p) {
        let egress = announcer.slot();
        let route = ribs.route(announcer.route());
        if is_candidate(view, slot, egress, route) {
            list[count] = Candidate::of(egress, identifier_of(view, egress), route);
            from[egress.0 as usize] = Some(*announcer);
            count += 1;
        }
    }
    count
}

/// Whether the route of a router takes part in the decision of a slot: it is usable, and the router is reached (RFC 4271 section
/// 9.1.2).
fn is_candidate(view: &View, slot: Slot, egress: Slot, route: &Route) -> bool
    ensures { result ≡ (is_usable route.now && is_some (slot_cost view.now.edges view.now.members slot egress)) }
{
    !route.looped && !route.long && view.cost(slot, egress).is_some()
}

/// The BGP Identifier of a member.
fn identifier_of(view: &View, slot: Slot) -> Addr
    requires { slot < length view.now.members }
    ensures { result ≡ identifier_at view.now.members slot }
{
    view.members()[slot.0 as usize].bgp_id
}

/// Lists the slots of the tied candidates (RFC 4271 sections 9.1.1 and 9.1.2.2 a to c), and answers how many there are. The
/// candidates are of distinct members. For N of them it takes about N log N steps, and one for each member.
pub fn list_tied(list: &[Candidate], marks: &mut Marks, slots: &mut [Slot]) -> usize
    requires distinct { AllPairs (λ a b. a.slot ≢ b.slot) list.now }
    requires members { All (λ a. a.slot < length marks.old) list.now }
    requires room { length list.now ≤ length slots.old }
    ensures count { result ≤ length slots.new }
    ensures tied { (e : ℕ) → Contains (take result slots.new) e ↔ ((a : Contender) × Contains (tied list.now) a × (a.slot ≡ e)) }
    ensures marks { length marks.new ≡ length marks.old }
{
    marks.set(list);
    list_marked(list, marks.as_slice(), slots)
}

/// Lists the slots of the candidates that are marked, and answers how many there are.
fn list_marked(list: &[Candidate], marks: &[bool], slots: &mut [Slot]) -> usize
    requires members { All (λ a. a.slot < length marks.now) list.now }
    requires room { length list.now ≤ length slots.old }
    ensures count { result ≤ length slots.new }
    ensures marked { (e : ℕ) → Contains (take result slots.new) e ↔ ((a : Contender) × Contains list.now a × IsMarked marks.now a.slot × (a.slot ≡ e)) }
{
    let mut count = 0;
    for candidate in list {
        if is_marked(marks, candidate.slot) {
            slots[count] = candidate.slot;
            count += 1;
        }
    }
    count
}

/// Whether the slot of a member is marked.
fn is_marked(marks: &[bool], slot: Slot) -> bool
    requires { slot < length marks.now }
    ensures { IsTrue result ↔ IsMarked marks.now slot }
{
    marks[slot.0 as usize]
}
