//! Prefixes that are made pending.

ghost use Rattle.std.specs.Prelude.{◌≡◌, ℕ, ◌<◌, ◌==◌, true, length, IsSome};
ghost use Rattle.std.specs.FinSet as set_of;
ghost use Rattle.rcp_base.specs.IpPrefix.{IpPrefix};
ghost use Rattle.rcp_model.specs.RouteServer.{cost_differs};
ghost use Rattle.rcp_model.specs.ServerRibs.{prefixes_of};
ghost use Rattle.pending_marks.specs.Marks.{is_opened};
ghost use Rattle.adj_ribs.specs.Bases.{announced_at};
ghost use Rattle.rcs_shard.specs.Settling.{AreSeated};
ghost use Rattle.rcs_shard.specs.Slots.{flag_at};
ghost use Rattle.rcs_shard.specs.Following.{AreMoved};

use adj_ribs::AdjRibs;
use cost_rows::View;
use pending_marks::PendingMarks;
use rcp_base::Slot;
use rcp_model::Costs;

/// Marks the prefixes that a slot announces. It goes over these alone.
pub fn mark_of(ribs: &AdjRibs, pending: &mut PendingMarks, slot: Slot)
    requires { (e : ℕ) (p : IpPrefix) → IsSome (announced_at ribs.now e p) → is_opened pending.old p ≡ true }
    ensures { pending.new ≡ record pending.old { marked = set_of.union pending.old.marked (prefixes_of (λ e. e == slot) ribs.now.announced) } }
{
    let mut after = None;
    while let Some(p) = ribs.next_of(slot, after) {
        pending.mark(p);
        after = Some(p);
    }
}

/// Marks the prefixes that some slot announces.
pub fn mark_all(ribs: &AdjRibs, pending: &mut PendingMarks)
    requires opened { (e : ℕ) (p : IpPrefix) → IsSome (announced_at ribs.now e p) → is_opened pending.old p ≡ true }
    requires seated { AreSeated ribs.now ribs.now.members }
    ensures { pending.new ≡ record pending.old { marked = set_of.union pending.old.marked (prefixes_of (λ e. true) ribs.now.announced) } }
{
    for slot in 0..ribs.members() {
        mark_of(ribs, pending, Slot(slot));
    }
}

/// Marks the prefixes of the flagged slots that announce.
pub fn mark_flagged(ribs: &AdjRibs, pending: &mut PendingMarks, flags: &[bool])
    requires opened { (e : ℕ) (p : IpPrefix) → IsSome (announced_at ribs.now e p) → is_opened pending.old p ≡ true }
    requires seated { AreSeated ribs.now ribs.now.members }
    ensures { pending.new ≡ record pending.old { marked = set_of.union pending.old.marked (prefixes_of (flag_at flags.now) ribs.now.announced) } }
{
    for slot in 0..ribs.members() {
        if is_flagged(flags, Slot(slot)) {
            mark_of(ribs, pending, Slot(slot));
        }
    }
}

/// Whether a slot is flagged.
fn is_flagged(flags: &[bool], slot: Slot) -> bool
    ensures { result ≡ flag_at flags.now slot }
{
    match flags.get(slot.0 as usize) {
        Some(flag) => *flag,
        None => false,
    }
}

/// Flags the slots to which the cost from some slot differs in two views of the same members.
///
/// It compares the costs between all members.
pub fn moved_slots(before: &View, now: &View) -> [bool; 512]
    requires { now.now.members ≡ before.now.members }
    ensures { AreMoved before.now.edges now.now.edges before.now.members result }
{
    let mut moved = [false; 512];
    for slot in 0..before.members().len() {
        moved[slot] = is_moved(before, now, Slot(slot as u16));
    }
    moved
}

/// Whether the cost from some slot to this one differs in two views of the same members.
fn is_moved(before: &View, now: &View, to: Slot) -> bool
    requires { now.now.members ≡ before.now.members }
    ensures { result ≡ cost_differs before.now.edges now.now.edges before.now.members to (length before.now.members) }
{
    for from in 0..before.members().len() {
        let from = Slot(from as u16);
        if before.cost(from, to) != now.cost(from, to) {
            return true;
        }
    }
    false
}
