//! The decision for a prefix: the cell of each connected slot.

ghost use Rattle.std.specs.Prelude.{◌≡◌, ℕ, ◌<◌, ◌==◌, ◌&&◌, true, length, Contains, IfSome, nat_lt};
ghost use Rattle.egress_rank.specs.Egresses.{AreTiedOf};
ghost use Rattle.adj_ribs.specs.Bases.{is_opened};
ghost use Rattle.rcs_shard.specs.Slots.{has_slot};
ghost use Rattle.rcs_shard.specs.Settling.{candidates_at, offers_at, AreSeated, IsKept, AreClasses, is_in_class, Settles, chosen_from};

use crate::candidates::{list_candidates, list_tied};
use crate::slots::SlotSet;
use adj_ribs::{AdjRibs, Announcer};
use cost_rows::View;
use decision::Candidate;
use egress_rank::{Marks, nearest_in};
use rcp_base::{Prefix, Slot};

/// Gives each connected slot what it is offered at a prefix.
pub fn settle(
    ribs: &mut AdjRibs,
    view: &View,
    connected: &SlotSet,
    classes: &[Slot],
    p: Prefix,
    list: &mut [Candidate],
    from: &mut [Option<Announcer>],
    marks: &mut Marks,
    slots: &mut [Slot],
)
    requires members { ribs.old.members ≡ length view.now.members }
    requires seated { AreSeated ribs.old (length view.now.members) }
    requires opened { is_opened ribs.old p ≡ true }
    requires classes { AreClasses view.now classes.now }
    requires list { length list.old ≡ length view.now.members }
    requires from { length from.old ≡ length view.now.members }
    requires marks { length marks.old ≡ length view.now.members }
    requires slots { length slots.old ≡ length view.now.members }
    ensures settled { Settles p (offers_at ribs.old view.now p) (λ s. nat_lt s (length view.now.members) && has_slot connected.now s) ribs.old ribs.new }
    ensures marks { length marks.new ≡ length marks.old }
{
    for class in 0..view.members().len() {
        if classes[class] == Slot(class as u16) {
            settle_class(
                ribs,
                view,
                connected,
                classes,
                Slot(class as u16),
                p,
                list,
                from,
                marks,
                slots,
            );
        }
    }
}

/// Gives each connected slot of a class what it is offered at a prefix. What is tied is found once for all.
fn settle_class(
    ribs: &mut AdjRibs,
    view: &View,
    connected: &SlotSet,
    classes: &[Slot],
    class: Slot,
    p: Prefix,
    list: &mut [Candidate],
    from: &mut [Option<Announcer>],
    marks: &mut Marks,
    slots: &mut [Slot],
)
    requires members { ribs.old.members ≡ length view.now.members }
    requires seated { AreSeated ribs.old (length view.now.members) }
    requires opened { is_opened ribs.old p ≡ true }
    requires classes { AreClasses view.now classes.now }
    requires list { length list.old ≡ length view.now.members }
    requires from { length from.old ≡ length view.now.members }
    requires marks { length marks.old ≡ length view.now.members }
    requires slots { length slots.old ≡ length view.now.members }
    ensures settled { Settles p (offers_at ribs.old view.now p) (λ s. is_in_class classes.now class s && has_slot connected.now s) ribs.old ribs.new }
    ensures marks { length marks.new ≡ length marks.old }
{
    let count = list_candidates(ribs, view, p, class, list, from);
    let tied = list_tied(&list[..count], marks, slots);
    settle_slots(
        ribs,
        view,
        connected,
        classes,
        class,
        p,
        from,
        &slots[..tied],
    );
}

/// The same where these slots are tied.
fn settle_slots(
    ribs: &mut AdjRibs,
    view: &View,
    connected: &SlotSet,
    classes: &[Slot],
    class: Slot,
    p: Prefix,
    from: &[Option<Announcer>],
    tied: &[Slot],
)
    requires members { ribs.old.members ≡ length view.now.members }
    requires opened { is_opened ribs.old p ≡ true }
    requires classes { AreClasses view.now classes.now }
    requires tied { AreTiedOf (candidates_at ribs.old view.now p class) (Contains tied.now) }
    requires kept { (e : ℕ) → Contains tied.now e → IsKept ribs.old p from.now e }
    ensures { Settles p (offers_at ribs.old view.now p) (λ s. is_in_class classes.now class s && has_slot connected.now s) ribs.old ribs.new }
{
    for slot in 0..view.members().len() {
        if classes[slot] == class && connected.contains(Slot(slot as u16)) {
            settle_cell(ribs, view, p, Slot(slot as u16), from, tied);
        }
    }
}

/// Gives a slot what it is offered at a prefix, where these slots are tied: the route of its egress, unless that is the slot itself.
fn settle_cell(
    ribs: &mut AdjRibs,
    view: &View,
    p: Prefix,
    slot: Slot,
    from: &[Option<Announcer>],
    tied: &[Slot],
)
    requires member { slot < ribs.old.members }
    requires opened { is_opened ribs.old p ≡ true }
    requires tied { AreTiedOf (candidates_at ribs.old view.now p slot) (Contains tied.now) }
    requires kept { (e : ℕ) → Contains tied.now e → IsKept ribs.old p from.now e }
    ensures { Settles p (offers_at ribs.old view.now p) (λ s. s == slot) ribs.old ribs.new }
{
    let chosen = chosen_from(slot, nearest_in(view, slot, tied), from);
    ribs.set_cell(slot, p, chosen);
}

/// The announcer of an egress, unless that is the slot itself.
fn chosen_from(slot: Slot, egress: Option<Slot>, from: &[Option<Announcer>]) -> Option<Announcer>
    requires { IfSome egress (λ e. e < length from.now) }
    ensures { result ≡ chosen_from slot egress from.now }
{
    match egress {
        Some(egress) if egress != slot => from[egress.0 as usize],
        _ => None,
    }
}
