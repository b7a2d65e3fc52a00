//! The shard.

ghost use Rattle.std.specs.Prelude.{◌≡◌, ◌<◌, ◌==◌, ◌≢◌, ◌↔◌, true, false, length, is_some, IsTrue, Some, None, IfOk, OnOk, OnErr, IfSome, MatchOption, option_map};
ghost use Rattle.std.specs.FinSet as set_of;
ghost use Rattle.rcp_base.specs.IpPrefix.{shard_of_prefix};
ghost use Rattle.rcp_model.specs.Graphs.{AreMembers};
ghost use Rattle.rcp_model.specs.Routes.{is_usable};
ghost use Rattle.rcp_model.specs.ServerRibs.{Up, Down, Change, Links, Work, prefixes_of};
ghost use Rattle.rcs_shard.specs.Settling.{AreClasses};
ghost use Rattle.rcs_shard.specs.Following.{AreMoved};
ghost use Rattle.rcs_shard.specs.Shards.{new_shard, is_connected, is_pending, announced_at, given_at, IsLeastPending, IsLeastDirty, IsNextDirty, IsNextAnnounced, IsNextGiven, acted, taken, without_cells_of};

use crate::classes::find_classes;
use crate::marking::{mark_all, mark_flagged, mark_of, moved_slots};
use crate::settling::settle;
use crate::slots::SlotSet;
use adj_ribs::{AdjRibs, Announcer};
use cost_rows::View;
use decision::Candidate;
use egress_rank::Marks;
use pending_marks::PendingMarks;
use rcp_base::{Addr, Member, NoMemory, Prefix, Slot, shard_of};
use rcp_model::Route;
use roster::Roster;
use std::alloc::Global;
use std::marker::Model;
use std::sync::Arc;

/// One shard of the route control server. Contracts see its number and the number of shards, the members, the server of the
/// definitions, and the dirty cells.
#[derive(Drop)]
pub struct Shard {
    number: u16,
    shards: u16,
    view: Arc<View>,
    connected: SlotSet,
    ribs: AdjRibs,
    pending: PendingMarks,
    /// The class of each slot.
    classes: Vec<Slot>,
    /// Places for the candidates, by slot for their announcers and for marks, and for the tied slots.
    list: Vec<Candidate>,
    from: Vec<Option<Announcer>>,
    marks: Marks,
    tied: Vec<Slot>,
}

impl Model for Shard {
    ghost use Rattle.rcs_shard.specs.Shards.{ShardOf, shard_code};

    ghost Value = { ShardOf };

    ghost coded = { shard_code };

    ghost use Rattle.std.specs.Prelude.{length};
    ghost use Rattle.rcs_shard.specs.Joins.{shard_in, IsJoined, ArePlaces};

    ghost view = { λ s. shard_in s.number s.shards s.view.value s.connected s.ribs s.pending };

    ghost invariant = { λ s. IsJoined s.number s.shards s.view.value s.connected s.ribs s.pending × ArePlaces s.view.value s.classes.items (length s.list.items) (length s.from.items) (length s.marks) (length s.tied.items) };
}

impl Shard {
    /// The shard of this number, with this view. No slot is connected and nothing is announced.
    ///
    /// The number is below the roster's number of shards, and the view's members are the roster's, in order. `NoMemory` comes where there was
    /// no room for the places of candidates, of which there is one for each member, or for a set of prefixes for each member.
    pub fn new(
        alloc: Global,
        roster: &Roster,
        number: u16,
        view: Arc<View>,
    ) -> Result<Shard, NoMemory>
        requires number { number < roster.now.shards }
        requires members { view.value.members ≡ roster.now.members }
        ensures { IfOk result (λ shard. shard ≡ new_shard number roster.now.shards roster.now.members view.value.edges) }
    {
        let members = roster.len();
        let count = usize::from(members);
        let mut classes = vec![in alloc; Slot(0); count]?;
        find_classes(&view, &mut classes);
        Ok(Shard {
            number,
            shards: roster.shards(),
            view,
            connected: SlotSet::new(alloc, members)?,
            ribs: AdjRibs::new(alloc, members)?,
            pending: PendingMarks::new(alloc),
            classes,
            list: vec![in alloc; NOBODY; count]?,
            from: vec![in alloc; None; count]?,
            marks: Marks::new(alloc, members)?,
            tied: vec![in alloc; Slot(0); count]?,
        })
    }

    /// The number of the shard.
    pub fn number(&self) -> u16
        ensures { result ≡ self.now.number }
    {
        self.number
    }

    /// The members of the roster, by slot: at most 512, no two of which have one router ID or one BGP Identifier.
    pub fn members(&self) -> &[Member]
        ensures members { result.now ≡ self.now.members }
        ensures distinct { AreMembers self.now.members }
    {
        let view: &View = &self.view;
        view.members()
    }

    /// Whether a prefix is one of this shard's.
    pub fn owns(&self, p: Prefix) -> bool
        ensures { IsTrue result ↔ (shard_of_prefix p self.now.shards ≡ self.now.number) }
    {
        shard_of(p, self.shards) == self.number
    }

    /// The slot is connected from now on, with an empty table. It goes over all announcements. A slot that is connected already keeps what it announces.
    pub fn up(&mut self, slot: Slot)
        requires { slot < length self.old.members }
        ensures { self.new ≡ acted (Up slot) self.old }
    {
        mark_all(&self.ribs, &mut self.pending);
        self.ribs.clear(slot);
        self.connected.insert(slot);
    }

    /// The slot isn't connected any more, and announces nothing. It is connected before. It goes over the slot's announcements and its cells alone.
    pub fn down(&mut self, slot: Slot)
        requires member { slot < length self.old.members }
        requires up { is_connected self.old slot ≡ true }
        ensures { self.new ≡ acted (Down slot) self.old }
    {
        mark_of(&self.ribs, &mut self.pending, slot);
        self.ribs.drop_all(slot);
        self.ribs.clear(slot);
        self.connected.remove(slot);
    }

    /// The slot announces a route for a prefix, in the place of the one before. Answers whether that is another route than before.
    ///
    /// The slot is connected, and the prefix is one of this shard's. `NoMemory` comes where there was no room for the announcement or
    /// for the cells of a new prefix, and leaves the shard as it was.
    pub fn announce(&mut self, slot: Slot, p: Prefix, route: Route) -> Result<bool, NoMemory>
        requires member { slot < length self.old.members }
        requires up { is_connected self.old slot ≡ true }
        requires own { shard_of_prefix p self.old.shards ≡ self.old.number }
        ensures changed { IfOk result (λ changed. IsTrue changed ↔ (announced_at self.old slot p ≢ Some route)) }
        ensures after { OnOk result (self.new ≡ acted (Change slot p (Some route)) self.old) }
        ensures err { OnErr result (self.new ≡ self.old) }
    {
        self.pending.open(p)?;
        let changed = self.ribs.announce(slot, p, route)?;
        if changed {
            self.pending.mark(p);
        }
        Ok(changed)
    }

    /// The slot announces nothing for a prefix any more. Answers whether it did. The slot is connected, and the prefix is one of this shard's.
    pub fn withdraw(&mut self, slot: Slot, p: Prefix) -> bool
        requires member { slot < length self.old.members }
        requires up { is_connected self.old slot ≡ true }
        requires own { shard_of_prefix p self.old.shards ≡ self.old.number }
        ensures changed { result ≡ is_some (announced_at self.old slot p) }
        ensures after { self.new ≡ acted (Change slot p None) self.old }
    {
        let changed = self.ribs.withdraw(slot, p);
        if changed {
            self.pending.mark(p);
        }
        changed
    }

    /// Takes another view, of the same members. It compares the costs between all members, and goes over the announcements of those to whom one changes.
    pub fn view(&mut self, view: Arc<View>)
        requires { view.value.members ≡ self.old.members }
        ensures { self.new ≡ acted (Links view.value.edges) self.old }
    {
        let moved = moved_slots(&self.view, &view);
        mark_flagged(&self.ribs, &mut self.pending, &moved);
        find_classes(&view, &mut self.classes);
        self.view = view;
    }

    /// Takes another view, of the same members, as `view` does, by what is found once for all shards that have the same view: the flags of `moved_slots`
    /// for the view before and this one, and the classes of `find_classes`. It goes over the announcements of the flagged slots alone.
    pub fn follow(&mut self, view: Arc<View>, moved: &[bool], classes: &[Slot])
        requires members { view.value.members ≡ self.old.members }
        requires moved { AreMoved self.old.ribs.edges view.value.edges self.old.members moved.now }
        requires classes { AreClasses view.value classes.now }
        ensures { self.new ≡ acted (Links view.value.edges) self.old }
    {
        mark_flagged(&self.ribs, &mut self.pending, moved);
        self.classes.copy_from_slice(classes);
        self.view = view;
    }

    /// Decides the least pending prefix: each connected slot is given the announcement of its choice with all its fields, where that is another
    /// slot, or else nothing. None exactly where no prefix is pending.
    ///
    /// It takes the time of the filters over the candidates once for each set of slots that reach the same members, and for each connected slot
    /// that of a cost for each tied one.
    pub fn work(&mut self) -> Option<Prefix>
        ensures least { IsLeastPending self.old result }
        ensures after { MatchOption result (self.new ≡ self.old) (λ p. self.new ≡ acted (Work p) self.old) }
    {
        let p = self.pending.take_least()?;
        settle(
            &mut self.ribs,
            &self.view,
            &self.connected,
            &self.classes,
            p,
            &mut self.list,
            &mut self.from,
            &mut self.marks,
            &mut self.tied,
        );
        Some(p)
    }

    /// How many prefixes are pending.
    pub fn pending(&self) -> u64
        ensures { result ≡ set_of.len self.now.ribs.pending }
    {
        self.pending.count()
    }

    /// How many prefixes some slot announces. It takes constant time.
    pub fn announced(&self) -> u64
        ensures { result ≡ set_of.len (prefixes_of (λ e. true) self.now.ribs.announced) }
    {
        self.ribs.prefixes()
    }

    /// Whether a prefix is pending.
    pub fn is_pending(&self, p: Prefix) -> bool
        ensures { result ≡ is_pending self.now p }
    {
        self.pending.is_marked(p)
    }

    /// The prefix that `work` would decide, None exactly where none is pending.
    pub fn least_pending(&self) -> Option<Prefix>
        ensures { IsLeastPending self.now result }
    {
        self.pending.least()
    }

    /// Whether a slot is connected.
    pub fn connected(&self, slot: Slot) -> bool
        ensures { result ≡ is_connected self.now slot }
    {
        self.connected.contains(slot)
    }

    /// The route that a slot announces for a prefix.
    pub fn announcement(&self, slot: Slot, p: Prefix) -> Option<&Route>
        ensures { option_map (λ route. route.now) result ≡ announced_at self.now slot p }
    {
        self.ribs.announced(slot, p)
    }

    /// The route that a slot is given for a prefix. It can be offered: it isn't long.
    pub fn table(&self, slot: Slot, p: Prefix) -> Option<&Route>
        requires { slot < length self.now.members }
        ensures route { option_map (λ route. route.now) result ≡ given_at self.now slot p }
        ensures usable { IfSome result (λ route. is_usable route.now ≡ true) }
    {
        self.ribs.cell(slot, p)
    }

    /// The least prefix after the given one that some slot announces, or the least of all. None exactly where there is none.
    pub fn next_prefix(&self, after: Option<Prefix>) -> Option<Prefix>
        ensures { IsNextAnnounced self.now after result }
    {
        self.ribs.next_prefix(after)
    }

    /// The least prefix after the given one at which a slot is given a route, or the least of all. None exactly where there is none.
    pub fn next_entry(&self, slot: Slot, after: Option<Prefix>) -> Option<Prefix>
        requires { slot < length self.now.members }
        ensures { IsNextGiven self.now slot after result }
    {
        self.ribs.next_cell(slot, after)
    }

    /// The least prefix at which the cell of a slot is dirty, and cleans it. None exactly where none is. What is offered there is the
    /// `attrs` of `table`, or none.
    pub fn take_offer(&mut self, slot: Slot) -> Option<Prefix>
        requires { slot < length self.old.members }
        ensures least { IsLeastDirty self.old slot result }
        ensures after { self.new ≡ taken slot result self.old }
    {
        self.ribs.take_dirty(slot)
    }

    /// The least prefix after the given one, or of all, at which the cell of a slot is dirty, with the route that the slot is given
    /// there. The route can be offered: it isn't long. None exactly where there is none.
    ///
    /// It takes a constant time where `passed` is the number of the slot's dirty cells up to the given prefix, and else about the
    /// logarithm of the number of its dirty cells. What it answers doesn't depend on `passed`.
    pub fn next_dirty(
        &self,
        slot: Slot,
        after: Option<Prefix>,
        passed: usize,
    ) -> Option<(Prefix, Option<&Route>)>
        requires { slot < length self.now.members }
        ensures next { IsNextDirty self.now slot after (option_map (λ found. found.0) result) }
        ensures route { IfSome result (λ found. option_map (λ route. route.now) found.1 ≡ given_at self.now slot found.0) }
        ensures usable { IfSome result (λ found. IfSome found.1 (λ route. is_usable route.now ≡ true)) }
    {
        self.ribs.next_dirty(slot, after, passed)
    }

    /// Leaves each cell of a slot clean. What the slot is given stays.
    pub fn clean(&mut self, slot: Slot)
        requires { slot < length self.old.members }
        ensures { self.new ≡ record self.old { dirty = without_cells_of slot self.old.dirty } }
    {
        self.ribs.clean(slot);
    }

    /// The prefix that `take_offer` would give. It cleans nothing.
    pub fn least_dirty(&self, slot: Slot) -> Option<Prefix>
        requires { slot < length self.now.members }
        ensures { IsLeastDirty self.now slot result }
    {
        self.ribs.least_dirty(slot)
    }
}

/// What stands in a place where there is no candidate.
const NOBODY: Candidate = Candidate {
    slot: Slot(0),
    id: Addr(0),
    pref: 0,
    hops: 0,
    origin: 0,
    neighbour: 0,
    med: 0,
};
