//! The joined stores.

ghost use Rattle.std.specs.Prelude.{◌≡◌, ℕ, ◌<◌, ◌↔◌, true, not, Some, None, Ok, IfOk, OnOk, OnErr, IfSome, IfNone, IsSome, option_map, is_some};
ghost use Rattle.std.specs.List.{AllPairs, Contains};
ghost use Rattle.std.specs.FinMap as map_of;
ghost use Rattle.std.specs.FinSet as set_of;
ghost use Rattle.rcp_model.specs.Ribs.{RibKey};
ghost use Rattle.rcp_model.specs.ServerRibs.{prefixes_of};
ghost use Rattle.adj_ribs.specs.Bases.{no_bases, announced_at, given_at, is_opened, is_dirty, is_same, IsNextAnnounced, IsNextOf, IsNextGiven, IsLeastDirty, IsNextDirty, AreNumbered, IsNumber, IsAnnouncer, route_of, after_change, after_open, after_drop, after_set, after_clear, after_clean, after_take};

use crate::uses::{number_of, prefix_of, release, retain};
use attr_store::AttrStore;
use out_table::OutTable;
use rcp_base::{NoMemory, Prefix, Slot};
use rcp_model::{Route, RouteNo};
use route_store::{Announcer, RouteStore};
use std::alloc::Global;
use std::marker::Model;

/// What each slot announces, what each is given, and the routes of both, each kept once. Contracts see finite maps from a prefix and a
/// slot to a route and to its number, the dirty cells and the opened prefixes.
#[derive(Drop)]
pub struct AdjRibs {
    routes: AttrStore,
    announcements: RouteStore,
    table: OutTable,
}

impl Model for AdjRibs {
    ghost use Rattle.adj_ribs.specs.Bases.{Bases, bases_code};
    ghost use Rattle.adj_ribs.specs.Joins.{bases_of, AreJoined};

    ghost Value = { Bases };

    ghost coded = { bases_code };

    ghost view = { λ r. bases_of r.routes r.announcements r.table };

    ghost invariant = { λ r. AreJoined r.routes r.announcements r.table };
}

impl AdjRibs {
    /// Empty bases for so many slots. `NoMemory` comes where there was no room for a set of prefixes for each slot.
    pub fn new(alloc: Global, members: u16) -> Result<AdjRibs, NoMemory>
        ensures { IfOk result (λ ribs. ribs ≡ no_bases members) }
    {
        let announcements = RouteStore::new(alloc, members)?;
        Ok(AdjRibs {
            routes: AttrStore::new(alloc),
            announcements,
            table: OutTable::new(alloc, members),
        })
    }

    /// For how many slots the cells are.
    pub fn members(&self) -> u16
        ensures { result ≡ self.now.members }
    {
        self.table.members()
    }

    /// Whether a prefix is opened: it was announced once.
    pub fn is_opened(&self, p: Prefix) -> bool
        ensures { result ≡ is_opened self.now p }
    {
        self.table.is_opened(p)
    }

    /// Sets what a slot announces at a prefix, which is opened then, and answers whether that is another route than before.
    ///
    /// `NoMemory` comes where there was no room, or no number for the route or place for the prefix was left, and leaves all as it was. It costs two look-ups
    /// of the prefix, one of the route, and one among the slot's prefixes where the announcement is its first there.
    pub fn announce(&mut self, slot: Slot, p: Prefix, route: Route) -> Result<bool, NoMemory>
        ensures changed { IfOk result (λ changed. changed ≡ not (is_same (announced_at self.old slot p) (Some route))) }
        ensures after { OnOk result (self.new ≡ after_open p (after_change slot p (Some route) (map_of.get self.new.numbers (p, slot)) self.old)) }
        ensures err { OnErr result (self.new ≡ self.old) }
    {
        let number = self.routes.intern(route)?;
        let Ok(before) = self.announcements.replace(slot, p, number) else {
            self.routes.release(number);
            return Err(NoMemory);
        };
        let Ok(()) = self.table.open(p) else {
            self.announcements.take(slot, p);
            self.routes.release(number);
            return Err(NoMemory);
        };
        release(&mut self.routes, before);
        Ok(before != Some(number))
    }

    /// Takes out what a slot announces at a prefix, and answers whether there was something. It takes no memory.
    pub fn withdraw(&mut self, slot: Slot, p: Prefix) -> bool
        ensures changed { result ≡ is_some (announced_at self.old slot p) }
        ensures after { self.new ≡ after_change slot p None None self.old }
    {
        let before = self.announcements.take(slot, p);
        release(&mut self.routes, before);
        before.is_some()
    }

    /// Takes out all that a slot announces. It takes no memory, and goes over the slot's prefixes alone.
    pub fn drop_all(&mut self, slot: Slot)
        ensures { self.new ≡ after_drop slot self.old }
    {
        while let Some(p) = self.first_of(slot) {
            self.withdraw(slot, p);
        }
    }

    /// What a slot announces at a prefix. It costs one look-up.
    pub fn announced(&self, slot: Slot, p: Prefix) -> Option<&Route>
        ensures { option_map (λ route. route.now) result ≡ announced_at self.now slot p }
    {
        let number = self.announcements.get(slot, p)?;
        Some(self.routes.get(number))
    }

    /// The slots that announce a prefix, by rising slot, each with the number of its route. It costs one look-up.
    pub fn announcers(&self, p: Prefix) -> &[Announcer]
        ensures each { (slot number : ℕ) → Contains result.now (slot, number) ↔ IsAnnouncer self.now p (slot, number) }
        ensures rising { AllPairs (λ a b. a.0 < b.0) result.now }
        ensures numbered { AreNumbered self.now.numbers self.now.announced }
    {
        self.announcements.announcers(p)
    }

    /// The route of a number that an announcement has. It costs one access by index.
    pub fn route(&self, number: RouteNo) -> &Route
        requires { IsNumber self.now number }
        ensures { (key : RibKey) → map_of.get self.now.numbers key ≡ Some number → map_of.get self.now.announced key ≡ Some result.now }
    {
        self.routes.get(number)
    }

    /// The least prefix after the given one that some slot announces, or the least of all where none is given. It is opened.
    pub fn next_prefix(&self, after: Option<Prefix>) -> Option<Prefix>
        ensures next { IsNextAnnounced self.now after result }
        ensures opened { IfSome result (λ p. is_opened self.now p ≡ true) }
    {
        self.announcements.next_prefix(after)
    }

    /// The least prefix after the given one that the slot announces, or its least of all where none is given. It is opened.
    pub fn next_of(&self, slot: Slot, after: Option<Prefix>) -> Option<Prefix>
        ensures next { IsNextOf self.now slot after result }
        ensures opened { IfSome result (λ p. is_opened self.now p ≡ true) }
    {
        self.announcements.next_of(slot, after)
    }

    /// How many prefixes some slot announces. It takes constant time.
    pub fn prefixes(&self) -> u64
        ensures { result ≡ set_of.len (prefixes_of (λ e. true) self.now.announced) }
    {
        self.announcements.prefixes()
    }

    /// Gives a slot what a router announces at a prefix, or nothing, and makes the cell dirty where its route changes. Answers whether it does.
    /// It takes no memory. The prefix is opened, and the router announces it by the route of this number.
    ///
    /// Cells of one prefix in a row cost one look-up of the prefix.
    pub fn set_cell(&mut self, to: Slot, p: Prefix, from: Option<Announcer>) -> bool
        requires member { to < self.old.members }
        requires opened { is_opened self.old p ≡ true }
        requires announced { IfSome from (IsAnnouncer self.old p) }
        ensures changed { result ≡ not (is_same (given_at self.old to p) (route_of self.old p from)) }
        ensures after { self.new ≡ after_set to p from self.old }
    {
        let number = number_of(&from);
        let before = self.table.get(to, p);
        if !self.table.set(to, p, number) {
            return false;
        }
        retain(&mut self.routes, number_of(&from));
        release(&mut self.routes, before);
        true
    }

    /// Leaves each cell of a slot without a route and clean. It takes no memory, and goes over the slot's cells.
    pub fn clear(&mut self, slot: Slot)
        requires { slot < self.old.members }
        ensures { self.new ≡ after_clear slot self.old }
    {
        let mut after = None;
        while let Some(p) = self.table.next_entry(slot, after) {
            release(&mut self.routes, self.table.get(slot, p));
            after = Some(p);
        }
        self.table.clear(slot);
    }

    /// What a slot is given at a prefix.
    pub fn cell(&self, slot: Slot, p: Prefix) -> Option<&Route>
        requires { slot < self.now.members }
        ensures { option_map (λ route. route.now) result ≡ given_at self.now slot p }
    {
        let number = self.table.get(slot, p)?;
        Some(self.routes.get(number))
    }

    /// The number of the route that a slot is given at a prefix. Cells have the same number exactly where they have the same route.
    pub fn cell_number(&self, slot: Slot, p: Prefix) -> Option<RouteNo>
        requires { slot < self.now.members }
        ensures number { result ≡ map_of.get self.now.cell_numbers (p, slot) }
        ensures numbered { AreNumbered self.now.cell_numbers self.now.given }
    {
        self.table.get(slot, p)
    }

    /// The least dirty prefix of a slot, whose cell is clean then. None exactly where no cell of the slot is dirty. It takes no memory.
    pub fn take_dirty(&mut self, slot: Slot) -> Option<Prefix>
        requires { slot < self.old.members }
        ensures least { IsLeastDirty self.old slot result }
        ensures after { self.new ≡ after_take slot result self.old }
    {
        prefix_of(&self.table.take_dirty(slot))
    }

    /// What `take_dirty` would give. It cleans nothing.
    pub fn least_dirty(&self, slot: Slot) -> Option<Prefix>
        requires { slot < self.now.members }
        ensures { IsLeastDirty self.now slot result }
    {
        prefix_of(&self.table.least_dirty(slot))
    }

    /// The least dirty prefix of a slot after the given one, or of all, with what the slot is given there. None exactly where there is none.
    ///
    /// It takes a constant time where `passed` is the number of the slot's dirty prefixes up to the given one, and else about the
    /// logarithm of the number of its dirty prefixes. What it answers doesn't depend on `passed`.
    pub fn next_dirty(
        &self,
        slot: Slot,
        after: Option<Prefix>,
        passed: usize,
    ) -> Option<(Prefix, Option<&Route>)>
        requires { slot < self.now.members }
        ensures next { IsNextDirty self.now slot after (option_map (λ found. found.0) result) }
        ensures route { IfSome result (λ found. option_map (λ route. route.now) found.1 ≡ given_at self.now slot found.0) }
    {
        let (p, number) = self.table.next_dirty(slot, after, passed)?;
        match number {
            Some(number) => Some((p, Some(self.routes.get(number)))),
            None => Some((p, None)),
        }
    }

    /// Leaves each cell of a slot clean. What the slot is given stays.
    pub fn clean(&mut self, slot: Slot)
        requires { slot < self.old.members }
        ensures { self.new ≡ after_clean slot self.old }
    {
        self.table.clean(slot);
    }

    /// The least prefix after the given one at which a slot is given a route, or the least of all where none is given. None exactly where there is none.
    pub fn next_cell(&self, slot: Slot, after: Option<Prefix>) -> Option<Prefix>
        requires { slot < self.now.members }
        ensures { IsNextGiven self.now slot after result }
    {
        self.table.next_entry(slot, after)
    }

    /// The least prefix that a slot announces. Where there is none, the slot has nothing to drop.
    fn first_of(&self, slot: Slot) -> Option<Prefix>
        ensures some { IfSome result (λ p. IsSome (announced_at self.now slot p)) }
        ensures none { IfNone result (after_drop slot self.now ≡ self.now) }
    {
        self.announcements.next_of(slot, None)
    }
}
