//! The store: a row of announcements for each prefix, and beside it the prefixes of each slot.

ghost use Rattle.std.specs.Prelude.{◌≡◌, ◌≢◌, ◌==◌, ◌↔◌, not, Some, None, IfOk, OnOk, OnErr, IfSome, IfNone, IsTrue, is_some, option_map};
ghost use Rattle.std.specs.FinMap as map_of;
ghost use Rattle.route_store.specs.Announcers.{IsAnnounced, IsAnnouncedBy, announced, announcers_of};
ghost use Rattle.route_store.specs.Next.{IsNext};

use crate::announcer::Announcer;
use crate::row::Row;
use crate::rows::{next_row, number, put, take};
use crate::seats::{add_seat, grow, next_seat, remove_seat};
use rcp_base::{NoMemory, Prefix, Slot};
use rcp_model::RouteNo;
use std::alloc::Global;
use std::collections::{BTreeMap, BTreeSet};
use std::marker::Model;

/// The announcements of all routers. Contracts see a finite map from prefix and slot to the number of a route. Any slot may announce, also one beyond the
/// members that the store was made for.
#[derive(Drop)]
pub struct RouteStore {
    alloc: Global,
    rows: BTreeMap<Prefix, Row>,
    seats: Vec<BTreeSet<Prefix>>,
}

impl Model for RouteStore {
    ghost use Rattle.rcp_model.specs.Ribs.{RouteNumbers, route_numbers_code};
    ghost use Rattle.route_store.specs.Rows.{numbers_in, IsStore};

    ghost Value = { RouteNumbers };

    ghost coded = { route_numbers_code };

    ghost view = { λ s. numbers_in s.rows };

    ghost invariant = { λ s. IsStore s.rows s.seats.items };
}

impl RouteStore {
    /// A store without announcements, made for so many slots. `NoMemory` comes where there was no room for their sets of prefixes.
    pub fn new(alloc: Global, members: u16) -> Result<RouteStore, NoMemory>
        ensures { IfOk result (λ store. store ≡ map_of.empty) }
    {
        let mut seats = Vec::new(alloc);
        grow(&mut seats, alloc, usize::from(members))?;
        Ok(RouteStore {
            alloc,
            rows: BTreeMap::new(alloc),
            seats,
        })
    }

    /// The number of the route that a slot announces at a prefix. It costs one look-up.
    pub fn get(&self, slot: Slot, p: Prefix) -> Option<RouteNo>
        ensures { result ≡ map_of.get self.now (p, slot) }
    {
        number(&self.rows, p, slot)
    }

    /// Gives a slot a route at a prefix, in the place of the one before, and answers whether the map changed.
    ///
    /// `NoMemory` comes where there was no room, and leaves the map as it was. It costs a look-up among the prefixes, and one among the slot's
    /// where the slot had no route there.
    pub fn set(&mut self, slot: Slot, p: Prefix, route: RouteNo) -> Result<bool, NoMemory>
        ensures set { OnOk result (self.new ≡ map_of.insert self.old (p, slot) route) }
        ensures changed { IfOk result (λ changed. IsTrue changed ↔ (map_of.get self.old (p, slot) ≢ Some route)) }
        ensures err { OnErr result (self.new ≡ self.old) }
    {
        let old = self.replace(slot, p, route)?;
        Ok(old != Some(route))
    }

    /// What `set` does. It gives back the number of the route before, None where there was none.
    pub fn replace(
        &mut self,
        slot: Slot,
        p: Prefix,
        route: RouteNo,
    ) -> Result<Option<RouteNo>, NoMemory>
        ensures set { OnOk result (self.new ≡ map_of.insert self.old (p, slot) route) }
        ensures before { IfOk result (λ before. before ≡ map_of.get self.old (p, slot)) }
        ensures err { OnErr result (self.new ≡ self.old) }
    {
        let Ok(before) = put(&mut self.rows, self.alloc, p, slot, route) else {
            return Err(NoMemory);
        };
        if before.is_some() {
            return Ok(before);
        }
        let Ok(_added) = add_seat(&mut self.seats, self.alloc, slot, p) else {
            take(&mut self.rows, p, slot);
            return Err(NoMemory);
        };
        Ok(None)
    }

    /// Takes the route of a slot at a prefix out, and gives its number back, None where there is none. It takes no memory.
    pub fn take(&mut self, slot: Slot, p: Prefix) -> Option<RouteNo>
        ensures value { result ≡ map_of.get self.old (p, slot) }
        ensures taken { self.new ≡ map_of.remove self.old (p, slot) }
    {
        remove_seat(&mut self.seats, slot, p);
        take(&mut self.rows, p, slot)
    }

    /// Takes the route of a slot at a prefix out, and answers whether the map changed. It takes no memory.
    pub fn unset(&mut self, slot: Slot, p: Prefix) -> bool
        ensures changed { result ≡ map_of.contains_key self.old (p, slot) }
        ensures unset { self.new ≡ map_of.remove self.old (p, slot) }
    {
        self.take(slot, p).is_some()
    }

    /// Takes the route of a slot at its least prefix out, and gives both back. It takes no memory. A caller that counts the uses of routes
    /// calls it until it answers None, where `drop_all` would lose the numbers.
    pub fn take_first(&mut self, slot: Slot) -> Option<(Prefix, RouteNo)>
        ensures first { IsNext (IsAnnouncedBy self.old slot) None (option_map (λ taken. taken.0) result) }
        ensures value { IfSome result (λ taken. map_of.get self.old (taken.0, slot) ≡ Some taken.1) }
        ensures taken { IfSome result (λ taken. self.new ≡ map_of.remove self.old (taken.0, slot)) }
        ensures none { IfNone result (self.new ≡ self.old) }
    {
        let p = self.next_of(slot, None)?;
        match self.take(slot, p) {
            Some(route) => Some((p, route)),
            None => unreachable!(),
        }
    }

    /// Takes all routes of a slot out. It takes no memory, and goes over the slot's prefixes alone.
    pub fn drop_all(&mut self, slot: Slot)
        ensures { self.new ≡ map_of.retain_keys self.old (λ key. not (key.1 == slot)) }
    {
        while let Some(_taken) = self.take_first(slot) {}
    }

    /// The least prefix after the given one that some slot announces, or the least of all where none is given.
    pub fn next_prefix(&self, after: Option<Prefix>) -> Option<Prefix>
        ensures { IsNext (IsAnnounced self.now) after result }
    {
        next_row(&self.rows, after)
    }

    /// The least prefix after the given one that the slot announces, or its least of all where none is given. It costs a look-up among the slot's prefixes.
    pub fn next_of(&self, slot: Slot, after: Option<Prefix>) -> Option<Prefix>
        ensures { IsNext (IsAnnouncedBy self.now slot) after result }
    {
        next_seat(&self.seats, slot, after)
    }

    /// The announcements of a prefix, by rising slot. It costs one look-up.
    pub fn announcers(&self, p: Prefix) -> &[Announcer]
        ensures { result.now ≡ announcers_of self.now p }
    {
        match self.rows.get(&p) {
            Some(row) => row.as_slice(),
            None => &[],
        }
    }

    /// How many prefixes are announced.
    pub fn prefixes(&self) -> u64
        ensures { result ≡ map_of.len (announced self.now) }
    {
        self.rows.len() as u64
    }
}
