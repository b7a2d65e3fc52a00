//! The announcements of one prefix.

ghost use Rattle.std.specs.Prelude.{◌≡◌, ◌↔◌, Some, None, [], ◌∷◌, IfOk, IfErr, OnOk, OnErr, IsTrue};
ghost use Rattle.route_store.specs.Rows.{number_in, IsRising, IsAt, IsGapFor, PutsIn};

use crate::announcer::Announcer;
use rcp_base::{NoMemory, Slot};
use rcp_model::RouteNo;
use std::alloc::Global;
use std::marker::Model;

/// The announcements of one prefix, by rising slot.
#[derive(Debug, Drop)]
pub struct Row {
    announcers: Vec<Announcer>,
}

impl Model for Row {
    ghost use Rattle.route_store.specs.Announcers.{Announcement};
    ghost use Rattle.route_store.specs.Rows.{IsRising};
    ghost use Rattle.std.specs.Prelude.{List};

    ghost Value = { List Announcement };

    ghost view = { λ row. row.announcers.items };

    ghost invariant = { λ row. IsRising row.announcers.items };
}

impl Row {
    /// A row of one announcement.
    pub fn of(alloc: Global, slot: Slot, route: RouteNo) -> Result<Row, NoMemory>
        ensures { IfOk result (λ row. row ≡ (slot, route) ∷ []) }
    {
        let mut announcers = Vec::new(alloc);
        if announcers.push(Announcer::new(slot, route)).is_err() {
            return Err(NoMemory);
        }
        Ok(Row { announcers })
    }

    pub fn is_empty(&self) -> bool
        ensures { IsTrue result ↔ (self.now ≡ []) }
    {
        self.announcers.is_empty()
    }

    pub fn as_slice(&self) -> &[Announcer]
        ensures all { result.now ≡ self.now }
        ensures rising { IsRising self.now }
    {
        self.announcers.as_slice()
    }

    /// The number that a slot has.
    pub fn get(&self, slot: Slot) -> Option<RouteNo>
        ensures { result ≡ number_in self.now slot }
    {
        match self.search(slot) {
            Ok(place) => Some(self.announcers[place].route()),
            Err(_) => None,
        }
    }

    /// Gives a slot a number, and answers the one that it had.
    pub fn set(&mut self, slot: Slot, route: RouteNo) -> Result<Option<RouteNo>, NoMemory>
        ensures old { IfOk result (λ old. old ≡ number_in self.old slot) }
        ensures set { OnOk result (PutsIn self.old self.new slot (Some route)) }
        ensures err { OnErr result (self.new ≡ self.old) }
    {
        let announcer = Announcer::new(slot, route);
        match self.search(slot) {
            Ok(place) => {
                let old = self.announcers[place].route();
                self.announcers[place] = announcer;
                Ok(Some(old))
            }
            Err(place) => {
                let Ok(()) = self.announcers.insert(place, announcer) else {
                    return Err(NoMemory);
                };
                Ok(None)
            }
        }
    }

    /// Takes a slot's number out.
    pub fn remove(&mut self, slot: Slot) -> Option<RouteNo>
        ensures value { result ≡ number_in self.old slot }
        ensures removed { PutsIn self.old self.new slot None }
    {
        match self.search(slot) {
            Ok(place) => Some(self.announcers.remove(place).route()),
            Err(_) => None,
        }
    }

    /// Where a slot's announcement is, or where it would go.
    fn search(&self, slot: Slot) -> Result<usize, usize>
        ensures found { IfOk result (IsAt self.now slot) }
        ensures absent { IfErr result (IsGapFor self.now slot) }
    {
        self.announcers
            .binary_search_by_key(&slot, |announcer| announcer.slot())
    }
}
