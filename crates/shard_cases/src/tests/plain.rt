//! A shard of six prefixes and four slots as plain lists, by slow code that follows the definitions.

use super::Offered;
use cost_rows::View;
use decision::{Candidate, choose};
use rcp_base::{Addr, NoMemory, Slot};
use rcp_model::Costs;
use std::alloc::Global;

/// What a slot announces for a prefix and what it is given there, each by the kind of route, and whether it is dirty.
#[derive(Clone, Copy)]
struct Cell {
    announced: Option<u32>,
    given: Option<u32>,
    dirty: bool,
}

const EMPTY: Cell = Cell {
    announced: None,
    given: None,
    dirty: false,
};

/// The route of a kind. Its next hop is the kind.
pub fn route_of(kind: u32) -> Offered {
    match kind {
        0 => (0, 100, 65001, 0, false),
        1 => (1, 100, 65001, 10, false),
        2 => (2, 100, 65001, 20, false),
        3 => (3, 100, 65002, 30, false),
        4 => (4, 90, 65002, 0, false),
        _ => (5, 200, 65001, 0, true),
    }
}

fn candidate(slot: u16, offered: Offered) -> Candidate {
    Candidate {
        slot: Slot(slot),
        id: Addr(0x0a000001 + slot as u32),
        pref: offered.1,
        hops: 1,
        origin: 0,
        neighbour: offered.2,
        med: offered.3,
    }
}

/// A place is that of a prefix and a slot: four to a prefix.
#[derive(Drop)]
pub struct Plain {
    cells: Vec<Cell>,
    up: Vec<bool>,
    pending: Vec<bool>,
}

impl Plain {
    /// All slots are up, and nothing is announced.
    pub fn new(alloc: Global) -> Result<Plain, NoMemory> {
        Ok(Plain {
            cells: vec![in alloc; EMPTY; 24]?,
            up: vec![in alloc; true; 4]?,
            pending: vec![in alloc; false; 6]?,
        })
    }

    fn cell(&self, place: u32) -> Cell {
        match self.cells.get(place as usize) {
            Some(cell) => *cell,
            None => EMPTY,
        }
    }

    fn set_cell(&mut self, place: u32, value: Cell) {
        if let Some(cell) = self.cells.get_mut(place as usize) {
            *cell = value;
        }
    }

    fn set_pending(&mut self, p: u32, value: bool) {
        if let Some(pending) = self.pending.get_mut(p as usize) {
            *pending = value;
        }
    }

    /// Whether a slot is up.
    pub fn is_up(&self, slot: u32) -> bool {
        self.up.get(slot as usize) == Some(&true)
    }

    /// Whether a prefix is pending.
    pub fn is_pending(&self, p: u32) -> bool {
        self.pending.get(p as usize) == Some(&true)
    }

    /// The kind of what is given at a place.
    pub fn given(&self, place: u32) -> Option<u32> {
        self.cell(place).given
    }

    /// The candidates of a slot for a prefix.
    fn candidates(
        &self,
        alloc: Global,
        view: &View,
        p: u32,
        slot: u16,
    ) -> Result<Vec<Candidate>, NoMemory> {
        let mut list = Vec::new(alloc);
        for egress in 0..4u16 {
            let Some(kind) = self.cell(p % 6 * 4 + egress as u32).announced else {
                continue;
            };
            let offered = route_of(kind);
            if !offered.4 && view.cost(Slot(slot), Slot(egress)).is_some() {
                list.push(candidate(egress, offered))?;
            }
        }
        Ok(list)
    }

    /// What a slot is offered at a prefix.
    fn offer(
        &self,
        alloc: Global,
        view: &View,
        p: u32,
        slot: u16,
    ) -> Result<Option<u32>, NoMemory> {
        let list = self.candidates(alloc, view, p, slot)?;
        match choose(Slot(slot), list.as_slice(), view) {
            Some(egress) if egress != Slot(slot) => {
                Ok(self.cell(p % 6 * 4 + egress.0 as u32).announced)
            }
            _ => Ok(None),
        }
    }

    fn decide(&mut self, alloc: Global, view: &View, p: u32, slot: u16) -> Result<(), NoMemory> {
        let place = p % 6 * 4 + slot as u32;
        let given = self.offer(alloc, view, p, slot)?;
        let cell = self.cell(place);
        if self.is_up(slot as u32) && cell.given != given {
            self.set_cell(
                place,
                Cell {
                    given,
                    dirty: true,
                    ..cell
                },
            );
        }
        Ok(())
    }

    fn least_pending(&self) -> Option<u32> {
        for p in 0..6u32 {
            if self.is_pending(p) {
                return Some(p);
            }
        }
        None
    }

    /// Decides the least pending prefix.
    pub fn work(&mut self, alloc: Global, view: &View) -> Result<(), NoMemory> {
        let Some(p) = self.least_pending() else {
            return Ok(());
        };
        self.set_pending(p, false);
        for slot in 0..4u16 {
            self.decide(alloc, view, p, slot)?;
        }
        Ok(())
    }

    /// A slot comes up or goes down: its cells are emptied, and so are its announcements.
    pub fn toggle(&mut self, slot: u32) {
        let lost = self.is_up(slot);
        for place in 0..24u32 {
            let own = place % 4 == slot;
            if self.cell(place).announced.is_some() && (own || !lost) {
                self.set_pending(place / 4, true);
            }
            if own {
                self.set_cell(place, EMPTY);
            }
        }
        if let Some(up) = self.up.get_mut(slot as usize) {
            *up = !lost;
        }
    }

    /// The announcement at a place is set or removed.
    pub fn change(&mut self, place: u32, announced: Option<u32>) {
        let cell = self.cell(place);
        if self.is_up(place % 4) && cell.announced != announced {
            self.set_cell(place, Cell { announced, ..cell });
            self.set_pending(place / 4, true);
        }
    }

    /// Another view comes.
    pub fn links(&mut self, before: &View, now: &View) {
        for place in 0..24u32 {
            if self.cell(place).announced.is_some() && is_moved(before, now, (place % 4) as u16) {
                self.set_pending(place / 4, true);
            }
        }
    }

    /// The least prefix that is dirty for a slot, and cleans it.
    pub fn take(&mut self, slot: u32) -> Option<u32> {
        for p in 0..6u32 {
            let place = p * 4 + slot % 4;
            let cell = self.cell(place);
            if cell.dirty {
                self.set_cell(
                    place,
                    Cell {
                        dirty: false,
                        ..cell
                    },
                );
                return Some(p);
            }
        }
        None
    }
}

/// Whether the cost from some slot to this one differs in two views.
fn is_moved(before: &View, now: &View, to: u16) -> bool {
    for from in 0..4u16 {
        if before.cost(Slot(from), Slot(to)) != now.cost(Slot(from), Slot(to)) {
            return true;
        }
    }
    false
}
