//! The table of cells.

ghost use Rattle.std.specs.Prelude.{◌≡◌, ◌<◌, ◌≤◌, true, false, not, Some, None, OnOk, OnErr, IfSome, length, ◌&&◌, is_some};
ghost use Rattle.std.specs.Option.{option_map};
ghost use Rattle.out_table.specs.Cells.{is_same};
ghost use Rattle.out_table.specs.Tables.{Table, new_table, cell, is_opened, is_dirty, opened, after_set, cleaned, unmarked, cleared, IsLeast, is_after};
ghost use Rattle.out_table.specs.Places.{AreInverse, place_of};

use crate::columns::Columns;
use crate::growth::{add_place, make_room};
use crate::search::{first, first_after, first_after_with, first_with};
use crate::setting::set_cell;
use rcp_base::{NoMemory, Prefix, Slot};
use rcp_model::RouteNo;
use std::alloc::Global;
use std::collections::BTreeMap;
use std::marker::Model;

/// The cells of each slot for each opened prefix. Contracts see the opened prefixes, the numbers in the cells by prefix
/// and slot, and the dirty cells.
///
/// Each prefix has a place that never moves. A cell takes four octets, and so does its room among the dirty ones of its
/// slot. These are kept by rising prefix for each slot alone, so that a slot that isn't taken slows no other. The cells of a
/// prefix lie close to one another.
#[derive(Debug, Drop)]
pub struct OutTable {
    places: BTreeMap<Prefix, u32>,
    prefixes: Vec<Prefix>,
    columns: Columns,
    room: usize,
    last: u32,
    alloc: Global,
}

impl Model for OutTable {
    ghost use Rattle.out_table.specs.Tables.{Table, table_code};

    ghost Value = { Table };

    ghost coded = { table_code };

    ghost use Rattle.out_table.specs.Places.{table_of, IsKept};

    ghost view = { λ t. table_of t.columns.members t.places.entries t.prefixes.items t.columns.items };

    ghost invariant = { λ t. IsKept t.columns.members t.room t.places.entries t.prefixes.items t.columns.items };
}

impl OutTable {
    /// A table for so many slots, in which no prefix is opened. It takes no memory.
    pub fn new(alloc: Global, members: u16) -> OutTable
        ensures { result ≡ new_table members }
    {
        OutTable {
            places: BTreeMap::new(alloc),
            prefixes: Vec::new(alloc),
            columns: Columns::new(alloc, members),
            room: 0,
            last: 0,
            alloc,
        }
    }

    /// For how many slots the table is.
    pub fn members(&self) -> u16
        ensures { result ≡ self.now.members }
    {
        self.columns.members()
    }

    /// Whether a prefix is opened.
    pub fn is_opened(&self, p: Prefix) -> bool
        ensures { result ≡ is_opened self.now p }
    {
        place_of(&self.places, self.prefixes.as_slice(), self.last, &p).is_some()
    }

    /// Opens a prefix: its cells have no route and are clean. Nothing changes where it is opened already.
    ///
    /// `NoMemory` where the prefix isn't opened and there is no room for it, or 2^32 - 1 prefixes are opened; the table is as before then. It takes about
    /// the logarithm of the number of opened prefixes, and now and then makes room for a quarter more of them.
    pub fn open(&mut self, p: Prefix) -> Result<(), NoMemory>
        ensures ok { OnOk result (self.new ≡ opened p self.old) }
        ensures err { OnErr result (self.new ≡ self.old) }
        ensures new { OnErr result (is_opened self.old p ≡ false) }
    {
        if self.places.contains_key(&p) {
            return Ok(());
        }
        let place = self.prefixes.len();
        if place >= u32::MAX as usize {
            return Err(NoMemory);
        }
        self.room = make_room(self.alloc, &mut self.columns, self.room, place)?;
        add_place(&mut self.places, &mut self.prefixes, p)
    }

    /// Sets a cell, and makes it dirty where its value changes. Answers whether it does.
    ///
    /// Cells of one prefix in a row cost one look-up, and each takes a constant time where the prefixes that change rise.
    /// Where other cells of the slot at greater prefixes are dirty, its place is put between theirs: that takes about the
    /// logarithm of their number, and moves half of them at most.
    pub fn set(&mut self, slot: Slot, p: Prefix, value: Option<RouteNo>) -> bool
        requires member { slot < self.old.members }
        requires opened { is_opened self.old p ≡ true }
        ensures changed { result ≡ not (is_same (cell self.old slot p) value) }
        ensures after { self.new ≡ after_set slot p value self.old }
    {
        let place = match place_of(&self.places, self.prefixes.as_slice(), self.last, &p) {
            Some(place) => place,
            None => unreachable!(),
        };
        self.last = place;
        set_cell(
            &mut self.columns,
            slot.0 as usize,
            self.prefixes.as_slice(),
            &p,
            place,
            value,
        )
    }

    /// The number in a cell, None where it has no route or its prefix isn't opened.
    pub fn get(&self, slot: Slot, p: Prefix) -> Option<RouteNo>
        requires { slot < self.now.members }
        ensures { result ≡ cell self.now slot p }
    {
        let place = place_of(&self.places, self.prefixes.as_slice(), self.last, &p)?;
        self.columns.number(slot.0 as usize, place)
    }

    /// The least dirty prefix of a slot, with the number in its cell, which is clean then. None exactly where no cell of
    /// the slot is dirty. It takes a constant time.
    pub fn take_dirty(&mut self, slot: Slot) -> Option<(Prefix, Option<RouteNo>)>
        requires { slot < self.old.members }
        ensures least { IsLeast (is_dirty self.old slot) (option_map (λ taken. taken.0) result) }
        ensures value { IfSome result (λ taken. taken.1 ≡ cell self.old slot taken.0) }
        ensures after { self.new ≡ cleaned slot (option_map (λ taken. taken.0) result) self.old }
    {
        if slot.0 as usize >= self.columns.len() {
            return None;
        }
        let place = self.columns.take_first(slot.0 as usize)?;
        let value = self.columns.number(slot.0 as usize, place);
        Some((self.prefixes[place as usize], value))
    }

    /// What `take_dirty` would give. It cleans nothing.
    pub fn least_dirty(&self, slot: Slot) -> Option<(Prefix, Option<RouteNo>)>
        requires { slot < self.now.members }
        ensures least { IsLeast (is_dirty self.now slot) (option_map (λ found. found.0) result) }
        ensures value { IfSome result (λ found. found.1 ≡ cell self.now slot found.0) }
    {
        if slot.0 as usize >= self.columns.len() {
            return None;
        }
        let place = self.columns.first(slot.0 as usize)?;
        let value = self.columns.number(slot.0 as usize, place);
        Some((self.prefixes[place as usize], value))
    }

    /// The least dirty prefix of a slot after the given one, or of all, with the number in its cell. None exactly where there is none.
    ///
    /// It takes a constant time where `passed` is the number of the slot's dirty prefixes up to the given one, and else about the
    /// logarithm of the number of its dirty prefixes. What it answers doesn't depend on `passed`.
    pub fn next_dirty(
        &self,
        slot: Slot,
        after: Option<Prefix>,
        passed: usize,
    ) -> Option<(Prefix, Option<RouteNo>)>
        requires { slot < self.now.members }
        ensures least { IsLeast (λ q. is_after after q && is_dirty self.now slot q) (option_map (λ found. found.0) result) }
        ensures value { IfSome result (λ found. found.1 ≡ cell self.now slot found.0) }
    {
        if slot.0 as usize >= self.columns.len() {
            return None;
        }
        let place = self
            .columns
            .next_dirty(slot.0 as usize, self.prefixes.as_slice(), after, passed)?;
        let value = self.columns.number(slot.0 as usize, place);
        Some((self.prefixes[place as usize], value))
    }

    /// Leaves each cell of a slot clean. Its values stay.
    pub fn clean(&mut self, slot: Slot)
        requires { slot < self.old.members }
        ensures { self.new ≡ unmarked slot self.old }
    {
        if (slot.0 as usize) < self.columns.len() {
            self.columns.clean(slot.0 as usize);
        }
    }

    /// Leaves each cell of a slot without a route and clean. It goes over the slot's cells.
    pub fn clear(&mut self, slot: Slot)
        requires { slot < self.old.members }
        ensures { self.new ≡ cleared slot self.old }
    {
        if (slot.0 as usize) < self.columns.len() {
            self.columns.clear(slot.0 as usize);
        }
    }

    /// The least opened prefix after the given one, or of all. None exactly where there is none. It takes about the
    /// logarithm of the number of opened prefixes.
    pub fn next_opened(&self, after: Option<Prefix>) -> Option<Prefix>
        ensures { IsLeast (λ q. is_after after q && is_opened self.now q) result }
    {
        match after {
            None => first(&self.places),
            Some(p) => first_after(&self.places, p),
        }
    }

    /// The least prefix after the given one, or of all, at which a slot's cell has a route. None exactly where there is
    /// none. It goes over the opened prefixes that it passes.
    pub fn next_entry(&self, slot: Slot, after: Option<Prefix>) -> Option<Prefix>
        requires { slot < self.now.members }
        ensures { IsLeast (λ q. is_after after q && is_some (cell self.now slot q)) result }
    {
        if slot.0 as usize >= self.columns.len() {
            return None;
        }
        match after {
            None => first_with(&self.places, &self.columns, slot.0 as usize),
            Some(p) => first_after_with(&self.places, &self.columns, slot.0 as usize, p),
        }
    }
}

/// The place of a prefix. The place that was found last is tried first.
fn place_of(
    places: &BTreeMap<Prefix, u32>,
    prefixes: &[Prefix],
    last: u32,
    p: &Prefix,
) -> Option<u32>
    requires { AreInverse places.now.entries prefixes.now }
    ensures { result ≡ place_of p.now places.now.entries }
{
    if let Some(q) = prefixes.get(last as usize) {
        if q == p {
            return Some(last);
        }
    }
    places.get(p).copied()
}
