//! The cells of all slots, and which of them are dirty.

ghost use Rattle.std.specs.Prelude.{◌≡◌, ℕ, ◌<◌, ◌≤◌, ◌*◌, ◌-◌, ◌^◌, [], length, drop, insert, slice_set, replicate, true, not, is_some, OnOk, IfSome, MatchOption, ◌&&◌};
ghost use Rattle.std.specs.Option.{option_map};
ghost use Rattle.std.specs.List.{AllByRecursion};
ghost use Rattle.out_table.specs.Cells.{no_number, held_for, number_at, is_same, first_of};
ghost use Rattle.out_table.specs.Tables.{IsLeast, is_after};
ghost use Rattle.out_table.specs.Places.{cells_at, prefix_in, IsRising, IsGap, is_listed, KeepsAll};
ghost use Rattle.out_table.specs.Columns.{index_of, Empties};

use crate::dirty::Dirty;
use crate::growth::{add_slots, make_wider};
use rcp_base::{NoMemory, Prefix};
use rcp_model::RouteNo;
use std::alloc::Global;
use std::marker::Model;

/// What a cell without a route holds. No number of a route is this.
const NO_ROUTE: u32 = u32::MAX;

/// How many cells of a slot lie side by side.
const LINE: usize = 16;

/// The cells of each slot by place, in four octets each, and the places of the dirty ones. Contracts see the cells of each slot.
///
/// Sixteen places of a slot lie side by side, and then the same places of the next slot. So the cells of a prefix lie close to one
/// another, and those of a slot are read in order.
#[derive(Debug, Drop)]
pub struct Columns {
    members: u16,
    lines: usize,
    numbers: Vec<u32>,
    dirty: Vec<Dirty>,
}

impl Model for Columns {
    ghost use Rattle.out_table.specs.Columns.{ColumnsOf, columns_in, AreLaid};

    ghost Value = { ColumnsOf };

    ghost view = { λ c. record { members = c.members; items = columns_in c.members c.lines c.numbers.items c.dirty.items } };

    ghost invariant = { λ c. AreLaid c.members c.lines c.numbers.items c.dirty.items };
}

impl Columns {
    /// Columns for so many slots. None has a cell.
    pub fn new(alloc: Global, members: u16) -> Columns
        ensures members { result.members ≡ members }
        ensures items { result.items ≡ [] }
    {
        Columns {
            members,
            lines: 0,
            numbers: Vec::new(alloc),
            dirty: Vec::new(alloc),
        }
    }

    /// For how many slots the cells are.
    pub fn members(&self) -> u16
        ensures { result ≡ self.now.members }
    {
        self.members
    }

    /// How many slots have cells: all of them, or none.
    pub fn len(&self) -> usize
        ensures { result ≡ length self.now.items }
    {
        self.dirty.len()
    }

    /// Makes at least so many cells in all for each slot: new ones have no route and are clean. `NoMemory` where there is no room.
    pub fn grow(&mut self, alloc: Global, count: usize) -> Result<(), NoMemory>
        requires small { count < 2 ^ 34 }
        ensures kept { KeepsAll self.old.items self.new.items }
        ensures members { self.new.members ≡ self.old.members }
        ensures few { length self.new.items ≤ self.new.members }
        ensures full { OnOk result (length self.new.items ≡ self.new.members) }
        ensures enough { OnOk result ((slot : ℕ) → slot < length self.new.items → count ≤ length (cells_at slot self.new.items).numbers) }
    {
        let lines = count / LINE + 1;
        if lines <= self.lines {
            return Ok(());
        }
        add_slots(alloc, &mut self.dirty, usize::from(self.members))?;
        make_wider(&mut self.dirty, lines * LINE)?;
        let len = usize::from(self.members) * lines * LINE;
        self.numbers.try_reserve_exact(len - self.numbers.len())?;
        self.numbers.resize(len, NO_ROUTE)?;
        self.lines = lines;
        Ok(())
    }

    /// The number in a cell.
    pub fn number(&self, slot: usize, place: u32) -> Option<RouteNo>
        requires slot { slot < length self.now.items }
        requires place { place < length (cells_at slot self.now.items).numbers }
        ensures { result ≡ number_at place (cells_at slot self.now.items).numbers }
    {
        let at = index(self.members, slot, place as usize);
        RouteNo::new(self.numbers[at] as usize)
    }

    /// Whether there is a number in a cell: not where there is no cell.
    pub fn has_number(&self, slot: usize, place: u32) -> bool
        requires { slot < length self.now.items }
        ensures { result ≡ is_some (number_at place (cells_at slot self.now.items).numbers) }
    {
        let place = place as usize;
        if place / LINE >= self.lines {
            return false;
        }
        self.numbers[index(self.members, slot, place)] != NO_ROUTE
    }

    /// Writes a cell, and answers whether its value changes.
    pub fn write(&mut self, slot: usize, place: u32, value: Option<RouteNo>) -> bool
        requires slot { slot < length self.old.items }
        requires place { place < length (cells_at slot self.old.items).numbers }
        ensures changed { result ≡ not (is_same (number_at place (cells_at slot self.old.items).numbers) value) }
        ensures small { IfSome value (λ number. number < 2 ^ 32 - 1) }
        ensures cells { self.new ≡ record self.old { items = slice_set self.old.items slot (record (cells_at slot self.old.items) { numbers = slice_set (cells_at slot self.old.items).numbers place (held_for value) }) } }
    {
        let number = held(value);
        let at = index(self.members, slot, place as usize);
        let changes = self.numbers[at] != number;
        self.numbers[at] = number;
        changes
    }

    /// Where the place of a prefix belongs among the dirty ones of a slot, and None where it is there already.
    pub fn gap(&self, slot: usize, prefixes: &[Prefix], p: &Prefix) -> Option<usize>
        requires slot { slot < length self.now.items }
        requires below { AllByRecursion (λ place. place < length prefixes.now) (cells_at slot self.now.items).dirty }
        requires rising { IsRising prefixes.now (cells_at slot self.now.items).dirty }
        ensures { MatchOption result (is_listed p.now prefixes.now (cells_at slot self.now.items).dirty ≡ true) (IsGap p.now prefixes.now (cells_at slot self.now.items).dirty) }
    {
        self.dirty[slot].gap(prefixes, p)
    }

    /// Puts a place among the dirty ones of a slot.
    pub fn mark(&mut self, slot: usize, gap: usize, place: u32)
        requires slot { slot < length self.old.items }
        requires within { gap ≤ length (cells_at slot self.old.items).dirty }
        requires room { length (cells_at slot self.old.items).dirty < length (cells_at slot self.old.items).numbers }
        ensures { self.new ≡ record self.old { items = slice_set self.old.items slot (record (cells_at slot self.old.items) { dirty = insert (cells_at slot self.old.items).dirty gap place }) } }
    {
        let dirty = &mut self.dirty[slot];
        dirty.mark(gap, place);
    }

    /// The first of the dirty places of a slot.
    pub fn first(&self, slot: usize) -> Option<u32>
        requires { slot < length self.now.items }
        ensures { result ≡ first_of (cells_at slot self.now.items).dirty }
    {
        self.dirty[slot].first()
    }

    /// The dirty place of a slot that is of the least prefix after the given one, or of all. It takes a constant time where so many
    /// of the slot's dirty places are of prefixes up to the given one as `passed` says.
    pub fn next_dirty(
        &self,
        slot: usize,
        prefixes: &[Prefix],
        after: Option<Prefix>,
        passed: usize,
    ) -> Option<u32>
        requires slot { slot < length self.now.items }
        requires below { AllByRecursion (λ place. place < length prefixes.now) (cells_at slot self.now.items).dirty }
        requires rising { IsRising prefixes.now (cells_at slot self.now.items).dirty }
        ensures least { IsLeast (λ q. is_after after q && is_listed q prefixes.now (cells_at slot self.now.items).dirty) (option_map (prefix_in prefixes.now) result) }
        ensures within { IfSome result (λ place. place < length prefixes.now) }
    {
        self.dirty[slot].next(prefixes, after, passed)
    }

    /// Takes the first of the dirty places of a slot away, and answers it.
    pub fn take_first(&mut self, slot: usize) -> Option<u32>
        requires { slot < length self.old.items }
        ensures value { result ≡ first_of (cells_at slot self.old.items).dirty }
        ensures rest { self.new ≡ record self.old { items = slice_set self.old.items slot (record (cells_at slot self.old.items) { dirty = drop 1 (cells_at slot self.old.items).dirty }) } }
    {
        let dirty = &mut self.dirty[slot];
        dirty.take_first()
    }

    /// Leaves every cell of a slot clean.
    pub fn clean(&mut self, slot: usize)
        requires { slot < length self.old.items }
        ensures { self.new ≡ record self.old { items = slice_set self.old.items slot (record (cells_at slot self.old.items) { dirty = [] }) } }
    {
        let dirty = &mut self.dirty[slot];
        dirty.clear();
    }

    /// Leaves every cell of a slot without a route and clean.
    pub fn clear(&mut self, slot: usize)
        requires { slot < length self.old.items }
        ensures { self.new ≡ record self.old { items = slice_set self.old.items slot (record { numbers = replicate (length (cells_at slot self.old.items).numbers) no_number; dirty = [] }) } }
    {
        empty(&mut self.numbers, self.members, self.lines, slot);
        let dirty = &mut self.dirty[slot];
        dirty.clear();
    }
}

/// Where the cell of a slot at a place lies.
fn index(members: u16, slot: usize, place: usize) -> usize
    requires { index_of members slot place < 2 ^ 64 }
    ensures { result ≡ index_of members slot place }
{
    (place / LINE * usize::from(members) + slot) * LINE + place % LINE
}

/// Leaves the cells of a slot without a route.
fn empty(numbers: &mut Vec<u32>, members: u16, lines: usize, slot: usize)
    requires slot { slot < members }
    requires whole { length numbers.old.items ≡ members * lines * 16 }
    ensures { Empties members slot (lines * 16) numbers.old.items numbers.new.items }
{
    for place in 0..lines * LINE {
        let at = index(members, slot, place);
        numbers[at] = NO_ROUTE;
    }
}

/// What a cell holds for a value.
fn held(value: Option<RouteNo>) -> u32
    ensures held { result ≡ held_for value }
    ensures small { IfSome value (λ n. n < 2 ^ 32 - 1) }
{
    match value {
        None => NO_ROUTE,
        Some(route) => route.number() as u32,
    }
}
