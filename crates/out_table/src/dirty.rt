//! Which cells of one slot are dirty.

ghost use Rattle.std.specs.Prelude.{◌≡◌, ◌<◌, ◌≤◌, ◌&&◌, [], length, drop, insert, slice_get, slice_index_or, true, IsTrue, OnOk, IfSome, MatchOption};
ghost use Rattle.std.specs.Option.{option_map};
ghost use Rattle.std.specs.declared.cmp.Ordering.TheVariants.{Equal};
ghost use Rattle.rcp_base.specs.IpPrefix.{prefix_cmp};
ghost use Rattle.std.specs.List.{AllByRecursion};
ghost use Rattle.out_table.specs.Cells.{first_of};
ghost use Rattle.out_table.specs.Columns.{no_dirty};
ghost use Rattle.out_table.specs.Tables.{IsLeast, is_after};
ghost use Rattle.out_table.specs.Places.{IsRising, IsGap, IsPassed, is_listed, prefix_in};

use crate::marks::order_at;
use rcp_base::{NoMemory, Prefix};
use std::alloc::Global;
use std::cmp::Ordering;
use std::collections::VecDeque;
use std::marker::Model;

/// The places of a slot's dirty cells by rising prefix. There is room for so many of them.
#[derive(Debug, Drop)]
pub struct Dirty {
    places: VecDeque<u32>,
    room: usize,
}

impl Model for Dirty {
    ghost use Rattle.std.specs.Prelude.{◌≤◌};
    ghost use Rattle.std.specs.VecDeque.{deque_capacity};
    ghost use Rattle.out_table.specs.Columns.{DirtyOf};

    ghost Value = { DirtyOf };

    ghost view = { λ d. record { room = d.room; places = d.places.items } };

    ghost invariant = { λ d. d.room ≤ deque_capacity d.places };
}

impl Dirty {
    /// No place is dirty, and there is room for none.
    pub fn new(alloc: Global) -> Dirty
        ensures { result ≡ no_dirty }
    {
        Dirty {
            places: VecDeque::new(alloc),
            room: 0,
        }
    }

    /// Makes room for so many places in all. `NoMemory` where there is none.
    pub fn reserve(&mut self, room: usize) -> Result<(), NoMemory>
        ensures places { self.new.places ≡ self.old.places }
        ensures more { self.old.room ≤ self.new.room }
        ensures enough { OnOk result (room ≤ self.new.room) }
    {
        if room <= self.room {
            return Ok(());
        }
        let listed = self.places.len();
        self.places.reserve_exact(room.saturating_sub(listed))?;
        self.room = room;
        Ok(())
    }

    /// Where the place of a prefix belongs among the dirty ones, and None where it is there already. It takes one
    /// comparison where the prefix is above or at the last one, and else about the logarithm of their number.
    pub fn gap(&self, prefixes: &[Prefix], p: &Prefix) -> Option<usize>
        requires below { AllByRecursion (λ place. place < length prefixes.now) self.now.places }
        requires rising { IsRising prefixes.now self.now.places }
        ensures { MatchOption result (is_listed p.now prefixes.now self.now.places ≡ true) (IsGap p.now prefixes.now self.now.places) }
    {
        let last = match self.places.back() {
            Some(place) => order_at(prefixes, *place, p),
            None => return Some(0),
        };
        match last {
            Ordering::Less => Some(self.places.len()),
            Ordering::Equal => None,
            Ordering::Greater => self
                .places
                .binary_search_by(|place| order_at(prefixes, *place, p))
                .err(),
        }
    }

    /// Puts a place among the dirty ones. It moves those after it or those before it, whichever are fewer.
    pub fn mark(&mut self, gap: usize, place: u32)
        requires within { gap ≤ length self.old.places }
        requires room { length self.old.places < self.old.room }
        ensures { self.new ≡ record self.old { places = insert self.old.places gap place } }
    {
        match self.places.insert(gap, place) {
            Ok(()) => {}
            Err(_) => unreachable!(),
        }
    }

    /// The first of the dirty places.
    pub fn first(&self) -> Option<u32>
        ensures { result ≡ first_of self.now.places }
    {
        self.places.front().copied()
    }

    /// The dirty place of the least prefix after the given one, or of all. Where the places up to the given prefix are as many as
    /// `passed` says, it takes a constant time, and else about the logarithm of the number of places.
    pub fn next(&self, prefixes: &[Prefix], after: Option<Prefix>, passed: usize) -> Option<u32>
        requires below { AllByRecursion (λ place. place < length prefixes.now) self.now.places }
        requires rising { IsRising prefixes.now self.now.places }
        ensures least { IsLeast (λ q. is_after after q && is_listed q prefixes.now self.now.places) (option_map (prefix_in prefixes.now) result) }
        ensures within { IfSome result (λ place. place < length prefixes.now) }
    {
        let count = match after {
            None => 0,
            Some(p) => self.count_to(prefixes, &p, passed),
        };
        self.nth(count)
    }

    /// The dirty place of a number.
    fn nth(&self, n: usize) -> Option<u32>
        ensures { result ≡ slice_get self.now.places n }
    {
        self.places.get(n).copied()
    }

    /// How many of the dirty places are of prefixes up to this one. A guess is tried first.
    fn count_to(&self, prefixes: &[Prefix], p: &Prefix, guess: usize) -> usize
        requires below { AllByRecursion (λ place. place < length prefixes.now) self.now.places }
        requires rising { IsRising prefixes.now self.now.places }
        ensures { IsPassed p.now prefixes.now self.now.places result }
    {
        if guess > 0 && self.is_at(prefixes, guess - 1, p) {
            return guess;
        }
        match self
            .places
            .binary_search_by(|place| order_at(prefixes, *place, p))
        {
            Ok(n) => n + 1,
            Err(n) => n,
        }
    }

    /// Whether the dirty place of a number is that of a prefix.
    fn is_at(&self, prefixes: &[Prefix], n: usize, p: &Prefix) -> bool
        requires { AllByRecursion (λ place. place < length prefixes.now) self.now.places }
        ensures { IsTrue result → (n < length self.now.places) × (prefix_cmp (prefix_in prefixes.now (slice_index_or self.now.places n 0)) p.now ≡ Equal) }
    {
        match self.places.get(n) {
            Some(place) => order_at(prefixes, *place, p) == Ordering::Equal,
            None => false,
        }
    }

    /// Takes the first of the dirty places away, and answers it.
    pub fn take_first(&mut self) -> Option<u32>
        ensures value { result ≡ first_of self.old.places }
        ensures rest { self.new ≡ record self.old { places = drop 1 self.old.places } }
    {
        self.places.pop_front()
    }

    /// Leaves no place dirty.
    pub fn clear(&mut self)
        ensures { self.new ≡ record self.old { places = [] } }
    {
        self.places.truncate(0);
    }
}
