//! Room for more prefixes and their cells.

ghost use Rattle.std.specs.Prelude.{◌≡◌, ℕ, ◌^◌, ◌<◌, ◌≤◌, length, OnOk, OnErr, IfOk, None, ◌++◌, ◌∷◌, []};
ghost use Rattle.out_table.specs.Columns.{dirty_at, Roomier};
ghost use Rattle.out_table.specs.Places.{KeepsAll, IsRoom, place_of, Adds};

use crate::columns::Columns;
use crate::dirty::Dirty;
use rcp_base::{NoMemory, Prefix};
use std::alloc::Global;
use std::collections::BTreeMap;

/// Makes room for a place where there is none, and answers for how many places there is room then. `NoMemory` where
/// there is none to be had; the cells that there were are as before then.
pub fn make_room(
    alloc: Global,
    columns: &mut Columns,
    room: usize,
    place: usize,
) -> Result<usize, NoMemory>
    requires room { IsRoom columns.old.members room columns.old.items }
    requires small { place < 2 ^ 32 }
    ensures kept { KeepsAll columns.old.items columns.new.items }
    ensures members { columns.new.members ≡ columns.old.members }
    ensures few { length columns.new.items ≤ columns.new.members }
    ensures enough { IfOk result (λ more. (place < more) × IsRoom columns.new.members more columns.new.items) }
{
    if place < room {
        return Ok(room);
    }
    let more = place + place / 4 + 16;
    columns.grow(alloc, more)?;
    Ok(more)
}

/// Adds slots up to a number of them. No place is dirty there.
pub fn add_slots(alloc: Global, dirty: &mut Vec<Dirty>, members: usize) -> Result<(), NoMemory>
    requires few { length dirty.old.items ≤ members }
    ensures roomier { Roomier dirty.old.items dirty.new.items }
    ensures few { length dirty.new.items ≤ members }
    ensures full { OnOk result (length dirty.new.items ≡ members) }
{
    for _i in dirty.len()..members {
        dirty.push(Dirty::new(alloc))?;
    }
    Ok(())
}

/// Makes room for so many dirty places in each slot.
pub fn make_wider(dirty: &mut Vec<Dirty>, room: usize) -> Result<(), NoMemory>
    ensures roomier { Roomier dirty.old.items dirty.new.items }
    ensures len { length dirty.new.items ≡ length dirty.old.items }
    ensures enough { OnOk result ((slot : ℕ) → slot < length dirty.new.items → room ≤ (dirty_at slot dirty.new.items).room) }
{
    for slot in 0..dirty.len() {
        dirty[slot].reserve(room)?;
    }
    Ok(())
}

/// Gives a prefix the next place. `NoMemory` where there is no room; nothing changes then.
pub fn add_place(
    places: &mut BTreeMap<Prefix, u32>,
    prefixes: &mut Vec<Prefix>,
    p: Prefix,
) -> Result<(), NoMemory>
    requires absent { place_of p places.old.entries ≡ None }
    requires small { length prefixes.old.items < 2 ^ 32 }
    ensures place { OnOk result (Adds p (length prefixes.old.items) places.old.entries places.new.entries) }
    ensures prefix { OnOk result (prefixes.new.items ≡ prefixes.old.items ++ p ∷ []) }
    ensures places_err { OnErr result (places.new.entries ≡ places.old.entries) }
    ensures prefixes_err { OnErr result (prefixes.new.items ≡ prefixes.old.items) }
{
    let place = prefixes.len() as u32;
    prefixes.try_reserve(1)?;
    places.insert(p, place)?;
    match prefixes.push(p) {
        Ok(()) => Ok(()),
        Err(_) => unreachable!(),
    }
}
