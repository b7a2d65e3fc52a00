//! The prefixes of each slot, by slot.

ghost use Rattle.std.specs.Prelude.{◌≡◌, ◌<◌, ◌≤◌, true, false, not, length, IfOk, OnOk, OnErr, IsTrue};
ghost use Rattle.route_store.specs.Next.{IsNext};
ghost use Rattle.route_store.specs.Rows.{has_seat, SeatsThen, SameSeats};

use rcp_base::{NoMemory, Prefix, Slot};
use std::alloc::Global;
use std::collections::BTreeSet;
use std::ops::Bound;

/// Makes room for slots below a count.
pub fn grow(seats: &mut Vec<BTreeSet<Prefix>>, alloc: Global, count: usize) -> Result<(), NoMemory>
    ensures room { OnOk result (count ≤ length seats.new.items) }
    ensures same { SameSeats seats.old.items seats.new.items }
{
    while seats.len() < count {
        if seats.push(BTreeSet::new(alloc)).is_err() {
            return Err(NoMemory);
        }
    }
    Ok(())
}

/// Adds a prefix to those of a slot, and answers whether it is new.
pub fn add_seat(
    seats: &mut Vec<BTreeSet<Prefix>>,
    alloc: Global,
    slot: Slot,
    p: Prefix,
) -> Result<bool, NoMemory>
    ensures added { IfOk result (λ added. added ≡ not (has_seat seats.old.items (p, slot))) }
    ensures there { OnOk result (SeatsThen seats.old.items seats.new.items (p, slot) true) }
    ensures same { OnErr result (SameSeats seats.old.items seats.new.items) }
{
    let place = usize::from(slot.0);
    let Ok(()) = grow(seats, alloc, place + 1) else {
        return Err(NoMemory);
    };
    let Ok(added) = seats[place].insert(p) else {
        return Err(NoMemory);
    };
    Ok(added)
}

/// Takes a prefix from those of a slot.
pub fn remove_seat(seats: &mut Vec<BTreeSet<Prefix>>, slot: Slot, p: Prefix)
    ensures { SeatsThen seats.old.items seats.new.items (p, slot) false }
{
    let place = usize::from(slot.0);
    if place < seats.len() {
        seats[place].remove(&p);
    }
}

/// The least prefix of a slot after a given one.
pub fn next_seat(seats: &[BTreeSet<Prefix>], slot: Slot, after: Option<Prefix>) -> Option<Prefix>
    ensures { IsNext (λ q. IsTrue (has_seat seats.now (q, slot))) after result }
{
    let Some(prefixes) = seats.get(usize::from(slot.0)) else {
        return None;
    };
    match after {
        Some(p) => match prefixes
            .range((Bound::Excluded(p), Bound::Unbounded))
            .next()
        {
            Some(q) => Some(*q),
            None => None,
        },
        None => match prefixes.first() {
            Some(q) => Some(*q),
            None => None,
        },
    }
}
