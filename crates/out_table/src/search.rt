//! The first of the opened prefixes, in their order, that passes a test.

ghost use Rattle.std.specs.Prelude.{◌≡◌, find, slice_get, is_some, ◌<◌, length};
ghost use Rattle.std.specs.Option.{option_map};
ghost use Rattle.out_table.specs.Cells.{number_at};
ghost use Rattle.out_table.specs.Places.{Place, cells_at, places_after};

use crate::columns::Columns;
use rcp_base::Prefix;
use std::collections::BTreeMap;
use std::ops::Bound;

/// The first prefix of all.
pub fn first(places: &BTreeMap<Prefix, u32>) -> Option<Prefix>
    ensures { result ≡ option_map (λ (e : Place). e.0) (slice_get places.now.entries 0) }
{
    places.iter().next().map(|e| *e.0)
}

/// The first prefix after another.
pub fn first_after(places: &BTreeMap<Prefix, u32>, p: Prefix) -> Option<Prefix>
    ensures { result ≡ option_map (λ (e : Place). e.0) (slice_get (places_after p places.now.entries) 0) }
{
    places
        .range((Bound::Excluded(p), Bound::Unbounded))
        .next()
        .map(|e| *e.0)
}

/// The first prefix of all at which there is a number.
pub fn first_with(places: &BTreeMap<Prefix, u32>, columns: &Columns, slot: usize) -> Option<Prefix>
    requires { slot < length columns.now.items }
    ensures { result ≡ option_map (λ (e : Place). e.0)
        (find (λ (e : Place). is_some (number_at e.1 (cells_at slot columns.now.items).numbers)) places.now.entries) }
{
    for (p, place) in places {
        if columns.has_number(slot, *place) {
            return Some(*p);
        }
    }
    None
}

/// The first prefix after another at which there is a number.
pub fn first_after_with(
    places: &BTreeMap<Prefix, u32>,
    columns: &Columns,
    slot: usize,
    p: Prefix,
) -> Option<Prefix>
    requires { slot < length columns.now.items }
    ensures { result ≡ option_map (λ (e : Place). e.0)
        (find (λ (e : Place). is_some (number_at e.1 (cells_at slot columns.now.items).numbers)) (places_after p places.now.entries)) }
{
    for (q, place) in places.range((Bound::Excluded(p), Bound::Unbounded)) {
        if columns.has_number(slot, *place) {
            return Some(*q);
        }
    }
    None
}
