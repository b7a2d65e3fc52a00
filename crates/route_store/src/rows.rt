//! The announcements of all prefixes, in a row for each prefix that is announced.

ghost use Rattle.std.specs.Prelude.{◌≡◌, Some, None, IfOk, OnOk, OnErr, IsSome};
ghost use Rattle.std.specs.BTreeMap as tree;
ghost use Rattle.std.specs.BTreeMap.{IsOrdered};
ghost use Rattle.rcp_base.specs.IpPrefix.{prefix_cmp};
ghost use Rattle.route_store.specs.Next.{IsNext};
ghost use Rattle.route_store.specs.Rows.{number_at, Puts, SameNumbers, IsFilled};

use crate::row::Row;
use rcp_base::{NoMemory, Prefix, Slot};
use rcp_model::RouteNo;
use std::alloc::Global;
use std::collections::BTreeMap;
use std::ops::Bound;

/// The number that a slot has at a prefix.
pub fn number(rows: &BTreeMap<Prefix, Row>, p: Prefix, slot: Slot) -> Option<RouteNo>
    ensures { result ≡ number_at rows.now (p, slot) }
{
    match rows.get(&p) {
        Some(row) => row.get(slot),
        None => None,
    }
}

/// Gives a slot a number at a prefix, and answers the one that it had.
pub fn put(
    rows: &mut BTreeMap<Prefix, Row>,
    alloc: Global,
    p: Prefix,
    slot: Slot,
    route: RouteNo,
) -> Result<Option<RouteNo>, NoMemory>
    requires { IsFilled rows.old }
    ensures old { IfOk result (λ old. old ≡ number_at rows.old (p, slot)) }
    ensures put { OnOk result (Puts rows.old rows.new (p, slot) (Some route)) }
    ensures same { OnErr result (SameNumbers rows.old rows.new) }
    ensures ordered { IsOrdered prefix_cmp rows.new }
    ensures filled { IsFilled rows.new }
{
    if let Some(row) = rows.get_mut(&p) {
        return row.set(slot, route);
    }
    put_first(rows, alloc, p, slot, route)
}

/// Makes the row of a prefix that has none.
fn put_first(
    rows: &mut BTreeMap<Prefix, Row>,
    alloc: Global,
    p: Prefix,
    slot: Slot,
    route: RouteNo,
) -> Result<Option<RouteNo>, NoMemory>
    requires absent { tree.get prefix_cmp rows.old p ≡ None }
    requires ordered { IsOrdered prefix_cmp rows.old }
    requires filled { IsFilled rows.old }
    ensures old { IfOk result (λ old. old ≡ None) }
    ensures put { OnOk result (Puts rows.old rows.new (p, slot) (Some route)) }
    ensures same { OnErr result (SameNumbers rows.old rows.new) }
    ensures ordered { IsOrdered prefix_cmp rows.new }
    ensures filled { IsFilled rows.new }
{
    let Ok(row) = Row::of(alloc, slot, route) else {
        return Err(NoMemory);
    };
    let Ok(_before) = rows.insert(p, row) else {
        return Err(NoMemory);
    };
    Ok(None)
}

/// Takes the number of a slot at a prefix out, and with the last one the row.
pub fn take(rows: &mut BTreeMap<Prefix, Row>, p: Prefix, slot: Slot) -> Option<RouteNo>
    requires { IsFilled rows.old }
    ensures old { result ≡ number_at rows.old (p, slot) }
    ensures taken { Puts rows.old rows.new (p, slot) None }
    ensures ordered { IsOrdered prefix_cmp rows.new }
    ensures filled { IsFilled rows.new }
{
    let Some(row) = rows.get_mut(&p) else {
        return None;
    };
    let number = row.remove(slot);
    if !row.is_empty() {
        return number;
    }
    rows.remove(&p);
    number
}

/// The least prefix with a row after a given one.
pub fn next_row(rows: &BTreeMap<Prefix, Row>, after: Option<Prefix>) -> Option<Prefix>
    ensures { IsNext (λ q. IsSome (tree.get prefix_cmp rows.now q)) after result }
{
    match after {
        Some(p) => match rows.range((Bound::Excluded(p), Bound::Unbounded)).next() {
            Some((q, _)) => Some(*q),
            None => None,
        },
        None => match rows.first_key_value() {
            Some((q, _)) => Some(*q),
            None => None,
        },
    }
}
