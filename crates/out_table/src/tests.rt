use crate::OutTable;
use rcp_base::{Prefix, Slot};
use rcp_model::RouteNo;
use std::alloc::Global;
use std::test::Fail;

/// 10.0.N.0/24.
fn prefix(n: u8) -> Option<Prefix> {
    Prefix::new(0x0a00_0000 | u32::from(n) << 8, 24)
}

/// Sets a cell where its prefix is opened.
fn put(table: &mut OutTable, slot: u16, p: Prefix, number: Option<usize>) -> Option<bool> {
    if slot >= table.members() || !table.is_opened(p) {
        return None;
    }
    let value = match number {
        Some(number) => RouteNo::new(number),
        None => None,
    };
    Some(table.set(Slot(slot), p, value))
}

fn take(table: &mut OutTable, slot: u16) -> Option<(Prefix, Option<RouteNo>)> {
    if slot >= table.members() {
        return None;
    }
    table.take_dirty(Slot(slot))
}

/// A table for two slots with three opened prefixes.
fn three(alloc: Global) -> Result<(OutTable, [Prefix; 3]), Fail> {
    let a = prefix(1).ok_or("no prefix")?;
    let b = prefix(2).ok_or("no prefix")?;
    let c = prefix(3).ok_or("no prefix")?;
    let mut table = OutTable::new(alloc, 2);
    table.open(b)?;
    table.open(c)?;
    table.open(a)?;
    table.open(b)?;
    Ok((table, [a, b, c]))
}

#[test]
fn least_dirty_prefix_comes_first(rt: HostRuntime) -> Result<(), Fail> {
    let (mut table, [a, b, c]) = three(rt.alloc())?;
    assert_eq!(rt; put(&mut table, 1, c, Some(7)), Some(true));
    assert_eq!(rt; put(&mut table, 1, a, Some(8)), Some(true));
    assert_eq!(rt; put(&mut table, 0, b, Some(9)), Some(true));
    assert_eq!(rt; take(&mut table, 1), Some((a, RouteNo::new(8))));
    assert_eq!(rt; put(&mut table, 1, b, Some(9)), Some(true));
    assert_eq!(rt; take(&mut table, 1), Some((b, RouteNo::new(9))));
    assert_eq!(rt; take(&mut table, 1), Some((c, RouteNo::new(7))));
    assert_eq!(rt; take(&mut table, 1), None);
    assert_eq!(rt; take(&mut table, 0), Some((b, RouteNo::new(9))));
    Ok(())
}

#[test]
fn only_a_change_makes_a_cell_dirty(rt: HostRuntime) -> Result<(), Fail> {
    let (mut table, [a, _b, _c]) = three(rt.alloc())?;
    assert_eq!(rt; put(&mut table, 0, a, None), Some(false));
    assert_eq!(rt; put(&mut table, 0, a, Some(5)), Some(true));
    assert_eq!(rt; take(&mut table, 0), Some((a, RouteNo::new(5))));
    assert_eq!(rt; put(&mut table, 0, a, Some(5)), Some(false));
    assert_eq!(rt; take(&mut table, 0), None);
    assert_eq!(rt; put(&mut table, 0, a, None), Some(true));
    assert_eq!(rt; take(&mut table, 0), Some((a, None)));
    Ok(())
}

#[test]
fn clear_leaves_the_other_slots(rt: HostRuntime) -> Result<(), Fail> {
    let (mut table, [a, b, c]) = three(rt.alloc())?;
    assert_eq!(rt; put(&mut table, 0, b, Some(1)), Some(true));
    assert_eq!(rt; put(&mut table, 1, c, Some(2)), Some(true));
    assert!(rt; table.members() == 2);
    table.clear(Slot(0));
    assert!(rt; table.members() == 2);
    assert_eq!(rt; table.get(Slot(0), b), None);
    assert_eq!(rt; table.least_dirty(Slot(0)), None);
    assert_eq!(rt; table.next_entry(Slot(0), None), None);
    assert_eq!(rt; table.next_entry(Slot(1), None), Some(c));
    assert_eq!(rt; table.next_entry(Slot(1), Some(c)), None);
    assert_eq!(rt; table.least_dirty(Slot(1)), Some((c, RouteNo::new(2))));
    assert_eq!(rt; table.next_opened(None), Some(a));
    assert_eq!(rt; table.next_opened(Some(a)), Some(b));
    assert_eq!(rt; table.next_opened(Some(c)), None);
    Ok(())
}
