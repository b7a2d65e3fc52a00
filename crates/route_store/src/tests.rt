use crate::{RouteNo, RouteStore};
use rcp_base::{Prefix, Slot};
use std::test::Fail;

const FIRST: u32 = 0xc0000200;

const SECOND: u32 = 0xcb007100;

#[test]
fn announcers_stand_by_rising_slot(rt: HostRuntime) -> Result<(), Fail> {
    let mut store = RouteStore::new(rt.alloc(), 4)?;
    let p = Prefix::new(FIRST, 24).ok_or("length")?;
    for slot in [3, 0, 2] {
        assert!(rt; store.set(Slot(slot), p, RouteNo(7))?);
    }
    let slots = store.announcers(p);
    assert_eq!(rt; slots.len(), 3);
    assert_eq!(rt; slots[0].slot(), Slot(0));
    assert_eq!(rt; slots[1].slot(), Slot(2));
    assert_eq!(rt; slots[2].slot(), Slot(3));
    Ok(())
}

#[test]
fn the_same_route_again_is_no_change(rt: HostRuntime) -> Result<(), Fail> {
    let mut store = RouteStore::new(rt.alloc(), 4)?;
    let p = Prefix::new(FIRST, 24).ok_or("length")?;
    assert!(rt; store.set(Slot(1), p, RouteNo(7))?);
    assert!(rt; !store.set(Slot(1), p, RouteNo(7))?);
    assert!(rt; store.set(Slot(1), p, RouteNo(8))?);
    assert_eq!(rt; store.replace(Slot(1), p, RouteNo(9))?, Some(RouteNo(8)));
    assert_eq!(rt; store.replace(Slot(2), p, RouteNo(9))?, None);
    Ok(())
}

#[test]
fn a_slot_beyond_the_members_is_kept_too(rt: HostRuntime) -> Result<(), Fail> {
    let mut store = RouteStore::new(rt.alloc(), 1)?;
    let p = Prefix::new(FIRST, 24).ok_or("length")?;
    assert!(rt; store.set(Slot(511), p, RouteNo(7))?);
    assert_eq!(rt; store.get(Slot(511), p), Some(RouteNo(7)));
    Ok(())
}

#[test]
fn dropping_a_slot_leaves_the_others(rt: HostRuntime) -> Result<(), Fail> {
    let mut store = RouteStore::new(rt.alloc(), 4)?;
    let p = Prefix::new(FIRST, 24).ok_or("length")?;
    let q = Prefix::new(SECOND, 24).ok_or("length")?;
    store.set(Slot(1), p, RouteNo(7))?;
    store.set(Slot(1), q, RouteNo(7))?;
    store.set(Slot(2), q, RouteNo(8))?;
    assert_eq!(rt; store.prefixes(), 2);
    store.drop_all(Slot(1));
    assert_eq!(rt; store.prefixes(), 1);
    assert_eq!(rt; store.next_prefix(None), Some(q));
    assert_eq!(rt; store.next_of(Slot(1), None), None);
    Ok(())
}
