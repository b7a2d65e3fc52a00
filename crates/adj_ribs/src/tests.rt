use crate::AdjRibs;
use rcp_base::{Addr, NoMemory, Prefix, Slot};
use rcp_model::{Octets, Route};
use std::alloc::Global;
use std::process::Abort;
use std::sync::Arc;
use std::test::Fail;

/// ORIGIN IGP, AS_PATH 65001, NEXT_HOP 10.0.0.1 and LOCAL_PREF 100 (RFC 4271 section 4.3).
const ATTRIBUTES: [u8; 25] = [
    64, 1, 1, 0, 64, 2, 4, 2, 1, 253, 233, 64, 3, 4, 10, 0, 0, 1, 64, 5, 4, 0, 0, 0, 100,
];

/// A route of these octets with a discriminator, which isn't that of the octets.
fn route(alloc: Global, med: u32) -> Result<Route, NoMemory> {
    let octets = Octets::from_slice(alloc, &ATTRIBUTES)?;
    Ok(Route {
        pref: 100,
        hops: 1,
        origin: 0,
        neighbour: 65001,
        med,
        looped: false,
        long: false,
        next_hop: Addr(0x0a000001),
        attrs: Arc::new(alloc, octets)?,
    })
}

/// 10.0.N.0/24.
fn prefix(n: u8) -> Result<Prefix, Fail> {
    Ok(Prefix::new(0x0a00_0000 | u32::from(n) << 8, 24).ok_or("no prefix")?)
}

/// Whether what a slot announces at a prefix changes by a route with a discriminator.
fn announce(
    alloc: Global,
    ribs: &mut AdjRibs,
    slot: u16,
    p: Prefix,
    med: u32,
) -> Result<bool, Fail> {
    let route = route(alloc, med)?;
    Ok(ribs.announce(Slot(slot), p, route)?)
}

fn withdraw(ribs: &mut AdjRibs, slot: u16, p: Prefix) -> bool {
    ribs.withdraw(Slot(slot), p)
}

fn drop_all(ribs: &mut AdjRibs, slot: u16) {
    ribs.drop_all(Slot(slot));
}

fn is_opened(ribs: &AdjRibs, p: Prefix) -> bool {
    ribs.is_opened(p)
}

/// How many prefixes are announced, and the first of them.
fn announced(ribs: &AdjRibs) -> (u64, Option<Prefix>) {
    (ribs.prefixes(), ribs.next_prefix(None))
}

/// Gives a slot what another announces at a prefix, where it can be given.
fn give(ribs: &mut AdjRibs, to: u16, p: Prefix, place: usize) -> Option<bool> {
    if to >= ribs.members() || !ribs.is_opened(p) {
        return None;
    }
    let announcers = ribs.announcers(p);
    if place >= announcers.len() {
        return Some(ribs.set_cell(Slot(to), p, None));
    }
    let from = announcers[place];
    Some(ribs.set_cell(Slot(to), p, Some(from)))
}

fn take(ribs: &mut AdjRibs, slot: u16) -> Option<Prefix> {
    if slot >= ribs.members() {
        return None;
    }
    ribs.take_dirty(Slot(slot))
}

fn clear(ribs: &mut AdjRibs, slot: u16) {
    if slot < ribs.members() {
        ribs.clear(Slot(slot));
    }
}

fn cell_med(ribs: &AdjRibs, slot: u16, p: Prefix) -> Option<u32> {
    if slot >= ribs.members() {
        return None;
    }
    let route = ribs.cell(Slot(slot), p)?;
    Some(route.med)
}

fn change<R: Abort>(rt: &R, alloc: Global, ribs: &mut AdjRibs, p: Prefix) -> Result<(), Fail> {
    assert!(rt; announce(alloc, ribs, 1, p, 0)?);
    assert!(rt; !announce(alloc, ribs, 1, p, 0)?);
    assert!(rt; announce(alloc, ribs, 1, p, 7)?);
    Ok(())
}

fn take_back<R: Abort>(rt: &R, ribs: &mut AdjRibs, p: Prefix) {
    assert!(rt; withdraw(ribs, 1, p));
    assert!(rt; !withdraw(ribs, 1, p));
    assert!(rt; is_opened(ribs, p));
}

#[test]
fn only_another_route_is_a_change(rt: HostRuntime) -> Result<(), Fail> {
    let p = prefix(1)?;
    let mut ribs = AdjRibs::new(rt.alloc(), 2)?;
    change(&rt, rt.alloc(), &mut ribs, p)?;
    take_back(&rt, &mut ribs, p);
    Ok(())
}

fn outlive<R: Abort>(rt: &R, ribs: &mut AdjRibs, p: Prefix) {
    assert_eq!(rt; give(ribs, 0, p, 0), Some(true));
    assert_eq!(rt; announced(ribs), (1, Some(p)));
    drop_all(ribs, 1);
    assert_eq!(rt; announced(ribs), (0, None));
    assert_eq!(rt; cell_med(ribs, 0, p), Some(7));
    assert_eq!(rt; give(ribs, 0, p, 0), Some(true));
    assert_eq!(rt; cell_med(ribs, 0, p), None);
}

#[test]
fn a_cell_keeps_its_route_after_the_announcement(rt: HostRuntime) -> Result<(), Fail> {
    let p = prefix(1)?;
    let mut ribs = AdjRibs::new(rt.alloc(), 2)?;
    announce(rt.alloc(), &mut ribs, 1, p, 7)?;
    outlive(&rt, &mut ribs, p);
    Ok(())
}

/// Both prefixes are given, the second one first.
fn give_both<R: Abort>(rt: &R, ribs: &mut AdjRibs, a: Prefix, b: Prefix) {
    assert_eq!(rt; give(ribs, 0, b, 0), Some(true));
    assert_eq!(rt; give(ribs, 0, a, 0), Some(true));
    assert_eq!(rt; give(ribs, 0, a, 0), Some(false));
    assert_eq!(rt;
        [take(ribs, 0), take(ribs, 0), take(ribs, 0)],
        [Some(a), Some(b), None]
    );
}

#[test]
fn least_dirty_prefix_comes_first(rt: HostRuntime) -> Result<(), Fail> {
    let a = prefix(1)?;
    let b = prefix(2)?;
    let mut ribs = AdjRibs::new(rt.alloc(), 2)?;
    announce(rt.alloc(), &mut ribs, 1, b, 7)?;
    announce(rt.alloc(), &mut ribs, 1, a, 7)?;
    give_both(&rt, &mut ribs, a, b);
    Ok(())
}

fn clear_one<R: Abort>(rt: &R, ribs: &mut AdjRibs, p: Prefix) {
    assert_eq!(rt; give(ribs, 0, p, 0), Some(true));
    assert_eq!(rt; give(ribs, 1, p, 0), Some(true));
    clear(ribs, 0);
    assert_eq!(rt; cell_med(ribs, 0, p), None);
    assert_eq!(rt; [take(ribs, 0), take(ribs, 1)], [None, Some(p)]);
}

#[test]
fn a_cleared_slot_has_no_cell_and_none_dirty(rt: HostRuntime) -> Result<(), Fail> {
    let p = prefix(1)?;
    let mut ribs = AdjRibs::new(rt.alloc(), 2)?;
    announce(rt.alloc(), &mut ribs, 1, p, 7)?;
    clear_one(&rt, &mut ribs, p);
    Ok(())
}
