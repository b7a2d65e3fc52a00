use crate::AttrStore;
use rcp_base::{Addr, NoMemory};
use rcp_model::{Octets, Route};
use std::alloc::Global;
use std::sync::Arc;
use std::test::Fail;

/// ORIGIN IGP, AS_PATH 65001, NEXT_HOP 10.0.0.1 and LOCAL_PREF 100 (RFC 4271 section 4.3).
const ATTRIBUTES: [u8; 25] = [
    64, 1, 1, 0, 64, 2, 4, 2, 1, 253, 233, 64, 3, 4, 10, 0, 0, 1, 64, 5, 4, 0, 0, 0, 100,
];

/// A route of these octets with a discriminator, which isn't that of the octets.
fn route(alloc: Global, med: u32) -> Result<Route, NoMemory> {
    let octets = Octets::from_slice(alloc, &ATTRIBUTES)?;
    Ok(Route {
        pref: 100,
        hops: 1,
        origin: 0,
        neighbour: 65001,
        med,
        looped: false,
        long: false,
        next_hop: Addr(0x0a000001),
        attrs: Arc::new(alloc, octets)?,
    })
}

#[test]
fn equal_routes_have_one_number(rt: HostRuntime) -> Result<(), Fail> {
    let mut store = AttrStore::new(rt.alloc());
    let first = store.intern(route(rt.alloc(), 0)?)?;
    let again = store.intern(route(rt.alloc(), 0)?)?;
    assert_eq!(rt; first, again);
    Ok(())
}

#[test]
fn equal_octets_with_another_field_have_another_number(rt: HostRuntime) -> Result<(), Fail> {
    let mut store = AttrStore::new(rt.alloc());
    let first = store.intern(route(rt.alloc(), 0)?)?;
    let other = store.intern(route(rt.alloc(), 1)?)?;
    assert_ne!(rt; first, other);
    Ok(())
}
