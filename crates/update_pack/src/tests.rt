// Offers and cells, and the messages that send them.
use crate::{NumberedCell, pack, pack_numbered};
use path_attrs::{read, route};
use rcp_base::Prefix;
use rcp_model::{Offer, Route};
use std::alloc::Global;
use std::test::Fail;

const MARKER: [u8; 16] = [0xff; 16];

// ORIGIN IGP, the path 65001, NEXT_HOP 10.0.0.1 and LOCAL_PREF 100.
const ATTRIBUTES: &[u8] = &[
    0x40, 0x01, 0x01, 0x00, 0x40, 0x02, 0x04, 0x02, 0x01, 0xfd, 0xe9, 0x40, 0x03, 0x04, 0x0a, 0x00,
    0x00, 0x01, 0x40, 0x05, 0x04, 0x00, 0x00, 0x00, 0x64,
];

// After its marker, the UPDATE that announces 198.51.100.0/24 and 203.0.113.0/24 with these attributes.
const ANNOUNCEMENT: &[u8] = &[
    0x00, 0x38, 0x02, 0x00, 0x00, 0x00, 0x19, 0x40, 0x01, 0x01, 0x00, 0x40, 0x02, 0x04, 0x02, 0x01,
    0xfd, 0xe9, 0x40, 0x03, 0x04, 0x0a, 0x00, 0x00, 0x01, 0x40, 0x05, 0x04, 0x00, 0x00, 0x00, 0x64,
    0x18, 0xc6, 0x33, 0x64, 0x18, 0xcb, 0x00, 0x71,
];

// After its marker, the UPDATE that withdraws both.
const WITHDRAWAL: &[u8] = &[
    0x00, 0x1f, 0x02, 0x00, 0x08, 0x18, 0xc6, 0x33, 0x64, 0x18, 0xcb, 0x00, 0x71, 0x00, 0x00,
];

const FIRST: u32 = 0xc633_6400;

const SECOND: u32 = 0xcb00_7100;

// The route of these attribute octets in AS 65000.
fn route_of(alloc: Global, octets: &[u8]) -> Result<Route, Fail> {
    if octets.len() > 4073 {
        return Err(Fail::from("many octets"));
    }
    let attrs = read(alloc, octets, true).map_err(|_| "attributes")?;
    Ok(route(alloc, &attrs, 65000)?)
}

// The route of the attributes above and a MULTI_EXIT_DISC.
fn route_with(alloc: Global, discriminator: u32) -> Result<Route, Fail> {
    let mut octets = Vec::new(alloc);
    octets.extend_from_slice(ATTRIBUTES)?;
    octets.extend_from_slice(&[0x80, 0x04, 0x04])?;
    octets.extend_from_slice(&discriminator.to_be_bytes())?;
    route_of(alloc, octets.as_slice())
}

// The prefix of 24 bits at an address.
fn prefix_at(address: u32) -> Result<Prefix, Fail> {
    Ok(Prefix::new(address, 24).ok_or("a prefix")?)
}

fn announced(address: u32, route: &Route) -> Result<Offer, Fail> {
    if route.long {
        return Err(Fail::from("a long route"));
    }
    Ok(Offer::announcing(1, prefix_at(address)?, route)?)
}

fn withdrawn(address: u32) -> Result<Offer, Fail> {
    Ok(Offer::withdrawing(1, prefix_at(address)?))
}

// The message of these octets after a marker.
fn message(alloc: Global, octets: &[u8]) -> Result<Vec<u8>, Fail> {
    let mut message = Vec::new(alloc);
    message.extend_from_slice(&MARKER)?;
    message.extend_from_slice(octets)?;
    Ok(message)
}

// So many offers, of which those with the same place modulo `groups` have equal attributes.
fn many(alloc: Global, count: u32, groups: u32) -> Result<Vec<Offer>, Fail> {
    let mut routes = Vec::new(alloc);
    for group in 0..groups {
        routes.push(route_with(alloc, group)?)?;
    }
    let mut offers = Vec::new(alloc);
    let mut address = 0x1000_0000u32;
    for place in 0..count {
        let group = place.checked_rem(groups).unwrap_or(0) as usize;
        let route = routes.get(group).ok_or("a route")?;
        offers.push(announced(address, route)?)?;
        address = address.saturating_add(256);
    }
    Ok(offers)
}

#[test]
fn prefixes_with_equal_attributes_share_an_update(rt: HostRuntime) -> Result<(), Fail> {
    let alloc = rt.alloc();
    let route = route_of(alloc, ATTRIBUTES)?;
    let offers = vec![in alloc; announced(FIRST, &route)?, announced(SECOND, &route)?]?;
    let messages = pack(alloc, offers.as_slice())?;
    assert_eq!(rt; messages.len(), 1);
    assert_eq!(rt;
        messages[0].as_slice(),
        message(alloc, ANNOUNCEMENT)?.as_slice()
    );
    Ok(())
}

#[test]
fn withdrawn_prefixes_share_an_update(rt: HostRuntime) -> Result<(), Fail> {
    let alloc = rt.alloc();
    let offers = vec![in alloc; withdrawn(FIRST)?, withdrawn(SECOND)?]?;
    let messages = pack(alloc, offers.as_slice())?;
    assert_eq!(rt; messages.len(), 1);
    assert_eq!(rt;
        messages[0].as_slice(),
        message(alloc, WITHDRAWAL)?.as_slice()
    );
    Ok(())
}

#[test]
fn numbered_cells_give_the_same_messages(rt: HostRuntime) -> Result<(), Fail> {
    let alloc = rt.alloc();
    let first = prefix_at(FIRST)?;
    let second = prefix_at(SECOND)?;
    let cells = [
        NumberedCell {
            prefix: first,
            number: Some(0),
        },
        NumberedCell {
            prefix: second,
            number: Some(0),
        },
    ];
    let messages = pack_numbered(alloc, &cells, &[ATTRIBUTES])?;
    assert_eq!(rt; messages.len(), 1);
    assert_eq!(rt;
        messages[0].as_slice(),
        message(alloc, ANNOUNCEMENT)?.as_slice()
    );
    Ok(())
}

#[test]
fn groups_stand_by_their_least_prefix(rt: HostRuntime) -> Result<(), Fail> {
    let alloc = rt.alloc();
    let route = route_of(alloc, ATTRIBUTES)?;
    let other = route_with(alloc, 7)?;
    let offers = vec![in alloc;
        announced(0x0a00_0000, &other)?,
        announced(FIRST, &route)?,
        announced(0xc800_0000, &other)?,
        announced(SECOND, &route)?,
        withdrawn(0xcc00_0000)?,
    ]?;
    let messages = pack(alloc, offers.as_slice())?;
    assert_eq!(rt; messages.len(), 3);
    // One prefix is withdrawn, and two are announced with seven octets more.
    assert_eq!(rt; messages[0].len(), 27);
    assert_eq!(rt; messages[1].len(), 63);
    assert_eq!(rt;
        messages[2].as_slice(),
        message(alloc, ANNOUNCEMENT)?.as_slice()
    );
    Ok(())
}

#[test]
fn attributes_of_4068_octets_leave_room_for_one_prefix(rt: HostRuntime) -> Result<(), Fail> {
    let alloc = rt.alloc();
    let mut octets = Vec::new(alloc);
    octets.extend_from_slice(ATTRIBUTES)?;
    octets.extend_from_slice(&[0xd0, 0x63, 0x0f, 0xc7])?;
    for _ in 0..4039 {
        octets.push(0)?;
    }
    let route = route_of(alloc, octets.as_slice())?;
    assert_eq!(rt; route.octets().len(), 4068);
    let offers = vec![in alloc; announced(FIRST, &route)?, announced(SECOND, &route)?]?;
    let messages = pack(alloc, offers.as_slice())?;
    assert_eq!(rt; messages.len(), 2);
    assert_eq!(rt; messages[0].len(), 4095);
    assert_eq!(rt; messages[1].len(), 4095);
    Ok(())
}

#[test]
fn withdrawals_fill_messages_from_the_front(rt: HostRuntime) -> Result<(), Fail> {
    let alloc = rt.alloc();
    let mut offers = Vec::new(alloc);
    let mut address = 0x1000_0000u32;
    for _ in 0..2100 {
        offers.push(withdrawn(address)?)?;
        address = address.saturating_add(256);
    }
    let messages = pack(alloc, offers.as_slice())?;
    // 1,018 prefixes of 4 octets and the other 23, twice, and then 64 prefixes.
    assert_eq!(rt; messages.len(), 3);
    assert_eq!(rt; messages[0].len(), 4095);
    assert_eq!(rt; messages[1].len(), 4095);
    assert_eq!(rt; messages[2].len(), 279);
    Ok(())
}

#[test]
fn each_group_of_many_offers_has_its_message(rt: HostRuntime) -> Result<(), Fail> {
    let alloc = rt.alloc();
    let few = many(alloc, 20000, 400)?;
    assert_eq!(rt; pack(alloc, few.as_slice())?.len(), 400);
    let all = many(alloc, 20000, 20000)?;
    assert_eq!(rt; pack(alloc, all.as_slice())?.len(), 20000);
    Ok(())
}
