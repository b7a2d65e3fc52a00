//! Costs by LSAs (RFC 2328 sections 12 to 16), and framing that is lost.

use crate::decisions::{ANNOUNCED, CONNECTED};
use crate::octets::{
    BARE, HELLO, LSA_A, LSA_A_NEWER, LSA_B, LSA_B_NEWER, LSA_C, LSA_C_ALONE, ONE, PACKET_112_2,
    PACKET_136_3, PACKET_148_3, THREE, UPDATE_A, UPDATE_C, VERSION_3,
};
use crate::rows::{DRAIN, Fed, Row, check, new, puts};
use feed_format::Kind;
use platform_core::Platform;
use rcp_base::Slot;
use rcp_model::{Assigned, Costs};
use std::alloc::Global;
use std::test::Fail;

const ROWS: &[Row] = &[
    (
        "a router that lists no link is alone",
        BARE,
        &[
            CONNECTED,
            &[(Kind::Links, 0, &[PACKET_136_3, LSA_A, LSA_B, LSA_C_ALONE])],
            &[(Kind::Octets, 1, UPDATE_A)],
            DRAIN,
        ],
        &[(b'B', 2, UPDATE_A), (b'S', 0, &[THREE, ONE, ONE])],
    ),
    (
        "a packet of another version loses the framing at its place, once",
        BARE,
        &[&[
            (Kind::Links, 0, &[HELLO, HELLO, VERSION_3]),
            (Kind::Links, 0, &[HELLO]),
        ]],
        &[(b'Q', 0, &[&[0, 0, 0, 0, 0, 0, 0, 48]])],
    ),
];

#[test]
fn link_state_gives_the_costs_until_its_framing_is_lost(rt: HostRuntime) -> Result<(), Fail> {
    check(rt.alloc(), ROWS)
}

/// The LSAs of the three in a row, and newer ones by which A and B are 11 apart.
const LINKS: &[Fed] = &[(Kind::Links, 0, &[PACKET_148_3, LSA_A, LSA_B, LSA_C])];

const NEWER: &[Fed] = &[(Kind::Links, 0, &[PACKET_112_2, LSA_A_NEWER, LSA_B_NEWER])];

const SLICE: &[Fed] = &[(Kind::Slice, 0, &[&[0, 1, 0, 0, 0, 1]])];

/// The cost of the first edge, if there is one.
fn first_cost(platform: &Platform) -> Option<u32> {
    match platform.edge(0) {
        Some(edge) => Some(edge.cost),
        None => None,
    }
}

/// Whether the costs between A and the other two, and the number of pending prefixes, are these.
fn has(platform: &Platform, to_b: Option<u32>, to_c: Option<u32>, pending: u64) -> bool {
    platform.cost(Slot(0), Slot(1)) == to_b
        && platform.cost(Slot(0), Slot(2)) == to_c
        && first_cost(platform) == to_b
        && platform.pending() == pending
}

/// A cost that rises makes the prefix pending, and the next work gives B the nearer route.
fn rises(alloc: Global, platform: &mut Platform) -> Result<bool, Fail> {
    let none = has(platform, None, None, 0);
    let decided = puts(
        platform,
        alloc,
        &[CONNECTED, LINKS, ANNOUNCED, DRAIN],
        &[(b'B', 2, UPDATE_A), (b'S', 0, &[THREE, ONE, ONE])],
    )?;
    let linked = has(platform, Some(10), Some(20), 0);
    let silent = puts(platform, alloc, &[NEWER], &[])?;
    let risen = has(platform, Some(11), Some(21), 1);
    let worked = puts(platform, alloc, &[SLICE], &[(b'B', 2, UPDATE_C)])?;
    Ok(none && decided && linked && silent && risen && worked && platform.pending() == 0)
}

#[test]
fn a_cost_that_rises_makes_the_prefix_pending(rt: HostRuntime) -> Result<(), Fail> {
    let mut platform = new(rt.alloc(), BARE)?;
    assert!(rt; rises(rt.alloc(), &mut platform)?);
    Ok(())
}
