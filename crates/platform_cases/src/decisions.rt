//! Which route each router is given (RFC 4271 section 9.1).

use crate::octets::{
    A, B, C, F, FIVE, G, LINKED, MED_10_C, MED_20_A, MED_50_F, ONE, PREFERRED_G, STAR, THREE, TWO,
    UPDATE_A, UPDATE_C,
};
use crate::rows::{DRAIN, Fed, Row, check};
use feed_format::Kind;
use std::test::Fail;

/// A, B and C are connected.
pub const CONNECTED: &[Fed] = &[
    (Kind::Ready, 1, &[A]),
    (Kind::Ready, 2, &[B]),
    (Kind::Ready, 3, &[C]),
];

/// A and C announce the prefix 203.0.113.0/24, which is in shard 1.
pub const ANNOUNCED: &[Fed] = &[(Kind::Octets, 1, UPDATE_A), (Kind::Octets, 3, UPDATE_C)];

const ROWS: &[Row] = &[
    (
        "the lower identifier decides between equal costs, and no router is given its own route",
        LINKED,
        &[CONNECTED, ANNOUNCED, DRAIN],
        &[(b'B', 2, UPDATE_A), (b'S', 0, &[THREE, ONE, ONE])],
    ),
    (
        "a preferred route from outside of the partition is no candidate",
        STAR,
        &[
            CONNECTED,
            &[(Kind::Ready, 4, &[F]), (Kind::Ready, 5, &[G])],
            &[
                (Kind::Octets, 1, MED_20_A),
                (Kind::Octets, 3, MED_10_C),
                (Kind::Octets, 4, MED_50_F),
                (Kind::Octets, 5, PREFERRED_G),
            ],
            DRAIN,
        ],
        &[
            (b'B', 1, MED_50_F),
            (b'B', 2, MED_50_F),
            (b'S', 0, &[FIVE, ONE, TWO]),
        ],
    ),
];

#[test]
fn routers_are_given_what_is_chosen(rt: HostRuntime) -> Result<(), Fail> {
    check(rt.alloc(), ROWS)
}
