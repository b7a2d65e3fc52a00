//! Sessions that open, expire, are refused and fall (RFC 4271 sections 6 and 8).

use crate::decisions::{ANNOUNCED, CONNECTED};
use crate::octets::{
    A, CEASE, CUT_UPDATE, EXPIRED, G, KEEPALIVE, LINKED, ONE, OPEN, OPEN_A, THREE, TWO, UPDATE_A,
    UPDATE_C, ZERO,
};
use crate::rows::{DRAIN, Fed, Row, check, new, record_of};
use feed_format::{FeedWhy, Kind};
use platform_core::Platform;
use rcp_base::NoMemory;
use std::alloc::Global;
use std::test::Fail;

/// A opens connection 1 with a hold time of 30 seconds.
const OPENED: &[Fed] = &[
    (Kind::Raw, 1, &[]),
    (Kind::Octets, 1, OPEN_A),
    (Kind::Octets, 1, KEEPALIVE),
];

const ROWS: &[Row] = &[
    (
        "a lost session takes its routes along",
        LINKED,
        &[
            CONNECTED,
            ANNOUNCED,
            DRAIN,
            &[(Kind::Octets, 1, CUT_UPDATE), (Kind::Closed, 1, &[])],
            DRAIN,
        ],
        &[
            (b'B', 2, UPDATE_A),
            (b'S', 0, &[THREE, ONE, ONE]),
            (b'X', 1, &[&[3, 0, 0]]),
            (b'B', 2, UPDATE_C),
            (b'S', 0, &[TWO, ONE, TWO]),
        ],
    ),
    (
        "a silent session expires, and sends a KEEPALIVE each third of the hold time before",
        LINKED,
        &[
            OPENED,
            &[
                (Kind::Time, 0, &[&[0, 0, 0, 0, 0, 0, 0, 9]]),
                (Kind::Drain, 0, &[]),
                (Kind::Time, 0, &[&[0, 0, 0, 0, 0, 0, 0, 10]]),
                (Kind::Time, 0, &[&[0, 0, 0, 0, 0, 0, 0, 29]]),
                (Kind::Time, 0, &[&[0, 0, 0, 0, 0, 0, 0, 30]]),
            ],
        ],
        &[
            (b'B', 1, OPEN),
            (b'B', 1, KEEPALIVE),
            (b'S', 0, &[ONE, ZERO, ZERO]),
            (b'B', 1, KEEPALIVE),
            (b'B', 1, KEEPALIVE),
            (b'B', 1, EXPIRED),
            (b'X', 1, &[&[1, 4, 0]]),
        ],
    ),
    (
        "a second connection of a router is closed, and the first one stays",
        LINKED,
        &[OPENED, &[(Kind::Ready, 2, &[A])], DRAIN],
        &[
            (b'B', 1, OPEN),
            (b'B', 1, KEEPALIVE),
            (b'B', 2, CEASE),
            (b'X', 2, &[&[4, 6, 0]]),
            (b'S', 0, &[ONE, ZERO, ZERO]),
        ],
    ),
];

#[test]
fn sessions_end_and_begin_anew(rt: HostRuntime) -> Result<(), Fail> {
    check(rt.alloc(), ROWS)
}

/// Records, and the fault that the roster shows of them.
const FAULTS: &[(Fed, Option<FeedWhy>)] = &[
    ((Kind::Ready, 1, &[A]), None),
    ((Kind::Ready, 1, &[G]), Some(FeedWhy::UnknownRouter)),
    ((Kind::Slice, 0, &[&[0, 1, 0, 0, 0, 0]]), None),
    (
        (Kind::Slice, 0, &[&[0, 2, 0, 0, 0, 0]]),
        Some(FeedWhy::BadShard),
    ),
];

/// Whether all records may come, and have their faults.
fn have_faults(alloc: Global, platform: &Platform) -> Result<bool, NoMemory> {
    for (fed, wanted) in FAULTS {
        let item = record_of(alloc, fed)?;
        if !platform.may_step(&item) || platform.check(&item) != *wanted {
            return Ok(false);
        }
    }
    Ok(true)
}

#[test]
fn records_for_another_roster_are_faulty(rt: HostRuntime) -> Result<(), Fail> {
    let platform = new(rt.alloc(), LINKED)?;
    assert!(rt; have_faults(rt.alloc(), &platform)?);
    Ok(())
}
