//! Slices of the pending work, and prefixes that share UPDATEs (RFC 4271 section 4.3).

use crate::decisions::{ANNOUNCED, CONNECTED};
use crate::octets::{
    BOTH_A, BOTH_WITHDRAWN, FOUR, GREATEST_A, LEAST_A, LEAST_AND_GREATEST_A, LINKED, ONE_SHARD,
    THREE, TWO, UPDATE_A, ZERO,
};
use crate::rows::{DRAIN, Fed, Put, Row, check, new, puts, slot_of};
use feed_format::Kind;
use platform_core::Platform;
use rcp_base::Prefix;
use rcp_model::Assigned;
use std::alloc::Global;
use std::test::Fail;

/// One pending prefix of shard 0 is worked.
const ONE_OF_SHARD_0: &[Fed] = &[(Kind::Slice, 0, &[&[0, 0, 0, 0, 0, 1]])];

const ROWS: &[Row] = &[
    (
        "a slice works the least prefix, then the next one, then none",
        ONE_SHARD,
        &[
            CONNECTED,
            &[(Kind::Octets, 1, LEAST_AND_GREATEST_A)],
            ONE_OF_SHARD_0,
            ONE_OF_SHARD_0,
            ONE_OF_SHARD_0,
        ],
        &[
            (b'B', 2, LEAST_A),
            (b'B', 3, LEAST_A),
            (b'B', 2, GREATEST_A),
            (b'B', 3, GREATEST_A),
        ],
    ),
    (
        "prefixes of one route share an UPDATE, and so do those that are withdrawn",
        LINKED,
        &[
            CONNECTED,
            &[(Kind::Octets, 1, BOTH_A)],
            DRAIN,
            &[(Kind::Closed, 1, &[])],
            DRAIN,
        ],
        &[
            (b'B', 2, BOTH_A),
            (b'B', 3, BOTH_A),
            (b'S', 0, &[THREE, TWO, TWO]),
            (b'X', 1, &[&[3, 0, 0]]),
            (b'B', 2, BOTH_WITHDRAWN),
            (b'B', 3, BOTH_WITHDRAWN),
            (b'S', 0, &[TWO, ZERO, FOUR]),
        ],
    ),
];

#[test]
fn pending_prefixes_are_worked_in_order_and_sent_together(rt: HostRuntime) -> Result<(), Fail> {
    check(rt.alloc(), ROWS)
}

/// A slice of work, what is put out, and how many prefixes are pending then.
type Slice<'a> = (&'a [Fed<'a>], &'a [Put<'a>], u64);

/// A slice of no prefix, one of another shard, and one of the prefix's.
const SLICES: &[Slice] = &[
    (&[(Kind::Slice, 0, &[&[0, 1, 0, 0, 0, 0]])], &[], 1),
    (&[(Kind::Slice, 0, &[&[0, 0, 0, 0, 0, 9]])], &[], 1),
    (
        &[(Kind::Slice, 0, &[&[0, 1, 0, 0, 0, 9]])],
        &[(b'B', 2, UPDATE_A)],
        0,
    ),
];

/// Whether B was given a route at the prefix, and its first entry is that.
fn is_given(platform: &Platform, p: Prefix) -> Result<bool, Fail> {
    let b = slot_of(platform, 1)?;
    Ok(platform.table(b, p).is_some() && platform.next_entry(b, None) == Some(p))
}

/// Whether a slice has its output, and leaves as many prefixes pending.
fn is_right(
    alloc: Global,
    platform: &mut Platform,
    p: Prefix,
    slice: &Slice,
) -> Result<bool, Fail> {
    let (fed, wanted, pending) = slice;
    let put = puts(platform, alloc, &[*fed], wanted)?;
    let is_pending = *pending > 0;
    let given = is_given(platform, p)?;
    Ok(
        put && platform.pending() == *pending
            && platform.is_pending(p) == is_pending
            && given != is_pending,
    )
}

/// Whether all slices do.
fn are_right(alloc: Global, platform: &mut Platform, p: Prefix) -> Result<bool, Fail> {
    for slice in SLICES {
        if !is_right(alloc, platform, p, slice)? {
            return Ok(false);
        }
    }
    Ok(true)
}

/// Whether this prefix alone is announced.
fn is_alone(platform: &Platform, p: Prefix) -> bool {
    platform.next_prefix(None) == Some(p) && platform.next_prefix(Some(p)).is_none()
}

/// Whether slices work the prefix in its shard alone, once it is announced.
fn work_it(alloc: Global, platform: &mut Platform) -> Result<bool, Fail> {
    let p = Prefix::new(0xcb00_7100, 24).ok_or("a prefix")?;
    let announced = puts(platform, alloc, &[CONNECTED, ANNOUNCED], &[])?;
    let worked = are_right(alloc, platform, p)?;
    Ok(announced && worked && is_alone(platform, p))
}

#[test]
fn slices_work_their_shard(rt: HostRuntime) -> Result<(), Fail> {
    let mut platform = new(rt.alloc(), LINKED)?;
    assert!(rt; work_it(rt.alloc(), &mut platform)?);
    Ok(())
}
