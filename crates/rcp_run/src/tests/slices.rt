//! Slices of the pending work, and prefixes that share UPDATEs (RFC 4271 section 4.3).

use super::{Row, check};
use std::test::Fail;

const SLICES: &[Row] = &[
    (
        "a slice works the least prefix, then the next one, then none",
        "C 0 ONE_SHARD; E 1 A; E 2 B; E 3 C; B 1 M 0036 02 0000 0019 ATTRS_A 00 20ffffffff; \
         W 0 0000 00000001; W 0 0000 00000001; W 0 0000 00000001;",
        "B 2 M 0031 02 0000 0019 ATTRS_A 00; B 3 M 0031 02 0000 0019 ATTRS_A 00; \
         B 2 M 0035 02 0000 0019 ATTRS_A 20ffffffff; B 3 M 0035 02 0000 0019 ATTRS_A 20ffffffff;",
    ),
    (
        "a slice of two prefixes sends them together",
        "C 0 ONE_SHARD; E 1 A; E 2 B; E 3 C; B 1 M 0036 02 0000 0019 ATTRS_A 00 20ffffffff; W 0 0000 00000002;",
        "B 2 M 0036 02 0000 0019 ATTRS_A 00 20ffffffff; B 3 M 0036 02 0000 0019 ATTRS_A 00 20ffffffff;",
    ),
    (
        "a slice of no prefix and one of another shard work nothing",
        "C 0 LINKED; E 1 A; E 2 B; E 3 C; B 1 UA; B 3 UC; W 0 0001 00000000; W 0 0000 00000009;",
        "",
    ),
    (
        "a slice works its shard, and no summary follows",
        "C 0 LINKED; E 1 A; E 2 B; E 3 C; B 1 UA; B 3 UC; W 0 0001 00000000; W 0 0000 00000009; W 0 0001 00000009;",
        "B 2 UA;",
    ),
];

#[test]
fn slices_work_the_least_pending_prefixes(rt: HostRuntime) -> Result<(), Fail> {
    check(&rt, rt.alloc(), SLICES)
}

const SHARED: &[Row] = &[
    (
        "prefixes of one route share an UPDATE, and so do those that are withdrawn",
        "C 0 LINKED; E 1 A; E 2 B; E 3 C; B 1 M 0038 02 0000 0019 ATTRS_A 18c63364 18cb0071; D 0; X 1; D 0;",
        "B 2 M 0038 02 0000 0019 ATTRS_A 18c63364 18cb0071; B 3 M 0038 02 0000 0019 ATTRS_A 18c63364 18cb0071; \
         S 0 3 2 2; X 1 030000; \
         B 2 M 001f 02 0008 18c63364 18cb0071 0000; B 3 M 001f 02 0008 18c63364 18cb0071 0000; S 0 2 0 4;",
    ),
    (
        "withdrawals come first, and groups by their least prefix",
        "C 0 LINKED; E 1 A; E 2 B; B 1 UA; D 0; \
         B 1 M 0033 02 0000 0019 40010100 4002040201fdea 4003040a000001 40050400000064 100a02; \
         B 1 M 0036 02 0000 0019 ATTRS_A 100a01 100a03; B 1 WITHDRAWN; D 0;",
        "B 2 UA; S 0 2 1 1; B 2 WITHDRAWN; B 2 M 0036 02 0000 0019 ATTRS_A 100a01 100a03; \
         B 2 M 0033 02 0000 0019 40010100 4002040201fdea 4003040a000001 40050400000064 100a02; S 0 2 3 4;",
    ),
];

#[test]
fn prefixes_of_one_route_share_an_update(rt: HostRuntime) -> Result<(), Fail> {
    check(&rt, rt.alloc(), SHARED)
}
