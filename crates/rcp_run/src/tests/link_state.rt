//! The interior network as its LSAs have it (RFC 2328 sections 12 to 16).

use super::{Row, check};
use std::test::Fail;

const COSTS: &[Row] = &[
    (
        "LSAs give the costs, and a cost that rises makes the prefix pending",
        "C 0 BARE; E 1 A; E 2 B; E 3 C; L 0 PACKET_148_3 LSA_A LSA_B LSA_C; B 1 UA; B 3 UC; D 0; \
         L 0 PACKET_112_2 LSA_A_NEWER LSA_B_NEWER;",
        "B 2 UA; S 0 3 1 1;",
    ),
    (
        "the next work takes the nearer route",
        "C 0 BARE; E 1 A; E 2 B; E 3 C; L 0 PACKET_148_3 LSA_A LSA_B LSA_C; B 1 UA; B 3 UC; D 0; \
         L 0 PACKET_112_2 LSA_A_NEWER LSA_B_NEWER; W 0 0001 00000001;",
        "B 2 UA; S 0 3 1 1; B 2 UC;",
    ),
    (
        "a router that lists no link is alone",
        "C 0 BARE; E 1 A; E 2 B; E 3 C; L 0 PACKET_136_3 LSA_A LSA_B LSA_C_ALONE; B 1 UA; D 0;",
        "B 2 UA; S 0 3 1 1;",
    ),
];

#[test]
fn costs_are_those_of_the_lsas(rt: HostRuntime) -> Result<(), Fail> {
    check(&rt, rt.alloc(), COSTS)
}

const INSTANCES: &[Row] = &[
    (
        "an LSA whose checksum is wrong is left out",
        "C 0 BARE; E 1 A; E 2 B; E 3 C; L 0 PACKET_148_3 LSA_A_CHANGED LSA_B LSA_C; B 1 UA; D 0;",
        "S 0 3 1 0;",
    ),
    (
        "an older instance is ignored",
        "C 0 BARE; E 1 A; E 2 B; E 3 C; L 0 PACKET_148_3 LSA_A_NEWER LSA_B_NEWER LSA_C; \
         L 0 PACKET_148_3 LSA_A LSA_B LSA_C; B 1 UA; B 3 UC; D 0;",
        "B 2 UC; S 0 3 1 1;",
    ),
    (
        "a newer instance of the greatest age takes the links along",
        "C 0 BARE; E 1 A; E 2 B; E 3 C; L 0 PACKET_148_3 LSA_A LSA_B LSA_C; B 1 UA; D 0; \
         L 0 PACKET_64_1 LSA_A_FLUSH; D 0;",
        "B 2 UA; B 3 UA; S 0 3 1 2; B 2 WITHDRAWN; B 3 WITHDRAWN; S 0 3 1 4;",
    ),
    (
        "an instance is kept until it has the greatest age",
        "C 0 BARE; E 1 A; E 2 B; E 3 C; L 0 PACKET_148_3 LSA_A_OLD LSA_B LSA_C; B 1 UA; D 0; T 0 9; D 0;",
        "B 2 UA; B 3 UA; S 0 3 1 2; S 0 3 1 2;",
    ),
    (
        "and goes then",
        "C 0 BARE; E 1 A; E 2 B; E 3 C; L 0 PACKET_148_3 LSA_A_OLD LSA_B LSA_C; B 1 UA; D 0; T 0 a; D 0;",
        "B 2 UA; B 3 UA; S 0 3 1 2; B 2 WITHDRAWN; B 3 WITHDRAWN; S 0 3 1 4;",
    ),
];

#[test]
fn the_most_recent_instance_is_kept_until_its_greatest_age(rt: HostRuntime) -> Result<(), Fail> {
    check(&rt, rt.alloc(), INSTANCES)
}

const STREAMS: &[Row] = &[
    (
        "a packet of another version loses the framing at its place",
        "C 0 BARE; L 0 HELLO HELLO VERSION_3;",
        "Q 0 0000000000000030;",
    ),
    (
        "what comes later changes nothing",
        "C 0 BARE; E 1 A; E 2 B; E 3 C; L 0 HELLO HELLO; L 0 VERSION_3; \
         L 0 PACKET_148_3 LSA_A LSA_B LSA_C; B 1 UA; D 0;",
        "Q 0 0000000000000030; S 0 3 1 0;",
    ),
    (
        "packets are read in any pieces",
        "C 0 BARE; E 1 A; E 2 B; E 3 C; L 0 02040094 0aff0001; L 0 00000000 00000000 00000000 00000000 00000003 LSA_A 0001; \
         L 0 0201 0a000002 0a000002 80000001 1ce6 0030 00000002 0a000001 00000000 0100000a 0a000003 00000000 0100000a LSA_C; \
         B 1 UA; B 3 UC; D 0;",
        "B 2 UA; S 0 3 1 1;",
    ),
];

#[test]
fn framing_is_lost_for_good(rt: HostRuntime) -> Result<(), Fail> {
    check(&rt, rt.alloc(), STREAMS)
}
