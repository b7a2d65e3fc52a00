//! What each router is offered over the roster's links (RFC 4271 section 9.1).

use super::{Row, check};
use std::test::Fail;

const CHOSEN: &[Row] = &[
    ("a roster alone has no output", "C 0 LINKED;", ""),
    (
        "the lower identifier decides between equal costs",
        "C 0 LINKED; E 1 A; E 2 B; E 3 C; B 1 UA; B 3 UC; D 0;",
        "B 2 UA; S 0 3 1 1;",
    ),
    (
        "a router that gets the best route itself is made to forget the other",
        "C 0 LINKED; E 1 A; E 2 B; E 3 C; B 1 UA; B 3 UC; D 0; B 2 UB; D 0;",
        "B 2 UA; S 0 3 1 1; B 1 UB; B 2 WITHDRAWN; B 3 UB; S 0 3 1 4;",
    ),
    (
        "exit discriminators of one neighbour are compared",
        "C 0 STAR; E 1 A; E 2 B; E 3 C; E 4 F; \
         B 1 M 003b 02 0000 0020 40010100 4002040201fde9 4003040a000001 80040400000014 40050400000064 18cb0071; \
         B 3 M 003b 02 0000 0020 40010100 4002040201fde9 4003040a000003 8004040000000a 40050400000064 18cb0071; \
         B 4 UF; D 0;",
        "B 1 UF; B 2 UF; S 0 4 1 2;",
    ),
    (
        "a route from outside of the partition is no candidate",
        "C 0 STAR; E 1 A; E 2 B; E 3 C; E 4 F; E 5 G; \
         B 1 M 003b 02 0000 0020 40010100 4002040201fde9 4003040a000001 80040400000014 40050400000064 18cb0071; \
         B 3 M 003b 02 0000 0020 40010100 4002040201fde9 4003040a000003 8004040000000a 40050400000064 18cb0071; \
         B 4 UF; \
         B 5 M 0034 02 0000 0019 40010100 4002040201fde9 4003040a000005 400504000001f4 18cb0071; D 0;",
        "B 1 UF; B 2 UF; S 0 5 1 2;",
    ),
    (
        "a looped route is no candidate",
        "C 0 LINKED; E 1 A; E 2 B; E 3 C; \
         B 1 M 0036 02 0000 001b 40010100 4002060202fde9fde8 4003040a000001 40050400000064 18cb0071; D 0;",
        "S 0 3 1 0;",
    ),
];

#[test]
fn routers_get_what_is_chosen(rt: HostRuntime) -> Result<(), Fail> {
    check(&rt, rt.alloc(), CHOSEN)
}
