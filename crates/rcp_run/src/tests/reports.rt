//! The commands that report on feeds once all input was read.

use super::text::octets_of;
use super::{DECIDED, ends, outcome, same};
use crate::{FeedWhy, Status};
use std::alloc::Global;
use std::test::Fail;
use std::thread::Threads;

/// The feed whose decision B was sent, to its end.
const WHOLE: &str = "C 0 LINKED; E 1 A; E 2 B; E 3 C; B 1 UA; B 3 UC; D 0; Z 0;";

/// A and B are linked, and C and F, at cost 5; A announces the prefix.
const PAIRS: &str = "C 0 BARE_FOUR; E 1 A; E 2 B; E 3 C; E 4 F; \
                     L 0 PACKET_172_4 LSA_A LSA_B_TO_A LSA_C_5 LSA_F_5; B 1 UA; Z 0;";

/// The same with C and F at cost 6.
const COSTLY: &str = "C 0 BARE_FOUR; E 1 A; E 2 B; E 3 C; E 4 F; \
                      L 0 PACKET_172_4 LSA_A LSA_B_TO_A LSA_C_6 LSA_F_6; B 1 UA; Z 0;";

/// The same as at first, but A withdraws the prefix.
const WITHDRAWN: &str = "C 0 BARE_FOUR; E 1 A; E 2 B; E 3 C; E 4 F; \
                         L 0 PACKET_172_4 LSA_A LSA_B_TO_A LSA_C_5 LSA_F_5; B 1 UA; B 1 WITHDRAWN; Z 0;";

/// The status of these words over feeds, one after the other, and what was written.
fn reported<R: Threads + Sync>(
    rt: &R,
    alloc: Global,
    words: &[&str],
    feeds: &[&str],
) -> Result<(Status, Vec<u8>), Fail> {
    let mut octets = Vec::new(alloc);
    for feed in feeds {
        octets.extend_from_slice(&octets_of(alloc, feed)?)?;
    }
    let fails = (Vec::new(alloc), Vec::new(alloc));
    Ok(outcome(rt, alloc, words, octets, fails)?)
}

/// What B was given, and that nothing is pending.
const TABLES: &[u8] = b"table 10.0.0.1\ntable 10.0.0.2\n\
203.0.113.0/24 next-hop 10.0.0.1 local-pref 100 path 65001\ntable 10.0.0.3\npending 0\n";

#[test]
fn tables_list_what_each_connected_router_was_given(rt: HostRuntime) -> Result<(), Fail> {
    let (status, written) = reported(&rt, rt.alloc(), &["tables"], &[WHOLE])?;
    ends(status, Status::Done, 0)?;
    same(&written, TABLES)
}

/// C isn't connected, and the prefix that A and B announce waits.
const WAITING: &str = "C 0 LINKED; E 1 A; E 2 B; B 1 UA; B 2 UB; Z 0;";

#[test]
fn pending_prefixes_are_counted(rt: HostRuntime) -> Result<(), Fail> {
    let (status, written) = reported(&rt, rt.alloc(), &["tables"], &[WAITING])?;
    ends(status, Status::Done, 0)?;
    same(&written, b"table 10.0.0.1\ntable 10.0.0.2\npending 1\n")
}

/// What it shows, two feeds, and the lines of their comparison.
const PAIRS_OF_FEEDS: &[(&str, &str, &str, &str)] = &[
    (
        "a feed is like itself",
        WHOLE,
        WHOLE,
        "partition 10.0.0.1 same\n",
    ),
    (
        "a cost that differs",
        PAIRS,
        COSTLY,
        "partition 10.0.0.1 same\npartition 10.0.0.3 differs link 10.0.0.3 10.0.0.4 5 6\n",
    ),
    (
        "a route that was withdrawn",
        PAIRS,
        WITHDRAWN,
        "partition 10.0.0.1 differs route 10.0.0.1 203.0.113.0/24 \
         400101004002040201fde94003040a00000140050400000064 none\npartition 10.0.0.3 same\n",
    ),
];

#[test]
fn two_feeds_are_compared_by_partition(rt: HostRuntime) -> Result<(), Fail> {
    let alloc = rt.alloc();
    for (shows, first, second, wanted) in PAIRS_OF_FEEDS {
        let (status, written) = reported(&rt, alloc, &["agree"], &[*first, *second])?;
        ends(status, Status::Done, 0)?;
        if written.as_slice() != wanted.as_bytes() {
            return Err(*shows)?;
        }
    }
    Ok(())
}

/// The first feed has eight records, and of the second seven were read.
#[test]
fn record_numbers_go_on_in_the_second_feed(rt: HostRuntime) -> Result<(), Fail> {
    let (status, written) = reported(&rt, rt.alloc(), &["agree"], &[WHOLE, DECIDED])?;
    let why = FeedWhy::Truncated;
    ends(status, Status::Feed { number: 16, why }, 3)?;
    same(&written, &[])
}

const TO_B: [&str; 3] = ["path", "10.0.0.2", "203.0.113.0/24"];

/// A, B and C announce nothing in common but the prefix, and A reaches B at no cost.
const FREE: &str = "C 0 BARE; E 1 A; E 2 B; E 3 C; L 0 PACKET_148_3 LSA_A_FREE LSA_B LSA_C; \
                    B 1 UA; B 3 UC; D 0; Z 0;";

/// The decision isn't made yet.
const PENDING: &str = "C 0 LINKED; E 1 A; E 2 B; E 3 C; B 1 UA; B 3 UC; Z 0;";

/// The words, the feed, and the line of standard error, after the program's name.
const REFUSED: &[([&str; 3], &str, &str)] = &[
    (TO_B, PENDING, "no path: pending 203.0.113.0/24"),
    (TO_B, FREE, "no path: zero cost 10.0.0.1 10.0.0.2"),
    (
        ["path", "10.0.0.9", "203.0.113.0/24"],
        WHOLE,
        "no path: not connected 10.0.0.9",
    ),
    (
        ["path", "10.0.0.2", "198.51.100.0/24"],
        WHOLE,
        "no path: no route",
    ),
    (
        ["path", "10.0.0.2", "203.0.113.7/24"],
        PENDING,
        "no path: pending 203.0.113.0/24",
    ),
];

/// The line of a status, where its code is this one.
fn says(alloc: Global, status: Status, code: u8, line: &str) -> Result<(), Fail> {
    let text = format!(in alloc; "{status}")?;
    if status.code() != code || text.as_str() != line {
        return Err("another status")?;
    }
    Ok(())
}

#[test]
fn path_goes_to_the_egress(rt: HostRuntime) -> Result<(), Fail> {
    let (status, written) = reported(&rt, rt.alloc(), &TO_B, &[WHOLE])?;
    ends(status, Status::Done, 0)?;
    same(&written, b"10.0.0.2 10.0.0.1\n")
}

#[test]
fn no_path_has_its_cause(rt: HostRuntime) -> Result<(), Fail> {
    let alloc = rt.alloc();
    for (words, feed, line) in REFUSED {
        let (status, written) = reported(&rt, alloc, words, &[*feed])?;
        says(alloc, status, 8, line)?;
        same(&written, &[])?;
    }
    Ok(())
}
