//! Feeds and rosters with a fault, each answered at its place.

use super::text::{add, octets_of};
use super::{DECIDED, SENT, ends, replayed, same};
use crate::{FeedWhy, RosterWhy, Status};
use std::alloc::{AllocError, Global};
use std::test::Fail;
use std::thread::Threads;

/// Octets after the roster and A's connection, the number of the faulty record, and why it is one.
const FAULTS: &[(&[u8], u64, FeedWhy)] = &[
    (b"", 3, FeedWhy::Truncated),
    (b"B\0\0\0", 3, FeedWhy::Truncated),
    (b"B\0\0\0\x01\0\0\0\x02", 3, FeedWhy::Truncated),
    (b"?\0\0\0\0\0\0\0\0", 3, FeedWhy::Kind),
    (b"C\0\0\0\0\0\0\0\0", 3, FeedWhy::Twice),
    (b"D\0\0\0\0\0\0\0\x01\0", 3, FeedWhy::Length),
    (b"E\0\0\0\x02\0\0\0\x03\x0a\0\0", 3, FeedWhy::Length),
    (b"B\0\0\0\x01\0\x01\0\x01", 3, FeedWhy::Length),
    (b"D\0\0\0\x01\0\0\0\0", 3, FeedWhy::BadBody),
    (b"B\0\0\0\0\0\0\0\0", 3, FeedWhy::BadBody),
    (b"L\0\0\0\x01\0\0\0\0", 3, FeedWhy::BadBody),
    (b"U\0\0\0\x01\0\0\0\0", 3, FeedWhy::Twice),
    (b"E\0\0\0\x01\0\0\0\x04\x0a\0\0\x02", 3, FeedWhy::Twice),
    (
        b"E\0\0\0\x02\0\0\0\x04\x0a\0\0\x09",
        3,
        FeedWhy::UnknownRouter,
    ),
    (b"E\0\0\0\x01\0\0\0\x04\x0a\0\0\x09", 3, FeedWhy::Twice),
    (b"W\0\0\0\0\0\0\0\x06\0\x02\0\0\0\x01", 3, FeedWhy::BadShard),
    (
        b"T\0\0\0\0\0\0\0\x08\0\0\0\0\0\0\0\x0aT\0\0\0\0\0\0\0\x08\0\0\0\0\0\0\0\x09",
        4,
        FeedWhy::ClockBack,
    ),
    (b"X\0\0\0\x07\0\0\0\0?\0\0\0\0\0\0\0\0", 4, FeedWhy::Kind),
];

/// The status of a feed of these records and these octets after them, and what was written.
fn cut_off<R: Threads + Sync>(
    rt: &R,
    alloc: Global,
    records: &str,
    tail: &[u8],
) -> Result<(Status, Vec<u8>), Fail> {
    let mut feed = octets_of(alloc, records)?;
    feed.extend_from_slice(tail)?;
    Ok(replayed(rt, alloc, feed)?)
}

#[test]
fn first_faulty_record_ends_the_run(rt: HostRuntime) -> Result<(), Fail> {
    for (tail, number, why) in FAULTS {
        let (status, written) = cut_off(&rt, rt.alloc(), "C 0 LINKED; E 1 A;", tail)?;
        let number = *number;
        let why = *why;
        ends(status, Status::Feed { number, why }, 3)?;
        same(&written, &[])?;
    }
    Ok(())
}

/// What is fed, octets after it, the number of the faulty record, why it is one, and what is written of those before.
const ENDS: &[(&str, &[u8], u64, FeedWhy, &str)] = &[
    ("E 1 A;", b"", 1, FeedWhy::NoRoster, ""),
    ("", b"", 1, FeedWhy::Truncated, ""),
    (DECIDED, b"?", 8, FeedWhy::Truncated, SENT),
];

#[test]
fn feed_begins_with_its_roster_and_ends_with_its_z(rt: HostRuntime) -> Result<(), Fail> {
    for (records, tail, number, why, wanted) in ENDS {
        let (status, written) = cut_off(&rt, rt.alloc(), records, tail)?;
        let number = *number;
        let why = *why;
        ends(status, Status::Feed { number, why }, 3)?;
        same(&written, &octets_of(rt.alloc(), wanted)?)?;
    }
    Ok(())
}

/// The settings and two routers, with another text in the place of one line, counted from 0.
fn with_line(alloc: Global, at: usize, text: &str) -> Result<String, AllocError> {
    let lines = "as 65000\nid 10.0.0.254\nshards 2\nhold 90\narea 0.0.0.0\n\
router 10.0.0.1 10.0.0.1\nrouter 10.0.0.2 10.0.0.2\nlink 10.0.0.1 10.0.0.2 10\n";
    let mut roster = String::new(alloc);
    for (place, line) in lines.lines().enumerate() {
        roster.push_str(if place == at { text } else { line })?;
        roster.push_str("\n")?;
    }
    Ok(roster)
}

/// The line that is put in, its text, the number of the faulty line, and why it is one.
const LINES: &[(usize, &str, u32, RosterWhy)] = &[
    (0, "as 0", 1, RosterWhy::Number),
    (0, "as 23456", 1, RosterWhy::Number),
    (0, "as 65000 ", 1, RosterWhy::Word),
    (1, "foo", 2, RosterWhy::Word),
    (2, "shards 65", 3, RosterWhy::Number),
    (3, "as 65000", 4, RosterWhy::Repeated),
    (4, "# no area", 9, RosterWhy::Missing),
    (6, "router 10.0.0.1 10.0.0.2", 7, RosterWhy::Repeated),
    (7, "link 10.0.0.1 10.0.0.9 1", 8, RosterWhy::Unknown),
];

#[test]
fn first_faulty_line_of_the_roster_ends_the_run(rt: HostRuntime) -> Result<(), Fail> {
    let alloc = rt.alloc();
    for (at, text, line, why) in LINES {
        let mut feed = Vec::new(alloc);
        add(&mut feed, b'C', 0, with_line(alloc, *at, text)?.as_bytes())?;
        let (status, written) = replayed(&rt, alloc, feed)?;
        let wanted = Status::Roster {
            number: 1,
            line: *line,
            why: *why,
        };
        ends(status, wanted, 4)?;
        same(&written, &[])?;
    }
    Ok(())
}
