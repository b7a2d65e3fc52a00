//! UPDATEs of any content: what they announce and withdraw, and how faulty ones are answered (RFC 4271 section 6.3).

use super::text::{add, octets_of};
use super::{CONNECTED, Row, check, done, same};
use std::alloc::Global;
use std::test::Fail;
use std::thread::Threads;

const TAKEN: &[Row] = &[
    (
        "a prefix that is withdrawn and announced is announced",
        "C 0 LINKED; E 1 A; E 2 B; E 3 C; B 1 M 0038 02 0004 18cb0071 0019 ATTRS_A 18cb0071; D 0;",
        "B 2 UA; B 3 UA; S 0 3 1 2;",
    ),
    (
        "an UPDATE that says nothing changes nothing",
        "C 0 LINKED; E 1 A; E 2 B; E 3 C; B 1 M 0017 02 0000 0000; D 0;",
        "S 0 3 0 0;",
    ),
    (
        "a withdrawn route gives way to the other",
        "C 0 LINKED; E 1 A; E 2 B; E 3 C; B 1 UA; B 3 UC; D 0; B 1 WITHDRAWN; B 1 WITHDRAWN; D 0;",
        "B 2 UA; S 0 3 1 1; B 1 UC; B 2 UC; S 0 3 1 3;",
    ),
];

#[test]
fn updates_announce_and_withdraw(rt: HostRuntime) -> Result<(), Fail> {
    check(&rt, rt.alloc(), TAKEN)
}

const FAULTY: &[Row] = &[
    (
        "a missing attribute is answered and ends the session",
        "C 0 LINKED; E 1 A; E 2 B; E 3 C; B 1 UA; B 3 UC; D 0; \
         B 1 M 002d 02 0000 0012 40010100 4002040201fde9 40050400000064 18cb0071; B 1 UA; D 0;",
        "B 2 UA; S 0 3 1 1; B 1 M 0016 03 0303 03; X 1 010303; B 2 UC; S 0 2 1 2;",
    ),
    (
        "a faulty value of an attribute is answered and ends the session",
        "C 0 LINKED; E 1 A; E 2 B; E 3 C; B 1 UA; B 3 UC; D 0; \
         B 1 M 0034 02 0000 0019 40010103 4002040201fde9 4003040a000001 40050400000064 18cb0071; B 1 UA; D 0;",
        "B 2 UA; S 0 3 1 1; B 1 M 0019 03 0306 40010103; X 1 010306; B 2 UC; S 0 2 1 2;",
    ),
    (
        "an attribute that stands twice is answered and ends the session",
        "C 0 LINKED; E 1 A; E 2 B; E 3 C; B 1 UA; B 3 UC; D 0; \
         B 1 M 0038 02 0000 001d 40010100 40010100 4002040201fde9 4003040a000001 40050400000064 18cb0071; B 1 UA; D 0;",
        "B 2 UA; S 0 3 1 1; B 1 M 0015 03 0301; X 1 010301; B 2 UC; S 0 2 1 2;",
    ),
    (
        "a prefix of 33 bits is answered and ends the session",
        "C 0 LINKED; E 1 A; E 2 B; E 3 C; B 1 UA; B 3 UC; D 0; \
         B 1 M 0036 02 0000 0019 ATTRS_A 21cb00710000; B 1 UA; D 0;",
        "B 2 UA; S 0 3 1 1; B 1 M 0015 03 030a; X 1 01030a; B 2 UC; S 0 2 1 2;",
    ),
];

#[test]
fn faulty_update_is_answered_and_ends_the_session(rt: HostRuntime) -> Result<(), Fail> {
    check(&rt, rt.alloc(), FAULTY)
}

/// A message of A up to the value of an unrecognised attribute, with so many octets of value, and the prefix.
fn with_value(alloc: Global, front: &str, count: usize) -> Result<Vec<u8>, Fail> {
    let record = octets_of(alloc, front)?;
    let mut message = Vec::from_slice(alloc, record.get(9..).ok_or("short")?)?;
    message.extend_from_slice(&vec![in alloc; 7; count]?)?;
    message.extend_from_slice(&[0x18, 0xcb, 0x00, 0x71])?;
    Ok(message)
}

/// What is written where A sends it and it is decided.
fn decided<R: Threads + Sync>(rt: &R, alloc: Global, message: &[u8]) -> Result<Vec<u8>, Fail> {
    let mut feed = octets_of(alloc, CONNECTED)?;
    add(&mut feed, b'B', 1, message)?;
    add(&mut feed, b'D', 0, &[])?;
    done(rt, alloc, feed)
}

/// The longest route is sent to B and C, with the flag Partial.
#[test]
fn longest_route_is_sent_and_one_octet_more_is_not(rt: HostRuntime) -> Result<(), Fail> {
    let alloc = rt.alloc();
    let longest = with_value(alloc, "B 0 M 0fff 02 0000 0fe4 ATTRS_A d0630fc7;", 4039)?;
    let passed_on = with_value(alloc, "B 0 M 0fff 02 0000 0fe4 ATTRS_A f0630fc7;", 4039)?;
    let mut wanted = Vec::new(alloc);
    add(&mut wanted, b'B', 2, &passed_on)?;
    add(&mut wanted, b'B', 3, &passed_on)?;
    wanted.extend_from_slice(&octets_of(alloc, "S 0 3 1 2;")?)?;
    same(&decided(&rt, alloc, &longest)?, &wanted)?;
    let longer = with_value(alloc, "B 0 M 1000 02 0000 0fe5 ATTRS_A d0630fc8;", 4040)?;
    let nothing = octets_of(alloc, "S 0 3 1 0;")?;
    same(&decided(&rt, alloc, &longer)?, &nothing)
}
