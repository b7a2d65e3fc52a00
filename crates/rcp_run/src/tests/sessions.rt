//! Sessions that open, expire and fall (RFC 4271 sections 6 and 8), and octets in any pieces.

ghost use Rattle.std.specs.Prelude.{◌<◌};

use super::text::{add, octets_of};
use super::{CONNECTED, Row, SENT, check, done, same};
use std::test::Fail;

const LOST: &[Row] = &[
    (
        "a lost session takes its routes along",
        "C 0 LINKED; E 1 A; E 2 B; E 3 C; B 1 UA; B 3 UC; D 0; B 1 M 0034 02 0000 0019 40010100 400204; X 1; D 0;",
        "B 2 UA; S 0 3 1 1; X 1 030000; B 2 UC; S 0 2 1 2;",
    ),
    (
        "a router that notifies is not answered and may connect anew",
        "C 0 LINKED; E 1 A; E 2 B; E 3 C; B 1 UA; B 3 UC; D 0; B 1 M 0015 03 0604; \
         U 4; B 4 OPEN_A; B 4 KEEPALIVE; B 4 UA; D 0;",
        "B 2 UA; S 0 3 1 1; X 1 020604; B 4 OPEN; B 4 KEEPALIVE; S 0 3 1 1;",
    ),
    (
        "a silent session expires, and sends a KEEPALIVE each third of the hold time before",
        "C 0 LINKED; U 1; B 1 OPEN_A; B 1 KEEPALIVE; T 0 9; D 0; T 0 a; D 0; \
         T 0 000000000000001d; D 0; T 0 000000000000001e; D 0;",
        "B 1 OPEN; B 1 KEEPALIVE; S 0 1 0 0; B 1 KEEPALIVE; S 0 1 0 0; \
         B 1 KEEPALIVE; S 0 1 0 0; B 1 M 0015 03 0400; X 1 010400; S 0 0 0 0;",
    ),
    (
        "a second connection of a router is closed",
        "C 0 LINKED; U 1; B 1 OPEN_A; B 1 KEEPALIVE; E 2 A; U 3; B 3 OPEN_A; B 3 KEEPALIVE; B 1 UA; E 4 B; D 0;",
        "B 1 OPEN; B 1 KEEPALIVE; B 2 M 0015 03 0600; X 2 040600; B 3 OPEN; B 3 M 0015 03 0600; X 3 040600; \
         B 4 UA; S 0 2 1 1;",
    ),
];

#[test]
fn sessions_end_and_begin_anew(rt: HostRuntime) -> Result<(), Fail> {
    check(&rt, rt.alloc(), LOST)
}

const REFUSED: &[Row] = &[
    (
        "a header of 18 octets is answered with its length",
        "C 0 LINKED; U 1; B 1 M 0012; B 1 04;",
        "B 1 OPEN; B 1 M 0017 03 0102 0012; X 1 010102;",
    ),
    (
        "a header of 4,097 octets is answered with its length",
        "C 0 LINKED; U 1; B 1 M 1001; B 1 02;",
        "B 1 OPEN; B 1 M 0017 03 0102 1001; X 1 010102;",
    ),
    (
        "a KEEPALIVE of 20 octets is answered with its length",
        "C 0 LINKED; U 1; B 1 M 0014; B 1 04;",
        "B 1 OPEN; B 1 M 0017 03 0102 0014; X 1 010102;",
    ),
    (
        "an OPEN with a hold time of 2 seconds is refused",
        "C 0 LINKED; U 1; B 1 M 001d 01 04 fde8 0002 0a000001 00; X 1;",
        "B 1 OPEN; B 1 M 0015 03 0206; X 1 010206;",
    ),
    (
        "an OPEN of a router that is no member is refused",
        "C 0 LINKED; U 1; B 1 M 001d 01 04 fde8 001e 0a000009 00; X 1;",
        "B 1 OPEN; B 1 M 0015 03 0203; X 1 010203;",
    ),
    (
        "an OPEN of another AS is refused",
        "C 0 LINKED; U 1; B 1 M 001d 01 04 fde9 001e 0a000001 00; X 1;",
        "B 1 OPEN; B 1 M 0015 03 0202; X 1 010202;",
    ),
    (
        "an OPEN of version 3 is refused",
        "C 0 LINKED; U 1; B 1 M 001d 01 03 fde8 001e 0a000001 00; X 1;",
        "B 1 OPEN; B 1 M 0017 03 0201 0004; X 1 010201;",
    ),
    (
        "an UPDATE before an OPEN is refused",
        "C 0 LINKED; U 1; B 1 UA; D 0;",
        "B 1 OPEN; B 1 M 0015 03 0500; X 1 010500; S 0 0 0 0;",
    ),
];

#[test]
fn faulty_headers_and_opens_are_refused(rt: HostRuntime) -> Result<(), Fail> {
    check(&rt, rt.alloc(), REFUSED)
}

/// Adds a message in pieces of this length, and an empty one.
fn add_pieces(feed: &mut Vec<u8>, number: u32, message: &[u8], length: usize) -> Result<(), Fail>
    requires { 0 < length }
{
    for piece in message.chunks(length) {
        add(feed, b'B', number, piece)?;
    }
    add(feed, b'B', number, &[])
}

#[test]
fn octets_count_in_any_pieces(rt: HostRuntime) -> Result<(), Fail> {
    let alloc = rt.alloc();
    let wanted = octets_of(alloc, SENT)?;
    let of_a = octets_of(alloc, "B 1 UA;")?;
    let of_a = of_a.get(9..).ok_or("short")?;
    let of_c = octets_of(alloc, "B 3 UC;")?;
    let of_c = of_c.get(9..).ok_or("short")?;
    for length in [1, 2, 18, 19, 20, 51, 52] {
        let mut feed = octets_of(alloc, CONNECTED)?;
        add_pieces(&mut feed, 1, of_a, length)?;
        add_pieces(&mut feed, 3, of_c, length)?;
        add(&mut feed, b'D', 0, &[])?;
        let found = done(&rt, alloc, feed)?;
        same(&found, &wanted)?;
    }
    Ok(())
}
