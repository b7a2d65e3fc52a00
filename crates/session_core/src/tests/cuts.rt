// Octets that come in pieces.
use super::{ALIVE, ANNOUNCEMENT, Event, Log, MARKER, OPEN_30, established, linked};
use crate::Session;
use roster::Roster;
use std::alloc::Global;
use std::test::Fail;

// An OPEN, a KEEPALIVE, an UPDATE and a header of an unknown type.
fn stream(alloc: Global) -> Result<Vec<u8>, Fail> {
    let mut octets = Vec::new(alloc);
    for rest in [OPEN_30, ALIVE, ANNOUNCEMENT, b"\x00\x13\x09"] {
        octets.extend_from_slice(&MARKER)?;
        octets.extend_from_slice(rest)?;
    }
    Ok(octets)
}

// The octets come in pieces of so many, and the seat is free.
fn hear(alloc: Global, roster: &Roster, octets: &[u8], count: usize) -> Result<Log, Fail> {
    let (mut session, _) = Session::open(alloc, roster, 0)?;
    let mut log = Log::new(alloc);
    for piece in octets.chunks(count.max(1)) {
        let actions = session.bytes(roster, piece, 0)?;
        log.add(&actions)?;
    }
    let actions = session.seated(roster, true, 0)?;
    log.add(&actions)?;
    Ok(log)
}

#[test]
fn pieces_of_any_length_give_the_same(rt: HostRuntime) -> Result<(), Fail> {
    let alloc = rt.alloc();
    let roster = linked(alloc)?;
    let octets = stream(alloc)?;
    let whole = hear(alloc, &roster, &octets, octets.len())?;
    assert_eq!(rt;
        whole.sent.as_slice(),
        [0, 19, 4, 0, 22, 3, 1, 3, 9].as_slice()
    );
    assert_eq!(rt;
        whole.events.as_slice(),
        [Event::Up, Event::Announced(0xcb00_7100, 24)].as_slice()
    );
    for count in [1, 2, 3, 18, 19, 20, 31, 50] {
        let log = hear(alloc, &roster, &octets, count)?;
        assert_eq!(rt; log.sent.as_slice(), whole.sent.as_slice(), "{count}");
        assert_eq!(rt; log.events.as_slice(), whole.events.as_slice(), "{count}");
        assert_eq!(rt; log.closed, whole.closed, "{count}");
    }
    Ok(())
}

#[test]
fn a_long_piece_is_read_to_its_end(rt: HostRuntime) -> Result<(), Fail> {
    let alloc = rt.alloc();
    let roster = linked(alloc)?;
    let (mut session, _) = established(alloc, &roster)?;
    let mut octets = Vec::new(alloc);
    for _ in 0..400 {
        octets.extend_from_slice(&MARKER)?;
        octets.extend_from_slice(ANNOUNCEMENT)?;
    }
    assert_eq!(rt; octets.len(), 20800);
    let actions = session.bytes(&roster, &octets, 0)?;
    assert_eq!(rt; actions.events.len(), 400);
    Ok(())
}
