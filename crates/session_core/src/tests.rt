// Sessions from their first octet on: what comes to each, and what it sends, what it reports and how it ends.
use crate::{Actions, Closed, Session, SessionEvent, Why};
use rcp_base::Slot;
use roster::{Roster, read};
use std::alloc::Global;
use std::test::Fail;

mod cases;
mod cuts;

const LINKED: &[u8] =
    b"as 65000\nid 10.0.0.254\nshards 2\nhold 90\narea 0.0.0.0\nrouter 10.0.0.1 10.0.0.1\nrouter 10.0.0.2 10.0.0.2\nrouter 10.0.0.3 10.0.0.3\nlink 10.0.0.1 10.0.0.2 10\nlink 10.0.0.2 10.0.0.3 10\n";

const MARKER: [u8; 16] = [0xff; 16];

// The platform's OPEN after its marker: AS 65000, hold time 90 and BGP Identifier 10.0.0.254.
const OWN_OPEN: &[u8] = b"\x00\x1d\x01\x04\xfd\xe8\x00\x5a\x0a\x00\x00\xfe\x00";

// A router's OPEN with the hold time 30 and a parameter of capabilities.
const OPEN_30: &[u8] = b"\x00\x1f\x01\x04\xfd\xe8\x00\x1e\x0a\x00\x00\x01\x02\x02\x00";

const ALIVE: &[u8] = b"\x00\x13\x04";

// 203.0.113.0/24 with ORIGIN IGP, the path 65001, NEXT_HOP 10.0.0.1 and LOCAL_PREF 100.
const ANNOUNCEMENT: &[u8] =
    b"\x00\x34\x02\x00\x00\x00\x19\x40\x01\x01\x00\x40\x02\x04\x02\x01\xfd\xe9\x40\x03\x04\x0a\x00\x00\x01\x40\x05\x04\x00\x00\x00\x64\x18\xcb\x00\x71";

// What comes to a session: a message without its marker, the answer to its claim, or a time, which is that of all that
// comes until the next one.
#[derive(Clone, Copy)]
enum Input {
    Message(&'static [u8]),
    Seat(bool),
    Time(u64),
}

// An event, a prefix by its address and length.
#[derive(Clone, Copy, Debug, PartialEq, Eq)]
enum Event {
    Up,
    Announced(u32, u8),
    Withdrawn(u32, u8),
}

// What a session did: the messages without their markers, one after another; the events; the slot that it claimed, and
// its end.
#[derive(Drop)]
struct Log {
    sent: Vec<u8>,
    events: Vec<Event>,
    claim: Option<Slot>,
    closed: Option<Closed>,
}

impl Log {
    fn new(alloc: Global) -> Log {
        Log {
            sent: Vec::new(alloc),
            events: Vec::new(alloc),
            claim: None,
            closed: None,
        }
    }

    fn add(&mut self, actions: &Actions) -> Result<(), Fail> {
        for message in &actions.send {
            let rest = message.strip_prefix(MARKER.as_slice()).ok_or("a marker")?;
            self.sent.extend_from_slice(rest)?;
        }
        for event in &actions.events {
            self.events.push(event_of(event))?;
        }
        self.claim = actions.claim.or(self.claim);
        self.closed = actions.closed.or(self.closed);
        Ok(())
    }
}

fn event_of(event: &SessionEvent) -> Event {
    match event {
        SessionEvent::Up => Event::Up,
        SessionEvent::Announce { prefix, .. } => Event::Announced(prefix.addr(), prefix.len()),
        SessionEvent::Withdraw { prefix } => Event::Withdrawn(prefix.addr(), prefix.len()),
    }
}

// The roster of three routers in a row.
fn linked(alloc: Global) -> Result<Roster, Fail> {
    let text = LINKED;
    if text.len() > 65536 {
        return Err("a short text".into());
    }
    Ok(read(alloc, text)?)
}

// A session with the first router of the roster that is established from its beginning.
fn established(alloc: Global, roster: &Roster) -> Result<(Session, Actions), Fail> {
    if roster.len() < 1 {
        return Err("a router".into());
    }
    Ok(Session::established(alloc, roster, Slot(0))?)
}

// What comes does this at a time.
fn answer(
    alloc: Global,
    session: &mut Session,
    roster: &Roster,
    input: Input,
    now: u64,
) -> Result<Actions, Fail> {
    let actions = match input {
        Input::Message(rest) => {
            let mut octets = Vec::from_slice(alloc, &MARKER)?;
            octets.extend_from_slice(rest)?;
            session.bytes(roster, &octets, now)
        }
        Input::Seat(free) => session.seated(roster, free, now),
        Input::Time(now) => session.clock(now),
    };
    Ok(actions?)
}

// All that comes, one after another.
fn answer_all(
    alloc: Global,
    session: &mut Session,
    roster: &Roster,
    inputs: &[Input],
    log: &mut Log,
) -> Result<(), Fail> {
    let mut now = 0;
    for input in inputs {
        if let Input::Time(time) = *input {
            now = time;
        }
        let actions = answer(alloc, session, roster, *input, now)?;
        log.add(&actions)?;
    }
    Ok(())
}

#[test]
fn a_connection_begins_with_an_open(rt: HostRuntime) -> Result<(), Fail> {
    let alloc = rt.alloc();
    let roster = linked(alloc)?;
    let (_, actions) = Session::open(alloc, &roster, 7)?;
    let mut log = Log::new(alloc);
    log.add(&actions)?;
    assert_eq!(rt; log.sent.as_slice(), OWN_OPEN);
    assert!(rt; log.events.is_empty());
    assert_eq!(rt; log.closed, None);
    Ok(())
}

#[test]
fn an_ended_connection_closes_its_session_once(rt: HostRuntime) -> Result<(), Fail> {
    let alloc = rt.alloc();
    let roster = linked(alloc)?;
    let (mut session, actions) = established(alloc, &roster)?;
    let mut log = Log::new(alloc);
    log.add(&actions)?;
    assert_eq!(rt; log.events.as_slice(), [Event::Up].as_slice());
    let end = session.end();
    assert_eq!(rt;
        end.closed,
        Some(Closed {
            why: Why::End,
            code: 0,
            sub: 0
        })
    );
    assert!(rt; end.send.is_empty());
    assert!(rt; end.events.is_empty());
    assert_eq!(rt; session.end().closed, None);
    let later = answer(
        alloc,
        &mut session,
        &roster,
        Input::Message(ANNOUNCEMENT),
        1,
    )?;
    assert!(rt; later.send.is_empty());
    assert!(rt; later.events.is_empty());
    Ok(())
}

#[test]
fn ends_have_their_numbers(rt: HostRuntime) -> Result<(), Fail> {
    for (why, number) in [
        (Why::Fault, 1),
        (Why::Received, 2),
        (Why::End, 3),
        (Why::SeatOut, 4),
    ] {
        assert_eq!(rt; why.number(), number);
    }
    Ok(())
}

#[test]
fn an_update_tells_its_routes(rt: HostRuntime) -> Result<(), Fail> {
    let alloc = rt.alloc();
    let roster = linked(alloc)?;
    let (mut session, _) = established(alloc, &roster)?;
    let actions = answer(
        alloc,
        &mut session,
        &roster,
        Input::Message(ANNOUNCEMENT),
        0,
    )?;
    let Some(SessionEvent::Announce { prefix, route }) = actions.events.first() else {
        return Err("an announcement".into());
    };
    assert_eq!(rt; (prefix.addr(), prefix.len()), (0xcb00_7100, 24));
    assert_eq!(rt;
        (route.pref, route.hops, route.origin, route.neighbour),
        (100, 1, 0, 65001)
    );
    assert_eq!(rt; route.next_hop.0, 0x0a00_0001);
    assert_eq!(rt; route.octets(), &ANNOUNCEMENT[7..32]);
    Ok(())
}
