// Tables of sessions: what comes, and what is done.
use super::{ALIVE, ANNOUNCEMENT, Event, Input, Log, OPEN_30, answer_all, established, linked};
use crate::{Session, Why};
use std::alloc::Global;
use std::test::Fail;

struct Case {
    name: &'static str,
    // Whether the session is established from its beginning; else it begins with the platform's OPEN at time 0.
    established: bool,
    inputs: &'static [Input],
    // The messages without their markers, but for the platform's OPEN.
    sent: &'static [u8],
    events: &'static [Event],
    claim: Option<u16>,
    // Why the session ended, with the code and the subcode.
    closed: Option<(Why, u8, u8)>,
}

// Faulty headers and OPENs.
const MESSAGES: &[Case] = &[
    Case {
        name: "a length of 18",
        established: false,
        inputs: &[Input::Message(b"\x00\x12\x04")],
        sent: b"\x00\x17\x03\x01\x02\x00\x12",
        events: &[],
        claim: None,
        closed: Some((Why::Fault, 1, 2)),
    },
    Case {
        name: "a length of 4097",
        established: false,
        inputs: &[Input::Message(b"\x10\x01\x02")],
        sent: b"\x00\x17\x03\x01\x02\x10\x01",
        events: &[],
        claim: None,
        closed: Some((Why::Fault, 1, 2)),
    },
    Case {
        name: "a KEEPALIVE of 20 octets",
        established: false,
        inputs: &[Input::Message(b"\x00\x14\x04")],
        sent: b"\x00\x17\x03\x01\x02\x00\x14",
        events: &[],
        claim: None,
        closed: Some((Why::Fault, 1, 2)),
    },
    Case {
        name: "an unknown type",
        established: false,
        inputs: &[Input::Message(b"\x00\x13\x05")],
        sent: b"\x00\x16\x03\x01\x03\x05",
        events: &[],
        claim: None,
        closed: Some((Why::Fault, 1, 3)),
    },
    Case {
        name: "a hold time of two seconds",
        established: false,
        inputs: &[Input::Message(b"\x00\x1d\x01\x04\xfd\xe8\x00\x02\x0a\x00\x00\x01\x00")],
        sent: b"\x00\x15\x03\x02\x06",
        events: &[],
        claim: None,
        closed: Some((Why::Fault, 2, 6)),
    },
    Case {
        name: "an unknown identifier",
        established: false,
        inputs: &[Input::Message(b"\x00\x1d\x01\x04\xfd\xe8\x00\x1e\x0a\x00\x00\x09\x00")],
        sent: b"\x00\x15\x03\x02\x03",
        events: &[],
        claim: None,
        closed: Some((Why::Fault, 2, 3)),
    },
    Case {
        name: "another AS",
        established: false,
        inputs: &[Input::Message(b"\x00\x1d\x01\x04\xfd\xe9\x00\x1e\x0a\x00\x00\x01\x00")],
        sent: b"\x00\x15\x03\x02\x02",
        events: &[],
        claim: None,
        closed: Some((Why::Fault, 2, 2)),
    },
    Case {
        name: "version 3",
        established: false,
        inputs: &[Input::Message(b"\x00\x1d\x01\x03\xfd\xe8\x00\x1e\x0a\x00\x00\x01\x00")],
        sent: b"\x00\x17\x03\x02\x01\x00\x04",
        events: &[],
        claim: None,
        closed: Some((Why::Fault, 2, 1)),
    },
    Case {
        name: "an unknown identifier before an unknown parameter",
        established: false,
        inputs: &[Input::Message(b"\x00\x1f\x01\x04\xfd\xe8\x00\x1e\x0a\x00\x00\x09\x02\x01\x00")],
        sent: b"\x00\x15\x03\x02\x03",
        events: &[],
        claim: None,
        closed: Some((Why::Fault, 2, 3)),
    },
    Case {
        name: "an unknown parameter",
        established: false,
        inputs: &[Input::Message(b"\x00\x1f\x01\x04\xfd\xe8\x00\x1e\x0a\x00\x00\x01\x02\x01\x00")],
        sent: b"\x00\x15\x03\x02\x04",
        events: &[],
        claim: None,
        closed: Some((Why::Fault, 2, 4)),
    },
    Case {
        name: "a parameter past the end",
        established: false,
        inputs: &[Input::Message(b"\x00\x1f\x01\x04\xfd\xe8\x00\x1e\x0a\x00\x00\x01\x02\x02\x01")],
        sent: b"\x00\x15\x03\x02\x00",
        events: &[],
        claim: None,
        closed: Some((Why::Fault, 2, 0)),
    },
];

// Timers.
const TIMES: &[Case] = &[
    Case {
        name: "nothing is due before a third of the hold time",
        established: false,
        inputs: &[
            Input::Message(OPEN_30),
            Input::Seat(true),
            Input::Message(ALIVE),
            Input::Time(9),
        ],
        sent: b"\x00\x13\x04",
        events: &[Event::Up],
        claim: Some(0),
        closed: None,
    },
    Case {
        name: "a KEEPALIVE each third of the hold time",
        established: false,
        inputs: &[
            Input::Message(OPEN_30),
            Input::Seat(true),
            Input::Message(ALIVE),
            Input::Time(9),
            Input::Time(10),
            Input::Time(19),
            Input::Time(29),
        ],
        sent: b"\x00\x13\x04\x00\x13\x04\x00\x13\x04",
        events: &[Event::Up],
        claim: Some(0),
        closed: None,
    },
    Case {
        name: "the hold time runs out",
        established: false,
        inputs: &[
            Input::Message(OPEN_30),
            Input::Seat(true),
            Input::Message(ALIVE),
            Input::Time(9),
            Input::Time(10),
            Input::Time(29),
            Input::Time(30),
        ],
        sent: b"\x00\x13\x04\x00\x13\x04\x00\x13\x04\x00\x15\x03\x04\x00",
        events: &[Event::Up],
        claim: Some(0),
        closed: Some((Why::Fault, 4, 0)),
    },
    Case {
        name: "a KEEPALIVE that is sent doesn't count as read",
        established: false,
        inputs: &[
            Input::Message(OPEN_30),
            Input::Seat(true),
            Input::Message(ALIVE),
            Input::Time(20),
            Input::Time(30),
        ],
        sent: b"\x00\x13\x04\x00\x13\x04\x00\x15\x03\x04\x00",
        events: &[Event::Up],
        claim: Some(0),
        closed: Some((Why::Fault, 4, 0)),
    },
    Case {
        name: "octets that are read late count, and no other call expires",
        established: false,
        inputs: &[
            Input::Message(OPEN_30),
            Input::Seat(true),
            Input::Message(ALIVE),
            Input::Time(9),
            Input::Time(29),
            Input::Message(ALIVE),
            Input::Time(58),
        ],
        sent: b"\x00\x13\x04\x00\x13\x04\x00\x13\x04",
        events: &[Event::Up],
        claim: Some(0),
        closed: None,
    },
    Case {
        name: "a time below the latest counts as that",
        established: false,
        inputs: &[
            Input::Message(OPEN_30),
            Input::Seat(true),
            Input::Message(ALIVE),
            Input::Time(29),
            Input::Time(5),
            Input::Message(ALIVE),
            Input::Time(58),
        ],
        sent: b"\x00\x13\x04\x00\x13\x04\x00\x13\x04",
        events: &[Event::Up],
        claim: Some(0),
        closed: None,
    },
    Case {
        name: "without a hold time nothing expires",
        established: false,
        inputs: &[
            Input::Message(b"\x00\x1d\x01\x04\xfd\xe8\x00\x00\x0a\x00\x00\x01\x00"),
            Input::Seat(true),
            Input::Message(ALIVE),
            Input::Time(1000000),
        ],
        sent: b"\x00\x13\x04",
        events: &[Event::Up],
        claim: Some(0),
        closed: None,
    },
    Case {
        name: "the platform's hold time is the smaller one",
        established: false,
        inputs: &[
            Input::Message(b"\x00\x1d\x01\x04\xfd\xe8\x00\xb4\x0a\x00\x00\x01\x00"),
            Input::Seat(true),
            Input::Message(ALIVE),
            Input::Time(89),
            Input::Time(90),
        ],
        sent: b"\x00\x13\x04\x00\x13\x04\x00\x15\x03\x04\x00",
        events: &[Event::Up],
        claim: Some(0),
        closed: Some((Why::Fault, 4, 0)),
    },
    Case {
        name: "the OPEN is waited for",
        established: false,
        inputs: &[Input::Time(239)],
        sent: b"",
        events: &[],
        claim: None,
        closed: None,
    },
    Case {
        name: "the OPEN comes too late",
        established: false,
        inputs: &[Input::Time(239), Input::Time(240)],
        sent: b"\x00\x15\x03\x04\x00",
        events: &[],
        claim: None,
        closed: Some((Why::Fault, 4, 0)),
    },
    Case {
        name: "the answer to a claim comes too late",
        established: false,
        inputs: &[Input::Message(OPEN_30), Input::Time(240)],
        sent: b"\x00\x15\x03\x04\x00",
        events: &[],
        claim: Some(0),
        closed: Some((Why::Fault, 4, 0)),
    },
];

// What each state takes.
const STATES: &[Case] = &[
    Case {
        name: "the seat is taken",
        established: false,
        inputs: &[Input::Message(OPEN_30), Input::Seat(false)],
        sent: b"\x00\x15\x03\x06\x00",
        events: &[],
        claim: Some(0),
        closed: Some((Why::SeatOut, 6, 0)),
    },
    Case {
        name: "octets wait for the seat",
        established: false,
        inputs: &[
            Input::Message(OPEN_30),
            Input::Message(ALIVE),
            Input::Seat(true),
        ],
        sent: b"\x00\x13\x04",
        events: &[Event::Up],
        claim: Some(0),
        closed: None,
    },
    Case {
        name: "no octet is read before the seat is taken",
        established: false,
        inputs: &[Input::Message(OPEN_30), Input::Message(ALIVE)],
        sent: b"",
        events: &[],
        claim: Some(0),
        closed: None,
    },
    Case {
        name: "an UPDATE before the OPEN",
        established: false,
        inputs: &[Input::Message(ANNOUNCEMENT)],
        sent: b"\x00\x15\x03\x05\x00",
        events: &[],
        claim: None,
        closed: Some((Why::Fault, 5, 0)),
    },
    Case {
        name: "a KEEPALIVE before the OPEN",
        established: false,
        inputs: &[Input::Message(ALIVE)],
        sent: b"\x00\x15\x03\x05\x00",
        events: &[],
        claim: None,
        closed: Some((Why::Fault, 5, 0)),
    },
    Case {
        name: "an UPDATE before the session is up",
        established: false,
        inputs: &[
            Input::Message(OPEN_30),
            Input::Seat(true),
            Input::Message(ANNOUNCEMENT),
        ],
        sent: b"\x00\x13\x04\x00\x15\x03\x05\x00",
        events: &[],
        claim: Some(0),
        closed: Some((Why::Fault, 5, 0)),
    },
    Case {
        name: "an OPEN in OpenConfirm",
        established: false,
        inputs: &[
            Input::Message(OPEN_30),
            Input::Seat(true),
            Input::Message(OPEN_30),
        ],
        sent: b"\x00\x13\x04\x00\x15\x03\x05\x00",
        events: &[],
        claim: Some(0),
        closed: Some((Why::Fault, 5, 0)),
    },
    Case {
        name: "an OPEN in Established",
        established: true,
        inputs: &[Input::Message(OPEN_30)],
        sent: b"\x00\x15\x03\x05\x00",
        events: &[],
        claim: None,
        closed: Some((Why::Fault, 5, 0)),
    },
    Case {
        name: "a NOTIFICATION before the OPEN isn't answered",
        established: false,
        inputs: &[Input::Message(b"\x00\x15\x03\x06\x00")],
        sent: b"",
        events: &[],
        claim: None,
        closed: Some((Why::Received, 6, 0)),
    },
    Case {
        name: "a NOTIFICATION isn't answered, and ends all",
        established: true,
        inputs: &[
            Input::Message(b"\x00\x15\x03\x06\x00"),
            Input::Message(ALIVE),
            Input::Time(300),
            Input::Message(ANNOUNCEMENT),
        ],
        sent: b"",
        events: &[],
        claim: None,
        closed: Some((Why::Received, 6, 0)),
    },
];

// UPDATEs.
const UPDATES: &[Case] = &[
    Case {
        name: "an ORIGIN of 3",
        established: true,
        inputs: &[Input::Message(
            b"\x00\x2d\x02\x00\x00\x00\x12\x40\x01\x01\x03\x40\x02\x04\x02\x01\xfd\xe9\x40\x03\x04\x0a\x00\x00\x01\x18\xcb\x00\x71",
        )],
        sent: b"\x00\x19\x03\x03\x06\x40\x01\x01\x03",
        events: &[],
        claim: None,
        closed: Some((Why::Fault, 3, 6)),
    },
    Case {
        name: "ORIGIN twice",
        established: true,
        inputs: &[Input::Message(
            b"\x00\x31\x02\x00\x00\x00\x16\x40\x01\x01\x00\x40\x01\x01\x00\x40\x02\x04\x02\x01\xfd\xe9\x40\x03\x04\x0a\x00\x00\x01\x18\xcb\x00\x71",
        )],
        sent: b"\x00\x15\x03\x03\x01",
        events: &[],
        claim: None,
        closed: Some((Why::Fault, 3, 1)),
    },
    Case {
        name: "NLRI without NEXT_HOP",
        established: true,
        inputs: &[Input::Message(
            b"\x00\x26\x02\x00\x00\x00\x0b\x40\x01\x01\x00\x40\x02\x04\x02\x01\xfd\xe9\x18\xcb\x00\x71",
        )],
        sent: b"\x00\x16\x03\x03\x03\x03",
        events: &[],
        claim: None,
        closed: Some((Why::Fault, 3, 3)),
    },
    Case {
        name: "a prefix of 33 bits",
        established: true,
        inputs: &[Input::Message(
            b"\x00\x2f\x02\x00\x00\x00\x12\x40\x01\x01\x00\x40\x02\x04\x02\x01\xfd\xe9\x40\x03\x04\x0a\x00\x00\x01\x21\x01\x02\x03\x04\x05",
        )],
        sent: b"\x00\x15\x03\x03\x0a",
        events: &[],
        claim: None,
        closed: Some((Why::Fault, 3, 10)),
    },
    Case {
        name: "an UPDATE of 23 octets",
        established: true,
        inputs: &[Input::Message(b"\x00\x17\x02\x00\x00\x00\x00")],
        sent: b"",
        events: &[],
        claim: None,
        closed: None,
    },
    Case {
        name: "an announcement",
        established: true,
        inputs: &[Input::Message(ANNOUNCEMENT)],
        sent: b"",
        events: &[Event::Announced(0xcb007100, 24)],
        claim: None,
        closed: None,
    },
    Case {
        name: "withdrawn routes come first, without those of the NLRI, each as often as it is there",
        established: true,
        inputs: &[Input::Message(
            b"\x00\x39\x02\x00\x08\x18\xcb\x00\x71\x08\x0a\x08\x0a\x00\x12\x40\x01\x01\x00\x40\x02\x04\x02\x01\xfd\xe9\x40\x03\x04\x0a\x00\x00\x01\x18\xcb\x00\x71\x18\xcb\x00\x71",
        )],
        sent: b"",
        events: &[
            Event::Withdrawn(0x0a000000, 8),
            Event::Withdrawn(0x0a000000, 8),
            Event::Announced(0xcb007100, 24),
            Event::Announced(0xcb007100, 24),
        ],
        claim: None,
        closed: None,
    },
];

// What a session does with what comes in a case.
fn run(alloc: Global, case: &Case) -> Result<Log, Fail> {
    let roster = linked(alloc)?;
    let (mut session, _) = if case.established {
        established(alloc, &roster)?
    } else {
        Session::open(alloc, &roster, 0)?
    };
    let mut log = Log::new(alloc);
    answer_all(alloc, &mut session, &roster, case.inputs, &mut log)?;
    Ok(log)
}

// The first thing in which a session differs from its case.
fn differing(log: &Log, case: &Case) -> &'static str {
    if log.sent.as_slice() != case.sent {
        return "what is sent";
    }
    if log.events.as_slice() != case.events {
        return "the events";
    }
    if log.claim.map(|slot| slot.0) != case.claim {
        return "the claim";
    }
    let closed = log
        .closed
        .map(|closed| (closed.why, closed.code, closed.sub));
    if closed != case.closed {
        return "the end";
    }
    "nothing"
}

// The first case that differs, and in what.
fn first_differing(alloc: Global, cases: &[Case]) -> Result<(&'static str, &'static str), Fail> {
    for case in cases {
        let what = differing(&run(alloc, case)?, case);
        if what != "nothing" {
            return Ok((case.name, what));
        }
    }
    Ok(("no case", "nothing"))
}

#[test]
fn a_faulty_header_or_open_ends_the_session_by_its_first_fault(
    rt: HostRuntime,
) -> Result<(), Fail> {
    assert_eq!(rt;
        first_differing(rt.alloc(), MESSAGES)?,
        ("no case", "nothing")
    );
    Ok(())
}

#[test]
fn timers_are_those_of_the_hold_time(rt: HostRuntime) -> Result<(), Fail> {
    assert_eq!(rt; first_differing(rt.alloc(), TIMES)?, ("no case", "nothing"));
    Ok(())
}

#[test]
fn each_state_takes_its_messages(rt: HostRuntime) -> Result<(), Fail> {
    assert_eq!(rt;
        first_differing(rt.alloc(), STATES)?,
        ("no case", "nothing")
    );
    Ok(())
}

#[test]
fn an_update_counts_only_where_it_is_faultless(rt: HostRuntime) -> Result<(), Fail> {
    assert_eq!(rt;
        first_differing(rt.alloc(), UPDATES)?,
        ("no case", "nothing")
    );
    Ok(())
}
