// Valid and faulty rosters, each as its text.
use super::*;
use rcp_base::{Addr, RouterId, Slot, write_addr};
use rcp_model::Edge;
use std::alloc::{AllocError, Global};
use std::test::Fail;

/// The five settings, in the first five lines.
const SETTINGS: &[u8] = b"as 65000\nid 10.0.0.254\nshards 2\nhold 90\narea 0.0.0.0\n";

const LINKED: &[u8] =
    b"as 65000\nid 10.0.0.254\nshards 2\nhold 90\narea 0.0.0.0\nrouter 10.0.0.1 10.0.0.1\nrouter 10.0.0.2 10.0.0.2\nrouter 10.0.0.3 10.0.0.3\nlink 10.0.0.1 10.0.0.2 10\nlink 10.0.0.2 10.0.0.3 10\n";

const A: u32 = 0x0a00_0001;

const B: u32 = 0x0a00_0002;

const C: u32 = 0x0a00_0003;

/// The roster of a text that isn't too long for one.
fn roster_of(alloc: Global, text: &[u8]) -> Result<Roster, RosterRefusal> {
    if text.len() > 65536 {
        return Err(RosterRefusal::NoMemory);
    }
    read(alloc, text)
}

/// The first faulty line, counted from 1, and its fault.
fn fault_of(alloc: Global, text: &[u8]) -> Option<(u32, RosterWhy)> {
    match roster_of(alloc, text) {
        Err(RosterRefusal::Fault { line, why }) => Some((line, why)),
        _ => None,
    }
}

/// The settings, and then this.
fn behind_settings(alloc: Global, lines: &[u8]) -> Result<Vec<u8>, AllocError> {
    let mut text = SETTINGS.to_vec(alloc)?;
    text.extend_from_slice(lines)?;
    Ok(text)
}

#[test]
fn a_roster_has_what_its_text_says(rt: HostRuntime) -> Result<(), Fail> {
    let roster = roster_of(rt.alloc(), LINKED).map_err(|_| "a roster")?;
    assert_eq!(rt; roster.as_number(), 65000);
    assert_eq!(rt; roster.id(), Addr(0x0a00_00fe));
    assert_eq!(rt; (roster.shards(), roster.hold(), roster.area()), (2, 90, 0));
    assert_eq!(rt; roster.len(), 3);
    let edge = |from, to| Edge {
        from: RouterId(from),
        to: RouterId(to),
        cost: 10,
    };
    assert_eq!(rt;
        roster.links(),
        [edge(A, B), edge(B, A), edge(B, C), edge(C, B)].as_slice()
    );
    Ok(())
}

#[test]
fn a_router_is_found_by_either_name(rt: HostRuntime) -> Result<(), Fail> {
    let text = behind_settings(
        rt.alloc(),
        b"router 10.0.0.1 10.0.0.2\nrouter 10.0.0.2 10.0.0.3\nrouter 10.0.0.254 10.0.0.1",
    )?;
    let roster = roster_of(rt.alloc(), &text).map_err(|_| "a roster")?;
    for (name, slot, slot_of_bgp) in [
        (A, Some(Slot(0)), Some(Slot(2))),
        (B, Some(Slot(1)), Some(Slot(0))),
        (C, None, Some(Slot(1))),
        (0x0a00_00fe, Some(Slot(2)), None),
    ] {
        assert_eq!(rt; roster.slot_of(RouterId(name)), slot, "{name}");
        assert_eq!(rt; roster.slot_of_bgp(Addr(name)), slot_of_bgp, "{name}");
    }
    if roster.len() < 2 {
        return Err("two routers".into());
    }
    let member = roster.member(Slot(1));
    assert_eq!(rt; (member.router, member.bgp_id), (RouterId(B), Addr(C)));
    Ok(())
}

#[test]
fn a_line_has_its_words_and_values(rt: HostRuntime) -> Result<(), Fail> {
    for (text, why) in [
        (b"foo".as_slice(), RosterWhy::Word),
        (b"as".as_slice(), RosterWhy::Word),
        (b"as 65000 0".as_slice(), RosterWhy::Word),
        (b"AS 65000".as_slice(), RosterWhy::Word),
        (b"router 10.0.0.1".as_slice(), RosterWhy::Word),
        (b"link 10.0.0.1 10.0.0.2 1 1".as_slice(), RosterWhy::Word),
        (b"as  65000".as_slice(), RosterWhy::Word),
        (b"as  ".as_slice(), RosterWhy::Word),
        (b" as 65000".as_slice(), RosterWhy::Word),
        (b"as 65000 ".as_slice(), RosterWhy::Word),
        (b" ".as_slice(), RosterWhy::Word),
        (b" # comment".as_slice(), RosterWhy::Word),
        (b"as\t65000".as_slice(), RosterWhy::Word),
        (b"\r\n".as_slice(), RosterWhy::Word),
        (b"as 65000\r\n".as_slice(), RosterWhy::Number),
        (b"as 0".as_slice(), RosterWhy::Number),
        (b"as 065000".as_slice(), RosterWhy::Number),
        (b"as +1".as_slice(), RosterWhy::Number),
        (b"as 23456".as_slice(), RosterWhy::Number),
        (b"as 65536".as_slice(), RosterWhy::Number),
        (b"as 18446744073709551617".as_slice(), RosterWhy::Number),
        (b"id 10.0.0".as_slice(), RosterWhy::Number),
        (b"id 10.0.0.256".as_slice(), RosterWhy::Number),
        (b"id 10.0.0.01".as_slice(), RosterWhy::Number),
        (b"shards 0".as_slice(), RosterWhy::Number),
        (b"shards 65".as_slice(), RosterWhy::Number),
        (b"hold 1".as_slice(), RosterWhy::Number),
        (b"hold 2".as_slice(), RosterWhy::Number),
        (b"hold 65536".as_slice(), RosterWhy::Number),
        (b"area 0".as_slice(), RosterWhy::Number),
        (b"router 0.0.0.0 10.0.0.1".as_slice(), RosterWhy::Number),
        (b"router 10.0.0.1 0.0.0.0".as_slice(), RosterWhy::Number),
        (b"link 10.0.0.1 10.0.0 1".as_slice(), RosterWhy::Number),
        (b"link 10.0.0.1 10.0.0.2 0".as_slice(), RosterWhy::Number),
        (
            b"link 10.0.0.1 10.0.0.2 65536".as_slice(),
            RosterWhy::Number,
        ),
    ] {
        assert_eq!(rt; fault_of(rt.alloc(), text), Some((1, why)), "at {text:?}");
    }
    Ok(())
}

#[test]
fn the_bounds_of_each_range_are_lawful(rt: HostRuntime) -> Result<(), Fail> {
    for text in [
        b"as 1\nid 0.0.0.0\nshards 1\nhold 0\narea 255.255.255.255".as_slice(),
        b"as 65535\nid 255.255.255.255\nshards 64\nhold 3\narea 0.0.0.0\n".as_slice(),
        b"as 23455\nid 0.0.0.1\nshards 2\nhold 65535\narea 0.0.0.1\nrouter 0.0.0.1 0.0.0.2\nrouter 255.255.255.255 255.255.255.255\nlink 0.0.0.1 255.255.255.255 1\nlink 0.0.0.1 255.255.255.255 65535".as_slice(),
        b"# in any order\n\narea 0.0.0.0\nrouter 10.0.0.1 10.0.0.1\nhold 90\n#\nid 10.0.0.254\nshards 2\nas 65000\n\n".as_slice(),
    ] {
        assert!(rt; roster_of(rt.alloc(), text).is_ok(), "at {text:?}");
    }
    Ok(())
}

#[test]
fn an_absent_setting_is_missing_behind_the_last_line(rt: HostRuntime) -> Result<(), Fail> {
    for (text, line) in [
        (b"".as_slice(), 1),
        (b"\n".as_slice(), 2),
        (b"# only this".as_slice(), 2),
        (b"as 65000\n".as_slice(), 2),
        (b"as 65000".as_slice(), 2),
        (b"as 65000\n\n".as_slice(), 3),
        (
            b"id 10.0.0.254\nshards 2\nhold 90\narea 0.0.0.0".as_slice(),
            5,
        ),
        (b"as 65000\nshards 2\nhold 90\narea 0.0.0.0".as_slice(), 5),
        (
            b"as 65000\nid 10.0.0.254\nhold 90\narea 0.0.0.0".as_slice(),
            5,
        ),
        (
            b"as 65000\nid 10.0.0.254\nshards 2\narea 0.0.0.0".as_slice(),
            5,
        ),
        (b"as 65000\nid 10.0.0.254\nshards 2\nhold 90".as_slice(), 5),
    ] {
        let why = RosterWhy::Missing;
        assert_eq!(rt;
            fault_of(rt.alloc(), text),
            Some((line, why)),
            "at {text:?}"
        );
    }
    Ok(())
}

#[test]
fn a_line_is_judged_by_those_before(rt: HostRuntime) -> Result<(), Fail> {
    for (lines, line, why) in [
        (b"foo".as_slice(), 6, RosterWhy::Word),
        (b"\n# a comment\nfoo".as_slice(), 8, RosterWhy::Word),
        (b"as 65000".as_slice(), 6, RosterWhy::Repeated),
        (b"id 10.0.0.253".as_slice(), 6, RosterWhy::Repeated),
        (b"shards 2".as_slice(), 6, RosterWhy::Repeated),
        (b"hold 90".as_slice(), 6, RosterWhy::Repeated),
        (b"area 0.0.0.0".as_slice(), 6, RosterWhy::Repeated),
        (
            b"router 10.0.0.1 10.0.0.254".as_slice(),
            6,
            RosterWhy::Repeated,
        ),
        (
            b"router 10.0.0.1 10.0.0.1\nrouter 10.0.0.1 10.0.0.2".as_slice(),
            7,
            RosterWhy::Repeated,
        ),
        (
            b"router 10.0.0.1 10.0.0.1\nrouter 10.0.0.2 10.0.0.1".as_slice(),
            7,
            RosterWhy::Repeated,
        ),
        (
            b"router 10.0.0.1 10.0.0.1\nlink 10.0.0.1 10.0.0.1 1".as_slice(),
            7,
            RosterWhy::Repeated,
        ),
        (
            b"router 10.0.0.1 10.0.0.1\nlink 10.0.0.1 10.0.0.2 1".as_slice(),
            7,
            RosterWhy::Unknown,
        ),
        (
            b"router 10.0.0.1 10.0.0.1\nlink 10.0.0.2 10.0.0.1 1".as_slice(),
            7,
            RosterWhy::Unknown,
        ),
        (
            b"router 10.0.0.1 10.0.0.2\nlink 10.0.0.1 10.0.0.2 1\nrouter 10.0.0.2 10.0.0.1".as_slice(),
            7,
            RosterWhy::Unknown,
        ),
    ] {
        let text = behind_settings(rt.alloc(), lines)?;
        assert_eq!(rt;
            fault_of(rt.alloc(), &text),
            Some((line, why)),
            "at {lines:?}"
        );
    }
    let id_behind_its_router = b"router 10.0.0.1 10.0.0.2\nid 10.0.0.2";
    assert_eq!(rt;
        fault_of(rt.alloc(), id_behind_its_router),
        Some((2, RosterWhy::Repeated))
    );
    Ok(())
}

#[test]
fn the_first_check_that_fails_is_told(rt: HostRuntime) -> Result<(), Fail> {
    for (lines, why) in [
        (b"as 0 0".as_slice(), RosterWhy::Word),
        (b"as  0".as_slice(), RosterWhy::Word),
        (b"as 65000 65000".as_slice(), RosterWhy::Word),
        (b"link 10.0.0.1 10.0.0.2".as_slice(), RosterWhy::Word),
        (b"as 0".as_slice(), RosterWhy::Number),
        (b"router 0.0.0.0 10.0.0.254".as_slice(), RosterWhy::Number),
        (b"link 10.0.0.1 10.0.0.1 0".as_slice(), RosterWhy::Number),
        (b"link 10.0.0.1 10.0.0.2 0".as_slice(), RosterWhy::Number),
        (b"link 10.0.0.1 10.0.0.1 1".as_slice(), RosterWhy::Repeated),
    ] {
        let text = behind_settings(rt.alloc(), lines)?;
        assert_eq!(rt; fault_of(rt.alloc(), &text), Some((6, why)), "at {lines:?}");
    }
    Ok(())
}

fn put(text: &mut Vec<u8>, name: u32) -> Result<(), AllocError> {
    let mut octets = [0; 15];
    let len = write_addr(Addr(name), &mut octets);
    let (address, _) = octets.split_at(len);
    text.extend_from_slice(address)
}

/// The settings and so many routers, of which each has its BGP Identifier as its router ID: 0.0.0.1 and on.
fn with_routers(alloc: Global, count: u32) -> Result<Vec<u8>, AllocError> {
    let mut text = behind_settings(alloc, b"")?;
    for router in 0..count {
        text.extend_from_slice(b"router ")?;
        put(&mut text, router.saturating_add(1))?;
        text.push(b' ')?;
        put(&mut text, router.saturating_add(1))?;
        text.push(b'\n')?;
    }
    Ok(text)
}

#[test]
fn there_are_512_routers_at_most(rt: HostRuntime) -> Result<(), Fail> {
    let alloc = rt.alloc();
    let roster = roster_of(alloc, &with_routers(alloc, 512)?).map_err(|_| "a roster")?;
    assert_eq!(rt; roster.len(), 512);
    assert_eq!(rt; roster.slot_of(RouterId(512)), Some(Slot(511)));
    for (line, why) in [
        (b"router 10.0.0.1 10.0.0.1".as_slice(), RosterWhy::TooMany),
        (b"router 0.0.0.0 10.0.0.1".as_slice(), RosterWhy::Number),
        (
            b"router 10.0.0.1 10.0.0.254".as_slice(),
            RosterWhy::Repeated,
        ),
        (b"router 0.0.0.1 10.0.0.1".as_slice(), RosterWhy::Repeated),
        (b"router 10.0.0.1 0.0.0.1".as_slice(), RosterWhy::Repeated),
    ] {
        let mut text = with_routers(alloc, 512)?;
        text.extend_from_slice(line)?;
        assert_eq!(rt; fault_of(alloc, &text), Some((518, why)), "at {line:?}");
    }
    Ok(())
}

#[test]
fn a_large_roster_is_read(rt: HostRuntime) -> Result<(), Fail> {
    let alloc = rt.alloc();
    let mut text = with_routers(alloc, 512)?;
    for _ in 0..2200 {
        text.extend_from_slice(b"link 0.0.2.0 0.0.0.1 1\n")?;
    }
    assert!(rt; text.len() > 60_000);
    let roster = roster_of(alloc, &text).map_err(|_| "a roster")?;
    assert_eq!(rt; roster.links().len(), 4400);
    Ok(())
}

/// Takes what may be sent to threads and shared by them.
fn crosses<T: Send + Sync>(_value: &T) {}

#[test]
fn a_roster_is_shared_by_threads(rt: HostRuntime) -> Result<(), Fail> {
    let roster = roster_of(rt.alloc(), LINKED).map_err(|_| "a roster")?;
    crosses(&roster);
    Ok(())
}

#[test]
fn a_refusal_is_told_in_one_line(rt: HostRuntime) -> Result<(), Fail> {
    let refusal = RosterRefusal::Fault {
        line: 2,
        why: RosterWhy::TooMany,
    };
    assert_eq!(rt;
        refusal.to_string(rt.alloc())?.as_str(),
        "roster line 2: too many"
    );
    assert_eq!(rt; number_of_fault(RosterWhy::TooMany), 6);
    assert_eq!(rt;
        RosterRefusal::NoMemory.to_string(rt.alloc())?.as_str(),
        "no memory"
    );
    Ok(())
}
