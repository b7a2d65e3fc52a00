// Links, nets, clocks, gates and marks in memory, each with its faults.
ghost use Rattle.std.specs.Prelude.{◌≡◌, [], IfOk};
ghost use Rattle.outside.specs.Fake.{new_link};

use crate::*;
use std::alloc::{AllocError, Global};
use std::sync::Arc;
use std::test::Fail;

fn quiet_link(alloc: Global, octets: &[u8]) -> Result<MemLink, AllocError>
    ensures { IfOk result (λ link. link ≡ new_link octets.now [] [] 4096) }
{
    Ok(MemLink::new(
        octets.to_vec(alloc)?,
        Vec::new(alloc),
        Vec::new(alloc),
        4096,
    ))
}

#[test]
fn a_link_gives_its_octets_and_then_the_end(rt: HostRuntime) -> Result<(), Fail> {
    let alloc = rt.alloc();
    let octets = [1, 2, 3].to_vec(alloc)?;
    let mut link = MemLink::new(octets, [2].to_vec(alloc)?, Vec::new(alloc), 9);
    let mut buf = [9; 2];
    for (answer, now) in [
        (Ok(LinkRead::Octets(2)), [1, 2]),
        (Err(Failed), [1, 2]),
        (Ok(LinkRead::Octets(1)), [3, 2]),
        (Ok(LinkRead::End), [3, 2]),
        (Ok(LinkRead::End), [3, 2]),
    ] {
        assert_eq!(rt; link.read(&mut buf), answer);
        assert_eq!(rt; buf.as_slice(), now.as_slice());
    }
    Ok(())
}

#[test]
fn a_link_takes_short_pieces_and_nothing_once_it_is_closed(rt: HostRuntime) -> Result<(), Fail> {
    let alloc = rt.alloc();
    let mut link = MemLink::new([7].to_vec(alloc)?, Vec::new(alloc), [2].to_vec(alloc)?, 2);
    assert_eq!(rt; link.write(b"abc"), Ok(2));
    assert_eq!(rt; link.write(b"c"), Err(Failed));
    assert_eq!(rt; link.write(b""), Ok(0));
    assert_eq!(rt; link.write(b"c"), Ok(1));
    link.wait(5);
    link.close();
    assert_eq!(rt; link.write(b"d"), Ok(0));
    assert_eq!(rt; link.read(&mut [0]), Ok(LinkRead::End));
    assert_eq!(rt; link.taken(), b"abc".as_slice());
    Ok(())
}

fn octets_of(accepted: Accepted<MemLink>) -> Option<u8> {
    let mut buf = [0; 1];
    match accepted {
        Accepted::Link(mut link) => match link.read(&mut buf) {
            Ok(LinkRead::Octets(_)) => Some(buf[0]),
            _ => None,
        },
        Accepted::NotReady => None,
    }
}

#[test]
fn a_net_hands_out_its_links_in_their_order(rt: HostRuntime) -> Result<(), Fail> {
    let alloc = rt.alloc();
    let bgp = vec![in alloc; quiet_link(alloc, &[1])?, quiet_link(alloc, &[2])?]?;
    let links = vec![in alloc; quiet_link(alloc, &[3])?]?;
    let mut net = MemNet::new(bgp, links, [2].to_vec(alloc)?);
    assert_eq!(rt; net.accept_bgp().map(octets_of), Ok(Some(1)));
    assert_eq!(rt; net.accept_bgp().map(octets_of), Err(Failed));
    assert_eq!(rt; net.accept_links().map(octets_of), Ok(Some(3)));
    assert_eq!(rt; net.accept_bgp().map(octets_of), Ok(Some(2)));
    assert_eq!(rt; net.accept_bgp().map(octets_of), Ok(None));
    assert_eq!(rt; net.accept_links().map(octets_of), Ok(None));
    Ok(())
}

#[test]
fn a_net_keeps_the_links_that_are_handed_back(rt: HostRuntime) -> Result<(), Fail> {
    let alloc = rt.alloc();
    let mut net = MemNet::new(Vec::new(alloc), Vec::new(alloc), Vec::new(alloc));
    let mut link = quiet_link(alloc, &[])?;
    assert_eq!(rt; link.write(b"ab"), Ok(2));
    net.hand_back(link);
    net.hand_back(quiet_link(alloc, &[])?);
    assert_eq!(rt; net.handed_back().len(), 2);
    assert_eq!(rt; net.handed_back()[0].taken(), b"ab".as_slice());
    Ok(())
}

#[test]
fn a_clock_stays_at_its_last_time(rt: HostRuntime) -> Result<(), Fail> {
    let clock = MemClock::new([5, 3, 8].to_vec(rt.alloc())?);
    for time in [5, 3, 8, 8] {
        assert_eq!(rt; clock.now(), time);
    }
    Ok(())
}

#[test]
fn a_mark_that_was_set_stays_set(rt: HostRuntime) {
    let mark = StopMark::new(true);
    assert!(rt; !mark.is_set());
    mark.set();
    assert!(rt; mark.is_set());
    assert!(rt; mark.is_set());
    assert!(rt; !StopMark::new(false).is_set());
}

#[test]
fn a_gate_holds_its_point_alone_until_it_starves(rt: HostRuntime) {
    OpenGate::new().pass(7);
    let gate = HeldGate::new(7);
    gate.pass(8);
    assert!(rt; !gate.starved());
    gate.pass(7);
    assert!(rt; gate.starved() && !gate.is_open());
    let other = HeldGate::new(7);
    other.open();
    other.pass(7);
    assert!(rt; other.is_open() && !other.starved());
}

#[test]
fn a_held_link_waits_for_its_gates_and_opens_others(rt: HostRuntime) -> Result<(), Fail> {
    let alloc = rt.alloc();
    let before = Arc::new(alloc, HeldGate::new(0))?;
    let after = Arc::new(alloc, HeldGate::new(0))?;
    let opens = vec![in alloc; Arc::try_clone(&before)?, Arc::try_clone(&after)?]?;
    let link = quiet_link(alloc, &[1])?;
    let mut held = HeldLink::new(
        link,
        Arc::try_clone(&before)?,
        Arc::try_clone(&after)?,
        4,
        opens,
    );
    let mut buf = [0; 4];
    let mut keepalive = [255; 19];
    keepalive[16] = 0;
    keepalive[17] = 19;
    keepalive[18] = 4;
    assert_eq!(rt; held.read(&mut buf), Ok(LinkRead::NotReady));
    assert_eq!(rt; held.write(&keepalive[..18]), Ok(18));
    assert!(rt; !before.is_open());
    assert_eq!(rt; held.write(&keepalive[18..]), Ok(1));
    assert!(rt; before.is_open() && !after.is_open());
    assert_eq!(rt; held.read(&mut buf), Ok(LinkRead::Octets(1)));
    assert_eq!(rt; held.read(&mut buf), Ok(LinkRead::NotReady));
    assert_eq!(rt; held.write(&keepalive), Ok(19));
    assert!(rt; after.is_open() && !after.starved());
    assert_eq!(rt; held.read(&mut buf), Ok(LinkRead::End));
    Ok(())
}
