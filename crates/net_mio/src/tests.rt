// Real sockets over loopback.

use crate::{Bell, BellGate, MioLink, MioNet, SystemClock};
use outside::{Accepted, Clock, Gate, Link, LinkRead, Net};
use std::alloc::Global;
use std::io::{Read, Write};
use std::net::{Ipv4Addr, Shutdown, SocketAddr, TcpStream};
use std::sync::Arc;
use std::test::Fail;

/// Any free port of this machine.
fn any_port() -> SocketAddr {
    SocketAddr::from((Ipv4Addr::LOCALHOST, 0))
}

/// Listeners at free ports, with a bell.
fn net<N: std::net::Net>(rt: &N, alloc: Global) -> Result<MioNet<'_, N>, Fail> {
    let bell = Bell::new(rt)?;
    let bell = Arc::new(alloc, bell)?;
    Ok(MioNet::new(rt, alloc, any_port(), any_port(), bell)?)
}

#[test]
fn a_link_gives_what_its_peer_sends_and_then_its_end(rt: HostRuntime) -> Result<(), Fail> {
    let mut net = net(&rt, rt.alloc())?;
    let mut peer = TcpStream::connect(&rt, net.bgp_addr()?)?;
    peer.write_all(&[1, 2, 3])?;
    peer.shutdown(Shutdown::Write)?;
    let mut link = accepted(&mut net).ok_or("no link")?;
    let mut buf = [0; 8];
    assert_eq!(rt; read_once(&mut link, &mut buf), Ok(LinkRead::Octets(3)));
    assert_eq!(rt; buf, [1, 2, 3, 0, 0, 0, 0, 0]);
    assert_eq!(rt; read_once(&mut link, &mut buf), Ok(LinkRead::End));
    Ok(())
}

/// A BGP link that comes within some calls.
fn accepted<N: Net>(net: &mut N) -> Option<N::L> {
    for _ in 0..100 {
        if let Ok(Accepted::Link(link)) = net.accept_bgp() {
            return Some(link);
        }
    }
    None
}

/// A read after a wait for it.
fn read_once(link: &mut MioLink, buf: &mut [u8; 8]) -> Result<LinkRead, outside::Failed> {
    for _ in 0..100 {
        match link.read(buf) {
            Ok(LinkRead::NotReady) => link.wait(1_000),
            other => return other,
        }
    }
    Ok(LinkRead::NotReady)
}

#[test]
fn a_peer_that_reads_nothing_takes_no_more_until_it_reads(rt: HostRuntime) -> Result<(), Fail> {
    let mut net = net(&rt, rt.alloc())?;
    let mut peer = TcpStream::connect(&rt, net.bgp_addr()?)?;
    let mut link = accepted(&mut net).ok_or("no link")?;
    let written = fill(&mut link);
    assert!(rt; written > 0);
    let mut buf = [0; 16_384];
    let mut read = 0usize;
    for _ in 0..10_000_000 {
        if read >= written {
            break;
        }
        read = read.saturating_add(peer.read(&mut buf)?);
    }
    link.wait(1_000);
    assert_eq!(rt; link.write(&[7]), Ok(1));
    Ok(())
}

/// How many octets a link takes until it takes none.
fn fill(link: &mut MioLink) -> usize {
    let mut written = 0usize;
    for _ in 0..10_000 {
        match link.write(&[7; 16_384]) {
            Ok(0) | Err(_) => break,
            Ok(count) => written = written.saturating_add(count),
        }
    }
    written
}

#[test]
fn a_closed_link_has_ended_and_takes_nothing(rt: HostRuntime) -> Result<(), Fail> {
    let mut net = net(&rt, rt.alloc())?;
    let mut peer = TcpStream::connect(&rt, net.bgp_addr()?)?;
    let mut link = accepted(&mut net).ok_or("no link")?;
    assert_eq!(rt; link.write(&[1, 2]), Ok(2));
    link.close();
    assert_eq!(rt; link.read(&mut [0; 8]), Ok(LinkRead::End));
    assert_eq!(rt; link.write(&[3]), Err(outside::Failed));
    let mut buf = [0; 8];
    assert_eq!(rt; peer.read(&mut buf)?, 2);
    assert_eq!(rt; peer.read(&mut buf)?, 0);
    Ok(())
}

/// Whether a wait of so many seconds ended in its first half.
fn is_woken<L: Link, C: Clock>(clock: &C, link: &mut L, seconds: u32) -> bool {
    let start = clock.now();
    link.wait(seconds.saturating_mul(1_000));
    clock.now() < start.saturating_add(u64::from(seconds / 2))
}

#[test]
fn a_gate_that_is_passed_at_its_first_point_ends_the_waiting_of_a_link(
    rt: HostRuntime,
) -> Result<(), Fail> {
    let bell = Bell::new(&rt)?;
    let bell = Arc::new(rt.alloc(), bell)?;
    let gate = BellGate::new(bell.clone()?, 7);
    let mut net = MioNet::new(&rt, rt.alloc(), any_port(), any_port(), bell)?;
    let peer = TcpStream::connect(&rt, net.bgp_addr()?)?;
    let mut link = accepted(&mut net).ok_or("no link")?;
    // The first wait finds that there is room to write.
    link.wait(1_000);
    for _ in 0..2 {
        gate.pass(7);
        assert!(rt; is_woken(&SystemClock::new(&rt), &mut link, 10));
    }
    gate.pass(6);
    assert!(rt; !is_woken(&SystemClock::new(&rt), &mut link, 2));
    drop(peer);
    Ok(())
}

#[test]
fn a_bell_that_was_rung_a_million_times_still_rings(rt: HostRuntime) -> Result<(), Fail> {
    let bell = Bell::new(&rt)?;
    for _ in 0..1_000_000 {
        bell.ring();
    }
    let bell = Arc::new(rt.alloc(), bell)?;
    let mut net = MioNet::new(&rt, rt.alloc(), any_port(), any_port(), bell.clone()?)?;
    let peer = TcpStream::connect(&rt, net.bgp_addr()?)?;
    let mut link = accepted(&mut net).ok_or("no link")?;
    link.wait(1_000);
    bell.ring();
    assert!(rt; is_woken(&SystemClock::new(&rt), &mut link, 10));
    drop(peer);
    Ok(())
}

#[test]
fn streams_of_link_state_come_to_their_own_listener(rt: HostRuntime) -> Result<(), Fail> {
    let mut net = net(&rt, rt.alloc())?;
    let peer = TcpStream::connect(&rt, net.link_state_addr()?)?;
    let mut came = false;
    for _ in 0..10 {
        came = came || matches!(net.accept_links(), Ok(Accepted::Link(_)));
    }
    assert!(rt; came);
    assert!(rt; matches!(net.accept_bgp(), Ok(Accepted::NotReady)));
    drop(peer);
    Ok(())
}

#[test]
fn an_address_in_use_is_an_error(rt: HostRuntime) -> Result<(), Fail> {
    let first = net(&rt, rt.alloc())?;
    let bell = Bell::new(&rt)?;
    let bell = Arc::new(rt.alloc(), bell)?;
    let second = MioNet::new(&rt, rt.alloc(), first.bgp_addr()?, any_port(), bell);
    let error = second.err().and_then(|error| error.raw_os_error());
    assert_eq!(rt; error, Some(98));
    Ok(())
}
