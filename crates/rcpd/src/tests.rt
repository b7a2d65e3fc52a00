//! Real listeners, and words that stand for nothing.

use crate::listening::{Outside, listen};
use crate::serving::serve;
use feed_format::Status;
use outside::{MemClock, MemLink, MemNet, OpenGate};
use std::alloc::{AllocError, Global};
use std::net::{Ipv4Addr, Net, OpenListener, SocketAddr, TcpListener};
use std::test::Fail;
use std::time::Clock;

#[test]
fn words_of_no_settings_open_nothing(rt: HostRuntime) {
    let refused = listen(&rt, rt.alloc(), &["--bgp", "127.0.0.1:1790"]).err();
    assert_eq!(rt; refused, Some(Status::Usage));
}

/// A listener at a free port of the loopback address.
fn listener<N: Net>(rt: &N) -> Result<(N::Listener, SocketAddr), Fail> {
    let listener = TcpListener::bind(rt, SocketAddr::from((Ipv4Addr::LOCALHOST, 0)))?;
    let at = listener.local_addr()?;
    Ok((listener, at))
}

/// The options of the two addresses.
fn options(
    alloc: Global,
    bgp: SocketAddr,
    link_state: SocketAddr,
) -> Result<(String, String), AllocError> {
    let bgp = format!(in alloc; "--bgp={bgp}")?;
    let link_state = format!(in alloc; "--ls={link_state}")?;
    Ok((bgp, link_state))
}

/// Where the daemon listens for BGP sessions and for link state, with the words of these addresses.
fn listening<R: Clock + Net>(
    rt: &R,
    alloc: Global,
    bgp: SocketAddr,
    link_state: SocketAddr,
) -> Result<(SocketAddr, SocketAddr), Fail> {
    let (bgp, link_state) = options(alloc, bgp, link_state)?;
    let words = [bgp.as_str(), link_state.as_str(), "--sessions=1"];
    let Ok(outside) = listen(rt, alloc, &words) else {
        return Err("refused")?;
    };
    Ok((outside.net.bgp_addr()?, outside.net.link_state_addr()?))
}

#[test]
fn the_daemon_listens_where_its_words_say(rt: HostRuntime) -> Result<(), Fail> {
    let (one, bgp) = listener(&rt)?;
    let (two, link_state) = listener(&rt)?;
    drop(one);
    drop(two);
    let found = listening(&rt, rt.alloc(), bgp, link_state)?;
    assert!(rt; found.0 == bgp && found.1 == link_state);
    Ok(())
}

#[test]
fn an_address_in_use_is_a_fault_of_the_net(rt: HostRuntime) -> Result<(), Fail> {
    let (one, free) = listener(&rt)?;
    let (_two, taken) = listener(&rt)?;
    drop(one);
    let (bgp, link_state) = options(rt.alloc(), free, taken)?;
    let words = [bgp.as_str(), link_state.as_str(), "--sessions=1"];
    let refused = listen(&rt, rt.alloc(), &words).err();
    assert_eq!(rt; refused, Some(Status::NetFault));
    Ok(())
}

#[test]
fn without_settings_no_link_is_accepted(rt: HostRuntime) -> Result<(), Fail> {
    let alloc = rt.alloc();
    let mut outside = Outside {
        net: MemNet::<MemLink>::new(Vec::new(alloc), Vec::new(alloc), Vec::new(alloc)),
        clock: MemClock::new(vec![in alloc; 0]?),
        gate: OpenGate::new(),
    };
    assert_eq!(rt; serve(&rt, &[], &mut outside), Status::Usage);
    Ok(())
}
