//! Sessions that hold their seat, over links, mailboxes and clocks in memory.

ghost use Rattle.std.specs.Prelude.{◌≡◌, length, map, IfOk};
ghost use Rattle.seats.specs.Ends.{sender_of};
ghost use Rattle.seats.specs.Seats.{IsNumbered};
ghost use Rattle.session_serve.specs.Served.{Claims};

use super::*;
use mailbox::{Receiver, Sender, make, put, take};
use outside::{Clock, HeldGate, HeldLink, Link, MemClock, MemLink, StopMark};
use rcp_base::{Prefix, Slot};
use rcp_model::Offer;
use roster::{Roster, read};
use seats::{Mail, Seat, SeatNames};
use session_core::Session;
use std::alloc::Global;
use std::marker::Brand;
use std::sync::{Arc, Wait};
use std::test::Fail;

/// Two routers, and one shard.
const ROSTER: &[u8] =
    b"as 65000\nid 10.0.0.254\nshards 1\nhold 90\narea 0.0.0.0\nrouter 10.0.0.1 10.0.0.1\nrouter 10.0.0.2 10.0.0.2\nlink 10.0.0.1 10.0.0.2 10\n";

/// The OPEN of the router 10.0.0.1 after its marker: AS 65000 and hold time 30 (RFC 4271 section 4.2).
const OPEN: &[u8] = b"\x00\x1d\x01\x04\xfd\xe8\x00\x1e\x0a\x00\x00\x01\x00";

const KEEPALIVE: &[u8] = b"\x00\x13\x04";

/// The hold timer expired (RFC 4271 section 4.5).
const HOLD_EXPIRED: &[u8] = b"\x00\x15\x03\x04\x00";

/// 198.51.100.0 and 203.0.113.0.
const FIRST: u32 = 0xc633_6400;

const SECOND: u32 = 0xcb00_7100;

/// The withdrawal of 203.0.113.0/24.
const WITHDRAWAL: &[u8] = b"\x00\x1b\x02\x00\x04\x18\xcb\x00\x71\x00\x00";

/// 203.0.113.0/24 with ORIGIN IGP, the path 65001, NEXT_HOP 10.0.0.1 and LOCAL_PREF 100.
const ANNOUNCEMENT: &[u8] =
    b"\x00\x34\x02\x00\x00\x00\x19\x40\x01\x01\x00\x40\x02\x04\x02\x01\xfd\xe9\x40\x03\x04\x0a\x00\x00\x01\x40\x05\x04\x00\x00\x00\x64\x18\xcb\x00\x71";

/// Messages one after another, each with its marker (RFC 4271 section 4.1).
fn stream(alloc: Global, messages: &[&[u8]]) -> Result<Vec<u8>, Fail> {
    let mut octets = Vec::new(alloc);
    for message in messages {
        octets.extend_from_slice(&[0xff; 16])?;
        octets.extend_from_slice(message)?;
    }
    Ok(octets)
}

/// The session of the router 10.0.0.1, which claims the seat of its slot.
fn claiming(alloc: Global, roster: &Roster) -> Result<(Session, Slot), Fail>
    ensures { IfOk result (λ claimant. Claims claimant.1 claimant.0) }
{
    let octets = stream(alloc, &[OPEN])?;
    let (mut session, _) = Session::open(alloc, roster, 0)?;
    let actions = session.bytes(roster, &octets, 0)?;
    let Some(slot) = actions.claim else {
        return Err(Fail::from("a claim"));
    };
    match actions.closed {
        None => Ok((session, slot)),
        Some(_) => Err(Fail::from("a session that goes on")),
    }
}

/// The one sender to the shard with room for sixteen messages, and the shard's receiver.
fn one_shard<R: Wait>(rt: &R, alloc: Global) -> Result<(Vec<Sender<Mail>>, Receiver<Mail>), Fail>
    ensures numbers { IfOk result (λ ends. IsNumbered 0 (map sender_of ends.0.items)) }
    ensures count { IfOk result (λ ends. length ends.0.items ≡ 1) }
{
    Ok(make(rt, alloc, 1, 16)?)
}

/// What is seen of a session.
#[derive(Drop)]
struct Seen {
    end: SessionEnd,
    taken: Vec<u8>,
    /// The messages to the shard: `u` for Up, `a` and `w` for a change, `d` for Down.
    mail: Vec<u8>,
}

/// What came to the shard.
fn letters<R: Wait>(rt: &R, alloc: Global, shard: &mut Receiver<Mail>) -> Result<Vec<u8>, Fail> {
    let mut letters = Vec::new(alloc);
    for _ in 0..16 {
        let letter = match take(rt, shard) {
            Some((_, Mail::Up { .. })) => b'u',
            Some((_, Mail::Announce { .. })) => b'a',
            Some((_, Mail::Withdraw { .. })) => b'w',
            Some((_, Mail::Down { .. })) => b'd',
            Some(_) => b'?',
            None => return Ok(letters),
        };
        letters.push(letter)?;
    }
    Ok(letters)
}

/// Serves the router 10.0.0.1 over a link, with these times.
fn serve_over<B: SeatNames, R: Wait>(
    rt: &R,
    alloc: Global,
    link: &mut HeldLink,
    times: &[u64],
    seat: &mut Seat<B>,
) -> Result<SessionEnd, Fail> {
    let Ok(roster) = read(alloc, ROSTER) else {
        return Err(Fail::from("a roster"));
    };
    let (session, slot) = claiming(alloc, &roster)?;
    let times = Vec::from_slice(alloc, times)?;
    if times.is_empty() || seat.slot() != slot || seat.shards() != usize::from(roster.shards()) {
        return Err(Fail::from("a time, and the seat of the router"));
    }
    let clock = MemClock::new(times);
    let stop = StopMark::new(false);
    Ok(serve_seated(rt, alloc, link, &clock, &roster, session, seat, &stop))
}

/// A link that gives these messages and then ends, or is silent. It takes 10 octets at once, and its writes of these numbers fail.
fn link_of(
    alloc: Global,
    messages: &[&[u8]],
    write_fails: &[u64],
    ends: bool,
) -> Result<HeldLink, Fail> {
    let octets = stream(alloc, messages)?;
    let fails = Vec::from_slice(alloc, write_fails)?;
    let link = MemLink::new(octets, Vec::new(alloc), fails, 10);
    let before = HeldGate::new(0);
    before.open();
    let after = HeldGate::new(0);
    if ends {
        after.open();
    }
    Ok(HeldLink::new(
        link,
        Arc::new(alloc, before)?,
        Arc::new(alloc, after)?,
        0,
        Vec::new(alloc),
    ))
}

/// Serves the router over a link while offers of nothing wait at these prefixes, each with its generation.
fn observe<R: Wait>(
    rt: &R,
    alloc: Global,
    mut link: HeldLink,
    times: &[u64],
    offers: &[(u64, u32)],
) -> Result<Seen, Fail> {
    let (shards, mut shard) = one_shard(rt, alloc)?;
    let (mut senders, receiver) = make::<Offer, R>(rt, alloc, 1, 16)?;
    put_offers(rt, &mut senders[0], offers)?;
    let mut seat: Seat<Brand> = Seat::new(Slot(0), shards, receiver);
    let end = serve_over(rt, alloc, &mut link, times, &mut seat)?;
    let mut taken = Vec::new(alloc);
    taken.extend_from_slice(link.taken())?;
    let mail = letters(rt, alloc, &mut shard)?;
    Ok(Seen { end, taken, mail })
}

/// The prefix of 24 bits at an address.
fn prefix(addr: u32) -> Result<Prefix, Fail> {
    match Prefix::new(addr, 24) {
        Some(prefix) => Ok(prefix),
        None => Err(Fail::from("24 bits")),
    }
}

/// Puts offers of nothing at these prefixes, each with its generation.
fn put_offers<R: Wait>(
    rt: &R,
    sender: &mut Sender<Offer>,
    offers: &[(u64, u32)],
) -> Result<(), Fail> {
    for (generation, addr) in offers {
        let offer = Offer::withdrawing(*generation, prefix(*addr)?);
        if put(rt, sender, offer).is_err() {
            return Err(Fail::from("room for an offer"));
        }
    }
    Ok(())
}

#[test]
fn a_change_goes_to_its_shard_between_up_and_down(rt: HostRuntime) -> Result<(), Fail> {
    let alloc = rt.alloc();
    let link = link_of(alloc, &[KEEPALIVE, ANNOUNCEMENT], &[], true)?;
    let seen = observe(&rt, alloc, link, &[0], &[])?;
    assert!(rt; matches!(seen.end.why, EndWhy::PeerClosed));
    assert_eq!(rt; (seen.end.messages, seen.end.updates), (2, 0));
    assert_eq!(rt; seen.mail.as_slice(), b"uad".as_slice());
    assert_eq!(rt; seen.taken, stream(alloc, &[KEEPALIVE])?);
    Ok(())
}

#[test]
fn offers_of_the_generation_are_written_and_no_others(rt: HostRuntime) -> Result<(), Fail> {
    let alloc = rt.alloc();
    let link = link_of(alloc, &[KEEPALIVE], &[], true)?;
    let seen = observe(&rt, alloc, link, &[0], &[(1, FIRST), (0, SECOND)])?;
    assert!(rt; matches!(seen.end.why, EndWhy::PeerClosed));
    assert_eq!(rt; (seen.end.messages, seen.end.updates), (1, 1));
    assert_eq!(rt; seen.taken, stream(alloc, &[KEEPALIVE, WITHDRAWAL])?);
    Ok(())
}

#[test]
fn a_hold_time_that_runs_out_ends_the_session_with_4_0(rt: HostRuntime) -> Result<(), Fail> {
    let alloc = rt.alloc();
    let link = link_of(alloc, &[KEEPALIVE], &[], false)?;
    let seen = observe(&rt, alloc, link, &[0, 0, 0, 29, 30], &[])?;
    assert!(rt; matches!(seen.end.why, EndWhy::Fault { code: 4, sub: 0 }));
    assert_eq!(rt; seen.mail.as_slice(), b"ud".as_slice());
    assert_eq!(rt;
        seen.taken,
        stream(alloc, &[KEEPALIVE, KEEPALIVE, HOLD_EXPIRED])?
    );
    Ok(())
}

#[test]
fn a_failed_write_is_the_last_one(rt: HostRuntime) -> Result<(), Fail> {
    let alloc = rt.alloc();
    let link = link_of(alloc, &[KEEPALIVE], &[4], false)?;
    let seen = observe(&rt, alloc, link, &[0], &[(0, SECOND)])?;
    assert!(rt; matches!(seen.end.why, EndWhy::LinkFault));
    assert_eq!(rt; (seen.end.messages, seen.end.updates), (1, 0));
    assert_eq!(rt; seen.mail.as_slice(), b"ud".as_slice());
    let mut taken = stream(alloc, &[KEEPALIVE, WITHDRAWAL])?;
    taken.truncate(19 + 10);
    assert_eq!(rt; seen.taken, taken);
    Ok(())
}
