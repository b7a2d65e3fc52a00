//! A seat over mailboxes and links in memory.
ghost use Rattle.std.specs.Prelude.{◌≡◌, ◌≤◌, length, map, IfOk};
ghost use Rattle.seats.specs.Ends.{sender_of};
ghost use Rattle.seats.specs.Seats.{IsNumbered};

use super::*;
use mailbox::{Receiver, Sender, make, put, take};
use outbox::Outbox;
use outside::MemLink;
use rcp_base::{Prefix, Slot};
use rcp_model::Offer;
use seats::{Mail, Seat};
use session_core::SessionEvent;
use std::alloc::Global;
use std::marker::Brand;
use std::sync::Wait;
use std::test::Fail;

const SLOT: Slot = Slot(0);

/// 198.51.100.0 and 203.0.113.0.
const FIRST: u32 = 3_325_256_704;

const SECOND: u32 = 3_405_803_776;

/// The one sender to a shard with room for eight messages, and the shard's receiver.
fn one_shard<R: Wait>(rt: &R, alloc: Global) -> Result<(Vec<Sender<Mail>>, Receiver<Mail>), Fail>
    ensures numbers { IfOk result (λ ends. IsNumbered 0 (map sender_of ends.0.items)) }
    ensures count { IfOk result (λ ends. length ends.0.items ≡ 1) }
{
    Ok(make(rt, alloc, 1, 8)?)
}

/// The seat of slot 0 with one shard.
fn seat_of(shards: Vec<Sender<Mail>>, offers: Receiver<Offer>) -> Seat<Brand>
    requires numbers { IsNumbered 0 (map sender_of shards.items) }
    requires count { length shards.items ≡ 1 }
    ensures { length result.senders ≡ 1 }
{
    Seat::new(SLOT, shards, offers)
}

/// The prefix of 24 bits at an address.
fn prefix(addr: u32) -> Result<Prefix, Fail> {
    match Prefix::new(addr, 24) {
        Some(prefix) => Ok(prefix),
        None => Err(Fail::from("24 bits")),
    }
}

/// A session is established, and a prefix is withdrawn.
fn two_events(alloc: Global) -> Result<Vec<SessionEvent>, Fail> {
    let mut events = Vec::new(alloc);
    events.push(SessionEvent::Up)?;
    events.push(SessionEvent::Withdraw {
        prefix: prefix(FIRST)?,
    })?;
    Ok(events)
}

/// Puts these events and that the router is down. Answers whether it was up.
fn put_session<R: Wait>(
    rt: &R,
    alloc: Global,
    seat: &mut Seat<Brand>,
    events: Vec<SessionEvent>,
) -> bool
    requires { length seat.old.senders ≡ 1 }
{
    let mut link = MemLink::new(Vec::new(alloc), Vec::new(alloc), Vec::new(alloc), 1);
    let mut out = Outbox::new(alloc);
    let up = put_events(rt, &mut link, &mut out, seat, events);
    put_down(rt, &mut link, &mut out, seat);
    up
}

#[test]
fn a_change_comes_between_up_and_down(rt: HostRuntime) -> Result<(), Fail> {
    let alloc = rt.alloc();
    let (shards, mut shard) = one_shard(&rt, alloc)?;
    let (_, offers) = make::<Offer, HostRuntime>(&rt, alloc, 1, 8)?;
    let mut seat = seat_of(shards, offers);
    assert!(rt; put_session(&rt, alloc, &mut seat, two_events(alloc)?));
    let first = take(&rt, &mut shard);
    assert!(rt;
        matches!(
            first,
            Some((
                0,
                Mail::Up {
                    slot: SLOT,
                    generation: 0
                }
            ))
        )
    );
    let second = take(&rt, &mut shard);
    assert!(rt;
        matches!(
            second,
            Some((
                0,
                Mail::Withdraw {
                    slot: SLOT,
                    prefix: _
                }
            ))
        )
    );
    let third = take(&rt, &mut shard);
    assert!(rt; matches!(third, Some((0, Mail::Down { slot: SLOT }))));
    assert!(rt; take(&rt, &mut shard).is_none());
    Ok(())
}

/// Puts the offers of nothing at these prefixes, each with its generation.
fn offer_all<R: Wait>(
    rt: &R,
    sender: &mut Sender<Offer>,
    offers: &[(u64, u32)],
) -> Result<(), Fail> {
    for (generation, addr) in offers {
        let offer = Offer::withdrawing(*generation, prefix(*addr)?);
        if put(rt, sender, offer).is_err() {
            return Err(Fail::from("room for an offer"));
        }
    }
    Ok(())
}

/// The UPDATEs of a batch of these offers, as one list of octets.
fn octets_of_batch<R: Wait>(rt: &R, alloc: Global, offers: &[(u64, u32)]) -> Result<Vec<u8>, Fail> {
    let (shards, _) = one_shard(rt, alloc)?;
    let (mut senders, receiver) = make::<Offer, R>(rt, alloc, 1, 8)?;
    offer_all(rt, &mut senders[0], offers)?;
    let mut seat = seat_of(shards, receiver);
    let mut octets = Vec::new(alloc);
    for message in take_batch(rt, alloc, &mut seat)? {
        octets.extend_from_slice(&message)?;
    }
    Ok(octets)
}

#[test]
fn each_prefix_of_the_generation_is_packed_once(rt: HostRuntime) -> Result<(), Fail> {
    let alloc = rt.alloc();
    let offers = [(0, SECOND), (7, SECOND), (0, FIRST), (0, SECOND)];
    let octets = octets_of_batch(&rt, alloc, &offers)?;
    let header = [0xff; 16];
    let rest = [0, 31, 2, 0, 8, 24, 198, 51, 100, 24, 203, 0, 113, 0, 0];
    assert_eq!(rt; octets.len(), 31);
    assert!(rt; octets.starts_with(&header));
    assert!(rt; octets.ends_with(&rest));
    Ok(())
}

#[test]
fn offers_of_another_generation_are_let_go(rt: HostRuntime) -> Result<(), Fail> {
    let octets = octets_of_batch(&rt, rt.alloc(), &[(7, FIRST), (8, SECOND)])?;
    assert!(rt; octets.is_empty());
    Ok(())
}
