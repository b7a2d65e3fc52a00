//! Sessions over links, mailboxes and clocks in memory, from their first octet to their last.

ghost use Rattle.std.specs.Prelude.{◌≡◌, ◌<◌, ℕ, length, map, IfOk};
ghost use Rattle.mailbox.specs.Boxes.{mailbox_of, mailbox_at};
ghost use Rattle.seats.specs.Ends.{sender_of};
ghost use Rattle.seats.specs.Seats.{IsNumbered, AreUnused};

use super::*;
use mailbox::{Receiver, Sender, make};
use outside::{HeldGate, HeldLink, Link, MemClock, MemLink, StopMark};
use rcp_base::{NoMemory, Slot};
use rcp_model::Offer;
use roster::read;
use seats::{Mail, Seat, SeatBook, SeatNames};
use session_serve::{EndWhy, SessionEnd};
use std::alloc::Global;
use std::marker::Brand;
use std::sync::{Arc, Wait};
use std::test::Fail;
use std::thread::{Threads, join};

mod ends;
mod two;

const SLOT: Slot = Slot(0);

/// One router, and one shard.
const ROSTER: &[u8] =
    b"as 65000\nid 10.0.0.254\nshards 1\nhold 90\narea 0.0.0.0\nrouter 10.0.0.1 10.0.0.1\n";

/// The platform's OPEN after its marker: AS 65000, hold time 90 and BGP Identifier 10.0.0.254 (RFC 4271 section 4.2).
const OWN_OPEN: &[u8] = b"\x00\x1d\x01\x04\xfd\xe8\x00\x5a\x0a\x00\x00\xfe\x00";

/// The OPEN of the router 10.0.0.1 with the hold time 30.
const OPEN: &[u8] = b"\x00\x1d\x01\x04\xfd\xe8\x00\x1e\x0a\x00\x00\x01\x00";

const KEEPALIVE: &[u8] = b"\x00\x13\x04";

/// Messages one after another, each with its marker (RFC 4271 section 4.1).
fn stream(alloc: Global, messages: &[&[u8]]) -> Result<Vec<u8>, Fail> {
    let mut octets = Vec::new(alloc);
    for message in messages {
        octets.extend_from_slice(&[0xff; 16])?;
        octets.extend_from_slice(message)?;
    }
    Ok(octets)
}

/// A link that gives these octets once `before` is open, and ends once `after` is. At its k-th message of this type it opens the k-th gate.
fn link_of(
    alloc: Global,
    octets: Vec<u8>,
    before: &Arc<HeldGate>,
    after: &Arc<HeldGate>,
    at: u8,
    opens: &Arc<HeldGate>,
) -> Result<HeldLink, Fail> {
    let link = MemLink::new(octets, Vec::new(alloc), Vec::new(alloc), 4096);
    let mut gates = Vec::new(alloc);
    gates.push(opens.clone()?)?;
    Ok(HeldLink::new(link, before.clone()?, after.clone()?, at, gates))
}

/// A gate that is open or shut.
fn gate(alloc: Global, open: bool) -> Result<Arc<HeldGate>, Fail> {
    let gate = HeldGate::new(0);
    if open {
        gate.open();
    }
    Ok(Arc::new(alloc, gate)?)
}

/// The one sender to the shard with room for sixteen messages.
fn one_shard<R: Wait>(
    rt: &R,
    alloc: Global,
) -> Result<(Vec<Sender<Mail>>, Receiver<Mail>), NoMemory>
    ensures numbers { IfOk result (λ ends. IsNumbered 0 (map sender_of ends.0.items)) }
    ensures unused { IfOk result (λ ends. AreUnused (map sender_of ends.0.items)) }
    ensures count { IfOk result (λ ends. length ends.0.items ≡ 1) }
{
    Ok(make(rt, alloc, 1, 16)?)
}

/// A book with the seat of slot 0 alone.
fn book_of<B: SeatNames>(
    alloc: Global,
    shards: Vec<Sender<Mail>>,
    offers: Receiver<Offer>,
) -> Result<SeatBook<B>, NoMemory>
    requires numbers { IsNumbered 0 (map sender_of shards.items) }
    requires unused { AreUnused (map sender_of shards.items) }
    requires mailboxes { B.shard_mailboxes 0 ≡ map mailbox_of shards.items }
    requires receiver { B.offer_mailbox 0 ≡ mailbox_at offers }
    requires places { B.places ≡ 1 }
{
    let mut seats = Vec::new(alloc);
    seats.push(Seat::<B>::new(SLOT, shards, offers))?;
    Ok(SeatBook::new(alloc, seats)?)
}

/// Serves a link with these times, of which there is one at least.
fn serve_once<B: SeatNames, L: Link, R: Wait>(
    rt: &R,
    alloc: Global,
    book: &SeatBook<B>,
    link: &mut L,
    times: &[u64],
    stop: &StopMark,
) -> Option<SessionEnd>
    requires places { B.places ≡ 1 }
    requires shards { length (B.shard_mailboxes 0) ≡ 1 }
{
    let roster = read(alloc, ROSTER).ok()?;
    let times = Vec::from_slice(alloc, times).ok()?;
    if times.is_empty() || roster.len() > 1 || roster.shards() != 1 {
        return None;
    }
    let clock = MemClock::new(times);
    Some(serve_session(rt, alloc, link, &clock, &roster, book, stop))
}
