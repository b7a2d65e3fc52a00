// How sessions end before their seat is claimed, and by a mark.

ghost use Rattle.std.specs.Prelude.{◌≡◌, length, map};
ghost use Rattle.mailbox.specs.Boxes.{mailbox_of, mailbox_at};
ghost use Rattle.seats.specs.Ends.{sender_of};
ghost use Rattle.seats.specs.Seats.{IsNumbered, AreUnused};

use super::*;

/// What is seen of a session.
#[derive(Drop)]
struct Seen {
    end: SessionEnd,
    taken: Vec<u8>,
}

/// Serves a link with these times, with a book of its own.
fn serve_alone<B: SeatNames, L: Link, R: Wait>(
    rt: &R,
    alloc: Global,
    shards: Vec<Sender<Mail>>,
    offers: Receiver<Offer>,
    link: &mut L,
    times: &[u64],
    stop: &StopMark,
) -> Option<SessionEnd>
    requires numbers { IsNumbered 0 (map sender_of shards.items) }
    requires unused { AreUnused (map sender_of shards.items) }
    requires count { length shards.items ≡ 1 }
    requires mailboxes { B.shard_mailboxes 0 ≡ map mailbox_of shards.items }
    requires receiver { B.offer_mailbox 0 ≡ mailbox_at offers }
    requires places { B.places ≡ 1 }
{
    let book: SeatBook<B> = book_of(alloc, shards, offers).ok()?;
    serve_once(rt, alloc, &book, link, times, stop)
}

/// Serves a link with these times.
fn ended<L: Link, R: Wait>(
    rt: &R,
    alloc: Global,
    link: &mut L,
    times: &[u64],
    stop: &StopMark,
) -> Option<SessionEnd> {
    let (shards, _) = one_shard(rt, alloc).ok()?;
    let (_, offers) = make::<Offer, R>(rt, alloc, 1, 1).ok()?;
    serve_alone::<Brand, L, R>(rt, alloc, shards, offers, link, times, stop)
}

/// Serves a peer that sends these octets and then ends the link.
fn observe<R: Wait>(rt: &R, alloc: Global, octets: Vec<u8>) -> Result<Seen, Fail> {
    let mut link = MemLink::new(octets, Vec::new(alloc), Vec::new(alloc), 4096);
    let stop = StopMark::new(false);
    let end = ended(rt, alloc, &mut link, &[0], &stop).ok_or("memory")?;
    let mut taken = Vec::new(alloc);
    taken.extend_from_slice(link.taken())?;
    Ok(Seen { end, taken })
}

#[test]
fn a_silent_peer_that_ends_the_link_has_no_slot(rt: HostRuntime) -> Result<(), Fail> {
    let alloc = rt.alloc();
    let Seen { end, taken } = observe(&rt, alloc, Vec::new(alloc))?;
    assert!(rt; matches!(end.why, EndWhy::PeerClosed));
    assert_eq!(rt;
        (end.slot, end.generation, end.messages, end.updates),
        (None, 0, 0, 0)
    );
    assert_eq!(rt; taken, stream(alloc, &[OWN_OPEN])?);
    Ok(())
}

#[test]
fn a_header_of_18_octets_is_a_fault_of_its_length(rt: HostRuntime) -> Result<(), Fail> {
    let alloc = rt.alloc();
    let Seen { end, taken } = observe(&rt, alloc, stream(alloc, &[b"\x00\x12\x04"])?)?;
    assert!(rt; matches!(end.why, EndWhy::Fault { code: 1, sub: 2 }));
    assert_eq!(rt; end.messages, 0);
    let faulted = stream(alloc, &[OWN_OPEN, b"\x00\x17\x03\x01\x02\x00\x12"])?;
    assert_eq!(rt; taken, faulted);
    Ok(())
}

#[test]
fn a_peer_that_closes_within_its_open_claims_nothing(rt: HostRuntime) -> Result<(), Fail> {
    let alloc = rt.alloc();
    let mut octets = stream(alloc, &[OPEN])?;
    octets.truncate(25);
    let Seen { end, taken: _ } = observe(&rt, alloc, octets)?;
    assert!(rt; matches!(end.why, EndWhy::PeerClosed));
    assert_eq!(rt; (end.slot, end.messages), (None, 0));
    Ok(())
}

#[test]
fn a_peer_that_never_reads_is_given_up_after_240_seconds(rt: HostRuntime) -> Result<(), Fail> {
    let alloc = rt.alloc();
    let mut deaf = MemLink::new(Vec::new(alloc), Vec::new(alloc), Vec::new(alloc), 4096);
    deaf.close();
    let open = gate(alloc, true)?;
    let mut link = HeldLink::new(deaf, open, gate(alloc, false)?, 0, Vec::new(alloc));
    let stop = StopMark::new(false);
    let end = ended(&rt, alloc, &mut link, &[0, 0, 239, 240], &stop).ok_or("memory")?;
    assert!(rt; matches!(end.why, EndWhy::Fault { code: 4, sub: 0 }));
    assert_eq!(rt; link.taken().len(), 0);
    Ok(())
}

#[test]
fn a_mark_that_is_set_stops_a_session_that_waits(rt: HostRuntime) -> Result<(), Fail> {
    let alloc = rt.alloc();
    let octets = stream(alloc, &[OPEN, KEEPALIVE])?;
    let (open, shut, up) = (gate(alloc, true)?, gate(alloc, false)?, gate(alloc, false)?);
    let mut link = link_of(alloc, octets, &open, &shut, 4, &up)?;
    let stop = StopMark::new(true);
    let (end, ()) = join(
        &rt,
        || ended(&rt, alloc, &mut link, &[0], &stop),
        || stop.set(),
    );
    assert!(rt;
        matches!(
            end,
            Some(SessionEnd {
                why: EndWhy::Stopped,
                ..
            })
        )
    );
    Ok(())
}
