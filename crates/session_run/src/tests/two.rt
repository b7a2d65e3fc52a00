// Two connections of one router.

ghost use Rattle.std.specs.Prelude.{◌≡◌, length, map};
ghost use Rattle.mailbox.specs.Boxes.{mailbox_of, mailbox_at};
ghost use Rattle.seats.specs.Ends.{sender_of};
ghost use Rattle.seats.specs.Seats.{IsNumbered, AreUnused};

use super::*;

/// The peer's OPEN and KEEPALIVE on two links. The first link opens `claimed` at its KEEPALIVE and ends after `refused`. The second begins
/// after `claimed`, and opens `refused` at its NOTIFICATION.
#[derive(Drop)]
struct Links {
    first: HeldLink,
    second: HeldLink,
}

fn two_links(alloc: Global) -> Result<Links, Fail> {
    let (open, claimed, refused) = (gate(alloc, true)?, gate(alloc, false)?, gate(alloc, false)?);
    let messages = [OPEN, KEEPALIVE];
    Ok(Links {
        first: link_of(
            alloc,
            stream(alloc, &messages)?,
            &open,
            &refused,
            4,
            &claimed,
        )?,
        second: link_of(
            alloc,
            stream(alloc, &messages)?,
            &claimed,
            &open,
            3,
            &refused,
        )?,
    })
}

/// Serves both links at once with one book.
fn serve_both<B: SeatNames + Send + Sync, R: Threads + Wait + Sync>(
    rt: &R,
    alloc: Global,
    shards: Vec<Sender<Mail>>,
    offers: Receiver<Offer>,
    links: &mut Links,
) -> Option<(SessionEnd, SessionEnd)>
    requires numbers { IsNumbered 0 (map sender_of shards.items) }
    requires unused { AreUnused (map sender_of shards.items) }
    requires count { length shards.items ≡ 1 }
    requires mailboxes { B.shard_mailboxes 0 ≡ map mailbox_of shards.items }
    requires receiver { B.offer_mailbox 0 ≡ mailbox_at offers }
    requires places { B.places ≡ 1 }
{
    let book: SeatBook<B> = book_of(alloc, shards, offers).ok()?;
    let stop = StopMark::new(false);
    let Links { first, second } = links;
    let (one, other) = join(
        rt,
        || -> Option<SessionEnd>
            requires { (B.places ≡ 1) × (length (B.shard_mailboxes 0) ≡ 1) }
        { serve_once(rt, alloc, &book, first, &[0], &stop) },
        || -> Option<SessionEnd>
            requires { (B.places ≡ 1) × (length (B.shard_mailboxes 0) ≡ 1) }
        { serve_once(rt, alloc, &book, second, &[0], &stop) },
    );
    Some((one?, other?))
}

#[test]
fn the_second_connection_of_a_router_gets_a_cease(rt: HostRuntime) -> Result<(), Fail> {
    let alloc = rt.alloc();
    let (shards, _) = one_shard(&rt, alloc)?;
    let (_, offers) = make::<Offer, HostRuntime>(&rt, alloc, 1, 1)?;
    let mut links = two_links(alloc)?;
    let (one, other) = serve_both::<Brand, HostRuntime>(
        &rt, alloc, shards, offers, &mut links,
    ).ok_or("memory")?;
    assert!(rt; matches!(one.why, EndWhy::PeerClosed));
    assert_eq!(rt;
        (one.slot, one.generation, one.messages, one.updates),
        (Some(SLOT), 1, 2, 0)
    );
    assert!(rt; matches!(other.why, EndWhy::SeatOut(_)));
    assert_eq!(rt;
        (other.slot, other.generation, other.messages),
        (Some(SLOT), 0, 1)
    );
    let ceased = stream(alloc, &[OWN_OPEN, b"\x00\x15\x03\x06\x00"])?;
    assert_eq!(rt; links.second.taken(), ceased.as_slice());
    Ok(())
}
