// Seats that come and go, in one thread and in two.
ghost use Rattle.std.specs.Prelude.{◌≡◌, map, IfOk};
ghost use Rattle.mailbox.specs.Boxes.{mailbox_of, mailbox_at};
ghost use Rattle.seats.specs.Ends.{sender_of};
ghost use Rattle.seats.specs.Seats.{IsNumbered, AreUnused};

use super::*;
use mailbox::{Receiver, Sender, make, take};
use rcp_base::Slot;
use rcp_model::Offer;
use std::alloc::Global;
use std::marker::Brand;
use std::sync::Wait;
use std::test::Fail;
use std::thread::{Threads, join};

const SLOT: Slot = Slot(0);

/// The one sender to a shard whose mailbox has room for one message, and the shard's receiver.
fn one_shard<R: Wait>(rt: &R, alloc: Global) -> Result<(Vec<Sender<Mail>>, Receiver<Mail>), Fail>
    ensures numbers { IfOk result (λ ends. IsNumbered 0 (map sender_of ends.0.items)) }
    ensures unused { IfOk result (λ ends. AreUnused (map sender_of ends.0.items)) }
{
    Ok(make(rt, alloc, 1, 1)?)
}

/// The generation of the seat that a claim gets, which is then let go.
fn generation_claimed<B: SeatNames, R: Wait>(rt: &R, book: &SeatBook<B>) -> Option<u64>
    requires { B.places ≡ 1 }
{
    let seat = book.claim(rt, SLOT).ok()?;
    Some(seat.generation())
}

/// Claims the seat of the book twice, and gives it back: its generation, and the slot of the claim that got none.
fn claim_twice<B: SeatNames, R: Wait>(rt: &R, book: &SeatBook<B>) -> Option<(u64, Slot)>
    requires { B.places ≡ 1 }
{
    let Ok(seat) = book.claim(rt, SLOT) else {
        return None;
    };
    let Err(out) = book.claim(rt, SLOT) else {
        return None;
    };
    let generation = seat.generation();
    book.give_back(rt, seat);
    Some((generation, out.slot()))
}

/// What is seen of a book with one seat.
#[derive(Debug, PartialEq, Drop)]
struct Seen {
    generation: u64,
    out: Slot,
    next: (Option<u64>, Option<u64>),
    places: usize,
    held: bool,
}

/// Claims the one seat twice, gives it back, and claims it in two threads at once.
fn claim_and_give_back<B: SeatNames + Send + Sync, R: Threads + Wait + Sync>(
    rt: &R,
    alloc: Global,
    shards: Vec<Sender<Mail>>,
    offers: Receiver<Offer>,
) -> Result<Seen, Fail>
    requires numbers { IsNumbered 0 (map sender_of shards.items) }
    requires unused { AreUnused (map sender_of shards.items) }
    requires mailboxes { B.shard_mailboxes 0 ≡ map mailbox_of shards.items }
    requires receiver { B.offer_mailbox 0 ≡ mailbox_at offers }
    requires places { B.places ≡ 1 }
{
    let mut seats = Vec::new(alloc);
    seats.push(Seat::<B>::new(SLOT, shards, offers))?;
    let book = SeatBook::new(alloc, seats)?;
    let (generation, out) = claim_twice(rt, &book).ok_or("one of two claims gets the seat")?;
    let shared = &book;
    let next = join(
        rt,
        || -> Option<u64>
            requires { B.places ≡ 1 }
        { generation_claimed(rt, shared) },
        || -> Option<u64>
            requires { B.places ≡ 1 }
        { generation_claimed(rt, shared) },
    );
    let seats = book.into_seats();
    Ok(Seen {
        generation,
        out,
        next,
        places: seats.len(),
        held: seats.iter().any(|place| place.is_some()),
    })
}

#[test]
fn one_of_two_threads_gets_the_seat_that_came_back(rt: HostRuntime) -> Result<(), Fail> {
    let (shards, _) = one_shard(&rt, rt.alloc())?;
    let (_, offers) = make::<Offer, HostRuntime>(&rt, rt.alloc(), 1, 1)?;
    let seen = claim_and_give_back::<Brand, HostRuntime>(&rt, rt.alloc(), shards, offers)?;
    assert_eq!(rt; seen.generation, 1);
    assert_eq!(rt; seen.out, SLOT);
    assert!(rt; seen.next == (Some(2), None) || seen.next == (None, Some(2)));
    assert_eq!(rt; (seen.places, seen.held), (1, false));
    Ok(())
}

#[test]
fn a_full_shard_hands_the_message_back(rt: HostRuntime) -> Result<(), Fail> {
    let (shards, mut shard) = one_shard(&rt, rt.alloc())?;
    let (_, offers) = make::<Offer, HostRuntime>(&rt, rt.alloc(), 1, 1)?;
    let mut seat = Seat::<Brand>::new(SLOT, shards, offers);
    let up = Mail::Up {
        slot: SLOT,
        generation: 1,
    };
    if seat.shards() != 1 || seat.slot() != SLOT {
        return Err(Fail::from("one shard"));
    }
    assert!(rt; seat.put(&rt, 0, up).is_ok());
    assert!(rt;
        matches!(
            seat.put(&rt, 0, Mail::Down { slot: SLOT }),
            Err((Mail::Down { slot: SLOT }, _))
        )
    );
    assert!(rt; seat.take_offer(&rt).is_none());
    let (senders, _) = seat.into_parts();
    assert_eq!(rt; senders.len(), 1);
    assert!(rt;
        matches!(
            take(&rt, &mut shard),
            Some((
                0,
                Mail::Up {
                    slot: SLOT,
                    generation: 1
                }
            ))
        )
    );
    Ok(())
}
