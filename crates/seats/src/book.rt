//! The book: the seats that no session holds.

ghost use Rattle.std.specs.Prelude.{◌≡◌, ◌<◌, ◌+◌, length, Some, None, MatchResult, IfOk, IfErr, slice_set, is_some};
ghost use Rattle.seats.specs.Seats.{SeatOf, IsBook, IsResting, IsClaimed, taken_of, place_of};

use crate::names::SeatNames;
use crate::seat::Seat;
use rcp_base::Slot;
use std::marker::Model;

/// The seat of this slot was out of the book, or worn out.
#[derive(Debug, Drop)]
pub struct SeatOut {
    slot: Slot,
}

impl SeatOut {
    /// The slot whose seat was asked for.
    pub fn slot(&self) -> Slot
        ensures { result ≡ self.now.slot }
    {
        self.slot
    }
}

/// A place for each slot, with its seat where no session holds it. Contracts see the list of the places. Each seat in it is that
/// of its slot, has the mailboxes that are named for it, is down at every shard by what it put, and has a generation that isn't below
/// that of any `Up` among that.
#[derive(Drop)]
pub struct Book<B: SeatNames> {
    seats: Vec<Option<Seat<B>>>,
}

impl<B: SeatNames> Model for Book<B> {
    ghost use Rattle.std.specs.Prelude.{List, Option};
    ghost use Rattle.seats.specs.Seats.{SeatOf, IsBook};

    ghost Value = { List (Option SeatOf) };

    ghost view = { λ b. b.seats.items };

    ghost invariant = { λ b. IsBook B.places B.shard_mailboxes B.offer_mailbox b.seats.items };
}

impl<B: SeatNames> Book<B> {
    /// A book of these places.
    pub(crate) fn new(seats: Vec<Option<Seat<B>>>) -> Book<B>
        requires { IsBook B.places B.shard_mailboxes B.offer_mailbox seats.items }
        ensures { result ≡ seats.items }
    {
        Book { seats }
    }

    /// Takes the seat of a slot, any slot, out of the book for its next session, with its generation raised.
    ///
    /// `SeatOut` comes exactly where the seat isn't in the book or is worn out: its generation has reached the last value of a
    /// `u64`. The book is then as it was.
    pub fn take(&mut self, slot: Slot) -> Result<Seat<B>, SeatOut>
        ensures exact { MatchResult result
            (λ seat. taken_of (place_of self.old slot) ≡ Some seat)
            (λ out. taken_of (place_of self.old slot) ≡ None) }
        ensures book { MatchResult result
            (λ seat. self.new ≡ slice_set self.old slot None)
            (λ out. self.new ≡ self.old) }
        ensures seat { IfOk result (IsClaimed B.shard_mailboxes B.offer_mailbox slot) }
        ensures out { IfErr result (λ out. out.slot ≡ slot) }
    {
        let place = usize::from(slot.0);
        if place < self.seats.len() && may_be_taken(&self.seats[place]) {
            if let Some(seat) = self.seats[place].take() {
                return Ok(seat.raised());
            }
        }
        Err(SeatOut { slot })
    }

    /// Puts the seat of a slot back into its place. A seat whose slot has no place is let go.
    pub(crate) fn put_back(&mut self, seat: Seat<B>)
        requires { IsResting B.shard_mailboxes B.offer_mailbox seat }
        ensures { self.new ≡ slice_set self.old seat.slot (Some seat) }
    {
        let place = usize::from(seat.slot().0);
        if place < self.seats.len() {
            self.seats[place] = Some(seat);
        }
    }

    /// The places.
    pub(crate) fn into_seats(self) -> Vec<Option<Seat<B>>>
        ensures same { result.items ≡ self }
        ensures book { IsBook B.places B.shard_mailboxes B.offer_mailbox result.items }
    {
        self.seats
    }
}

/// Whether there is a seat that isn't worn out.
fn may_be_taken<B: SeatNames>(place: &Option<Seat<B>>) -> bool
    ensures { result ≡ is_some (taken_of place.now) }
{
    match place {
        Some(seat) => seat.generation() < u64::MAX,
        None => false,
    }
}
