//! The book that sessions share.

ghost use Rattle.std.specs.Prelude.{◌≡◌, ◌<◌, ℕ, length, map, Some, IfOk, IfErr, slice_get};
ghost use Rattle.seats.specs.Seats.{SeatOf, IsBook, IsResting, IsClaimed, IsOffered};

use crate::book::{Book, SeatOut};
use crate::names::SeatNames;
use crate::seat::Seat;
use rcp_base::{NoMemory, Slot};
use std::alloc::Global;
use std::sync::{Mutex, Wait};

/// A book of seats that any thread may claim from.
#[derive(Drop)]
pub struct SeatBook<B: SeatNames> {
    book: Mutex<Book<B>>,
}

impl<B: SeatNames> SeatBook<B> {
    /// The book of the seats of the slots from 0 on, in order. Nothing was put by them, and each has the mailboxes that are
    /// named for its slot.
    ///
    /// `NoMemory` where there is no room for the places.
    pub fn new(alloc: Global, seats: Vec<Seat<B>>) -> Result<SeatBook<B>, NoMemory>
        requires places { length seats.items ≡ B.places }
        requires seats { (slot : ℕ) (seat : SeatOf) → slice_get seats.items slot ≡ Some seat → IsOffered B.shard_mailboxes B.offer_mailbox slot seat }
    {
        let book = Book::new(places_with(alloc, seats)?);
        Ok(SeatBook {
            book: Mutex::new(book),
        })
    }

    /// Takes the seat of a slot that has a place, for its next session. It waits for the lock of the book alone.
    ///
    /// `SeatOut` comes only where this call found the seat out of the book or worn out: only `Book::take` makes it.
    pub fn claim<R: Wait>(&self, rt: &R, slot: Slot) -> Result<Seat<B>, SeatOut>
        requires { slot < B.places }
        ensures seat { IfOk result (IsClaimed B.shard_mailboxes B.offer_mailbox slot) }
        ensures out { IfErr result (λ out. out.slot ≡ slot) }
    {
        self.book.lock(rt).take(slot)
    }

    /// Puts a seat back for the next session of its router. It waits for the lock of the book alone.
    pub fn give_back<R: Wait>(&self, rt: &R, seat: Seat<B>)
        requires { IsResting B.shard_mailboxes B.offer_mailbox seat }
    {
        self.book.lock(rt).put_back(seat);
    }

    /// The places of the slots, in order, each with its seat where the book holds it.
    pub fn into_seats(self) -> Vec<Option<Seat<B>>>
        ensures { IsBook B.places B.shard_mailboxes B.offer_mailbox result.items }
    {
        self.book.into_inner().into_seats()
    }
}

/// A place for each seat, with the seat in it.
fn places_with<B: SeatNames>(
    alloc: Global,
    seats: Vec<Seat<B>>,
) -> Result<Vec<Option<Seat<B>>>, NoMemory>
    ensures { IfOk result (λ places. places.items ≡ map (λ seat. Some seat) seats.items) }
{
    Ok(seats.into_iter().map(|seat| Some(seat)).collect(alloc)?)
}
