//! The seat of a router.

ghost use Rattle.std.specs.Prelude.{◌≡◌, ◌<◌, ◌++◌, ◌∷◌, [], length, map, OnOk, OnErr, IfErr, IfSome, IfNone};
ghost use Rattle.mailbox.specs.Boxes.{WasFull};
ghost use Rattle.seats.specs.Ends.{sender_of, receiver_of};
ghost use Rattle.seats.specs.Seats.{SeatOf, IsNumbered, put_to, refused_by, took, found_none, WORN_OUT, next_generation, sender_at, sent_at};

use crate::names::SeatNames;
use cost_rows::View;
use mailbox::{Full, Receiver, Sender, put, take};
use rcp_base::Slot;
use rcp_model::Offer;
use rcp_model::rcs_mail::ShardMail;
use std::marker::{Model, PhantomData};
use std::sync::Wait;

/// A message to the worker of a shard.
pub type Mail = ShardMail<View>;

/// What a session holds for its router: a sender to each shard, in the order of shards, the receiver of the router's offers, and
/// the generation, which counts the times that the seat was claimed. Each sender has the slot as its number.
#[derive(Drop)]
pub struct Seat<B: SeatNames> {
    slot: Slot,
    generation: u64,
    shards: Vec<Sender<Mail>>,
    offers: Receiver<Offer>,
    names: PhantomData<B>,
}

impl<B: SeatNames> Model for Seat<B> {
    ghost use Rattle.std.specs.Prelude.{map};
    ghost use Rattle.seats.specs.Ends.{sender_of, receiver_of};
    ghost use Rattle.seats.specs.Seats.{SeatOf, IsNumbered};

    ghost Value = { SeatOf };

    ghost view = { λ s. record { slot = s.slot; generation = s.generation; senders = map sender_of s.shards.items; offers = receiver_of s.offers } };

    ghost invariant = { λ s. IsNumbered s.slot (map sender_of s.shards.items) };
}

impl<B: SeatNames> Seat<B> {
    /// The seat of a slot, with generation 0. There is one sender for each shard, in the order of shards, each with the slot
    /// as its number.
    pub fn new(slot: Slot, shards: Vec<Sender<Mail>>, offers: Receiver<Offer>) -> Seat<B>
        requires { IsNumbered slot (map sender_of shards.items) }
        ensures { result ≡ record { slot = slot; generation = 0; senders = map sender_of shards.items; offers = receiver_of offers } }
    {
        Seat {
            slot,
            generation: 0,
            shards,
            offers,
            names: PhantomData,
        }
    }

    /// The senders, in the order of shards, and the receiver.
    pub fn into_parts(self) -> (Vec<Sender<Mail>>, Receiver<Offer>)
        ensures senders { map sender_of result.0.items ≡ self.senders }
        ensures numbers { IsNumbered self.slot self.senders }
        ensures offers { receiver_of result.1 ≡ self.offers }
    {
        let Seat {
            slot: _,
            generation: _,
            shards,
            offers,
            names: _,
        } = self;
        (shards, offers)
    }

    /// The slot of the router.
    pub fn slot(&self) -> Slot
        ensures { result ≡ self.now.slot }
    {
        self.slot
    }

    /// How often the seat was claimed. At the last value of a `u64` it is worn out.
    pub fn generation(&self) -> u64
        ensures { result ≡ self.now.generation }
    {
        self.generation
    }

    /// The seat for its next session. It isn't worn out.
    pub(crate) fn raised(self) -> Seat<B>
        requires { self.generation < WORN_OUT }
        ensures { result ≡ next_generation self }
    {
        Seat {
            generation: self.generation + 1,
            ..self
        }
    }

    /// To how many shards the seat puts.
    pub fn shards(&self) -> usize
        ensures { result ≡ length self.now.senders }
    {
        self.shards.len()
    }

    /// Puts a message to a shard, at the end of its mailbox, or hands it back with `Full` where the mailbox has no room. It
    /// waits for nobody.
    pub fn put<R: Wait>(&mut self, rt: &R, shard: usize, mail: Mail) -> Result<(), (Mail, Full)>
        requires { shard < length self.old.senders }
        ensures put { OnOk result (self.new ≡ put_to shard mail self.old) }
        ensures full { IfErr result (λ e. (e.0 ≡ mail) × (self.new ≡ refused_by shard self.old)) }
        ensures cause { OnErr result (WasFull (sender_at shard self.old).room self.old.slot (sent_at shard self.old)) }
    {
        put(rt, &mut self.shards[shard], mail)
    }

    /// Takes the oldest offer of the router, with the number of the shard that made it. It waits for nobody.
    pub fn take_offer<R: Wait>(&mut self, rt: &R) -> Option<(u32, Offer)>
        ensures taken { IfSome result (λ offer. self.new ≡ took offer self.old) }
        ensures none { IfNone result (self.new ≡ found_none self.old) }
    {
        take(rt, &mut self.offers)
    }
}
