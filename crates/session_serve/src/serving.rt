//! A session that holds its seat.

ghost use Rattle.std.specs.Prelude.{◌≡◌, ℕ, ◌<◌, ◌^◌, ◌||◌, ◌&&◌, not, nat_lt, Bool, length};
ghost use Rattle.rcp_model.specs.Sessions.{SessionState};
ghost use Rattle.session_core.specs.Shown.{doing_of};
ghost use Rattle.outbox.specs.Wires.{WireOf};
ghost use Rattle.outbox.specs.Outs.{OutOf, counted_on, WritesSome, IsDone};
ghost use Rattle.seats.specs.Seats.{SeatOf};
ghost use Rattle.shard_mail.specs.Puts.{IsSameSeat, Puts, mails_of, reached_up};
ghost use Rattle.session_serve.specs.Deeds.{Deeds, no_deeds, down_if};
ghost use Rattle.session_serve.specs.Running.{Start, start_at, Acts, Runs, HasBegun, HasOffers, Ends, Goes, AddsOffers};
ghost use Rattle.session_serve.specs.Served.{Claims, IsServed, at_of};

use crate::ends::{EndWhy, SessionEnd, ended_by};
use outbox::{Outbox, Wired};
use outside::{Clock, Link, LinkRead, StopMark};
use rcp_base::NoMemory;
use roster::Roster;
use seats::{Seat, SeatNames};
use session_core::{Actions, Session};
use shard_mail::{put_down, put_events, take_batch};
use std::alloc::Global;
use std::sync::Wait;

/// How many octets are read at once.
const PIECE: usize = 4096;

/// How long a session rests where nothing has come, in milliseconds: how late a timer is seen. What comes on the link ends the rest, and so does
/// whoever rings for offers.
const REST: u32 = 1_000;

/// A session that holds its seat, and what it has done.
#[derive(Drop)]
pub(crate) struct Serving {
    alloc: Global,
    session: Session,
    out: Outbox,
    up: bool,
    messages: u64,
}

impl Serving {
    /// Does what the session asks for: reports to the shards, messages to the outbox, and the end. So many messages were handled.
    fn act<B: SeatNames, L: Link, R: Wait>(
        &mut self,
        rt: &R,
        link: &mut L,
        seat: &mut Seat<B>,
        actions: Actions,
        handled: u64,
    ) -> Result<(), EndWhy>
        requires some { 0 < length seat.old.senders }
        requires few { length seat.old.senders < 2 ^ 16 }
        ensures put { Puts (mails_of seat.old (doing_of actions).events) seat.old seat.new }
        ensures acts { Acts (doing_of actions) self.old.out self.new.out (⟦<L as Wired>⟧.wire link.old) (⟦<L as Wired>⟧.wire link.new) result }
        ensures up { self.new.up ≡ (self.old.up || reached_up (doing_of actions).events) }
        ensures messages { self.new.messages ≡ counted_on self.old.messages handled }
        ensures session { self.new.session ≡ self.old.session }
    {
        let Actions {
            send,
            events,
            claim: _,
            closed,
            handled: _,
        } = actions;
        self.messages = self.messages.saturating_add(handled);
        let up = put_events(rt, link, &mut self.out, seat, events);
        self.up = self.up | up;
        match self.out.push(send) {
            Ok(()) => ended_by(&closed),
            Err(NoMemory) => Err(EndWhy::NoMemory),
        }
    }

    /// Answers the claim: the seat is the session's.
    fn take_seat<B: SeatNames, L: Link, C: Clock, R: Wait>(
        &mut self,
        rt: &R,
        link: &mut L,
        clock: &C,
        roster: &Roster,
        seat: &mut Seat<B>,
    ) -> Result<(), EndWhy>
        requires some { 0 < length seat.old.senders }
        requires few { length seat.old.senders < 2 ^ 16 }
        ensures same { IsSameSeat seat.old seat.new }
        ensures goes { (may_stop : Bool) (session : SessionState) (seat_then : SeatOf) (wire_then : WireOf) (slot : ℕ)
            → Runs (start_at roster.now (C.can_give clock.now) may_stop session seat_then wire_then) no_deeds (at_of self.old seat.old (⟦<L as Wired>⟧.wire link.old))
            → Claims slot self.old.session
            → Goes (start_at roster.now (C.can_give clock.now) may_stop session seat_then wire_then) (at_of self.new seat.new (⟦<L as Wired>⟧.wire link.new)) result }
    {
        match self.session.seated(roster, true, clock.now()) {
            Ok(actions) => {
                let handled = actions.handled;
                self.act(rt, link, seat, actions, handled)
            }
            Err(NoMemory) => Err(EndWhy::NoMemory),
        }
    }

    /// Reads what has come, and gives it to the session.
    fn read<B: SeatNames, L: Link, C: Clock, R: Wait>(
        &mut self,
        rt: &R,
        link: &mut L,
        clock: &C,
        roster: &Roster,
        seat: &mut Seat<B>,
    ) -> Result<(), EndWhy>
        requires some { 0 < length seat.old.senders }
        requires few { length seat.old.senders < 2 ^ 16 }
        ensures same { IsSameSeat seat.old seat.new }
        ensures goes { (may_stop : Bool) (session : SessionState) (seat_then : SeatOf) (wire_then : WireOf) (deeds : Deeds)
            → Runs (start_at roster.now (C.can_give clock.now) may_stop session seat_then wire_then) deeds (at_of self.old seat.old (⟦<L as Wired>⟧.wire link.old))
            → HasBegun deeds
            → HasOffers (start_at roster.now (C.can_give clock.now) may_stop session seat_then wire_then) deeds (at_of self.old seat.old (⟦<L as Wired>⟧.wire link.old))
            → Goes (start_at roster.now (C.can_give clock.now) may_stop session seat_then wire_then) (at_of self.new seat.new (⟦<L as Wired>⟧.wire link.new)) result }
    {
        let mut piece = [0; PIECE];
        match link.read(&mut piece) {
            Ok(LinkRead::Octets(count)) => {
                let (octets, _) = piece.split_at(count);
                match self.session.bytes(roster, octets, clock.now()) {
                    Ok(actions) => {
                        let handled = actions.handled;
                        self.act(rt, link, seat, actions, handled)
                    }
                    Err(NoMemory) => Err(EndWhy::NoMemory),
                }
            }
            Ok(LinkRead::NotReady) => {
                link.wait(REST);
                Ok(())
            }
            Ok(LinkRead::End) => Err(EndWhy::PeerClosed),
            Err(_) => Err(EndWhy::LinkFault),
        }
    }

    /// Does what is due by the clock.
    fn tick<B: SeatNames, L: Link, C: Clock, R: Wait>(
        &mut self,
        rt: &R,
        link: &mut L,
        clock: &C,
        roster: &Roster,
        seat: &mut Seat<B>,
    ) -> Result<(), EndWhy>
        requires some { 0 < length seat.old.senders }
        requires few { length seat.old.senders < 2 ^ 16 }
        ensures same { IsSameSeat seat.old seat.new }
        ensures goes { (may_stop : Bool) (session : SessionState) (seat_then : SeatOf) (wire_then : WireOf) (deeds : Deeds)
            → Runs (start_at roster.now (C.can_give clock.now) may_stop session seat_then wire_then) deeds (at_of self.old seat.old (⟦<L as Wired>⟧.wire link.old))
            → HasBegun deeds
            → Goes (start_at roster.now (C.can_give clock.now) may_stop session seat_then wire_then) (at_of self.new seat.new (⟦<L as Wired>⟧.wire link.new)) result }
    {
        match self.session.clock(clock.now()) {
            Ok(actions) => self.act(rt, link, seat, actions, 0),
            Err(NoMemory) => Err(EndWhy::NoMemory),
        }
    }

    /// Takes a batch of offers where the session is up and no UPDATE waits for the link.
    fn add_offers<B: SeatNames, R: Wait>(
        &mut self,
        rt: &R,
        seat: &mut Seat<B>,
    ) -> Result<(), EndWhy>
        ensures same { IsSameSeat seat.old seat.new }
        ensures goes { (start : Start) (deeds : Deeds) (wire : WireOf)
            → Runs start deeds (at_of self.old seat.old wire)
            → HasBegun deeds
            → AddsOffers start (at_of self.new seat.new wire) result }
    {
        if !self.wants_offers() {
            return Ok(());
        }
        let messages = match take_batch(rt, self.alloc, seat) {
            Ok(messages) => messages,
            Err(NoMemory) => return Err(EndWhy::NoMemory),
        };
        match self.out.push_updates(messages) {
            Ok(()) => Ok(()),
            Err(NoMemory) => Err(EndWhy::NoMemory),
        }
    }

    /// Whether the session is up and no UPDATE waits for the link.
    fn wants_offers(&self) -> bool
        ensures { result ≡ (self.now.up && not (nat_lt 0 self.now.out.to_last_update)) }
    {
        self.up && !self.out.has_updates()
    }

    /// One turn: offers are taken where none waits, what waits is written, and what came is handled.
    fn turn<B: SeatNames, L: Link, C: Clock, R: Wait>(
        &mut self,
        rt: &R,
        link: &mut L,
        clock: &C,
        roster: &Roster,
        seat: &mut Seat<B>,
        stop: &StopMark,
    ) -> Result<(), EndWhy>
        requires some { 0 < length seat.old.senders }
        requires few { length seat.old.senders < 2 ^ 16 }
        ensures same { IsSameSeat seat.old seat.new }
        ensures goes { (session : SessionState) (seat_then : SeatOf) (wire_then : WireOf) (deeds : Deeds)
            → Runs (start_at roster.now (C.can_give clock.now) stop.now session seat_then wire_then) deeds (at_of self.old seat.old (⟦<L as Wired>⟧.wire link.old))
            → HasBegun deeds
            → Goes (start_at roster.now (C.can_give clock.now) stop.now session seat_then wire_then) (at_of self.new seat.new (⟦<L as Wired>⟧.wire link.new)) result }
    {
        if let Err(why) = self.add_offers(rt, seat) {
            return Err(why);
        }
        self.out.write_to(rt, link);
        if self.out.has_failed() {
            return Err(EndWhy::LinkFault);
        }
        if stop.is_set() {
            return Err(EndWhy::Stopped);
        }
        if let Err(why) = self.read(rt, link, clock, roster, seat) {
            return Err(why);
        }
        self.tick(rt, link, clock, roster, seat)
    }

    /// Takes turns until one ends the session.
    fn serve<B: SeatNames, L: Link, C: Clock, R: Wait>(
        &mut self,
        rt: &R,
        link: &mut L,
        clock: &C,
        roster: &Roster,
        seat: &mut Seat<B>,
        stop: &StopMark,
    ) -> EndWhy
        requires some { 0 < length seat.old.senders }
        requires few { length seat.old.senders < 2 ^ 16 }
        ensures same { IsSameSeat seat.old seat.new }
        ensures goes { (session : SessionState) (seat_then : SeatOf) (wire_then : WireOf) (slot : ℕ)
            → Runs (start_at roster.now (C.can_give clock.now) stop.now session seat_then wire_then) no_deeds (at_of self.old seat.old (⟦<L as Wired>⟧.wire link.old))
            → Claims slot self.old.session
            → (deeds : Deeds) × Ends (start_at roster.now (C.can_give clock.now) stop.now session seat_then wire_then) deeds (at_of self.new seat.new (⟦<L as Wired>⟧.wire link.new)) result }
    {
        if let Err(why) = self.take_seat(rt, link, clock, roster, seat) {
            return why;
        }
        for _ in rt.forever() {
            if let Err(why) = self.turn(rt, link, clock, roster, seat, stop) {
                return why;
            }
        }
        unreachable!()
    }

    /// The session has ended: the router is reported down, if it was up, and what waits for the link is tried for about a second.
    fn finish<B: SeatNames, L: Link, R: Wait>(&mut self, rt: &R, link: &mut L, seat: &mut Seat<B>)
        ensures put { Puts (down_if self.old.up seat.old.slot) seat.old seat.new }
        ensures written { WritesSome self.old.out self.new.out (⟦<L as Wired>⟧.wire link.old) (⟦<L as Wired>⟧.wire link.new) }
        ensures done { IsDone self.new.out (⟦<L as Wired>⟧.wire link.old) (⟦<L as Wired>⟧.wire link.new) }
        ensures messages { self.new.messages ≡ self.old.messages }
    {
        self.report_down(rt, link, seat);
        self.out.write_last(rt, link);
    }

    /// Reports the router down to the shards, if it was up.
    fn report_down<B: SeatNames, L: Link, R: Wait>(
        &mut self,
        rt: &R,
        link: &mut L,
        seat: &mut Seat<B>,
    )
        ensures put { Puts (down_if self.old.up seat.old.slot) seat.old seat.new }
        ensures written { WritesSome self.old.out self.new.out (⟦<L as Wired>⟧.wire link.old) (⟦<L as Wired>⟧.wire link.new) }
        ensures messages { self.new.messages ≡ self.old.messages }
    {
        if !self.up {
            return;
        }
        put_down(rt, link, &mut self.out, seat);
    }
}

/// Serves a router whose seat was got, from the answer to its claim to the end of the session. The session is in Claiming, and its
/// claim is of the seat's slot; the seat has a sender for each shard of the roster.
///
/// What the router reports is put to the shards, in order: `Up`, the changes of each faultless UPDATE, and `Down` before the call
/// returns. Where a shard's mailbox is full it is tried again, and what waits for the link is written meanwhile. Offers of the
/// seat's generation are taken in batches of at most 1,024, each before a read of a session that is up and only where no UPDATE
/// still waits for the link, and are written packed; other offers are let go.
///
/// The ends: `Fault` and `Received` exactly where what came closes the session so, with the NOTIFICATION of a fault written last;
/// a `Fault` 4/0 where the hold time ran out by the clock; `PeerClosed` where the link ended; `LinkFault` where it failed;
/// `Stopped` where the mark was set; `NoMemory`.
pub fn serve_seated<B: SeatNames, L: Link, C: Clock, R: Wait>(
    rt: &R,
    alloc: Global,
    link: &mut L,
    clock: &C,
    roster: &Roster,
    session: Session,
    seat: &mut Seat<B>,
    stop: &StopMark,
) -> SessionEnd
    requires claim { Claims seat.old.slot session }
    requires shards { length seat.old.senders ≡ roster.now.shards }
    ensures { (deeds : Deeds) × (out : OutOf) × IsServed roster.now (C.can_give clock.now) stop.now session.state seat.old seat.new (⟦<L as Wired>⟧.wire link.old) (⟦<L as Wired>⟧.wire link.new) result deeds out }
{
    // A roster is known to have 1 to 64 shards once their number is read.
    let _shards = roster.shards();
    let mut serving = Serving {
        alloc,
        session,
        out: Outbox::new(alloc),
        up: false,
        messages: 0,
    };
    let why = serving.serve(rt, link, clock, roster, seat, stop);
    serving.finish(rt, link, seat);
    SessionEnd {
        why,
        slot: Some(seat.slot()),
        generation: seat.generation(),
        messages: serving.messages,
        updates: serving.out.updates(),
    }
}
