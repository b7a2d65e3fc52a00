//! The exchange of OPENs.

ghost use Rattle.std.specs.Prelude.{◌≡◌, ℕ, Bool, List, None, IfOk, IsTrue};
ghost use Rattle.session_core.specs.Shown.{doing_of};
ghost use Rattle.rcp_model.specs.Sessions.{later_of};
ghost use Rattle.outbox.specs.Wires.{WireOf};
ghost use Rattle.session_serve.specs.declared.ends.EndWhy.TheVariants as why;
ghost use Rattle.outbox.specs.Outs.{counted_on, WritesSome, IsDone};
ghost use Rattle.session_run.specs.Greeted.{Exchange, IsGreeted};
ghost use Rattle.session_run.specs.Greeting.{Given, given_at, Now, now_of, Greets, GreetsOn, RunsTo, Parts, Queues, begun_at};

use outbox::{Outbox, Wired};
use outside::{Clock, Link, LinkRead, StopMark};
use rcp_base::{NoMemory, Slot};
use roster::Roster;
use session_core::{Actions, Session};
use session_serve::{EndWhy, SessionEnd, ended_by};
use std::alloc::Global;
use std::sync::Wait;

/// How many octets are read at once.
const PIECE: usize = 4096;

/// How long a greeting rests where nothing has come, in milliseconds: how late a timer is seen. What comes on the link ends the rest.
const REST: u32 = 1_000;

/// A session before its seat is claimed.
#[derive(Drop)]
pub(crate) struct Greeting {
    session: Session,
    out: Outbox,
    slot: Option<Slot>,
    messages: u64,
}

/// Exchanges OPENs on a new link, until the peer's has claimed the seat of its router and the platform's is wholly written. Octets
/// after the peer's OPEN are kept in the session.
///
/// The ends: `Fault` and `Received` exactly where what came closes the session so, with the NOTIFICATION of a fault written last; a `Fault` 4/0
/// where 240 seconds have passed by the clock; `PeerClosed` where the link ended; `LinkFault` where it failed; `Stopped` where the mark was set;
/// `NoMemory`. `SeatOut` never comes.
pub fn greet<L: Link, C: Clock, R: Wait>(
    rt: &R,
    alloc: Global,
    link: &mut L,
    clock: &C,
    roster: &Roster,
    stop: &StopMark,
) -> Result<(Session, Slot), SessionEnd>
    ensures { IsGreeted roster.now (C.can_give clock.now) stop.now (⟦<L as Wired>⟧.wire link.old) (⟦<L as Wired>⟧.wire link.new) result }
{
    let mut greeting = match Greeting::open(alloc, roster, clock.now()) {
        Ok(greeting) => greeting,
        Err(NoMemory) => return Err(without_memory()),
    };
    match greeting.run(rt, link, clock, roster, stop) {
        Ok(slot) => Ok((greeting.session, slot)),
        Err(why) => Err(greeting.finish(rt, link, why)),
    }
}

/// The end of a session for which there was no memory.
fn without_memory() -> SessionEnd
    ensures { result ≡ record { why = why.NoMemory; slot = None; generation = 0; messages = 0; updates = 0 } }
{
    SessionEnd {
        why: EndWhy::NoMemory,
        slot: None,
        generation: 0,
        messages: 0,
        updates: 0,
    }
}

impl Greeting {
    /// A session whose OPEN waits for the link.
    fn open(alloc: Global, roster: &Roster, now: u64) -> Result<Greeting, NoMemory>
        ensures { IfOk result (λ greeting. (can_give : ℕ → Bool) (may_stop : Bool) (wire : WireOf) → IsTrue (can_give now)
            → Greets (given_at roster.now can_give may_stop wire) (begun_at now) (now_of greeting wire)) }
    {
        let (session, actions) = Session::open(alloc, roster, now)?;
        let mut out = Outbox::new(alloc);
        out.push(actions.send)?;
        Ok(Greeting {
            session,
            out,
            slot: None,
            messages: 0,
        })
    }

    /// Takes turns until the seat is claimed and the OPEN written, or the session ends.
    fn run<L: Link, C: Clock, R: Wait>(
        &mut self,
        rt: &R,
        link: &mut L,
        clock: &C,
        roster: &Roster,
        stop: &StopMark,
    ) -> Result<Slot, EndWhy>
        ensures { (wire : WireOf) (exchange : Exchange)
            → Greets (given_at roster.now (C.can_give clock.now) stop.now wire) exchange (now_of self.old (⟦<L as Wired>⟧.wire link.old))
            → RunsTo (given_at roster.now (C.can_give clock.now) stop.now wire) (now_of self.new (⟦<L as Wired>⟧.wire link.new)) result }
    {
        for _ in rt.forever() {
            self.out.write_to(rt, link);
            if self.out.has_failed() {
                return Err(EndWhy::LinkFault);
            }
            if let Some(slot) = self.slot {
                if self.out.is_empty() {
                    return Ok(slot);
                }
            }
            if stop.is_set() {
                return Err(EndWhy::Stopped);
            }
            if let Err(why) = self.turn(link, clock, roster) {
                return Err(why);
            }
        }
        unreachable!()
    }

    /// Reads what has come, if the seat isn't claimed yet, and does what is due by the clock.
    fn turn<L: Link, C: Clock>(
        &mut self,
        link: &mut L,
        clock: &C,
        roster: &Roster,
    ) -> Result<(), EndWhy>
        ensures { (may_stop : Bool) (wire : WireOf) (exchange : Exchange)
            → Greets (given_at roster.now (C.can_give clock.now) may_stop wire) exchange (now_of self.old (⟦<L as Wired>⟧.wire link.old))
            → GreetsOn (given_at roster.now (C.can_give clock.now) may_stop wire) (now_of self.new (⟦<L as Wired>⟧.wire link.new)) result }
    {
        if let Err(why) = self.read(link, clock, roster) {
            return Err(why);
        }
        match self.session.clock(clock.now()) {
            Ok(actions) => self.act(actions, 0),
            Err(NoMemory) => Err(EndWhy::NoMemory),
        }
    }

    /// Reads what has come, if the seat isn't claimed yet.
    fn read<L: Link, C: Clock>(
        &mut self,
        link: &mut L,
        clock: &C,
        roster: &Roster,
    ) -> Result<(), EndWhy>
        ensures { (may_stop : Bool) (wire : WireOf) (exchange : Exchange)
            → Greets (given_at roster.now (C.can_give clock.now) may_stop wire) exchange (now_of self.old (⟦<L as Wired>⟧.wire link.old))
            → GreetsOn (given_at roster.now (C.can_give clock.now) may_stop wire) (now_of self.new (⟦<L as Wired>⟧.wire link.new)) result }
    {
        if self.slot.is_some() {
            link.wait(REST);
            return Ok(());
        }
        let mut piece = [0; PIECE];
        match link.read(&mut piece) {
            Ok(LinkRead::Octets(count)) => {
                let (octets, _) = piece.split_at(count);
                match self.session.bytes(roster, octets, clock.now()) {
                    Ok(actions) => {
                        let handled = actions.handled;
                        self.act(actions, handled)
                    }
                    Err(NoMemory) => Err(EndWhy::NoMemory),
                }
            }
            Ok(LinkRead::NotReady) => {
                link.wait(REST);
                Ok(())
            }
            Ok(LinkRead::End) => Err(EndWhy::PeerClosed),
            Err(_) => Err(EndWhy::LinkFault),
        }
    }

    /// Does what the session asks for. So many messages were handled.
    fn act(&mut self, actions: Actions, handled: u64) -> Result<(), EndWhy>
        ensures queues { Queues (doing_of actions) self.old.out self.new.out result }
        ensures slot { self.new.slot ≡ later_of self.old.slot (doing_of actions).claim }
        ensures messages { self.new.messages ≡ counted_on self.old.messages handled }
        ensures session { self.new.session ≡ self.old.session }
    {
        self.messages = self.messages.saturating_add(handled);
        self.slot = later_slot(self.slot, actions.claim);
        match self.out.push(actions.send) {
            Ok(()) => ended_by(&actions.closed),
            Err(NoMemory) => Err(EndWhy::NoMemory),
        }
    }

    /// The session has ended: what waits for the link is tried for about a second.
    fn finish<L: Link, R: Wait>(mut self, rt: &R, link: &mut L, why: EndWhy) -> SessionEnd
        ensures { (given : Given) (exchange : Exchange) → Parts given exchange (now_of self (⟦<L as Wired>⟧.wire link.old)) why
            → IsGreeted given.roster given.can_give given.may_stop given.wire (⟦<L as Wired>⟧.wire link.new) (Err result) }
    {
        self.out.write_last(rt, link);
        SessionEnd {
            why,
            slot: self.slot,
            generation: 0,
            messages: self.messages,
            updates: 0,
        }
    }
}

/// The slot that is claimed now, if one is, or the one that was.
fn later_slot(first: Option<Slot>, second: Option<Slot>) -> Option<Slot>
    ensures { result ≡ later_of first second }
{
    second.or(first)
}
