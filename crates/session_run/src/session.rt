//! A session on a link.

ghost use Rattle.std.specs.Prelude.{◌≡◌, ℕ, ◌<◌, ◌≤◌, List, [], ◌∷◌, ◌++◌, length, OnOk, OnErr};
ghost use Rattle.outbox.specs.Wires.{WireOf};
ghost use Rattle.outbox.specs.Outs.{OutOf};
ghost use Rattle.session_serve.specs.Served.{Claims};
ghost use Rattle.session_run.specs.Sessions.{cease, IsRefused, IsAnswered, IsSession, closed_wire};

use crate::greeting::greet;
use outbox::{Outbox, Wired};
use outside::{Clock, Link, StopMark};
use rcp_base::{NoMemory, Slot};
use roster::Roster;
use seats::{SeatBook, SeatNames, SeatOut};
use session_core::Session;
use session_serve::{EndWhy, SessionEnd, serve_seated};
use std::alloc::Global;
use std::sync::Wait;

/// Serves a link: exchanges OPENs, claims the seat of the peer's router, serves it, gives the seat back and closes the link. The book has a
/// place for each slot of the roster, and a seat of it has one mailbox for each shard of the roster.
///
/// The ends are those of [`greet`] and [`serve_seated`], and `SeatOut` where the book doesn't hold the seat: another session of the
/// router holds it, or it is worn out. Then a Cease is written last (RFC 4271 section 6.7).
pub fn serve_session<B: SeatNames, L: Link, C: Clock, R: Wait>(
    rt: &R,
    alloc: Global,
    link: &mut L,
    clock: &C,
    roster: &Roster,
    book: &SeatBook<B>,
    stop: &StopMark,
) -> SessionEnd
    requires places { length roster.now.members ≤ B.places }
    requires shards { (slot : ℕ) → slot < B.places → length (B.shard_mailboxes slot) ≡ roster.now.shards }
    ensures { (served : WireOf) × ((⟦<L as Wired>⟧.wire link.new) ≡ closed_wire served)
        × IsSession roster.now (C.can_give clock.now) stop.now B.shard_mailboxes B.offer_mailbox (⟦<L as Wired>⟧.wire link.old) served result }
{
    let end = match greet(rt, alloc, link, clock, roster, stop) {
        Ok((session, slot)) => {
            let mut end = claim_and_serve(
                rt, alloc, link, clock, roster, book, stop, session, slot,
            );
            // The OPEN was handled too.
            end.messages = end.messages.saturating_add(1);
            end
        }
        Err(end) => end,
    };
    link.close();
    end
}

/// Claims the seat of the router, and serves it.
fn claim_and_serve<B: SeatNames, L: Link, C: Clock, R: Wait>(
    rt: &R,
    alloc: Global,
    link: &mut L,
    clock: &C,
    roster: &Roster,
    book: &SeatBook<B>,
    stop: &StopMark,
    session: Session,
    slot: Slot,
) -> SessionEnd
    requires claims { Claims slot session }
    requires place { slot < B.places }
    requires shards { length (B.shard_mailboxes slot) ≡ roster.now.shards }
    ensures { IsAnswered roster.now (C.can_give clock.now) stop.now B.shard_mailboxes B.offer_mailbox (⟦<L as Wired>⟧.wire link.old) (⟦<L as Wired>⟧.wire link.new) session slot result }
{
    match book.claim(rt, slot) {
        Ok(mut seat) => {
            let end = serve_seated(rt, alloc, link, clock, roster, session, &mut seat, stop);
            book.give_back(rt, seat);
            end
        }
        Err(out) => refuse(rt, alloc, link, roster, session, out, clock.now()),
    }
}

/// Ends a session whose seat is out with a Cease.
fn refuse<L: Link, R: Wait>(
    rt: &R,
    alloc: Global,
    link: &mut L,
    roster: &Roster,
    session: Session,
    out: SeatOut,
    now: u64,
) -> SessionEnd
    requires { Claims out.slot session }
    ensures { (gone : List (List ℕ)) × (unqueued : List (List ℕ)) × (left : OutOf) × IsRefused out.slot (⟦<L as Wired>⟧.wire link.old) (⟦<L as Wired>⟧.wire link.new) result gone unqueued left }
{
    let slot = out.slot();
    let mut outbox = Outbox::new(alloc);
    let why = match add_cease(roster, session, &mut outbox, now) {
        Ok(()) => EndWhy::SeatOut(out),
        Err(NoMemory) => EndWhy::NoMemory,
    };
    outbox.write_last(rt, link);
    SessionEnd {
        why,
        slot: Some(slot),
        generation: 0,
        messages: 0,
        updates: 0,
    }
}

/// Puts the Cease into an outbox, which is as it was where there is no memory.
fn add_cease(
    roster: &Roster,
    mut session: Session,
    outbox: &mut Outbox,
    now: u64,
) -> Result<(), NoMemory>
    requires { (slot : ℕ) × Claims slot session }
    ensures pushed { OnOk result (outbox.new ≡ record outbox.old { waiting = outbox.old.waiting ++ cease ∷ [] }) }
    ensures refused { OnErr result (outbox.new ≡ outbox.old) }
{
    match session.seated(roster, false, now) {
        Ok(actions) => outbox.push(actions.send),
        Err(NoMemory) => Err(NoMemory),
    }
}
