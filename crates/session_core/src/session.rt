//! A session, and what comes to it.

ghost use Rattle.std.specs.Prelude.{◌≡◌, ◌<◌, ◌++◌, true, false, [], length, IfOk, OnOk, OnErr, if◌then◌else◌, ◌≢◌};
ghost use Rattle.rcp_base.specs.Roster.{RosterOf};
ghost use Rattle.rcp_model.specs.Sessions.{Octets, Seat, Moment, End, answer, begun, begun_established, course_of, seated, seat_taken, claim_answered, is_closed, OpenConfirm, Closed as ClosedPhase, seat_of, slot_in};
ghost use Rattle.session_core.specs.Shown.{doing_of, phase_of, terms_of};
ghost use Rattle.session_core.specs.Held.{Answers, AnswersOn, IsEnded, RunsOn};
ghost use Rattle.session_core.specs.Counts.{handled_in, handled_at, confirmed};

use crate::actions::{Actions, Closed, Why};
use crate::events::tell_up;
use crate::reading::read_on;
use crate::sending::{close_by, send, send_keepalive};
use crate::state::{Claim, Negotiated, Peering, State};
use crate::timers::tick;
use bgp_fault::{CEASE, Data, Fault, UNSPECIFIC};
use bgp_msg::{OpenBody, open_message};
use rcp_base::{NoMemory, Slot};
use roster::Roster;
use std::alloc::Global;
use std::marker::Model;

/// A session with a router.
#[derive(Drop)]
pub struct Session {
    alloc: Global,
    state: State,
    kept: Vec<u8>,
    latest: u64,
    spent: bool,
}

impl Model for Session {
    ghost use Rattle.session_core.specs.Held.{Held};
    ghost use Rattle.session_core.specs.Shown.{phase_of};

    ghost Value = { Held };

    ghost view = { λ s. record { spent = s.spent; state = record { phase = phase_of s.state; kept = s.kept.items; latest = s.latest } } };
}

impl Session {
    /// A session begins at a time, in seconds, with the platform's OPEN.
    pub fn open(alloc: Global, roster: &Roster, now: u64) -> Result<(Session, Actions), NoMemory>
        ensures does { IfOk result (λ opened. begun roster.now now ≡ record { after = opened.0.state; does = doing_of opened.1 }) }
        ensures unspent { IfOk result (λ opened. opened.0.spent ≡ false) }
    {
        let open = OpenBody {
            as_number: roster.as_number() as u16,
            hold: roster.hold(),
            id: roster.id(),
        };
        let mut actions = Actions::none(alloc);
        send(&mut actions, open_message(alloc, &open)?)?;
        let session = Session::begun(alloc, State::OpenSent { since: now }, now);
        Ok((session, actions))
    }

    /// A session that is established from its beginning with the router of a slot, without timers.
    pub fn established(
        alloc: Global,
        roster: &Roster,
        slot: Slot,
    ) -> Result<(Session, Actions), NoMemory>
        requires { slot < length roster.now.members }
        ensures does { IfOk result (λ opened. begun_established slot ≡ record { after = opened.0.state; does = doing_of opened.1 }) }
        ensures unspent { IfOk result (λ opened. opened.0.spent ≡ false) }
    {
        let mut actions = Actions::none(alloc);
        tell_up(&mut actions)?;
        let peering = Peering {
            slot,
            negotiated: Negotiated { hold: 0 },
            read: 0,
            sent: 0,
        };
        let session = Session::begun(alloc, State::Established(peering), 0);
        Ok((session, actions))
    }

    /// A session that begins in a state.
    fn begun(alloc: Global, state: State, now: u64) -> Session
        ensures { result ≡ record { spent = false; state = record { phase = phase_of state; kept = []; latest = now } } }
    {
        Session {
            alloc,
            state,
            kept: Vec::new(alloc),
            latest: now,
            spent: false,
        }
    }

    /// The slot of the router whose seat the session holds: in OpenConfirm and in Established.
    pub fn seat(&self) -> Option<Slot>
        ensures { result ≡ seat_of self.now.state.phase }
    {
        match self.state {
            State::OpenConfirm(peering) | State::Established(peering) => Some(peering.slot),
            _ => None,
        }
    }

    /// The slot of the router that is connected: in Established.
    pub fn connected(&self) -> Option<Slot>
        ensures { result ≡ slot_in self.now.state.phase }
    {
        match self.state {
            State::Established(peering) => Some(peering.slot),
            _ => None,
        }
    }

    /// Whether the session is closed for good.
    pub fn is_closed(&self) -> bool
        ensures { result ≡ is_closed self.now.state.phase }
    {
        self.state.is_closed()
    }

    /// Octets came at a time, in seconds; one below the latest counts as that. Whole messages are handled in order, and
    /// a faulty header with its 19th octet. In Claiming they are kept. On a closed session nothing is done.
    ///
    /// `NoMemory` spends the session: each later call answers it, but for `end`. It never comes on a closed session that
    /// isn't spent.
    pub fn bytes(&mut self, roster: &Roster, piece: &[u8], now: u64) -> Result<Actions, NoMemory>
        ensures answered { IfOk result (λ actions. Answers (answer roster.now (Octets piece.now now) self.old.state) self.old self.new actions) }
        ensures handled { IfOk result (λ actions. actions.handled ≡ handled_at roster.now (Octets piece.now now) self.old.state) }
        ensures spent { OnErr result (self.new.spent ≡ true) }
        ensures want { OnErr result (self.old.spent ≡ false → is_closed self.old.state.phase ≡ false) }
    {
        if self.spent {
            return Err(NoMemory);
        }
        let mut actions = Actions::none(self.alloc);
        if self.state.is_closed() {
            return Ok(actions);
        }
        self.spent = true;
        self.latest = self.latest.max(now);
        let handled = self.read_piece(roster, piece, &mut actions)?;
        actions.handled = handled;
        self.spent = false;
        Ok(actions)
    }

    /// The claim is answered at a time, in seconds: the seat is free, or taken. Where it is free a KEEPALIVE is sent, and
    /// the octets that were kept are read at this time; else Cease is sent (RFC 4271 section 6.7), and the session is
    /// closed. Where no claim waits nothing is done.
    ///
    /// `NoMemory` spends the session: each later call answers it, but for `end`. It never comes on a closed session that
    /// isn't spent.
    pub fn seated(&mut self, roster: &Roster, free: bool, now: u64) -> Result<Actions, NoMemory>
        ensures answered { IfOk result (λ actions. Answers (answer roster.now (Seat free now) self.old.state) self.old self.new actions) }
        ensures handled { IfOk result (λ actions. actions.handled ≡ handled_at roster.now (Seat free now) self.old.state) }
        ensures spent { OnErr result (self.new.spent ≡ true) }
        ensures want { OnErr result (self.old.spent ≡ false → is_closed self.old.state.phase ≡ false) }
    {
        if self.spent {
            return Err(NoMemory);
        }
        let mut actions = Actions::none(self.alloc);
        if self.state.is_closed() {
            return Ok(actions);
        }
        self.spent = true;
        self.latest = self.latest.max(now);
        let handled = self.answer_claim(roster, free, &mut actions)?;
        actions.handled = handled;
        self.spent = false;
        Ok(actions)
    }

    /// Does what is due at a time, in seconds; one below the latest counts as that. The session is closed where the
    /// hold time has passed since a message was last read, or 240 seconds since it was opened and no claim was answered.
    /// Else a KEEPALIVE is sent where a third of the hold time has passed since the last one.
    ///
    /// `NoMemory` spends the session: each later call answers it, but for `end`. It comes only where a message is to be
    /// sent, or the session was spent.
    pub fn clock(&mut self, now: u64) -> Result<Actions, NoMemory>
        ensures answered { IfOk result (λ actions. (roster : RosterOf) → Answers (answer roster (Moment now) self.old.state) self.old self.new actions) }
        ensures spent { OnErr result (self.new.spent ≡ true) }
        ensures want { OnErr result (self.old.spent ≡ false → (roster : RosterOf) → (answer roster (Moment now) self.old.state).does.sent ≢ []) }
    {
        if self.spent {
            return Err(NoMemory);
        }
        let mut actions = Actions::none(self.alloc);
        if self.state.is_closed() {
            return Ok(actions);
        }
        self.spent = true;
        self.latest = self.latest.max(now);
        let state = tick(self.alloc, self.state, self.latest, &mut actions)?;
        self.move_to(state);
        self.spent = false;
        Ok(actions)
    }

    /// The connection ended. It takes no memory, and the lists that it answers are empty. A spent session is closed too.
    pub fn end(&mut self) -> Actions
        ensures unspent { self.old.spent ≡ false → (roster : RosterOf) → Answers (answer roster End self.old.state) self.old self.new result }
        ensures spent { self.old.spent ≡ true → IsEnded self.new result }
    {
        let mut actions = Actions::none(self.alloc);
        if !self.spent && self.state.is_closed() {
            return actions;
        }
        self.spent = false;
        self.move_to(State::Closed);
        actions.closed = Some(Closed {
            why: Why::End,
            code: 0,
            sub: 0,
        });
        actions
    }

    /// Goes to a state. What was kept is let go with the last one.
    fn move_to(&mut self, state: State)
        ensures spent { self.new.spent ≡ self.old.spent }
        ensures state { self.new.state ≡ record {
          phase = phase_of state;
          kept = if is_closed (phase_of state) then [] else self.old.state.kept;
          latest = self.old.state.latest;
        } }
    {
        self.state = state;
        if state.is_closed() {
            self.kept.clear();
        }
    }

    /// Reads the octets that are kept and the piece after them, and answers how many messages of them were handled. Where
    /// none are kept, the messages are read in the piece itself, and only what is left of it is copied.
    fn read_piece(
        &mut self,
        roster: &Roster,
        piece: &[u8],
        actions: &mut Actions,
    ) -> Result<u64, NoMemory>
        ensures runs { OnOk result (RunsOn (course_of roster.now self.old.state.latest (self.old.state.kept ++ piece.now) self.old.state.phase) self.old self.new actions.old actions.new) }
        ensures handled { IfOk result (λ count. count ≡ handled_in roster.now self.old.state.latest (self.old.state.kept ++ piece.now) self.old.state.phase) }
        ensures spent { self.new.spent ≡ self.old.spent }
    {
        if !self.kept.is_empty() {
            self.kept.extend_from_slice(piece)?;
            return self.read_kept(roster, actions);
        }
        let read = read_on(self.alloc, roster, self.state, piece, self.latest, actions)?;
        let (_, rest) = piece.split_at(read.taken);
        self.kept.extend_from_slice(rest)?;
        self.state = read.state;
        Ok(read.handled)
    }

    /// Reads the octets that are kept, and answers how many messages of them were handled.
    fn read_kept(&mut self, roster: &Roster, actions: &mut Actions) -> Result<u64, NoMemory>
        ensures runs { OnOk result (RunsOn (course_of roster.now self.old.state.latest self.old.state.kept self.old.state.phase) self.old self.new actions.old actions.new) }
        ensures handled { IfOk result (λ count. count ≡ handled_in roster.now self.old.state.latest self.old.state.kept self.old.state.phase) }
        ensures spent { self.new.spent ≡ self.old.spent }
    {
        let read = read_on(
            self.alloc,
            roster,
            self.state,
            &self.kept,
            self.latest,
            actions,
        )?;
        self.state = read.state;
        self.kept.rotate_left(read.taken);
        self.kept.truncate(self.kept.len() - read.taken);
        Ok(read.handled)
    }

    /// The claim that waits is answered, if one does. Answers how many messages were handled.
    fn answer_claim(
        &mut self,
        roster: &Roster,
        free: bool,
        actions: &mut Actions,
    ) -> Result<u64, NoMemory>
        requires { is_closed self.old.state.phase ≡ false }
        ensures handled { IfOk result (λ count. count ≡ handled_in roster.now self.old.state.latest self.old.state.kept (confirmed free self.old.state.latest self.old.state.phase)) }
        ensures answered { OnOk result (AnswersOn (claim_answered roster.now free self.old.state.latest self.old.state.kept self.old.state.phase) self.old self.new actions.old actions.new) }
        ensures spent { self.new.spent ≡ self.old.spent }
    {
        match self.state {
            State::Claiming(claim) => {
                if free {
                    self.take_seat(roster, claim, actions)
                } else {
                    self.give_up(actions)?;
                    Ok(0)
                }
            }
            _ => Ok(0),
        }
    }

    /// The seat is the session's. Answers how many messages were handled.
    fn take_seat(
        &mut self,
        roster: &Roster,
        claim: Claim,
        actions: &mut Actions,
    ) -> Result<u64, NoMemory>
        ensures handled { IfOk result (λ count. count ≡ handled_in roster.now self.old.state.latest self.old.state.kept
            (OpenConfirm (record { slot = claim.slot; negotiated = terms_of claim.negotiated; read = self.old.state.latest; sent = self.old.state.latest }))) }
        ensures runs { OnOk result (RunsOn (seated roster.now self.old.state.latest self.old.state.kept
            (record { slot = claim.slot; negotiated = terms_of claim.negotiated; read = self.old.state.latest; sent = self.old.state.latest })) self.old self.new actions.old actions.new) }
        ensures spent { self.new.spent ≡ self.old.spent }
    {
        send_keepalive(self.alloc, actions)?;
        self.state = State::OpenConfirm(Peering {
            slot: claim.slot,
            negotiated: claim.negotiated,
            read: self.latest,
            sent: self.latest,
        });
        self.read_kept(roster, actions)
    }

    /// The seat is another session's.
    fn give_up(&mut self, actions: &mut Actions) -> Result<(), NoMemory>
        ensures runs { OnOk result (RunsOn (record { phase = ClosedPhase; kept = []; does = seat_taken.does }) self.old self.new actions.old actions.new) }
        ensures spent { self.new.spent ≡ self.old.spent }
    {
        let fault = Fault {
            code: CEASE,
            sub: UNSPECIFIC,
            extra: Data::None,
        };
        close_by(self.alloc, actions, Why::SeatOut, &fault, &[])?;
        self.move_to(State::Closed);
        Ok(())
    }
}
