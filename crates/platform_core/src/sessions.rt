//! The sessions of the open connections, and what comes to them.

ghost use Rattle.std.specs.Prelude.{◌≡◌, ◌<◌, ℕ, true, false, not, length, map, filter, get_or, IfOk, OnOk, Some, None, IfSome, [], if◌then◌else◌};
ghost use Rattle.std.specs.List.{position, remove};
ghost use Rattle.rcp_base.specs.Feed.{moment_of};
ghost use Rattle.rcp_base.specs.Roster.{RosterOf};
ghost use Rattle.rcp_model.specs.LinkState.{same_number};
ghost use Rattle.rcp_model.specs.Sessions.{Moment, End, is_closed, then_also, seat_taken};
ghost use Rattle.feed_meaning.specs.SessionTurns.{simple_turn, octets_turn, slot_named, is_slot};
ghost use Rattle.session_core.specs.Shown.{doing_of};
ghost use Rattle.platform_core.specs.declared.sessions.Connection.{Connection};
ghost use Rattle.platform_core.specs.Open.{connection_in, sessions_in, numbers_of, AreNumbered, AreOpen};
ghost use Rattle.platform_core.specs.Turns.{at_time, timed_in, TookTurn, DoAs};

use crate::turns::Turn;
use bgp_fault::{CEASE, Data, Fault, UNSPECIFIC};
use bgp_msg::notification_message;
use rcp_base::{NoMemory, RouterId, Slot};
use roster::Roster;
use session_core::{Actions, Closed, Session, Why};
use std::alloc::Global;

/// A connection that is open.
#[derive(Drop)]
pub struct Connection {
    pub number: u32,
    pub session: Session,
}

/// The router that the body of an E names.
pub fn slot_named(roster: &Roster, body: &[u8]) -> Option<Slot>
    requires { length body.now ≡ 4 }
    ensures slot { result ≡ slot_named roster.now body.now }
    ensures within { IfSome result (λ slot. slot < length roster.now.members) }
{
    let (octets, _) = body.split_first_chunk::<4>()?;
    roster.slot_of(RouterId(u32::from_be_bytes(*octets)))
}

/// The seconds of a T.
pub fn read_time(body: &[u8]) -> u64
    requires { length body.now ≡ 8 }
    ensures { result ≡ moment_of body.now }
{
    match body.split_first_chunk::<8>() {
        None => 0,
        Some((octets, _)) => u64::from_be_bytes(*octets),
    }
}

/// The place of the connection of a number, by a search by halves: numbers rise.
pub fn place_of(connections: &[Connection], number: u32) -> Option<usize>
    requires { AreNumbered (numbers_of (sessions_in connections.now)) }
    ensures { result ≡ position (λ c. same_number number (connection_in c).0) connections.now }
{
    connections
        .binary_search_by_key(&number, |connection| connection.number)
        .ok()
}

/// Octets come to the session at a place. A seat that it claims is given to it where no connection holds it, and it goes on at once.
pub fn receive(
    connections: &mut Vec<Connection>,
    held: &mut Vec<bool>,
    place: usize,
    roster: &Roster,
    octets: &[u8],
    time: u64,
) -> Result<Turn, NoMemory>
    requires opened { AreOpen connections.old.items held.old.items }
    requires place { place < length connections.old.items }
    requires members { length held.old.items ≡ length roster.now.members }
    ensures turn { IfOk result (λ taken. (c : Connection) → c ≡ get_or connections.old.items place c
        → TookTurn roster.now (octets_turn (at_time roster.now time (sessions_in connections.old.items)) octets.now (connection_in c)) connections.old.items connections.new.items held.new.items place taken) }
    ensures members { length held.new.items ≡ length held.old.items }
{
    let connection = &mut connections[place];
    let number = connection.number;
    let seat = connection.session.seat();
    let actions = connection.session.bytes(roster, octets, time)?;
    match actions.claim {
        None => {
            move_seat(held, &seat, connection.session.seat());
            Ok(Turn {
                number,
                seat,
                actions,
            })
        }
        Some(slot) => {
            let free = !held[usize::from(slot.0)];
            let second = connection.session.seated(roster, free, time)?;
            move_seat(held, &seat, connection.session.seat());
            Ok(Turn {
                number,
                seat: seat_if(free, slot),
                actions: then_also(actions, second)?,
            })
        }
    }
}

/// The connection at a place ends.
pub fn end(connections: &mut Vec<Connection>, held: &mut Vec<bool>, place: usize) -> Turn
    requires opened { AreOpen connections.old.items held.old.items }
    requires place { place < length connections.old.items }
    ensures turn { (roster : RosterOf) → length held.old.items ≡ length roster.members → (c : Connection) → c ≡ get_or connections.old.items place c
        → TookTurn roster (simple_turn roster End (connection_in c)) connections.old.items connections.new.items held.new.items place result }
    ensures members { length held.new.items ≡ length held.old.items }
{
    let connection = &mut connections[place];
    let number = connection.number;
    let seat = connection.session.seat();
    let actions = connection.session.end();
    move_seat(held, &seat, connection.session.seat());
    Turn {
        number,
        seat,
        actions,
    }
}

/// The time comes to each session, by rising number. Gives the turns that do something.
pub fn tick_all(
    connections: &mut Vec<Connection>,
    held: &mut Vec<bool>,
    time: u64,
    turns: &mut Vec<Turn>,
) -> Result<(), NoMemory>
    requires opened { AreOpen connections.old.items held.old.items }
    requires none { turns.old.items ≡ [] }
    ensures opened { OnOk result (AreOpen connections.new.items held.new.items) }
    ensures members { length held.new.items ≡ length held.old.items }
    ensures sessions { (roster : RosterOf) → length held.old.items ≡ length roster.members → OnOk result (sessions_in connections.new.items ≡ map (timed_in roster time) (sessions_in connections.old.items)) }
    ensures turns { (roster : RosterOf) → length held.old.items ≡ length roster.members
        → OnOk result (DoAs roster (map (simple_turn roster (Moment time)) (sessions_in connections.old.items)) turns.new.items) }
{
    for place in 0..connections.len() {
        let turn = tick(connections, held, place, time)?;
        if turn.does_something() {
            turns.push(turn)?;
        }
    }
    Ok(())
}

/// The time comes to the session at a place.
fn tick(
    connections: &mut Vec<Connection>,
    held: &mut Vec<bool>,
    place: usize,
    time: u64,
) -> Result<Turn, NoMemory>
    requires opened { AreOpen connections.old.items held.old.items }
    requires place { place < length connections.old.items }
    ensures turn { IfOk result (λ taken. (roster : RosterOf) → length held.old.items ≡ length roster.members → (c : Connection) → c ≡ get_or connections.old.items place c
        → TookTurn roster (simple_turn roster (Moment time) (connection_in c)) connections.old.items connections.new.items held.new.items place taken) }
    ensures members { length held.new.items ≡ length held.old.items }
{
    let connection = &mut connections[place];
    let number = connection.number;
    let seat = connection.session.seat();
    let actions = connection.session.clock(time)?;
    move_seat(held, &seat, connection.session.seat());
    Ok(Turn {
        number,
        seat,
        actions,
    })
}

/// The connection at a place is taken away where its session is closed.
pub fn close(connections: &mut Vec<Connection>, place: usize)
    requires { place < length connections.old.items }
    ensures { (c : Connection) → c ≡ get_or connections.old.items place c
        → connections.new.items ≡ (if is_closed c.session.state.phase then remove connections.old.items place else connections.old.items) }
{
    if connections[place].session.is_closed() {
        connections.remove(place);
    }
}

/// The connections are taken away whose sessions are closed.
pub fn close_all(connections: &mut Vec<Connection>)
    ensures { connections.new.items ≡ filter (λ c. not (is_closed c.session.state.phase)) connections.old.items }
{
    connections.retain(|connection| !connection.session.is_closed());
}

/// A session that held one seat holds another, or none.
pub fn move_seat(held: &mut Vec<bool>, before: &Option<Slot>, now: Option<Slot>)
    requires before { IfSome before.now (λ slot. slot < length held.old.items) }
    requires now { IfSome now (λ slot. slot < length held.old.items) }
    ensures members { length held.new.items ≡ length held.old.items }
    ensures seats { (slot : ℕ) → get_or held.new.items slot false
        ≡ (if is_slot slot now then true else (if is_slot slot before.now then false else get_or held.old.items slot false)) }
{
    if let Some(slot) = *before {
        held[usize::from(slot.0)] = false;
    }
    if let Some(slot) = now {
        held[usize::from(slot.0)] = true;
    }
}

/// A seat that is given where it is free.
fn seat_if(free: bool, slot: Slot) -> Option<Slot>
    ensures { result ≡ (if free then Some slot else None) }
{
    if free { Some(slot) } else { None }
}

/// The turn of a connection whose seat is taken: Cease is sent (RFC 4271 section 6.7), and it ends.
pub fn refused(alloc: Global, number: u32) -> Result<Turn, NoMemory>
    ensures number { IfOk result (λ taken. taken.number ≡ number) }
    ensures seat { IfOk result (λ taken. taken.seat ≡ None) }
    ensures does { IfOk result (λ taken. doing_of taken.actions ≡ seat_taken.does) }
{
    let fault = Fault {
        code: CEASE,
        sub: UNSPECIFIC,
        extra: Data::None,
    };
    let mut send = Vec::new(alloc);
    send.push(notification_message(alloc, &fault, &[])?)?;
    Ok(Turn {
        number,
        seat: None,
        actions: Actions {
            send,
            events: Vec::new(alloc),
            claim: None,
            closed: Some(Closed {
                why: Why::SeatOut,
                code: CEASE,
                sub: UNSPECIFIC,
            }),
            handled: 0,
        },
    })
}

/// One thing and then another.
fn then_also(first: Actions, second: Actions) -> Result<Actions, NoMemory>
    ensures { IfOk result (λ both. doing_of both ≡ then_also (doing_of first) (doing_of second)) }
{
    let mut send = first.send;
    let mut more = second.send;
    send.append(&mut more)?;
    let mut events = first.events;
    let mut others = second.events;
    events.append(&mut others)?;
    Ok(Actions {
        send,
        events,
        claim: second.claim.or(first.claim),
        closed: second.closed.or(first.closed),
        handled: first.handled.saturating_add(second.handled),
    })
}
