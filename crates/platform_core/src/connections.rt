//! The open connections, by rising number, each with its session, and the seats that they hold.

ghost use Rattle.std.specs.Prelude.{◌≡◌, ◌≢◌, ◌<◌, ◌∷◌, [], true, false, length, map, All, IfOk, None};
ghost use Rattle.std.specs.List.{AllByRecursion, AllPairs};
ghost use Rattle.rcp_base.specs.Feed.{has_length, begins, moment_of};
ghost use Rattle.rcp_base.specs.Roster.{RosterOf};
ghost use Rattle.rcp_model.specs.Sessions.{Moment, End, begun};
ghost use Rattle.feed_meaning.specs.SessionTurns.{turn, ready_turn, slot_named, octets_turn, simple_turn, connection_at};

use crate::sessions::{
    Connection, close, close_all, end, move_seat, place_of, read_time, receive, refused,
    slot_named, tick_all,
};
use crate::turns::Turn;
use feed_format::{Kind, Record};
use rcp_base::{NoMemory, Slot};
use roster::Roster;
use session_core::Session;
use std::alloc::Global;
use std::marker::Model;

/// The open connections. Contracts see the sessions by rising number, and for how many routers there are seats.
#[derive(Drop)]
pub struct Connections {
    alloc: Global,
    /// By rising number. A new one has the greatest and one seldom ends, so a list with a search by halves serves.
    pub(crate) connections: Vec<Connection>,
    /// Whether a connection holds the seat of each slot.
    held: Vec<bool>,
    is_spent: bool,
}

/// The connections whose routers are connected, by rising number, and the slots of these routers.
#[derive(Drop)]
pub struct Established {
    pub numbers: Vec<u32>,
    pub slots: Vec<Slot>,
}

impl Model for Connections {
    ghost use Rattle.std.specs.Prelude.{◌≡◌, false, length};
    ghost use Rattle.platform_core.specs.Open.{OpenOf, open_code, sessions_in, AreOpen};

    ghost Value = { OpenOf };

    ghost coded = { open_code };

    ghost view = { λ c. record { sessions = sessions_in c.connections.items; members = length c.held.items; spent = c.is_spent } };

    ghost invariant = { λ c. c.is_spent ≡ false → AreOpen c.connections.items c.held.items };
}

impl Connections {
    ghost use Rattle.std.specs.Prelude.{ℕ};
    ghost use Rattle.platform_core.specs.Open.{established_in};
    ghost use Rattle.platform_core.specs.Turns.{Take, at_time, turns_at};

    /// No connection is open, and the seats of so many routers are free.
    pub fn new(alloc: Global, members: u16) -> Result<Connections, NoMemory>
        ensures { IfOk result (λ connections. connections ≡ record { sessions = []; members = members; spent = false }) }
    {
        Ok(Connections {
            alloc,
            connections: Vec::new(alloc),
            held: vec![in alloc; false; usize::from(members)]?,
            is_spent: false,
        })
    }

    /// The turns of the sessions at a record, which comes at a time in seconds. Those that do nothing may be left out. A T has its own time.
    ///
    /// The roster is that of the seats, the body has the length of its kind, and a connection that is opened has a number above those of the
    /// open ones. A search by halves finds the connection of a record. A T goes over all connections.
    pub fn turns(
        &mut self,
        roster: &Roster,
        item: &Record,
        time: u64,
    ) -> Result<Vec<Turn>, NoMemory>
        requires fresh { self.old.spent ≡ false }
        requires members { self.old.members ≡ length roster.now.members }
        requires body { has_length item.now.kind (length item.now.body) ≡ true }
        requires number { begins item.now.kind ≡ true → AllByRecursion (λ entry. entry.0 < item.now.source) self.old.sessions }
        ensures { IfOk result (λ taken. Take roster.now (turns_at roster.now time self.old.sessions item.now) self.old self.new taken.items) }
    {
        match item.kind {
            Kind::Ready => self.open_established(roster, item.source, &item.body),
            Kind::Raw => self.open_new(roster, item.source, time),
            Kind::Octets => self.receive(roster, item.source, &item.body, time),
            Kind::Closed => self.end(item.source),
            Kind::Time => self.pass(read_time(&item.body)),
            _ => Ok(Vec::new(self.alloc)),
        }
    }

    /// The connections whose routers are connected.
    pub fn established(&self) -> Result<Established, NoMemory>
        requires { self.now.spent ≡ false }
        ensures numbers { IfOk result (λ found. found.numbers.items ≡ map (λ entry. entry.0) (established_in self.now.sessions)) }
        ensures slots { IfOk result (λ found. found.slots.items ≡ map (λ entry. entry.1) (established_in self.now.sessions)) }
        ensures within { IfOk result (λ found. All (λ slot. slot < self.now.members) found.slots.items) }
        ensures distinct { IfOk result (λ found. AllPairs (λ a b. a ≢ b) found.slots.items) }
    {
        let mut numbers = Vec::with_capacity(self.alloc, self.connections.len())?;
        let mut slots = Vec::with_capacity(self.alloc, self.connections.len())?;
        for connection in &self.connections {
            if let Some(slot) = connection.session.connected() {
                numbers.push(connection.number)?;
                slots.push(slot)?;
            }
        }
        Ok(Established { numbers, slots })
    }

    /// A connection of an established router is opened. Where the seat of the router is taken it is closed at once.
    fn open_established(
        &mut self,
        roster: &Roster,
        number: u32,
        body: &[u8],
    ) -> Result<Vec<Turn>, NoMemory>
        requires fresh { self.old.spent ≡ false }
        requires members { self.old.members ≡ length roster.now.members }
        requires router { length body.now ≡ 4 }
        requires new { AllByRecursion (λ entry. entry.0 < number) self.old.sessions }
        ensures { IfOk result (λ taken. (time : ℕ) → Take roster.now (ready_turn (at_time roster.now time self.old.sessions) number (slot_named roster.now body.now)) self.old self.new taken.items) }
    {
        let Some(slot) = slot_named(roster, body) else {
            return Ok(Vec::new(self.alloc));
        };
        if self.held[usize::from(slot.0)] {
            return just(self.alloc, refused(self.alloc, number)?);
        }
        self.is_spent = true;
        let (session, actions) = Session::established(self.alloc, roster, slot)?;
        self.connections.push(Connection { number, session })?;
        move_seat(&mut self.held, &None, Some(slot));
        self.is_spent = false;
        let turn = Turn {
            number,
            seat: Some(slot),
            actions,
        };
        just(self.alloc, turn)
    }

    /// A connection is opened, with the platform's OPEN.
    fn open_new(&mut self, roster: &Roster, number: u32, time: u64) -> Result<Vec<Turn>, NoMemory>
        requires fresh { self.old.spent ≡ false }
        requires members { self.old.members ≡ length roster.now.members }
        requires new { AllByRecursion (λ entry. entry.0 < number) self.old.sessions }
        ensures { IfOk result (λ taken. Take roster.now (turn number None (begun roster.now time) ∷ []) self.old self.new taken.items) }
    {
        self.is_spent = true;
        let (session, actions) = Session::open(self.alloc, roster, time)?;
        self.connections.push(Connection { number, session })?;
        self.is_spent = false;
        let turn = Turn {
            number,
            seat: None,
            actions,
        };
        just(self.alloc, turn)
    }

    /// Octets come on a connection, if it is open.
    fn receive(
        &mut self,
        roster: &Roster,
        number: u32,
        octets: &[u8],
        time: u64,
    ) -> Result<Vec<Turn>, NoMemory>
        requires fresh { self.old.spent ≡ false }
        requires members { self.old.members ≡ length roster.now.members }
        ensures { IfOk result (λ taken. Take roster.now (map (octets_turn (at_time roster.now time self.old.sessions) octets.now) (connection_at self.old.sessions number)) self.old self.new taken.items) }
    {
        let Some(place) = place_of(&self.connections, number) else {
            return Ok(Vec::new(self.alloc));
        };
        self.is_spent = true;
        let turn = receive(
            &mut self.connections,
            &mut self.held,
            place,
            roster,
            octets,
            time,
        )?;
        close(&mut self.connections, place);
        self.is_spent = false;
        just(self.alloc, turn)
    }

    /// A connection ends, if it is open.
    fn end(&mut self, number: u32) -> Result<Vec<Turn>, NoMemory>
        requires { self.old.spent ≡ false }
        ensures { IfOk result (λ taken. (roster : RosterOf) → self.old.members ≡ length roster.members
            → Take roster (map (simple_turn roster End) (connection_at self.old.sessions number)) self.old self.new taken.items) }
    {
        let Some(place) = place_of(&self.connections, number) else {
            return Ok(Vec::new(self.alloc));
        };
        self.is_spent = true;
        let turn = end(&mut self.connections, &mut self.held, place);
        close(&mut self.connections, place);
        self.is_spent = false;
        just(self.alloc, turn)
    }

    /// The time comes to each session.
    fn pass(&mut self, time: u64) -> Result<Vec<Turn>, NoMemory>
        requires { self.old.spent ≡ false }
        ensures { IfOk result (λ taken. (roster : RosterOf) → self.old.members ≡ length roster.members
            → Take roster (map (simple_turn roster (Moment time)) self.old.sessions) self.old self.new taken.items) }
    {
        let mut turns = Vec::new(self.alloc);
        self.is_spent = true;
        tick_all(&mut self.connections, &mut self.held, time, &mut turns)?;
        close_all(&mut self.connections);
        self.is_spent = false;
        Ok(turns)
    }
}

/// One turn.
fn just(alloc: Global, turn: Turn) -> Result<Vec<Turn>, NoMemory>
    ensures { IfOk result (λ turns. turns.items ≡ turn ∷ []) }
{
    let mut turns = Vec::new(alloc);
    turns.push(turn)?;
    Ok(turns)
}
