//! What comes of turns: the shards learn of it, and it is put out.

ghost use Rattle.std.specs.Prelude.{◌≡◌, ◌++◌, ◌<◌, length, map, option_map, IfSome, OnOk};
ghost use Rattle.std.specs.List.{AllByRecursion, flat_map};
ghost use Rattle.rcp_model.specs.Sessions.{Doing};
ghost use Rattle.rcp_model.specs.Telling.{IsTold};
ghost use Rattle.session_core.specs.Shown.{event_of, ending_of};
ghost use Rattle.platform_laws.specs.Parts.{shards_after_all};
ghost use Rattle.platform_laws.specs.Turns.{shard_event, events_of_seat, end_of_seat};
ghost use Rattle.rcs_shards.specs.Servers.{acted};
ghost use Rattle.platform_core.specs.Turns.{IsInForm, events_in, output_in};
ghost use Rattle.platform_core.specs.Following.{Keeps};

use crate::output::Outputs;
use crate::turns::Turn;
use rcp_base::{NoMemory, Slot};
use rcs_shards::Shards;
use session_core::{Actions, Closed, SessionEvent};

/// The turns of a record, one after another.
pub fn carry_out_all(
    turns: Vec<Turn>,
    shards: &mut Shards,
    out: &mut Outputs,
) -> Result<(), NoMemory>
    requires { AllByRecursion (IsInForm shards.old.roster) turns.items }
    ensures shards { OnOk result (shards.new.shards ≡ shards_after_all shards.old.roster (flat_map events_in turns.items) shards.old.shards) }
    ensures output { OnOk result (out.new ≡ out.old ++ flat_map output_in turns.items) }
    ensures kept { Keeps shards.old shards.new }
{
    for turn in turns {
        carry_out(turn, shards, out)?;
    }
    Ok(())
}

/// The shards learn of what the router says, and of the end of its session. The messages and the end are put out.
fn carry_out(turn: Turn, shards: &mut Shards, out: &mut Outputs) -> Result<(), NoMemory>
    requires { IsInForm shards.old.roster turn }
    ensures shards { OnOk result (shards.new.shards ≡ shards_after_all shards.old.roster (events_in turn) shards.old.shards) }
    ensures output { OnOk result (out.new ≡ out.old ++ output_in turn) }
    ensures kept { Keeps shards.old shards.new }
{
    let Turn {
        number,
        seat,
        actions,
    } = turn;
    let Actions {
        send,
        events,
        claim: _,
        closed,
        handled: _,
    } = actions;
    learn(shards, seat, events, &closed)?;
    out.add_messages(number, send)?;
    out.add_end(number, closed)
}

/// The shards learn of what the router of a seat says, and of the end of its session.
fn learn(
    shards: &mut Shards,
    seat: Option<Slot>,
    events: Vec<SessionEvent>,
    closed: &Option<Closed>,
) -> Result<(), NoMemory>
    requires told { AllByRecursion (λ event. IsTold shards.old.roster.as_number (event_of event)) events.items }
    requires member { IfSome seat (λ slot. slot < length shards.old.roster.members) }
    ensures shards { (does : Doing) → does.events ≡ map event_of events.items → does.closed ≡ option_map ending_of closed.now
        → OnOk result (shards.new.shards ≡ shards_after_all shards.old.roster (events_of_seat seat does) shards.old.shards) }
    ensures kept { Keeps shards.old shards.new }
{
    match seat {
        None => Ok(()),
        Some(slot) => {
            take_events(shards, slot, events)?;
            end_if(shards, slot, closed);
            Ok(())
        }
    }
}

/// The session of a slot's router ended, if so.
fn end_if(shards: &mut Shards, slot: Slot, closed: &Option<Closed>)
    requires { slot < length shards.old.roster.members }
    ensures shards { shards.new.shards ≡ shards_after_all shards.old.roster (end_of_seat slot (option_map ending_of closed.now)) shards.old.shards }
    ensures kept { Keeps shards.old shards.new }
{
    if closed.is_some() {
        shards.down(slot);
    }
}

/// The shards learn of what the router of a slot says, in order.
fn take_events(shards: &mut Shards, slot: Slot, events: Vec<SessionEvent>) -> Result<(), NoMemory>
    requires told { AllByRecursion (λ event. IsTold shards.old.roster.as_number (event_of event)) events.items }
    requires member { slot < length shards.old.roster.members }
    ensures shards { OnOk result (shards.new.shards ≡ shards_after_all shards.old.roster (map (λ event. shard_event slot (event_of event)) events.items) shards.old.shards) }
    ensures kept { Keeps shards.old shards.new }
{
    for event in events {
        take_event(shards, slot, event)?;
    }
    Ok(())
}

/// The shards learn of one thing that the router of a slot says.
fn take_event(shards: &mut Shards, slot: Slot, event: SessionEvent) -> Result<(), NoMemory>
    requires told { IsTold shards.old.roster.as_number (event_of event) }
    requires member { slot < length shards.old.roster.members }
    ensures shards { OnOk result (shards.new ≡ acted (shard_event slot (event_of event)) shards.old) }
    ensures kept { Keeps shards.old shards.new }
{
    match event {
        SessionEvent::Up => shards.up(slot),
        SessionEvent::Announce { prefix, route } => shards.announce(slot, prefix, route)?,
        SessionEvent::Withdraw { prefix } => shards.withdraw(slot, prefix),
    }
    Ok(())
}
