//! What each state does with each message (RFC 4271 section 8.2.2).

ghost use Rattle.std.specs.Prelude.{◌≡◌, ◌+◌, ◌≤◌, length, IfOk};
ghost use Rattle.bgp_msg.specs.HeaderFields.{IsLengthOf};
ghost use Rattle.rcp_model.specs.Messages.{message_octets};
ghost use Rattle.rcp_model.specs.Sessions.{handle, opened, updated, notified, refused};
ghost use Rattle.session_core.specs.declared.table.Rule.TheVariants.{Take, Obey};
ghost use Rattle.session_core.specs.Rules.{in_open_sent, in_open_confirm, in_established};
ghost use Rattle.session_core.specs.Shown.{reading_phase, peering_of};
ghost use Rattle.session_core.specs.Steps.{Takes};

use crate::actions::{Actions, Closed, Why};
use crate::events::{tell_changes, tell_up};
use crate::opening::read_peer_open;
use crate::sending::close_by;
use crate::state::{Claim, Negotiated, Peering, Reading, State};
use crate::table::{ESTABLISHED, OPEN_CONFIRM, OPEN_SENT, Rule, find_rule};
use crate::update::{Unread, read_body};
use bgp_fault::{Data, FINITE_STATE_MACHINE_ERROR, Fault, UNSPECIFIC};
use bgp_msg::{Message, read_notification};
use rcp_base::NoMemory;
use roster::Roster;
use std::alloc::Global;

/// Handles a whole message in a state that reads messages, and answers the next state.
pub fn handle(
    alloc: Global,
    roster: &Roster,
    reading: Reading,
    message: Message<'_>,
    now: u64,
    actions: &mut Actions,
) -> Result<State, NoMemory>
    requires { IsLengthOf message.kind (19 + length message.body.now) }
    ensures { IfOk result (λ next. Takes (handle roster.now now (message_octets message.entry.kind message.entry.body.now) (reading_phase reading)) actions.old next actions.new) }
{
    let Message { kind, body } = message;
    match reading {
        Reading::OpenSent { since } => {
            let rule = find_rule(OPEN_SENT, kind);
            in_open_sent(alloc, roster, since, rule, body, actions)
        }
        Reading::OpenConfirm(peering) => {
            let peering = Peering {
                read: now,
                ..peering
            };
            let rule = find_rule(OPEN_CONFIRM, kind);
            in_open_confirm(alloc, peering, rule, body, actions)
        }
        Reading::Established(peering) => {
            let peering = Peering {
                read: now,
                ..peering
            };
            let rule = find_rule(ESTABLISHED, kind);
            in_established(alloc, roster, peering, rule, body, actions)
        }
    }
}

/// In OpenSent an OPEN is taken (event 19, BGPOpen; event 22, BGPOpenMsgErr, where it has a fault).
fn in_open_sent(
    alloc: Global,
    roster: &Roster,
    since: u64,
    rule: Rule,
    body: &[u8],
    actions: &mut Actions,
) -> Result<State, NoMemory>
    requires opening { rule ≡ Take → 10 ≤ length body.now }
    requires notification { rule ≡ Obey → 2 ≤ length body.now }
    ensures { IfOk result (λ next. Takes (in_open_sent roster.now since body.now rule) actions.old next actions.new) }
{
    match rule {
        Rule::Take => open_received(alloc, roster, since, body, actions),
        Rule::Obey => Ok(obey(body, actions)),
        Rule::Note | Rule::Refuse => refuse(alloc, actions),
    }
}

/// In OpenConfirm a KEEPALIVE is taken (event 26, KeepAliveMsg): the session is up.
fn in_open_confirm(
    alloc: Global,
    peering: Peering,
    rule: Rule,
    body: &[u8],
    actions: &mut Actions,
) -> Result<State, NoMemory>
    requires { rule ≡ Obey → 2 ≤ length body.now }
    ensures { IfOk result (λ next. Takes (in_open_confirm (peering_of peering) body.now rule) actions.old next actions.new) }
{
    match rule {
        Rule::Take => {
            tell_up(actions)?;
            Ok(State::Established(peering))
        }
        Rule::Obey => Ok(obey(body, actions)),
        Rule::Note | Rule::Refuse => refuse(alloc, actions),
    }
}

/// In Established UPDATEs are taken (event 27, UpdateMsg; event 28, UpdateMsgErr, where one has a fault), and KEEPALIVEs
/// (event 26, KeepAliveMsg).
fn in_established(
    alloc: Global,
    roster: &Roster,
    peering: Peering,
    rule: Rule,
    body: &[u8],
    actions: &mut Actions,
) -> Result<State, NoMemory>
    requires most { length body.now ≤ 4077 }
    requires notification { rule ≡ Obey → 2 ≤ length body.now }
    ensures { IfOk result (λ next. Takes (in_established roster.now (peering_of peering) body.now rule) actions.old next actions.new) }
{
    match rule {
        Rule::Take => update_received(alloc, roster, peering, body, actions),
        Rule::Note => Ok(State::Established(peering)),
        Rule::Obey => Ok(obey(body, actions)),
        Rule::Refuse => refuse(alloc, actions),
    }
}

/// A NOTIFICATION closes the session, whatever it says (events 24, NotifMsgVerErr, and 25, NotifMsg).
fn obey(body: &[u8], actions: &mut Actions) -> State
    requires { 2 ≤ length body.now }
    ensures { Takes (notified body.now) actions.old result actions.new }
{
    let notification = read_notification(body);
    actions.closed = Some(Closed {
        why: Why::Received,
        code: notification.code,
        sub: notification.sub,
    });
    State::Closed
}

/// An OPEN claims the seat of its router, or is refused by its first fault.
fn open_received(
    alloc: Global,
    roster: &Roster,
    since: u64,
    body: &[u8],
    actions: &mut Actions,
) -> Result<State, NoMemory>
    requires { 10 ≤ length body.now }
    ensures { IfOk result (λ next. Takes (opened roster.now since body.now) actions.old next actions.new) }
{
    match read_peer_open(roster, body) {
        Ok(open) => {
            actions.claim = Some(open.slot);
            Ok(State::Claiming(Claim {
                since,
                slot: open.slot,
                negotiated: Negotiated {
                    hold: roster.hold().min(open.hold),
                },
            }))
        }
        Err(fault) => {
            close_by(alloc, actions, Why::Fault, &fault, &[])?;
            Ok(State::Closed)
        }
    }
}

/// An UPDATE changes what the router announces, or is refused by its first fault.
fn update_received(
    alloc: Global,
    roster: &Roster,
    peering: Peering,
    body: &[u8],
    actions: &mut Actions,
) -> Result<State, NoMemory>
    requires { length body.now ≤ 4077 }
    ensures { IfOk result (λ next. Takes (updated roster.now (peering_of peering) body.now) actions.old next actions.new) }
{
    match read_body(alloc, body) {
        Ok(update) => {
            tell_changes(alloc, roster, body, &update, actions)?;
            Ok(State::Established(peering))
        }
        Err(Unread::Faulty(found)) => {
            close_by(alloc, actions, Why::Fault, &found.fault, found.octets)?;
            Ok(State::Closed)
        }
        Err(Unread::NoMemory) => Err(NoMemory),
    }
}

/// The fault of a message that the state doesn't take.
fn refuse(alloc: Global, actions: &mut Actions) -> Result<State, NoMemory>
    ensures { IfOk result (λ next. Takes refused actions.old next actions.new) }
{
    let fault = Fault {
        code: FINITE_STATE_MACHINE_ERROR,
        sub: UNSPECIFIC,
        extra: Data::None,
    };
    close_by(alloc, actions, Why::Fault, &fault, &[])?;
    Ok(State::Closed)
}
