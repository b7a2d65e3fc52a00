//! Timers (RFC 4271 sections 8.1.3 and 10).

ghost use Rattle.std.specs.Prelude.{◌≡◌, ◌≢◌, [], true, IfOk, OnErr};
ghost use Rattle.rcp_model.specs.Sessions.{has_passed, expired, tick};
ghost use Rattle.session_core.specs.Shown.{phase_of, peering_of};
ghost use Rattle.session_core.specs.Steps.{Takes};
ghost use Rattle.session_core.specs.Timers.{is_overdue, is_due, KeepsAlive};

use crate::actions::{Actions, Why};
use crate::sending::{close_by, send_keepalive};
use crate::state::{Peering, State};
use bgp_fault::{Data, Fault, HOLD_TIMER_EXPIRED, UNSPECIFIC};
use rcp_base::NoMemory;
use std::alloc::Global;

/// The hold time, in seconds, before the OPEN of the router is taken.
const LARGE_HOLD: u64 = 240;

/// Runs the timers at a time that never goes back: the hold timer is tested first (event 10, HoldTimer_Expires), and then
/// a KEEPALIVE is sent where a third of the hold time has passed since the last one (event 11, KeepaliveTimer_Expires).
/// `NoMemory` comes only where a message is to be sent.
pub fn tick(alloc: Global, state: State, now: u64, actions: &mut Actions) -> Result<State, NoMemory>
    ensures taken { IfOk result (λ next. Takes (tick now (phase_of state)) actions.old next actions.new) }
    ensures want { OnErr result ((tick now (phase_of state)).does.sent ≢ []) }
{
    match state {
        State::OpenSent { since } => {
            if has_passed(LARGE_HOLD, since, now) {
                return expire(alloc, actions);
            }
            Ok(State::OpenSent { since })
        }
        State::Claiming(claim) => {
            if has_passed(LARGE_HOLD, claim.since, now) {
                return expire(alloc, actions);
            }
            Ok(State::Claiming(claim))
        }
        State::OpenConfirm(peering) => {
            if is_expired(&peering, now) {
                return expire(alloc, actions);
            }
            Ok(State::OpenConfirm(keep_alive(alloc, peering, now, actions)?))
        }
        State::Established(peering) => {
            if is_expired(&peering, now) {
                return expire(alloc, actions);
            }
            Ok(State::Established(keep_alive(alloc, peering, now, actions)?))
        }
        State::Closed => Ok(state),
    }
}

/// Whether so many seconds have passed since a time.
fn has_passed(seconds: u64, since: u64, now: u64) -> bool
    ensures { result ≡ has_passed seconds since now }
{
    now.saturating_sub(since) >= seconds
}

/// Whether the hold time has passed since the last read.
fn is_expired(peering: &Peering, now: u64) -> bool
    ensures { result ≡ is_overdue (peering_of peering.now) now }
{
    let hold = peering.negotiated.hold;
    hold != 0 && has_passed(u64::from(hold), peering.read, now)
}

/// Sends a KEEPALIVE where it is due.
fn keep_alive(
    alloc: Global,
    peering: Peering,
    now: u64,
    actions: &mut Actions,
) -> Result<Peering, NoMemory>
    ensures kept { IfOk result (λ next. KeepsAlive (peering_of peering) now actions.old (peering_of next) actions.new) }
    ensures want { OnErr result (is_due (peering_of peering) now ≡ true) }
{
    let hold = peering.negotiated.hold;
    if hold == 0 || !has_passed(u64::from(hold / 3), peering.sent, now) {
        return Ok(peering);
    }
    send_keepalive(alloc, actions)?;
    Ok(Peering {
        sent: now,
        ..peering
    })
}

/// The hold time ran out (RFC 4271 section 6.5).
fn expire(alloc: Global, actions: &mut Actions) -> Result<State, NoMemory>
    ensures { IfOk result (λ next. Takes expired actions.old next actions.new) }
{
    let fault = Fault {
        code: HOLD_TIMER_EXPIRED,
        sub: UNSPECIFIC,
        extra: Data::None,
    };
    close_by(alloc, actions, Why::Fault, &fault, &[])?;
    Ok(State::Closed)
}
