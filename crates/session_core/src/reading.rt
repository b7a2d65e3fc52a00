//! Octets, message by message.

ghost use Rattle.std.specs.Prelude.{◌≡◌, ◌≤◌, length, IfOk};
ghost use Rattle.rcp_model.specs.Sessions.{course_of};
ghost use Rattle.session_core.specs.Shown.{phase_of};
ghost use Rattle.session_core.specs.Steps.{Runs};
ghost use Rattle.session_core.specs.Counts.{handled_in};

use crate::actions::{Actions, Why};
use crate::handling::handle;
use crate::sending::close_by;
use crate::state::State;
use bgp_msg::{HEADER_LEN, first_message};
use rcp_base::NoMemory;
use roster::Roster;
use std::alloc::Global;

/// Where reading stopped.
#[derive(Clone, Copy, Debug)]
pub struct Read {
    pub state: State,
    /// How many octets in front aren't wanted any more.
    pub taken: usize,
    /// How many messages were handled.
    pub handled: u64,
}

/// Reads messages while the state does and whole ones are there. A faulty header ends the session.
pub fn read_on(
    alloc: Global,
    roster: &Roster,
    state: State,
    octets: &[u8],
    now: u64,
    actions: &mut Actions,
) -> Result<Read, NoMemory>
    ensures runs { IfOk result (λ read. Runs (course_of roster.now now octets.now (phase_of state)) actions.old octets.now read.taken read.state actions.new) }
    ensures within { IfOk result (λ read. read.taken ≤ length octets.now) }
    ensures handled { IfOk result (λ read. read.handled ≡ handled_in roster.now now octets.now (phase_of state)) }
{
    let mut state = state;
    let mut taken = 0;
    let mut handled = 0;
    while let Some(reading) = state.reading() {
        let (_, rest) = octets.split_at(taken);
        match first_message(rest) {
            Ok(Some(message)) => {
                state = handle(alloc, roster, reading, message, now, actions)?;
                taken += HEADER_LEN + message.body.len();
                handled += 1;
            }
            Ok(None) => {
                return Ok(Read {
                    state,
                    taken,
                    handled,
                });
            }
            Err(fault) => {
                close_by(alloc, actions, Why::Fault, &fault, &[])?;
                return Ok(Read {
                    state: State::Closed,
                    taken: octets.len(),
                    handled,
                });
            }
        }
    }
    if state.is_closed() {
        taken = octets.len();
    }
    Ok(Read {
        state,
        taken,
        handled,
    })
}
