//! Messages that a session sends.

ghost use Rattle.std.specs.Prelude.{◌≡◌, ◌≤◌, length, OnOk, IfOk};
ghost use Rattle.bgp_fault.specs.Faults.{IsWithin};
ghost use Rattle.bgp_msg.specs.Written.{data_length};
ghost use Rattle.path_attrs.specs.Refusals.{fault_in};
ghost use Rattle.rcp_model.specs.Sessions.{then_also, sending, closing, keepalive};
ghost use Rattle.session_core.specs.Shown.{doing_of, reason_of};

use crate::actions::{Actions, Closed, Why};
use bgp_fault::Fault;
use bgp_msg::{keepalive_message, notification_message};
use rcp_base::NoMemory;
use std::alloc::Global;

/// Sends a message besides.
pub fn send(actions: &mut Actions, message: Vec<u8>) -> Result<(), NoMemory>
    requires { length message.items ≤ 4096 }
    ensures { OnOk result (doing_of actions.new ≡ then_also (doing_of actions.old) (sending message.items)) }
{
    actions.send.push(message)?;
    Ok(())
}

/// Sends a KEEPALIVE besides (RFC 4271 section 4.4).
pub fn send_keepalive(alloc: Global, actions: &mut Actions) -> Result<(), NoMemory>
    ensures { OnOk result (doing_of actions.new ≡ then_also (doing_of actions.old) (sending keepalive)) }
{
    send(actions, keepalive_message(alloc)?)
}

/// Sends a fault in a NOTIFICATION besides, and ends the session by it (RFC 4271 section 6). A span of the fault names
/// octets of `octets`.
pub fn close_by(
    alloc: Global,
    actions: &mut Actions,
    why: Why,
    fault: &Fault,
    octets: &[u8],
) -> Result<(), NoMemory>
    requires within { IsWithin octets.now fault.now.extra }
    requires room { data_length fault.now.extra ≤ 4073 }
    ensures { OnOk result (doing_of actions.new
        ≡ then_also (doing_of actions.old) (closing (reason_of why) (fault_in octets.now fault.now))) }
{
    send(actions, notification_message(alloc, fault, octets)?)?;
    actions.closed = Some(Closed {
        why,
        code: fault.code,
        sub: fault.sub,
    });
    Ok(())
}
