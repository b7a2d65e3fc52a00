//! What a session does.

ghost use Rattle.std.specs.Prelude.{◌≡◌, ◌≤◌, All, length};

use rcp_base::{Prefix, Slot};
use rcp_model::Route;
use std::alloc::Global;

/// Why a session ended.
#[derive(Clone, Copy, Debug, PartialEq, Eq)]
pub enum Why {
    /// By a fault in what came, or because the hold time ran out: a NOTIFICATION was sent.
    Fault = 1,
    /// A NOTIFICATION came.
    Received = 2,
    /// The connection ended.
    End = 3,
    /// The seat of the router was taken: a NOTIFICATION was sent.
    SeatOut = 4,
}

impl Why {
    ghost use Rattle.session_core.specs.Shown.{number_of};

    /// The number of a reason: 1 to 4.
    pub fn number(self) -> u8
        ensures { result ≡ number_of self }
    {
        self as u8
    }
}

/// The end of a session.
#[derive(Clone, Copy, Debug, PartialEq, Eq)]
pub struct Closed {
    pub why: Why,
    /// The error code of the NOTIFICATION that was sent or came (RFC 4271 section 4.5), 0 where the connection ended.
    pub code: u8,
    /// The error subcode.
    pub sub: u8,
}

/// What the router of a session announces and withdraws, and that it is up or down.
#[derive(Debug, Drop)]
pub enum SessionEvent {
    /// The session is established.
    Up,
    /// The router announces a route to a prefix.
    Announce { prefix: Prefix, route: Route },
    /// The router withdraws a prefix.
    Withdraw { prefix: Prefix },
}

/// What a session does at a call.
#[derive(Debug, Drop)]
pub struct Actions {
    /// The messages to send, in order, one a member, of at most 4,096 octets each.
    pub send: Vec<Vec<u8>>,
    /// What came from the router, in order.
    pub events: Vec<SessionEvent>,
    /// The slot of the router whose seat is claimed: `Session::seated` has to answer it.
    pub claim: Option<Slot>,
    /// The end, where this call closed the session.
    pub closed: Option<Closed>,
    /// How many messages with a faultless header were read whole and handled, one with a faulty body among them.
    pub handled: u64,
    ghost short: { All (λ message. length message.items ≤ 4096) send.items },
}

impl Actions {
    ghost use Rattle.rcp_model.specs.Sessions.{nothing};
    ghost use Rattle.session_core.specs.Shown.{doing_of};

    /// Nothing is done.
    pub(crate) fn none(alloc: Global) -> Actions
        ensures does { doing_of result ≡ nothing }
        ensures handled { result.handled ≡ 0 }
    {
        Actions {
            send: Vec::new(alloc),
            events: Vec::new(alloc),
            claim: None,
            closed: None,
            handled: 0,
        }
    }
}
