//! The states of a session (RFC 4271 section 8.2.2).

ghost use Rattle.std.specs.Prelude.{◌≡◌, true, false, MatchOption};
ghost use Rattle.rcp_model.specs.Sessions as sessions;
ghost use Rattle.session_core.specs.Shown.{phase_of, reading_phase};

use rcp_base::Slot;

/// What the OPENs of both ends came to.
#[derive(Clone, Copy, Debug, PartialEq, Eq)]
pub struct Negotiated {
    /// The hold time in seconds: 0 where the session has no timers.
    pub hold: u16,
}

/// A claim on the seat of the router that sent an OPEN.
#[derive(Clone, Copy, Debug, PartialEq, Eq)]
pub struct Claim {
    /// The time since which the session was in OpenSent.
    pub since: u64,
    pub slot: Slot,
    pub negotiated: Negotiated,
}

/// A session after its seat was taken.
#[derive(Clone, Copy, Debug, PartialEq, Eq)]
pub struct Peering {
    pub slot: Slot,
    pub negotiated: Negotiated,
    /// The time at which an OPEN, a KEEPALIVE or an UPDATE was last read.
    pub read: u64,
    /// The time at which a KEEPALIVE was last sent.
    pub sent: u64,
}

/// A state, its times in seconds.
#[derive(Clone, Copy, Debug, PartialEq, Eq)]
pub enum State {
    /// Since this time.
    OpenSent { since: u64 },
    /// An OPEN came and claims a seat: a state of this project's own, in which octets wait.
    Claiming(Claim),
    OpenConfirm(Peering),
    Established(Peering),
    Closed,
}

/// A state in which messages are read.
#[derive(Clone, Copy, Debug, PartialEq, Eq)]
pub enum Reading {
    OpenSent { since: u64 },
    OpenConfirm(Peering),
    Established(Peering),
}

impl State {
    /// The state, where messages are read in it.
    pub fn reading(&self) -> Option<Reading>
        ensures { MatchOption result
            (sessions.reads (phase_of self.now) ≡ false)
            (λ reading. (sessions.reads (phase_of self.now) ≡ true) × (reading_phase reading ≡ phase_of self.now)) }
    {
        match *self {
            State::OpenSent { since } => Some(Reading::OpenSent { since }),
            State::OpenConfirm(peering) => Some(Reading::OpenConfirm(peering)),
            State::Established(peering) => Some(Reading::Established(peering)),
            State::Claiming(_) | State::Closed => None,
        }
    }

    pub fn is_closed(&self) -> bool
        ensures { result ≡ sessions.is_closed (phase_of self.now) }
    {
        match self {
            State::Closed => true,
            _ => false,
        }
    }
}
