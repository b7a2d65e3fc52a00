//! What each state does with each message (RFC 4271 section 8.2.2): a table for each state that reads messages, by the
//! type of the message.
//!
//! The events of section 8.1 that a session knows, and where each is handled:
//!
//! | Event | Name | Where |
//! |---|---|---|
//! | 10 | HoldTimer_Expires | `clock`, in each state |
//! | 11 | KeepaliveTimer_Expires | `clock`, in OpenConfirm and Established |
//! | 16, 17 | Tcp_CR_Acked, TcpConnectionConfirmed | `Session::open` |
//! | 18 | TcpConnectionFails | `end` |
//! | 19, 22 | BGPOpen, BGPOpenMsgErr | an OPEN, by the tables |
//! | 21 | BGPHeaderErr | a faulty header, in each state that reads |
//! | 23 | OpenCollisionDump | `seated`, where the seat is taken |
//! | 24, 25 | NotifMsgVerErr, NotifMsg | a NOTIFICATION, by the tables |
//! | 26 | KeepAliveMsg | a KEEPALIVE, by the tables |
//! | 27, 28 | UpdateMsg, UpdateMsgErr | an UPDATE, by the tables |
//!
//! Idle, Connect and Active are states of a speaker that makes connections: here a session begins with one that stands.
//! Claiming is a state of this project's own, between OpenSent and OpenConfirm. In the RFC an OPEN without a fault sends
//! a KEEPALIVE and enters OpenConfirm at once, and a collision is resolved afterwards; here the session first claims the
//! one seat of its router, and reads no message until `seated` answers the claim.

ghost use Rattle.std.specs.Prelude.{◌≡◌, IsTrue};
ghost use Rattle.case_table.specs.Rows.{codes_rise};
ghost use Rattle.session_core.specs.Rules.{rule_named, rule_of};

use bgp_msg::{KEEPALIVE, NOTIFICATION, OPEN, UPDATE};
use case_table::{Row, Table};

/// What is done with a message.
#[derive(Clone, Copy, Debug, PartialEq, Eq)]
pub enum Rule {
    /// It is what the state is there for.
    Take,
    /// It shows that the router is there.
    Note,
    /// It closes the session, and isn't answered.
    Obey,
    /// It is a fault.
    Refuse,
}

// The rules' numbers in the tables.
const TAKE: u16 = 1;

const NOTE: u16 = 2;

const OBEY: u16 = 3;

const REFUSE: u16 = 4;

/// A row: the type of a message, and the rule.
macro_rules! row {
    ($kind:ident, $rule:ident) => {
        Row {
            code: $kind as u16,
            first: $rule,
            second: 0,
        }
    };
}

/// OpenSent: an OPEN is checked, and claims a seat (events 19 and 22). A KEEPALIVE or an UPDATE is a fault (events 26 to
/// 28).
pub const OPEN_SENT: [Row; 4] = [
    row!(OPEN, TAKE),
    row!(UPDATE, REFUSE),
    row!(NOTIFICATION, OBEY), // before any OPEN, too
    row!(KEEPALIVE, REFUSE),
];

/// OpenConfirm: a KEEPALIVE establishes the session (event 26). An OPEN or an UPDATE is a fault (events 19, 22, 27, 28).
pub const OPEN_CONFIRM: [Row; 4] = [
    row!(OPEN, REFUSE),
    row!(UPDATE, REFUSE),
    row!(NOTIFICATION, OBEY),
    row!(KEEPALIVE, TAKE),
];

/// Established: an UPDATE is checked, and changes what the router announces (events 27 and 28); a KEEPALIVE shows that the
/// router is there (event 26). An OPEN is a fault (events 19 and 22).
pub const ESTABLISHED: [Row; 4] = [
    row!(OPEN, REFUSE), // one came already
    row!(UPDATE, TAKE),
    row!(NOTIFICATION, OBEY),
    row!(KEEPALIVE, NOTE),
];

/// What a state with these rows does with messages of a type.
pub fn find_rule(rows: [Row; 4], kind: u8) -> Rule
    requires { IsTrue (codes_rise rows) }
    ensures { result ≡ rule_of rows kind }
{
    match Table::new(rows).find(u16::from(kind)) {
        Some(row) => named(row.first),
        None => Rule::Refuse,
    }
}

/// The rule of a number.
fn named(number: u16) -> Rule
    ensures { result ≡ rule_named number }
{
    if number == TAKE {
        Rule::Take
    } else if number == NOTE {
        Rule::Note
    } else if number == OBEY {
        Rule::Obey
    } else {
        Rule::Refuse
    }
}
