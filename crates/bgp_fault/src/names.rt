//! The names of the faults, as RFC 4271, section 4.5, has them.

use crate::Fault;
use crate::codes::*;
use case_table::cases;
use std::fmt;

impl fmt::Display for Fault {
    /// The name of the code, and after a colon that of the subcode where the code has subcodes. A code or subcode
    /// without a name is shown as its number.
    fn fmt<W: fmt::Write>(&self, f: &mut fmt::Formatter<W>) -> fmt::Result {
        let code = self.code;
        let sub = self.sub;
        match code_name(code) {
            Some(name) => write!(f, "{name}")?,
            None => write!(f, "Error {code}")?,
        }
        if code >= HOLD_TIMER_EXPIRED && sub == UNSPECIFIC {
            return Ok(());
        }
        match subcode_name(code, sub) {
            Some(name) => write!(f, ": {name}"),
            None => write!(f, ": Subcode {sub}"),
        }
    }
}

fn code_name(code: u8) -> Option<&'static str> {
    cases!(code;
        MESSAGE_HEADER_ERROR => Some("Message Header Error"),
        OPEN_MESSAGE_ERROR => Some("OPEN Message Error"),
        UPDATE_MESSAGE_ERROR => Some("UPDATE Message Error"),
        HOLD_TIMER_EXPIRED => Some("Hold Timer Expired"),
        FINITE_STATE_MACHINE_ERROR => Some("Finite State Machine Error"),
        CEASE => Some("Cease");
        _ => None
    )
}

fn subcode_name(code: u8, sub: u8) -> Option<&'static str> {
    if sub == UNSPECIFIC {
        return Some("Unspecific");
    }
    cases!(code;
        MESSAGE_HEADER_ERROR => header_name(sub),
        OPEN_MESSAGE_ERROR => open_name(sub),
        UPDATE_MESSAGE_ERROR => update_name(sub);
        _ => None
    )
}

fn header_name(sub: u8) -> Option<&'static str> {
    cases!(sub;
        CONNECTION_NOT_SYNCHRONIZED => Some("Connection Not Synchronized"),
        BAD_MESSAGE_LENGTH => Some("Bad Message Length"),
        BAD_MESSAGE_TYPE => Some("Bad Message Type");
        _ => None
    )
}

fn open_name(sub: u8) -> Option<&'static str> {
    cases!(sub;
        UNSUPPORTED_VERSION_NUMBER => Some("Unsupported Version Number"),
        BAD_PEER_AS => Some("Bad Peer AS"),
        BAD_BGP_IDENTIFIER => Some("Bad BGP Identifier"),
        UNSUPPORTED_OPTIONAL_PARAMETER => Some("Unsupported Optional Parameter"),
        UNACCEPTABLE_HOLD_TIME => Some("Unacceptable Hold Time");
        _ => None
    )
}

fn update_name(sub: u8) -> Option<&'static str> {
    cases!(sub;
        MALFORMED_ATTRIBUTE_LIST => Some("Malformed Attribute List"),
        UNRECOGNIZED_WELL_KNOWN_ATTRIBUTE => Some("Unrecognized Well-known Attribute"),
        MISSING_WELL_KNOWN_ATTRIBUTE => Some("Missing Well-known Attribute"),
        ATTRIBUTE_FLAGS_ERROR => Some("Attribute Flags Error"),
        ATTRIBUTE_LENGTH_ERROR => Some("Attribute Length Error"),
        INVALID_ORIGIN_ATTRIBUTE => Some("Invalid ORIGIN Attribute"),
        INVALID_NEXT_HOP_ATTRIBUTE => Some("Invalid NEXT_HOP Attribute"),
        OPTIONAL_ATTRIBUTE_ERROR => Some("Optional Attribute Error"),
        INVALID_NETWORK_FIELD => Some("Invalid Network Field"),
        MALFORMED_AS_PATH => Some("Malformed AS_PATH");
        _ => None
    )
}
