//! The faults that a BGP speaker reports to its peer in a NOTIFICATION, with their codes, subcodes and names.
//!
//! A fault is the record of its fields: error code, error subcode, and the data that goes with them. The data names
//! octets of the faulty message instead of copying them, so a fault is a small `Copy` value that needs no memory.
//! A caller may rely on `known`, which says exactly which codes and subcodes stand here, and on the constants
//! and texts, which are those of RFC 4271, sections 4.5 and 6.
//!
//! ```
//! let fault = Fault { code: UPDATE_MESSAGE_ERROR, sub: MALFORMED_AS_PATH, extra: Data::None };
//! println!(rt; "{fault}")?; // UPDATE Message Error: Malformed AS_PATH
//! ```
#![tactic(auto)]

mod codes;
mod names;
mod table;

pub use codes::{
    ATTRIBUTE_FLAGS_ERROR, ATTRIBUTE_LENGTH_ERROR, BAD_BGP_IDENTIFIER, BAD_MESSAGE_LENGTH,
    BAD_MESSAGE_TYPE, BAD_PEER_AS, CEASE, CONNECTION_NOT_SYNCHRONIZED, FINITE_STATE_MACHINE_ERROR,
    HOLD_TIMER_EXPIRED, INVALID_NETWORK_FIELD, INVALID_NEXT_HOP_ATTRIBUTE,
    INVALID_ORIGIN_ATTRIBUTE, MALFORMED_AS_PATH, MALFORMED_ATTRIBUTE_LIST, MESSAGE_HEADER_ERROR,
    MISSING_WELL_KNOWN_ATTRIBUTE, OPEN_MESSAGE_ERROR, OPTIONAL_ATTRIBUTE_ERROR,
    UNACCEPTABLE_HOLD_TIME, UNRECOGNIZED_WELL_KNOWN_ATTRIBUTE, UNSPECIFIC,
    UNSUPPORTED_OPTIONAL_PARAMETER, UNSUPPORTED_VERSION_NUMBER, UPDATE_MESSAGE_ERROR,
};
pub use table::{ROWS, known, rows};

#[cfg(test)]
mod tests;

/// The data of a fault: what follows code and subcode in the NOTIFICATION.
#[derive(Clone, Copy, Debug, PartialEq, Eq)]
pub enum Data {
    /// No octets.
    None,
    /// One octet, as the type of a missing attribute.
    Octet(u8),
    /// Two octets, the high one first, as the length field of a header.
    Pair(u16),
    /// `len` octets of the faulty message's body, from octet `start` on, as a whole attribute.
    Span { start: u16, len: u16 },
}

/// A fault: error code, error subcode and data (RFC 4271, section 4.5).
#[derive(Clone, Copy, Debug, PartialEq, Eq)]
pub struct Fault {
    pub code: u8,
    pub sub: u8,
    pub extra: Data,
}
