//! The table of the faults, and which are in it.

ghost use Rattle.std.specs.Prelude.{◌≡◌, ◌↔◌, Contains, IsTrue, map};
ghost use Rattle.bgp_fault.specs.Faults.{fault_rows, fault_sizes};

use crate::codes::*;
use case_table::{Row, Table};

/// The least octets of an attribute: flags, type and length.
const LEAST_ATTRIBUTE: u16 = 3;
/// The most octets of an attribute: those of an UPDATE of 4,096 octets that has nothing else.
const MOST_ATTRIBUTE: u16 = 4073;

/// A row: code and subcode as the number that their two octets are, and the least and most octets of its data.
macro_rules! row {
    ($code:ident, $sub:ident, $least:expr, $most:expr) => {
        Row {
            code: ($code as u16) * 256 + $sub as u16,
            first: $least,
            second: $most,
        }
    };
}

/// Each fault once.
pub const ROWS: [Row; 22] = [
    row!(MESSAGE_HEADER_ERROR, CONNECTION_NOT_SYNCHRONIZED, 0, 0),
    row!(MESSAGE_HEADER_ERROR, BAD_MESSAGE_LENGTH, 2, 2),
    row!(MESSAGE_HEADER_ERROR, BAD_MESSAGE_TYPE, 1, 1),
    row!(OPEN_MESSAGE_ERROR, UNSPECIFIC, 0, 0),
    row!(OPEN_MESSAGE_ERROR, UNSUPPORTED_VERSION_NUMBER, 2, 2),
    row!(OPEN_MESSAGE_ERROR, BAD_PEER_AS, 0, 0),
    row!(OPEN_MESSAGE_ERROR, BAD_BGP_IDENTIFIER, 0, 0),
    row!(OPEN_MESSAGE_ERROR, UNSUPPORTED_OPTIONAL_PARAMETER, 0, 0),
    row!(OPEN_MESSAGE_ERROR, UNACCEPTABLE_HOLD_TIME, 0, 0),
    row!(UPDATE_MESSAGE_ERROR, MALFORMED_ATTRIBUTE_LIST, 0, 0),
    row!(
        UPDATE_MESSAGE_ERROR,
        UNRECOGNIZED_WELL_KNOWN_ATTRIBUTE,
        LEAST_ATTRIBUTE,
        MOST_ATTRIBUTE
    ),
    row!(UPDATE_MESSAGE_ERROR, MISSING_WELL_KNOWN_ATTRIBUTE, 1, 1),
    row!(
        UPDATE_MESSAGE_ERROR,
        ATTRIBUTE_FLAGS_ERROR,
        LEAST_ATTRIBUTE,
        MOST_ATTRIBUTE
    ),
    row!(
        UPDATE_MESSAGE_ERROR,
        ATTRIBUTE_LENGTH_ERROR,
        LEAST_ATTRIBUTE,
        MOST_ATTRIBUTE
    ),
    row!(
        UPDATE_MESSAGE_ERROR,
        INVALID_ORIGIN_ATTRIBUTE,
        LEAST_ATTRIBUTE,
        MOST_ATTRIBUTE
    ),
    row!(
        UPDATE_MESSAGE_ERROR,
        INVALID_NEXT_HOP_ATTRIBUTE,
        LEAST_ATTRIBUTE,
        MOST_ATTRIBUTE
    ),
    row!(
        UPDATE_MESSAGE_ERROR,
        OPTIONAL_ATTRIBUTE_ERROR,
        LEAST_ATTRIBUTE,
        MOST_ATTRIBUTE
    ),
    row!(UPDATE_MESSAGE_ERROR, INVALID_NETWORK_FIELD, 0, 0),
    row!(UPDATE_MESSAGE_ERROR, MALFORMED_AS_PATH, 0, 0),
    row!(HOLD_TIMER_EXPIRED, UNSPECIFIC, 0, 0),
    row!(FINITE_STATE_MACHINE_ERROR, UNSPECIFIC, 0, 0),
    row!(CEASE, UNSPECIFIC, 0, 0),
];

/// The faults as a table: a row's code is the number that error code and subcode are as two octets, and its numbers
/// are the least and the most octets of data.
pub fn rows() -> Table<22>
    ensures table { result ≡ ROWS }
    ensures sizes { map (λ row. (row.first, row.second)) result ≡ fault_sizes }
{
    Table::new(ROWS)
}

/// Whether a fault has this code and subcode.
pub fn known(code: u8, sub: u8) -> bool
    ensures { IsTrue result ↔ Contains fault_rows (code, sub) }
{
    rows().find(u16::from_be_bytes([code, sub])).is_some()
}
