//! The attributes that are recognised, and what each must have (RFC 4271, section 5, and RFC 1997).

ghost use Rattle.std.specs.Prelude.{◌≡◌};
ghost use Rattle.rcp_model.specs.Attributes as model;

use crate::aggregator::AGGREGATOR_LEN;
use crate::flags::{CATEGORY, OPTIONAL, TRANSITIVE};
use case_table::{Row, Table};

/// Where a route came from (RFC 4271, section 5.1.1).
pub const ORIGIN: u8 = 1;
/// The ASes that a route has passed (section 5.1.2).
pub const AS_PATH: u8 = 2;
/// The router to send to (section 5.1.3).
pub const NEXT_HOP: u8 = 3;
/// Which of several entries to an AS is wanted (section 5.1.4).
pub const MULTI_EXIT_DISC: u8 = 4;
/// How much a route is preferred inside the AS (section 5.1.5).
pub const LOCAL_PREF: u8 = 5;
/// That a route has lost ASes of its path (section 5.1.6).
pub const ATOMIC_AGGREGATE: u8 = 6;
/// Who made a route from others (section 5.1.7).
pub const AGGREGATOR: u8 = 7;
/// Labels of a route (RFC 1997).
pub const COMMUNITIES: u8 = 8;

const WELL_KNOWN: u16 = TRANSITIVE as u16;

const OPTIONAL_ONLY: u16 = OPTIONAL as u16;

const OPTIONAL_TRANSITIVE: u16 = CATEGORY as u16;

/// The length of an attribute that may have any.
pub const ANY: u16 = 0xffff;

/// Whether a type is recognised.
pub fn is_recognised(kind: u8) -> bool
    ensures { result ≡ model.is_recognised kind }
{
    matches!(kind, ORIGIN..=COMMUNITIES)
}

/// A row: the type, its optional and transitive flags, and the length of its value.
macro_rules! row {
    ($kind:ident, $flags:ident, $len:expr) => {
        Row {
            code: $kind as u16,
            first: $flags,
            second: $len,
        }
    };
}

/// Each recognised attribute once.
pub const ROWS: [Row; 8] = [
    row!(ORIGIN, WELL_KNOWN, 1),
    row!(AS_PATH, WELL_KNOWN, ANY),
    row!(NEXT_HOP, WELL_KNOWN, 4),
    row!(MULTI_EXIT_DISC, OPTIONAL_ONLY, 4),
    row!(LOCAL_PREF, WELL_KNOWN, 4),
    row!(ATOMIC_AGGREGATE, WELL_KNOWN, 0),
    row!(AGGREGATOR, OPTIONAL_TRANSITIVE, AGGREGATOR_LEN as u16),
    row!(COMMUNITIES, OPTIONAL_TRANSITIVE, ANY),
];

/// The recognised attributes by type: of each its optional and transitive flags and the length of its value.
pub fn rows() -> Table<8>
    ensures { result ≡ ROWS }
{
    Table::new(ROWS)
}
