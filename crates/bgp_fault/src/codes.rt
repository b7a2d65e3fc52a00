//! Error codes and subcodes, under the names of RFC 4271, section 4.5.

/// Error code: a fault of the message header (RFC 4271, section 6.1).
pub const MESSAGE_HEADER_ERROR: u8 = 1;
/// Error code: a fault of an OPEN (RFC 4271, section 6.2).
pub const OPEN_MESSAGE_ERROR: u8 = 2;
/// Error code: a fault of an UPDATE (RFC 4271, section 6.3).
pub const UPDATE_MESSAGE_ERROR: u8 = 3;
/// Error code: nothing came within the hold time (RFC 4271, section 6.5).
pub const HOLD_TIMER_EXPIRED: u8 = 4;
/// Error code: a message that the state doesn't take (RFC 4271, section 6.6).
pub const FINITE_STATE_MACHINE_ERROR: u8 = 5;
/// Error code: the connection is closed without a fault of the peer (RFC 4271, section 6.7).
pub const CEASE: u8 = 6;

/// The subcode of a fault that has none of its own.
pub const UNSPECIFIC: u8 = 0;

/// Subcode of a header: the marker isn't all ones.
pub const CONNECTION_NOT_SYNCHRONIZED: u8 = 1;
/// Subcode of a header: the length is out of the bounds of BGP or of the message's type.
pub const BAD_MESSAGE_LENGTH: u8 = 2;
/// Subcode of a header: the type is unknown.
pub const BAD_MESSAGE_TYPE: u8 = 3;

/// Subcode of an OPEN: the version isn't 4.
pub const UNSUPPORTED_VERSION_NUMBER: u8 = 1;
/// Subcode of an OPEN: the peer's AS number isn't the one that is wanted.
pub const BAD_PEER_AS: u8 = 2;
/// Subcode of an OPEN: the BGP Identifier isn't one that is wanted.
pub const BAD_BGP_IDENTIFIER: u8 = 3;
/// Subcode of an OPEN: a parameter of unknown type.
pub const UNSUPPORTED_OPTIONAL_PARAMETER: u8 = 4;
/// Subcode of an OPEN: a hold time of one or two seconds.
pub const UNACCEPTABLE_HOLD_TIME: u8 = 6;

/// Subcode of an UPDATE: lengths that pass the message, or an attribute that is there twice.
pub const MALFORMED_ATTRIBUTE_LIST: u8 = 1;
/// Subcode of an UPDATE: an unknown attribute that isn't optional.
pub const UNRECOGNIZED_WELL_KNOWN_ATTRIBUTE: u8 = 2;
/// Subcode of an UPDATE: an attribute that each route has is missing.
pub const MISSING_WELL_KNOWN_ATTRIBUTE: u8 = 3;
/// Subcode of an UPDATE: flags that the attribute doesn't have.
pub const ATTRIBUTE_FLAGS_ERROR: u8 = 4;
/// Subcode of an UPDATE: a length that the attribute doesn't have.
pub const ATTRIBUTE_LENGTH_ERROR: u8 = 5;
/// Subcode of an UPDATE: an ORIGIN that isn't defined.
pub const INVALID_ORIGIN_ATTRIBUTE: u8 = 6;
/// Subcode of an UPDATE: a NEXT_HOP that is no address of a host.
pub const INVALID_NEXT_HOP_ATTRIBUTE: u8 = 8;
/// Subcode of an UPDATE: an optional attribute whose value is faulty.
pub const OPTIONAL_ATTRIBUTE_ERROR: u8 = 9;
/// Subcode of an UPDATE: a prefix that is malformed.
pub const INVALID_NETWORK_FIELD: u8 = 10;
/// Subcode of an UPDATE: an AS_PATH that is malformed.
pub const MALFORMED_AS_PATH: u8 = 11;
