//! The header of a message (RFC 4271 section 4.1), and its faults (section 6.1).

ghost use Rattle.std.specs.Prelude.{◌≡◌, ◌≤◌, [], Some, None, length, OnOk, IfOk, IfErr};
ghost use Rattle.rcp_model.specs.Messages.{fault, header_fault, has_marker, is_outside, least_length, greatest_length};
ghost use Rattle.bgp_fault.specs.Faults.{data_octets, IsWithin};
ghost use Rattle.bgp_msg.specs.Faults.{header_error};
ghost use Rattle.bgp_msg.specs.HeaderFields.{IsHeader, IsLengthOf};

use bgp_fault::{
    BAD_MESSAGE_LENGTH, BAD_MESSAGE_TYPE, CONNECTION_NOT_SYNCHRONIZED, Data, Fault,
    MESSAGE_HEADER_ERROR,
};

/// The octets of a header.
pub const HEADER_LEN: usize = 19;

/// The most octets that a message has.
pub const MOST_OCTETS: usize = 4096;

/// What a header begins with.
pub const MARKER: [u8; 16] = [0xff; 16];

/// The type of an OPEN.
pub const OPEN: u8 = 1;

/// The type of an UPDATE.
pub const UPDATE: u8 = 2;

/// The type of a NOTIFICATION.
pub const NOTIFICATION: u8 = 3;

/// The type of a KEEPALIVE.
pub const KEEPALIVE: u8 = 4;

/// What a header says of its message.
#[derive(Clone, Copy, Debug, PartialEq, Eq)]
pub struct Header {
    /// The type: 1 to 4.
    pub kind: u8,
    /// How many octets the message has, the header's among them: 19 to 4,096, as its type may have.
    pub len: u16,
}

/// Reads the header at the front, and judges it. The first fault in this order (RFC 4271 section 6.1): the marker; the
/// length, where it is outside 19 to 4,096; the type; the length, where a message of the type can't have it. The data
/// are the length field or the type, as a NOTIFICATION has them.
pub fn read_header(octets: &[u8]) -> Result<Header, Fault>
    requires { 19 ≤ length octets.now }
    ensures faultless { OnOk result (header_fault octets.now ≡ None) }
    ensures fields { IfOk result (λ header. IsHeader octets.now header.kind header.len) }
    ensures lengths { IfOk result (λ header. IsLengthOf header.kind header.len) }
    ensures fault { IfErr result (λ why. (header_fault octets.now ≡ Some (fault why.code why.sub (data_octets [] why.extra))) × IsWithin [] why.extra) }
{
    if !has_marker(octets) {
        return Err(header_error(CONNECTION_NOT_SYNCHRONIZED, Data::None));
    }
    let header = header_of(octets);
    if is_outside(HEADER_LEN as u16, MOST_OCTETS as u16, header.len) {
        return Err(header_error(BAD_MESSAGE_LENGTH, Data::Pair(header.len)));
    }
    if is_unknown(header.kind) {
        return Err(header_error(BAD_MESSAGE_TYPE, Data::Octet(header.kind)));
    }
    if has_other_length(header.kind, header.len) {
        return Err(header_error(BAD_MESSAGE_LENGTH, Data::Pair(header.len)));
    }
    Ok(header)
}

/// Whether the marker is all ones.
fn has_marker(octets: &[u8]) -> bool
    requires { 19 ≤ length octets.now }
    ensures { result ≡ has_marker octets.now }
{
    let (marker, _) = octets.split_at(16);
    marker == MARKER.as_slice()
}

/// The type and the length in the header, not judged yet.
fn header_of(octets: &[u8]) -> Header
    requires { 19 ≤ length octets.now }
    ensures { IsHeader octets.now result.kind result.len }
{
    let (_, rest) = octets.split_at(16);
    Header {
        kind: rest[2],
        len: u16::from_be_bytes([rest[0], rest[1]]),
    }
}

/// Whether a number is below the least or above the greatest of a range.
fn is_outside(least: u16, greatest: u16, number: u16) -> bool
    ensures { result ≡ is_outside least greatest number }
{
    number < least || number > greatest
}

/// Whether no message has this type.
fn is_unknown(kind: u8) -> bool
    ensures { result ≡ is_outside 1 4 kind }
{
    kind < OPEN || kind > KEEPALIVE
}

/// Whether no message of this type has this length.
fn has_other_length(kind: u8, len: u16) -> bool
    ensures { result ≡ is_outside (least_length kind) (greatest_length kind) len }
{
    is_outside(least_length(kind), greatest_length(kind), len)
}

/// The least length of a message of a type (RFC 4271 sections 4.2 to 4.5).
fn least_length(kind: u8) -> u16
    ensures { result ≡ least_length kind }
{
    match kind {
        OPEN => 29,
        UPDATE => 23,
        NOTIFICATION => 21,
        _ => 19,
    }
}

/// The greatest length of a message of a type (RFC 4271 sections 4.1 and 4.4).
fn greatest_length(kind: u8) -> u16
    ensures { result ≡ greatest_length kind }
{
    if kind == KEEPALIVE { 19 } else { 4096 }
}

/// A fault of a header.
fn header_error(sub: u8, extra: Data) -> Fault
    ensures { result ≡ header_error sub extra }
{
    Fault {
        code: MESSAGE_HEADER_ERROR,
        sub,
        extra,
    }
}
