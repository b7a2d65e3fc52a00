//! BGP messages in words.

ghost use Rattle.std.specs.Prelude.{◌<◌, length, IfSome};

use crate::attributes::push_attributes;
use crate::capabilities::{push_parameter, split_coded};
use crate::hex::{push_hex, push_octets_word};
use crate::numbers::{push_address, push_number};
use crate::parts::Message;
use std::alloc::AllocError;

/// The octets before a message's body: a marker, a length and a type (RFC 4271 section 4.1).
const HEADER: usize = 19;

/// A BGP message.
#[derive(Clone, Copy, Drop)]
pub struct BgpMessage<'a> {
    pub kind: u8,
    pub body: &'a [u8],
}

impl<'a> Message<'a> for BgpMessage<'a> {
    fn split(octets: &'a [u8]) -> Option<(BgpMessage<'a>, &'a [u8])> {
        if octets.len() < HEADER {
            return None;
        }
        let length = usize::from(u16::from_be_bytes([octets[16], octets[17]]));
        if length < HEADER || octets.len() < length {
            return None;
        }
        let (message, rest) = octets.split_at(length);
        let (header, body) = message.split_at(HEADER);
        if !has_marker(header) {
            return None;
        }
        let kind = octets[18];
        Some((BgpMessage { kind, body }, rest))
    }

    fn push(&self, text: &mut Vec<u8>) -> Result<(), AllocError> {
        match (self.kind, self.body) {
            (1, [version, a, b, c, d, e, f, g, h, count, rest @ ..]) => {
                push_open(text, *version, [*a, *b, *c, *d, *e, *f, *g, *h])?;
                push_parameters(text, *count, rest)
            }
            (2, body) => push_update(text, body),
            (3, [code, subcode, data @ ..]) => push_notification(text, *code, *subcode, data),
            (4, []) => text.extend_from_slice(b"keepalive"),
            (kind, body) => push_any(text, kind, body),
        }
    }
}

/// Whether a header begins with sixteen octets of ones.
fn has_marker(header: &[u8]) -> bool {
    header.starts_with(&[0xff; 16])
}

/// A message whose body has no names.
fn push_any(text: &mut Vec<u8>, kind: u8, body: &[u8]) -> Result<(), AllocError> {
    text.extend_from_slice(b"message ")?;
    push_number(text, u64::from(kind))?;
    text.push(b' ')?;
    push_hex(text, body)
}

/// OPEN: AS number, hold time in seconds, BGP Identifier (RFC 4271 section 4.2).
fn push_open(text: &mut Vec<u8>, version: u8, fields: [u8; 8]) -> Result<(), AllocError> {
    let [a, b, c, d, e, f, g, h] = fields;
    text.extend_from_slice(b"open as=")?;
    push_number(text, u64::from(u16::from_be_bytes([a, b])))?;
    text.extend_from_slice(b" hold=")?;
    push_number(text, u64::from(u16::from_be_bytes([c, d])))?;
    text.extend_from_slice(b" id=")?;
    push_address(text, u32::from_be_bytes([e, f, g, h]))?;
    if version == 4 {
        return Ok(());
    }
    text.extend_from_slice(b" version=")?;
    push_number(text, u64::from(version))
}

/// The optional parameters of an OPEN, and what stands after the last whole one.
fn push_parameters(text: &mut Vec<u8>, count: u8, octets: &[u8]) -> Result<(), AllocError> {
    let count = usize::from(count).min(octets.len());
    let (parameters, rest) = octets.split_at(count);
    let mut left = parameters;
    while let Some((kind, value, more)) = split_coded(left) {
        push_parameter(text, kind, value)?;
        left = more;
    }
    push_octets_word(text, b" rest=", rest)
}

/// NOTIFICATION: code, subcode and data (RFC 4271 section 4.5).
fn push_notification(
    text: &mut Vec<u8>,
    code: u8,
    subcode: u8,
    data: &[u8],
) -> Result<(), AllocError> {
    text.extend_from_slice(b"notification ")?;
    push_number(text, u64::from(code))?;
    text.push(b'/')?;
    push_number(text, u64::from(subcode))?;
    push_octets_word(text, b" data=", data)
}

/// UPDATE: withdrawn routes, path attributes and NLRI (RFC 4271 section 4.3).
fn push_update(text: &mut Vec<u8>, body: &[u8]) -> Result<(), AllocError> {
    let Some((withdrawn, rest)) = split_section(body) else {
        return push_any(text, 2, body);
    };
    let Some((attributes, nlri)) = split_section(rest) else {
        return push_any(text, 2, body);
    };
    text.extend_from_slice(b"update")?;
    push_prefixes(text, b" withdrawn=", withdrawn)?;
    let left = push_attributes(text, attributes)?;
    push_octets_word(text, b" rest=", left)?;
    push_prefixes(text, b" nlri=", nlri)
}

/// A section with its length in two octets before it, and the octets after it.
fn split_section(octets: &[u8]) -> Option<(&[u8], &[u8])> {
    let [high, low, rest @ ..] = octets else {
        return None;
    };
    let length = usize::from(u16::from_be_bytes([*high, *low]));
    if rest.len() < length {
        return None;
    }
    Some(rest.split_at(length))
}

/// Prefixes with commas between them, and as octets what is no prefix.
fn push_prefixes(text: &mut Vec<u8>, key: &[u8], octets: &[u8]) -> Result<(), AllocError> {
    let mut rest = octets;
    let mut mark = key;
    while let Some((length, address, more)) = split_prefix(rest) {
        text.extend_from_slice(mark)?;
        push_address(text, address)?;
        text.push(b'/')?;
        push_number(text, u64::from(length))?;
        mark = b",".as_slice();
        rest = more;
    }
    push_octets_word(text, mark, rest)
}

/// The prefix in front: its length, its address with the octets that stand there, and the octets after it.
fn split_prefix(octets: &[u8]) -> Option<(u8, u32, &[u8])>
    ensures { IfSome result (λ found. length found.2.now < length octets.now) }
{
    let [length, rest @ ..] = octets else {
        return None;
    };
    if *length > 32 {
        return None;
    }
    let count = usize::from(*length).div_ceil(8);
    if rest.len() < count {
        return None;
    }
    let (front, more) = rest.split_at(count);
    Some((*length, address_of(front), more))
}

/// The address whose first octets these are.
fn address_of(front: &[u8]) -> u32 {
    let octet = |place: usize| front.get(place).copied().unwrap_or(0);
    u32::from_be_bytes([octet(0), octet(1), octet(2), octet(3)])
}
