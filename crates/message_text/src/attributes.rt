//! Path attributes in words.

ghost use Rattle.std.specs.Prelude.{◌<◌, length, IfSome};

use crate::hex::{push_hex, push_pair};
use crate::numbers::{push_address, push_number};
use std::alloc::AllocError;

/// An attribute as it lies in an UPDATE (RFC 4271 section 4.3).
#[derive(Clone, Copy)]
struct Attribute<'a> {
    flags: u8,
    code: u8,
    value: &'a [u8],
}

/// Appends the attributes of a section, and answers the octets after the last whole one.
pub fn push_attributes<'a>(text: &mut Vec<u8>, octets: &'a [u8]) -> Result<&'a [u8], AllocError> {
    let mut rest = octets;
    while let Some((attribute, more)) = split_attribute(rest) {
        text.push(b' ')?;
        push_attribute(text, attribute)?;
        rest = more;
    }
    Ok(rest)
}

/// The attribute in front, and the octets after it.
fn split_attribute(octets: &[u8]) -> Option<(Attribute<'_>, &[u8])>
    ensures { IfSome result (λ found. length found.1.now < length octets.now) }
{
    let (flags, code, length, rest) = match octets {
        [flags, code, high, low, rest @ ..] if flags / 16 % 2 == 1 => {
            (*flags, *code, u16::from_be_bytes([*high, *low]), rest)
        }
        [flags, code, length, rest @ ..] if flags / 16 % 2 == 0 => {
            (*flags, *code, u16::from(*length), rest)
        }
        _ => return None,
    };
    let length = usize::from(length);
    if rest.len() < length {
        return None;
    }
    let (value, more) = rest.split_at(length);
    Some((Attribute { flags, code, value }, more))
}

/// The name of a type and its usual flags.
fn name_of(code: u8) -> Option<(&'static [u8], u8)> {
    match code {
        1 => Some((b"origin", 0x40)),
        2 => Some((b"path", 0x40)),
        3 => Some((b"next-hop", 0x40)),
        4 => Some((b"med", 0x80)),
        5 => Some((b"local-pref", 0x40)),
        6 => Some((b"atomic-aggregate", 0x40)),
        8 => Some((b"community", 0xc0)),
        9 => Some((b"originator-id", 0x80)),
        10 => Some((b"cluster-list", 0x80)),
        _ => None,
    }
}

/// Appends an attribute: its name, its flags where they aren't the usual ones, and its value.
fn push_attribute(text: &mut Vec<u8>, attribute: Attribute<'_>) -> Result<(), AllocError> {
    let usual = match name_of(attribute.code) {
        Some((name, usual)) => {
            text.extend_from_slice(name)?;
            usual
        }
        None => {
            text.extend_from_slice(b"attr-")?;
            push_number(text, u64::from(attribute.code))?;
            0xc0
        }
    };
    let long = if attribute.value.len() > 255 { 0x10 } else { 0 };
    if attribute.flags != usual | long {
        text.push(b'/')?;
        push_pair(text, attribute.flags)?;
    }
    push_value(text, attribute.code, attribute.value)
}

/// Appends the value of an attribute of this type after an equals sign.
fn push_value(text: &mut Vec<u8>, code: u8, value: &[u8]) -> Result<(), AllocError> {
    match (code, value) {
        (6, []) => return Ok(()),
        _ => text.push(b'=')?,
    }
    match (code, value) {
        (1, [0]) => text.extend_from_slice(b"igp"),
        (1, [1]) => text.extend_from_slice(b"egp"),
        (1, [2]) => text.extend_from_slice(b"incomplete"),
        (2, _) if is_path(value) => push_path(text, value),
        (3 | 9, [a, b, c, d]) => push_address(text, u32::from_be_bytes([*a, *b, *c, *d])),
        (4 | 5, [a, b, c, d]) => {
            push_number(text, u64::from(u32::from_be_bytes([*a, *b, *c, *d])))
        }
        (8, [_, _, _, _, ..]) if value.len() % 4 == 0 => push_communities(text, value),
        (10, [_, _, _, _, ..]) if value.len() % 4 == 0 => push_addresses(text, value),
        _ => push_hex(text, value),
    }
}

/// Whether a path is whole segments of AS numbers of two octets, each of them a sequence or a set that isn't empty.
fn is_path(value: &[u8]) -> bool {
    let mut rest = value;
    while let Some((_, _, more)) = split_segment(rest) {
        rest = more;
    }
    rest.is_empty()
}

/// The segment in front: its type, its AS numbers, and the octets after it.
fn split_segment(octets: &[u8]) -> Option<(u8, &[u8], &[u8])>
    ensures { IfSome result (λ found. length found.2.now < length octets.now) }
{
    let [kind, count, rest @ ..] = octets else {
        return None;
    };
    let length = 2 * usize::from(*count);
    if *kind < 1 || *kind > 2 || length == 0 || rest.len() < length {
        return None;
    }
    let (numbers, more) = rest.split_at(length);
    Some((*kind, numbers, more))
}

/// Appends the segments of a path with slashes between them; a set stands in braces.
fn push_path(text: &mut Vec<u8>, value: &[u8]) -> Result<(), AllocError> {
    if value.is_empty() {
        text.push(b'-')?;
        return Ok(());
    }
    let mut rest = value;
    let mut mark = b"".as_slice();
    while let Some((kind, numbers, more)) = split_segment(rest) {
        text.extend_from_slice(mark)?;
        push_segment(text, kind, numbers)?;
        mark = b"/".as_slice();
        rest = more;
    }
    Ok(())
}

fn push_segment(text: &mut Vec<u8>, kind: u8, numbers: &[u8]) -> Result<(), AllocError> {
    if kind == 1 {
        text.push(b'{')?;
    }
    let mut rest = numbers;
    let mut mark = b"".as_slice();
    while let [high, low, more @ ..] = rest {
        text.extend_from_slice(mark)?;
        push_number(text, u64::from(u16::from_be_bytes([*high, *low])))?;
        mark = b",".as_slice();
        rest = more;
    }
    if kind == 1 {
        text.push(b'}')?;
    }
    Ok(())
}

/// Appends communities (RFC 1997): two numbers with a colon between them.
fn push_communities(text: &mut Vec<u8>, value: &[u8]) -> Result<(), AllocError> {
    let mut rest = value;
    let mut mark = b"".as_slice();
    while let [a, b, c, d, more @ ..] = rest {
        text.extend_from_slice(mark)?;
        push_number(text, u64::from(u16::from_be_bytes([*a, *b])))?;
        text.push(b':')?;
        push_number(text, u64::from(u16::from_be_bytes([*c, *d])))?;
        mark = b",".as_slice();
        rest = more;
    }
    Ok(())
}

fn push_addresses(text: &mut Vec<u8>, value: &[u8]) -> Result<(), AllocError> {
    let mut rest = value;
    let mut mark = b"".as_slice();
    while let [a, b, c, d, more @ ..] = rest {
        text.extend_from_slice(mark)?;
        push_address(text, u32::from_be_bytes([*a, *b, *c, *d]))?;
        mark = b",".as_slice();
        rest = more;
    }
    Ok(())
}
