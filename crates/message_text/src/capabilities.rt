//! Optional parameters of an OPEN and its capabilities in words (RFC 4271 section 4.2, RFC 5492).

ghost use Rattle.std.specs.Prelude.{◌<◌, length, IfSome};

use crate::hex::push_hex;
use crate::numbers::push_number;
use std::alloc::AllocError;

/// A code, a length of one octet and a value in front, and the octets after them.
pub fn split_coded(octets: &[u8]) -> Option<(u8, &[u8], &[u8])>
    ensures { IfSome result (λ found. length found.2.now < length octets.now) }
{
    let [code, count, rest @ ..] = octets else {
        return None;
    };
    let count = usize::from(*count);
    if rest.len() < count {
        return None;
    }
    let (value, more) = rest.split_at(count);
    Some((*code, value, more))
}

/// Appends a parameter: capabilities, or a type and its value.
pub fn push_parameter(text: &mut Vec<u8>, kind: u8, value: &[u8]) -> Result<(), AllocError> {
    if kind == 2 && are_capabilities(value) {
        return push_capabilities(text, value);
    }
    text.extend_from_slice(b" param-")?;
    push_number(text, u64::from(kind))?;
    text.push(b'=')?;
    push_hex(text, value)
}

/// Whether octets are one whole capability or more.
fn are_capabilities(value: &[u8]) -> bool {
    let mut rest = value;
    while let Some((_, _, more)) = split_coded(rest) {
        rest = more;
    }
    rest.is_empty() && !value.is_empty()
}

fn push_capabilities(text: &mut Vec<u8>, value: &[u8]) -> Result<(), AllocError> {
    let mut rest = value;
    let mut mark = b" caps=".as_slice();
    while let Some((code, value, more)) = split_coded(rest) {
        text.extend_from_slice(mark)?;
        push_capability(text, code, value)?;
        mark = b",".as_slice();
        rest = more;
    }
    Ok(())
}

/// Appends a capability: RFC 4760 section 8, RFC 2918, RFC 8654, RFC 6793, RFC 7313, or any.
fn push_capability(text: &mut Vec<u8>, code: u8, value: &[u8]) -> Result<(), AllocError> {
    match (code, value) {
        (1, [high, low, 0, next]) => {
            text.extend_from_slice(b"mp:")?;
            push_number(text, u64::from(u16::from_be_bytes([*high, *low])))?;
            text.push(b'/')?;
            push_number(text, u64::from(*next))
        }
        (2, []) => text.extend_from_slice(b"route-refresh"),
        (6, []) => text.extend_from_slice(b"extended-message"),
        (65, [a, b, c, d]) => {
            text.extend_from_slice(b"as4:")?;
            push_number(text, u64::from(u32::from_be_bytes([*a, *b, *c, *d])))
        }
        (70, []) => text.extend_from_slice(b"enhanced-route-refresh"),
        _ => {
            push_number(text, u64::from(code))?;
            text.push(b':')?;
            push_hex(text, value)
        }
    }
}
