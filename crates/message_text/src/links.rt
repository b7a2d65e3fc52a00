//! Links of a router LSA in words (RFC 2328 section A.4.2).

ghost use Rattle.std.specs.Prelude.{◌<◌, length, IfSome};

use crate::hex::push_hex;
use crate::numbers::{push_address, push_number};
use lsa_reader::{POINT_TO_POINT, STUB, TRANSIT, VIRTUAL};
use std::alloc::AllocError;

/// A link as it lies in a router LSA.
#[derive(Clone, Copy)]
struct Link<'a> {
    id: u32,
    link_data: u32,
    kind: u8,
    metric: u16,
    /// The octets of its TOS metrics.
    tos: &'a [u8],
}

/// The flags and the octets of the links of a router LSA's body, where it has just as many links as it says.
pub fn router_links(body: &[u8]) -> Option<(u8, &[u8])> {
    let [flags, 0, high, low, links @ ..] = body else {
        return None;
    };
    if count_links(links)? == u64::from(u16::from_be_bytes([*high, *low])) {
        Some((*flags, links))
    } else {
        None
    }
}

/// How many links these octets are. None where they aren't whole links.
fn count_links(octets: &[u8]) -> Option<u64> {
    let mut count = 0;
    let mut rest = octets;
    while let Some((_, more)) = split_link(rest) {
        count += 1;
        rest = more;
    }
    if rest.is_empty() { Some(count) } else { None }
}

/// The link in front, and the octets after it.
fn split_link(octets: &[u8]) -> Option<(Link<'_>, &[u8])>
    ensures { IfSome result (λ found. length found.1.now < length octets.now) }
{
    let [
        i0,
        i1,
        i2,
        i3,
        d0,
        d1,
        d2,
        d3,
        kind,
        count,
        m0,
        m1,
        rest @ ..,
    ] = octets
    else {
        return None;
    };
    let length = 4 * usize::from(*count);
    if rest.len() < length {
        return None;
    }
    let (tos, rest) = rest.split_at(length);
    let link = Link {
        id: u32::from_be_bytes([*i0, *i1, *i2, *i3]),
        link_data: u32::from_be_bytes([*d0, *d1, *d2, *d3]),
        kind: *kind,
        metric: u16::from_be_bytes([*m0, *m1]),
        tos,
    };
    Some((link, rest))
}

/// Appends the words of links.
pub fn push_links(text: &mut Vec<u8>, octets: &[u8]) -> Result<(), AllocError> {
    let mut rest = octets;
    while let Some((link, more)) = split_link(rest) {
        text.push(b' ')?;
        push_link(text, link)?;
        rest = more;
    }
    Ok(())
}

/// Appends a link: its type, its Link ID, its Link Data unless it is 0, its metric and its TOS metrics.
fn push_link(text: &mut Vec<u8>, link: Link<'_>) -> Result<(), AllocError> {
    push_type(text, link.kind)?;
    text.push(b'=')?;
    push_address(text, link.id)?;
    if link.link_data != 0 {
        text.push(b'@')?;
        push_address(text, link.link_data)?;
    }
    text.push(b':')?;
    push_number(text, u64::from(link.metric))?;
    if link.tos.is_empty() {
        return Ok(());
    }
    text.push(b'+')?;
    push_hex(text, link.tos)
}

/// The name of a link's type.
fn push_type(text: &mut Vec<u8>, kind: u8) -> Result<(), AllocError> {
    let name = match kind {
        POINT_TO_POINT => b"point-to-point".as_slice(),
        TRANSIT => b"transit",
        STUB => b"stub",
        VIRTUAL => b"virtual",
        _ => {
            text.extend_from_slice(b"link-")?;
            return push_number(text, u64::from(kind));
        }
    };
    text.extend_from_slice(name)
}
