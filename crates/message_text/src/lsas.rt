//! LSAs in words (RFC 2328 sections A.4.1 and A.4.2).

ghost use Rattle.std.specs.Prelude.{◌<◌, ◌≤◌, length, IfSome};

use crate::hex::{push_hex, push_octets_word};
use crate::links::{push_links, router_links};
use crate::numbers::{push_address, push_number};
use lsa_reader::ROUTER_LSA;
use ospf_words::lsa_checksum;
use std::alloc::AllocError;

/// The octets of an LSA's header.
const HEADER: usize = 20;

/// The usual options: the E-bit (RFC 2328 section A.2).
const OPTIONS: u8 = 2;

/// An LSA as it lies in an LS Update.
#[derive(Clone, Copy)]
struct Lsa<'a> {
    age: u16,
    options: u8,
    kind: u8,
    id: u32,
    router: u32,
    sequence: [u8; 4],
    checksum: [u8; 2],
    /// The octets between the age and the checksum.
    before: &'a [u8],
    /// The length and the body.
    after: &'a [u8],
    body: &'a [u8],
}

/// Appends the whole LSAs in front, and answers their number and the octets after them.
pub fn push_lsas<'a>(text: &mut Vec<u8>, octets: &'a [u8]) -> Result<(u64, &'a [u8]), AllocError> {
    let mut count = 0;
    let mut rest = octets;
    while let Some((lsa, more)) = split_lsa(rest) {
        push_lsa(text, lsa)?;
        count += 1;
        rest = more;
    }
    Ok((count, rest))
}

/// The LSA in front, and the octets after it.
fn split_lsa(octets: &[u8]) -> Option<(Lsa<'_>, &[u8])>
    ensures { IfSome result (λ found. length found.1.now < length octets.now) }
{
    if octets.len() < HEADER {
        return None;
    }
    let length = usize::from(u16::from_be_bytes([octets[18], octets[19]]));
    if octets.len() < length {
        return None;
    }
    let (octets, rest) = octets.split_at(length);
    Some((lsa_of(octets)?, rest))
}

/// The LSA of these octets. None where they have no whole header.
fn lsa_of(octets: &[u8]) -> Option<Lsa<'_>>
    ensures { IfSome result (λ _. 20 ≤ length octets.now) }
{
    let [
        a0,
        a1,
        options,
        kind,
        i0,
        i1,
        i2,
        i3,
        r0,
        r1,
        r2,
        r3,
        s0,
        s1,
        s2,
        s3,
        c0,
        c1,
        _,
        _,
        body @ ..,
    ] = octets
    else {
        return None;
    };
    Some(Lsa {
        age: u16::from_be_bytes([*a0, *a1]),
        options: *options,
        kind: *kind,
        id: u32::from_be_bytes([*i0, *i1, *i2, *i3]),
        router: u32::from_be_bytes([*r0, *r1, *r2, *r3]),
        sequence: [*s0, *s1, *s2, *s3],
        checksum: [*c0, *c1],
        before: &octets[2..16],
        after: &octets[18..],
        body,
    })
}

/// Appends an LSA: a router LSA with its links where its body is just these, else one with its body in hexadecimal.
fn push_lsa(text: &mut Vec<u8>, lsa: Lsa<'_>) -> Result<(), AllocError> {
    match router_links(lsa.body) {
        Some((flags, links)) if lsa.kind == ROUTER_LSA => {
            text.extend_from_slice(b" router-lsa")?;
            push_header(text, lsa)?;
            if flags != 0 {
                text.extend_from_slice(b" flags=")?;
                push_hex(text, &[flags])?;
            }
            push_links(text, links)
        }
        _ => {
            text.extend_from_slice(b" lsa ")?;
            push_number(text, u64::from(lsa.kind))?;
            push_header(text, lsa)?;
            push_octets_word(text, b" body=", lsa.body)
        }
    }
}

/// LS age, options, Link State ID, Advertising Router, LS sequence number and checksum. Those that are computed or usual are left
/// out.
fn push_header(text: &mut Vec<u8>, lsa: Lsa<'_>) -> Result<(), AllocError> {
    text.extend_from_slice(b" age=")?;
    push_number(text, u64::from(lsa.age))?;
    if lsa.options != OPTIONS {
        text.extend_from_slice(b" options=")?;
        push_hex(text, &[lsa.options])?;
    }
    text.extend_from_slice(b" id=")?;
    push_address(text, lsa.id)?;
    if lsa.router != lsa.id {
        text.extend_from_slice(b" advertising-router=")?;
        push_address(text, lsa.router)?;
    }
    text.extend_from_slice(b" sequence=")?;
    push_hex(text, &lsa.sequence)?;
    let computed = computed_checksum(text, lsa)?;
    push_checksum(text, lsa.checksum, computed)
}

/// The checksum that is computed for an LSA, from its octets without the age and with 0 in the checksum's place.
fn computed_checksum(text: &Vec<u8>, lsa: Lsa<'_>) -> Result<[u8; 2], AllocError> {
    let mut summed = Vec::from_slice(*text.allocator(), lsa.before)?;
    summed.extend_from_slice(&[0, 0])?;
    summed.extend_from_slice(lsa.after)?;
    Ok(lsa_checksum(&summed))
}

/// Appends a checksum, unless it is the one that is computed.
pub fn push_checksum(
    text: &mut Vec<u8>,
    given: [u8; 2],
    computed: [u8; 2],
) -> Result<(), AllocError> {
    if given == computed {
        return Ok(());
    }
    text.extend_from_slice(b" checksum=")?;
    push_hex(text, &given)
}
