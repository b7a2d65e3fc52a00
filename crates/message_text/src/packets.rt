//! OSPF packets in words (RFC 2328 sections A.3.1 and A.3.5).

ghost use Rattle.std.specs.Prelude.{◌<◌, ◌≤◌, length, IfSome};

use crate::hex::{push_hex, push_octets_word};
use crate::lsas::{push_checksum, push_lsas};
use crate::numbers::{push_address, push_number};
use crate::parts::Message;
use ospf_words::packet_checksum;
use std::alloc::AllocError;

/// The octets of a packet's header.
const HEADER: usize = 24;

/// The type of an LS Update.
const LS_UPDATE: u8 = 4;

/// An OSPF packet.
#[derive(Clone, Copy, Drop)]
pub struct OspfPacket<'a> {
    kind: u8,
    /// The octets before the checksum.
    front: &'a [u8],
    router: u32,
    area: u32,
    checksum: [u8; 2],
    autype: u16,
    authentication: [u8; 8],
    body: &'a [u8],
}

impl<'a> Message<'a> for OspfPacket<'a> {
    fn split(octets: &'a [u8]) -> Option<(OspfPacket<'a>, &'a [u8])> {
        let [2, _, high, low, ..] = octets else {
            return None;
        };
        let length = usize::from(u16::from_be_bytes([*high, *low]));
        if octets.len() < length {
            return None;
        }
        let (packet, rest) = octets.split_at(length);
        Some((packet_of(packet)?, rest))
    }

    fn push(&self, text: &mut Vec<u8>) -> Result<(), AllocError> {
        match (self.kind, self.body) {
            (LS_UPDATE, [a, b, c, d, lsas @ ..]) => {
                text.extend_from_slice(b"ls-update")?;
                push_header(text, self)?;
                push_update(text, u32::from_be_bytes([*a, *b, *c, *d]), lsas)
            }
            _ => {
                text.extend_from_slice(b"packet ")?;
                push_number(text, u64::from(self.kind))?;
                push_header(text, self)?;
                push_octets_word(text, b" body=", self.body)
            }
        }
    }
}

/// The packet of these octets. None where they have no whole header.
fn packet_of(octets: &[u8]) -> Option<OspfPacket<'_>>
    ensures { IfSome result (λ _. 24 ≤ length octets.now) }
{
    if octets.len() < HEADER {
        return None;
    }
    let (header, body) = octets.split_at(HEADER);
    let (front, header) = header.split_at(12);
    let [_, kind, _, _, r0, r1, r2, r3, a0, a1, a2, a3] = front else {
        return None;
    };
    let [c0, c1, t0, t1, u0, u1, u2, u3, u4, u5, u6, u7] = header else {
        return None;
    };
    Some(OspfPacket {
        kind: *kind,
        front,
        router: u32::from_be_bytes([*r0, *r1, *r2, *r3]),
        area: u32::from_be_bytes([*a0, *a1, *a2, *a3]),
        checksum: [*c0, *c1],
        autype: u16::from_be_bytes([*t0, *t1]),
        authentication: [*u0, *u1, *u2, *u3, *u4, *u5, *u6, *u7],
        body,
    })
}

/// Router ID, Area ID, checksum, AuType and authentication. Those that are computed or usual are left out.
fn push_header(text: &mut Vec<u8>, packet: &OspfPacket<'_>) -> Result<(), AllocError> {
    text.extend_from_slice(b" router=")?;
    push_address(text, packet.router)?;
    text.extend_from_slice(b" area=")?;
    push_address(text, packet.area)?;
    let computed = computed_checksum(text, packet)?;
    push_checksum(text, packet.checksum, computed)?;
    if packet.autype != 0 {
        text.extend_from_slice(b" autype=")?;
        push_number(text, u64::from(packet.autype))?;
    }
    if packet.authentication == [0; 8] {
        return Ok(());
    }
    text.extend_from_slice(b" authentication=")?;
    push_hex(text, &packet.authentication)
}

/// The checksum that is computed for a packet, from its octets without the authentication and with 0 in the checksum's place.
fn computed_checksum(text: &Vec<u8>, packet: &OspfPacket<'_>) -> Result<[u8; 2], AllocError> {
    let mut summed = Vec::from_slice(*text.allocator(), packet.front)?;
    summed.extend_from_slice(&[0, 0])?;
    summed.extend_from_slice(&packet.autype.to_be_bytes())?;
    summed.extend_from_slice(packet.body)?;
    Ok(packet_checksum(&summed))
}

/// The LSAs of an LS Update, their number where it isn't how many there are, and the octets after them.
fn push_update(text: &mut Vec<u8>, count: u32, octets: &[u8]) -> Result<(), AllocError> {
    let (shown, rest) = push_lsas(text, octets)?;
    if shown != u64::from(count) {
        text.extend_from_slice(b" count=")?;
        push_number(text, u64::from(count))?;
    }
    push_octets_word(text, b" rest=", rest)
}
