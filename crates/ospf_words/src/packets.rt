//! OSPF packets as parts of a line.

ghost use Rattle.std.specs.Prelude.{◌≡◌, ◌+◌, ◌^◌, ◌++◌, ◌≤◌, [], ◌∷◌, length, replicate, codes, OnOk};
ghost use Rattle.line_words.specs.Words.{words_of, hex_onto};
ghost use Rattle.line_words.specs.Reading.{Gives};
ghost use Rattle.ospf_words.specs.Packets.{front, packet_with, checksum_of, packet_onto, update_body, body_of, packet, any_packet, ospf_part};

use crate::checksums::packet_checksum;
use crate::lsas::push_lsas;
use line_words::{
    Stop, Why, address_field, fault, next_word, number_word, octets_part, optional_hex,
    optional_number, optional_sized_hex,
};
use std::alloc::AllocError;

/// The most octets of a packet's body, whose length has two octets with its header.
const MOST_BODY: usize = 65511;

/// LS Update (RFC 2328 section A.3.5).
const LS_UPDATE: u8 = 4;

/// How the body of a packet is written.
#[derive(Clone, Copy)]
pub enum PacketBody {
    /// As the LSAs of an LS Update.
    Lsas,
    /// In hexadecimal.
    Octets,
}

/// The numbers of a packet's header (RFC 2328 section A.3.1).
#[derive(Clone, Copy)]
pub struct Header {
    pub kind: u8,
    pub router: u32,
    pub area: u32,
    pub autype: u16,
}

/// Appends the header of a packet before its checksum.
#[tactic(auto, unfolding(crate::specs::Packets::front))]
fn push_front(out: &mut Vec<u8>, header: Header, whole: u16) -> Result<(), AllocError>
    ensures octets { OnOk result (out.new.items ≡ out.old.items ++ front header whole) }
    ensures twelve { OnOk result (length out.new.items ≡ length out.old.items + 12) }
{
    out.extend_from_slice(&[2, header.kind])?;
    out.extend_from_slice(&whole.to_be_bytes())?;
    out.extend_from_slice(&header.router.to_be_bytes())?;
    out.extend_from_slice(&header.area.to_be_bytes())
}

/// Appends a packet whose checksum and authentication have these octets.
fn push_packet(
    out: &mut Vec<u8>,
    header: Header,
    checksum: &[u8],
    authentication: &[u8],
    body: &[u8],
) -> Result<(), AllocError>
    requires { length body.now ≤ 65511 }
    ensures octets { OnOk result (out.new.items ≡ out.old.items ++ packet_with header checksum.now authentication.now body.now) }
    ensures len { OnOk result (length out.new.items ≡ length out.old.items + 14 + length checksum.now + length authentication.now + length body.now) }
{
    push_front(out, header, 24 + body.len() as u16)?;
    out.extend_from_slice(checksum)?;
    out.extend_from_slice(&header.autype.to_be_bytes())?;
    out.extend_from_slice(authentication)?;
    out.extend_from_slice(body)
}

/// Appends the checksum that is computed for a packet.
fn push_checksum(out: &mut Vec<u8>, header: Header, body: &[u8]) -> Result<(), AllocError>
    requires few { length body.now ≤ 65511 }
    requires empty { out.old.items ≡ [] }
    ensures { OnOk result (out.new.items ≡ checksum_of header [] body.now) }
{
    let mut summed = Vec::new(*out.allocator());
    push_packet(&mut summed, header, &[0, 0], &[], body)?;
    out.extend_from_slice(&packet_checksum(&summed))
}

/// Appends a packet with the checksum that is given, else with the one that is computed.
#[tactic(auto, unfolding(crate::specs::Packets::packet_onto))]
fn packet_onto<'a>(
    out: &mut Vec<u8>,
    header: Header,
    checksum: &[u8],
    authentication: &[u8],
    body: &[u8],
    words: &'a [u8],
) -> Result<&'a [u8], Stop>
    ensures { Gives (λ rest. (out.new.items, words_of rest.now)) result (packet_onto out.old.items header checksum.now authentication.now body.now (words_of words.now)) }
{
    if body.len() > MOST_BODY {
        return Err(fault(words, Why::Long));
    }
    if !checksum.is_empty() {
        push_packet(out, header, checksum, authentication, body)?;
        return Ok(words);
    }
    let mut computed = Vec::new(*out.allocator());
    push_checksum(&mut computed, header, body)?;
    push_packet(out, header, &computed, authentication, body)?;
    Ok(words)
}

/// Appends the body of an LS Update: the number of LSAs, the LSAs, and octets after them.
#[tactic(auto, unfolding(crate::specs::Packets::update_body))]
fn update_body<'a>(words: &'a [u8], body: &mut Vec<u8>) -> Result<&'a [u8], Stop>
    requires { body.old.items ≡ [] }
    ensures { Gives (λ rest. (body.new.items, words_of rest.now)) result (update_body (words_of words.now)) }
{
    let alloc = *body.allocator();
    let mut lsas = Vec::new(alloc);
    let (counted, words) = push_lsas(words, &mut lsas)?;
    let (count, words) = optional_number::<u32>(words, b"count=", counted)?;
    let mut rest = Vec::new(alloc);
    let words = optional_hex(words, b"rest=", &mut rest)?;
    body.extend_from_slice(&count.to_be_bytes())?;
    body.extend_from_slice(&lsas)?;
    body.extend_from_slice(&rest)?;
    Ok(words)
}

#[tactic(auto, unfolding(crate::specs::Packets::body_of))]
fn push_body<'a>(words: &'a [u8], form: PacketBody, body: &mut Vec<u8>) -> Result<&'a [u8], Stop>
    requires { body.old.items ≡ [] }
    ensures { Gives (λ rest. (body.new.items, words_of rest.now)) result (body_of form (words_of words.now)) }
{
    match form {
        PacketBody::Lsas => update_body(words, body),
        PacketBody::Octets => optional_hex(words, b"body=", body),
    }
}

/// Appends a packet of this type.
#[tactic(auto, unfolding(crate::specs::Packets::packet))]
fn packet<'a>(
    words: &'a [u8],
    kind: u8,
    form: PacketBody,
    out: &mut Vec<u8>,
) -> Result<&'a [u8], Stop>
    ensures { Gives (λ rest. (out.new.items, words_of rest.now)) result (packet out.old.items kind form (words_of words.now)) }
{
    let alloc = *out.allocator();
    let (router, words) = address_field(words, b"router=")?;
    let (area, words) = address_field(words, b"area=")?;
    let mut checksum = Vec::new(alloc);
    let words = optional_sized_hex(words, b"checksum=", 2, &[], &mut checksum)?;
    let (autype, words) = optional_number::<u16>(words, b"autype=", 0)?;
    let mut authentication = Vec::new(alloc);
    let words = optional_sized_hex(words, b"authentication=", 8, &[0; 8], &mut authentication)?;
    let mut body = Vec::new(alloc);
    let words = push_body(words, form, &mut body)?;
    let header = Header {
        kind,
        router,
        area,
        autype,
    };
    packet_onto(out, header, &checksum, &authentication, &body, words)
}

/// Appends a packet of any type.
#[tactic(auto, unfolding(crate::specs::Packets::any_packet))]
fn any_packet<'a>(words: &'a [u8], out: &mut Vec<u8>) -> Result<&'a [u8], Stop>
    ensures { Gives (λ rest. (out.new.items, words_of rest.now)) result (any_packet out.old.items (words_of words.now)) }
{
    let (kind, words) = number_word::<u8>(words)?;
    packet(words, kind, PacketBody::Octets, out)
}

/// A part of an `ospf` line: a packet, or any octets. Its octets are appended; the answer is the words after it.
#[tactic(auto, unfolding(crate::specs::Packets::ospf_part))]
pub fn ospf_part<'a>(words: &'a [u8], out: &mut Vec<u8>) -> Result<&'a [u8], Stop>
    ensures { Gives (λ rest. (out.new.items, words_of rest.now)) result (ospf_part out.old.items (words_of words.now)) }
{
    let (word, rest) = next_word(words)?;
    if word == b"ls-update".as_slice() {
        packet(rest, LS_UPDATE, PacketBody::Lsas, out)
    } else if word == b"packet".as_slice() {
        any_packet(rest, out)
    } else {
        octets_part(words, out)
    }
}
