// Octets out of router LSAs.
ghost use Rattle.std.specs.Prelude.{◌≡◌, ◌≤◌, ◌<◌, ◌+◌, ◌*◌, ◌^◌, ◌↔◌, ◌++◌, length, take, drop, IsNone, IfSome, IfNone};
ghost use Rattle.lsa_reader.specs.Writing.{Spells, written_len, header_octets as header_of, octets_with, link_octets as octets_of_link};

use crate::checksum::checksum;
use crate::lsa::{Lsa, LsaLink, ROUTER_LSA};

const BEFORE_LINKS: usize = 24;

const LINK_LEN: usize = 12;

const OPTIONS: u8 = 2;

/// Writes the LSA to the front of `out` and answers how many octets it has: options 2, no flags, no link data, no
/// TOS metrics, and the checksum that makes the sums 0, each of its two octets from 1 to 255. The value's own
/// checksum is unread. None where `out` is too short.
pub fn write(lsa: &Lsa, out: &mut [u8]) -> Option<usize>
    requires age { lsa.now.header.age ≤ 3600 }
    requires few { length lsa.now.content ≤ 5459 }
    ensures none { IsNone result ↔ (length out.old < written_len lsa.now) }
    ensures len { IfSome result (λ len. len ≡ written_len lsa.now) }
    ensures spelled { IfSome result (λ len. Spells lsa.now (take len out.new)) }
    ensures behind { IfSome result (λ len. drop len out.new ≡ drop len out.old) }
    ensures unchanged { IfNone result (out.new ≡ out.old) }
{
    let len = BEFORE_LINKS + LINK_LEN * lsa.links.len();
    if out.len() < len {
        return None;
    }
    let (front, _) = out.split_at_mut(len);
    fill(lsa, front);
    Some(len)
}

/// Writes the LSA to octets that have just its length.
fn fill(lsa: &Lsa, out: &mut [u8])
    requires exact { length out.old ≡ written_len lsa.now }
    requires few { length lsa.now.content ≤ 5459 }
    ensures { Spells lsa.now out.new }
{
    put(out, 0, &header_octets(lsa));
    for (i, link) in lsa.links.iter().enumerate() {
        put(out, BEFORE_LINKS + LINK_LEN * i, &link_octets(link));
    }
    let (_, summed) = out.split_at(2);
    let (high, low) = checksum(summed);
    out[16] = high;
    out[17] = low;
}

/// Copies the octets into `out`, from this place on.
fn put(out: &mut [u8], place: usize, octets: &[u8])
    requires { place + length octets.now ≤ length out.old }
    ensures { take (place + length octets.now) out.new ≡ take place out.old ++ octets.now }
{
    let (_, room) = out.split_at_mut(place);
    let (slots, _) = room.split_at_mut(octets.len());
    slots.copy_from_slice(octets);
}

/// What stands before the links, with 0 in the place of the checksum.
fn header_octets(lsa: &Lsa) -> [u8; 24]
    requires { length lsa.now.content ≤ 5459 }
    ensures { result ≡ header_of 0 0 lsa.now }
{
    let count = lsa.links.len();
    let [a0, a1] = lsa.age.to_be_bytes();
    let [r0, r1, r2, r3] = lsa.router.0.to_be_bytes();
    let [s0, s1, s2, s3] = lsa.sequence.cast_unsigned().to_be_bytes();
    let [l0, l1] = ((BEFORE_LINKS + LINK_LEN * count) as u16).to_be_bytes();
    let [c0, c1] = (count as u16).to_be_bytes();
    [
        a0, a1, OPTIONS, ROUTER_LSA, r0, r1, r2, r3, r0, r1, r2, r3, s0, s1, s2, s3, 0, 0, l0, l1,
        0, 0, c0, c1,
    ]
}

fn link_octets(link: &LsaLink) -> [u8; 12]
    ensures { result ≡ octets_of_link link.now }
{
    let [i0, i1, i2, i3] = link.id.to_be_bytes();
    let [m0, m1] = link.metric.to_be_bytes();
    [i0, i1, i2, i3, 0, 0, 0, 0, link.kind, 0, m0, m1]
}
