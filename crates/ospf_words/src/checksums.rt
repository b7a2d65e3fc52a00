//! The checksums of LSAs and of packets.

ghost use Rattle.std.specs.Prelude.{◌≡◌, ◌<◌, ◌≤◌, ◌+◌, ◌-◌, ◌*◌, ◌^◌, ◌%◌, ◌∷◌, [], length, sum};
ghost use Rattle.rcp_model.specs.RouterLsas.{weighted};
ghost use Rattle.ospf_words.specs.Checksums.{nonzero, high_of, low_of, lsa_checksum, sum_of_pairs, packet_checksum};

/// The modulus of the sums of an LSA.
const MODULUS: u32 = 255;

/// How many of the octets that are summed stand before the second octet of the checksum.
const BEFORE: usize = 15;

/// The modulus of one's complement numbers of two octets.
const ONES: u32 = 65535;

/// The sum of the octets and the sum of all the sums so far, modulo 255.
fn sums(octets: &[u8]) -> (u32, u32)
    ensures first { result.0 ≡ sum octets.now % 255 }
    ensures second { result.1 ≡ weighted octets.now % 255 }
{
    let mut first = 0;
    let mut second = 0;
    for octet in octets {
        first = (first + u32::from(*octet)) % MODULUS;
        second = (second + first) % MODULUS;
    }
    (first, second)
}

/// The octet from 1 to 255 that has this remainder.
fn nonzero(remainder: u32) -> u8
    requires { remainder < 255 }
    ensures { result ≡ nonzero remainder }
{
    if remainder == 0 { 255 } else { remainder as u8 }
}

/// The checksum of an LSA (RFC 2328 section 12.1.7), from its octets after the age with 0 in the checksum's place. Takes a pass
/// over the octets.
#[tactic(auto, unfolding(crate::specs::Checksums::lsa_checksum))]
pub fn lsa_checksum(summed: &[u8]) -> [u8; 2]
    ensures { result ≡ lsa_checksum summed.now }
{
    let (first, second) = sums(summed);
    let after = (summed.len().saturating_sub(BEFORE) % 255) as u32;
    let high = nonzero((after * first + (MODULUS - second)) % MODULUS);
    let low = nonzero((2 * MODULUS - first - u32::from(high)) % MODULUS);
    [high, low]
}

/// The sum of numbers of two octets, modulo 65535.
#[tactic(auto, using(crate::proofs::ChecksumLemmas::pair_off, crate::proofs::ChecksumLemmas::last_octet, crate::proofs::ChecksumLemmas::no_octet))]
fn sum_of_pairs(octets: &[u8]) -> u32
    ensures { result ≡ sum_of_pairs octets.now % 65535 }
{
    let mut sum = 0;
    let mut rest = octets;
    while let [high, low, more @ ..] = rest {
        sum = (sum + u32::from(u16::from_be_bytes([*high, *low]))) % ONES;
        rest = more;
    }
    match rest {
        [high] => (sum + 256 * u32::from(*high)) % ONES,
        _ => sum,
    }
}

/// The checksum of a packet (RFC 2328 section A.3.1), from its octets without the authentication and with 0 in the checksum's
/// place. Takes a pass over the octets.
pub fn packet_checksum(octets: &[u8]) -> [u8; 2]
    ensures { result ≡ packet_checksum octets.now }
{
    let sum = sum_of_pairs(octets);
    let complement = if sum == 0 { 0 } else { ONES - sum };
    (complement as u16).to_be_bytes()
}
