// The checksum of an LSA (RFC 2328 section 12.1.7).
ghost use Rattle.std.specs.Prelude.{◌≡◌, ◌%◌, ◌<◌, ◌≤◌, ◌+◌, ◌-◌, ◌*◌, ◌^◌, length, sum};
ghost use Rattle.rcp_model.specs.RouterLsas.{weighted, has_zero_sums as zero_sums};

const MODULUS: u32 = 255;

/// Where the checksum stands among the octets that are summed.
const PLACE: usize = 14;

/// The sum of the octets and the sum of all the sums so far, modulo 255.
pub fn sums(octets: &[u8]) -> (u32, u32)
    ensures first { result.0 ≡ sum octets.now % 255 }
    ensures second { result.1 ≡ weighted octets.now % 255 }
{
    let mut first = 0;
    let mut second = 0;
    for octet in octets {
        first = (first + u32::from(*octet)) % MODULUS;
        second = (second + first) % MODULUS;
    }
    (first, second)
}

/// Whether both sums are 0.
pub fn has_zero_sums(octets: &[u8]) -> bool
    ensures { result ≡ zero_sums octets.now }
{
    sums(octets) == (0, 0)
}

/// The two octets of the checksum of these octets, in which 0 stands in its place: each from 1 to 255, so that both
/// sums are 0 with them there.
pub fn checksum(summed: &[u8]) -> (u8, u8)
    requires least { 16 ≤ length summed.now }
    requires most { length summed.now < 2 ^ 16 }
    ensures high { (0 < result.0) × (result.0 < 256) }
    ensures low { (0 < result.1) × (result.1 < 256) }
    ensures first { (sum summed.now + (result.0 + result.1)) % 255 ≡ 0 }
    ensures second { (weighted summed.now + ((length summed.now - 14) * result.0 + (length summed.now - 15) * result.1)) % 255 ≡ 0 }
{
    let (first, second) = sums(summed);
    let behind = (summed.len() - PLACE - 1) as u32;
    let high = nonzero((behind * first + (MODULUS - second)) % MODULUS);
    let low = nonzero((2 * MODULUS - first - u32::from(high)) % MODULUS);
    (high, low)
}

/// The octet from 1 to 255 that has this remainder.
fn nonzero(remainder: u32) -> u8
    requires { remainder < 255 }
    ensures range { (0 < result) × (result < 256) }
    ensures same { result % 255 ≡ remainder }
{
    if remainder == 0 { 255 } else { remainder as u8 }
}
