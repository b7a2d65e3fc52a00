//! Numbers in octets, the high one first, and the one place that says how wide an AS number is.

ghost use Rattle.std.specs.Prelude.{◌≡◌, ◌+◌, ◌<◌, ◌≤◌, ◌∷◌, ◌++◌, length, IfNone, IfSome, MatchOption};
ghost use Rattle.std.specs.Int.{w32, to_be_bytes, byte_len};
ghost use Rattle.rcp_model.specs.Attributes.{numbers_in, number_width};
ghost use Rattle.path_attrs.specs.Appending.{Appends};
ghost use Rattle.path_attrs.specs.Width.{number_octets};

use octet_room::Room;

/// An AS number of AS_PATH and AGGREGATOR (RFC 4271, section 4.3).
pub type AsNumber = u16;

/// How many octets an AS number has.
pub const NUMBER_LEN: usize = 2;

/// The AS number at the front and the octets after it, or None where they are too few.
#[tactic(auto, using(crate::proofs::Paths::numbers_in_front))]
pub fn split_number(octets: &[u8]) -> Option<(AsNumber, &[u8])>
    ensures none { IfNone result (length octets.now < byte_len number_width) }
    ensures spelled { IfSome result (λ split. octets.now ≡ number_octets split.0 ++ split.1.now) }
    ensures are_read { IfSome result (λ split.
        numbers_in number_width octets.now ≡ split.0 ∷ numbers_in number_width split.1.now) }
{
    match octets {
        [high, low, rest @ ..] => Some((AsNumber::from_be_bytes([*high, *low]), rest)),
        _ => None,
    }
}

/// Puts an AS number at a place, and gives the place after it.
pub fn put_number<R: Room>(out: &mut R, at: usize, number: AsNumber) -> usize
    requires place { R.is_place out.old at }
    requires room { at + byte_len number_width ≤ R.size out.old }
    ensures appends { Appends (R.octets out.old) at (R.octets out.new) result (number_octets number) }
    ensures place { R.is_place out.new result }
    ensures size { R.size out.old ≤ R.size out.new }
{
    out.put(at, &number.to_be_bytes())
}

/// The number of four octets at the front and the octets after it, or None where they are too few.
pub fn split_u32(octets: &[u8]) -> Option<(u32, &[u8])>
    ensures { MatchOption result (length octets.now < 4)
        (λ split. octets.now ≡ to_be_bytes w32 split.0 ++ split.1.now) }
{
    match octets {
        [a, b, c, d, rest @ ..] => Some((u32::from_be_bytes([*a, *b, *c, *d]), rest)),
        _ => None,
    }
}

/// Puts a number of four octets at a place, and gives the place after it.
pub fn put_u32<R: Room>(out: &mut R, at: usize, number: u32) -> usize
    requires place { R.is_place out.old at }
    requires room { at + 4 ≤ R.size out.old }
    ensures appends { Appends (R.octets out.old) at (R.octets out.new) result (to_be_bytes w32 number) }
    ensures place { R.is_place out.new result }
    ensures size { R.size out.old ≤ R.size out.new }
{
    out.put(at, &number.to_be_bytes())
}
