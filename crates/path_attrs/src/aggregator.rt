//! AGGREGATOR: who made a route from others (RFC 4271, section 5.1.7).

ghost use Rattle.std.specs.Prelude.{◌≡◌, ◌+◌, ◌≤◌, length};
ghost use Rattle.std.specs.Int.{byte_len};
ghost use Rattle.rcp_model.specs.Attributes.{number_width};
ghost use Rattle.path_attrs.specs.Appending.{Appends};
ghost use Rattle.path_attrs.specs.Aggregators.{aggregator_octets};

use crate::numbers::{AsNumber, NUMBER_LEN, put_number, put_u32, split_number, split_u32};
use octet_room::Room;
use rcp_base::Addr;

/// How many octets an aggregator has.
pub const AGGREGATOR_LEN: usize = NUMBER_LEN + 4;

/// The speaker that made a route from others, and its AS.
#[derive(Clone, Copy, Debug, PartialEq, Eq)]
pub struct Aggregator {
    pub as_number: AsNumber,
    pub speaker: Addr,
}

impl Aggregator {
    /// The aggregator of exactly so many octets as one has.
    pub fn read(octets: &[u8]) -> Aggregator
        requires { length octets.now ≡ byte_len number_width + 4 }
        ensures { aggregator_octets result ≡ octets.now }
    {
        match split_number(octets) {
            Some((as_number, rest)) => match split_u32(rest) {
                Some((speaker, _)) => Aggregator {
                    as_number,
                    speaker: Addr(speaker),
                },
                None => unreachable!(),
            },
            None => unreachable!(),
        }
    }

    /// Puts an aggregator at a place, and gives the place after it.
    pub fn put<R: Room>(self, out: &mut R, at: usize) -> usize
        requires place { R.is_place out.old at }
        requires room { at + (byte_len number_width + 4) ≤ R.size out.old }
        ensures appends { Appends (R.octets out.old) at (R.octets out.new) result (aggregator_octets self) }
        ensures place { R.is_place out.new result }
        ensures size { R.size out.old ≤ R.size out.new }
    {
        let at = put_number(out, at, self.as_number);
        put_u32(out, at, self.speaker.0)
    }
}
