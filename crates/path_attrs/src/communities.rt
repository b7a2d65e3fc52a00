//! COMMUNITIES: labels of a route, each a number of four octets (RFC 1997).

ghost use Rattle.std.specs.Prelude.{◌≡◌, ◌+◌, ◌%◌, ◌^◌, ◌<◌, ◌≤◌, length, IfOk};
ghost use Rattle.std.specs.Int.{w32, to_be_bytes};
ghost use Rattle.std.specs.List.{flat_map};
ghost use Rattle.path_attrs.specs.Appending.{Appends};

use crate::numbers::{put_u32, split_u32};
use octet_room::Room;
use std::alloc::{AllocError, Global};

/// The numbers of octets that are whole numbers.
pub fn read_communities(alloc: Global, octets: &[u8]) -> Result<Vec<u32>, AllocError>
    requires { length octets.now % 4 ≡ 0 }
    ensures { IfOk result (λ numbers. flat_map (to_be_bytes w32) numbers.items ≡ octets.now) }
{
    let mut numbers = Vec::with_capacity(alloc, octets.len() / 4)?;
    let mut rest = octets;
    while let Some((number, after)) = split_u32(rest) {
        numbers.push(number)?;
        rest = after;
    }
    Ok(numbers)
}

/// How many octets numbers of four octets have.
pub fn communities_len(numbers: &[u32]) -> usize
    requires { length (flat_map (to_be_bytes w32) numbers.now) < 2 ^ 16 }
    ensures { result ≡ length (flat_map (to_be_bytes w32) numbers.now) }
{
    numbers.len() * 4
}

/// Puts numbers of four octets at a place, and gives the place after them.
pub fn put_communities<R: Room>(out: &mut R, at: usize, numbers: &[u32]) -> usize
    requires place { R.is_place out.old at }
    requires room { at + length (flat_map (to_be_bytes w32) numbers.now) ≤ R.size out.old }
    ensures appends { Appends (R.octets out.old) at (R.octets out.new) result (flat_map (to_be_bytes w32) numbers.now) }
    ensures place { R.is_place out.new result }
    ensures size { R.size out.old ≤ R.size out.new }
{
    let mut end = at;
    for number in numbers {
        end = put_u32(out, end, *number);
    }
    end
}
