//! Writing: the one canonical form of the octets of attributes.

ghost use Rattle.std.specs.Prelude.{◌≡◌, ◌+◌, ◌<◌, ◌≤◌, ◌^◌, [], length, take, IfOk, if◌then◌else◌};
ghost use Rattle.rcp_model.specs.Attributes.{attribute_octets, canonical_octets, default_pref};
ghost use Rattle.path_attrs.specs.Appending.{Appends};
ghost use Rattle.path_attrs.specs.Lists.{IsKept, octets_of};
ghost use Rattle.path_attrs.specs.Shown.{all_shown};

use crate::attrs::{Attrs, is_there, place_of};
use crate::table::LOCAL_PREF;
use crate::value::Value;
use octet_room::Room;
use std::alloc::{AllocError, Global};

/// LOCAL_PREF where it is absent.
pub const DEFAULT_PREF: u32 = 100;

/// How many octets that LOCAL_PREF has: flags, type, length and number.
const DEFAULT_LEN: usize = 7;

/// Writes the attributes in their canonical form to the front of `out`, and returns how many octets they have, at most
/// 4,080. Types rise, LOCAL_PREF is always there, 100 where it was absent, and a length has one octet where the value has
/// at most 255 octets (RFC 4271, section 4.3). One pass, which takes no memory.
pub fn write(attrs: &Attrs, out: &mut [u8; 8192]) -> usize
    ensures octets { take result out.new ≡ canonical_octets attrs.now }
    ensures len { result ≡ length (canonical_octets attrs.now) }
    ensures short { result ≤ 4080 }
{
    put_canonical(attrs.values(), out)
}

/// The octets that `write` writes, in a vector of their size.
pub fn canonical_octets(alloc: Global, attrs: &Attrs) -> Result<Vec<u8>, AllocError>
    ensures { IfOk result (λ octets. octets.items ≡ canonical_octets attrs.now) }
{
    let values = attrs.values();
    let mut octets = Vec::with_capacity(alloc, canonical_len(values))?;
    put_canonical(values, &mut octets);
    Ok(octets)
}

/// How many octets the canonical form of values has.
fn canonical_len(values: &[Value]) -> usize
    requires { IsKept (all_shown values.now) }
    ensures { result ≡ length (canonical_octets (all_shown values.now)) }
{
    let len = values_len(values);
    if is_there(values, LOCAL_PREF) {
        len
    } else {
        len + DEFAULT_LEN
    }
}

/// How many octets values have, one after another.
fn values_len(values: &[Value]) -> usize
    requires { length (octets_of (all_shown values.now)) < 2 ^ 16 }
    ensures { result ≡ length (octets_of (all_shown values.now)) }
{
    let mut len = 0;
    for value in values {
        len += value.octets_len();
    }
    len
}

/// Puts the canonical form of values at the front, and gives how many octets it has.
fn put_canonical<R: Room>(values: &[Value], out: &mut R) -> usize
    requires kept { IsKept (all_shown values.now) }
    requires place { R.is_place out.old 0 }
    requires room { length (canonical_octets (all_shown values.now)) ≤ R.size out.old }
    ensures octets { take result (R.octets out.new) ≡ canonical_octets (all_shown values.now) }
    ensures len { result ≡ length (canonical_octets (all_shown values.now)) }
    ensures short { result ≤ 4080 }
    ensures place { R.is_place out.new result }
{
    let place = place_of(values, LOCAL_PREF);
    let (before, after) = values.split_at(place);
    let at = put_values(out, 0, before);
    let at = put_default(out, at, is_there(values, LOCAL_PREF));
    put_values(out, at, after)
}

/// Puts values one after another, and gives the place after them.
fn put_values<R: Room>(out: &mut R, at: usize, values: &[Value]) -> usize
    requires short { length (octets_of (all_shown values.now)) < 2 ^ 16 }
    requires place { R.is_place out.old at }
    requires room { at + length (octets_of (all_shown values.now)) ≤ R.size out.old }
    ensures appends { Appends (R.octets out.old) at (R.octets out.new) result (octets_of (all_shown values.now)) }
    ensures place { R.is_place out.new result }
    ensures size { R.size out.old ≤ R.size out.new }
{
    let mut end = at;
    for value in values {
        end = value.put(out, end);
    }
    end
}

/// Puts LOCAL_PREF where it is absent, and gives the place after it.
fn put_default<R: Room>(out: &mut R, at: usize, there: bool) -> usize
    requires place { R.is_place out.old at }
    requires room { at + length (if there then [] else attribute_octets default_pref) ≤ R.size out.old }
    ensures appends { Appends (R.octets out.old) at (R.octets out.new) result (if there then [] else attribute_octets default_pref) }
    ensures place { R.is_place out.new result }
    ensures size { R.size out.old ≤ R.size out.new }
{
    if there {
        at
    } else {
        Value::LocalPref(DEFAULT_PREF).put(out, at)
    }
}
