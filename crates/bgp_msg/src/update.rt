//! UPDATE messages (RFC 4271 section 4.3): their sections, the prefixes of a section, and writing.

ghost use Rattle.std.specs.Prelude.{◌≡◌, ◌+◌, ◌<◌, ◌≤◌, ◌↔◌, ◌++◌, [], ◌∷◌, true, false, length, take, drop, Some, None, IsSome, IfSome, IfOk, SomeIff, MatchOption, MatchResult};
ghost use Rattle.std.specs.List.{flat_map};
ghost use Rattle.rcp_base.specs.IpPrefix.{prefix_octets};
ghost use Rattle.rcp_model.specs.Messages.{fault};
ghost use Rattle.rcp_model.specs.Updates.{update_octets, sections_of, section, after_section, has_section, prefixes_in, prefixes_fault};
ghost use Rattle.bgp_fault.specs.Faults.{data_octets};
ghost use Rattle.bgp_msg.specs.Faults.{malformed_sections, malformed_prefix};

use crate::header::{MOST_OCTETS, UPDATE};
use crate::put::put_header;
use bgp_fault::{
    Data, Fault, INVALID_NETWORK_FIELD, MALFORMED_ATTRIBUTE_LIST, UPDATE_MESSAGE_ERROR,
};
use octet_room::Room;
use rcp_base::{NoMemory, Prefix};
use std::alloc::Global;

// The octets of an UPDATE without withdrawn routes, attributes and NLRI.
const LEAST_UPDATE: usize = 23;

/// The sections of an UPDATE.
#[derive(Clone, Copy, Debug)]
pub struct Update<'a> {
    /// The octets of the withdrawn routes.
    pub withdrawn: &'a [u8],
    /// The octets of the path attributes.
    pub attrs: &'a [u8],
    /// The octets of the Network Layer Reachability Information.
    pub nlri: &'a [u8],
}

/// Reads the body of an UPDATE by its section lengths. The fault Malformed Attribute List without data comes exactly
/// where they pass the message (RFC 4271 section 6.3). Attributes and prefixes aren't looked at.
pub fn read_update(body: &[u8]) -> Result<Update<'_>, Fault>
    ensures sections { MatchResult result
        (λ u. sections_of body.now ≡ Some (record { withdrawn = u.withdrawn.now; attributes = u.attrs.now; nlri = u.nlri.now }))
        (λ fault. (sections_of body.now ≡ None) × (fault ≡ malformed_sections)) }
    ensures lengths { IfOk result (λ u. 4 + length u.withdrawn.now + length u.attrs.now + length u.nlri.now ≡ length body.now) }
{
    match sections(body) {
        Some(update) => Ok(update),
        None => Err(Fault {
            code: UPDATE_MESSAGE_ERROR,
            sub: MALFORMED_ATTRIBUTE_LIST,
            extra: Data::None,
        }),
    }
}

/// Checks that a section is whole prefixes, each with a length of 0 to 32. The fault Invalid Network Field without data
/// comes exactly where it isn't (RFC 4271 section 6.3).
pub fn check_prefixes(section: &[u8]) -> Result<(), Fault>
    ensures { MatchResult result
        (λ _. prefixes_fault section.now ≡ None)
        (λ why. (prefixes_fault section.now ≡ Some (fault why.code why.sub (data_octets section.now why.extra))) × (why ≡ malformed_prefix)) }
{
    let mut rest = section;
    while !rest.is_empty() {
        match Prefix::read_octets(rest) {
            Some((_, count)) => {
                let (_, more) = rest.split_at(count);
                rest = more;
            }
            None => {
                return Err(Fault {
                    code: UPDATE_MESSAGE_ERROR,
                    sub: INVALID_NETWORK_FIELD,
                    extra: Data::None,
                });
            }
        }
    }
    Ok(())
}

/// The prefix at a place of a section, and the place after it. None exactly at the section's end. `check_prefixes` took
/// the section, and the place is 0 or one that this walk gave: so the prefixes come in the order of the section, each
/// as often as it is there.
pub fn next_prefix(section: &[u8], place: usize) -> Option<(Prefix, usize)>
    requires within { place ≤ length section.now }
    requires faultless { prefixes_fault (drop place section.now) ≡ None }
    ensures ends { MatchOption result
        (place ≡ length section.now)
        (λ found. (place < found.1) × (found.1 ≤ length section.now)) }
    ensures prefixes { MatchOption result
        (prefixes_in (drop place section.now) ≡ [])
        (λ found. prefixes_in (drop place section.now) ≡ found.0 ∷ prefixes_in (drop found.1 section.now)) }
    ensures faultless { IfSome result (λ found. prefixes_fault (drop found.1 section.now) ≡ None) }
{
    let (_, rest) = section.split_at(place);
    let Some((prefix, count)) = Prefix::read_octets(rest) else {
        return None;
    };
    Some((prefix, place + count))
}

/// Writes the UPDATE that withdraws and announces these prefixes at the front of `out`, and answers how many octets it
/// has: 23 to 4,096. None exactly where it has more.
pub fn write_update(
    withdrawn: &[Prefix],
    attrs: &[u8],
    nlri: &[Prefix],
    out: &mut [u8; 4096],
) -> Option<usize>
    ensures fits { IsSome result ↔ (length (update_octets withdrawn.now attrs.now nlri.now) ≤ 4096) }
    ensures count { IfSome result (λ count. count ≡ length (update_octets withdrawn.now attrs.now nlri.now)) }
    ensures octets { IfSome result (λ count. take count out.new ≡ update_octets withdrawn.now attrs.now nlri.now) }
{
    let size = size_of(withdrawn, attrs, nlri)?;
    put_update(out, size, withdrawn, attrs, nlri);
    Some(size.whole)
}

/// The UPDATE that withdraws and announces these prefixes, in a vector of its 23 to 4,096 octets. `NoMemory` where there is no
/// room for it.
pub fn update_message(
    alloc: Global,
    withdrawn: &[Prefix],
    attrs: &[u8],
    nlri: &[Prefix],
) -> Result<Vec<u8>, NoMemory>
    requires { length (update_octets withdrawn.now attrs.now nlri.now) ≤ 4096 }
    ensures { IfOk result (λ message. message.items ≡ update_octets withdrawn.now attrs.now nlri.now) }
{
    let Some(size) = size_of(withdrawn, attrs, nlri) else {
        unreachable!()
    };
    let mut message = Vec::with_capacity(alloc, size.whole)?;
    put_update(&mut message, size, withdrawn, attrs, nlri);
    Ok(message)
}

/// How many octets an UPDATE has: its withdrawn routes, and all.
#[derive(Clone, Copy)]
struct Size {
    withdrawn: usize,
    whole: usize,
}

/// How many octets the UPDATE of these sections has. None exactly where it has more than 4,096.
fn size_of(withdrawn: &[Prefix], attrs: &[u8], nlri: &[Prefix]) -> Option<Size>
    ensures fits { IsSome result ↔ (length (update_octets withdrawn.now attrs.now nlri.now) ≤ 4096) }
    ensures withdrawn { IfSome result (λ size. size.withdrawn ≡ length (flat_map prefix_octets withdrawn.now)) }
    ensures whole { IfSome result (λ size. size.whole ≡ 23 + size.withdrawn + length attrs.now + length (flat_map prefix_octets nlri.now)) }
    ensures short { IfSome result (λ size. size.whole ≤ 4096) }
{
    let withdrawn_count = section_len(withdrawn)?;
    let nlri_count = section_len(nlri)?;
    if attrs.len() > MOST_OCTETS {
        return None;
    }
    let whole = LEAST_UPDATE + withdrawn_count + attrs.len() + nlri_count;
    if whole > MOST_OCTETS {
        return None;
    }
    Some(Size {
        withdrawn: withdrawn_count,
        whole,
    })
}

/// Writes the UPDATE of these sections, which has this size, at the front.
fn put_update<R: Room>(out: &mut R, size: Size, withdrawn: &[Prefix], attrs: &[u8], nlri: &[Prefix])
    requires withdrawn { size.withdrawn ≡ length (flat_map prefix_octets withdrawn.now) }
    requires whole { size.whole ≡ 23 + size.withdrawn + length attrs.now + length (flat_map prefix_octets nlri.now) }
    requires short { size.whole ≤ 4096 }
    requires place { R.is_place out.old 0 }
    requires room { size.whole ≤ R.size out.old }
    ensures octets { take size.whole (R.octets out.new) ≡ update_octets withdrawn.now attrs.now nlri.now }
    ensures place { R.is_place out.new size.whole }
{
    let at = put_header(out, UPDATE, size.whole as u16);
    let at = out.put(at, &(size.withdrawn as u16).to_be_bytes());
    let at = put_section(out, at, withdrawn);
    let at = out.put(at, &(attrs.len() as u16).to_be_bytes());
    let at = out.put(at, attrs);
    put_section(out, at, nlri);
}

/// How many octets the prefix has: its length, and as many octets of its address as hold so many bits.
fn prefix_len(prefix: &Prefix) -> usize
    ensures value { result ≡ length (prefix_octets prefix.now) }
    ensures short { result ≤ 5 }
{
    1 + (usize::from(prefix.len()) + 7) / 8
}

/// How many octets a section of these prefixes has. None exactly where no message has room for it.
fn section_len(prefixes: &[Prefix]) -> Option<usize>
    ensures { SomeIff result (length (flat_map prefix_octets prefixes.now) ≤ 4096) (length (flat_map prefix_octets prefixes.now)) }
{
    let mut count = 0;
    for prefix in prefixes {
        count += prefix_len(prefix);
        if count > MOST_OCTETS {
            return None;
        }
    }
    Some(count)
}

/// Writes the prefixes after the first `at` octets, and answers where they end.
fn put_section<R: Room>(out: &mut R, mut at: usize, prefixes: &[Prefix]) -> usize
    requires place { R.is_place out.old at }
    requires room { at + length (flat_map prefix_octets prefixes.now) ≤ R.size out.old }
    ensures end { result ≡ at + length (flat_map prefix_octets prefixes.now) }
    ensures octets { take result (R.octets out.new) ≡ take at (R.octets out.old) ++ flat_map prefix_octets prefixes.now }
    ensures place { R.is_place out.new result }
    ensures size { R.size out.old ≤ R.size out.new }
{
    for prefix in prefixes {
        let mut octets = [0; 5];
        let count = prefix.write_octets(&mut octets);
        at = out.put(at, &octets[..count]);
    }
    at
}

/// The sections of a body. None exactly where their lengths pass it.
fn sections(body: &[u8]) -> Option<Update<'_>>
    ensures sections { MatchOption result
        (sections_of body.now ≡ None)
        (λ u. sections_of body.now ≡ Some (record { withdrawn = u.withdrawn.now; attributes = u.attrs.now; nlri = u.nlri.now })) }
    ensures lengths { IfSome result (λ u. 4 + length u.withdrawn.now + length u.attrs.now + length u.nlri.now ≡ length body.now) }
{
    let Some((withdrawn, rest)) = split_section(body) else {
        return None;
    };
    let Some((attrs, nlri)) = split_section(rest) else {
        return None;
    };
    Some(Update {
        withdrawn,
        attrs,
        nlri,
    })
}

/// The section in front, whose length is in the first two octets, and what follows it.
fn split_section(octets: &[u8]) -> Option<(&[u8], &[u8])>
    ensures found { MatchOption result
        (has_section octets.now ≡ false)
        (λ found. (has_section octets.now ≡ true) × (found.0.now ≡ section octets.now) × (found.1.now ≡ after_section octets.now)) }
    ensures lengths { IfSome result (λ found. 2 + length found.0.now + length found.1.now ≡ length octets.now) }
{
    let (len, rest) = octets.split_first_chunk::<2>()?;
    let len = usize::from(u16::from_be_bytes(*len));
    if len > rest.len() {
        return None;
    }
    Some(rest.split_at(len))
}
