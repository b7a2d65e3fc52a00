//! Values of attributes and prefixes.

ghost use Rattle.std.specs.Prelude.{◌≡◌, ◌≤◌, ◌+◌, ◌++◌, ◌∷◌, ◌==◌, option_map, List, ℕ, [], length, take, drop, Option, Some, None, IfOk, MatchOption, if◌then◌else◌, count_by};
ghost use Rattle.std.specs.List.{position};
ghost use Rattle.rcp_base.specs.IpPrefix.{octets_for};
ghost use Rattle.rcp_base.specs.Text.{number_of};
ghost use Rattle.line_words.specs.Words.{below};
ghost use Rattle.line_words.specs.Lists.{list_onto};
ghost use Rattle.bgp_words.specs.Attributes.{u16_onto, u32_onto, address_onto, prefix_of_halves, named_prefix_onto, prefix_onto, pair_of_halves, community_onto, origin_onto, enclosed, segment_of, segment_onto, path_onto};

use line_words::{Item, halves, push_hex, push_list, u8_in, u16_in, u32_in};
use rcp_base::read_addr;
use std::alloc::AllocError;

/// A number of two octets.
pub struct Two;

/// A number of four octets.
pub struct Four;

/// An address.
pub struct Address;

/// A prefix (RFC 4271 section 4.3), or octets in hexadecimal.
pub struct Prefix;

/// A community (RFC 1997): two numbers with a colon between them.
pub struct Community;

/// A segment of a path whose AS numbers are written so.
pub struct Segment<N>(N);

impl Item for Two {
    ghost onto = { u16_onto };

    fn push(out: &mut Vec<u8>, text: &[u8]) -> Result<bool, AllocError> {
        let Some(number) = u16_in(text) else {
            return Ok(false);
        };
        out.extend_from_slice(&number.to_be_bytes())?;
        Ok(true)
    }
}

impl Item for Four {
    ghost onto = { u32_onto };

    fn push(out: &mut Vec<u8>, text: &[u8]) -> Result<bool, AllocError> {
        let Some(number) = u32_in(text) else {
            return Ok(false);
        };
        out.extend_from_slice(&number.to_be_bytes())?;
        Ok(true)
    }
}

impl Item for Address {
    ghost onto = { address_onto };

    fn push(out: &mut Vec<u8>, text: &[u8]) -> Result<bool, AllocError> {
        let Some(address) = read_addr(text) else {
            return Ok(false);
        };
        out.extend_from_slice(&address.0.to_be_bytes())?;
        Ok(true)
    }
}

/// A length of at most 32.
fn prefix_length(text: &[u8]) -> Option<u8>
    ensures { result ≡ below 33 (number_of text.now) }
{
    let length = u8_in(text)?;
    if length > 32 {
        return None;
    }
    Some(length)
}

/// The least number of octets that holds so many bits.
fn octets_for(bits: u8) -> usize
    requires { bits ≤ 32 }
    ensures value { result ≡ octets_for bits }
    ensures few { result ≤ 4 }
{
    (usize::from(bits) + 7) / 8
}

impl Item for Prefix {
    ghost onto = { prefix_onto };

    #[tactic(auto, unfolding(crate::specs::Attributes::prefix_onto))]
    fn push(out: &mut Vec<u8>, text: &[u8]) -> Result<bool, AllocError> {
        if text.starts_with(b"0x") {
            push_hex(out, text)
        } else {
            push_named_prefix(out, text)
        }
    }
}

/// An address and a length with a slash between them.
fn push_named_prefix(out: &mut Vec<u8>, text: &[u8]) -> Result<bool, AllocError>
    ensures { IfOk result (λ read. named_prefix_onto out.old.items text.now ≡ (if read then Some out.new.items else None)) }
{
    let Some((address, length)) = halves(text, b'/') else {
        return Ok(false);
    };
    let Some(address) = read_addr(address) else {
        return Ok(false);
    };
    let Some(length) = prefix_length(length) else {
        return Ok(false);
    };
    out.push(length)?;
    let octets = address.0.to_be_bytes();
    let (front, _) = octets.split_at(octets_for(length));
    out.extend_from_slice(front)?;
    Ok(true)
}

impl Item for Community {
    ghost onto = { community_onto };

    fn push(out: &mut Vec<u8>, text: &[u8]) -> Result<bool, AllocError> {
        let Some((first, second)) = halves(text, b':') else {
            return Ok(false);
        };
        let Some(first) = u16_in(first) else {
            return Ok(false);
        };
        let Some(second) = u16_in(second) else {
            return Ok(false);
        };
        out.extend_from_slice(&first.to_be_bytes())?;
        out.extend_from_slice(&second.to_be_bytes())?;
        Ok(true)
    }
}

/// The value of ORIGIN.
pub fn push_origin(out: &mut Vec<u8>, text: &[u8]) -> Result<bool, AllocError>
    ensures { IfOk result (λ read. origin_onto out.old.items text.now ≡ (if read then Some out.new.items else None)) }
{
    let Some(origin) = origin_in(text) else {
        return Ok(false);
    };
    out.push(origin)?;
    Ok(true)
}

fn origin_in(text: &[u8]) -> Option<u8>
    ensures { (out : List ℕ) → origin_onto out text.now ≡ option_map (λ o. out ++ o ∷ []) result }
{
    if text == b"igp".as_slice() {
        Some(0)
    } else if text == b"egp".as_slice() {
        Some(1)
    } else if text == b"incomplete".as_slice() {
        Some(2)
    } else {
        None
    }
}

/// What stands between two brackets.
fn enclosed(text: &[u8], first: u8, last: u8) -> Option<&[u8]>
    ensures { MatchOption result (enclosed first last text.now ≡ None) (λ found. enclosed first last text.now ≡ Some found.now) }
{
    if text.len() < 2 {
        return None;
    }
    if text[0] == first && text[text.len() - 1] == last {
        return Some(&text[1..text.len() - 1]);
    }
    None
}

/// How many commas a text has.
fn count_commas(text: &[u8]) -> usize
    ensures { result ≡ count_by (λ c. c == 44) text.now }
{
    text.iter().filter(|c| **c == b',').count()
}

/// A segment of a path: its type, how many numbers it has, and the numbers.
fn push_segment<N: Item>(kind: u8, out: &mut Vec<u8>, text: &[u8]) -> Result<bool, AllocError>
    ensures { IfOk result (λ read. segment_of N.onto kind out.old.items text.now ≡ (if read then Some out.new.items else None)) }
{
    let commas = count_commas(text);
    if commas > 254 {
        return Ok(false);
    }
    out.push(kind)?;
    out.push(commas as u8 + 1)?;
    push_list::<N>(out, b',', text)
}

impl<N: Item> Item for Segment<N> {
    ghost onto = { segment_onto N.onto };

    #[tactic(auto, unfolding(crate::specs::Attributes::segment_onto))]
    fn push(out: &mut Vec<u8>, text: &[u8]) -> Result<bool, AllocError> {
        match enclosed(text, b'{', b'}') {
            Some(set) => push_segment::<N>(1, out, set),
            None => push_segment::<N>(2, out, text),
        }
    }
}

/// The value of AS_PATH: segments with a slash between them, or `-` for none.
#[tactic(auto, unfolding(crate::specs::Attributes::path_onto))]
pub fn push_path<N: Item>(out: &mut Vec<u8>, text: &[u8]) -> Result<bool, AllocError>
    ensures { IfOk result (λ read. path_onto N.onto out.old.items text.now ≡ (if read then Some out.new.items else None)) }
{
    if text == b"-".as_slice() {
        return Ok(true);
    }
    push_list::<Segment<N>>(out, b'/', text)
}
