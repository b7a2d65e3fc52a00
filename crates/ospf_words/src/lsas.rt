//! LSAs as words.

ghost use Rattle.std.specs.Prelude.{◌≡◌, ◌^◌, ◌++◌, ◌≤◌, ◌+◌, ◌||◌, [], length, drop, codes, bytes_eq, OnOk};
ghost use Rattle.line_words.specs.Words.{words_of, hex_onto};
ghost use Rattle.line_words.specs.Reading.{Gives};
ghost use Rattle.ospf_words.specs.Lsas.{age_and_options, names, header, lsa_with, checksum_of, lsa_onto, links_onto, router_body, body_of, lsa_of, any_lsa, begins_lsa, lsa, lsas_within};

use crate::checksums::lsa_checksum;
use crate::links::Link;
use line_words::{
    Stop, Why, address_field, count_words, fault, next_word, number_field, number_word,
    optional_address, optional_hex, optional_sized_hex, push_words, sized_hex_field, split_word,
};
use lsa_reader::ROUTER_LSA;
use std::alloc::AllocError;

/// The most octets of an LSA, whose length has two octets.
const MOST_OCTETS: usize = 65535;

/// The most LSAs of a packet: a line has no more words.
const MOST_LSAS: u32 = 1 << 20;

/// How the body of an LSA is written.
#[derive(Clone, Copy)]
pub enum LsaBody {
    /// As the flags and links of a router LSA.
    Links,
    /// In hexadecimal.
    Octets,
}

/// Appends LS age and options. These are 02 (E-bit) where they aren't given.
#[tactic(auto, unfolding(crate::specs::Lsas::age_and_options))]
fn age_and_options<'a>(words: &'a [u8], front: &mut Vec<u8>) -> Result<&'a [u8], Stop>
    requires { front.old.items ≡ [] }
    ensures { Gives (λ rest. (front.new.items, words_of rest.now)) result (age_and_options (words_of words.now)) }
{
    let (age, words) = number_field::<u16>(words, b"age=")?;
    front.extend_from_slice(&age.to_be_bytes())?;
    optional_sized_hex(words, b"options=", 1, &[2], front)
}

/// Appends Link State ID, Advertising Router and LS sequence number.
#[tactic(auto, unfolding(crate::specs::Lsas::names))]
fn names<'a>(words: &'a [u8], front: &mut Vec<u8>) -> Result<&'a [u8], Stop>
    ensures { Gives (λ rest. (front.new.items, words_of rest.now)) result (names front.old.items (words_of words.now)) }
{
    let (id, words) = address_field(words, b"id=")?;
    let (router, words) = optional_address(words, b"advertising-router=", id)?;
    front.extend_from_slice(&id.to_be_bytes())?;
    front.extend_from_slice(&router.to_be_bytes())?;
    sized_hex_field(words, b"sequence=", 4, front)
}

/// Appends the fields of an LSA's header before the checksum.
#[tactic(auto, unfolding(crate::specs::Lsas::header))]
fn header<'a>(words: &'a [u8], kind: u8, front: &mut Vec<u8>) -> Result<&'a [u8], Stop>
    requires { front.old.items ≡ [] }
    ensures { Gives (λ rest. (front.new.items, words_of rest.now)) result (header kind (words_of words.now)) }
{
    let words = age_and_options(words, front)?;
    front.push(kind)?;
    names(words, front)
}

/// Appends an LSA whose checksum has these octets.
fn push_lsa(out: &mut Vec<u8>, front: &[u8], checksum: &[u8], body: &[u8]) -> Result<(), AllocError>
    requires { length front.now + 4 + length body.now ≤ 65535 }
    ensures { OnOk result (out.new.items ≡ out.old.items ++ lsa_with front.now checksum.now body.now) }
{
    out.extend_from_slice(front)?;
    out.extend_from_slice(checksum)?;
    out.extend_from_slice(&((front.len() + 4 + body.len()) as u16).to_be_bytes())?;
    out.extend_from_slice(body)
}

/// Appends the checksum that is computed for an LSA of these octets.
fn push_checksum(out: &mut Vec<u8>, front: &[u8], body: &[u8]) -> Result<(), AllocError>
    requires few { length front.now + 4 + length body.now ≤ 65535 }
    requires empty { out.old.items ≡ [] }
    ensures { OnOk result (out.new.items ≡ checksum_of [] front.now body.now) }
{
    let mut unsummed = Vec::new(*out.allocator());
    push_lsa(&mut unsummed, front, &[0, 0], body)?;
    out.extend_from_slice(&lsa_checksum(without_age(&unsummed)))
}

/// An LSA without its age.
fn without_age(octets: &[u8]) -> &[u8]
    ensures { result.now ≡ drop 2 octets.now }
{
    match octets {
        [_, _, summed @ ..] => summed,
        _ => &[],
    }
}

/// Appends an LSA with the checksum that is given, else with the one that is computed.
#[tactic(auto, unfolding(crate::specs::Lsas::lsa_onto))]
fn lsa_onto<'a>(
    out: &mut Vec<u8>,
    front: &[u8],
    checksum: &[u8],
    body: &[u8],
    words: &'a [u8],
) -> Result<&'a [u8], Stop>
    ensures { Gives (λ rest. (out.new.items, words_of rest.now)) result (lsa_onto out.old.items front.now checksum.now body.now (words_of words.now)) }
{
    let few = front.len() <= MOST_OCTETS && body.len() <= MOST_OCTETS;
    if !few || front.len() + 4 + body.len() > MOST_OCTETS {
        return Err(fault(words, Why::Long));
    }
    if !checksum.is_empty() {
        push_lsa(out, front, checksum, body)?;
        return Ok(words);
    }
    let mut computed = Vec::new(*out.allocator());
    push_checksum(&mut computed, front, body)?;
    push_lsa(out, front, &computed, body)?;
    Ok(words)
}

/// Appends the number of links and the links. `before` are the words with the links, `words` those after them.
fn push_links<'a>(
    out: &mut Vec<u8>,
    links: &[u8],
    before: &[u8],
    words: &'a [u8],
) -> Result<&'a [u8], Stop>
    ensures { Gives (λ rest. (out.new.items, words_of rest.now)) result (links_onto out.old.items links.now (words_of before.now) (words_of words.now)) }
{
    let count = count_words(before).saturating_sub(count_words(words));
    if count > 65535 {
        return Err(fault(words, Why::Long));
    }
    out.extend_from_slice(&(count as u16).to_be_bytes())?;
    out.extend_from_slice(links)?;
    Ok(words)
}

/// Appends the flags and the links of a router LSA.
#[tactic(auto, unfolding(crate::specs::Lsas::router_body))]
fn router_body<'a>(words: &'a [u8], body: &mut Vec<u8>) -> Result<&'a [u8], Stop>
    requires { body.old.items ≡ [] }
    ensures { Gives (λ rest. (body.new.items, words_of rest.now)) result (router_body (words_of words.now)) }
{
    let words = optional_sized_hex(words, b"flags=", 1, &[0], body)?;
    body.push(0)?;
    let mut links = Vec::new(*body.allocator());
    let rest = push_words::<Link>(words, &mut links)?;
    push_links(body, &links, words, rest)
}

#[tactic(auto, unfolding(crate::specs::Lsas::body_of))]
fn push_body<'a>(words: &'a [u8], form: LsaBody, body: &mut Vec<u8>) -> Result<&'a [u8], Stop>
    requires { body.old.items ≡ [] }
    ensures { Gives (λ rest. (body.new.items, words_of rest.now)) result (body_of form (words_of words.now)) }
{
    match form {
        LsaBody::Links => router_body(words, body),
        LsaBody::Octets => optional_hex(words, b"body=", body),
    }
}

/// Appends an LSA of this type.
#[tactic(auto, unfolding(crate::specs::Lsas::lsa_of))]
fn lsa_of<'a>(words: &'a [u8], kind: u8, form: LsaBody, out: &mut Vec<u8>) -> Result<&'a [u8], Stop>
    ensures { Gives (λ rest. (out.new.items, words_of rest.now)) result (lsa_of out.old.items kind form (words_of words.now)) }
{
    let alloc = *out.allocator();
    let mut front = Vec::new(alloc);
    let words = header(words, kind, &mut front)?;
    let mut checksum = Vec::new(alloc);
    let words = optional_sized_hex(words, b"checksum=", 2, &[], &mut checksum)?;
    let mut body = Vec::new(alloc);
    let words = push_body(words, form, &mut body)?;
    lsa_onto(out, &front, &checksum, &body, words)
}

/// Appends an LSA of any type.
#[tactic(auto, unfolding(crate::specs::Lsas::any_lsa))]
fn any_lsa<'a>(words: &'a [u8], out: &mut Vec<u8>) -> Result<&'a [u8], Stop>
    ensures { Gives (λ rest. (out.new.items, words_of rest.now)) result (any_lsa out.old.items (words_of words.now)) }
{
    let (kind, words) = number_word::<u8>(words)?;
    lsa_of(words, kind, LsaBody::Octets, out)
}

fn is_lsa(word: &[u8]) -> bool
    ensures { result ≡ (bytes_eq word.now (codes "router-lsa") || bytes_eq word.now (codes "lsa")) }
{
    word == b"router-lsa".as_slice() || word == b"lsa".as_slice()
}

/// Whether the next word begins an LSA.
fn begins_lsa(words: &[u8]) -> bool
    ensures { result ≡ begins_lsa (words_of words.now) }
{
    match split_word(words) {
        Some((word, _)) => is_lsa(word),
        None => false,
    }
}

/// Appends an LSA.
#[tactic(auto, unfolding(crate::specs::Lsas::lsa))]
fn lsa<'a>(words: &'a [u8], out: &mut Vec<u8>) -> Result<&'a [u8], Stop>
    ensures { Gives (λ rest. (out.new.items, words_of rest.now)) result (lsa out.old.items (words_of words.now)) }
{
    let (word, rest) = next_word(words)?;
    if word == b"router-lsa".as_slice() {
        lsa_of(rest, ROUTER_LSA, LsaBody::Links, out)
    } else {
        any_lsa(rest, out)
    }
}

/// Appends the LSAs in front, and answers their number.
pub fn push_lsas<'a>(words: &'a [u8], out: &mut Vec<u8>) -> Result<(u32, &'a [u8]), Stop>
    ensures { Gives (λ x. ((out.new.items, x.0), words_of x.1.now)) result (lsas_within (2 ^ 20) 0 out.old.items (words_of words.now)) }
{
    let mut rest = words;
    for count in 0..MOST_LSAS {
        if !begins_lsa(rest) {
            return Ok((count, rest));
        }
        rest = lsa(rest, out)?;
    }
    Err(fault(rest, Why::Long))
}
