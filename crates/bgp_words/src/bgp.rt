//! BGP messages as parts of a line.

ghost use Rattle.std.specs.Prelude.{◌≡◌, ◌+◌, ◌≤◌, ◌^◌, ◌++◌, ◌∷◌, [], length, OnOk, codes};
ghost use Rattle.line_words.specs.Words.{words_of};
ghost use Rattle.line_words.specs.Reading.{Gives};
ghost use Rattle.line_words.specs.Fields.{optional_field};
ghost use Rattle.bgp_words.specs.Bgp.{message, message_onto, sections, update_onto, prefixes, update, open_fields, counted_onto, parameters_onto, open_message, keepalive, notification, any_message, bgp_part};

use crate::attribute_values::Prefix;
use crate::attributes::Attribute;
use crate::capabilities::Parameter;
use line_words::{
    Stop, Why, address_field, code_word, fault, hex_word, keyed, next_word, number_field,
    number_word, octets_part, optional_hex, optional_number, push_list, push_words,
};
use std::alloc::AllocError;

/// The most octets of a body whose message has a length of two octets.
const MOST_BODY: usize = 65516;

/// The most octets of the sections of an UPDATE.
const MOST_SECTIONS: usize = 65512;

/// Appends a message: a marker, a length, a type and a body (RFC 4271 section 4.1).
fn push_message(out: &mut Vec<u8>, kind: u8, body: &[u8]) -> Result<(), AllocError>
    requires { length body.now ≤ 65516 }
    ensures { OnOk result (out.new.items ≡ out.old.items ++ message kind body.now) }
{
    out.extend_from_slice(&[0xff; 16])?;
    out.extend_from_slice(&(19 + body.len() as u16).to_be_bytes())?;
    out.push(kind)?;
    out.extend_from_slice(body)
}

/// Appends a message, where its length has two octets.
fn message_onto<'a>(
    out: &mut Vec<u8>,
    kind: u8,
    body: &[u8],
    words: &'a [u8],
) -> Result<&'a [u8], Stop>
    ensures { Gives (λ rest. (out.new.items, words_of rest.now)) result (message_onto out.old.items kind body.now (words_of words.now)) }
{
    if body.len() > MOST_BODY {
        return Err(fault(words, Why::Long));
    }
    push_message(out, kind, body)?;
    Ok(words)
}

/// Appends the prefixes of a word with a key, if it is there.
fn optional_prefixes<'a>(words: &'a [u8], key: &[u8], out: &mut Vec<u8>) -> Result<&'a [u8], Stop>
    requires { out.old.items ≡ [] }
    ensures { Gives (λ rest. (out.new.items, words_of rest.now)) result (optional_field key.now prefixes [] (words_of words.now)) }
{
    let Some((text, rest)) = keyed(words, key) else {
        return Ok(words);
    };
    if push_list::<Prefix>(out, b',', text)? {
        Ok(rest)
    } else {
        Err(fault(words, Why::Value))
    }
}

/// Appends an UPDATE of these sections (RFC 4271 section 4.3).
fn push_update<'a>(
    out: &mut Vec<u8>,
    withdrawn: &[u8],
    attributes: &[u8],
    nlri: &[u8],
    words: &'a [u8],
) -> Result<&'a [u8], Stop>
    ensures { Gives (λ rest. (out.new.items, words_of rest.now)) result (update_onto out.old.items withdrawn.now attributes.now nlri.now (words_of words.now)) }
{
    let few = withdrawn.len() <= MOST_SECTIONS
        && attributes.len() <= MOST_SECTIONS
        && nlri.len() <= MOST_SECTIONS;
    if !few || withdrawn.len() + attributes.len() + nlri.len() > MOST_SECTIONS {
        return Err(fault(words, Why::Long));
    }
    let mut body = Vec::new(*out.allocator());
    body.extend_from_slice(&(withdrawn.len() as u16).to_be_bytes())?;
    body.extend_from_slice(withdrawn)?;
    body.extend_from_slice(&(attributes.len() as u16).to_be_bytes())?;
    body.extend_from_slice(attributes)?;
    body.extend_from_slice(nlri)?;
    push_message(out, 2, &body)?;
    Ok(words)
}

#[tactic(auto, unfolding(crate::specs::Bgp::update))]
fn update<'a>(words: &'a [u8], out: &mut Vec<u8>) -> Result<&'a [u8], Stop>
    ensures { Gives (λ rest. (out.new.items, words_of rest.now)) result (update out.old.items (words_of words.now)) }
{
    let alloc = *out.allocator();
    let mut withdrawn = Vec::new(alloc);
    let words = optional_prefixes(words, b"withdrawn=", &mut withdrawn)?;
    let mut attributes = Vec::new(alloc);
    let words = push_words::<Attribute>(words, &mut attributes)?;
    let words = optional_hex(words, b"rest=", &mut attributes)?;
    let mut nlri = Vec::new(alloc);
    let words = optional_prefixes(words, b"nlri=", &mut nlri)?;
    push_update(out, &withdrawn, &attributes, &nlri, words)
}

/// Appends the fields of an OPEN before its parameters (RFC 4271 section 4.2).
#[tactic(auto, unfolding(crate::specs::Bgp::open_fields))]
fn open_fields<'a>(words: &'a [u8], body: &mut Vec<u8>) -> Result<&'a [u8], Stop>
    requires { body.old.items ≡ [] }
    ensures { Gives (λ rest. (body.new.items, words_of rest.now)) result (open_fields (words_of words.now)) }
{
    let (number, words) = number_field::<u16>(words, b"as=")?;
    let (hold, words) = number_field::<u16>(words, b"hold=")?;
    let (id, words) = address_field(words, b"id=")?;
    let (version, words) = optional_number::<u8>(words, b"version=", 4)?;
    body.push(version)?;
    body.extend_from_slice(&number.to_be_bytes())?;
    body.extend_from_slice(&hold.to_be_bytes())?;
    body.extend_from_slice(&id.to_be_bytes())?;
    Ok(words)
}

/// Appends a count in one octet, and octets.
fn push_counted<'a>(
    out: &mut Vec<u8>,
    count: usize,
    octets: &[u8],
    words: &'a [u8],
) -> Result<&'a [u8], Stop>
    ensures { Gives (λ rest. (out.new.items, words_of rest.now)) result (counted_onto out.old.items count octets.now (words_of words.now)) }
{
    if count > 255 {
        return Err(fault(words, Why::Long));
    }
    out.push(count as u8)?;
    out.extend_from_slice(octets)?;
    Ok(words)
}

/// Appends the optional parameters of an OPEN, their length before them.
#[tactic(auto, unfolding(crate::specs::Bgp::parameters_onto))]
fn push_parameters<'a>(words: &'a [u8], body: &mut Vec<u8>) -> Result<&'a [u8], Stop>
    ensures { Gives (λ rest. (body.new.items, words_of rest.now)) result (parameters_onto body.old.items (words_of words.now)) }
{
    let mut parameters = Vec::new(*body.allocator());
    let words = push_words::<Parameter>(words, &mut parameters)?;
    let count = parameters.len();
    let words = optional_hex(words, b"rest=", &mut parameters)?;
    push_counted(body, count, &parameters, words)
}

#[tactic(auto, unfolding(crate::specs::Bgp::open_message))]
fn open_message<'a>(words: &'a [u8], out: &mut Vec<u8>) -> Result<&'a [u8], Stop>
    ensures { Gives (λ rest. (out.new.items, words_of rest.now)) result (open_message out.old.items (words_of words.now)) }
{
    let mut body = Vec::new(*out.allocator());
    let words = open_fields(words, &mut body)?;
    let words = push_parameters(words, &mut body)?;
    message_onto(out, 1, &body, words)
}

fn keepalive<'a>(words: &'a [u8], out: &mut Vec<u8>) -> Result<&'a [u8], Stop>
    ensures { Gives (λ rest. (out.new.items, words_of rest.now)) result (keepalive out.old.items (words_of words.now)) }
{
    push_message(out, 4, &[])?;
    Ok(words)
}

#[tactic(auto, unfolding(crate::specs::Bgp::notification))]
fn notification<'a>(words: &'a [u8], out: &mut Vec<u8>) -> Result<&'a [u8], Stop>
    ensures { Gives (λ rest. (out.new.items, words_of rest.now)) result (notification out.old.items (words_of words.now)) }
{
    let mut body = Vec::new(*out.allocator());
    let words = code_word(words, &mut body)?;
    let words = optional_hex(words, b"data=", &mut body)?;
    message_onto(out, 3, &body, words)
}

#[tactic(auto, unfolding(crate::specs::Bgp::any_message))]
fn any_message<'a>(words: &'a [u8], out: &mut Vec<u8>) -> Result<&'a [u8], Stop>
    ensures { Gives (λ rest. (out.new.items, words_of rest.now)) result (any_message out.old.items (words_of words.now)) }
{
    let (kind, words) = number_word::<u8>(words)?;
    let mut body = Vec::new(*out.allocator());
    let words = hex_word(words, &mut body)?;
    message_onto(out, kind, &body, words)
}

/// A part of a `bgp` line: a message, or any octets.
#[tactic(auto, unfolding(crate::specs::Bgp::bgp_part))]
pub fn bgp_part<'a>(words: &'a [u8], out: &mut Vec<u8>) -> Result<&'a [u8], Stop>
    ensures { Gives (λ rest. (out.new.items, words_of rest.now)) result (bgp_part out.old.items (words_of words.now)) }
{
    let (word, rest) = next_word(words)?;
    if word == b"update".as_slice() {
        update(rest, out)
    } else if word == b"keepalive".as_slice() {
        keepalive(rest, out)
    } else if word == b"open".as_slice() {
        open_message(rest, out)
    } else if word == b"notification".as_slice() {
        notification(rest, out)
    } else if word == b"message".as_slice() {
        any_message(rest, out)
    } else {
        octets_part(words, out)
    }
}
