//! Optional parameters of an OPEN and its capabilities as words.

ghost use Rattle.std.specs.Prelude.{◌≡◌, List, ℕ, [], ◌∷◌, ◌++◌, Option, Some, None, IfOk, if◌then◌else◌, option_and_then};
ghost use Rattle.std.specs.Int.{w16, to_be_bytes};
ghost use Rattle.line_words.specs.Words.{hex_onto};
ghost use Rattle.line_words.specs.Lists.{list_onto, IsTaken};
ghost use Rattle.line_words.specs.declared.lists.Taken.TheVariants as taken;
ghost use Rattle.bgp_words.specs.Attributes.{u32_onto};
ghost use Rattle.bgp_words.specs.Capabilities.{coded_onto, family_of_halves, family_of, valued_onto, bare_onto, capability_onto, capabilities_onto, any_parameter_of_halves, any_parameter_onto, parameter_onto};

use crate::attribute_values::Four;
use line_words::{Item, Taken, Word, halves, push_hex, push_list, u8_in, u16_in};
use std::alloc::AllocError;

/// Appends a code, a length of one octet and a value.
fn push_coded(out: &mut Vec<u8>, code: u8, value: &[u8]) -> Result<bool, AllocError>
    ensures { IfOk result (λ read. coded_onto out.old.items code value.now ≡ (if read then Some out.new.items else None)) }
{
    if value.len() > 255 {
        return Ok(false);
    }
    out.push(code)?;
    out.push(value.len() as u8)?;
    out.extend_from_slice(value)?;
    Ok(true)
}

/// Appends a code and octets that are written in hexadecimal.
fn push_coded_hex(out: &mut Vec<u8>, code: u8, text: &[u8]) -> Result<bool, AllocError>
    ensures { IfOk result (λ read. option_and_then (coded_onto out.old.items code) (hex_onto [] text.now) ≡ (if read then Some out.new.items else None)) }
{
    let mut value = Vec::new(*out.allocator());
    if !push_hex(&mut value, text)? {
        return Ok(false);
    }
    push_coded(out, code, &value)
}

/// The value of multiprotocol extensions (RFC 4760 section 8).
fn family_in(text: &[u8]) -> Option<[u8; 4]>
    ensures { result ≡ family_of text.now }
{
    let (family, next) = halves(text, b'/')?;
    let [high, low] = u16_in(family)?.to_be_bytes();
    Some([high, low, 0, u8_in(next)?])
}

fn push_family(out: &mut Vec<u8>, text: &[u8]) -> Result<bool, AllocError>
    ensures { IfOk result (λ read. option_and_then (coded_onto out.old.items 1) (family_of text.now) ≡ (if read then Some out.new.items else None)) }
{
    match family_in(text) {
        Some(value) => push_coded(out, 1, &value),
        None => Ok(false),
    }
}

/// An AS number of four octets (RFC 6793 section 3).
fn push_as_number(out: &mut Vec<u8>, text: &[u8]) -> Result<bool, AllocError>
    ensures { IfOk result (λ read. option_and_then (coded_onto out.old.items 65) (u32_onto [] text.now) ≡ (if read then Some out.new.items else None)) }
{
    let mut value = Vec::new(*out.allocator());
    if !Four::push(&mut value, text)? {
        return Ok(false);
    }
    push_coded(out, 65, &value)
}

/// A capability with a value.
#[tactic(auto, unfolding(crate::specs::Capabilities::valued_onto))]
fn push_valued(out: &mut Vec<u8>, code: &[u8], value: &[u8]) -> Result<bool, AllocError>
    ensures { IfOk result (λ read. valued_onto out.old.items (code.now, value.now) ≡ (if read then Some out.new.items else None)) }
{
    if code == b"mp".as_slice() {
        push_family(out, value)
    } else if code == b"as4".as_slice() {
        push_as_number(out, value)
    } else {
        match u8_in(code) {
            Some(code) => push_coded_hex(out, code, value),
            None => Ok(false),
        }
    }
}

/// A capability without a value.
#[tactic(auto, unfolding(crate::specs::Capabilities::bare_onto))]
fn push_bare(out: &mut Vec<u8>, text: &[u8]) -> Result<bool, AllocError>
    ensures { IfOk result (λ read. bare_onto out.old.items text.now ≡ (if read then Some out.new.items else None)) }
{
    if text == b"route-refresh".as_slice() {
        push_coded(out, 2, &[])
    } else if text == b"extended-message".as_slice() {
        push_coded(out, 6, &[])
    } else if text == b"enhanced-route-refresh".as_slice() {
        push_coded(out, 70, &[])
    } else {
        Ok(false)
    }
}

/// A capability (RFC 5492).
pub struct Capability;

impl Item for Capability {
    ghost onto = { capability_onto };

    #[tactic(auto, unfolding(crate::specs::Capabilities::capability_onto))]
    fn push(out: &mut Vec<u8>, text: &[u8]) -> Result<bool, AllocError> {
        match halves(text, b':') {
            Some((code, value)) => push_valued(out, code, value),
            None => push_bare(out, text),
        }
    }
}

/// A parameter of capabilities.
fn push_capabilities(out: &mut Vec<u8>, text: &[u8]) -> Result<bool, AllocError>
    ensures { IfOk result (λ read. capabilities_onto out.old.items text.now ≡ (if read then Some out.new.items else None)) }
{
    let mut value = Vec::new(*out.allocator());
    if !push_list::<Capability>(&mut value, b',', text)? {
        return Ok(false);
    }
    push_coded(out, 2, &value)
}

/// A parameter of any type.
fn push_any_parameter(out: &mut Vec<u8>, text: &[u8]) -> Result<bool, AllocError>
    ensures { IfOk result (λ read. any_parameter_onto out.old.items text.now ≡ (if read then Some out.new.items else None)) }
{
    let Some((kind, value)) = halves(text, b'=') else {
        return Ok(false);
    };
    match u8_in(kind) {
        Some(kind) => push_coded_hex(out, kind, value),
        None => Ok(false),
    }
}

fn taken(read: bool) -> Taken
    ensures { result ≡ (if read then taken.Pushed else taken.Unreadable) }
{
    if read {
        Taken::Pushed
    } else {
        Taken::Unreadable
    }
}

/// A word of an optional parameter.
pub struct Parameter;

impl Word for Parameter {
    ghost onto = { parameter_onto };

    #[tactic(auto, unfolding(crate::specs::Capabilities::parameter_onto))]
    fn push(out: &mut Vec<u8>, text: &[u8]) -> Result<Taken, AllocError> {
        if let Some(list) = text.strip_prefix(b"caps=".as_slice()) {
            return Ok(taken(push_capabilities(out, list)?));
        }
        if let Some(rest) = text.strip_prefix(b"param-".as_slice()) {
            return Ok(taken(push_any_parameter(out, rest)?));
        }
        Ok(Taken::Other)
    }
}
