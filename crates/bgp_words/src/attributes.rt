//! Path attributes as words.

ghost use Rattle.std.specs.Prelude.{◌≡◌, ◌≤◌, ◌^◌, ◌∷◌, ◌==◌, List, ℕ, [], length, Option, Some, None, IfOk, IfSome, MatchOption, OnOk, if◌then◌else◌, count_by, option_map};
ghost use Rattle.line_words.specs.Words.{hex_onto};
ghost use Rattle.line_words.specs.Lists.{list_onto, IsTaken};
ghost use Rattle.line_words.specs.Fields.{u8_of, u16_of, texts, split_at_first};
ghost use Rattle.bgp_words.specs.Attributes.{value_onto, named_value_onto, well_known, optional, numbered, kind_of_name, long_attribute, short_attribute, flagged_attribute, usual_attribute, value_of, flags_of, headed_attribute, attribute_onto};

use crate::attribute_values::{Address, Community, Four, Two, push_origin, push_path};
use line_words::{Item, Taken, Word, of_two_digits, push_hex, push_list, split_at_first, u8_in};
use std::alloc::AllocError;

/// How the value of an attribute is written.
#[derive(Clone, Copy)]
pub enum Format {
    Origin,
    /// AS numbers of two octets.
    Path2,
    /// AS numbers of four octets.
    Path4,
    Address,
    Number,
    Communities,
    Addresses,
    /// In hexadecimal alone.
    Octets,
}

/// What the name of an attribute says.
#[derive(Clone, Copy)]
pub struct AttributeKind {
    pub code: u8,
    pub flags: u8,
    pub format: Format,
}

#[tactic(auto, unfolding(crate::specs::Attributes::well_known))]
fn well_known(name: &[u8]) -> Option<AttributeKind>
    ensures value { result ≡ well_known name.now }
    ensures flags { IfSome result (λ kind. kind.flags ≤ 192) }
{
    if name == b"origin".as_slice() {
        Some(kind(1, 0x40, Format::Origin))
    } else if name == b"path".as_slice() {
        Some(kind(2, 0x40, Format::Path2))
    } else if name == b"path4".as_slice() {
        Some(kind(2, 0x40, Format::Path4))
    } else if name == b"next-hop".as_slice() {
        Some(kind(3, 0x40, Format::Address))
    } else if name == b"local-pref".as_slice() {
        Some(kind(5, 0x40, Format::Number))
    } else if name == b"atomic-aggregate".as_slice() {
        Some(kind(6, 0x40, Format::Octets))
    } else {
        None
    }
}

fn kind(code: u8, flags: u8, format: Format) -> AttributeKind
    ensures { result ≡ record { code = code; flags = flags; format = format } }
{
    AttributeKind {
        code,
        flags,
        format,
    }
}

#[tactic(auto, unfolding(crate::specs::Attributes::optional))]
fn optional(name: &[u8]) -> Option<AttributeKind>
    ensures value { result ≡ optional name.now }
    ensures flags { IfSome result (λ kind. kind.flags ≤ 192) }
{
    if name == b"med".as_slice() {
        Some(kind(4, 0x80, Format::Number))
    } else if name == b"community".as_slice() {
        Some(kind(8, 0xc0, Format::Communities))
    } else if name == b"originator-id".as_slice() {
        Some(kind(9, 0x80, Format::Address))
    } else if name == b"cluster-list".as_slice() {
        Some(kind(10, 0x80, Format::Addresses))
    } else {
        None
    }
}

/// `attr-` and a type.
fn numbered(name: &[u8]) -> Option<AttributeKind>
    ensures value { result ≡ numbered name.now }
    ensures flags { IfSome result (λ kind. kind.flags ≤ 192) }
{
    let digits = name.strip_prefix(b"attr-".as_slice())?;
    let code = u8_in(digits)?;
    Some(kind(code, 0xc0, Format::Octets))
}

#[tactic(auto, unfolding(crate::specs::Attributes::kind_of_name))]
fn kind_of_name(name: &[u8]) -> Option<AttributeKind>
    ensures value { result ≡ kind_of_name name.now }
    ensures flags { IfSome result (λ kind. kind.flags ≤ 192) }
{
    if let Some(kind) = well_known(name) {
        return Some(kind);
    }
    if let Some(kind) = optional(name) {
        return Some(kind);
    }
    numbered(name)
}

#[tactic(auto, unfolding(crate::specs::Attributes::named_value_onto))]
fn push_named_value(format: Format, out: &mut Vec<u8>, text: &[u8]) -> Result<bool, AllocError>
    ensures { IfOk result (λ read. named_value_onto format out.old.items text.now ≡ (if read then Some out.new.items else None)) }
{
    match format {
        Format::Origin => push_origin(out, text),
        Format::Path2 => push_path::<Two>(out, text),
        Format::Path4 => push_path::<Four>(out, text),
        Format::Address => Address::push(out, text),
        Format::Number => Four::push(out, text),
        Format::Communities => push_list::<Community>(out, b',', text),
        Format::Addresses => push_list::<Address>(out, b',', text),
        Format::Octets => Ok(false),
    }
}

#[tactic(auto, unfolding(crate::specs::Attributes::value_onto))]
fn push_value(format: Format, out: &mut Vec<u8>, text: &[u8]) -> Result<bool, AllocError>
    ensures { IfOk result (λ read. value_onto format out.old.items text.now ≡ (if read then Some out.new.items else None)) }
{
    if text.starts_with(b"0x") {
        push_hex(out, text)
    } else {
        push_named_value(format, out, text)
    }
}

/// Appends an attribute whose length has two octets.
fn push_long(out: &mut Vec<u8>, flags: u8, code: u8, value: &[u8]) -> Result<bool, AllocError>
    ensures { IfOk result (λ read. long_attribute out.old.items flags code value.now ≡ (if read then Some out.new.items else None)) }
{
    if value.len() > 65535 {
        return Ok(false);
    }
    out.push(flags)?;
    out.push(code)?;
    out.extend_from_slice(&(value.len() as u16).to_be_bytes())?;
    out.extend_from_slice(value)?;
    Ok(true)
}

/// Appends an attribute whose length has one octet.
fn push_short(out: &mut Vec<u8>, flags: u8, code: u8, value: &[u8]) -> Result<bool, AllocError>
    ensures { IfOk result (λ read. short_attribute out.old.items flags code value.now ≡ (if read then Some out.new.items else None)) }
{
    if value.len() > 255 {
        return Ok(false);
    }
    out.push(flags)?;
    out.push(code)?;
    out.push(value.len() as u8)?;
    out.extend_from_slice(value)?;
    Ok(true)
}

#[tactic(auto, unfolding(crate::specs::Attributes::flagged_attribute))]
fn push_flagged(out: &mut Vec<u8>, flags: u8, code: u8, value: &[u8]) -> Result<bool, AllocError>
    ensures { IfOk result (λ read. flagged_attribute out.old.items flags code value.now ≡ (if read then Some out.new.items else None)) }
{
    if flags / 16 % 2 == 1 {
        push_long(out, flags, code, value)
    } else {
        push_short(out, flags, code, value)
    }
}

#[tactic(auto, unfolding(crate::specs::Attributes::usual_attribute))]
fn push_usual(out: &mut Vec<u8>, flags: u8, code: u8, value: &[u8]) -> Result<bool, AllocError>
    requires { flags ≤ 192 }
    ensures { IfOk result (λ read. usual_attribute out.old.items flags code value.now ≡ (if read then Some out.new.items else None)) }
{
    if value.len() > 255 {
        push_long(out, flags + 16, code, value)
    } else {
        push_short(out, flags, code, value)
    }
}

fn flags_in(text: &[u8]) -> Option<u8>
    ensures { result ≡ flags_of text.now }
{
    match text {
        [high, low] => of_two_digits(*high, *low),
        _ => None,
    }
}

/// Appends an attribute with flags or with the usual ones.
#[tactic(auto, unfolding(crate::specs::Attributes::headed_attribute))]
fn push_headed(
    out: &mut Vec<u8>,
    kind: AttributeKind,
    flags: Option<&[u8]>,
    value: &[u8],
) -> Result<bool, AllocError>
    requires { kind.flags ≤ 192 }
    ensures { IfOk result (λ read. headed_attribute out.old.items kind (texts flags.entry) value.now ≡ (if read then Some out.new.items else None)) }
{
    let Some(text) = flags else {
        return push_usual(out, kind.flags, kind.code, value);
    };
    match flags_in(text) {
        Some(flags) => push_flagged(out, flags, kind.code, value),
        None => Ok(false),
    }
}

/// Appends the value of an attribute, which may be absent where it is empty.
fn push_value_of(
    out: &mut Vec<u8>,
    kind: AttributeKind,
    text: Option<&[u8]>,
) -> Result<bool, AllocError>
    requires { out.old.items ≡ [] }
    ensures { IfOk result (λ read. value_of kind (texts text.entry) ≡ (if read then Some out.new.items else None)) }
{
    match text {
        Some(text) => push_value(kind.format, out, text),
        None => Ok(true),
    }
}

/// A word of a path attribute.
pub struct Attribute;

impl Word for Attribute {
    ghost onto = { attribute_onto };

    #[tactic(auto, unfolding(crate::specs::Attributes::attribute_onto))]
    fn push(out: &mut Vec<u8>, text: &[u8]) -> Result<Taken, AllocError> {
        let (head, value_text) = split_at_first(text, b'=');
        let (name, flags) = split_at_first(head, b'/');
        let Some(kind) = kind_of_name(name) else {
            return Ok(Taken::Other);
        };
        let mut value = Vec::new(*out.allocator());
        if !push_value_of(&mut value, kind, value_text)? {
            return Ok(Taken::Unreadable);
        }
        if push_headed(out, kind, flags, &value)? {
            Ok(Taken::Pushed)
        } else {
            Ok(Taken::Unreadable)
        }
    }
}
