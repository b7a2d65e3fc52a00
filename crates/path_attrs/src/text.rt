//! The text of a path.

ghost use Rattle.std.specs.Prelude.{◌≡◌, ◌<◌, ◌≤◌, [], ◌∷◌, ◌++◌, map, length, unwrap_or, IfOk, OnOk, IfSome, IfNone};
ghost use Rattle.std.specs.Fmt.{decimal};
ghost use Rattle.std.specs.List.{join_with_byte};
ghost use Rattle.rcp_model.specs.Attributes as model;
ghost use Rattle.rcp_model.specs.Attributes.{attribute_of, attributes_in, value_of, numbers_in, segment_of, segments_in, number_width};
ghost use Rattle.path_attrs.specs.Texts.{segment_text, text_of_path, path_text};

use crate::header::{first_attribute, value_place};
use crate::numbers::{AsNumber, split_number};
use crate::path::{SegmentKind, next_segment};
use crate::table::AS_PATH;
use rcp_base::NoMemory;
use std::alloc::Global;

/// The text of the AS_PATH among the octets of attributes (RFC 4271, section 4.3): its segments with spaces between them, an
/// AS_SEQUENCE as its numbers with spaces between them, an AS_SET as its numbers in braces with commas between them. It is `-`
/// where there is no segment.
///
/// The octets are those of a route. Of others the text is that of the whole segments of the first AS_PATH. `NoMemory` comes
/// where there was no room for the text.
pub fn path_text(alloc: Global, attrs: &[u8]) -> Result<Vec<u8>, NoMemory>
    ensures { IfOk result (λ text. text.items ≡ path_text attrs.now) }
{
    let mut text = Vec::new(alloc);
    put_path(&mut text, path_in(attrs))?;
    Ok(text)
}

/// The octets of the first AS_PATH, none where there is none.
fn path_in(attrs: &[u8]) -> &[u8]
    ensures { result.now ≡ unwrap_or (value_of model.AS_PATH (attributes_in attrs.now)) [] }
{
    let mut rest = attrs;
    while let Some((attribute, after)) = next_attribute(rest) {
        if attribute[1] == AS_PATH {
            return &attribute[value_place(attribute)..];
        }
        rest = after;
    }
    &[]
}

/// The whole attribute in front and the octets after it, or None where there is none.
fn next_attribute(octets: &[u8]) -> Option<(&[u8], &[u8])>
    ensures none { IfNone result (attributes_in octets.now ≡ []) }
    ensures front { IfSome result (λ front. attributes_in octets.now ≡ attribute_of front.0.now ∷ attributes_in front.1.now) }
    ensures long { IfSome result (λ front. 3 ≤ length front.0.now) }
    ensures header { IfSome result (λ front. model.value_place front.0.now ≤ length front.0.now) }
    ensures shorter { IfSome result (λ front. length front.1.now < length octets.now) }
{
    if octets.is_empty() {
        return None;
    }
    let Some(attribute) = first_attribute(octets) else {
        return None;
    };
    Some(octets.split_at(attribute.len()))
}

/// Adds the text of the path that octets are.
fn put_path(text: &mut Vec<u8>, octets: &[u8]) -> Result<(), NoMemory>
    ensures { OnOk result (text.new.items ≡ text.old.items ++ text_of_path (segments_in number_width octets.now)) }
{
    let Some((first, mut rest)) = next_segment(octets) else {
        text.push(b'-')?;
        return Ok(());
    };
    put_segment(text, first)?;
    while let Some((segment, after)) = next_segment(rest) {
        text.push(b' ')?;
        put_segment(text, segment)?;
        rest = after;
    }
    Ok(())
}

/// Adds the text of the segment that octets are.
fn put_segment(text: &mut Vec<u8>, octets: &[u8]) -> Result<(), NoMemory>
    requires { 2 ≤ length octets.now }
    ensures { OnOk result (text.new.items ≡ text.old.items ++ segment_text (segment_of number_width octets.now)) }
{
    if octets[0] != SegmentKind::AsSet as u8 {
        return put_numbers(text, &octets[2..], b' ');
    }
    text.push(b'{')?;
    put_numbers(text, &octets[2..], b',')?;
    text.push(b'}')?;
    Ok(())
}

/// Adds the texts of numbers, with an octet between each and the next.
fn put_numbers(text: &mut Vec<u8>, octets: &[u8], between: u8) -> Result<(), NoMemory>
    ensures { OnOk result (text.new.items ≡ text.old.items ++ join_with_byte between (map decimal (numbers_in number_width octets.now))) }
{
    let Some((first, mut rest)) = split_number(octets) else {
        return Ok(());
    };
    put_decimal(text, first)?;
    while let Some((number, after)) = split_number(rest) {
        text.push(between)?;
        put_decimal(text, number)?;
        rest = after;
    }
    Ok(())
}

/// Adds the digits of a number.
fn put_decimal(text: &mut Vec<u8>, number: AsNumber) -> Result<(), NoMemory>
    ensures { OnOk result (text.new.items ≡ text.old.items ++ decimal number) }
{
    if number < 10 {
        text.push(b'0' + number as u8)?;
        return Ok(());
    }
    put_decimal(text, number / 10)?;
    text.push(b'0' + (number % 10) as u8)?;
    Ok(())
}
