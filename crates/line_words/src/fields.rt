//! Words with a key before their value.

ghost use Rattle.std.specs.Prelude.{◌≡◌, ◌++◌, List, ℕ, Option, Some, None, MatchOption, IfOk, if◌then◌else◌};
ghost use Rattle.rcp_base.specs.Text.{address_of};
ghost use Rattle.line_words.specs.Words.{words_of, hex_onto};
ghost use Rattle.line_words.specs.Reading.{Gives, value_word};
ghost use Rattle.line_words.specs.Fields.{keyed, field, optional_field, sized_hex_onto, code_onto};

use crate::hex::push_hex;
use crate::lists::halves;
use crate::stop::{Stop, Why};
use crate::values::{Number, u8_in};
use crate::words::{fault, next_word, split_word};
use rcp_base::read_addr;
use std::alloc::AllocError;

/// The value of the next word, where it has this key, and the words after it.
pub fn keyed<'a>(words: &'a [u8], key: &[u8]) -> Option<(&'a [u8], &'a [u8])>
    ensures { MatchOption result (keyed key.now (words_of words.now) ≡ None) (λ found. keyed key.now (words_of words.now) ≡ Some (found.0.now, words_of found.1.now)) }
{
    let (word, rest) = split_word(words)?;
    let value = word.strip_prefix(key)?;
    Some((value, rest))
}

/// A number with a key.
pub fn number_field<'a, N: Number>(words: &'a [u8], key: &[u8]) -> Result<(N, &'a [u8]), Stop>
    ensures { Gives (λ x. (x.0, words_of x.1.now)) result (field key.now N.of (words_of words.now)) }
{
    let Some((text, rest)) = keyed(words, key) else {
        return Err(fault(words, Why::Missing));
    };
    match N::read(text) {
        Some(number) => Ok((number, rest)),
        None => Err(fault(words, Why::Value)),
    }
}

/// A number with a key, or this number.
pub fn optional_number<'a, N: Number>(
    words: &'a [u8],
    key: &[u8],
    default: N,
) -> Result<(N, &'a [u8]), Stop>
    ensures { Gives (λ x. (x.0, words_of x.1.now)) result (optional_field key.now N.of default (words_of words.now)) }
{
    let Some((text, rest)) = keyed(words, key) else {
        return Ok((default, words));
    };
    match N::read(text) {
        Some(number) => Ok((number, rest)),
        None => Err(fault(words, Why::Value)),
    }
}

/// An address with a key.
pub fn address_field<'a>(words: &'a [u8], key: &[u8]) -> Result<(u32, &'a [u8]), Stop>
    ensures { Gives (λ x. (x.0, words_of x.1.now)) result (field key.now address_of (words_of words.now)) }
{
    let Some((text, rest)) = keyed(words, key) else {
        return Err(fault(words, Why::Missing));
    };
    match read_addr(text) {
        Some(address) => Ok((address.0, rest)),
        None => Err(fault(words, Why::Value)),
    }
}

/// An address with a key, or this address.
pub fn optional_address<'a>(
    words: &'a [u8],
    key: &[u8],
    default: u32,
) -> Result<(u32, &'a [u8]), Stop>
    ensures { Gives (λ x. (x.0, words_of x.1.now)) result (optional_field key.now address_of default (words_of words.now)) }
{
    let Some((text, rest)) = keyed(words, key) else {
        return Ok((default, words));
    };
    match read_addr(text) {
        Some(address) => Ok((address.0, rest)),
        None => Err(fault(words, Why::Value)),
    }
}

/// Appends exactly so many octets in hexadecimal, and answers whether the text is that.
fn push_sized_hex(out: &mut Vec<u8>, count: u8, text: &[u8]) -> Result<bool, AllocError>
    ensures { IfOk result (λ read. sized_hex_onto count out.old.items text.now ≡ (if read then Some out.new.items else None)) }
{
    if text.len() != 2 + 2 * usize::from(count) {
        return Ok(false);
    }
    push_hex(out, text)
}

/// Exactly so many octets with a key, which are appended.
pub fn sized_hex_field<'a>(
    words: &'a [u8],
    key: &[u8],
    count: u8,
    out: &mut Vec<u8>,
) -> Result<&'a [u8], Stop>
    ensures { Gives (λ rest. (out.new.items, words_of rest.now)) result (field key.now (sized_hex_onto count out.old.items) (words_of words.now)) }
{
    let Some((text, rest)) = keyed(words, key) else {
        return Err(fault(words, Why::Missing));
    };
    if push_sized_hex(out, count, text)? {
        Ok(rest)
    } else {
        Err(fault(words, Why::Value))
    }
}

/// Exactly so many octets with a key, which are appended, or these octets.
pub fn optional_sized_hex<'a>(
    words: &'a [u8],
    key: &[u8],
    count: u8,
    default: &[u8],
    out: &mut Vec<u8>,
) -> Result<&'a [u8], Stop>
    ensures { Gives (λ rest. (out.new.items, words_of rest.now)) result (optional_field key.now (sized_hex_onto count out.old.items) (out.old.items ++ default.now) (words_of words.now)) }
{
    let Some((text, rest)) = keyed(words, key) else {
        out.extend_from_slice(default)?;
        return Ok(words);
    };
    if push_sized_hex(out, count, text)? {
        Ok(rest)
    } else {
        Err(fault(words, Why::Value))
    }
}

/// Octets with a key, which are appended; none where the key isn't there.
pub fn optional_hex<'a>(words: &'a [u8], key: &[u8], out: &mut Vec<u8>) -> Result<&'a [u8], Stop>
    ensures { Gives (λ rest. (out.new.items, words_of rest.now)) result (optional_field key.now (hex_onto out.old.items) out.old.items (words_of words.now)) }
{
    let Some((text, rest)) = keyed(words, key) else {
        return Ok(words);
    };
    if push_hex(out, text)? {
        Ok(rest)
    } else {
        Err(fault(words, Why::Value))
    }
}

/// Appends the octets of a code and a subcode with a slash between them.
#[tactic(auto, unfolding(crate::specs::Fields::code_onto))]
fn push_code(out: &mut Vec<u8>, text: &[u8]) -> Result<bool, AllocError>
    ensures { IfOk result (λ read. code_onto out.old.items text.now ≡ (if read then Some out.new.items else None)) }
{
    let Some((code, subcode)) = halves(text, b'/') else {
        return Ok(false);
    };
    let Some(code) = u8_in(code) else {
        return Ok(false);
    };
    let Some(subcode) = u8_in(subcode) else {
        return Ok(false);
    };
    out.push(code)?;
    out.push(subcode)?;
    Ok(true)
}

/// A code and a subcode, which are appended.
pub fn code_word<'a>(words: &'a [u8], out: &mut Vec<u8>) -> Result<&'a [u8], Stop>
    ensures { Gives (λ rest. (out.new.items, words_of rest.now)) result (value_word (code_onto out.old.items) (words_of words.now)) }
{
    let (word, rest) = next_word(words)?;
    if push_code(out, word)? {
        Ok(rest)
    } else {
        Err(fault(words, Why::Value))
    }
}
