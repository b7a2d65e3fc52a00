//! Octets in hexadecimal.

ghost use Rattle.std.specs.Prelude.{◌≡◌, [], Some, None, OnOk, IfOk, List, ℕ, Bool, if◌then◌else◌};
ghost use Rattle.line_words.specs.Words.{words_of, hex_digit, of_two_digits, hex_pairs_onto, hex_onto, hex_octet};
ghost use Rattle.line_words.specs.Reading.{Gives};
ghost use Rattle.line_words.specs.Values.{octet_word, hex_word, octets_part};

use crate::stop::{Stop, Why};
use crate::words::{fault, next_word};
use std::alloc::AllocError;

/// The value of a digit: 0 to 9, a to f, A to F.
fn hex_digit(c: u8) -> Option<u8>
    ensures { result ≡ hex_digit c }
{
    match c {
        b'0'..=b'9' => Some(c - b'0'),
        b'a'..=b'f' => Some(c - b'a' + 10),
        b'A'..=b'F' => Some(c - b'A' + 10),
        _ => None,
    }
}

/// The octet of two digits.
pub fn of_two_digits(high: u8, low: u8) -> Option<u8>
    ensures { result ≡ of_two_digits (hex_digit high) (hex_digit low) }
{
    let high = hex_digit(high)?;
    let low = hex_digit(low)?;
    Some(16 * high + low)
}

#[tactic(auto, unfolding(crate::specs::Words::hex_pairs_onto))]
/// Appends the octets of pairs of digits, and answers whether the text is pairs of digits.
fn push_pairs(out: &mut Vec<u8>, text: &[u8]) -> Result<bool, AllocError>
    ensures { IfOk result (λ read. hex_pairs_onto out.old.items text.now ≡ (if read then Some out.new.items else None)) }
{
    let mut rest = text;
    while let [high, low, more @ ..] = rest {
        let Some(octet) = of_two_digits(*high, *low) else {
            return Ok(false);
        };
        out.push(octet)?;
        rest = more;
    }
    Ok(rest.is_empty())
}

/// Appends the octets of `0x` and pairs of digits, and answers whether the text is that.
pub fn push_hex(out: &mut Vec<u8>, text: &[u8]) -> Result<bool, AllocError>
    ensures { IfOk result (λ read. hex_onto out.old.items text.now ≡ (if read then Some out.new.items else None)) }
{
    match text {
        [b'0', b'x', digits @ ..] => push_pairs(out, digits),
        _ => Ok(false),
    }
}

fn octet_in(text: &[u8]) -> Option<u8>
    ensures { result ≡ hex_octet text.now }
{
    match text {
        [b'0', b'x', high, low] => of_two_digits(*high, *low),
        _ => None,
    }
}

/// One octet.
pub fn octet_word(words: &[u8]) -> Result<(u8, &[u8]), Stop>
    ensures { Gives (λ x. (x.0, words_of x.1.now)) result (octet_word (words_of words.now)) }
{
    let (word, rest) = next_word(words)?;
    match octet_in(word) {
        Some(octet) => Ok((octet, rest)),
        None => Err(fault(words, Why::Value)),
    }
}

/// Any octets, which are appended.
pub fn hex_word<'a>(words: &'a [u8], out: &mut Vec<u8>) -> Result<&'a [u8], Stop>
    ensures { Gives (λ rest. (out.new.items, words_of rest.now)) result (hex_word out.old.items (words_of words.now)) }
{
    let (word, rest) = next_word(words)?;
    if push_hex(out, word)? {
        Ok(rest)
    } else {
        Err(fault(words, Why::Value))
    }
}

/// A part of octets in hexadecimal.
#[tactic(auto, unfolding(crate::specs::Values::octets_part))]
pub fn octets_part<'a>(words: &'a [u8], out: &mut Vec<u8>) -> Result<&'a [u8], Stop>
    ensures { Gives (λ rest. (out.new.items, words_of rest.now)) result (octets_part out.old.items (words_of words.now)) }
{
    let (word, rest) = next_word(words)?;
    if word == b"octets".as_slice() {
        hex_word(rest, out)
    } else {
        Err(fault(words, Why::Word))
    }
}
