//! Values that words spell.

ghost use Rattle.std.specs.Prelude.{◌≡◌, ◌^◌, List, ℕ, Option};
ghost use Rattle.rcp_base.specs.Text.{number_of};
ghost use Rattle.line_words.specs.Words.{words_of, below};
ghost use Rattle.line_words.specs.Reading.{Gives, value_word};
ghost use Rattle.line_words.specs.Values.{address_word};
ghost use Rattle.line_words.specs.Fields.{u8_of, u16_of, u32_of};

use crate::stop::{Stop, Why};
use crate::words::{fault, next_word};
use rcp_base::{read_addr, read_number};

/// A number below 2^8.
pub fn u8_in(text: &[u8]) -> Option<u8>
    ensures { result ≡ below (2 ^ 8) (number_of text.now) }
{
    u8::try_from(read_number(text)?).ok()
}

/// A number below 2^16.
pub fn u16_in(text: &[u8]) -> Option<u16>
    ensures { result ≡ below (2 ^ 16) (number_of text.now) }
{
    u16::try_from(read_number(text)?).ok()
}

/// A number below 2^32.
pub fn u32_in(text: &[u8]) -> Option<u32>
    ensures { result ≡ below (2 ^ 32) (number_of text.now) }
{
    u32::try_from(read_number(text)?).ok()
}

/// A number of a width that a word spells.
pub trait Number: Copy {
    /// The number of a text, where it spells one.
    ghost of: { List ℕ → Option Self };

    /// The number of a text.
    fn read(text: &[u8]) -> Option<Self>
        ensures { result ≡ of text.now };
}

impl Number for u8 {
    ghost of = { u8_of };

    fn read(text: &[u8]) -> Option<u8> {
        u8_in(text)
    }
}

impl Number for u16 {
    ghost of = { u16_of };

    fn read(text: &[u8]) -> Option<u16> {
        u16_in(text)
    }
}

impl Number for u32 {
    ghost of = { u32_of };

    fn read(text: &[u8]) -> Option<u32> {
        u32_in(text)
    }
}

impl Number for u64 {
    ghost of = { number_of };

    fn read(text: &[u8]) -> Option<u64> {
        read_number(text)
    }
}

/// A number.
pub fn number_word<N: Number>(words: &[u8]) -> Result<(N, &[u8]), Stop>
    ensures { Gives (λ x. (x.0, words_of x.1.now)) result (value_word N.of (words_of words.now)) }
{
    let (word, rest) = next_word(words)?;
    match N::read(word) {
        Some(number) => Ok((number, rest)),
        None => Err(fault(words, Why::Value)),
    }
}

/// An address.
pub fn address_word(words: &[u8]) -> Result<(u32, &[u8]), Stop>
    ensures { Gives (λ x. (x.0, words_of x.1.now)) result (address_word (words_of words.now)) }
{
    let (word, rest) = next_word(words)?;
    match read_addr(word) {
        Some(address) => Ok((address.0, rest)),
        None => Err(fault(words, Why::Value)),
    }
}
