//! Words of a line of text, taken from the front, and the values that they spell.
//!
//! Contracts see the rest of a line as the list of its words, without blanks and without a comment. A function that reads words
//! answers what they spell and the rest of the line, or the fault of the first word that it can't read.
//!
//! A caller may rely on this: `Gives` of each function says exactly which value the words spell, and exactly which word is
//! faulty and why. Want of memory is the only other answer.
//!
//! A list within a word is read by [`push_list`] over an [`Item`], a run of words of a kind by [`push_words`] over a [`Word`];
//! their ghost `onto` is the definition of what an item or a word stands for. A number is of a width of [`Number`].
//!
//! ```text
//! let (source, words) = number_word::<u32>(b"4 10.0.0.1 # a router")?;
//! let (id, words) = address_word(words)?;
//! ended(words)?;
//! ```
#![tactic(auto)]

mod fields;
mod hex;
mod lists;
mod stop;
mod values;
mod words;

pub use fields::{
    address_field, code_word, keyed, number_field, optional_address, optional_hex, optional_number,
    optional_sized_hex, sized_hex_field,
};
pub use hex::{hex_word, octet_word, octets_part, of_two_digits, push_hex};
pub use lists::{Item, Taken, Word, halves, push_list, push_words, split_at_first};
pub use stop::{Stop, Why, WordFault};
pub use values::{Number, address_word, number_word, u8_in, u16_in, u32_in};
pub use words::{count_words, ended, fault, next_word, split_word, without_return};
