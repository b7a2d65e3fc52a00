//! Lists within a word, and runs of words.

ghost use Rattle.std.specs.Prelude.{◌≡◌, ◌^◌, ◌<◌, ◌∷◌, ◌==◌, List, ℕ, [], length, Option, Some, None, IfOk, IfSome, MatchOption, if◌then◌else◌};
ghost use Rattle.std.specs.List.{position, slice_split};
ghost use Rattle.line_words.specs.Words.{words_of};
ghost use Rattle.line_words.specs.Reading.{Gives};
ghost use Rattle.line_words.specs.Fields.{halves, texts, split_at_first};
ghost use Rattle.line_words.specs.Lists.{items_onto, list_onto, words_within, IsTaken};

use crate::stop::{Stop, Why};
use crate::words::{fault, split_word};
use std::alloc::AllocError;

/// The most words of a run: a line has no more octets.
const MOST_WORDS: u32 = 1 << 20;

/// An item of a list within a word.
pub trait Item {
    /// The octets of a list with those of the item, where the text is one.
    ghost onto: { List ℕ → List ℕ → Option (List ℕ) };

    /// Appends the octets of the item, and answers whether the text is one.
    fn push(out: &mut Vec<u8>, text: &[u8]) -> Result<bool, AllocError>
        ensures { IfOk result (λ read. onto out.old.items text.now ≡ (if read then Some out.new.items else None)) };
}

/// Appends the octets of items with an octet between them, and answers whether the text is such a list.
pub fn push_list<I: Item>(out: &mut Vec<u8>, by: u8, text: &[u8]) -> Result<bool, AllocError>
    ensures { IfOk result (λ read. list_onto I.onto by out.old.items text.now ≡ (if read then Some out.new.items else None)) }
{
    let mut rest = text;
    while let Some((piece, more)) = halves(rest, by) {
        if !I::push(out, piece)? {
            return Ok(false);
        }
        rest = more;
    }
    I::push(out, rest)
}

/// What stands before and after the first such octet.
pub fn halves(text: &[u8], by: u8) -> Option<(&[u8], &[u8])>
    ensures halves { MatchOption result (halves by text.now ≡ None) (λ found. halves by text.now ≡ Some (found.0.now, found.1.now)) }
    ensures parts { MatchOption result (slice_split (λ c. c == by) text.now ≡ text.now ∷ [])
        (λ found. slice_split (λ c. c == by) text.now ≡ found.0.now ∷ slice_split (λ c. c == by) found.1.now) }
    ensures shorter { IfSome result (λ found. length found.1.now < length text.now) }
{
    let place = first_place(text, by)?;
    Some((&text[..place], &text[place + 1..]))
}

/// What stands before the first such octet, and after it where it is there.
pub fn split_at_first(text: &[u8], by: u8) -> (&[u8], Option<&[u8]>)
    ensures { (result.0.now, texts result.1) ≡ split_at_first by text.now }
{
    match halves(text, by) {
        Some((front, back)) => (front, Some(back)),
        None => (text, None),
    }
}

fn first_place(text: &[u8], by: u8) -> Option<usize>
    ensures { result ≡ position (λ c. c == by) text.now }
{
    text.iter().position(|c| *c == by)
}

/// What a word was taken for.
#[derive(Clone, Copy)]
pub enum Taken {
    /// A word of another kind: nothing was appended.
    Other,
    /// Its value can't be read.
    Unreadable,
    /// Its octets were appended.
    Pushed,
}

/// A word of a kind of which several may stand one after another.
pub trait Word {
    /// The octets of a list with those of the word: none where it is of another kind, and none within where its value can't
    /// be read.
    ghost onto: { List ℕ → List ℕ → Option (Option (List ℕ)) };

    /// Appends the octets of a word.
    fn push(out: &mut Vec<u8>, text: &[u8]) -> Result<Taken, AllocError>
        ensures { IfOk result (λ taken. IsTaken taken out.old.items out.new.items (onto out.old.items text.now)) };
}

/// Appends the octets of the words up to the first of another kind, and answers the words from there on.
pub fn push_words<'a, W: Word>(words: &'a [u8], out: &mut Vec<u8>) -> Result<&'a [u8], Stop>
    ensures { Gives (λ rest. (out.new.items, words_of rest.now)) result (words_within W.onto (2 ^ 20) out.old.items (words_of words.now)) }
{
    let mut rest = words;
    for _ in 0..MOST_WORDS {
        let Some((word, more)) = split_word(rest) else {
            return Ok(rest);
        };
        match W::push(out, word)? {
            Taken::Other => return Ok(rest),
            Taken::Unreadable => return Err(fault(rest, Why::Value)),
            Taken::Pushed => rest = more,
        }
    }
    Err(fault(rest, Why::Long))
}
