//! Words of a line, taken from the front.

ghost use Rattle.std.specs.Prelude.{◌≡◌, ◌≢◌, ◌<◌, ◌≤◌, ℕ, ◌+◌, ◌==◌, false, not, List, [], ◌∷◌, length, drop, IfSome, MatchOption, slice_index};
ghost use Rattle.std.specs.List.{position};
ghost use Rattle.line_words.specs.declared.stop.Stop.TheVariants as stop;
ghost use Rattle.line_words.specs.Words.{words_of, is_blank, without_return};
ghost use Rattle.line_words.specs.Reading.{Gives, next_word, ended};

use crate::stop::{Stop, Why, WordFault};
use memchr::memchr2;

/// A line without a carriage return at its end.
pub fn without_return(line: &[u8]) -> &[u8]
    ensures { result.now ≡ without_return line.now }
{
    match line {
        [front @ .., b'\r'] => front,
        _ => line,
    }
}

fn is_blank(c: u8) -> bool
    ensures { result ≡ is_blank c }
{
    c == b' ' || c == b'\t'
}

/// The place of the first octet that isn't a blank.
fn first_of_word(line: &[u8]) -> Option<usize>
    ensures { result ≡ position (λ c. not (is_blank c)) line.now }
{
    line.iter().position(|c| !is_blank(*c))
}

fn first_blank(line: &[u8]) -> Option<usize>
    ensures { result ≡ position is_blank line.now }
{
    memchr2(b' ', b'\t', line)
}

/// The next word, and what stands after it. None where no word is left before a comment.
pub fn split_word(line: &[u8]) -> Option<(&[u8], &[u8])>
    ensures words { MatchOption result (words_of line.now ≡ []) (λ found. words_of line.now ≡ found.0.now ∷ words_of found.1.now) }
    ensures shorter { IfSome result (λ found. length found.1.now < length line.now) }
{
    let start = first_of_word(line)?;
    let (_, line) = line.split_at(start);
    word_in_front(line)
}

/// The same of a line that begins with a word or a comment.
fn word_in_front(line: &[u8]) -> Option<(&[u8], &[u8])>
    requires some { line.now ≢ [] }
    requires word { is_blank (slice_index line.now 0) ≡ false }
    ensures words { MatchOption result (words_of line.now ≡ []) (λ found. words_of line.now ≡ found.0.now ∷ words_of found.1.now) }
    ensures shorter { IfSome result (λ found. length found.1.now < length line.now) }
{
    if line[0] == b'#' {
        return None;
    }
    match first_blank(line) {
        Some(end) => Some(line.split_at(end)),
        None => Some((line, &[])),
    }
}

/// How many words are left.
pub fn count_words(line: &[u8]) -> usize
    ensures count { result ≡ length (words_of line.now) }
    ensures few { result ≤ length line.now }
{
    let mut count = 0;
    let mut rest = line;
    while let Some((_, more)) = split_word(rest) {
        count += 1;
        rest = more;
    }
    count
}

/// A fault at the first of these words.
pub fn fault(words: &[u8], why: Why) -> Stop
    ensures { result ≡ stop.Fault (record { left = length (words_of words.now); why = why }) }
{
    Stop::Fault(WordFault {
        left: count_words(words),
        why,
    })
}

/// The next word, which has to be there.
pub fn next_word(words: &[u8]) -> Result<(&[u8], &[u8]), Stop>
    ensures { Gives (λ x. (x.0.now, words_of x.1.now)) result (next_word (words_of words.now)) }
{
    match split_word(words) {
        Some(found) => Ok(found),
        None => Err(fault(words, Why::Missing)),
    }
}

/// No word is left.
pub fn ended(words: &[u8]) -> Result<(), Stop>
    ensures { Gives (λ _. []) result (ended (words_of words.now)) }
{
    match split_word(words) {
        Some(_) => Err(fault(words, Why::Word)),
        None => Ok(()),
    }
}
