//! Lines of a text, and words of a line.

ghost use Rattle.std.specs.Prelude.{◌≡◌, ◌≢◌, ℕ, ◌+◌, ◌<◌, ◌==◌, List, [], ◌∷◌, length, IfSome, MatchOption};
ghost use Rattle.std.specs.List.{position, slice_split, list_any};
ghost use Rattle.rcp_base.specs.Roster.{lines_of, words_of, is_empty};

/// The first line without its end, and the text after it. None where there is no line.
pub fn split_line(text: &[u8]) -> Option<(&[u8], &[u8])>
    ensures lines { MatchOption result (lines_of text.now ≡ []) (λ found. lines_of text.now ≡ found.0.now ∷ lines_of found.1.now) }
    ensures shorter { IfSome result (λ found. length found.1.now < length text.now) }
{
    if text.is_empty() {
        return None;
    }
    match split_once(text, b'\n') {
        Some(found) => Some(found),
        None => Some((text, &[])),
    }
}

/// Two spaces in a row, or one at an end, leave an empty word.
pub fn has_empty_word(line: &[u8]) -> bool
    ensures { result ≡ list_any is_empty (words_of line.now) }
{
    line.split(|c| *c == b' ').any(|word| word.is_empty())
}

/// The two words of a line.
pub fn two_words(line: &[u8]) -> Option<(&[u8], &[u8])>
    ensures { MatchOption result (length (words_of line.now) ≢ 2) (λ w. words_of line.now ≡ w.0.now ∷ w.1.now ∷ []) }
{
    let (word, rest) = split_once(line, b' ')?;
    match split_once(rest, b' ') {
        None => Some((word, rest)),
        Some(_) => None,
    }
}

/// The three words of a line.
pub fn three_words(line: &[u8]) -> Option<(&[u8], &[u8], &[u8])>
    ensures { MatchOption result (length (words_of line.now) ≢ 3) (λ w. words_of line.now ≡ w.0.now ∷ w.1.now ∷ w.2.now ∷ []) }
{
    let (word, rest) = split_once(line, b' ')?;
    let (a, b) = two_words(rest)?;
    Some((word, a, b))
}

/// The four words of a line.
pub fn four_words(line: &[u8]) -> Option<(&[u8], &[u8], &[u8], &[u8])>
    ensures { MatchOption result (length (words_of line.now) ≢ 4) (λ w. words_of line.now ≡ w.0.now ∷ w.1.now ∷ w.2.now ∷ w.3.now ∷ []) }
{
    let (word, rest) = split_once(line, b' ')?;
    let (a, b, c) = three_words(rest)?;
    Some((word, a, b, c))
}

/// What stands before and after the first such octet.
fn split_once(text: &[u8], octet: u8) -> Option<(&[u8], &[u8])>
    ensures parts { MatchOption result (slice_split (λ c. c == octet) text.now ≡ text.now ∷ [])
        (λ parts. slice_split (λ c. c == octet) text.now ≡ parts.0.now ∷ slice_split (λ c. c == octet) parts.1.now) }
    ensures count { IfSome result (λ parts. length parts.0.now + length parts.1.now + 1 ≡ length text.now) }
{
    let place = first_place(text, octet)?;
    Some((&text[..place], &text[place + 1..]))
}

/// The place of the first such octet.
fn first_place(text: &[u8], octet: u8) -> Option<usize>
    ensures { result ≡ position (λ c. c == octet) text.now }
{
    text.iter().position(|other| *other == octet)
}
