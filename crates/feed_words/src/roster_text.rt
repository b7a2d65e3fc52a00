//! The lines of a roster's text.

ghost use Rattle.std.specs.Prelude.{◌≡◌, ◌≤◌, ◌++◌, length, OnOk, option_to_list, List, ℕ, Bool, Option, Some, None, IfOk, if◌then◌else◌};
ghost use Rattle.feed_words.specs.declared.roster_text.Escape.TheVariants as escape;
ghost use Rattle.feed_words.specs.Texts.{escape_step, at_end, unescaped_onto, after_bar, after_dash, roster_line_onto, roster_part_onto, with_end};
ghost use Rattle.feed_words.specs.declared.fault.LineStop.TheVariants as line_stop;
ghost use Rattle.feed_words.specs.Ends.{GivesLine, IsAfterBar};

use crate::fault::{LineFault, LineStop};
use line_words::{Why, of_two_digits};
use std::alloc::AllocError;

/// The most octets that a roster's text has.
const MOST_TEXT: usize = 65536;

/// Where in an escape a text stands.
#[derive(Clone, Copy)]
pub(crate) enum Escape {
    /// In none.
    Plain,
    /// After a backslash.
    Slash,
    /// After `\x`.
    High,
    /// After `\x` and this digit.
    Low(u8),
}

/// What an octet does after those before it, and which octet it completes.
#[tactic(auto, unfolding(crate::specs::Texts::escape_step))]
fn escape_step(state: Escape, c: u8) -> Option<(Escape, Option<u8>)>
    ensures { result ≡ escape_step state c }
{
    match (state, c) {
        (Escape::Plain, b'\\') => Some((Escape::Slash, None)),
        (Escape::Plain, _) => Some((Escape::Plain, Some(c))),
        (Escape::Slash, b'\\') => Some((Escape::Plain, Some(b'\\'))),
        (Escape::Slash, b'x') => Some((Escape::High, None)),
        (Escape::Slash, _) => None,
        (Escape::High, _) => Some((Escape::Low(c), None)),
        (Escape::Low(high), _) => Some((Escape::Plain, Some(of_two_digits(high, c)?))),
    }
}

/// Appends what a text with escapes stands for, and answers whether its escapes are whole.
#[tactic(auto, unfolding(crate::specs::Texts::unescaped_onto))]
fn push_unescaped(out: &mut Vec<u8>, text: &[u8]) -> Result<bool, AllocError>
    ensures { IfOk result (λ read. unescaped_onto text.now escape.Plain out.old.items ≡ (if read then Some out.new.items else None)) }
{
    let mut state = Escape::Plain;
    for c in text {
        let Some((next, octet)) = escape_step(state, *c) else {
            return Ok(false);
        };
        push_some(out, octet)?;
        state = next;
    }
    Ok(is_plain(state))
}

fn push_some(out: &mut Vec<u8>, octet: Option<u8>) -> Result<(), AllocError>
    ensures { OnOk result (out.new.items ≡ out.old.items ++ option_to_list octet) }
{
    if let Some(octet) = octet {
        out.push(octet)?;
    }
    Ok(())
}

fn is_plain(state: Escape) -> bool
    ensures { (out : List ℕ) → at_end state out ≡ (if result then Some out else None) }
{
    matches!(state, Escape::Plain)
}

/// The text after a bar, and whether octet 0A follows it.
fn after_bar(line: &[u8]) -> Option<(&[u8], bool)>
    ensures { IsAfterBar result (after_bar line.now) }
{
    match line {
        [] => Some((line, true)),
        [b' ', text @ ..] => Some((text, true)),
        [b'-'] => Some((&[], false)),
        [b'-', b' ', text @ ..] => Some((text, false)),
        _ => None,
    }
}

/// Appends a line of a roster's text, which begins with a bar.
#[tactic(auto, unfolding(crate::specs::Texts::roster_line_onto))]
pub fn push_roster_line(body: &mut Vec<u8>, line: &[u8]) -> Result<(), LineStop>
    ensures gives { GivesLine (λ _. body.new.items) result (roster_line_onto body.old.items line.now) }
    ensures short { OnOk result (length body.new.items ≤ 65536) }
{
    let Some((_, line)) = line.split_first() else {
        return Err(word_fault(1, Why::Word));
    };
    let Some((text, ends)) = after_bar(line) else {
        return Err(word_fault(1, Why::Word));
    };
    if !push_unescaped(body, text)? {
        return Err(word_fault(2, Why::Value));
    }
    if ends {
        body.push(b'\n')?;
    }
    if body.len() > MOST_TEXT {
        return Err(word_fault(1, Why::Long));
    }
    Ok(())
}

/// A fault at the word of this number.
pub fn word_fault(word: usize, why: Why) -> LineStop
    ensures { result ≡ line_stop.Fault (record { word = word; why = why }) }
{
    LineStop::Fault(LineFault { word, why })
}
