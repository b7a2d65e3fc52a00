//! Lines of a text, one after another, as the octets that they stand for.

ghost use Rattle.std.specs.Prelude.{◌≡◌, ◌≤◌, [], ◌++◌, length, ◌^◌, None, Some, OnOk, OnErr, if◌then◌else◌};
ghost use Rattle.line_words.specs.Words.{words_of};
ghost use Rattle.line_words.specs.Reading.{Gives};
ghost use Rattle.feed_words.specs.Ends.{GivesLine};
ghost use Rattle.feed_words.specs.Texts.{closed, words_give, roster_line_gives, at_word, line_gives};

use crate::fault::LineStop;
use crate::records::{Head, piece_of, push_piece};
use crate::roster_text::{push_roster_line, word_fault};
use line_words::{Stop, Why, count_words, ended, split_word, without_return};
use std::alloc::{AllocError, Global};
use std::marker::Model;

/// The most octets that a line has.
pub const MOST_LINE: usize = 1 << 20;

/// Reads lines one after another. Contracts see the text of the roster whose lines are being read, where one is open.
#[derive(Drop)]
pub struct Encoder {
    open: bool,
    roster: Vec<u8>,
    body: Vec<u8>,
}

impl Model for Encoder {
    ghost use Rattle.std.specs.Prelude.{List, ℕ, ◌≤◌, length, Option, Some, None, if◌then◌else◌};

    ghost Value = { Option (List ℕ) };

    ghost view = { λ e. if e.open then Some e.roster.items else None };

    ghost invariant = { λ e. length e.roster.items ≤ 65536 };
}

impl Encoder {
    /// Before the first line.
    pub fn new(alloc: Global) -> Encoder
        ensures { result ≡ None }
    {
        Encoder {
            open: false,
            roster: Vec::new(alloc),
            body: Vec::new(alloc),
        }
    }

    /// Begins anew: no roster is open.
    pub fn reset(&mut self)
        ensures { self.new ≡ None }
    {
        self.open = false;
    }

    /// Reads a line, which has no octet 0A at its end, and appends the octets that it completes. After an `Err` no roster is
    /// open.
    pub fn line(&mut self, line: &[u8], out: &mut Vec<u8>) -> Result<(), LineStop>
        requires { out.old.items ≡ [] }
        ensures gives { GivesLine (λ _. (self.new, out.new.items)) result (line_gives self.old line.now) }
        ensures err { OnErr result (self.new ≡ None) }
    {
        let taken = self.take(line, out);
        if taken.is_err() {
            self.reset();
        }
        taken
    }

    /// Appends the record of the roster that is open, where one is.
    pub fn end(&mut self, out: &mut Vec<u8>) -> Result<(), AllocError>
        ensures ok { OnOk result (out.new.items ≡ out.old.items ++ closed self.old) }
        ensures none { OnOk result (self.new ≡ None) }
    {
        push_roster(self.open, &self.roster, out)?;
        self.open = false;
        Ok(())
    }

    #[tactic(auto, unfolding(crate::specs::Texts::line_gives))]
    fn take(&mut self, line: &[u8], out: &mut Vec<u8>) -> Result<(), LineStop>
        requires { out.old.items ≡ [] }
        ensures { GivesLine (λ _. (self.new, out.new.items)) result (line_gives self.old line.now) }
    {
        if line.len() > MOST_LINE {
            return Err(word_fault(1, Why::Long));
        }
        let line = without_return(line);
        if line.starts_with(b"|") {
            self.roster_line(line)
        } else {
            self.counted_words(line, out)
        }
    }

    /// A line of a roster's text.
    fn roster_line(&mut self, line: &[u8]) -> Result<(), LineStop>
        ensures { GivesLine (λ _. (self.new, [])) result (roster_line_gives self.old line.now) }
    {
        if !self.open {
            return Err(word_fault(1, Why::Roster));
        }
        let pushed = push_roster_line(&mut self.roster, line);
        if pushed.is_err() {
            self.roster.clear();
        }
        pushed
    }

    /// A line of words, whose fault has the number of its word.
    fn counted_words(&mut self, line: &[u8], out: &mut Vec<u8>) -> Result<(), LineStop>
        requires empty { out.old.items ≡ [] }
        requires short { length line.now ≤ 2 ^ 20 }
        ensures { GivesLine (λ _. (self.new, out.new.items)) result (at_word (words_of line.now) (words_give self.old (words_of line.now))) }
    {
        match self.words(line, out) {
            Ok(()) => Ok(()),
            Err(Stop::NoMemory) => Err(LineStop::NoMemory),
            Err(Stop::Fault(fault)) => Err(word_fault(
                count_words(line).saturating_sub(fault.left) + 1,
                fault.why,
            )),
        }
    }

    fn words(&mut self, line: &[u8], out: &mut Vec<u8>) -> Result<(), Stop>
        requires { out.old.items ≡ [] }
        ensures { Gives (λ _. (self.new, out.new.items)) result (words_give self.old (words_of line.now)) }
    {
        let Some((word, rest)) = split_word(line) else {
            return Ok(());
        };
        if word == b"roster".as_slice() {
            ended(rest)?;
            push_roster(self.open, &self.roster, out)?;
            self.roster.clear();
            self.open = true;
            return Ok(());
        }
        self.body.clear();
        let head = piece_of(line, word, rest, &mut self.body)?;
        push_roster(self.open, &self.roster, out)?;
        push_piece(out, head, &self.body)?;
        self.open = false;
        Ok(())
    }
}

/// Appends the record of a roster, if one is open.
fn push_roster(is_open: bool, text: &[u8], out: &mut Vec<u8>) -> Result<(), AllocError>
    requires { length text.now ≤ 65536 }
    ensures { OnOk result (out.new.items ≡ out.old.items ++ closed (if is_open then Some text.now else None)) }
{
    if !is_open {
        return Ok(());
    }
    let head = Some(Head {
        kind: b'C',
        source: 0,
    });
    push_piece(out, head, text)
}
