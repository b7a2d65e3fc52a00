//! Whether a text stands for exactly these octets.

ghost use Rattle.std.specs.Prelude.{◌≡◌, ◌<◌, ◌+◌, ◌^◌, ◌∷◌, ◌++◌, [], None, length, true, Ok, IfOk, IfSome, MatchOption, ◌==◌};
ghost use Rattle.std.specs.List.{position};
ghost use Rattle.line_words.specs.Words.{lines_of};
ghost use Rattle.feed_words.specs.Texts.{closed, line_gives, reading_of, whole};

use feed_words::{Encoder, LineStop};
use rcp_base::NoMemory;
use std::alloc::Global;

/// Reads texts as they are written, and compares.
#[derive(Drop)]
pub struct Checker {
    encoder: Encoder,
    piece: Vec<u8>,
}

impl Checker {
    pub fn new(alloc: Global) -> Checker {
        Checker {
            encoder: Encoder::new(alloc),
            piece: Vec::new(alloc),
        }
    }

    /// Whether the text stands for the octets, with no fault.
    pub fn stands_for(&mut self, text: &[u8], octets: &[u8]) -> Result<bool, NoMemory>
        ensures { result ≡ Ok true → reading_of text.now ≡ whole octets.now }
    {
        self.encoder.reset();
        let mut left = octets;
        let mut rest = text;
        while let Some((line, more)) = split_line(rest) {
            let Some(after) = self.rest_after(line, left)? else {
                return Ok(false);
            };
            left = after;
            rest = more;
        }
        let Some(last) = self.rest_after(rest, left)? else {
            return Ok(false);
        };
        self.ends_with(last)
    }

    /// What is left of the octets after those that a line gives. None where it gives others or is faulty.
    fn rest_after<'a>(
        &mut self,
        line: &[u8],
        octets: &'a [u8],
    ) -> Result<Option<&'a [u8]>, NoMemory>
        ensures line { IfOk result (λ found. IfSome found (λ rest. line_gives self.old.encoder line.now ≡ Ok (self.new.encoder, self.new.piece.items))) }
        ensures octets { IfOk result (λ found. IfSome found (λ rest. self.new.piece.items ++ rest.now ≡ octets.now)) }
    {
        self.piece.clear();
        match self.encoder.line(line, &mut self.piece) {
            Ok(()) => Ok(without_front(octets, &self.piece)),
            Err(LineStop::NoMemory) => Err(NoMemory),
            Err(LineStop::Fault(_)) => Ok(None),
        }
    }

    /// Whether the end of the lines gives exactly these octets.
    fn ends_with(&mut self, octets: &[u8]) -> Result<bool, NoMemory>
        ensures { result ≡ Ok true → closed self.old.encoder ≡ octets.now }
    {
        self.piece.clear();
        self.encoder.end(&mut self.piece)?;
        Ok(self.piece.as_slice() == octets)
    }
}

/// The octets after this front, where they begin with it.
fn without_front<'a>(octets: &'a [u8], front: &[u8]) -> Option<&'a [u8]>
    ensures { IfSome result (λ rest. front.now ++ rest.now ≡ octets.now) }
{
    octets.strip_prefix(front)
}

/// The place of the first octet 0A.
pub fn first_end(text: &[u8]) -> Option<usize>
    ensures first { result ≡ position (λ c. c == 10) text.now }
    ensures fits { IfSome result (λ place. place + 1 < 2 ^ 64) }
{
    text.iter().position(|c| *c == b'\n')
}

/// The first line without its end, and the text after it. None where no octet 0A is there.
pub fn split_line(text: &[u8]) -> Option<(&[u8], &[u8])>
    ensures lines { MatchOption result (lines_of text.now ≡ text.now ∷ []) (λ found. lines_of text.now ≡ found.0.now ∷ lines_of found.1.now) }
    ensures shorter { IfSome result (λ found. length found.1.now < length text.now) }
{
    let place = first_end(text)?;
    Some((&text[..place], &text[place + 1..]))
}
