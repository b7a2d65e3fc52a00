//! The lines of a piece of a feed or an output.

ghost use Rattle.std.specs.Prelude.{◌≡◌, ◌≤◌, length, true, Ok, OnOk, IsTrue};
ghost use Rattle.feed_words.specs.Joining.{EndsLine};
ghost use Rattle.feed_text.specs.Turns.{Spells};

use crate::checker::Checker;
use crate::comments::Comments;
use crate::octets::push_octets_line;
use crate::records::{push_named, push_record, raw_of};
use feed_words::octets_are_read_again;
use rcp_base::NoMemory;
use std::alloc::Global;

/// Writes the text of one piece after another.
#[derive(Drop)]
pub struct Printer {
    pub text: Vec<u8>,
    checker: Checker,
    comments: Comments,
}

impl Printer {
    pub fn new(alloc: Global, comments: Comments) -> Printer {
        Printer {
            text: Vec::new(alloc),
            checker: Checker::new(alloc),
            comments,
        }
    }

    /// The text of a record: with names where these lines stand for its octets, and else as octets.
    pub fn record(&mut self, octets: &[u8]) -> Result<(), NoMemory>
        requires { length octets.now ≤ 65545 }
        ensures { OnOk result (Spells self.new.text.items octets.now) }
    {
        if let Some(raw) = raw_of(octets) {
            self.text.clear();
            push_named(&mut self.text, raw, self.comments)?;
            if self.stands_for(octets)? {
                return Ok(());
            }
            self.text.clear();
            push_record(&mut self.text, raw)?;
            if self.stands_for(octets)? {
                return Ok(());
            }
        }
        self.octets(octets)
    }

    /// Whether the text stands for these octets.
    fn stands_for(&mut self, octets: &[u8]) -> Result<bool, NoMemory>
        ensures { result ≡ Ok true → Spells self.new.text.items octets.now }
    {
        if !ends_line(&self.text) {
            return Ok(false);
        }
        self.checker.stands_for(&self.text, octets)
    }

    /// The line of any octets.
    pub fn octets(&mut self, octets: &[u8]) -> Result<(), NoMemory>
        requires { length octets.now ≤ 65545 }
        ensures { OnOk result (Spells self.new.text.items octets.now) }
    {
        octets_are_read_again();
        self.text.clear();
        push_octets_line(&mut self.text, octets)?;
        Ok(())
    }
}

/// Whether a text is empty or ends with octet 0A.
fn ends_line(text: &[u8]) -> bool
    ensures { IsTrue result → EndsLine text.now }
{
    match text {
        [] | [.., b'\n'] => true,
        _ => false,
    }
}
