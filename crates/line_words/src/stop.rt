//! Why words were not read.

ghost use Rattle.std.specs.Prelude.{◌≡◌};
ghost use Rattle.line_words.specs.declared.stop.Stop.TheVariants as stop;

use std::alloc::{AllocError, AllocFailed};
use thiserror::Error;

/// Why a line stands for no record.
#[derive(Clone, Copy, Debug, PartialEq, Eq, Error)]
pub enum Why {
    /// A word that is unknown, or stands where it may not.
    #[error("word")]
    Word,
    /// A value that can't be read or is out of range.
    #[error("value")]
    Value,
    /// The line ends before a word that must be there.
    #[error("missing")]
    Missing,
    /// A line of more than 2^20 octets, a body of more than 65,536, or a message, an LSA or a list that doesn't fit its length.
    #[error("long")]
    Long,
    /// A line of a roster's text where no roster is open.
    #[error("roster")]
    Roster,
}

/// A fault at a word, from which on so many words are left in the line.
#[derive(Clone, Copy)]
pub struct WordFault {
    pub left: usize,
    pub why: Why,
}

/// Why words were not read.
#[derive(Clone, Copy)]
pub enum Stop {
    /// No memory was found.
    NoMemory,
    /// A word is faulty.
    Fault(WordFault),
}

impl From<AllocError> for Stop {
    ghost from_gives = { λ _ e. e ≡ stop.NoMemory };

    fn from(_e: AllocError) -> Stop {
        Stop::NoMemory
    }
}

impl<T: Drop> From<AllocFailed<T>> for Stop {
    ghost from_gives = { λ _ e. e ≡ stop.NoMemory };

    fn from(_e: AllocFailed<T>) -> Stop {
        Stop::NoMemory
    }
}
