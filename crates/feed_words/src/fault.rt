//! What is wrong with a line.

ghost use Rattle.std.specs.Prelude.{◌≡◌};
ghost use Rattle.feed_words.specs.declared.fault.LineStop.TheVariants as line_stop;

use line_words::Why;
use std::alloc::{AllocError, AllocFailed};
use thiserror::Error;

/// A fault of a line, at the word of this number, from 1.
#[derive(Clone, Copy, Debug, PartialEq, Eq)]
pub struct LineFault {
    pub word: usize,
    pub why: Why,
}

/// The fault of the first faulty line of a text: the numbers of the line and of the word, from 1.
#[derive(Clone, Copy, Debug, PartialEq, Eq, Error)]
#[error("line {line} word {word}: {why}")]
pub struct TextFault {
    pub line: u64,
    pub word: usize,
    pub why: Why,
}

/// Why a line was not read.
#[derive(Clone, Copy)]
pub enum LineStop {
    /// No memory was found.
    NoMemory,
    /// The line is faulty.
    Fault(LineFault),
}

impl From<AllocError> for LineStop {
    ghost from_gives = { λ _ e. e ≡ line_stop.NoMemory };

    fn from(_e: AllocError) -> LineStop {
        LineStop::NoMemory
    }
}

impl<T: Drop> From<AllocFailed<T>> for LineStop {
    ghost from_gives = { λ _ e. e ≡ line_stop.NoMemory };

    fn from(_e: AllocFailed<T>) -> LineStop {
        LineStop::NoMemory
    }
}
