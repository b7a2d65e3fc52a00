//! How a run of the program ends.

use feed_text::TextFault;
use thiserror::Error;

/// How a run ends, and the line that says so.
#[derive(Clone, Copy, Debug, PartialEq, Eq, Error)]
pub enum Outcome {
    /// All input was read and everything was written.
    #[error("done")]
    Done,
    /// The words name no task.
    #[error("usage")]
    Usage,
    /// The first faulty line of a text.
    #[error("{0}")]
    Text(TextFault),
    /// The input has 2^64 - 1 records or lines, or more.
    #[error("too long")]
    TooLong,
    /// The input failed.
    #[error("read fault")]
    Read,
    /// The output failed.
    #[error("write fault")]
    Write,
    /// No memory was found.
    #[error("no memory")]
    NoMemory,
}

impl Outcome {
    /// The status with which the program ends.
    pub fn code(&self) -> u8 {
        match self {
            Outcome::Done => 0,
            Outcome::Usage => 2,
            Outcome::Text(_) | Outcome::TooLong => 3,
            Outcome::Read => 5,
            Outcome::Write => 6,
            Outcome::NoMemory => 7,
        }
    }
}
