//! The commands of the program `rcp`, by the words that follow the program's name.
//!
//! Contracts see a word as the list of its octets.
//!
//! | Words | Command |
//! |---|---|
//! | `replay` | [`Command::Replay`] |
//! | `tables` | [`Report::Tables`] |
//! | `agree` | [`Report::Agree`] |
//! | `path ROUTER PREFIX` | [`Report::Path`] |
//! | `make N` | [`Command::Make`] |
//! | `trial N`, `trial --threads N`, `trial N --threads` | [`Command::Trial`] |
//!
//! ROUTER is an address, PREFIX an address, a slash and a length, and N a decimal number of at most 4294967295. No other word
//! may begin with `-`, and none is abbreviated.
//!
//! A caller may rely on this: words stand for one command at most, [`Command::of_words`] returns it, and it returns None
//! exactly where they stand for none. It takes no memory.
//!
//! ```text
//! Command::of_words(&["trial", "7", "--threads"]) // Some(Command::Trial { number: 7, threads: true })
//! ```
#![tactic(auto)]

mod command;

pub use command::{Command, Report, words_stand_for_one_command};

#[cfg(test)]
mod tests;
