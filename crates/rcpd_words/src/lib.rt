//! The settings of the program `rcpd`, by the words that follow the program's name.
//!
//! Contracts see a word as the list of its octets.
//!
//! | Option | Value |
//! |---|---|
//! | `--bgp` | where BGP sessions are accepted: an address, a colon and a port of 1 to 65535 |
//! | `--ls` | where streams of link state are accepted, likewise |
//! | `--sessions` | how many BGP sessions are served: 1 to 1024 |
//!
//! Each option stands exactly once, in any order. Its value is the next word, or follows `=` in the same word. There are no other
//! words, and no option is abbreviated.
//!
//! A caller may rely on this: words stand for one list of settings at most, [`Settings::of_words`] returns it, and it returns None exactly
//! where they stand for none. It takes no memory.
//!
//! ```text
//! Settings::of_words(&["--bgp", "127.0.0.1:1790", "--ls=127.0.0.1:1791", "--sessions", "3"])
//! ```
#![tactic(auto)]

mod options;
mod settings;

pub use settings::{Endpoint, Settings, words_stand_for_one_list_of_settings};

#[cfg(test)]
mod tests;
