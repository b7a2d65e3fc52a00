//! Feeds and outputs as text: records shown as lines, and lines written as records.
//!
//! A caller may rely on this:
//!
//! - `show` writes a text for any octets, a feed that is cut off and no feed at all included; from this text `write` gives
//!   exactly these octets again.
//! - `write` writes exactly the octets of the lines before the first faulty one, and reports that line, its word and the cause.
//! - A fault of reading or writing is reported only where the source or the sink failed.
//!
//! Both read the source to its end. They keep one record, or one line and the text of the roster that is open.
//!
//! The names of records and messages need no law: a line with names is taken only where reading it gives the record's octets,
//! else the record is shown in hexadecimal.
//!
//! ```text
//! show(alloc, Comments::Shown, &mut source, &mut sink)?;
//! write(alloc, &mut source, &mut sink)?;
//! ```
#![tactic(auto)]

mod checker;
mod comments;
mod octets;
mod outputs;
mod printer;
mod records;
mod roster;
mod showing;
mod window;
mod writing;

pub use comments::Comments;
pub use feed_words::{TextFault, Why};
pub use showing::{ShowFault, show};
pub use writing::{WriteFault, write};

#[cfg(test)]
mod tests;
