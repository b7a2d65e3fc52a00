//! Feeds and outputs as lines of text: from the words of a line to the octets of its record.
//!
//! Contracts see the lines of a text as the list of what stands between its octets 0A, and what they give as octets with the
//! first fault, if there is one. An [`Encoder`] is seen as the text of the roster that is open.
//!
//! A caller may rely on this: [`Encoder::line`] appends exactly the octets of the records that a line completes, or answers the
//! word and the cause of its first fault. Texts one after another give the octets of each ([`texts_join`]), and any octets have
//! a line ([`octets_are_read_again`]).
//!
//! ```text
//! let mut encoder = Encoder::new(alloc);
//! encoder.line(b"established 1 10.0.0.1", &mut octets)?;
//! encoder.end(&mut octets)?;
//! ```
#![tactic(auto)]

mod encoder;
mod fault;
mod laws;
mod parts;
mod records;
mod roster_text;

pub use encoder::{Encoder, MOST_LINE};
pub use fault::{LineFault, LineStop, TextFault};
pub use laws::{octets_are_read_again, texts_join};
pub use line_words::Why;
