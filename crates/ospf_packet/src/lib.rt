//! OSPF packets out of a stream of octets that comes in any pieces.
//!
//! A framer is the octets that came and weren't handed out yet, and the place in the stream where the first of them
//! stands. `feed` adds a front of a piece to them; `next` hands out the packet that is whole, says that there is
//! none yet, or says for ever after that the framing is lost, since no packet has the header that stands there.
//!
//! A caller may rely on this: the packets are those of the stream's one reading, however it was cut; a header is
//! judged as soon as its 24 octets are there; no memory is taken but that of one packet, when the framer is made.
//!
//! ```text
//! let mut framer = Framer::new(alloc)?;
//! while !piece.is_empty() {
//!     let taken = framer.feed(piece);
//!     piece = &piece[taken..];
//!     if let Some(packet) = framer.next()? {
//!         ..
//!     }
//! }
//! ```
#![tactic(auto)]

mod framer;
mod header;
mod laws;

pub use framer::{Framer, Unsynchronised};
pub use laws::{any_cut, more_octets, one_reading};

#[cfg(test)]
mod tests;
