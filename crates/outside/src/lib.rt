//! What lies outside of the platform: octets that come and go, links with peers, the time, and marks and gates for threads.
//!
//! The logic is generic over these traits, so that it can be proved and tested with no file, socket or clock. Their model:
//! a source is the octets still to come, a sink the octets taken, a link both of them with the octets given; each is known
//! from an implementation or not. All have a count of faults, which never falls and saturates.
//!
//! A caller may rely on this:
//!
//! - What a read puts into the buffer are the next octets, in order, none lost and none given twice; a write takes a front of
//!   the piece. A call that fails, or answers that it isn't ready, gives and takes nothing.
//! - `Failed` comes only where the count of faults rose in the call, or is at the last value of a `u64`. So code that is
//!   generic over the traits can't blame a failure on them that they didn't have. The end of a link and its empty writes have
//!   counts that nothing else moves.
//! - The end of a source stays the end. A link that a net hands out is fresh.
//! - A mark reads as set only where it may be set, and a clock answers only times that it can give. Neither fact can be had
//!   from anything else.
//!
//! For tests each trait has an implementation in memory, whose faults are chosen by the numbers of the calls.
//!
//! ```text
//! let mut source = MemSource::new(octets, Vec::new(alloc));
//! let mut sink = MemSink::new(alloc, Vec::new(alloc));
//! let mut buf = [0; 4096];
//! let count = source.read(&mut buf)?;
//! let (front, _) = buf.split_at(count);
//! write_all(&mut sink, front)
//! ```
#![tactic(auto)]

mod clock;
mod gate;
mod held_link;
mod link;
mod mem_link;
mod mem_net;
mod memory;
mod net;
mod sink;
mod source;
mod stop;

pub use clock::{Clock, MemClock};
pub use gate::{Gate, HeldGate, OpenGate};
pub use held_link::HeldLink;
pub use link::{Link, LinkRead};
pub use mem_link::MemLink;
pub use mem_net::MemNet;
pub use memory::{MemSink, MemSource};
pub use net::{Accepted, Net};
pub use sink::{Sink, write_all};
pub use source::Source;
pub use stop::StopMark;

/// A read or a write failed. It gave and took nothing, and its object's count of faults rose.
#[derive(Clone, Copy, Debug, PartialEq, Eq)]
pub struct Failed;

#[cfg(test)]
mod tests;
