//! The viewer of a running daemon: it reads streams of OSPF packets, one after another, and puts a view to every shard whenever the
//! edges of the interior network changed.
//!
//! A caller may rely on this:
//!
//! - After a stream the link state is that of all its octets, each piece at a time that the clock can give; the counts of LSAs are
//!   exact, and so is whether the framing was lost.
//! - Every shard is put the same views in the same order. The last one has the edges of the link state as they are.
//! - A stream ends where the link ended or failed, where the mark was set, or where there was no memory; the viewer ends for the last two alone.
//!
//! Which streams stand in the queue is known to whoever puts them there.
//!
//! ```text
//! let end = serve_links(rt, alloc, &queue, &clock, &mut igp, &mut senders, &stop);
//! if end.memory {
//!     stop_all();
//! }
//! ```
#![tactic(auto)]

mod links;
mod stream;
mod views;

pub use links::{ViewerEnd, serve_links};
pub use stream::{StreamEnd, StreamWhy, serve_stream};

#[cfg(test)]
mod tests;
