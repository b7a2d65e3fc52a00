//! TCP links, the listeners of a daemon and the machine's clock, as the traits of `outside` over `mio`.
//!
//! No proof knows what a socket gives and takes, so contracts see no octets of these links. What is proved is safety, and that each count
//! rises exactly where its call says:
//!
//! - A read or a write is `Failed` only where the link failed: the peer reset it, or the system has an error for it. What is only not
//!   yet possible (nothing came, no room, a signal, no descriptor for a further link) is `NotReady`, or a write of 0.
//! - A link that is handed out is fresh: nothing was read or written, and its three counts are 0.
//!
//! Nobody waits without end: a link waits in [`Link::wait`](outside::Link::wait) until its socket is ready or the [`Bell`] rings, and a
//! net that finds no link rests up to a tenth of a second.
//!
//! ```text
//! let bell = Arc::new(alloc, Bell::new(&rt)?)?;
//! let mut net = MioNet::new(&rt, alloc, bgp, link_state, bell)?;
//! if let Accepted::Link(mut link) = net.accept_bgp()? {
//!     link.wait(1_000);
//! }
//! ```
#![tactic(auto)]

mod bell;
mod clock;
mod link;
mod net;
mod trouble;

pub use bell::{Bell, BellGate};
pub use clock::SystemClock;
pub use link::MioLink;
pub use net::MioNet;

#[cfg(test)]
mod tests;
