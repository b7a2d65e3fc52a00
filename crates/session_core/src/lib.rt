//! A session with a router: the machine of RFC 4271 section 8, without a socket or a clock in it.
//!
//! What comes to a [`Session`] is octets with their time, the answer to its claim of a seat, a time alone, or the
//! connection's end. Each call answers [`Actions`]: the messages to send, what the router announces and withdraws, the
//! seat that it claims, and the end. Contracts see a session as the state of the definitions, and each call as their
//! answer to what came.
//!
//! A caller may rely on this: messages are handled in order, each with its last octet, and a faulty header with its 19th.
//! The first fault ends the session, with its code, subcode and data in a NOTIFICATION. How the octets are cut into
//! pieces changes nothing ([`any_cut`]). A session that is closed stays closed. After `NoMemory` a session is spent: each later call
//! answers that, but `end`, which closes it and takes no memory.
//!
//! ```text
//! let (mut session, opening) = Session::open(alloc, &roster, now)?; // opening.send has the OPEN
//! let actions = session.bytes(&roster, octets, now)?;
//! if let Some(slot) = actions.claim {
//!     let more = session.seated(&roster, seats.is_free(slot), now)?; // KEEPALIVE, or Cease
//! }
//! ```
#![tactic(auto)]

mod actions;
mod events;
mod handling;
mod laws;
mod opening;
mod reading;
mod sending;
mod session;
mod state;
mod table;
mod timers;
mod update;

pub use actions::{Actions, Closed, SessionEvent, Why};
pub use laws::any_cut;
pub use session::Session;

#[cfg(test)]
mod tests;
