//! A mailbox: a queue of bounded length by which many senders put messages for one receiver, each from its own thread.
//!
//! Its model: each sender has a number and the list of what it put; the receiver has the list of what it took, each message
//! with its sender's number. At every time between two steps, for each number, the messages of that number among those that
//! were taken and then those that are queued are exactly what was put under it, in its order. This is the rule of the
//! queue, which every step of every thread keeps. Between senders there is no order.
//!
//! A caller may rely on this: a message that is put comes once, whole, and in its sender's order, or is handed back with
//! `Full`; `Full` comes only where so many messages were queued as there is room for, and `None` only where none was, at a time
//! of the call; both are counted, and nothing else moves the counts. What was put and what was taken stand in the lists of the
//! two ends, and `finish` brings them together.
//!
//! That a message is ever taken isn't promised.
//!
//! ```text
//! let (senders, mut receiver) = make(rt, alloc, 2, 16)?;
//! // in the thread of a sender
//! put(rt, &mut sender, message)
//! // in the receiver's thread
//! match take(rt, &mut receiver) {
//!     Some((number, message)) => handle(number, message),
//!     None => receiver.rest(rt, 20),
//! }
//! ```
#![tactic(auto)]

mod ends;
mod making;
mod post;
mod rest;
mod rule;

pub use ends::{Receiver, Sender};
pub use making::{finish, make};
pub use post::{Full, put, take};

#[cfg(test)]
mod tests;
