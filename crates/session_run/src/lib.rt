//! A session from the first octet of its link to the last: OPENs are exchanged, the seat of the router is claimed, the router is served, the
//! seat is given back and the link closed.
//!
//! Model: what is given to a call is the roster, the times that the clock can give, whether the mark may be set, and the link as it is. What
//! was done is an account of it: what came to the session, what was to be written and how much of it is, and, once the seat was got,
//! what was put to the shards and which offers were taken.
//!
//! A caller may rely on this: what is written is the platform's OPEN, then a Cease where the seat is out, and else what
//! [`session_serve`](serve_seated) writes, which is nothing before the claim was answered; each end has its cause; the link is closed.
//!
//! That an end comes isn't promised. The seat that was got is given back to the book, which no contract states.
//!
//! ```text
//! let end = serve_session(rt, alloc, &mut link, &clock, &roster, &book, &stop);
//! ```
#![tactic(auto)]

mod greeting;
mod session;

pub use greeting::greet;
pub use session::serve_session;

#[cfg(test)]
mod tests;
