//! A session that holds the seat of its router: from the answer to its claim to its end.
//!
//! Model: what is given to a call is the roster, the times that the clock can give, whether the mark may be set, and the session, the seat and the
//! link as they are. What was done is an account of it: what came to the session, what was put to the shards, what was to be
//! written and how much of it is, and the offers that were taken.
//!
//! A caller may rely on this: each shard was put exactly the events of the session's course over the octets that were read, in order, and then `Down`
//! where it reached Up; the link took the session's messages and the UPDATEs of the batches up to some octet, a KEEPALIVE
//! first; offers of the seat's generation are in these batches and no others, and all but the last batch are wholly written; each end has its
//! cause; the seat keeps its slot, its generation and its mailboxes.
//!
//! That an end comes isn't promised, nor that a message arrives.
//!
//! ```text
//! let mut seat = book.claim(rt, slot)?;
//! let end = serve_seated(rt, alloc, &mut link, &clock, &roster, session, &mut seat, &stop);
//! book.give_back(rt, seat);
//! ```
#![tactic(auto)]

mod ends;
mod serving;

pub use ends::{EndWhy, SessionEnd, ended_by};
pub use serving::serve_seated;

#[cfg(test)]
mod tests;
