//! What the session of a router exchanges with the shards: what the router reports is put to them, and their offers to it are taken.
//!
//! Model: an event of a session is a message to each shard, or none: `Up` with the seat's generation goes to every shard, a change to the shard of
//! its prefix alone. Offers are taken in batches; those of the seat's generation are packed into UPDATEs.
//!
//! A caller may rely on this: [`put_events`] puts to each shard exactly the messages of the events, in their order, and [`put_down`]
//! one `Down` to every shard; no message is lost or doubled where a mailbox is full, and what waits for the link is written
//! meanwhile. [`take_batch`] takes offers until there is none or 1,024 were taken; the UPDATEs that it answers are those of the
//! offers with the seat's generation, where for each prefix the last one counts. The seat keeps its slot, its generation and its mailboxes.
//!
//! That a full mailbox gets room again isn't promised: where a shard has no worker, a session waits for good.
//!
//! ```text
//! put_events(rt, link, &mut out, seat, actions.events);
//! out.push_updates(take_batch(rt, alloc, seat)?)?;
//! ```
#![tactic(auto)]

mod batch;
mod mails;

pub use batch::{MOST_OFFERS, take_batch};
pub use mails::{put_down, put_events};

#[cfg(test)]
mod tests;
