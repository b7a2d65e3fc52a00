//! The worker of one shard: it takes what the sessions and the viewer put into the shard's mailbox, works the pending prefixes, and
//! puts what changed for each connected router into the mailbox of that router's offers.
//!
//! A [`Worker`] means a running shard with the last generation of each slot, its mailbox, the mailboxes of offers by slot, and whether it was
//! refused memory. A caller may rely on this:
//!
//! - The shard is what was taken: its connected slots, announcements and link state are those that the messages taken make of the
//!   shard that the worker began with, in their order. A message out of place changes nothing.
//! - A `turn` takes messages first, then works pending prefixes, the least first, and then offers. Its counts are exact.
//! - At each prefix that isn't pending each connected slot has the route that is chosen for it. The offers of its generation that were
//!   put replay to its table, except where a cell is dirty.
//! - An offer is made before its cell is cleaned, so a cell whose mailbox is full stays dirty and is offered later.
//! - After `NoMemory` a worker is spent: each later `turn` takes nothing and answers `NoMemory`.
//!
//! Nothing is promised of when a message is taken, nor that two shards have the same view.
//!
//! ```text
//! let mut worker = Worker::new(shard, mail, offers);
//! for _ in rt.forever() {
//!     let turned = worker.turn(rt, 256, &gate)?;
//!     if turned.empty && last_session_has_ended() {
//!         break;
//!     }
//! }
//! let (shard, mail, offers) = worker.into_parts();
//! ```
#![tactic(auto)]

mod offering;
mod running;
mod worker;

pub use rcp_model::rcs_mail::ShardMail;
pub use worker::{Turned, Worker};
