//! One shard of the route control server: what the routers announce for its prefixes, which prefixes wait for a decision, and
//! what each router is given.
//!
//! **What makes a prefix pending** (RFC 4271 section 9):
//!
//! | Call | Pending afterwards are also |
//! |---|---|
//! | `up` | all prefixes that are announced |
//! | `down` | all prefixes that the slot announced |
//! | `announce`, `withdraw` | the prefix, where that changes what the slot announces |
//! | `view` | all prefixes of each router that announces, by a usable route or not, to which the cost from some router changes |
//!
//! `work` decides the least pending prefix for each connected slot, and then it isn't pending. Nothing else changes what is pending.
//!
//! A [`Shard`] means a server of the definitions, with routes as what is announced, and the cells that are dirty: those whose value
//! changed since it was last taken. A caller may rely on this:
//!
//! - Each call does to the server what the definitions' event of its name does, and answers exactly what is asked.
//! - `new` and `announce` alone take memory. After `NoMemory` the shard is as before.
//! - `work` filters the candidates once for all slots that reach the same routers, and each slot then takes its nearest among those
//!   few. A better route that a slot can't reach removes none that it can.
//!
//! ```text
//! shard.up(slot);
//! shard.announce(slot, prefix, route)?;      // the prefix is pending
//! shard.work();                              // Some(prefix)
//! while let Some(p) = shard.take_offer(other) {
//!     shard.table(other, p);                 // what is offered there
//! }
//! ```
#![tactic(auto)]

mod candidates;
mod classes;
mod marking;
mod settling;
mod shard;
mod slots;

pub use adj_ribs::AdjRibs;
pub use classes::find_classes;
pub use marking::moved_slots;
pub use shard::Shard;
