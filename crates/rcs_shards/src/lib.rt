//! All shards of the route control server as one: each event goes to the shards that it concerns, and what a router is sent for
//! the cells that changed comes from all of them.
//!
//! A [`Shards`] means the roster and a server of the definitions for each shard, by number. A caller may rely on this:
//!
//! - Each event does to the shards what the definitions' event of its name does. A router that isn't connected changes nothing
//!   by a `down`, an `announce` or a `withdraw`.
//! - `work_all` and `work_least` work pending prefixes, `work_all` in one thread or in several, and give the UPDATEs for exactly the cells that change by it, packed. In
//!   between no cell is dirty: each call sends what it changes.
//! - What is asked is what the shard of the prefix answers, and all answers are an assignment by the law of `Assigned`.
//! - After `NoMemory` the shards are as sound as before. `announce` and `set_view` then changed nothing; the prefixes of a work
//!   call are worked, and what a router is to be sent for it is lost.
//!
//! ```text
//! let mut shards = Shards::new(alloc, roster, view)?;
//! shards.up(slot);
//! shards.announce(slot, prefix, route)?;                 // the prefix is pending in its shard
//! for messages in shards.work_all(&InTurn, &connected)? { .. }    // the UPDATEs of each slot of the list
//! ```
#![tactic(auto)]

mod answers;
mod asking;
mod cleaning;
mod cursors;
mod events;
mod least;
mod sending;
mod shards;
mod work;
mod workers;

pub use shards::Shards;
pub use work::Messages;
pub use workers::{InThreads, InTurn, Workers};

#[cfg(test)]
mod tests;
