//! The routing information bases of one shard (RFC 4271 section 3.2), joined: what each router announced (Adj-RIBs-In) and
//! what each is given (Adj-RIBs-Out), each route kept once.
//!
//! An [`AdjRibs`] means two finite maps from a prefix and a slot to a route, the announcements and the cells; the dirty cells; and
//! the opened prefixes. A caller may rely on this:
//!
//! - `announce` sets one announcement and opens its prefix; `withdraw` and `drop_all` take out what they say. They leave the cells as they are.
//! - `set_cell` gives a slot what a router announces at a prefix, or nothing, and makes the cell dirty exactly where its route
//!   changes. `clear` empties and cleans the cells of a slot.
//! - `take_dirty` gives the least dirty prefix of a slot and cleans it; `least_dirty` gives the same and cleans nothing. `next_dirty` gives
//!   the dirty cells of a slot in their order, one after another, through `&`, and `clean` cleans them all.
//! - Two announcements, and two cells, have one number exactly where they have one route.
//! - Only `new` and `announce` take memory, and after `NoMemory` all is as before.
//!
//! Routes are counted inside: one goes when no announcement and no cell has it.
//!
//! ```text
//! ribs.announce(Slot(1), p, route)?;              // p is opened
//! let from = ribs.announcers(p)[0];               // slot 1, with the number of its route
//! ribs.set_cell(Slot(2), p, Some(from));          // true: the cell is dirty
//! ribs.take_dirty(Slot(2));                       // p
//! ribs.cell(Slot(2), p);                          // the route
//! ```
#![tactic(auto)]

mod ribs;
mod uses;

pub use ribs::AdjRibs;
pub use route_store::{Announcer, RouteNo};

#[cfg(test)]
mod tests;
