//! The cells of the routers' tables: what each router is offered for each prefix, and which of it changed since it was
//! last taken (the Adj-RIBs-Out of RFC 4271 section 3.2).
//!
//! An [`OutTable`] means a set of opened prefixes, a finite map from a prefix and a slot to the number of a route, and
//! the set of the dirty keys. A caller may rely on this:
//!
//! - `set` changes one cell, and makes it dirty and answers true exactly where the value changes.
//! - `take_dirty` gives the least dirty prefix of a slot with the value there, and cleans it; `least_dirty` gives the same
//!   and cleans nothing.
//! - `next_dirty` gives the dirty prefixes of a slot in their order, one after another, through `&`, and `clean` cleans them all.
//! - `clear` empties and cleans the cells of a slot, and no others.
//! - `open` alone takes memory. Where there is none, the table is as before.
//!
//! `dirty_cells_are_those_changed` says over any run of changes that each cell has the value last set, and that the dirty
//! cells are exactly those changed since they were taken or cleared.
//!
//! Who sets cells counts the uses of the numbers in them.
//!
//! ```text
//! let mut table = OutTable::new(alloc, 400);
//! table.open(prefix)?;
//! let changed = table.set(slot, prefix, Some(number));
//! while let Some((prefix, number)) = table.take_dirty(slot) { .. }
//! ```
#![tactic(auto)]

mod columns;
mod dirty;
mod growth;
mod laws;
mod marks;
mod search;
mod setting;
mod table;

pub use laws::dirty_cells_are_those_changed;
pub use table::OutTable;

#[cfg(test)]
mod tests;
