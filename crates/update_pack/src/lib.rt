//! Packed UPDATEs (RFC 4271 section 4.3): the messages that send the cells of a router's table that changed.
//!
//! Model: a cell is a prefix with the attribute octets that it has now, or none. The messages of a list of cells are a list of octet
//! lists: first those of the withdrawn prefixes, then those of each group of prefixes with equal attribute octets, the groups by
//! their least prefix. A message has as many prefixes of its group as fit in 4,096 octets.
//!
//! A caller may rely on this: [`pack_cells`] gives exactly these messages, [`pack`] gives them for offers, and [`pack_numbered`] for
//! cells whose attribute octets have numbers. Where the prefixes rise, the messages replayed after any table give each cell its value and leave
//! the other prefixes. Nothing fails but memory.
//!
//! ```text
//! for message in pack(alloc, &offers)? {
//!     connection.send(message)
//! }
//! ```
#![tactic(auto)]

mod cells;
mod filling;
mod group;
mod grouping;
mod key;
mod laws;
mod numbered;
mod offered;
mod offers;

pub use cells::pack_cells;
pub use laws::two_prefixes_share_an_update;
pub use numbered::{NumberedCell, pack_numbered};
pub use offered::OfferedCell;
pub use offers::pack;

#[cfg(test)]
mod tests;
